//! What lies behind the lock: a core, and the flush that is on its way.
ghost use Rattle.std.specs.Prelude.{◌≡◌, ◌⊎◌, ◌↔◌, ◌^◌, ◌<◌, ◌≤◌, ◌∷◌, ◌++◌, [], length, None, Some, IfOk, IfErr, IsTrue, OnOk, OnErr, IsOkUnless};
ghost use Rattle.slate_types.specs.declared.error.SlateDBError.{SlateDBError};
ghost use Rattle.slate_txn.specs.declared.event.Event.TheVariants.{Begin, End, Install};
ghost use Rattle.slate_txn.specs.Named.{find_named};
ghost use Rattle.slate_txn.specs.Places.{IsQuiet};
ghost use Rattle.slate_txn.specs.Replay.{replay, IsLegal};
ghost use Rattle.slate_txn.specs.State.{Tx, last_of};
ghost use Rattle.slate_db.specs.declared.flight.Flight.{Flight};
ghost use Rattle.slate_db.specs.Flushed.{AreTablesOfFlush, Layout};
ghost use Rattle.slate_db.specs.Flying.{took};
ghost use Rattle.slate_db.specs.Installs.{AreRunsOf, tables_of};
ghost use Rattle.slate_db.specs.KeyShares.{IsKeyShare};
ghost use Rattle.slate_db.specs.Log.{LIMIT};
ghost use Rattle.slate_db.specs.Model.{CoreModel};
ghost use Rattle.slate_db.specs.Readable.{AreFiltered};
ghost use Rattle.slate_db.specs.Segmented.{IsSegmented};
ghost use Rattle.slate_db.specs.Sound.{IsKept};
ghost use Rattle.slate_shared.specs.Errands.{Departs, IsInstalled, IsNextFlush, Refusal};
ghost use Rattle.slate_txn.specs.Settings.{settings_of};
ghost use Rattle.slate_shared.specs.KeyReads.{IsTaken};
ghost use Rattle.slate_shared.specs.Locked.{NamesTables};
ghost use Rattle.slate_shared.specs.LockedModel.{frozen_by, grow, holds_at, IsFull};

mod commits;
mod ranges;

use crate::aboard::Aboard;
use crate::errand::Errand;
use crate::parts::Parts;
use bytes::Bytes;
use slate_db::engine::Core;
use slate_db::flight::share_all;
use slate_db::key_share::KeyShare;
use slate_read::SortedRun;
use slate_txn::{Journal, TableList};
use slate_types::{IsolationLevel, Options, SlateDBError};
use std::alloc::Global;
use std::marker::{Model, PhantomData};
use uuid::Uuid;

/// The core, and the flush on its way. Contracts see the journal and that flush.
#[derive(Drop)]
pub struct Locked<P: Parts> {
    core: Core,
    flight: Option<Aboard>,
    /// Through which sequence the last install went.
    installed: Option<u64>,
    alloc: Global,
    parts: PhantomData<P>,
}

impl<P: Parts> Model for Locked<P> {
    ghost use Rattle.slate_shared.specs.LockedModel.{LockedModel, holds_at};
    ghost use Rattle.slate_shared.specs.Locked.{IsHeld, NamesTables};
    ghost use Rattle.slate_txn.specs.Settings.{settings_of};

    ghost Value = { LockedModel };

    ghost view = { λ s. holds_at s.core.events s.flight };

    ghost invariant = { λ s. IsHeld (settings_of P.options) P.meaning P.segments s.flight s.installed s.core × NamesTables P.meaning P.policies s.core.events };
}

impl<P: Parts> Locked<P> {
    /// A core without events, and no flush. Takes no memory.
    pub(crate) fn new(alloc: Global, options: &Options) -> Locked<P>
        requires options { options.now ≡ P.options }
        requires start { options.now.start_seq ≤ 18446744073709551614 }
        ensures { result ≡ holds_at [] None }
    {
        Locked {
            core: Core::new(alloc, options),
            flight: None,
            installed: None,
            alloc,
            parts: PhantomData,
        }
    }

    /// The core.
    pub(crate) fn into_core(self) -> Core
        ensures events { result.events ≡ self.events }
        ensures kept { IsKept P.meaning result }
        ensures segmented { IsSegmented P.segments result }
        ensures settings { result.settings ≡ settings_of P.options }
        ensures named { NamesTables P.meaning P.policies result.events }
    {
        let Locked { core, .. } = self;
        core
    }

    /// A copy of the journal, which shares keys, values and the bytes of tables.
    pub(crate) fn copy_journal(&self) -> Result<Journal, SlateDBError>
        ensures copy { IfOk result (λ copy. copy.events ≡ self.now.events) }
        ensures legal { IsLegal P.options.start_seq self.now.events }
        ensures named { NamesTables P.meaning P.policies self.now.events }
        ensures cause { IsOkUnless result SlateDBError.OutOfMemory }
    {
        Ok(self.core.journal().try_clone()?)
    }

    /// How many events there are so far.
    pub(crate) fn len(&self) -> u64
        ensures count { result ≡ length self.now.events }
        ensures legal { IsLegal P.options.start_seq self.now.events }
        ensures few { result < 2 ^ 62 }
    {
        self.core.journal().as_slice().len() as u64
    }

    /// What a read of a key at a sequence takes of the core as it is now. The one error is `OutOfMemory`.
    pub(crate) fn share_key(&mut self, key: &Bytes, at: u64) -> Result<KeyShare, SlateDBError>
        ensures same { self.new ≡ self.old }
        ensures shared { IfOk result (λ s. (c : CoreModel) × IsTaken (settings_of P.options) P.meaning P.segments self.old.events c × IsKeyShare c key.now at s) }
        ensures cause { IsOkUnless result SlateDBError.OutOfMemory }
    {
        self.core.journal();
        self.core.share_key(key, at)
    }

    /// Opens a transaction at the newest sequence, and makes room for its end. Refuses by `LimitReached` where the journal has no place
    /// for both events, and by `OutOfMemory`, and then nothing is opened.
    pub(crate) fn begin(&mut self, level: IsolationLevel) -> Result<(Uuid, u64), SlateDBError>
        ensures ok { IfOk result (λ r. (self.new ≡ grow self.old (Begin r.0 level r.1)) × (r.1 ≡ last_of P.options.start_seq (replay self.old.events).commits)) }
        ensures fresh { IfOk result (λ r. find_named r.0 (replay self.old.events).txns ≡ None) }
        ensures err { OnErr result (self.new ≡ self.old) }
        ensures cause { IfErr result (λ e. (e ≡ SlateDBError.OutOfMemory) ⊎ ((e ≡ SlateDBError.LimitReached LIMIT) × IsFull 2 self.old.events)) }
    {
        self.core.journal();
        self.core.begin(level)
    }

    /// Ends an open transaction, in the room that its begin made.
    pub(crate) fn end(&mut self, id: &Uuid)
        requires { (t : Tx) × (find_named id.now (replay self.old.events).txns ≡ Some t) }
        ensures { self.new ≡ grow self.old (End id.now) }
    {
        self.core.journal();
        self.core.rollback(id);
    }

    /// Moves the active rows behind those that wait for a flush. Gives the newest sequence, and whether an event says so: none does
    /// where there are no active rows. Refuses by `LimitReached` where the journal has no place for the event, and by `OutOfMemory`, and
    /// then nothing is moved.
    pub(crate) fn freeze(&mut self) -> Result<(u64, bool), SlateDBError>
        ensures ok { IfOk result (λ r. (self.new ≡ frozen_by self.old r.1) × (r.0 ≡ last_of P.options.start_seq (replay self.old.events).commits)) }
        ensures quiet { OnOk result (IsQuiet self.new.events) }
        ensures err { OnErr result (self.new ≡ self.old) }
        ensures cause { IfErr result (λ e. (e ≡ SlateDBError.OutOfMemory) ⊎ ((e ≡ SlateDBError.LimitReached LIMIT) × IsFull 1 self.old.events)) }
    {
        let before = self.core.journal().len();
        let last = self.core.freeze()?;
        let after = self.core.journal().len();
        Ok((last, before < after))
    }

    /// Whether no flush is on its way.
    pub(crate) fn is_free(&self) -> bool
        ensures { IsTrue result ↔ (self.now.flight ≡ None) }
    {
        self.flight.is_none()
    }

    /// Whether a flush through this sequence or a later one was installed.
    pub(crate) fn is_installed(&self, seq: u64) -> bool
        ensures { IsTrue result → IsInstalled seq self.now.events }
    {
        match self.installed {
            Some(through) => seq <= through,
            None => false,
        }
    }

    /// Freezes, and sets off with what waits for a flush, where something does. Says whether an event tells of the freeze, gives the
    /// newest sequence, and what the flush needs until it lands. Refuses by `LimitReached` where the journal has no place for the
    /// event, and by `OutOfMemory`, and then no flush is on its way.
    pub(crate) fn depart(&mut self) -> (bool, Result<(u64, Option<Errand>), SlateDBError>)
        requires { self.old.flight ≡ None }
        ensures event { self.new.events ≡ (frozen_by self.old result.0).events }
        ensures off { Departs P.options P.meaning self.old.events self.new.events self.new.flight result.1 }
    {
        let before = self.core.journal().len();
        let taken = self.core.take_flight();
        let added = before < self.core.journal().len();
        match taken {
            Ok((last, None)) => (added, Ok((last, None))),
            Ok((last, Some((flight, tables)))) => {
                let mut tables = tables;
                let Ok(shared) = share_all(self.alloc, &mut tables) else {
                    return (added, Err(SlateDBError::OutOfMemory));
                };
                self.flight = Some(Aboard::new(&flight, shared));
                let errand = Errand {
                    number: flight.number,
                    barrier: flight.barrier,
                    tables,
                };
                (added, Ok((last, Some(errand))))
            }
            Err(refused) => (added, Err(refused)),
        }
    }

    /// Installs the tables of the flush on its way, and gives the last sequence that it stored. Refuses by `LimitReached` where the
    /// journal has no place for the event, and by `OutOfMemory`, and then nothing is installed. No flush is on its way then.
    pub(crate) fn land(
        &mut self,
        tables: TableList,
        runs: Vec<SortedRun>,
    ) -> Result<u64, SlateDBError>
        requires { (f : Flight) × (self.old.flight ≡ Some f) × AreRunsOf tables runs.items × ((layout : Layout) × (layout.policies ≡ P.policies) × AreTablesOfFlush P.meaning layout f.number f.barrier (took f) tables) }
        ensures free { self.new.flight ≡ None }
        ensures event { IfOk result (λ n. self.new.events ≡ self.old.events ++ Install n tables ∷ []) }
        ensures through { (f : Flight) → self.old.flight ≡ Some f → IfOk result (λ n. n ≡ f.through) }
        ensures next { (f : Flight) → self.old.flight ≡ Some f → IsNextFlush f.number self.old.events }
        ensures filtered { AreFiltered P.meaning.encode P.policies (tables_of self.new.events) }
        ensures same { OnErr result (self.new.events ≡ self.old.events) }
        ensures cause { IfErr result (Refusal 1 self.old.events) }
    {
        self.core.journal();
        let Some(aboard) = self.flight.take() else {
            unreachable!()
        };
        let flight = aboard.flight();
        let through = self.core.install_flight(&flight, tables, runs)?;
        self.installed = Some(through);
        Ok(through)
    }

    /// Gives up the flush on its way. What it took waits as before.
    pub(crate) fn abandon(&mut self)
        ensures left { self.new ≡ holds_at self.old.events None }
        ensures next { (f : Flight) → self.old.flight ≡ Some f → IsNextFlush f.number self.old.events }
    {
        self.flight = None;
    }
}
