//! What a thread uses the database with.
ghost use Rattle.std.specs.Prelude.{◌≡◌, ◌⊎◌, ◌+◌, ◌<◌, [], ◌∷◌, ◌++◌, List, IfOk, IfErr, OnErr, OnOk, IsOkUnless};
ghost use mathlib.Core.List.{IsPrefix};
ghost use Rattle.slate_types.specs.declared.error.SlateDBError.{SlateDBError};
ghost use Rattle.slate_txn.specs.declared.event.Event.{Event};
ghost use Rattle.slate_txn.specs.declared.event.Event.TheVariants.{Begin, Freeze};
ghost use Rattle.slate_txn.specs.Places.{IsQuiet};
ghost use Rattle.slate_txn.specs.Replay.{replay, IsLegal};
ghost use Rattle.slate_txn.specs.State.{begun, last_of};
ghost use Rattle.slate_db.specs.Log.{LIMIT};
ghost use Rattle.slate_shared.specs.LockedModel.{IsFull};
ghost use Rattle.slate_shared.specs.Locked.{NamesTables};
ghost use Rattle.slate_shared.specs.Shared.{IsOwner, OwnsAll, all_parts, longer};

use crate::board::Place;
use crate::database::Database;
use crate::lock::{add, keep, take};
use crate::parts::Parts;
use crate::plays::{Fork, Look, Merge, Offshoot};
use crate::txn::DbTransaction;
use slate_txn::{DbTransactionInner, Journal};
use slate_types::{IsolationLevel, SlateDBError};
use std::marker::{Model, PhantomData};
use std::sync::Wait;

/// What a thread uses the database with: what it has seen of the journal, and the places there of its own commits, writes and
/// installs. It has no bytes.
#[derive(Drop)]
pub struct Pass<P: Parts> {
    pub(crate) seat: Place<P>,
    pub(crate) parts: PhantomData<P>,
}

impl<P: Parts> Model for Pass<P> {
    ghost use Rattle.std.specs.Prelude.{◌≡◌, ◌<◌, [], None};
    ghost use Rattle.slate_shared.specs.Passes.{PassModel, pass_model};

    ghost Value = { PassModel };

    ghost view = { λ p. pass_model p.seat.table_id p.seat.me.0 };

    ghost invariant = { λ p. (p.seat.me.1 ≡ []) × (0 < p.seat.me.0.parts) × (p.seat.me.0.txn ≡ None) × (p.seat.me.0.flight ≡ None) };
}

impl<P: Parts> Pass<P> {
    /// Another pass, which has seen the same, with one of the parts. It takes no memory and no lock.
    pub fn split(&mut self, db: &Database<P>) -> Pass<P>
        requires { (self.old.table ≡ db.now) × (1 < self.old.parts) }
        ensures same { (self.new.table ≡ self.old.table) × (self.new.parts + 1 ≡ self.old.parts) × (self.new.seen ≡ self.old.seen) × (self.new.own ≡ self.old.own) }
        ensures new { (result.table ≡ self.old.table) × (result.parts ≡ 1) × (result.seen ≡ self.old.seen) × (result.own ≡ []) }
    {
        let seat = db.board.shared.split_seat::<Fork>(&mut self.seat);
        Pass {
            seat,
            parts: PhantomData,
        }
    }

    /// Takes in what another pass has seen and done. It takes no memory and no lock.
    pub fn join(&mut self, db: &Database<P>, other: Pass<P>)
        requires { (self.old.table ≡ db.now) × (other.table ≡ db.now) }
        ensures table { self.new.table ≡ self.old.table }
        ensures seen { (self.new.seen ≡ longer self.old.seen other.seen) × IsPrefix self.old.seen self.new.seen × IsPrefix other.seen self.new.seen }
        ensures own { (self.new.own ≡ self.old.own ++ other.own) × (self.new.parts ≡ self.old.parts + other.parts) }
    {
        let Pass { seat, parts: _ } = other;
        let top = &db.board.shared;
        top.join_seat::<Merge>(&mut self.seat, seat);
        top.load::<Look>(&mut self.seat, 0);
    }

    /// Opens a transaction at the last sequence of a journal that begins with what the pass has seen. Refuses by `LimitReached` where
    /// the journal has no place for its begin and its end, and by `OutOfMemory`. Then nothing is opened, and the pass has seen all of
    /// that journal.
    pub fn begin<R: Wait>(
        &mut self,
        rt: &R,
        db: &Database<P>,
        level: IsolationLevel,
    ) -> Result<DbTransaction<P>, SlateDBError>
        requires { self.old.table ≡ db.now }
        ensures same { (self.new.table ≡ self.old.table) × (self.new.parts ≡ self.old.parts) × (self.new.own ≡ self.old.own) }
        ensures seen { IsPrefix self.old.seen self.new.seen }
        ensures opened { OnOk result (self.new ≡ self.old) }
        ensures begun { IfOk result (λ t. (t.table ≡ self.old.table) × (t.tx ≡ begun level t.tx.begin) × ((before : List Event) × IsPrefix self.old.seen before × (t.seen ≡ before ++ Begin t.id level t.tx.begin ∷ []) × (t.tx.begin ≡ last_of P.options.start_seq (replay before).commits))) }
        ensures legal { IfOk result (λ t. IsLegal P.options.start_seq t.seen) }
        ensures cause { IfErr result (λ e. (e ≡ SlateDBError.OutOfMemory) ⊎ ((e ≡ SlateDBError.LimitReached LIMIT) × IsFull 2 self.new.seen)) }
    {
        let top = &db.board.shared;
        let mut seat = top.split_seat::<Offshoot>(&mut self.seat);
        let mut locked = take(rt, top, &mut seat);
        let (id, start) = match locked.begin(level) {
            Ok(opened) => opened,
            Err(refused) => {
                keep(top, &mut seat, locked);
                top.join_seat::<Merge>(&mut self.seat, seat);
                return Err(refused);
            }
        };
        add(top, &mut seat, locked);
        let own = DbTransactionInner::new(db.alloc, level, start);
        Ok(DbTransaction {
            alloc: db.alloc,
            seat,
            id,
            own,
            parts: PhantomData,
        })
    }

    /// A copy of the journal, all of which the pass has then seen. It shares keys, values and the
    /// bytes of tables, and is made while the lock is held. Of a pass that has all parts, its own
    /// commits, writes and installs are all that the journal has. The one error is `OutOfMemory`.
    pub fn journal<R: Wait>(&mut self, rt: &R, db: &Database<P>) -> Result<Journal, SlateDBError>
        requires { self.old.table ≡ db.now }
        ensures same { (self.new.table ≡ self.old.table) × (self.new.parts ≡ self.old.parts) × (self.new.own ≡ self.old.own) }
        ensures seen { IsPrefix self.old.seen self.new.seen × IsLegal P.options.start_seq self.new.seen }
        ensures own { IsOwner self.new.own self.new.seen }
        ensures whole { self.old.parts ≡ all_parts → OwnsAll self.new.own self.new.seen }
        ensures named { NamesTables P.meaning P.policies self.new.seen }
        ensures copy { IfOk result (λ copy. copy.events ≡ self.new.seen) }
        ensures cause { IsOkUnless result SlateDBError.OutOfMemory }
    {
        let top = &db.board.shared;
        let locked = take(rt, top, &mut self.seat);
        let copy = locked.copy_journal();
        keep(top, &mut self.seat, locked);
        copy
    }

    /// Moves the rows of the commits since the last freeze behind those that wait for a flush, and gives the newest sequence. Where
    /// there are none no event says so. Refuses by `LimitReached` where the journal has no place for the event, and by `OutOfMemory`,
    /// and then nothing is moved.
    pub fn freeze<R: Wait>(&mut self, rt: &R, db: &Database<P>) -> Result<u64, SlateDBError>
        requires { self.old.table ≡ db.now }
        ensures same { (self.new.table ≡ self.old.table) × (self.new.parts ≡ self.old.parts) × (self.new.own ≡ self.old.own) }
        ensures frozen { IfOk result (λ n. IsQuiet self.new.seen × ((before : List Event) × IsPrefix self.old.seen before × ((self.new.seen ≡ before) ⊎ (self.new.seen ≡ before ++ Freeze ∷ [])) × (n ≡ last_of P.options.start_seq (replay before).commits))) }
        ensures err { OnErr result (IsPrefix self.old.seen self.new.seen) }
        ensures cause { IfErr result (λ e. (e ≡ SlateDBError.OutOfMemory) ⊎ ((e ≡ SlateDBError.LimitReached LIMIT) × IsFull 1 self.new.seen)) }
    {
        let top = &db.board.shared;
        let mut locked = take(rt, top, &mut self.seat);
        match locked.freeze() {
            Ok((last, true)) => {
                add(top, &mut self.seat, locked);
                Ok(last)
            }
            Ok((last, false)) => {
                keep(top, &mut self.seat, locked);
                Ok(last)
            }
            Err(refused) => {
                keep(top, &mut self.seat, locked);
                Err(refused)
            }
        }
    }
}
