//! A flush through a pass: its tables are stored while others commit.
ghost use Rattle.std.specs.Prelude.{◌≡◌, ◌⊎◌, ◌^◌, ◌<◌, ◌∷◌, ◌++◌, [], ℕ, List, map, length, slice_get, Option, None, Some, IfOk, IfErr, OnErr, true};
ghost use Rattle.std.specs.List.{AllByRecursion};
ghost use mathlib.Core.List.{IsPrefix};
ghost use Rattle.slate_types.specs.Config.{IsValid};
ghost use Rattle.slate_types.specs.declared.error.SlateDBError.{SlateDBError};
ghost use Rattle.slate_types.specs.declared.types.Ulid.{Ulid};
ghost use Rattle.slate_types.specs.Outside.{IsFault, IsStill, Objects, Puts};
ghost use Rattle.slate_filter.specs.Laws.{AreValidNames};
ghost use Rattle.slate_txn.specs.declared.event.Event.{Event};
ghost use Rattle.slate_txn.specs.declared.event.Event.TheVariants.{Freeze, Install};
ghost use Rattle.slate_txn.specs.Places.{above_install};
ghost use Rattle.slate_txn.specs.Replay.{replay};
ghost use Rattle.slate_txn.specs.Settings.{settings_of};
ghost use Rattle.slate_txn.specs.State.{last_of};
ghost use Rattle.slate_db.specs.declared.flight.Flight.{Flight};
ghost use Rattle.slate_db.specs.Flushed.{AreTablesOfFlush, Layout, layout_of};
ghost use Rattle.slate_db.specs.Flying.{took};
ghost use Rattle.slate_db.specs.Installs.{AreRunsOf, Holds, tables_of};
ghost use Rattle.slate_db.specs.Log.{LIMIT};
ghost use Rattle.slate_db.specs.Meaning.{segments_by};
ghost use Rattle.slate_db.specs.Readable.{AreFiltered};
ghost use Rattle.slate_shared.specs.Errands.{Departs, HasErrand, HasGivenUp, HasLanded, IsNextFlush, IsOverLimit, IsRested, KeepsOn, Lands, HasTableTooLarge};
ghost use Rattle.slate_shared.specs.Given.{AreGiven};
ghost use Rattle.slate_shared.specs.LockedModel.{IsFull, frozen_by, holds_at};
ghost use Rattle.slate_shared.specs.Shared.{IsSameSeat, IsSized, MayFly, flight_after};

use crate::board::{Place, Top};
use crate::database::Database;
use crate::errand::Errand;
use crate::lock::{add, keep, take};
use crate::locked::Locked;
use crate::parts::Parts;
use crate::pass::Pass;
use slate_db::flush::stored;
use slate_db::laws::Laws;
use slate_filter::FilterPolicy;
use slate_read::SortedRun;
use slate_store::{Env, EnvOf, Store};
use slate_txn::TableList;
use slate_types::{BlockTransformer, MergeOperator, Outside, PrefixExtractor, SlateDBError};
use std::alloc::Global;
use std::sync::Wait;
use std::thread;

impl<P: Parts> Pass<P> {
    /// Freezes, stores the rows that wait as tables, and gives the newest sequence behind the freeze. Others commit while it stores; a
    /// second flush waits until the first has ended. Where no rows are in memory nothing is stored. Refuses by `StoreFault`,
    /// `BlockTransformError` and `Callback`, each only where its count of faults rose; by `LimitReached` where the journal has no
    /// place for an event, or where a table would pass a limit; and by `OutOfMemory`. Then the rows are in memory as before, or
    /// frozen, and the store's objects are as they were, or have some last of the tables, which no event names. Either way a store
    /// that tells its objects keeps each table that it held of what the journal names, and takes nothing but tables of the rows that
    /// waited. No failure of the store or of a part is passed over: each count of faults is as it was, but for that of the one whose
    /// fault is answered.
    pub fn flush<R: Wait, S: Store, M: MergeOperator, T: BlockTransformer, X: PrefixExtractor>(
        &mut self,
        rt: &R,
        db: &Database<P>,
        env: &mut Env<'_, S, M, T>,
        laws: &Laws<X>,
    ) -> Result<u64, SlateDBError>
        requires table { self.old.table ≡ db.now }
        requires laws { AreGiven P.options P.segments P.policies laws.now.options (segments_by X.lengths laws.now.segments) (map (λ p. (⟦<dyn FilterPolicy as FilterPolicy>⟧ p.vtable).meaning p.value) laws.now.policies.items) }
        requires meaning { let reach = ⟦<EnvOf<S, M, T> as Outside>⟧.reach in (reach env.old).meaning ≡ P.meaning }
        requires valid { IsValid laws.now.options }
        requires names { AreValidNames (map (λ p. ((⟦<dyn FilterPolicy as FilterPolicy>⟧ p.vtable).meaning p.value).name) laws.now.policies.items) }
        ensures same { (self.new.table ≡ self.old.table) × (self.new.parts ≡ self.old.parts) }
        ensures seen { IsPrefix self.old.seen self.new.seen }
        ensures newest { IfOk result (λ n. (before : List Event) × IsPrefix self.old.seen before × IsPrefix before self.new.seen × (n ≡ last_of P.options.start_seq (replay before).commits)) }
        ensures through { IfOk result (λ n. AllByRecursion (λ c. n < c.seq) (above_install self.new.seen)) }
        ensures own { let reach = ⟦<EnvOf<S, M, T> as Outside>⟧.reach in
            let layout = layout_of P.options P.policies P.segments in
            IfOk result (λ n. ((self.new.own ≡ self.old.own) × (env.new ≡ env.old)) ⊎ HasLanded (settings_of P.options) P.meaning layout n (reach env.old).objects (reach env.new).objects self.old.seen self.old.own self.new.seen self.new.own) }
        ensures refused { let reach = ⟦<EnvOf<S, M, T> as Outside>⟧.reach in OnErr result ((self.new.own ≡ self.old.own) × KeepsOn self.new.seen (reach env.old).objects (reach env.new).objects) }
        ensures left { let reach = ⟦<EnvOf<S, M, T> as Outside>⟧.reach in
            let layout = layout_of P.options P.policies P.segments in
            OnErr result ((env.new ≡ env.old) ⊎ HasGivenUp (settings_of P.options) P.meaning layout (reach env.old).objects (reach env.new).objects self.old.seen self.new.seen) }
        ensures cause { let reach = ⟦<EnvOf<S, M, T> as Outside>⟧.reach in
            let layout = layout_of laws.now.options (map (λ p. (⟦<dyn FilterPolicy as FilterPolicy>⟧ p.vtable).meaning p.value) laws.now.policies.items) (segments_by X.lengths laws.now.segments) in
            IfErr result (λ e. IsFault (reach env.old) (reach env.new) e ⊎ ((before : List Event) × IsPrefix self.old.seen before × IsPrefix before self.new.seen × IsOverLimit (settings_of P.options) P.meaning layout before e)) }
        ensures puts { let reach = ⟦<EnvOf<S, M, T> as Outside>⟧.reach in Puts (reach env.old) (reach env.new) }
        ensures still { let reach = ⟦<EnvOf<S, M, T> as Outside>⟧.reach in IsStill (reach env.old).faults (reach env.new).faults result }
    {
        let top = &db.board.shared;
        let (last, errand) = depart(rt, top, &mut self.seat)?;
        match errand {
            Some(errand) => carry_out(rt, db.alloc, top, &mut self.seat, errand, laws, env),
            None => Ok(last),
        }
    }
}

// Waits until no flush is on its way, and sets off.
fn depart<P: Parts, R: Wait>(
    rt: &R,
    top: &Top<P>,
    place: &mut Place<P>,
) -> Result<(u64, Option<Errand>), SlateDBError>
    requires table { (place.old.table_id ≡ top.now.table_id) × IsSized top.now.table_id }
    requires idle { (place.old.me.1 ≡ []) × (place.old.me.0.flight ≡ None) }
    ensures seat { IsSameSeat place.old place.new × IsRested place.old.me place.new.me }
    ensures own { place.new.me.0.own ≡ place.old.me.0.own }
    ensures off { (before : List Event) × IsPrefix place.old.me.0.seen before × Departs P.options P.meaning before place.new.me.0.seen place.new.me.0.flight result }
{
    for _ in rt.forever() {
        let locked = take(rt, top, place);
        if locked.is_free() {
            return set_off(top, place, locked);
        }
        keep(top, place, locked);
        thread::yield_now();
    }
    unreachable!()
}

// Sets off under the lock, and lets it go.
fn set_off<P: Parts>(
    top: &Top<P>,
    place: &mut Place<P>,
    locked: Locked<P>,
) -> Result<(u64, Option<Errand>), SlateDBError>
    requires table { (place.old.table_id ≡ top.now.table_id) × IsSized top.now.table_id }
    requires held { (place.old.me.1 ≡ (0, None) ∷ []) × (place.old.me.0.holds ≡ true) × (holds_at place.old.me.0.base place.old.me.0.base_flight ≡ locked) }
    requires free { (locked.flight ≡ None) × (place.old.me.0.flight ≡ None) }
    ensures seat { IsSameSeat place.old place.new × IsRested place.old.me place.new.me }
    ensures own { place.new.me.0.own ≡ place.old.me.0.own }
    ensures off { Departs P.options P.meaning locked.events place.new.me.0.seen place.new.me.0.flight result }
{
    let mut locked = locked;
    let (frozen, departed) = locked.depart();
    let_go(top, place, locked, frozen);
    departed
}

// Lets the lock go, with the event of a freeze or without one.
fn let_go<P: Parts>(top: &Top<P>, place: &mut Place<P>, locked: Locked<P>, frozen: bool)
    requires table { (place.old.table_id ≡ top.now.table_id) × IsSized top.now.table_id }
    requires held { (place.old.me.1 ≡ (0, None) ∷ []) × (place.old.me.0.holds ≡ true) }
    requires event { locked.events ≡ (frozen_by (holds_at place.old.me.0.base place.old.me.0.base_flight) frozen).events }
    requires flight { MayFly place.old.me.0.flight place.old.me.0.base_flight locked.flight }
    ensures seat { IsSameSeat place.old place.new × IsRested place.old.me place.new.me }
    ensures own { place.new.me.0.own ≡ place.old.me.0.own }
    ensures seen { place.new.me.0.seen ≡ locked.events }
    ensures flight { place.new.me.0.flight ≡ flight_after place.old.me.0.flight place.old.me.0.base_flight locked.flight }
{
    if frozen {
        add(top, place, locked);
        return;
    }
    keep(top, place, locked);
}

// Stores the tables of a flush and lands, or gives it up.
fn carry_out<
    P: Parts,
    R: Wait,
    S: Store,
    M: MergeOperator,
    T: BlockTransformer,
    X: PrefixExtractor,
>(
    rt: &R,
    alloc: Global,
    top: &Top<P>,
    place: &mut Place<P>,
    errand: Errand,
    laws: &Laws<X>,
    env: &mut Env<'_, S, M, T>,
) -> Result<u64, SlateDBError>
    requires table { (place.old.table_id ≡ top.now.table_id) × IsSized top.now.table_id }
    requires idle { (place.old.me.1 ≡ []) × (0 < place.old.me.0.parts) }
    requires errand { (journal : List Event) × HasErrand (settings_of P.options) P.meaning journal place.old.me.0.flight errand }
    requires meaning { let reach = ⟦<EnvOf<S, M, T> as Outside>⟧.reach in (reach env.old).meaning ≡ P.meaning }
    requires valid { IsValid laws.now.options }
    requires names { AreValidNames (map (λ p. ((⟦<dyn FilterPolicy as FilterPolicy>⟧ p.vtable).meaning p.value).name) laws.now.policies.items) }
    requires laws { AreGiven P.options P.segments P.policies laws.now.options (segments_by X.lengths laws.now.segments) (map (λ p. (⟦<dyn FilterPolicy as FilterPolicy>⟧ p.vtable).meaning p.value) laws.now.policies.items) }
    ensures seat { IsSameSeat place.old place.new × IsRested place.old.me place.new.me × (place.new.me.0.flight ≡ None) }
    ensures seen { IsPrefix place.old.me.0.seen place.new.me.0.seen }
    ensures landed { let reach = ⟦<EnvOf<S, M, T> as Outside>⟧.reach in
        let o = settings_of P.options in
        let layout = layout_of P.options P.policies P.segments in
        (from : List Event) → IsPrefix from place.old.me.0.seen → HasErrand o P.meaning from place.old.me.0.flight errand →
        IfOk result (λ n. HasLanded o P.meaning layout n (reach env.old).objects (reach env.new).objects from place.old.me.0.own place.new.me.0.seen place.new.me.0.own) }
    ensures through { (f : Flight) → place.old.me.0.flight ≡ Some f → IfOk result (λ n. n ≡ f.through) }
    ensures refused { let reach = ⟦<EnvOf<S, M, T> as Outside>⟧.reach in OnErr result ((place.new.me.0.own ≡ place.old.me.0.own) × KeepsOn place.new.me.0.seen (reach env.old).objects (reach env.new).objects) }
    ensures left { let reach = ⟦<EnvOf<S, M, T> as Outside>⟧.reach in
        let o = settings_of P.options in
        let layout = layout_of P.options P.policies P.segments in
        (from : List Event) → IsPrefix from place.old.me.0.seen → HasErrand o P.meaning from place.old.me.0.flight errand →
        OnErr result (HasGivenUp o P.meaning layout (reach env.old).objects (reach env.new).objects from place.new.me.0.seen) }
    ensures cause { let reach = ⟦<EnvOf<S, M, T> as Outside>⟧.reach in
        let layout = layout_of laws.now.options (map (λ p. (⟦<dyn FilterPolicy as FilterPolicy>⟧ p.vtable).meaning p.value) laws.now.policies.items) (segments_by X.lengths laws.now.segments) in
        (journal : List Event) → HasErrand (settings_of P.options) P.meaning journal place.old.me.0.flight errand →
        IfErr result (λ e. IsFault (reach env.old) (reach env.new) e
        ⊎ ((e ≡ SlateDBError.LimitReached LIMIT) × IsFull 1 place.new.me.0.seen)
        ⊎ HasTableTooLarge (settings_of P.options) P.meaning layout journal e) }
    ensures puts { let reach = ⟦<EnvOf<S, M, T> as Outside>⟧.reach in Puts (reach env.old) (reach env.new) }
    ensures still { let reach = ⟦<EnvOf<S, M, T> as Outside>⟧.reach in IsStill (reach env.old).faults (reach env.new).faults result }
{
    let Errand {
        number,
        barrier,
        tables,
    } = errand;
    fits(number);
    match stored(alloc, &tables, barrier, number, laws, env) {
        Ok((tables, runs)) => land(rt, top, place, tables, runs),
        Err(refused) => {
            abandon(rt, top, place);
            Err(refused)
        }
    }
}

// A number fits 64 bits.
fn fits(number: u64)
    ensures { number < 2 ^ 64 }
{}

// Installs what was stored, and gives the lock and the flush up.
fn land<P: Parts, R: Wait>(
    rt: &R,
    top: &Top<P>,
    place: &mut Place<P>,
    tables: TableList,
    runs: Vec<SortedRun>,
) -> Result<u64, SlateDBError>
    requires table { (place.old.table_id ≡ top.now.table_id) × IsSized top.now.table_id }
    requires idle { (place.old.me.1 ≡ []) × (0 < place.old.me.0.parts) }
    requires made { (f : Flight) × (place.old.me.0.flight ≡ Some f) × AreRunsOf tables runs.items × ((layout : Layout) × (layout.policies ≡ P.policies) × AreTablesOfFlush P.meaning layout f.number f.barrier (took f) tables) }
    ensures seat { IsSameSeat place.old place.new × IsRested place.old.me place.new.me × (place.new.me.0.flight ≡ None) }
    ensures landed { (before : List Event) × IsPrefix place.old.me.0.seen before × Lands before tables place.old.me.0.flight place.old.me.0.own place.new.me.0.seen place.new.me.0.own result }
    ensures filtered { AreFiltered P.meaning.encode P.policies (tables_of place.new.me.0.seen) }
{
    let mut locked = take(rt, top, place);
    match locked.land(tables, runs) {
        Ok(through) => {
            add(top, place, locked);
            Ok(through)
        }
        Err(refused) => {
            keep(top, place, locked);
            Err(refused)
        }
    }
}

// Gives the flush up.
fn abandon<P: Parts, R: Wait>(rt: &R, top: &Top<P>, place: &mut Place<P>)
    requires table { (place.old.table_id ≡ top.now.table_id) × IsSized top.now.table_id }
    requires idle { place.old.me.1 ≡ [] }
    requires flies { (f : Flight) × (place.old.me.0.flight ≡ Some f) }
    ensures seat { IsSameSeat place.old place.new × IsRested place.old.me place.new.me × (place.new.me.0.flight ≡ None) }
    ensures own { place.new.me.0.own ≡ place.old.me.0.own }
    ensures seen { IsPrefix place.old.me.0.seen place.new.me.0.seen }
    ensures next { (f : Flight) → place.old.me.0.flight ≡ Some f → IsNextFlush f.number place.new.me.0.seen }
{
    let mut locked = take(rt, top, place);
    locked.abandon();
    keep(top, place, locked);
}
