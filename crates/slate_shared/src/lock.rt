//! The lock: taken by a compare-exchange, and let go by a store that adds one event to the journal or none.
ghost use Rattle.std.specs.Prelude.{◌≡◌, ◌*◌, true, [], ◌∷◌, ◌++◌, length, Some, None};
ghost use mathlib.Core.List.{IsPrefix};
ghost use Rattle.slate_txn.specs.declared.event.Event.{Event};
ghost use Rattle.slate_txn.specs.Replay.{IsLegal};
ghost use Rattle.slate_shared.specs.Shared.{IsSized, IsSameSeat, IsLive, IsOwner, OwnsAll, all_parts, Flies, May, MayFly, holding, after_event, after_none};

use crate::board::{Place, Top};
use crate::locked::Locked;
use crate::parts::Parts;
use crate::plays::{Acquire, Add, Keep};
use std::sync::Wait;
use std::thread;

// Waits for the lock, and takes out what lies behind it.
pub(crate) fn take<P: Parts, R: Wait>(rt: &R, top: &Top<P>, place: &mut Place<P>) -> Locked<P>
    requires table { (place.old.table_id ≡ top.now.table_id) × IsSized top.now.table_id }
    requires idle { place.old.me.1 ≡ [] }
    ensures seat { IsSameSeat place.old place.new × (place.new.me ≡ (holding place.old.me.0 result, (0, None) ∷ [])) }
    ensures journal { IsPrefix place.old.me.0.seen result.events × IsPrefix place.old.me.0.told result.events × IsLive place.old.me.0.txn result.events × IsOwner place.old.me.0.own result.events }
    ensures whole { place.old.me.0.parts ≡ all_parts → OwnsAll place.old.me.0.own result.events }
    ensures flight { Flies place.old.me.0.flight (length place.old.me.0.seen) result.events result.flight }
{
    for _ in rt.forever() {
        let word = top.peek(0);
        if word % 2 == 0 {
            let found = top.compare_exchange::<Acquire>(place, 0, word, word + 1);
            if found == word {
                return top.exchange(place, 0, None).unwrap();
            }
        }
        thread::yield_now();
    }
    unreachable!()
}

// Puts it back with one event more.
pub(crate) fn add<P: Parts>(top: &Top<P>, place: &mut Place<P>, locked: Locked<P>)
    requires table { (place.old.table_id ≡ top.now.table_id) × IsSized top.now.table_id }
    requires held { (place.old.me.1 ≡ (0, None) ∷ []) × (place.old.me.0.holds ≡ true) }
    requires event { (e : Event) × (locked.events ≡ place.old.me.0.base ++ e ∷ []) × May place.old.me.0 e }
    requires flight { MayFly place.old.me.0.flight place.old.me.0.base_flight locked.flight }
    ensures seat { IsSameSeat place.old place.new }
    ensures view { (e : Event) → locked.events ≡ place.old.me.0.base ++ e ∷ [] → place.new.me ≡ (after_event place.old.me.0 e locked.flight, []) }
    ensures legal { IsLegal P.options.start_seq locked.events }
{
    let events = locked.len();
    top.exchange(place, 0, Some(locked));
    top.store::<Add>(place, 0, 2 * events);
}

// Puts it back as it was, but for the flight.
pub(crate) fn keep<P: Parts>(top: &Top<P>, place: &mut Place<P>, locked: Locked<P>)
    requires table { (place.old.table_id ≡ top.now.table_id) × IsSized top.now.table_id }
    requires held { (place.old.me.1 ≡ (0, None) ∷ []) × (place.old.me.0.holds ≡ true) × (locked.events ≡ place.old.me.0.base) }
    requires flight { MayFly place.old.me.0.flight place.old.me.0.base_flight locked.flight }
    ensures seat { IsSameSeat place.old place.new × (place.new.me ≡ (after_none place.old.me.0 locked.flight, [])) }
{
    let events = locked.len();
    top.exchange(place, 0, Some(locked));
    top.store::<Keep>(place, 0, 2 * events);
}
