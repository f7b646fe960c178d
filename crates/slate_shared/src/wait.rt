//! Waiting until rows are stored.
ghost use Rattle.std.specs.Prelude.{◌≡◌, [], None};
ghost use mathlib.Core.List.{IsPrefix};
ghost use Rattle.slate_shared.specs.Errands.{IsInstalled, IsRested};
ghost use Rattle.slate_shared.specs.Shared.{IsSameSeat, IsSized};

use crate::board::{Place, Top};
use crate::database::Database;
use crate::handle::WriteHandle;
use crate::lock::{keep, take};
use crate::parts::Parts;
use crate::pass::Pass;
use std::sync::Wait;
use std::thread;

impl<P: Parts> WriteHandle<P> {
    /// Returns once what the pass has seen has an install through the handle's sequence or a later one. It takes no memory.
    pub fn await_durable<R: Wait>(&self, rt: &R, db: &Database<P>, pass: &mut Pass<P>)
        requires { pass.old.table ≡ db.now }
        ensures same { (pass.new.table ≡ pass.old.table) × (pass.new.parts ≡ pass.old.parts) × (pass.new.own ≡ pass.old.own) }
        ensures seen { IsPrefix pass.old.seen pass.new.seen }
        ensures durable { IsInstalled self.now pass.new.seen }
    {
        until_installed(rt, &db.board.shared, &mut pass.seat, self.seq);
    }
}

// Looks at the journal again and again.
fn until_installed<P: Parts, R: Wait>(rt: &R, top: &Top<P>, place: &mut Place<P>, seq: u64)
    requires table { (place.old.table_id ≡ top.now.table_id) × IsSized top.now.table_id }
    requires idle { (place.old.me.1 ≡ []) × (place.old.me.0.flight ≡ None) }
    ensures seat { IsSameSeat place.old place.new × IsRested place.old.me place.new.me × (place.new.me.0.flight ≡ None) }
    ensures own { place.new.me.0.own ≡ place.old.me.0.own }
    ensures seen { IsPrefix place.old.me.0.seen place.new.me.0.seen }
    ensures installed { IsInstalled seq place.new.me.0.seen }
{
    for _ in rt.forever() {
        let locked = take(rt, top, place);
        let stored = locked.is_installed(seq);
        keep(top, place, locked);
        if stored {
            return;
        }
        thread::yield_now();
    }
    unreachable!()
}
