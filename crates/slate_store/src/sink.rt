//! Where bytes go.
ghost use Rattle.std.specs.Prelude.{◌≡◌, ◌≤◌, ◌<◌, ◌++◌, take, length, ℕ, List, Option, Some, IfOk, IfErr, OnOk, OnErr, IsErr, None};
ghost use Rattle.slate_types.specs.Faults.{Rose};
ghost use Rattle.slate_store.specs.Plan.{CountsCall, FailsWherePlanned, Plan};

use crate::Failed;
use slate_types::SlateDBError;

/// Takes bytes, a piece at a time. Content is told by sinks in memory, and not by real ones.
pub trait Sink: Drop {
    /// The bytes that were taken, where the sink tells them.
    ghost content: { Self → Option (List ℕ) };

    /// The count of faults: it rises with each call that fails, and with no other. It stands still at its
    /// type's end.
    ghost faults: { Self → ℕ };

    /// Which calls are to fail, where the sink tells it: then these fail, and others only for want of memory.
    ghost plan: { Self → Option Plan } = { λ _. None };

    /// Appends that many leading bytes of the piece: at least one of a piece that isn't empty. A failed
    /// call appends nothing.
    fn write(&mut self, piece: &[u8]) -> Result<usize, Failed>
        ensures bound { IfOk result (λ n. n ≤ length piece.now) }
        ensures some { 0 < length piece.now → IfOk result (λ n. 0 < n) }
        ensures appended { (before : List ℕ) → content self.old ≡ Some before → IfOk result (λ n. content self.new ≡ Some (before ++ take n piece.now)) }
        ensures failed { OnErr result (content self.new ≡ content self.old) }
        ensures later { faults self.old ≤ faults self.new }
        ensures still { OnOk result (faults self.new ≡ faults self.old) }
        ensures cause { OnErr result (Rose (faults self.old) (faults self.new)) }
        ensures counted { CountsCall (plan self.old) (plan self.new) }
        ensures planned { FailsWherePlanned (plan self.old) (IsErr result) };
}

/// Appends the whole piece. After a `WriteFault`, which comes only where the sink's count of faults rose,
/// a front of the piece was taken, and not all of it.
pub fn write_all<W: Sink>(sink: &mut W, piece: &[u8]) -> Result<(), SlateDBError>
    ensures ok { (before : List ℕ) → W.content sink.old ≡ Some before → OnOk result (W.content sink.new ≡ Some (before ++ piece.now)) }
    ensures part { (before : List ℕ) → W.content sink.old ≡ Some before → OnErr result ((n : ℕ) × (n < length piece.now) × (W.content sink.new ≡ Some (before ++ take n piece.now))) }
    ensures cause { IfErr result (λ e. (e ≡ SlateDBError.WriteFault) × Rose (W.faults sink.old) (W.faults sink.new)) }
    ensures still { OnOk result (W.faults sink.new ≡ W.faults sink.old) }
    ensures later { W.faults sink.old ≤ W.faults sink.new }
{
    let mut taken = 0;
    while taken < piece.len() {
        match sink.write(&piece[taken..]) {
            Ok(count) => taken += count,
            Err(Failed) => return Err(SlateDBError::WriteFault),
        }
    }
    Ok(())
}
