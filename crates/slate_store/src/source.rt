//! Where bytes come from.
ghost use Rattle.std.specs.Prelude.{◌≡◌, ◌≤◌, ◌<◌, [], take, drop, length, ℕ, List, Option, Some, IfOk, OnOk, OnErr, IsErr, None};
ghost use Rattle.slate_types.specs.Faults.{Rose};
ghost use Rattle.slate_store.specs.Plan.{CountsCall, FailsAsPlanned, Plan};

use crate::Failed;

/// Gives bytes, a piece at a time. Content is told by sources in memory, and not by real ones.
pub trait Source: Drop {
    /// The bytes that are left, where the source tells them.
    ghost left: { Self → Option (List ℕ) };

    /// The count of faults: it rises with each call that fails, and with no other. It stands still at its
    /// type's end.
    ghost faults: { Self → ℕ };

    /// Which calls are to fail, where the source tells it: then these fail, and no others.
    ghost plan: { Self → Option Plan } = { λ _. None };

    /// Takes that many leading bytes of what is left into the front of the buffer. For a buffer that
    /// isn't empty, 0 means the end. A failed call takes nothing.
    fn read(&mut self, buf: &mut [u8]) -> Result<usize, Failed>
        ensures bound { IfOk result (λ n. n ≤ length buf.old) }
        ensures front { (bytes : List ℕ) → left self.old ≡ Some bytes → IfOk result (λ n. (take n buf.new ≡ take n bytes) × (n ≤ length bytes)) }
        ensures rest { (bytes : List ℕ) → left self.old ≡ Some bytes → IfOk result (λ n. left self.new ≡ Some (drop n bytes)) }
        ensures end { 0 < length buf.old → (bytes : List ℕ) → left self.old ≡ Some bytes → result ≡ Ok 0 → bytes ≡ [] }
        ensures failed { OnErr result (left self.new ≡ left self.old) }
        ensures later { faults self.old ≤ faults self.new }
        ensures still { OnOk result (faults self.new ≡ faults self.old) }
        ensures cause { OnErr result (Rose (faults self.old) (faults self.new)) }
        ensures counted { CountsCall (plan self.old) (plan self.new) }
        ensures planned { FailsAsPlanned (plan self.old) (IsErr result) };
}
