//! Rows in an order, one at a time.
ghost use Rattle.std.specs.Prelude.{◌≡◌, ◌⊎◌, ◌<◌, ◌≤◌, ◌++◌, ℕ, List, [], Option, Some, None, Err, IfOk, IfErr, IsSome, OnOk};
ghost use Rattle.std.specs.List.{AllByRecursion};
ghost use Rattle.slate_types.specs.declared.error.SlateDBError.{SlateDBError};
ghost use Rattle.slate_types.specs.declared.iter.IterationOrder.{IterationOrder};
ghost use Rattle.slate_types.specs.declared.types.RowEntry.{RowEntry};
ghost use Rattle.slate_types.specs.Iteration.{comes_before, drop_before, IsInOrder, TakesRow};
ghost use Rattle.slate_types.specs.Outside.{Act, Meaning, Reach, no_reach, IsFault, IsStill, OnlyReads};
ghost use Rattle.slate_types.specs.Refusing.{IsDamage, IsReady, NoMore, NoMoreBut};
ghost use Rattle.slate_types.specs.Steps.{TakesAll};
ghost use Rattle.slate_types.specs.World.{World, AnswersWorld, Checks, Made, ReadsAt, Sees};

use crate::bytes_range::is_before;
use crate::error::SlateDBError;
use crate::types::RowEntry;
use std::alloc::Global;

/// By key upwards, or by key downwards.
#[derive(Clone, Copy, PartialEq, Eq, Default)]
pub enum IterationOrder {
    #[default]
    Ascending,
    Descending,
}

impl IterationOrder {
    /// Whether the order puts the first key before the second.
    pub fn puts_before(self, first: &[u8], second: &[u8]) -> bool
        ensures { result ≡ comes_before self first.now second.now }
    {
        match self {
            IterationOrder::Ascending => is_before(first, second, false),
            IterationOrder::Descending => is_before(second, first, false),
        }
    }
}

/// What calls reach outside themselves, as their contracts see it. It has no calls of its own.
pub trait Outside {
    /// All that it reaches: what its store tells, what its operator and its transformer make, and how often each of them
    /// has failed.
    ghost reach: { Self → Reach };
}

/// No store, no operator and no transformer: a source in memory needs none.
impl Outside for () {
    ghost reach = { λ _. no_reach };
}

/// The rest of a list of rows in its order. `next` takes the first row off, and `seek` the rows that the order puts before a
/// key.
///
/// The rest is that of a world: of the objects that the store is taken to hold. It is what comes where the meaning is sound in
/// that world and each call met it, so a caller fixes the world once, and other objects may come and go meanwhile. A call that
/// answers `Ok` over a store that tells its reads met the world, or what it read slipped through a checksum. What a call
/// reads and does else, each type says by `begins`, `takes`, `seeks` and `stays`, which hold always, and in which objects it
/// reads, by `within`.
///
/// After a refusal an iterator stands where it stood, or it answers the same refusal again: each type says which. So a refusal
/// adds no cause of a later one but itself.
pub trait RowEntryIterator<E: Outside>: Drop {
    /// The rows that are left.
    ghost rest: { Self → World → List RowEntry };

    /// What this meaning rests on, as sources in order and objects that are what they are taken for.
    ghost sound: { Self → World → Type 0 };

    ghost order: { Self → IterationOrder };

    /// A number that falls at each row, whatever the outside answers.
    ghost bound: { Self → ℕ };

    /// What it may refuse for, beside faults and want of memory, by the reads that it makes from now on: in a seek to a key,
    /// and, where there is no key, in the other calls.
    ghost refuses: { Self → Meaning → List Act → Option (List ℕ) → SlateDBError → Type 0 };

    /// What `init` may read, and what becomes of it then.
    ghost begins: { Self → Meaning → List Act → Self → Type 0 };

    /// What `next` may read and answer, and what becomes of it then.
    ghost takes: { Self → Meaning → List Act → Option RowEntry → Self → Type 0 };

    /// What `seek` to a key may read, and what becomes of it then.
    ghost seeks: { Self → Meaning → List Act → List ℕ → Self → Type 0 };

    /// What it read, and what becomes of it, where it refuses: in a seek to a key, and, where there is no key, in the other
    /// calls.
    ghost stays: { Self → Meaning → List Act → Option (List ℕ) → SlateDBError → Self → Type 0 };

    /// That it reads objects at these paths alone.
    ghost within: { Self → List (List ℕ) → Type 0 };

    /// That `next` waits for `init`, and answers that alone.
    ghost unbegun: { Self → Type 0 };

    /// The order in which its rows come.
    fn iteration_order(&self) -> IterationOrder
        ensures { result ≡ order self.now };

    /// Makes it ready for `next` and `seek`, which may answer `IteratorNotInitialized` before.
    fn init(&mut self, alloc: Global, env: &mut E) -> Result<(), SlateDBError>
        ensures rows { (w : World) → Sees w (E.reach env.old) (E.reach env.new) → sound self.old w → OnOk result (rest self.new w ≡ rest self.old w) }
        ensures still { (w : World) → Sees w (E.reach env.old) (E.reach env.new) → sound self.old w → sound self.new w }
        ensures checked { (w : World) → sound self.old w → OnOk result (Checks w (E.reach env.old) (E.reach env.new)) }
        ensures ready { OnOk result (IsReady (refuses self.new (E.reach env.old).meaning)) }
        ensures begun { OnOk result (Made (E.reach env.old) (E.reach env.new) (λ reads. begins self.old (E.reach env.old).meaning reads self.new × NoMore (refuses self.old (E.reach env.old).meaning) reads (refuses self.new (E.reach env.old).meaning))) }
        ensures cause { IfErr result (λ e. Made (E.reach env.old) (E.reach env.new) (λ reads. (IsFault (E.reach env.old) (E.reach env.new) e ⊎ refuses self.old (E.reach env.old).meaning reads None e) × stays self.old (E.reach env.old).meaning reads None e self.new × NoMoreBut e (refuses self.old (E.reach env.old).meaning) reads (refuses self.new (E.reach env.old).meaning))) }
        ensures no_larger { bound self.new ≤ bound self.old }
        ensures order { order self.new ≡ order self.old }
        ensures within { (paths : List (List ℕ)) → within self.old paths → ReadsAt paths (E.reach env.old) (E.reach env.new) × within self.new paths }
        ensures reads { OnlyReads (E.reach env.old) (E.reach env.new) }
        ensures counts { IsStill (E.reach env.old).faults (E.reach env.new).faults result };

    /// The first row of the rest, which is taken off, or `None` at its end.
    fn next(&mut self, alloc: Global, env: &mut E) -> Result<Option<RowEntry>, SlateDBError>
        ensures rows { (w : World) → Sees w (E.reach env.old) (E.reach env.new) → sound self.old w → IfOk result (λ answer. TakesRow (rest self.old w) answer (rest self.new w)) }
        ensures still { (w : World) → Sees w (E.reach env.old) (E.reach env.new) → sound self.old w → sound self.new w }
        ensures checked { (w : World) → sound self.old w → OnOk result (Checks w (E.reach env.old) (E.reach env.new)) }
        ensures unbegun { unbegun self.old →
            (result ≡ Err SlateDBError.IteratorNotInitialized) × (self.new ≡ self.old) × (env.new ≡ env.old) }
        ensures taken { IfOk result (λ answer. Made (E.reach env.old) (E.reach env.new) (λ reads. takes self.old (E.reach env.old).meaning reads answer self.new × NoMore (refuses self.old (E.reach env.old).meaning) reads (refuses self.new (E.reach env.old).meaning))) }
        ensures cause { IfErr result (λ e. Made (E.reach env.old) (E.reach env.new) (λ reads. (IsFault (E.reach env.old) (E.reach env.new) e ⊎ refuses self.old (E.reach env.old).meaning reads None e) × stays self.old (E.reach env.old).meaning reads None e self.new × NoMoreBut e (refuses self.old (E.reach env.old).meaning) reads (refuses self.new (E.reach env.old).meaning))) }
        ensures smaller { IfOk result (λ answer. IsSome answer → bound self.new < bound self.old) }
        ensures no_larger { bound self.new ≤ bound self.old }
        ensures order { order self.new ≡ order self.old }
        ensures within { (paths : List (List ℕ)) → within self.old paths → ReadsAt paths (E.reach env.old) (E.reach env.new) × within self.new paths }
        ensures reads { OnlyReads (E.reach env.old) (E.reach env.new) }
        ensures counts { IsStill (E.reach env.old).faults (E.reach env.new).faults result };

    /// Takes off exactly the leading rows that the order puts before the key.
    fn seek(&mut self, alloc: Global, key: &[u8], env: &mut E) -> Result<(), SlateDBError>
        ensures rows { (w : World) → Sees w (E.reach env.old) (E.reach env.new) → sound self.old w → OnOk result (rest self.new w ≡ drop_before (order self.old) key.now (rest self.old w)) }
        ensures still { (w : World) → Sees w (E.reach env.old) (E.reach env.new) → sound self.old w → sound self.new w }
        ensures checked { (w : World) → sound self.old w → OnOk result (Checks w (E.reach env.old) (E.reach env.new)) }
        ensures sought { OnOk result (Made (E.reach env.old) (E.reach env.new) (λ reads. seeks self.old (E.reach env.old).meaning reads key.now self.new × NoMore (refuses self.old (E.reach env.old).meaning) reads (refuses self.new (E.reach env.old).meaning))) }
        ensures cause { IfErr result (λ e. Made (E.reach env.old) (E.reach env.new) (λ reads. (IsFault (E.reach env.old) (E.reach env.new) e ⊎ refuses self.old (E.reach env.old).meaning reads (Some key.now) e) × stays self.old (E.reach env.old).meaning reads (Some key.now) e self.new × NoMoreBut e (refuses self.old (E.reach env.old).meaning) reads (refuses self.new (E.reach env.old).meaning))) }
        ensures no_larger { bound self.new ≤ bound self.old }
        ensures order { order self.new ≡ order self.old }
        ensures within { (paths : List (List ℕ)) → within self.old paths → ReadsAt paths (E.reach env.old) (E.reach env.new) × within self.new paths }
        ensures reads { OnlyReads (E.reach env.old) (E.reach env.new) }
        ensures counts { IsStill (E.reach env.old).faults (E.reach env.new).faults result };

    /// The rest comes in the order.
    ghost rising: { (x : Self) (w : World) → sound x w → IsInOrder (order x) (rest x w) };

    /// What may be refused by some reads may be refused behind others too.
    ghost more: { (x : Self) (m : Meaning) (done : List Act) (reads : List Act) (at : Option (List ℕ)) (e : SlateDBError) → refuses x m reads at e → refuses x m (done ++ reads) at e };

    /// Where each read is answered by the world, nothing is damaged.
    ghost whole: { (x : Self) (w : World) (reads : List Act) (at : Option (List ℕ)) (e : SlateDBError) → sound x w → AllByRecursion (AnswersWorld w) reads → refuses x w.meaning reads at e → ¬ IsDamage e };
}

/// An iterator that tells how many bytes it processed.
pub trait TrackedRowEntryIterator<E: Outside>: RowEntryIterator<E> {
    ghost processed: { Self → ℕ };

    /// The number that the type names, in bytes. How it follows from the rows that were taken, the type says.
    fn bytes_processed(&self) -> u64
        ensures { result ≡ processed self.now };
}

/// Takes all rows that are left. Where something would be refused it never answers `Ok`: it went on to where `next`
/// answered `None`.
pub fn collect_rows<E: Outside, I: RowEntryIterator<E>>(
    alloc: Global,
    rows: &mut I,
    env: &mut E,
) -> Result<Vec<RowEntry>, SlateDBError>
    ensures rows { (w : World) → Sees w (E.reach env.old) (E.reach env.new) → I.sound rows.old w → IfOk result (λ taken. taken.items ≡ I.rest rows.old w) }
    ensures takes { IfOk result (λ taken. Made (E.reach env.old) (E.reach env.new) (λ reads. TakesAll (λ x by answer y. I.takes x (E.reach env.old).meaning by answer y) rows.old reads taken.items rows.new)) }
    ensures spent { (w : World) → Sees w (E.reach env.old) (E.reach env.new) → I.sound rows.old w → OnOk result (I.rest rows.new w ≡ []) }
    ensures checked { (w : World) → I.sound rows.old w → OnOk result (Checks w (E.reach env.old) (E.reach env.new)) }
    ensures cause { IfErr result (λ e. Made (E.reach env.old) (E.reach env.new) (λ reads. IsFault (E.reach env.old) (E.reach env.new) e ⊎ I.refuses rows.old (E.reach env.old).meaning reads None e)) }
    ensures reads { OnlyReads (E.reach env.old) (E.reach env.new) }
    ensures counts { IsStill (E.reach env.old).faults (E.reach env.new).faults result }
{
    let mut taken = Vec::new(alloc);
    while let Some(row) = rows.next(alloc, env)? {
        taken.push(row)?;
    }
    Ok(taken)
}
