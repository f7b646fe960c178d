// The laws of the definitions. Each is proved of all values, and no call does anything.
ghost use Rattle.std.specs.Prelude.{◌≡◌, map};
ghost use Rattle.std.specs.List.{AllByRecursion};
ghost use Rattle.slate_types.specs.World.{World};
ghost use Rattle.slate_types.specs.Fold.{operator_at};
ghost use Rattle.slate_merge.specs.FoldedReads.{CutsWhole, FoldsBySeeks, FoldsInOrder, KeepsFolds, KeepsShown, NoneRisesInTurn};
ghost use Rattle.slate_merge.specs.Folding.{folded};
ghost use Rattle.slate_merge.specs.Merge.{merged};
ghost use Rattle.slate_merge.specs.MergedLaws.{CountIsTheSum, DedupDecides, MergeHasAll, MergeIsByPlace, MergeIsInOrder, MergeIsInTurn, MergeKeepsTests, MergeOfNone, MergeOfOne};
ghost use Rattle.slate_merge.specs.MergeStates.{IsMergeOf, IsSoundMerge, rest_of_merge};
ghost use Rattle.slate_merge.specs.Merging.{CanMerge};
ghost use Rattle.slate_merge.specs.OperatorIterators.{IsFolding, KeepsRefusals, rest_folding, sound_folding};

use crate::folding::Folding;
use crate::merge_iterator::MergeIterator;
use crate::operates::Operates;
use crate::operator_iterator::MergeOperatorIterator;
use slate_types::{IterationOrder, Outside, RowEntryIterator};

/// Of merges. Without dedup one has exactly the rows of its lists, by key and falling sequence, and rows that stand alike by their
/// lists' places; a test keeps of it what the merge of the rows that it keeps has; one list in turn is its own merge, and an
/// empty list changes nothing.
pub fn merges()
    ensures has_all { MergeHasAll }
    ensures in_turn { MergeIsInTurn }
    ensures by_place { MergeIsByPlace }
    ensures keeps_tests { MergeKeepsTests }
    ensures of_one { MergeOfOne }
    ensures of_none { MergeOfNone }
{}

/// Of dedup. What it leaves comes by key, and of the rows of a key it leaves those up to the first one that is no operand; and
/// bytes are counted up to the greatest number.
pub fn duplicates()
    ensures in_order { MergeIsInOrder }
    ensures decides { DedupDecides }
    ensures count { CountIsTheSum }
{}

/// Of a new merge. In each world in which each source is sound, of the order and in turn, the merge is sound, and its rest is
/// their rows merged.
pub fn new_merges<E: Outside, I: RowEntryIterator<E>>(
    sources: &Vec<I>,
    order: IterationOrder,
    dedup: bool,
    it: &MergeIterator<I>,
)
    requires { IsMergeOf sources.now.items order dedup it.now }
    ensures sound { (w : World) → AllByRecursion (CanMerge (λ s. I.rest s w) (λ s. I.sound s w × (I.order s ≡ order)) order) sources.now.items → IsSoundMerge I.rest I.sound I.order it.now w }
    ensures rest { (w : World) → AllByRecursion (CanMerge (λ s. I.rest s w) (λ s. I.sound s w × (I.order s ≡ order)) order) sources.now.items → rest_of_merge I.rest it.now w ≡ merged order dedup (map (λ s. I.rest s w) sources.now.items) }
{}

/// Of folded rows. They come in the order, folding and seeks change places, and of each key they fold to what all its rows fold
/// to, so that a reader is shown the same. Nothing is lost where rows are cut, and where they come in turn none rises above the
/// operand before it.
pub fn folded_rows()
    ensures in_order { FoldsInOrder }
    ensures by_seeks { FoldsBySeeks }
    ensures whole { CutsWhole }
    ensures in_turn { NoneRisesInTurn }
    ensures keeps_folds { KeepsFolds }
    ensures keeps_shown { KeepsShown }
{}

/// Of a new iterator that folds operands. It is sound in each world in which its source is, and its rest is the source's rows,
/// folded.
pub fn new_folds<E: Operates, I: RowEntryIterator<E>>(
    source: &I,
    folding: Folding,
    it: &MergeOperatorIterator<I>,
)
    requires { IsFolding source.now folding it.now }
    ensures sound { (w : World) → I.sound source.now w → sound_folding I.rest I.sound I.order it.now w }
    ensures rest { (w : World) → rest_folding I.rest it.now w ≡ folded (operator_at w.meaning.combine) folding.merge_different_expire_ts folding.snapshot_barrier_seq (I.rest source.now w) }
{}

/// Of the refusals of an iterator that folds operands. One other than want of an `init` is kept, and then each call answers it
/// again, or want of memory for a copy: none brings a row, seeks or begins.
pub fn kept_refusals<E: Operates, I: RowEntryIterator<E>>()
    ensures { KeepsRefusals I.refuses I.begins I.takes I.seeks }
{}
