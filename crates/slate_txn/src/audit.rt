//! The audit of a journal: whether all its commits are of one kind.
ghost use Rattle.std.specs.Prelude.{◌≡◌, ℕ, List, ℤ, None, Some, Ok, true, false, OnOk, IfOk, IfSome};
ghost use Rattle.slate_mem.specs.Batch.{Ops};
ghost use Rattle.slate_types.specs.declared.config.IsolationLevel.{IsolationLevel};
ghost use Rattle.slate_txn.specs.declared.event.TranscriptStep.{TranscriptStep};
ghost use Rattle.slate_txn.specs.Audited.{AreOfKind, IsFirstForeign, IsForeignAt, IsOfKindAt, IsOfKindBy, KnowsLevels, OpensNew};
ghost use Rattle.slate_txn.specs.Named.{StandOnce, find_named};
ghost use Rattle.slate_txn.specs.Replay.{IsLegal, apply};
ghost use Rattle.slate_txn.specs.State.{State};

use crate::event::{Event, Transcript};
use crate::journal::Journal;
use crate::list::{KeyList, OpList};
use slate_types::IsolationLevel;
use std::alloc::{AllocError, Global};
use std::collections::BTreeMap;
use uuid::Uuid;

/// Which commits are of a kind.
pub trait CommitForm: Drop {
    /// What the kind knows of a commit: the level of its transaction, its moment, its operations, the keys that it tracks, and its
    /// transcript.
    ghost is: { Self → IsolationLevel → ℤ → Ops → List (List ℕ) → List TranscriptStep → Type 0 };

    /// Whether the commit is of the kind.
    fn test(
        &self,
        alloc: Global,
        level: IsolationLevel,
        now: i64,
        ops: &OpList,
        tracked: &KeyList,
        transcript: &Transcript,
    ) -> Result<bool, AllocError>
        ensures yes { result ≡ Ok true → is self.now level now ops.now tracked.now transcript.now }
        ensures no { result ≡ Ok false → is self.now level now ops.now tracked.now transcript.now → ⊥ };
}

/// The sequence of the first commit that isn't of the kind, or of the first write outside transactions; None where there is none.
/// A commit of an empty batch has no sequence, and is passed over. One pass over the journal.
pub fn first_foreign<F: CommitForm>(journal: &Journal, form: &F) -> Result<Option<u64>, AllocError>
    ensures none { (n0 : ℕ) → IsLegal n0 journal.now.events → result ≡ Ok None → AreOfKind (F.is form.now) journal.now.events }
    ensures some { (n0 : ℕ) → IsLegal n0 journal.now.events → IfOk result (λ o. IfSome o (IsFirstForeign (F.is form.now) journal.now.events)) }
{
    let alloc = journal.alloc();
    let mut levels = BTreeMap::new(alloc);
    for event in journal.as_slice() {
        if let Some(seq) = foreign(alloc, &levels, form, event)? {
            return Ok(Some(seq));
        }
        follow(&mut levels, event)?;
    }
    Ok(None)
}

/// The event's sequence, where it isn't of the kind. The levels are those of the transactions that are open before it.
fn foreign<F: CommitForm>(
    alloc: Global,
    levels: &BTreeMap<Uuid, IsolationLevel>,
    form: &F,
    event: &Event,
) -> Result<Option<u64>, AllocError>
    ensures none { (s : State) → KnowsLevels s levels.now.entries → result ≡ Ok None → IsOfKindAt (F.is form.now) s event.now }
    ensures some { (s : State) → KnowsLevels s levels.now.entries → IfOk result (λ o. IfSome o (IsForeignAt (F.is form.now) s event.now)) }
{
    match event {
        Event::Commit {
            id,
            seq,
            now,
            ops,
            tracked,
            transcript,
        } => match seq {
            Some(seq) => {
                if is_own(alloc, levels, form, id, *now, ops, tracked, transcript)? {
                    Ok(None)
                } else {
                    Ok(Some(*seq))
                }
            }
            None => Ok(None),
        },
        Event::Write { seq, .. } => Ok(Some(*seq)),
        _ => Ok(None),
    }
}

/// Whether the commit of the transaction with this id is of the kind. One of no open transaction isn't.
fn is_own<F: CommitForm>(
    alloc: Global,
    levels: &BTreeMap<Uuid, IsolationLevel>,
    form: &F,
    id: &Uuid,
    now: i64,
    ops: &OpList,
    tracked: &KeyList,
    transcript: &Transcript,
) -> Result<bool, AllocError>
    ensures yes { (s : State) (n : ℕ) → KnowsLevels s levels.now.entries → result ≡ Ok true → IsOfKindBy (F.is form.now) (find_named id.now s.txns) (Some n) now ops.now tracked.now transcript.now }
    ensures no { (s : State) (n : ℕ) → KnowsLevels s levels.now.entries → result ≡ Ok false → IsOfKindBy (F.is form.now) (find_named id.now s.txns) (Some n) now ops.now tracked.now transcript.now → ⊥ }
{
    match levels.get(id) {
        Some(level) => form.test(alloc, *level, now, ops, tracked, transcript),
        None => Ok(false),
    }
}

/// Brings the levels of open transactions behind the event.
fn follow(levels: &mut BTreeMap<Uuid, IsolationLevel>, event: &Event) -> Result<(), AllocError>
    ensures { (s : State) → StandOnce s.txns → OpensNew s event.now → KnowsLevels s levels.old.entries → OnOk result (KnowsLevels (apply s event.now) levels.new.entries) }
{
    match event {
        Event::Begin { id, level, .. } => {
            levels.insert(*id, *level)?;
        }
        Event::End { id } => {
            levels.remove(id);
        }
        Event::Commit { id, .. } => {
            levels.remove(id);
        }
        _ => {}
    }
    Ok(())
}
