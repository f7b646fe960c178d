//! The commits of a journal, as its line shows them.
ghost use Rattle.std.specs.Prelude.{◌≡◌, ◌++◌, [], map, IfOk, OnOk};
ghost use Rattle.slate_txn.specs.Replay.{commit_made, replay};
ghost use Rattle.slate_language.specs.Answers.{entry_commit, shown_commits};
ghost use Rattle.slate_script.specs.Shown.{shown_in};

use bytes::Bytes;
use slate_language::JournalEntry;
use slate_txn::event::Event;
use slate_txn::list::KeyList;
use std::alloc::{AllocError, Global};

/// Of each commit among the events its sequence, its moment and its tracked keys. The keys are shared.
pub(crate) fn entries(alloc: Global, events: &[Event]) -> Result<Vec<JournalEntry>, AllocError>
    ensures entries { IfOk result (λ v. map entry_commit v.items ≡ shown_commits (replay events.now).commits) }
{
    let mut entries = Vec::new(alloc);
    for event in events {
        push_entry(alloc, &mut entries, event)?;
    }
    Ok(entries)
}

/// Adds the entry of an event that is a commit.
fn push_entry(
    alloc: Global,
    entries: &mut Vec<JournalEntry>,
    event: &Event,
) -> Result<(), AllocError>
    ensures entries { let shown = map entry_commit in
        OnOk result (shown entries.new.items ≡ shown entries.old.items ++ shown_in event.now) }
{
    match event {
        Event::Commit {
            seq,
            now,
            tracked,
            ..
        } => push_commit(alloc, entries, *seq, *now, tracked.as_slice()),
        Event::Write { seq, now, ops } => {
            let tracked = ops.keys(alloc)?;
            entries.push(JournalEntry {
                seq: *seq,
                now: *now,
                tracked,
            })?;
            Ok(())
        }
        _ => Ok(()),
    }
}

/// Adds the entry of a transaction's commit, where it has a sequence.
fn push_commit(
    alloc: Global,
    entries: &mut Vec<JournalEntry>,
    seq: Option<u64>,
    now: i64,
    tracked: &[Bytes],
) -> Result<(), AllocError>
    ensures entries { let shown = map entry_commit in
        OnOk result (shown entries.new.items ≡ shown entries.old.items ++ commit_made seq now [] tracked.now) }
{
    let Some(seq) = seq else {
        return Ok(());
    };
    let tracked = shared(alloc, tracked)?;
    entries.push(JournalEntry { seq, now, tracked })?;
    Ok(())
}

/// The same keys, which are shared.
fn shared(alloc: Global, keys: &[Bytes]) -> Result<KeyList, AllocError>
    ensures keys { IfOk result (λ same. same ≡ keys.now) }
{
    let mut same = Vec::new(alloc);
    for key in keys {
        same.push(key.clone()?)?;
    }
    Ok(KeyList::from_vec(same))
}
