//! The feed of a journal.
ghost use Rattle.std.specs.Prelude.{◌≡◌, ◌++◌, IfOk, OnOk, IsOkUnless, option_to_list};
ghost use Rattle.slate_types.specs.declared.error.SlateDBError.{SlateDBError};
ghost use Rattle.slate_mem.specs.Batch.{batch_keys};
ghost use Rattle.slate_queue.specs.declared.error.QueueError.{QueueError};
ghost use Rattle.slate_queue.specs.Feed.{entry_above, entry_if, feed_of};

use crate::error::QueueError;
use slate_txn::event::Event;
use slate_txn::{Journal, KeyList, OpList};
use std::alloc::{AllocError, Global};

/// A commit or a plain write of a journal: its sequence, its moment in milliseconds and the keys of its operations, rising.
#[derive(Drop)]
pub struct FeedEntry {
    pub seq: u64,
    pub now: i64,
    pub keys: KeyList,
}

/// The commits and plain writes of a journal with a sequence above `after`, each once, in order, with all keys of their operations.
///
/// # Errors
///
/// `Db(OutOfMemory)` where memory is wanting.
pub fn feed(journal: &Journal, after: u64) -> Result<Vec<FeedEntry>, QueueError>
    ensures feed { IfOk result (λ entries. entries.items ≡ feed_of after journal.now.events) }
    ensures cause { IsOkUnless result (QueueError.Db SlateDBError.OutOfMemory) }
{
    Ok(entries_above(journal.alloc(), journal.as_slice(), after)?)
}

fn entries_above(alloc: Global, events: &[Event], after: u64) -> Result<Vec<FeedEntry>, AllocError>
    ensures feed { IfOk result (λ entries. entries.items ≡ feed_of after events.now) }
{
    let mut entries = Vec::new(alloc);
    for event in events {
        push_above(alloc, &mut entries, event, after)?;
    }
    Ok(entries)
}

fn push_above(
    alloc: Global,
    entries: &mut Vec<FeedEntry>,
    event: &Event,
    after: u64,
) -> Result<(), AllocError>
    ensures { OnOk result (entries.new.items ≡ entries.old.items ++ option_to_list (entry_above after event.now)) }
{
    if let Some(entry) = entry_above(alloc, event, after)? {
        entries.push(entry)?;
    }
    Ok(())
}

fn entry_above(alloc: Global, event: &Event, after: u64) -> Result<Option<FeedEntry>, AllocError>
    ensures entry { IfOk result (λ entry. entry ≡ entry_above after event.now) }
{
    match event {
        Event::Commit {
            seq: Some(seq),
            now,
            ops,
            ..
        }
        | Event::Write { seq, now, ops } => entry_if(alloc, after, *seq, *now, ops),
        _ => Ok(None),
    }
}

fn entry_if(
    alloc: Global,
    after: u64,
    seq: u64,
    now: i64,
    ops: &OpList,
) -> Result<Option<FeedEntry>, AllocError>
    ensures entry { IfOk result (λ entry. entry ≡ entry_if after seq now ops.now) }
{
    if seq <= after {
        return Ok(None);
    }
    let keys = ops.keys(alloc)?;
    Ok(Some(FeedEntry { seq, now, keys }))
}
