//! Copies of events. They share keys, values and the bytes of tables.
ghost use Rattle.std.specs.Prelude.{◌≡◌, IfOk};
ghost use Rattle.slate_txn.specs.declared.event.Event.TheVariants as events;

use crate::{Event, KeyList, OpList, Transcript, TranscriptStep};
use std::alloc::AllocError;
use uuid::Uuid;

impl Clone for TranscriptStep {
    ghost is_clone = { λ step copy. copy ≡ step };

    fn clone(&self) -> Result<TranscriptStep, AllocError> {
        match self {
            TranscriptStep::Get { key, answer } => {
                let key = key.clone()?;
                let answer = answer.clone()?;
                Ok(TranscriptStep::Get { key, answer })
            }
            TranscriptStep::Scan { order, range } => {
                let range = range.clone()?;
                Ok(TranscriptStep::Scan {
                    order: *order,
                    range,
                })
            }
            TranscriptStep::Next { scan, answer } => {
                let answer = answer.clone()?;
                Ok(TranscriptStep::Next {
                    scan: *scan,
                    answer,
                })
            }
            TranscriptStep::Seek { scan, key } => {
                let key = key.clone()?;
                Ok(TranscriptStep::Seek { scan: *scan, key })
            }
            TranscriptStep::View { range } => {
                let range = range.clone()?;
                Ok(TranscriptStep::View { range })
            }
            TranscriptStep::Own { key, op } => {
                let key = key.clone()?;
                let op = op.clone()?;
                Ok(TranscriptStep::Own { key, op })
            }
        }
    }
}

impl Clone for Event {
    ghost is_clone = { λ event copy. copy ≡ event };

    fn clone(&self) -> Result<Event, AllocError> {
        match self {
            Event::Begin { id, level, start } => Ok(Event::Begin {
                id: *id,
                level: *level,
                start: *start,
            }),
            Event::End { id } => Ok(Event::End { id: *id }),
            Event::Commit {
                id,
                seq,
                now,
                ops,
                tracked,
                transcript,
            } => copied_commit(*id, *seq, *now, ops, tracked, transcript),
            Event::Write { seq, now, ops } => {
                let ops = ops.clone()?;
                Ok(Event::Write {
                    seq: *seq,
                    now: *now,
                    ops,
                })
            }
            Event::Freeze => Ok(Event::Freeze),
            Event::Install { through, tables } => {
                let tables = tables.clone()?;
                Ok(Event::Install {
                    through: *through,
                    tables,
                })
            }
            Event::Snapshot { id, seq } => Ok(Event::Snapshot { id: *id, seq: *seq }),
            Event::Release { id } => Ok(Event::Release { id: *id }),
        }
    }
}

fn copied_commit(
    id: Uuid,
    seq: Option<u64>,
    now: i64,
    ops: &OpList,
    tracked: &KeyList,
    transcript: &Transcript,
) -> Result<Event, AllocError>
    ensures { IfOk result (λ copy. copy ≡ events.Commit id seq now ops.now tracked.now transcript.now) }
{
    let ops = ops.clone()?;
    let tracked = tracked.clone()?;
    let transcript = transcript.clone()?;
    Ok(Event::Commit {
        id,
        seq,
        now,
        ops,
        tracked,
        transcript,
    })
}
