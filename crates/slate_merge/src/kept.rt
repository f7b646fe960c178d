//! Refusals that are kept, and answered again.
ghost use Rattle.std.specs.Prelude.{◌≡◌, ◌⊎◌};
ghost use Rattle.slate_types.specs.declared.error.SlateDBError.{SlateDBError};
ghost use Rattle.slate_merge.specs.Kept.{Copies};

use bytes::Bytes;
use slate_types::{SlateDBError, SlateDBError as E};

fn copy_prefixes(prefix: &Bytes, conflict: &Bytes) -> SlateDBError
    ensures { (result ≡ SlateDBError.InvalidSegmentPrefix prefix.now conflict.now) ⊎ (result ≡ SlateDBError.OutOfMemory) }
{
    let Ok(prefix) = prefix.clone() else {
        return E::OutOfMemory;
    };
    match conflict.clone() {
        Ok(conflict) => E::InvalidSegmentPrefix { prefix, conflict },
        Err(_) => {
            drop(prefix);
            E::OutOfMemory
        }
    }
}

/// A copy of a refusal, or memory's where none can be made.
pub fn copy_of(refusal: &SlateDBError) -> SlateDBError
    ensures { Copies refusal.now result }
{
    match refusal {
        E::TransactionConflict { seq } => E::TransactionConflict { seq: *seq },
        E::IncompatibleMergeTtls {
            key,
            previous_expire_ts,
            current_expire_ts,
        } => match key.clone() {
            Ok(key) => E::IncompatibleMergeTtls {
                key,
                previous_expire_ts: *previous_expire_ts,
                current_expire_ts: *current_expire_ts,
            },
            Err(_) => E::OutOfMemory,
        },
        E::InvalidSegmentPrefix { prefix, conflict } => copy_prefixes(prefix, conflict),
        E::EmptyKey => E::EmptyKey,
        E::KeyTooLong { len } => E::KeyTooLong { len: *len },
        E::ValueTooLong { len } => E::ValueTooLong { len: *len },
        E::InvalidRange => E::InvalidRange,
        E::ChecksumMismatch { stored, computed } => E::ChecksumMismatch {
            stored: *stored,
            computed: *computed,
        },
        E::MergeOperatorMissing => E::MergeOperatorMissing,
        E::EmptySegmentPrefix { key } => match key.clone() {
            Ok(key) => E::EmptySegmentPrefix { key },
            Err(_) => E::OutOfMemory,
        },
        E::UnknownTransaction { name } => match name.clone() {
            Ok(name) => E::UnknownTransaction { name },
            Err(_) => E::OutOfMemory,
        },
        E::DuplicateTransaction { name } => match name.clone() {
            Ok(name) => E::DuplicateTransaction { name },
            Err(_) => E::OutOfMemory,
        },
        E::SequenceExhausted => E::SequenceExhausted,
        E::ScriptSyntax { line } => E::ScriptSyntax { line: *line },
        E::ScriptTooLong => E::ScriptTooLong,
        E::ReadFault => E::ReadFault,
        E::WriteFault => E::WriteFault,
        E::StoreFault => E::StoreFault,
        E::Callback { message } => match message.clone() {
            Ok(message) => E::Callback { message },
            Err(_) => E::OutOfMemory,
        },
        E::EmptyBatch => E::EmptyBatch,
        E::BlockTransformError => E::BlockTransformError,
        E::EmptySSTable { len } => E::EmptySSTable { len: *len },
        E::EmptyBlockMeta { len } => E::EmptyBlockMeta { len: *len },
        E::InvalidVersion { actual_version } => E::InvalidVersion {
            actual_version: *actual_version,
        },
        E::InvalidRowFlags { encoded_bits } => E::InvalidRowFlags {
            encoded_bits: *encoded_bits,
        },
        E::InvalidFilterBlock { len } => E::InvalidFilterBlock { len: *len },
        E::CorruptTable { place } => E::CorruptTable { place: *place },
        E::UnsupportedCompression { codec } => E::UnsupportedCompression { codec: *codec },
        E::BlockOutOfRange { block, blocks } => E::BlockOutOfRange {
            block: *block,
            blocks: *blocks,
        },
        E::EmptyBlock => E::EmptyBlock,
        E::IteratorNotInitialized => E::IteratorNotInitialized,
        E::SeekKeyOutOfKeyRange { key } => match key.clone() {
            Ok(key) => E::SeekKeyOutOfKeyRange { key },
            Err(_) => E::OutOfMemory,
        },
        E::InvalidSequenceOrder {
            current_seq,
            next_seq,
        } => E::InvalidSequenceOrder {
            current_seq: *current_seq,
            next_seq: *next_seq,
        },
        E::LimitReached { limit } => E::LimitReached { limit: *limit },
        E::OutOfMemory => E::OutOfMemory,
    }
}
