//! The one error type.
ghost use Rattle.std.specs.Prelude.{◌≡◌};
ghost use Rattle.slate_types.specs.ExitStatus as exit;
ghost use Rattle.slate_types.specs.declared.error.SlateDBError.TheVariants.{OutOfMemory};

use bytes::Bytes;
use std::alloc::{AllocError, AllocFailed};
use std::fmt::{self, Display, Formatter, Write};
use thiserror::Error;

/// Every refusal of the store, with what shows its cause.
#[derive(Debug, Drop, Error)]
pub enum SlateDBError {
    /// A commit since the begin writes what this transaction tracks: the greatest such sequence.
    TransactionConflict {
        seq: u64,
    },
    /// Kept operations of a key differ in expiry: the newest one's, then the first differing older one's.
    IncompatibleMergeTtls {
        key: Bytes,
        previous_expire_ts: Option<i64>,
        current_expire_ts: Option<i64>,
    },
    /// Of two different segment prefixes one begins the other.
    InvalidSegmentPrefix {
        prefix: Bytes,
        conflict: Bytes,
    },
    /// A key has at least one byte.
    EmptyKey,
    /// A key has at most 65535 bytes.
    KeyTooLong {
        len: u64,
    },
    /// A value has at most 2^32 - 1 bytes.
    ValueTooLong {
        len: u64,
    },
    /// The bounds leave no range.
    InvalidRange,
    /// The stored checksum is not that of the bytes.
    ChecksumMismatch {
        stored: u32,
        computed: u32,
    },
    /// A merge without an operator.
    MergeOperatorMissing,
    /// The extractor gives the key no prefix, or an empty one.
    EmptySegmentPrefix {
        key: Bytes,
    },
    /// The name is not open, for this line.
    UnknownTransaction {
        name: Bytes,
    },
    /// The name is open already.
    DuplicateTransaction {
        name: Bytes,
    },
    /// The last usable sequence, u64::MAX - 1, is taken.
    SequenceExhausted,
    /// The line, counted from 1, is no line of a script.
    ScriptSyntax {
        line: u64,
    },
    /// A script has under 4294967295 bytes.
    ScriptTooLong,
    /// The source failed.
    ReadFault,
    /// The sink failed.
    WriteFault,
    /// The store failed.
    StoreFault,
    /// The merge operator failed.
    Callback {
        message: Bytes,
    },
    /// Neither an operand nor a value to merge.
    EmptyBatch,
    /// The block transformer failed.
    BlockTransformError,
    /// An object too short for a table.
    EmptySSTable {
        len: u64,
    },
    /// An info too short for a checksum and one byte.
    EmptyBlockMeta {
        len: u64,
    },
    /// A version of tables or blocks that is none.
    InvalidVersion {
        actual_version: u16,
    },
    /// Flags of a row that are none.
    InvalidRowFlags {
        encoded_bits: u8,
    },
    /// Bytes that are no filters.
    InvalidFilterBlock {
        len: u64,
    },
    /// Bytes that are no table: the place of the field that fails.
    CorruptTable {
        place: u64,
    },
    /// A codec is named: its byte.
    UnsupportedCompression {
        codec: u8,
    },
    /// The table has no such block.
    BlockOutOfRange {
        block: u64,
        blocks: u64,
    },
    /// A block needs a row.
    EmptyBlock,
    /// An iterator is used before `init`.
    IteratorNotInitialized,
    /// A seek to a key before the range.
    SeekKeyOutOfKeyRange {
        key: Bytes,
    },
    /// Rows of one key rise in sequence.
    InvalidSequenceOrder {
        current_seq: u64,
        next_seq: u64,
    },
    /// A count has reached its limit.
    LimitReached {
        limit: u64,
    },
    /// Memory is wanting.
    OutOfMemory,
}

/// Says what is wrong, and then the error with what shows its cause, as `the key is too long: KeyTooLong { len: 65536 }`.
impl Display for SlateDBError {
    fn fmt<W: Write>(&self, f: &mut Formatter<W>) -> fmt::Result {
        write!(f, "{}: {self:?}", self.text())
    }
}

impl SlateDBError {
    /// The exit status of a run that this error ended, or `None` where no run ends with it.
    pub fn status(&self) -> Option<u8>
        ensures { result ≡ exit.status self.now }
    {
        match self {
            Self::ScriptSyntax { .. } => Some(3),
            Self::ScriptTooLong => Some(4),
            Self::ReadFault => Some(5),
            Self::WriteFault => Some(6),
            Self::StoreFault => Some(7),
            Self::Callback { .. } => Some(8),
            Self::BlockTransformError => Some(9),
            Self::ChecksumMismatch { .. } => Some(12),
            Self::InvalidRowFlags { .. } => Some(14),
            Self::InvalidFilterBlock { .. } => Some(15),
            Self::CorruptTable { .. } => Some(16),
            Self::InvalidSequenceOrder { .. } => Some(18),
            Self::MergeOperatorMissing => Some(19),
            Self::OutOfMemory => Some(20),
            _ => None,
        }
    }

    /// What is wrong.
    fn text(&self) -> &'static str {
        match self {
            Self::TransactionConflict { .. } => "another commit came first",
            Self::IncompatibleMergeTtls { .. } => "merges of one key differ in expiry",
            Self::InvalidSegmentPrefix { .. } => "segment prefixes nest",
            Self::EmptyKey => "the key is empty",
            Self::KeyTooLong { .. } => "the key is too long",
            Self::ValueTooLong { .. } => "the value is too long",
            Self::InvalidRange => "the range is empty",
            Self::ChecksumMismatch { .. } => "the stored checksum isn't that of the bytes",
            Self::MergeOperatorMissing => "there is no merge operator",
            Self::EmptySegmentPrefix { .. } => "the key has no segment",
            Self::UnknownTransaction { .. } => "the transaction isn't open",
            Self::DuplicateTransaction { .. } => "the transaction is open",
            Self::SequenceExhausted => "no sequence is left",
            Self::ScriptSyntax { .. } => "a line is no line of a script",
            Self::ScriptTooLong => "the script is too long",
            Self::ReadFault => "the source failed",
            Self::WriteFault => "the sink failed",
            Self::StoreFault => "the store failed",
            Self::Callback { .. } => "the merge operator failed",
            Self::EmptyBatch => "nothing to merge",
            Self::BlockTransformError => "the block transformer failed",
            Self::EmptySSTable { .. } => "the bytes are no table",
            Self::EmptyBlockMeta { .. } => "the bytes are no info",
            Self::InvalidVersion { .. } => "there is no such version",
            Self::InvalidRowFlags { .. } => "the bits are no flags of a row",
            Self::InvalidFilterBlock { .. } => "the bytes are no filters",
            Self::CorruptTable { .. } => "the table is corrupt",
            Self::UnsupportedCompression { .. } => "the codec isn't supported",
            Self::BlockOutOfRange { .. } => "the table has no such block",
            Self::EmptyBlock => "a block has no row",
            Self::IteratorNotInitialized => "the iterator isn't initialized",
            Self::SeekKeyOutOfKeyRange { .. } => "the key is before the range",
            Self::InvalidSequenceOrder { .. } => "a key's rows rise in sequence",
            Self::LimitReached { .. } => "a limit is reached",
            Self::OutOfMemory => "out of memory",
        }
    }
}

impl From<AllocError> for SlateDBError {
    ghost from_gives = { λ _ e. e ≡ OutOfMemory };

    fn from(_error: AllocError) -> SlateDBError {
        SlateDBError::OutOfMemory
    }
}

impl<T: Drop> From<AllocFailed<T>> for SlateDBError {
    ghost from_gives = { λ _ e. e ≡ OutOfMemory };

    fn from(_failed: AllocFailed<T>) -> SlateDBError {
        SlateDBError::OutOfMemory
    }
}
