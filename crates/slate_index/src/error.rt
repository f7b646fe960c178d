//! Why a change of a record is refused.
use bytes::Bytes;
use slate_types::SlateDBError;
use std::alloc::AllocError;

/// Why a change of a record, or a search for records, is refused.
#[derive(Drop)]
pub enum IndexError {
    /// A field of more than 1024 bytes, of the least number.
    FieldTooLong { number: u8, len: u64 },
    /// No record has the id.
    NoRecord { id: Bytes },
    /// The database refuses.
    Db(SlateDBError),
    /// The first commit, or the first plain write, of a journal that is no change's.
    ForeignCommit { seq: u64 },
}

impl From<AllocError> for IndexError {
    ghost use Rattle.std.specs.Prelude.{◌≡◌};
    ghost use Rattle.slate_types.specs.declared.error.SlateDBError.TheVariants.{OutOfMemory};
    ghost use Rattle.slate_index.specs.declared.error.IndexError.TheVariants.{Db};

    ghost from_gives = { λ _ e. e ≡ Db OutOfMemory };

    fn from(_error: AllocError) -> IndexError {
        IndexError::Db(SlateDBError::OutOfMemory)
    }
}
