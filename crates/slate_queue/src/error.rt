//! Why a call on a queue is refused.
use bytes::Bytes;
use slate_types::SlateDBError;
use std::alloc::AllocError;

/// Why a call on a queue is refused.
#[derive(Drop)]
pub enum QueueError {
    /// A payload of more than 2^32 - 17 bytes.
    PayloadTooLong { len: u64 },
    /// No job has the id.
    NoJob { id: u64 },
    /// The job's lease has this number, or it has none, which is 0.
    StaleLease { current: u64 },
    /// The job's lease has the greatest number.
    LeasesSpent { id: u64 },
    /// The counter is the greatest number.
    IdsSpent,
    /// A stored job of fewer than 16 bytes, or a counter of other than 8.
    BadJob { key: Bytes },
    /// The database refused.
    Db(SlateDBError),
    /// The first commit, or the first plain write, that isn't a queue's.
    ForeignCommit { seq: u64 },
}

impl From<AllocError> for QueueError {
    ghost use Rattle.std.specs.Prelude.{◌≡◌};
    ghost use Rattle.slate_types.specs.declared.error.SlateDBError.TheVariants.{OutOfMemory};
    ghost use Rattle.slate_queue.specs.declared.error.QueueError.TheVariants.{Db};

    ghost from_gives = { λ _ e. e ≡ Db OutOfMemory };

    fn from(_error: AllocError) -> QueueError {
        QueueError::Db(SlateDBError::OutOfMemory)
    }
}

impl From<SlateDBError> for QueueError {
    ghost use Rattle.std.specs.Prelude.{◌≡◌};
    ghost use Rattle.slate_queue.specs.declared.error.QueueError.TheVariants.{Db};

    ghost from_gives = { λ error e. e ≡ Db error };

    fn from(error: SlateDBError) -> QueueError {
        QueueError::Db(error)
    }
}
