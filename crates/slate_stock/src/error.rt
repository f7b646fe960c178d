//! Why an order is refused.
ghost use Rattle.std.specs.Prelude.{◌≡◌};

use bytes::Bytes;
use slate_types::SlateDBError;
use std::alloc::AllocError;

/// Why an order is refused, in the order of tests; `ForeignCommit` is an audit's alone.
#[derive(Drop)]
pub enum StockError {
    /// The order names one holder twice.
    SameName,
    /// It trades money for money.
    SameAsset,
    /// Price times quantity passes the greatest u64, or, tested last, a balance after the order does.
    TooMuch,
    /// A stored amount isn't 8 bytes long.
    BadAmount { key: Bytes },
    /// The issued amount of the asset isn't 0.
    AlreadyIssued { asset: Bytes },
    /// A holding is below what the order needs of it.
    NotEnough { key: Bytes, has: u64, needs: u64 },
    /// The database refuses.
    Db(SlateDBError),
    /// The first commit or plain write of a journal that is no order's.
    ForeignCommit { seq: u64 },
}

impl From<AllocError> for StockError {
    ghost use Rattle.slate_stock.specs.declared.error.StockError.{StockError};
    ghost use Rattle.slate_types.specs.declared.error.SlateDBError.{SlateDBError};

    ghost from_gives = { λ _ e. e ≡ StockError.Db SlateDBError.OutOfMemory };

    fn from(_error: AllocError) -> StockError {
        StockError::Db(SlateDBError::OutOfMemory)
    }
}

impl From<SlateDBError> for StockError {
    ghost use Rattle.slate_stock.specs.declared.error.StockError.{StockError};

    ghost from_gives = { λ error e. e ≡ StockError.Db error };

    fn from(error: SlateDBError) -> StockError {
        StockError::Db(error)
    }
}
