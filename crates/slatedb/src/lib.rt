//! Slate as a library: a transactional store, which one `use` brings.
//!
//! A program opens a `Database`, which its threads share, each by a `Pass`: it commits in transactions, writes batches, and flushes
//! to a store of objects. A transaction gets keys and scans ranges; a `View` of a range is read without the lock, by gets and by a
//! `DbIterator`. `threads` is a program to begin from. Where one thread has the whole store, a `Core` is the same without a lock, and
//! has snapshots too: `first_steps` begins there.
//!
//! Where there is no operator, no transformer or no extractor, the `None` of its `Option` is handed in, and `NoOperator`,
//! `NoTransformer` or `NoExtractor` names its type.
#![tactic(auto)]

pub mod first_steps;
pub mod threads;
pub mod turns;

pub use bytes::Bytes;
pub use counters::{Add, add_is_lawful, counter_value};
pub use slate_db::engine::Core;
pub use slate_db::laws::Laws;
pub use slate_db::scan::{DbIterator, TxnIterator};
pub use slate_filter::{BloomFilterPolicy, FilterPolicy};
pub use slate_mem::WriteBatch;
pub use slate_shared::{
    Database, DbTransaction, EncodeWorker, FlushPlan, Parts, Pass, Plain, View, WriteHandle,
    encode_segments,
};
pub use slate_store::{Env, FileStore, MemoryStore, Store, StoreError};
pub use slate_types::{
    BlockFormat, BlockTransformer, ByteRangeBounds, BytesRange, FilterContext, IsolationLevel,
    IterationOrder, KeyValue, MergeOperator, MergeOperatorError, MergeOptions, NoExtractor,
    NoOperator, NoTransformer, Options, PrefixExtractor, PutOptions, ReadOptions, ScanOptions,
    SlateDBError, TransformError, Ttl, WriteOptions,
};
pub use uuid::Uuid;
