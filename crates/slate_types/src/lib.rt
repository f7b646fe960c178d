//! Rows, ranges, options and errors: the vocabulary that every crate above shares.
#![tactic(auto)]

pub mod block_transformer;
pub mod byte_range_bounds;
pub mod bytes_range;
pub mod config;
mod derived;
pub mod error;
pub mod filter_policy;
pub mod iter;
pub mod key_order;
pub mod laws;
pub mod merge_operator;
pub mod partitioned_keyspace;
pub mod prefix_extractor;
pub mod rows_iterator;
pub mod sequenced_key;
pub mod types;
pub mod vectors;

pub use block_transformer::{BlockTransformer, NoTransformer, TransformError};
pub use byte_range_bounds::ByteRangeBounds;
pub use bytes_range::BytesRange;
pub use config::{
    BlockFormat, CompressionCodec, IsolationLevel, MergeOptions, Options, PutOptions, ReadOptions,
    ScanOptions, Ttl, WriteOptions,
};
pub use error::SlateDBError;
pub use filter_policy::{FilterContext, FilterQuery, PrefixTarget};
pub use iter::{IterationOrder, Outside, RowEntryIterator, TrackedRowEntryIterator, collect_rows};
pub use key_order::compare_keys;
pub use merge_operator::{MergeOperator, MergeOperatorError, NoOperator};
pub use partitioned_keyspace::{
    RangePartitionedKeySpace, first_partition_including_key,
    first_partition_including_or_after_key, last_partition_including_key, partition_point,
    partitions_covering_range,
};
pub use prefix_extractor::{NoExtractor, PrefixExtractor};
pub use rows_iterator::RowsIterator;
pub use sequenced_key::SequencedKey;
pub use types::{KeyValue, RowEntry, Ulid, ValueDeletable};

fn crosses<T: Send + Sync>() {}

/// The types of this crate go to other threads, and are shared between them.
pub fn types_cross_threads() {
    crosses::<
        (
            (
                ValueDeletable,
                RowEntry,
                KeyValue,
                SequencedKey,
                BytesRange,
                FilterQuery,
            ),
            (
                Ulid,
                IsolationLevel,
                Options,
                ReadOptions,
                ScanOptions,
                RowsIterator,
            ),
            (PutOptions, MergeOptions, WriteOptions),
            (SlateDBError, MergeOperatorError, TransformError),
        ),
    >();
}
