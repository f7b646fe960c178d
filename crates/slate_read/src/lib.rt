//! Iterators over stored tables; those over the rows of others are passed on from `slate_merge`.
#![tactic(auto)]

pub mod fetch_limits;
pub mod fetching;
pub mod internal_sst_iterator;
pub mod laws;
pub mod range_rows;
pub mod read_source;
pub mod readable_laws;
pub mod run_iterator;
pub mod run_rows;
pub mod run_state;
pub mod run_walk;
pub mod segment_merge_iterator;
pub mod sorted_run;
pub mod sorted_run_iterator;
pub mod sst_iterator;
pub mod sst_iterator_options;
pub mod table_iterator;
pub mod table_state;
pub mod table_walk;

use crate::range_rows::InRange;
use crate::run_state::RunWalk;
pub use fetch_limits::FetchLimits;
pub use internal_sst_iterator::InternalSstIterator;
pub use read_source::ReadSource;
pub use segment_merge_iterator::SegmentMergeIterator;
use slate_merge::NewestFirst;
pub use slate_merge::{
    EmptyIterator, FilterIterator, MaxSeq, MergeIterator, MergeOperatorIterator,
    MergeOperatorRequiredIterator, Operates, PeekingIterator, RowPredicate,
};
pub use sorted_run::SortedRun;
pub use sorted_run_iterator::SortedRunIterator;
pub use sst_iterator::SstIterator;
pub use sst_iterator_options::SstIteratorOptions;

fn crosses<T: Send + Sync>() {}

/// A run and iterators over tables go to other threads, and are shared between them.
pub fn types_cross_threads() {
    crosses::<SortedRun>();
    crosses::<SstIteratorOptions>();
    crosses::<InternalSstIterator>();
    crosses::<NewestFirst<FilterIterator<RunWalk, InRange>>>();
}
