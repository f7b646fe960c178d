//! Iterators over the rows of other iterators.
#![tactic(auto)]

pub mod empty_iterator;
pub mod filter_iterator;
pub mod fold_group;
pub mod folding;
pub mod groups;
pub mod head;
pub mod heads;
pub mod kept;
pub mod laws;
pub mod merge_iterator;
pub mod newest_first;
pub mod operates;
pub mod operator_iterator;
pub mod peeking_iterator;
pub mod progress;
pub mod required_iterator;

pub use empty_iterator::EmptyIterator;
pub use filter_iterator::{FilterIterator, MaxSeq, RowPredicate};
pub use merge_iterator::MergeIterator;
pub use newest_first::NewestFirst;
pub use operates::Operates;
pub use operator_iterator::MergeOperatorIterator;
pub use peeking_iterator::PeekingIterator;
pub use required_iterator::MergeOperatorRequiredIterator;
