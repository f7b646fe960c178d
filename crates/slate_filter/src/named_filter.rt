//! Filters by their policies' names.
use bytes::Bytes;

/// One entry of a table's filters.
#[derive(Drop)]
pub struct NamedFilter {
    pub name: String,
    pub filter: Bytes,
}
