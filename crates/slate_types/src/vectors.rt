//! Searches and sizes that the check computes.
ghost use Rattle.slate_types.specs.Vectors.{Partitions, Sizes};

/// Searches over two partitions, and how many bytes a row is counted with.
pub fn vectors()
    ensures partitions { Partitions }
    ensures sizes { Sizes }
{}
