//! Paths that the check computes.
ghost use Rattle.slate_db.specs.Vectors.{FirstPaths};

/// The first two tables of the first flush, and the first of the second.
pub fn first_paths()
    ensures { FirstPaths }
{}
