//! A flush on its way: what it takes at its start, and what is known of it until its tables are installed.
ghost use Rattle.std.specs.Prelude.{◌≡◌, IfOk};

use slate_mem::ImmutableMemtable;
use std::alloc::{AllocError, Global};
use std::snapshot::Snapshot;

/// A flush on its way, whose tables are stored while others commit.
#[derive(Drop)]
pub struct Flight {
    /// The number of the flush, which its tables' ids begin with.
    pub number: u64,
    /// The least sequence that a reader stood at when it began, to which rows are folded.
    pub barrier: u64,
    /// The newest sequence when it began: the last one that it stores.
    pub through: u64,
    /// How many frozen tables it took, the oldest.
    pub tables: usize,
    /// What these tables held.
    pub taken: Snapshot<Vec<ImmutableMemtable>>,
}

/// The same tables once more. It takes memory the first time alone.
pub fn share_all(
    alloc: Global,
    tables: &mut [ImmutableMemtable],
) -> Result<Vec<ImmutableMemtable>, AllocError>
    ensures same { tables.new ≡ tables.old }
    ensures shared { IfOk result (λ shared. shared.items ≡ tables.old) }
{
    let mut shared = Vec::new(alloc);
    for table in tables.iter_mut() {
        let another = table.share()?;
        shared.push(another)?;
    }
    Ok(shared)
}
