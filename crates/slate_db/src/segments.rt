//! The segment prefixes of all commits so far.
ghost use Rattle.std.specs.Prelude.{◌≡◌, ◌⊎◌, ◌++◌, ◌&&◌, not, Bool, false, None, Some, List, [], ℕ, IfErr, IfOk, OnErr, OnOk, IsOkUnless};
ghost use Rattle.std.specs.BTreeSet as set;
ghost use Rattle.slate_types.specs.declared.error.SlateDBError.{SlateDBError};
ghost use Rattle.slate_types.specs.Keys.{among, key_cmp, keys_set};
ghost use Rattle.slate_mem.specs.KeyTests.{nest_refusals};
ghost use Rattle.slate_mem.specs.Refusals.{first_refusal};
ghost use Rattle.slate_db.specs.Segmented.{without_prefixes};

use bytes::Bytes;
use slate_mem::segments::test_segments;
use slate_types::SlateDBError;
use std::alloc::{AllocError, Global};
use std::collections::BTreeSet;
use std::marker::Model;

/// The segment prefixes of the keys of all commits so far: by them a batch is tested, in a time that doesn't grow with memtables
/// and tables.
#[derive(Drop)]
pub struct SegmentPrefixes {
    prefixes: BTreeSet<Bytes>,
}

impl Model for SegmentPrefixes {
    ghost use Rattle.std.specs.Prelude.{List, ℕ};
    ghost use Rattle.std.specs.List.Sorted.{IsStrictlySortedBy};
    ghost use Rattle.slate_types.specs.Keys.{key_cmp};

    ghost Value = { List (List ℕ) };

    ghost view = { λ s. s.prefixes.keys };

    ghost invariant = { λ s. IsStrictlySortedBy key_cmp s.prefixes.keys };
}

impl SegmentPrefixes {
    /// None. Takes no memory.
    pub fn new(alloc: Global) -> SegmentPrefixes
        ensures { result ≡ [] }
    {
        SegmentPrefixes {
            prefixes: BTreeSet::new(alloc),
        }
    }

    /// Tests the prefixes of a batch. Refuses by `InvalidSegmentPrefix`, with the least of the batch that nests with another of its
    /// own or with one of these, and the least such other; and by `OutOfMemory`.
    pub fn test(&self, own: &BTreeSet<Bytes>) -> Result<(), SlateDBError>
        ensures fine { OnOk result (first_refusal (nest_refusals self.now own.now.keys) ≡ None) }
        ensures cause { IfErr result (λ e. (e ≡ SlateDBError.OutOfMemory) ⊎ (first_refusal (nest_refusals self.now own.now.keys) ≡ Some e)) }
    {
        test_segments(&self.prefixes, own)
    }

    /// Records prefixes, and gives those of them that weren't recorded before. Where memory is wanting none is recorded.
    pub fn record(
        &mut self,
        alloc: Global,
        own: &BTreeSet<Bytes>,
    ) -> Result<BTreeSet<Bytes>, AllocError>
        ensures recorded { OnOk result (self.new ≡ keys_set (self.old ++ own.now.keys)) }
        ensures back { IfOk result (λ fresh. without_prefixes fresh.keys self.new ≡ self.old) }
        ensures same { OnErr result (self.new ≡ self.old) }
    {
        let fresh = missing(alloc, &self.prefixes, own)?;
        if let Err(error) = insert_all(&mut self.prefixes, &fresh) {
            self.take_back(&fresh);
            return Err(error);
        }
        Ok(fresh)
    }

    /// Takes prefixes out of the recorded ones. Takes no memory.
    pub fn take_back(&mut self, fresh: &BTreeSet<Bytes>)
        ensures { self.new ≡ without_prefixes fresh.now.keys self.old }
    {
        self.prefixes.retain(
            |prefix| -> bool
                ensures { result ≡ not (set.contains key_cmp fresh.entry.now prefix.now) }
            { !fresh.contains(prefix) },
        );
    }
}

/// The prefixes that aren't among the recorded ones.
fn missing(
    alloc: Global,
    recorded: &BTreeSet<Bytes>,
    own: &BTreeSet<Bytes>,
) -> Result<BTreeSet<Bytes>, AllocError>
    ensures { IfOk result (λ fresh. (p : List ℕ) → among p fresh.keys ≡ (among p own.now.keys && not (among p recorded.now.keys))) }
{
    let mut fresh = BTreeSet::new(alloc);
    for prefix in own {
        if !recorded.contains(prefix) {
            fresh.insert(prefix.clone()?)?;
        }
    }
    Ok(fresh)
}

/// Inserts prefixes. Where memory is wanting only some may be in.
fn insert_all(prefixes: &mut BTreeSet<Bytes>, more: &BTreeSet<Bytes>) -> Result<(), AllocError>
    ensures all { OnOk result (keys_set prefixes.new.keys ≡ keys_set (prefixes.old.keys ++ more.now.keys)) }
    ensures others { (p : List ℕ) → among p more.now.keys ≡ false → among p prefixes.new.keys ≡ among p prefixes.old.keys }
    ensures rising { set.IsOrdered key_cmp prefixes.new }
{
    let _count = prefixes.len();
    for prefix in more {
        prefixes.insert(prefix.clone()?)?;
    }
    Ok(())
}
