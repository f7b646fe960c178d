//! The layers of rows: the memtables, and what is kept of runs of tables.
ghost use Rattle.std.specs.Prelude.{◌≡◌, ◌≢◌, ◌≤◌, ◌<◌, ◌∷◌, ◌++◌, [], ℕ, List, map, length, IsTrue, ◌↔◌, IfOk, OnOk, OnErr, IsOkUnless, drop};
ghost use Rattle.std.specs.List.{AllByRecursion};
ghost use Rattle.slate_types.specs.declared.error.SlateDBError.{SlateDBError};
ghost use Rattle.slate_mem.specs.Lookup.{newest_first};
ghost use Rattle.slate_mem.specs.Table.{newest, put_rows};
ghost use Rattle.slate_db.specs.Flushed.{events_of_flush};
ghost use Rattle.slate_db.specs.Layers.{AreLayers, AreRising, FitsMemory, without_seq};
ghost use Rattle.slate_db.specs.Model.{versions_in};
ghost use Rattle.slate_db.specs.RangeShares.{HasUpto};
ghost use Rattle.slate_db.specs.SharedRuns.{tables_in};

use crate::flight::share_all;
use crate::key_share::KeyShare;
use crate::range_share::{RangeShare, copy_upto};
use crate::run_list::RunList;
use bytes::Bytes;
use slate_mem::lookup::newest_of_memory;
use slate_mem::{ImmutableMemtable, MemTable};
use slate_read::SortedRun;
use slate_types::{BytesRange, RowEntry, SlateDBError};
use std::alloc::{AllocError, Global};
use std::collections::BTreeSet;
use std::marker::Model;

/// The rows in memory, and what is kept of the runs that were installed.
#[derive(Drop)]
pub struct Layers {
    active: MemTable,
    /// The rows that wait for a flush, the newest last.
    frozen: Vec<ImmutableMemtable>,
    /// What is kept of runs of tables, those of the newest install last.
    runs: RunList,
    /// The greatest barrier of a flush so far.
    floor: u64,
}

impl Model for Layers {
    ghost use Rattle.slate_db.specs.Layers.{LayersModel, AreLayers};
    ghost use Rattle.slate_db.specs.LayersView.{layers_view};

    ghost Value = { LayersModel };

    ghost view = { layers_view };

    ghost invariant = { λ s. AreLayers (layers_view s) };
}

impl Layers {
    /// No rows and no runs. Takes no memory.
    pub fn new(alloc: Global) -> Layers
        ensures memory { (result.active ≡ []) × (result.frozen ≡ []) }
        ensures runs { (result.runs ≡ []) × (result.floor ≡ 0) }
        ensures whole { AreLayers result }
    {
        Layers {
            active: MemTable::new(alloc),
            frozen: Vec::new(alloc),
            runs: RunList::new(alloc),
            floor: 0,
        }
    }

    /// The rows that aren't frozen.
    pub fn active(&self) -> &MemTable
        ensures { result.now.rows ≡ self.now.active }
    {
        &self.active
    }

    /// The rows that wait for a flush, the newest last.
    pub fn frozen(&self) -> &[ImmutableMemtable]
        ensures { map (λ t. t.rows) result.now ≡ self.now.frozen }
    {
        self.frozen.as_slice()
    }

    /// What is kept of runs of tables, those of the newest install last.
    pub fn runs(&self) -> &[SortedRun]
        ensures { result.now ≡ self.now.runs }
    {
        self.runs.as_slice()
    }

    /// What a read of a key at a sequence takes: its rows in memory up to there, newest first, to the first that decides, and a copy
    /// of the runs, which readers share. The one error is `OutOfMemory`.
    pub fn share_key(
        &mut self,
        alloc: Global,
        key: &Bytes,
        at: u64,
    ) -> Result<KeyShare, SlateDBError>
        ensures same { self.new ≡ self.old }
        ensures shared { IfOk result (λ s. (s.rows ≡ newest key.now at (self.old.active ++ newest_first self.old.frozen)) × (tables_in s.runs ≡ tables_in self.old.runs)) }
        ensures whole { AreLayers self.new }
        ensures cause { IsOkUnless result SlateDBError.OutOfMemory }
    {
        let rows = newest_of_memory(alloc, &self.active, self.frozen.as_slice(), key, at)?;
        let runs = self.runs.share()?;
        Ok(KeyShare::new(rows, runs))
    }

    /// What reads of the keys in a range at a sequence take: the range's rows up to there that aren't frozen, the tables that are,
    /// shared, and a copy of the runs, which readers share. The one error is `OutOfMemory`.
    pub fn share_range(
        &mut self,
        alloc: Global,
        range: &BytesRange,
        at: u64,
    ) -> Result<RangeShare, SlateDBError>
        ensures same { self.new ≡ self.old }
        ensures shared { IfOk result (λ s. HasUpto range.now at self.old.active s.active × (s.frozen ≡ self.old.frozen) × (tables_in s.runs ≡ tables_in self.old.runs)) }
        ensures whole { AreLayers self.new }
        ensures cause { IsOkUnless result SlateDBError.OutOfMemory }
    {
        let active = copy_upto(alloc, &self.active, range, at)?;
        let runs = self.runs.share()?;
        let frozen = self.share_frozen(alloc)?;
        Ok(RangeShare::new(active, frozen, runs))
    }

    /// How many events a flush adds.
    pub fn events_of_flush(&self) -> usize
        ensures count { result ≡ events_of_flush self.now.active self.now.frozen }
        ensures few { result ≤ 2 }
    {
        if !self.active.is_empty() {
            2
        } else if !self.frozen.as_slice().is_empty() {
            1
        } else {
            0
        }
    }

    /// Puts the rows of a commit. Where memory is wanting none is put.
    pub fn put(&mut self, alloc: Global, rows: Vec<RowEntry>) -> Result<(), SlateDBError>
        requires fit { AllByRecursion FitsMemory rows.items }
        requires rise { (k : List ℕ) → AreRising (versions_in k (self.old.frozen ++ put_rows self.old.active rows.items ∷ [])) }
        ensures value { OnOk result (self.new ≡ record self.old { active = put_rows self.old.active rows.items }) }
        ensures same { OnErr result (self.new ≡ self.old) }
        ensures whole { AreLayers self.new }
        ensures cause { IsOkUnless result SlateDBError.OutOfMemory }
    {
        self.active.put_all(rows, BTreeSet::new(alloc))
    }

    /// Takes the rows of a sequence out of those that aren't frozen. Takes no memory.
    pub fn take_back(&mut self, alloc: Global, seq: u64)
        requires { AreLayers (record self.old { active = without_seq seq self.old.active }) }
        ensures value { self.new ≡ record self.old { active = without_seq seq self.old.active } }
        ensures whole { AreLayers self.new }
    {
        self.active.take_back(seq, &BTreeSet::new(alloc));
    }

    /// Makes room for one freeze.
    pub fn reserve_freeze(&mut self) -> Result<(), AllocError>
        ensures value { self.new ≡ record self.old { for_freeze = self.new.for_freeze } }
        ensures room { OnOk result (0 < self.new.for_freeze) }
        ensures whole { AreLayers self.new }
    {
        self.frozen.reserve(1)
    }

    /// Moves the active rows behind those that wait for a flush, in the room that was made.
    pub fn freeze(&mut self)
        requires room { 0 < self.old.for_freeze }
        requires some { self.old.active ≢ [] }
        ensures value { self.new ≡ record self.old { active = []; frozen = self.old.frozen ++ self.old.active ∷ []; for_freeze = self.new.for_freeze } }
        ensures whole { AreLayers self.new }
    {
        let Ok(table) = self.active.freeze() else {
            unreachable!()
        };
        self.frozen.push_reserved(table);
    }

    /// The rows that wait for a flush, shared, the newest last. The one error is `AllocError`.
    pub fn share_frozen(&mut self, alloc: Global) -> Result<Vec<ImmutableMemtable>, AllocError>
        ensures same { self.new ≡ self.old }
        ensures whole { AreLayers self.new }
        ensures shared { IfOk result (λ shared. map (λ t. t.rows) shared.items ≡ self.old.frozen) }
    {
        share_all(alloc, self.frozen.as_mut_slice())
    }

    /// Keeps runs in place of the first tables that waited. Where memory is wanting nothing is changed.
    pub fn install_first(
        &mut self,
        count: usize,
        runs: Vec<SortedRun>,
        floor: u64,
    ) -> Result<(), AllocError>
        requires { count ≤ length self.old.frozen }
        ensures value { OnOk result (self.new ≡ record self.old { frozen = drop count self.old.frozen; runs = self.old.runs ++ runs.items; floor = floor; for_freeze = self.new.for_freeze }) }
        ensures same { OnErr result (self.new ≡ self.old) }
        ensures whole { AreLayers self.new }
    {
        let mut runs = runs;
        self.runs.append(&mut runs)?;
        self.floor = floor;
        drop(self.frozen.drain(..count));
        Ok(())
    }

    /// Keeps runs in place of the rows that waited. Where memory is wanting nothing is changed.
    pub fn install(&mut self, runs: Vec<SortedRun>, floor: u64) -> Result<(), AllocError>
        ensures value { OnOk result (self.new ≡ record self.old { frozen = []; runs = self.old.runs ++ runs.items; floor = floor; for_freeze = self.new.for_freeze }) }
        ensures same { OnErr result (self.new ≡ self.old) }
        ensures whole { AreLayers self.new }
    {
        let mut runs = runs;
        self.runs.append(&mut runs)?;
        self.floor = floor;
        self.frozen.clear();
        Ok(())
    }
}
