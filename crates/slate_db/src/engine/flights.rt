//! A flush in three steps, of which the middle one needs no core: what waits is taken, stored, and installed.
ghost use Rattle.std.specs.Prelude.{◌≡◌, ◌⊎◌, [], None, Err, IfOk, IfErr, IfSome, OnOk, OnErr, IsOkUnless};
ghost use Rattle.slate_types.specs.declared.error.SlateDBError.{SlateDBError};
ghost use Rattle.slate_mem.specs.KeyTests.{Segments};
ghost use Rattle.slate_txn.specs.Places.{above_install};
ghost use Rattle.slate_txn.specs.State.{last_of};
ghost use Rattle.slate_db.specs.Flushed.{AreTablesOfFlush, Layout, NoPlace};
ghost use Rattle.slate_db.specs.Flying.{HasTaken, IsFlying, IsTaken, TakesOff, after_flight, took};
ghost use Rattle.slate_db.specs.Frozen.{IsFrozen};
ghost use Rattle.slate_db.specs.Installs.{ArePlaced, AreRunsOf};
ghost use Rattle.slate_db.specs.Log.{LIMIT};
ghost use Rattle.slate_db.specs.Meaning.{Meaning};
ghost use Rattle.slate_db.specs.Model.{IsSame};
ghost use Rattle.slate_db.specs.Segmented.{IsSegmented};
ghost use Rattle.slate_db.specs.Sound.{IsKept};

use crate::engine::Core;
use crate::flight::Flight;
use slate_mem::ImmutableMemtable;
use slate_read::SortedRun;
use slate_txn::TableList;
use slate_types::SlateDBError;
use std::snapshot::Snapshot;

impl Core {
    /// Freezes, and takes what waits for a flush: gives the newest sequence, and where rows are in memory what is known of the flush,
    /// and its tables, shared. Refuses by `LimitReached` where the journal has no place for the event of the freeze, and then nothing
    /// is changed; and by `OutOfMemory`, and then the rows are in memory as before, or frozen.
    pub fn take_flight(
        &mut self,
    ) -> Result<(u64, Option<(Flight, Vec<ImmutableMemtable>)>), SlateDBError>
        ensures frozen { OnOk result (IsFrozen self.old self.new) }
        ensures newest { IfOk result (λ a. a.0 ≡ last_of self.old.settings.start_seq self.old.state.commits) }
        ensures off { IfOk result (λ a. IfSome a.1 (λ x. TakesOff x.0 x.1.items self.new)) }
        ensures tied { IfOk result (λ a. IfSome a.1 (λ x. (m : Meaning) → IsKept m self.new → IsTaken m x.0 self.new)) }
        ensures idle { IfOk result (λ a. a.1 ≡ None → above_install self.new.events ≡ []) }
        ensures kept { (m : Meaning) → IsKept m self.old → IsKept m self.new }
        ensures refused { OnErr result ((self.new ≡ self.old) ⊎ IsFrozen self.old self.new) }
        ensures cause { IfErr result (λ e. (e ≡ SlateDBError.OutOfMemory) ⊎ ((e ≡ SlateDBError.LimitReached LIMIT) × NoPlace 1 self.old)) }
    {
        self.freeze()?;
        let taken = self.take_frozen()?;
        Ok((self.log.last(), taken))
    }

    // What waits for a flush.
    fn take_frozen(&mut self) -> Result<Option<(Flight, Vec<ImmutableMemtable>)>, SlateDBError>
        requires { self.old.active ≡ [] }
        ensures same { self.new ≡ self.old }
        ensures off { IfOk result (λ o. IfSome o (λ x. TakesOff x.0 x.1.items self.old)) }
        ensures tied { IfOk result (λ o. IfSome o (λ x. (m : Meaning) → IsKept m self.old → IsTaken m x.0 self.old)) }
        ensures idle { IfOk result (λ o. o ≡ None → above_install self.old.events ≡ []) }
        ensures cause { IsOkUnless result SlateDBError.OutOfMemory }
    {
        let barrier = self.barrier();
        if self.layers.frozen().is_empty() {
            return Ok(None);
        }
        let tables = self.layers.share_frozen(self.alloc)?;
        let flight = Flight {
            number: self.log.next_install(),
            barrier,
            through: self.log.last(),
            tables: tables.as_slice().len(),
            taken: Snapshot::of(&tables),
        };
        Ok(Some((flight, tables)))
    }

    /// Installs the tables of a flush on its way, and gives the last sequence that it stores. Refuses by `LimitReached` where the
    /// journal has no place for the event, and by `OutOfMemory`, and then what it took waits as before.
    pub fn install_flight(
        &mut self,
        flight: &Flight,
        tables: TableList,
        runs: Vec<SortedRun>,
    ) -> Result<u64, SlateDBError>
        requires flying { IsFlying flight.now self.old }
        requires runs { AreRunsOf tables runs.items }
        requires placed { ArePlaced flight.now.number 0 tables }
        ensures event { OnOk result (self.new ≡ after_flight self.old flight.now tables self.new.spare) }
        ensures through { IfOk result (λ n. n ≡ flight.now.through) }
        ensures kept { (m : Meaning) (layout : Layout) → IsKept m self.old → HasTaken m flight.now self.old → AreTablesOfFlush m layout flight.now.number flight.now.barrier (took flight.now) tables → IsKept m self.new }
        ensures segmented { (g : Segments) → IsSegmented g self.old → IsSegmented g self.new }
        ensures same { OnErr result (IsSame self.old self.new) }
        ensures limit { NoPlace 1 self.old → result ≡ Err (SlateDBError.LimitReached LIMIT) }
        ensures cause { IfErr result (λ e. (e ≡ SlateDBError.OutOfMemory) ⊎ ((e ≡ SlateDBError.LimitReached LIMIT) × NoPlace 1 self.old)) }
    {
        let floor = flight.barrier;
        self.log.place(1)?;
        self.log.reserve()?;
        self.layers.install_first(flight.tables, runs, floor)?;
        self.log.push_install_through(flight.through, tables);
        Ok(flight.through)
    }
}
