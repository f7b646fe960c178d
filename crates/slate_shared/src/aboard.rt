//! The flush on its way, as it waits behind the lock.
ghost use Rattle.std.specs.Prelude.{◌≡◌};
ghost use Rattle.slate_db.specs.declared.flight.Flight.{Flight};

use slate_db::flight::Flight;
use slate_mem::ImmutableMemtable;
use std::marker::Model;
use std::snapshot::Snapshot;

/// A flush on its way, with the tables that it took, shared: any thread may land it. Contracts see the `Flight`.
#[derive(Drop)]
pub(crate) struct Aboard {
    number: u64,
    barrier: u64,
    through: u64,
    count: usize,
    tables: Vec<ImmutableMemtable>,
}

impl Model for Aboard {
    ghost use Rattle.slate_db.specs.declared.flight.Flight.{Flight};

    ghost Value = { Flight };

    ghost view = { λ a. record { number = a.number; barrier = a.barrier; through = a.through; tables = a.count; taken = record { marker = record {}; value = a.tables } } };
}

impl Aboard {
    /// What is known of a flush that sets off, with its tables.
    pub(crate) fn new(flight: &Flight, tables: Vec<ImmutableMemtable>) -> Aboard
        ensures { result ≡ record flight.now { taken = record { marker = record {}; value = tables } } }
    {
        Aboard {
            number: flight.number,
            barrier: flight.barrier,
            through: flight.through,
            count: flight.tables,
            tables,
        }
    }

    /// What is known of it.
    pub(crate) fn flight(&self) -> Flight
        ensures { result ≡ self.now }
    {
        Flight {
            number: self.number,
            barrier: self.barrier,
            through: self.through,
            tables: self.count,
            taken: Snapshot::of(&self.tables),
        }
    }
}
