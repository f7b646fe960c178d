//! The table that threads share: one word, and one slot with the core.
use crate::locked::Locked;
use crate::parts::Parts;
use atomic_table::{Seat, Shared, Table, TableRule};
use slate_db::flight::Flight;
use slate_txn::{DbTransactionInner, Event};
use std::alloc::Global;
use std::collections::LinkedList;
use uuid::Uuid;

/// What a seat knows. No value of it is made.
pub struct View {
    /// Its parts of the right to own an event. All parts together are as many as there were at the start.
    pub parts: u64,
    /// The events that it has seen, which begin the journal.
    pub seen: LinkedList<Event>,
    /// What a seat that it took in had seen, until the next step.
    pub told: LinkedList<Event>,
    /// The places of its own commits, writes and installs.
    pub own: LinkedList<u64>,
    /// Its open transaction, as it began.
    pub txn: Option<(Uuid, DbTransactionInner)>,
    /// Its flight.
    pub flight: Option<Flight>,
    /// Whether it has the lock, and the journal and the flight as they were then.
    pub holds: bool,
    pub base: LinkedList<Event>,
    pub base_flight: Option<Flight>,
}

/// The rule of the table.
pub struct Ruled;

impl<P: Parts> TableRule<Option<Locked<P>>, View, ()> for Ruled {
    ghost use Rattle.std.specs.Prelude.{[]};
    ghost use Rattle.slate_shared.specs.Shared.{KeepsRule, newcomer, all_parts};

    ghost holds = { λ _. KeepsRule };

    ghost first = { λ _. newcomer all_parts [] };
}

pub type Board<P> = Table<Option<Locked<P>>, View, (), Ruled, Global>;

pub type Top<P> = Shared<Option<Locked<P>>, View, (), Ruled>;

pub type Place<P> = Seat<Option<Locked<P>>, View>;
