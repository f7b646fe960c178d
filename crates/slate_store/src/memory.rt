//! A source and a sink in memory, whose calls fail where they are told to.
ghost use Rattle.std.specs.Prelude.{◌≡◌, ◌≤◌, [], Some, drop};
ghost use Rattle.slate_types.specs.Faults.{Rose};

use crate::faults::FaultPlan;
use crate::{Failed, Sink, Source};
use std::alloc::Global;
use std::marker::Model;

/// Gives bytes that it holds.
#[derive(Drop)]
pub struct MemorySource {
    bytes: Vec<u8>,
    at: usize,
    plan: FaultPlan,
}

impl Model for MemorySource {
    ghost use Rattle.std.specs.Prelude.{◌≤◌, drop, vec_len};
    ghost use Rattle.slate_store.specs.Memory.{MemorySourceModel};

    ghost Value = { MemorySourceModel };

    ghost view = { λ s. record { left = drop s.at s.bytes.items; plan = record { failing = s.plan.failing.items; calls = s.plan.calls }; faults = s.plan.faults.count } };

    ghost invariant = { λ s. s.at ≤ vec_len s.bytes };
}

impl MemorySource {
    /// A source that gives these bytes. `failing` numbers the calls that fail, from 1.
    pub fn new(bytes: Vec<u8>, failing: Vec<u64>) -> MemorySource
        ensures left { result.left ≡ bytes.items }
        ensures told { ⟦<MemorySource as Source>⟧.left result ≡ Some bytes.items }
        ensures plan { result.plan ≡ record { failing = failing.items; calls = 0 } }
        ensures planned { ⟦<MemorySource as Source>⟧.plan result ≡ Some result.plan }
        ensures faults { result.faults ≡ 0 }
        ensures counted { ⟦<MemorySource as Source>⟧.faults result ≡ 0 }
    {
        MemorySource {
            bytes,
            at: 0,
            plan: FaultPlan::new(failing),
        }
    }
}

impl Source for MemorySource {
    ghost left = { λ s. Some s.left };

    ghost faults = { λ s. s.faults };

    ghost plan = { λ s. Some s.plan };

    fn read(&mut self, buf: &mut [u8]) -> Result<usize, Failed> {
        self.plan.step()?;
        let left = &self.bytes[self.at..];
        let count = left.len().min(buf.len());
        buf[..count].copy_from_slice(&left[..count]);
        self.at += count;
        Ok(count)
    }
}

/// Keeps the bytes that it takes.
#[derive(Drop)]
pub struct MemorySink {
    content: Vec<u8>,
    plan: FaultPlan,
}

impl Model for MemorySink {
    ghost use Rattle.slate_store.specs.Memory.{MemorySinkModel};

    ghost Value = { MemorySinkModel };

    ghost view = { λ s. record { content = s.content.items; plan = record { failing = s.plan.failing.items; calls = s.plan.calls }; faults = s.plan.faults.count } };
}

impl MemorySink {
    /// A sink that holds nothing. `failing` numbers the calls that fail, from 1.
    pub fn new(alloc: Global, failing: Vec<u64>) -> MemorySink
        ensures content { result.content ≡ [] }
        ensures told { ⟦<MemorySink as Sink>⟧.content result ≡ Some [] }
        ensures plan { result.plan ≡ record { failing = failing.items; calls = 0 } }
        ensures planned { ⟦<MemorySink as Sink>⟧.plan result ≡ Some result.plan }
        ensures faults { result.faults ≡ 0 }
        ensures counted { ⟦<MemorySink as Sink>⟧.faults result ≡ 0 }
    {
        MemorySink {
            content: Vec::new(alloc),
            plan: FaultPlan::new(failing),
        }
    }

    /// The bytes that were taken.
    pub fn taken(&self) -> &[u8]
        ensures content { result.now ≡ self.now.content }
        ensures told { ⟦<MemorySink as Sink>⟧.content self.now ≡ Some result.now }
    {
        &self.content
    }
}

impl Sink for MemorySink {
    ghost content = { λ s. Some s.content };

    ghost faults = { λ s. s.faults };

    ghost plan = { λ s. Some s.plan };

    /// Want of memory is a fault too.
    fn write(&mut self, piece: &[u8]) -> Result<usize, Failed> {
        self.plan.step()?;
        match self.content.extend_from_slice(piece) {
            Ok(()) => Ok(piece.len()),
            Err(_) => Err(self.plan.raise()),
        }
    }
}
