//! How runs over stores that lie ended.

use crate::runs::Ended;

/// How many runs ended so.
#[derive(Clone, Copy)]
pub struct Ends {
    pub replied: u64,
    pub slipped: u64,
    pub otherwise: u64,
    pub checksums: u64,
    pub flags: u64,
    pub filters: u64,
    pub corrupt: u64,
    pub rises: u64,
    pub operands: u64,
}

impl Ends {
    pub fn none() -> Ends {
        Ends {
            replied: 0,
            slipped: 0,
            otherwise: 0,
            checksums: 0,
            flags: 0,
            filters: 0,
            corrupt: 0,
            rises: 0,
            operands: 0,
        }
    }

    /// Those that found a damaged table.
    pub fn damaged(&self) -> u64 {
        self.checksums
            .saturating_add(self.flags)
            .saturating_add(self.filters)
            .saturating_add(self.corrupt)
            .saturating_add(self.rises)
            .saturating_add(self.operands)
    }

    pub fn all(&self) -> u64 {
        self.damaged()
            .saturating_add(self.replied)
            .saturating_add(self.slipped)
            .saturating_add(self.otherwise)
    }

    /// Counts a run beside one over a store that doesn't lie. Where a section may slip, any replies may come.
    pub fn count(&mut self, ended: &Ended, honest: &Ended, may_slip: bool) {
        if ended.status == 0 && ended.taken() == honest.taken() {
            self.replied = self.replied.saturating_add(1);
        } else if ended.status == 0 && may_slip {
            self.slipped = self.slipped.saturating_add(1);
        } else if may_slip || is_front(ended.taken(), honest.taken()) {
            self.count_status(ended.status);
        } else {
            self.otherwise = self.otherwise.saturating_add(1);
        }
    }

    fn count_status(&mut self, status: u8) {
        match status {
            12 => self.checksums = self.checksums.saturating_add(1),
            14 => self.flags = self.flags.saturating_add(1),
            15 => self.filters = self.filters.saturating_add(1),
            16 => self.corrupt = self.corrupt.saturating_add(1),
            18 => self.rises = self.rises.saturating_add(1),
            19 => self.operands = self.operands.saturating_add(1),
            _ => self.otherwise = self.otherwise.saturating_add(1),
        }
    }
}

/// Whether replies are the first of these, and whole.
fn is_front(taken: &[u8], replies: &[u8]) -> bool {
    replies.starts_with(taken) && (taken.is_empty() || taken.ends_with(b"\n"))
}
