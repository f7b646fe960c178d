//! What an open transaction has read, as far as a conflict asks for it.
ghost use Rattle.std.specs.Prelude.{◌≡◌, ◌&&◌, ◌++◌, ◌∷◌, ℕ, List, [], not, IfOk, OnOk, OnErr, IsOkUnless};
ghost use Rattle.slate_types.specs.declared.error.SlateDBError.{SlateDBError};
ghost use Rattle.slate_types.specs.Iteration.{comes_before};
ghost use Rattle.slate_types.specs.Keys.{in_range};
ghost use Rattle.slate_txn.specs.declared.reading.Part.{Part};
ghost use Rattle.slate_txn.specs.HandedOver.{AreKeysOf};
ghost use Rattle.slate_txn.specs.Tracking.{after_answer, farther, is_within, nothing_read, tracks, update_at, with_step};

use crate::TranscriptStep;
use bytes::Bytes;
use slate_types::{BytesRange, IterationOrder, KeyValue, SlateDBError};
use std::alloc::{AllocError, Global};
use std::marker::Model;
use std::ops::Bound;

/// How far a scan has read, in its order.
#[derive(Drop)]
pub enum Part {
    /// No key.
    Nothing,
    /// The keys of its range that its order doesn't put after this one.
    UpTo(Bytes),
    /// All of its range.
    ToEnd,
}

/// A scan that was opened, and how far it has read.
#[derive(Drop)]
pub struct Scanned {
    pub order: IterationOrder,
    pub range: BytesRange,
    pub part: Part,
}

impl Scanned {
    /// The keys that the scan has read, which are those of a range, or none.
    pub fn tracked(&self) -> Result<Option<BytesRange>, SlateDBError>
        ensures keys { IfOk result (AreKeysOf (tracks self.now)) }
        ensures cause { IsOkUnless result SlateDBError.OutOfMemory }
    {
        match &self.part {
            Part::Nothing => Ok(None),
            Part::UpTo(key) => within(&self.range, self.order, key),
            Part::ToEnd => {
                let range = self.range.clone()?;
                Ok(Some(range))
            }
        }
    }

    /// Reads what it is answered: its keys up to a row, or at none all of its range. Where memory is wanting nothing is read.
    fn answered(&mut self, answer: &Option<KeyValue>) -> Result<(), AllocError>
        ensures ok { OnOk result (self.new ≡ after_answer self.old answer.now) }
        ensures err { OnErr result (self.new ≡ self.old) }
    {
        match answer {
            Some(row) => self.read_to(&row.key),
            None => {
                self.part = Part::ToEnd;
                Ok(())
            }
        }
    }

    /// Reads its keys up to this one, where it hasn't read so far. Where memory is wanting nothing is read.
    fn read_to(&mut self, key: &Bytes) -> Result<(), AllocError>
        ensures ok { OnOk result (self.new ≡ record self.old { part = farther self.old.order self.old.part key.now }) }
        ensures err { OnErr result (self.new ≡ self.old) }
    {
        if self.has_read_to(key) {
            return Ok(());
        }
        let key = key.clone()?;
        self.part = Part::UpTo(key);
        Ok(())
    }

    /// Whether it has read its keys up to this one.
    fn has_read_to(&self, key: &Bytes) -> bool
        ensures { result ≡ is_within self.now.order self.now.part key.now }
    {
        match &self.part {
            Part::Nothing => false,
            Part::UpTo(far) => !self.order.puts_before(far.as_slice(), key.as_slice()),
            Part::ToEnd => true,
        }
    }
}

/// The keys of the range that the order doesn't put after this one.
fn within(
    range: &BytesRange,
    order: IterationOrder,
    key: &Bytes,
) -> Result<Option<BytesRange>, SlateDBError>
    ensures keys { IfOk result (AreKeysOf (λ k. in_range range.now k && not (comes_before order key.now k))) }
    ensures cause { IsOkUnless result SlateDBError.OutOfMemory }
{
    let near = up_to(order, key)?;
    let part = range.intersect(&near);
    drop(near);
    part
}

/// The keys that the order doesn't put after this one.
fn up_to(order: IterationOrder, key: &Bytes) -> Result<BytesRange, AllocError>
    ensures { IfOk result (λ r. (k : List ℕ) → in_range r k ≡ not (comes_before order key.now k)) }
{
    let key = key.clone()?;
    match order {
        IterationOrder::Ascending => Ok(BytesRange {
            start: Bound::Unbounded,
            end: Bound::Included(key),
        }),
        IterationOrder::Descending => Ok(BytesRange {
            start: Bound::Included(key),
            end: Bound::Unbounded,
        }),
    }
}

/// What an open transaction has read: the keys of its gets, its scans, and the ranges of its views.
#[derive(Drop)]
pub struct Reading {
    pub keys: Vec<Bytes>,
    pub scans: Vec<Scanned>,
    pub views: Vec<BytesRange>,
}

impl Model for Reading {
    ghost use Rattle.slate_txn.specs.Tracking.{Reading};

    ghost Value = { Reading };

    ghost view = { λ s. record { keys = s.keys.items; scans = s.scans.items; views = s.views.items } };
}

impl Reading {
    /// Nothing. Takes no memory.
    pub fn new(alloc: Global) -> Reading
        ensures { result ≡ nothing_read }
    {
        Reading {
            keys: Vec::new(alloc),
            scans: Vec::new(alloc),
            views: Vec::new(alloc),
        }
    }

    /// Reads what a step reads: the key of a get, the range of a view, and of a scan what it is answered and sought. Where
    /// memory is wanting nothing is read.
    pub fn follow(&mut self, step: &TranscriptStep) -> Result<(), AllocError>
        ensures ok { OnOk result (self.new ≡ with_step self.old step.now) }
        ensures err { OnErr result (self.new ≡ self.old) }
    {
        match step {
            TranscriptStep::Get { key, .. } => add_key(&mut self.keys, key),
            TranscriptStep::Scan { order, range } => add_scan(&mut self.scans, *order, range),
            TranscriptStep::Next { scan, answer } => answer_scan(&mut self.scans, *scan, answer),
            TranscriptStep::Seek { scan, key } => seek_scan(&mut self.scans, *scan, key),
            TranscriptStep::View { range } => add_view(&mut self.views, range),
            TranscriptStep::Own { .. } => Ok(()),
        }
    }
}

/// Adds a key. Where memory is wanting none is added.
fn add_key(keys: &mut Vec<Bytes>, key: &Bytes) -> Result<(), AllocError>
    ensures ok { OnOk result (keys.new.items ≡ keys.old.items ++ key.now ∷ []) }
    ensures err { OnErr result (keys.new.items ≡ keys.old.items) }
{
    let key = key.clone()?;
    keys.push(key).map_err(AllocError::from)
}

/// Adds the range of a view. Where memory is wanting none is added.
fn add_view(views: &mut Vec<BytesRange>, range: &BytesRange) -> Result<(), AllocError>
    ensures ok { OnOk result (views.new.items ≡ views.old.items ++ range.now ∷ []) }
    ensures err { OnErr result (views.new.items ≡ views.old.items) }
{
    let range = range.clone()?;
    views.push(range).map_err(AllocError::from)
}

/// Adds a scan that has read nothing. Where memory is wanting none is added.
fn add_scan(
    scans: &mut Vec<Scanned>,
    order: IterationOrder,
    range: &BytesRange,
) -> Result<(), AllocError>
    ensures ok { OnOk result (scans.new.items ≡ scans.old.items ++ record { order = order; range = range.now; part = Part.Nothing } ∷ []) }
    ensures err { OnErr result (scans.new.items ≡ scans.old.items) }
{
    let range = range.clone()?;
    let part = Part::Nothing;
    scans
        .push(Scanned { order, range, part })
        .map_err(AllocError::from)
}

/// Reads what the scan with this number is answered. Where memory is wanting nothing is read.
fn answer_scan(
    scans: &mut Vec<Scanned>,
    scan: u64,
    answer: &Option<KeyValue>,
) -> Result<(), AllocError>
    ensures ok { OnOk result (scans.new.items ≡ update_at scan (λ s. after_answer s answer.now) scans.old.items) }
    ensures err { OnErr result (scans.new.items ≡ scans.old.items) }
{
    match scans.get_mut(scan as usize) {
        Some(scan) => scan.answered(answer),
        None => Ok(()),
    }
}

/// Reads up to where the scan with this number is sought. Where memory is wanting nothing is read.
fn seek_scan(scans: &mut Vec<Scanned>, scan: u64, key: &Bytes) -> Result<(), AllocError>
    ensures ok { OnOk result (scans.new.items ≡ update_at scan (λ s. record s { part = farther s.order s.part key.now }) scans.old.items) }
    ensures err { OnErr result (scans.new.items ≡ scans.old.items) }
{
    match scans.get_mut(scan as usize) {
        Some(scan) => scan.read_to(key),
        None => Ok(()),
    }
}
