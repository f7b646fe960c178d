//! The rows' part of a block that is being built, and its offsets.
ghost use Rattle.std.specs.Prelude.{◌≡◌, ◌≤◌, ◌<◌, ◌+◌, ◌*◌, ◌^◌, ◌++◌, length, OnOk, OnErr, IsOkUnless};
ghost use Rattle.slate_block.specs.RowSpelling.{FitsStamp, v2_bytes, stamp_bytes};
ghost use Rattle.slate_block.specs.BlockSpelling.{entry_v2, is_restart};
ghost use Rattle.slate_block.specs.Building.{CanTake, number, row_bytes, named, part_size, next_front, IsSamePart, IsLongerPart};

use crate::varint::varint_len;
use crate::{codec_v0, codec_v2};
use bytes::Bytes;
use slate_types::{RowEntry, SlateDBError};
use std::alloc::AllocError;

/// In versions 2 and 3 every row that shares nothing stands so many rows behind the one before it.
const RESTART_INTERVAL: u16 = 16;

/// How rows are spelled: in version 3 as in version 2.
#[derive(Clone, Copy)]
pub enum Version {
    V1,
    V2,
    V3,
}

/// What is kept of the rows that were taken.
#[derive(Drop)]
pub struct RowsPart {
    pub version: Version,
    pub body: Vec<u8>,
    pub offsets: Vec<u16>,
    pub num_rows: u16,
    /// The key whose front the next row leaves out: the first one in version 1, the last one in the others, and none at a
    /// restart.
    pub front_key: Bytes,
}

impl RowsPart {
    /// The size that is held to the block size, where a row is taken that leaves out so many bytes of its key.
    pub fn size_with(&self, shared: usize, entry: &RowEntry) -> u64
        requires lengths { CanTake entry.now }
        requires shared { shared ≤ length entry.now.key }
        requires offsets { length self.now.offsets.items < 2 ^ 16 }
        ensures { result ≡ part_size shared self.now entry.now }
    {
        let offsets = self.offsets.len() as u64;
        let rows = self.body.len() as u64;
        match self.version {
            Version::V1 => 2 + 2 * offsets + rows + entry.encoded_size(shared),
            Version::V2 | Version::V3 => {
                let restart = u64::from(is_restart(self.num_rows));
                2 + 2 * (offsets + restart) + rows + encoded_size_v2(shared, entry)
            }
        }
    }

    /// Takes a row that leaves out so many bytes of its key. `OutOfMemory` leaves all as it was.
    pub fn append(&mut self, shared: usize, entry: RowEntry) -> Result<(), SlateDBError>
        requires lengths { CanTake entry }
        requires shared { shared ≤ length entry.key }
        requires place { length self.old.body.items < 2 ^ 16 }
        requires few { self.old.num_rows + 1 < 2 ^ 16 }
        ensures appended { OnOk result (IsLongerPart self.old shared entry self.new) }
        ensures unchanged { OnErr result (IsSamePart self.old self.new) }
        ensures cause { IsOkUnless result SlateDBError.OutOfMemory }
    {
        match self.write(shared, &entry) {
            Ok(()) => {
                drop(entry.value);
                self.follow(entry.key);
                Ok(())
            }
            Err(error) => {
                drop(entry);
                Err(error)
            }
        }
    }

    /// Appends a row's bytes, and its place where that is one of the offsets. `OutOfMemory` leaves all as it was.
    fn write(&mut self, shared: usize, entry: &RowEntry) -> Result<(), SlateDBError>
        requires lengths { CanTake entry.now }
        requires shared { shared ≤ length entry.now.key }
        requires fits { (entry.now.seq < 2 ^ 64) × FitsStamp entry.now.expire_ts × FitsStamp entry.now.create_ts }
        requires place { length self.old.body.items < 2 ^ 16 }
        ensures body { OnOk result (self.new.body.items ≡ self.old.body.items ++ row_bytes (number self.old.version) shared entry.now) }
        ensures offsets { OnOk result (self.new.offsets.items ≡ self.old.offsets.items ++ named (number self.old.version) self.old.num_rows (length self.old.body.items)) }
        ensures version { self.new.version ≡ self.old.version }
        ensures count { self.new.num_rows ≡ self.old.num_rows }
        ensures front { self.new.front_key ≡ self.old.front_key }
        ensures unchanged { OnErr result (IsSamePart self.old self.new) }
        ensures cause { IsOkUnless result SlateDBError.OutOfMemory }
    {
        let place = self.body.len() as u16;
        self.offsets.reserve(1)?;
        append_row(self.version, &mut self.body, shared, entry)?;
        match self.version {
            Version::V2 | Version::V3 if !is_restart(self.num_rows) => {}
            _ => self.offsets.push_reserved(place),
        }
        Ok(())
    }

    /// Counts a row with this key.
    fn follow(&mut self, key: Bytes)
        requires { self.old.num_rows + 1 < 2 ^ 16 }
        ensures version { self.new.version ≡ self.old.version }
        ensures body { self.new.body ≡ self.old.body }
        ensures offsets { self.new.offsets ≡ self.old.offsets }
        ensures count { self.new.num_rows ≡ self.old.num_rows + 1 }
        ensures front { self.new.front_key ≡ next_front (number self.old.version) self.old.num_rows self.old.front_key key }
    {
        let is_first = self.num_rows == 0;
        self.num_rows += 1;
        match self.version {
            Version::V1 if !is_first => drop(key),
            Version::V2 | Version::V3 if is_restart(self.num_rows) => {
                drop(key);
                self.front_key = Bytes::new();
            }
            _ => self.front_key = key,
        }
    }
}

/// Whether the row behind so many others shares nothing in versions 2 and 3.
fn is_restart(num_rows: u16) -> bool
    ensures { result ≡ is_restart num_rows }
{
    num_rows.is_multiple_of(RESTART_INTERVAL)
}

/// The bytes of a row in versions 2 and 3.
fn encoded_size_v2(shared: usize, entry: &RowEntry) -> u64
    requires lengths { CanTake entry.now }
    requires shared { shared ≤ length entry.now.key }
    ensures value { result ≡ length (v2_bytes (entry_v2 shared entry.now)) }
    ensures bound { result < 2 ^ 33 }
{
    let suffix = entry.key.len() - shared;
    let value = entry.value.len();
    let lengths = varint_len(shared as u32) + varint_len(suffix as u32) + varint_len(value as u32);
    let stamps = stamp_size(entry.expire_ts) + stamp_size(entry.create_ts);
    (lengths + suffix + value + 8 + 1 + stamps) as u64
}

/// The bytes of a stamp, where there is one.
fn stamp_size(stamp: Option<i64>) -> usize
    ensures value { result ≡ length (stamp_bytes stamp) }
    ensures bound { result ≤ 8 }
{
    if stamp.is_some() { 8 } else { 0 }
}

/// Appends a row. `AllocError` leaves `out` as it was.
fn append_row(
    version: Version,
    out: &mut Vec<u8>,
    shared: usize,
    entry: &RowEntry,
) -> Result<(), AllocError>
    requires lengths { CanTake entry.now }
    requires shared { shared ≤ length entry.now.key }
    requires fits { (entry.now.seq < 2 ^ 64) × FitsStamp entry.now.expire_ts × FitsStamp entry.now.create_ts }
    ensures appended { OnOk result (out.new.items ≡ out.old.items ++ row_bytes (number version) shared entry.now) }
    ensures unchanged { OnErr result (out.new.items ≡ out.old.items) }
{
    let suffix = &entry.key.as_slice()[shared..];
    let (seq, value) = (entry.seq, &entry.value);
    let (expire_ts, create_ts) = (entry.expire_ts, entry.create_ts);
    match version {
        Version::V1 => {
            let front = shared as u16;
            codec_v0::append_row(out, front, suffix, seq, value, expire_ts, create_ts)
        }
        Version::V2 | Version::V3 => {
            let front = shared as u32;
            codec_v2::append_row(out, front, suffix, seq, value, expire_ts, create_ts)
        }
    }
}
