//! Rows, and what a reader gets of them.
ghost use Rattle.std.specs.Prelude.{◌≡◌, ◌≤◌, ◌-◌, ◌^◌, ◌↔◌, min, length, IsTrue, option_copied};
ghost use Rattle.slate_types.specs.Rows.{bytes_of, bytes_in, key_value};
ghost use Rattle.slate_types.specs.Equality as equality;
ghost use Rattle.slate_types.specs.Rows as rows;

use bytes::Bytes;
use std::alloc::AllocError;

/// What a row holds: a value, an operand of the merge operator, or the mark of a deletion.
#[derive(Clone, Debug, PartialEq, Eq, Drop)]
pub enum ValueDeletable {
    Value(Bytes),
    Merge(Bytes),
    Tombstone,
}

impl ValueDeletable {
    /// The length of the value in bytes, which is 0 for a tombstone.
    pub fn len(&self) -> usize
        ensures { result ≡ length (bytes_of self.now) }
    {
        match self.as_bytes() {
            Some(bytes) => bytes.len(),
            None => 0,
        }
    }

    /// Whether it is the mark of a deletion.
    pub fn is_tombstone(&self) -> bool
        ensures { IsTrue result ↔ (self.now ≡ ValueDeletable.Tombstone) }
    {
        matches!(self, ValueDeletable::Tombstone)
    }

    /// The bytes, or `None` exactly for a tombstone.
    pub fn as_bytes(&self) -> Option<&Bytes>
        ensures { option_copied result ≡ bytes_in self.now }
    {
        match self {
            ValueDeletable::Value(bytes) | ValueDeletable::Merge(bytes) => Some(bytes),
            ValueDeletable::Tombstone => None,
        }
    }

    /// The bytes by themselves, or `None` exactly for a tombstone.
    fn into_bytes(self) -> Option<Bytes>
        ensures { result ≡ bytes_in self }
    {
        match self {
            ValueDeletable::Value(bytes) | ValueDeletable::Merge(bytes) => Some(bytes),
            ValueDeletable::Tombstone => None,
        }
    }

    /// The bytes that the value takes in a block with its length, none for a tombstone.
    fn encoded_size(&self) -> u64
        ensures { result ≡ rows.value_size self.now }
    {
        match self.as_bytes() {
            Some(bytes) => 4 + bytes.len() as u64,
            None => 0,
        }
    }
}

/// A row, as it stands in a table or in memory. Stamps are milliseconds. Rows are equal exactly where
/// their fields are.
#[derive(Drop)]
pub struct RowEntry {
    pub key: Bytes,
    pub value: ValueDeletable,
    pub seq: u64,
    pub create_ts: Option<i64>,
    pub expire_ts: Option<i64>,
}

impl RowEntry {
    /// The bytes that a row is counted with where it shares `prefix` bytes of its key: two bytes each for
    /// that number and the length of the rest, the rest of the key, eight bytes for the sequence, one for
    /// the flags, eight for each stamp, and four and its length for a value. A sum past the greatest
    /// number stands there.
    pub fn encoded_size(&self, prefix: usize) -> u64
        requires { prefix ≤ length self.now.key }
        ensures { result ≡ min (rows.encoded_size prefix self.now) (2 ^ 64 - 1) }
    {
        let key = (self.key.len() - prefix) as u64;
        let fixed = 2 + 2 + 8 + 1 + stamp_size(self.create_ts) + stamp_size(self.expire_ts);
        (key + fixed).saturating_add(self.value.encoded_size())
    }

    /// The bytes of the key, the value, the sequence and the stamps. A sum past the greatest number stands
    /// there.
    pub fn estimated_size(&self) -> u64
        ensures { result ≡ min (rows.estimated_size self.now) (2 ^ 64 - 1) }
    {
        let fixed = 8 + stamp_size(self.create_ts) + stamp_size(self.expire_ts);
        (self.key.len() as u64 + fixed).saturating_add(self.value.len() as u64)
    }
}

impl Clone for RowEntry {
    ghost is_clone = { λ row copy. copy ≡ row };

    fn clone(&self) -> Result<RowEntry, AllocError> {
        let key = self.key.clone()?;
        match self.value.clone() {
            Ok(value) => Ok(RowEntry {
                key,
                value,
                seq: self.seq,
                create_ts: self.create_ts,
                expire_ts: self.expire_ts,
            }),
            Err(error) => {
                drop(key);
                Err(error)
            }
        }
    }
}

impl PartialEq for RowEntry {
    ghost use Rattle.slate_types.specs.Equality.{same_row, rows_equivalent};
    ghost use Rattle.std.specs.Cmp.{partial_equiv_from_equiv};

    ghost eq = { same_row };

    ghost laws = { partial_equiv_from_equiv rows_equivalent };

    fn eq(&self, other: &RowEntry) -> bool {
        self.key == other.key
            && same_value(&self.value, &other.value)
            && self.seq == other.seq
            && same_stamp(self.create_ts, other.create_ts)
            && same_stamp(self.expire_ts, other.expire_ts)
    }
}

impl Eq for RowEntry {
    ghost use Rattle.slate_types.specs.Equality.{rows_equivalent};

    ghost laws = { rows_equivalent };
}

/// Whether rows hold the same.
fn same_value(a: &ValueDeletable, b: &ValueDeletable) -> bool
    ensures { result ≡ equality.same_value a.now b.now }
{
    a == b
}

/// Whether stamps are the same.
fn same_stamp(a: Option<i64>, b: Option<i64>) -> bool
    ensures { result ≡ equality.same_stamp a b }
{
    a == b
}

/// The bytes that a stamp takes, where there is one.
fn stamp_size(stamp: Option<i64>) -> u64
    ensures { result ≡ rows.stamp_size stamp }
{
    if stamp.is_some() { 8 } else { 0 }
}

/// A row as a reader gets it. A row without a creation has creation 0 here.
#[derive(PartialEq, Eq, PartialOrd, Ord, Hash, Drop)]
pub struct KeyValue {
    pub key: Bytes,
    pub value: Bytes,
    pub seq: u64,
    pub create_ts: i64,
    pub expire_ts: Option<i64>,
}

impl Clone for KeyValue {
    ghost is_clone = { λ row copy. copy ≡ row };

    fn clone(&self) -> Result<KeyValue, AllocError> {
        let key = self.key.clone()?;
        match self.value.clone() {
            Ok(value) => Ok(KeyValue {
                key,
                value,
                seq: self.seq,
                create_ts: self.create_ts,
                expire_ts: self.expire_ts,
            }),
            Err(error) => {
                drop(key);
                Err(error)
            }
        }
    }
}

impl KeyValue {
    /// What a reader gets of a row that is no tombstone.
    pub fn from_row(row: RowEntry) -> KeyValue
        requires { ¬ (row.value ≡ ValueDeletable.Tombstone) }
        ensures { result ≡ key_value row }
    {
        KeyValue {
            key: row.key,
            value: row.value.into_bytes().unwrap(),
            seq: row.seq,
            create_ts: row.create_ts.unwrap_or(0),
            expire_ts: row.expire_ts,
        }
    }
}

/// The id of a table.
#[derive(Clone, Copy, PartialEq, Eq)]
pub struct Ulid(pub u128);
