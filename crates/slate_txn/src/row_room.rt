//! Room for the bytes of the rows that a transcript keeps.
ghost use Rattle.std.specs.Prelude.{◌≡◌, ◌≤◌, ◌++◌, [], IfOk, OnOk};

use bytes::{Bytes, BytesMut};
use slate_types::KeyValue;
use std::alloc::{AllocError, Global};
use std::marker::Model;

/// The most bytes of a block, but for a row that is longer.
const BLOCK_LIMIT: usize = 65536;

/// Room for the bytes of rows, which share its blocks. A block is twice as large as the one before it, up to a limit.
#[derive(Drop)]
pub(crate) struct RowRoom {
    /// What is left of the last block.
    free: BytesMut,
    /// How large that block was.
    size: usize,
}

impl Model for RowRoom {
    ghost use Rattle.std.specs.Prelude.{◌≡◌, []};

    ghost Value = { Unit {0} };

    ghost view = { λ _. tt };

    ghost invariant = { λ room. room.free.items ≡ [] };
}

impl RowRoom {
    /// No block so far. Takes no memory.
    pub(crate) fn new(alloc: Global) -> RowRoom {
        RowRoom {
            free: BytesMut::new(alloc),
            size: 0,
        }
    }

    /// The same row, its key and its value in a block.
    pub(crate) fn copied(&mut self, alloc: Global, row: &KeyValue) -> Result<KeyValue, AllocError>
        ensures { IfOk result (λ same. same ≡ row.now) }
    {
        copied(alloc, &mut self.free, &mut self.size, row)
    }
}

/// The same row, its key and its value behind one another in the room, and in a new block where it is too small.
fn copied(
    alloc: Global,
    free: &mut BytesMut,
    size: &mut usize,
    row: &KeyValue,
) -> Result<KeyValue, AllocError>
    requires { free.old.items ≡ [] }
    ensures row { IfOk result (λ same. same ≡ row.now) }
    ensures left { free.new.items ≡ [] }
{
    let len = row.key.len() + row.value.len();
    make_room(alloc, free, size, len)?;
    free.extend_reserved(row.key.as_slice());
    free.extend_reserved(row.value.as_slice());
    match free.freeze_to(len) {
        Ok(both) => in_two(both, row),
        Err(error) => {
            free.clear();
            Err(error)
        }
    }
}

/// Makes room for so many bytes, in a new block where there is less.
fn make_room(
    alloc: Global,
    free: &mut BytesMut,
    size: &mut usize,
    len: usize,
) -> Result<(), AllocError>
    requires { free.old.items ≡ [] }
    ensures room { OnOk result (len ≤ free.new.spare) }
    ensures left { free.new.items ≡ [] }
{
    if len <= free.capacity() {
        return Ok(());
    }
    let next = ((*size).min(BLOCK_LIMIT / 2) * 2).max(len);
    *free = BytesMut::with_capacity(alloc, next)?;
    *size = next;
    Ok(())
}

/// The same row, of its key and its value behind one another.
fn in_two(both: Bytes, row: &KeyValue) -> Result<KeyValue, AllocError>
    requires { both ≡ row.now.key ++ row.now.value }
    ensures { IfOk result (λ same. same ≡ row.now) }
{
    let mut key = both;
    match key.split_off(row.key.len()) {
        Ok(value) => Ok(KeyValue {
            key,
            value,
            seq: row.seq,
            create_ts: row.create_ts,
            expire_ts: row.expire_ts,
        }),
        Err(error) => {
            drop(key);
            Err(error)
        }
    }
}
