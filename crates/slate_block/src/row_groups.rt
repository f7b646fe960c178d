//! Rows of version 2, read where they stand. A group of up to 16 rows begins at each restart.
ghost use Rattle.std.specs.Prelude.{◌≡◌, ◌<◌, ◌+◌, [], ◌∷◌, ◌⊎◌, ◌&&◌, ◌||◌, ◌==◌, false, Ok, Err, IfOk, IfErr, length};
ghost use Rattle.slate_block.specs.Walks.{row_v2_in};
ghost use Rattle.slate_block.specs.BlockWalks.{IsBlockDamage};
ghost use Rattle.slate_block.specs.GroupWalks.{group_left, is_over, restart_at};

use crate::fields::corrupt;
use crate::places::{place_behind, row_in};
use crate::rows_part::Version;
use bytes::Bytes;
use slate_types::{RowEntry, SlateDBError};
use std::alloc::Global;

/// How many rows a group has where it isn't the last.
pub const GROUP_LEN: usize = 16;

/// What is left of a group.
#[derive(Drop)]
pub struct RowGroup {
    /// Where its next row begins in the rows' part.
    pub at: usize,
    /// Where it ends.
    pub end: usize,
    /// How many rows it can still have.
    pub room: usize,
    /// Whether it is the block's last, which may have fewer.
    pub is_last: bool,
    /// The key before its next row.
    pub previous: Bytes,
}

impl RowGroup {
    /// Whether it has no row left.
    pub fn is_over(&self) -> bool
        ensures { result ≡ is_over self.now }
    {
        self.at == self.end && (self.room == 0 || self.is_last)
    }
}

/// The first row of the group that begins at a restart, and what is left behind it.
pub fn first_of_group(
    alloc: Global,
    body: &Bytes,
    offsets: &[u16],
    number: usize,
) -> Result<(RowEntry, RowGroup), SlateDBError>
    requires { number < length offsets.now }
    ensures found { IfOk result (λ found. restart_at body.now offsets.now number ≡ Ok found.0 ∷ group_left body.now found.1) }
    ensures room { IfOk result (λ found. found.1.room < 16) }
    ensures cause { IfErr result (λ e. (e ≡ SlateDBError.OutOfMemory) ⊎ (restart_at body.now offsets.now number ≡ Err e ∷ [])) }
    ensures damage { IfErr result (λ e. (e ≡ SlateDBError.OutOfMemory) ⊎ IsBlockDamage e) }
{
    let end = place_behind(body, offsets, number);
    let group = RowGroup {
        at: offsets[number] as usize,
        end,
        room: GROUP_LEN,
        is_last: number + 1 == offsets.len(),
        previous: Bytes::new(),
    };
    let first = row_and_rest(alloc, body, &group);
    drop(group);
    first
}

/// The next row of a group that isn't over, and what is left behind it.
#[inline(always)]
pub fn next_of_group(
    alloc: Global,
    body: &Bytes,
    group: &RowGroup,
) -> Result<(RowEntry, RowGroup), SlateDBError>
    requires { is_over group.now ≡ false }
    ensures found { IfOk result (λ found. group_left body.now group.now ≡ Ok found.0 ∷ group_left body.now found.1) }
    ensures room { IfOk result (λ found. found.1.room < group.now.room) }
    ensures cause { IfErr result (λ e. (e ≡ SlateDBError.OutOfMemory) ⊎ (group_left body.now group.now ≡ Err e ∷ [])) }
    ensures damage { IfErr result (λ e. (e ≡ SlateDBError.OutOfMemory) ⊎ IsBlockDamage e) }
{
    if group.room == 0 {
        return Err(corrupt(group.at));
    }
    row_and_rest(alloc, body, group)
}

/// The next row of a group that has room, and what is left behind it.
#[inline(always)]
fn row_and_rest(
    alloc: Global,
    body: &Bytes,
    group: &RowGroup,
) -> Result<(RowEntry, RowGroup), SlateDBError>
    requires { 0 < group.now.room }
    ensures found { IfOk result (λ found. row_v2_in body.now group.now.previous group.now.at group.now.end ≡ Ok (found.0, found.1.at)) }
    ensures rest { IfOk result (λ found. (found.1.end ≡ group.now.end) × (group.now.room ≡ found.1.room + 1) × (found.1.is_last ≡ group.now.is_last) × (found.1.previous ≡ found.0.key)) }
    ensures cause { IfErr result (λ e. (e ≡ SlateDBError.OutOfMemory) ⊎ (row_v2_in body.now group.now.previous group.now.at group.now.end ≡ Err e)) }
    ensures damage { IfErr result (λ e. (e ≡ SlateDBError.OutOfMemory) ⊎ IsBlockDamage e) }
{
    let key = group.previous.as_slice();
    let (row, at) = row_in(Version::V2, alloc, body, key, group.at, group.end)?;
    let previous = match row.key.clone() {
        Ok(previous) => previous,
        Err(error) => {
            drop(row);
            return Err(error.into());
        }
    };
    let rest = RowGroup {
        at,
        end: group.end,
        room: group.room - 1,
        is_last: group.is_last,
        previous,
    };
    Ok((row, rest))
}
