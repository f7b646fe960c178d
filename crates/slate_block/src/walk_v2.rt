//! A walk over the rows of a block of version 2, from its front to its end.
ghost use Rattle.std.specs.Prelude.{◌≡◌, ◌≤◌, ◌<◌, ◌⊎◌, ℕ, List, [], ◌∷◌, Ok, Err, Some, None, true, false, IfOk, IfErr, IfSome, IsOkUnless, length, drop, slice_get};
ghost use Rattle.slate_types.specs.declared.types.RowEntry.{RowEntry};
ghost use Rattle.slate_types.specs.Iteration.{comes_before};
ghost use Rattle.slate_block.specs.Walks.{reads_v2, RowRead};
ghost use Rattle.slate_block.specs.BlockWalks.{BeginsRead, IsBlockDamage, IsPast, Refuses, StopsAt};
ghost use Rattle.slate_block.specs.GroupWalks.{as_place, is_over, left_v2, restart_at, BeginsBefore};

use crate::fields::key_fields_v2;
use crate::key_walk::KeyPlace;
use crate::places::place_behind;
use crate::row_groups::{RowGroup, first_of_group, next_of_group};
use bytes::Bytes;
use slate_types::{IterationOrder, RowEntry, SlateDBError};
use std::alloc::{AllocError, Global};

/// A place between two rows.
#[derive(Drop)]
pub struct BlockPlace {
    /// What is left of the group that was begun.
    pub group: RowGroup,
    /// The number of the next group.
    pub next: usize,
}

impl BlockPlace {
    /// The place before the first row of a group.
    #[tactic(auto, using(crate::proofs::GroupSteps::left_at_restart, crate::proofs::GroupSteps::over_left))]
    pub fn before_group(number: usize) -> BlockPlace
        ensures { (body offsets : List ℕ) → left_v2 body offsets result ≡ reads_v2 body (drop number offsets) (length body) }
    {
        let group = RowGroup {
            at: 0,
            end: 0,
            room: 0,
            is_last: false,
            previous: Bytes::new(),
        };
        BlockPlace {
            group,
            next: number,
        }
    }

    /// Whether no row is behind it.
    #[tactic(auto, using(crate::proofs::GroupSteps::over_left, crate::proofs::GroupSteps::left_behind_block, crate::proofs::GroupSteps::left_none))]
    pub fn is_at_end(&self, offsets: &[u16]) -> bool
        ensures end { (body : List ℕ) → result ≡ true → left_v2 body offsets.now self.now ≡ [] }
        ensures none { (body : List ℕ) → left_v2 body offsets.now self.now ≡ [] → result ≡ true }
        ensures more { result ≡ false → is_over self.now.group ≡ true → self.now.next < length offsets.now }
    {
        self.group.is_over() && self.next >= offsets.len()
    }

    /// The same place.
    fn copied(&self) -> Result<BlockPlace, AllocError>
        ensures { IfOk result (λ place. place ≡ self.now) }
    {
        let previous = self.group.previous.clone()?;
        let group = RowGroup {
            at: self.group.at,
            end: self.group.end,
            room: self.group.room,
            is_last: self.group.is_last,
            previous,
        };
        Ok(BlockPlace {
            group,
            next: self.next,
        })
    }
}

/// The row behind a place that has one, and the place behind that row.
#[tactic(auto, using(crate::proofs::GroupSteps::left_in_group, crate::proofs::GroupSteps::left_behind_group, crate::proofs::GroupSteps::over_left, crate::proofs::GroupSteps::refused_in_group, crate::proofs::GroupSteps::refused_behind_group))]
#[inline(always)]
pub fn next_of_block(
    alloc: Global,
    body: &Bytes,
    offsets: &[u16],
    place: &BlockPlace,
) -> Result<(RowEntry, BlockPlace), SlateDBError>
    requires { is_over place.now.group ≡ true → place.now.next < length offsets.now }
    ensures found { IfOk result (λ found. left_v2 body.now offsets.now place.now ≡ Ok found.0 ∷ left_v2 body.now offsets.now found.1) }
    ensures cause { IfErr result (λ e. (e ≡ SlateDBError.OutOfMemory) ⊎ (slice_get (left_v2 body.now offsets.now place.now) 0 ≡ Some (Err e))) }
    ensures damage { IfErr result (λ e. (e ≡ SlateDBError.OutOfMemory) ⊎ IsBlockDamage e) }
{
    if !place.group.is_over() {
        let (row, group) = next_of_group(alloc, body, &place.group)?;
        let next = place.next;
        return Ok((row, BlockPlace { group, next }));
    }
    let (row, group) = first_of_group(alloc, body, offsets, place.next)?;
    let next = place.next + 1;
    Ok((row, BlockPlace { group, next }))
}

/// The place behind the leading rows that come before a key: before the first row that doesn't, and that is read.
pub fn behind_key(
    alloc: Global,
    body: &Bytes,
    offsets: &[u16],
    place: BlockPlace,
    key: &[u8],
) -> Result<BlockPlace, SlateDBError>
    ensures past { IfOk result (λ after. IsPast IterationOrder.Ascending key.now (left_v2 body.now offsets.now place) (left_v2 body.now offsets.now after)) }
    ensures stops { IfOk result (λ after. StopsAt IterationOrder.Ascending key.now (left_v2 body.now offsets.now after)) }
    ensures read { IfOk result (λ after. BeginsRead (left_v2 body.now offsets.now after)) }
    ensures cause { IfErr result (λ e. (e ≡ SlateDBError.OutOfMemory) ⊎ Refuses (left_v2 body.now offsets.now place) e) }
{
    let mut walk = key_place(alloc, place)?;
    while !walk.is_at_end(offsets) {
        if !walk.pass(body, offsets, key)? {
            return row_place(walk);
        }
    }
    row_place(walk)
}

/// The same place, with the key before it in a buffer.
fn key_place(alloc: Global, place: BlockPlace) -> Result<KeyPlace, SlateDBError>
    ensures same { IfOk result (λ walk. as_place walk ≡ place) }
    ensures cause { IsOkUnless result SlateDBError.OutOfMemory }
{
    let BlockPlace { group, next } = place;
    let copied = Vec::from_slice(alloc, group.previous.as_slice());
    let (at, end, room, is_last) = (group.at, group.end, group.room, group.is_last);
    drop(group);
    Ok(KeyPlace {
        at,
        end,
        room,
        is_last,
        previous: copied?,
        next,
    })
}

/// The same place, for rows.
fn row_place(walk: KeyPlace) -> Result<BlockPlace, SlateDBError>
    ensures same { IfOk result (λ place. place ≡ as_place walk) }
    ensures cause { IsOkUnless result SlateDBError.OutOfMemory }
{
    let group = RowGroup {
        at: walk.at,
        end: walk.end,
        room: walk.room,
        is_last: walk.is_last,
        previous: Bytes::from_vec(walk.previous)?,
    };
    Ok(BlockPlace {
        group,
        next: walk.next,
    })
}

/// The place behind all rows that come before a key, where the rows come in order. It is found by the groups' first keys,
/// and from there row by row: of the groups before it none is read.
pub fn seek_key(
    alloc: Global,
    body: &Bytes,
    offsets: &[u16],
    place: &BlockPlace,
    key: &[u8],
) -> Result<BlockPlace, SlateDBError>
    ensures past { IfOk result (λ after. IsPast IterationOrder.Ascending key.now (left_v2 body.now offsets.now place.now) (left_v2 body.now offsets.now after)) }
    ensures stops { IfOk result (λ after. StopsAt IterationOrder.Ascending key.now (left_v2 body.now offsets.now after)) }
    ensures read { IfOk result (λ after. BeginsRead (left_v2 body.now offsets.now after)) }
    ensures cause { IfErr result (λ e. (e ≡ SlateDBError.OutOfMemory) ⊎ Refuses (left_v2 body.now offsets.now place.now) e) }
{
    let start = match last_before(body, offsets, place.next, key) {
        Some(number) => BlockPlace::before_group(number),
        None => place.copied()?,
    };
    behind_key(alloc, body, offsets, start, key)
}

/// The number of a group, from one on, whose first key comes before the key: the last one, where the groups' keys rise.
/// `None` where there is none.
pub fn last_before(body: &Bytes, offsets: &[u16], from: usize, key: &[u8]) -> Option<usize>
    ensures within { IfSome result (λ number. (from ≤ number) × (number < length offsets.now)) }
    ensures before { IfSome result (λ number. BeginsBefore IterationOrder.Ascending body.now offsets.now number key.now) }
{
    let mut low = from;
    let mut high = offsets.len();
    while low < high {
        let middle = low + (high - low) / 2;
        if begins_before(IterationOrder::Ascending, body, offsets, middle, key) {
            low = middle + 1;
        } else {
            high = middle;
        }
    }
    if low > from { Some(low - 1) } else { None }
}

/// Whether the order puts a group's first key before the key. A group whose first key can't be read counts as not before
/// it: the walk refuses it when it comes there.
pub fn begins_before(
    order: IterationOrder,
    body: &Bytes,
    offsets: &[u16],
    number: usize,
    key: &[u8],
) -> bool
    requires { number < length offsets.now }
    ensures { (row : RowEntry) (reads : List RowRead) → restart_at body.now offsets.now number ≡ Ok row ∷ reads → result ≡ comes_before order row.key key.now }
{
    let from = offsets[number] as usize;
    let end = place_behind(body, offsets, number);
    if from > end || end > body.len() {
        return false;
    }
    let bytes = &body.as_slice()[from..end];
    match key_fields_v2(bytes).ok() {
        Some(fields) => order.puts_before(&bytes[fields.suffix_at..fields.suffix_end], key),
        None => false,
    }
}
