//! A walk over the rows of a block of version 2, from its end to its front, group by group.
ghost use Rattle.std.specs.Prelude.{◌≡◌, ◌≤◌, ◌<◌, ◌⊎◌, Ok, Err, IsOk, IfOk, IfErr, length, take};
ghost use Rattle.slate_block.specs.Walks.{all_ok};
ghost use Rattle.slate_block.specs.BlockWalks.{BeginsRead, IsBlockDamage, IsPast, Refuses, StopsAt};
ghost use Rattle.slate_block.specs.GroupWalks.{left_back, reads_back, restart_at, turned, BeginsBefore};

use crate::row_groups::{GROUP_LEN, first_of_group, next_of_group};
use crate::walk_v2::begins_before;
use bytes::Bytes;
use slate_types::{IterationOrder, RowEntry, SlateDBError};
use std::alloc::Global;

/// The rows of a group, in their order.
pub fn group_rows(
    alloc: Global,
    body: &Bytes,
    offsets: &[u16],
    number: usize,
) -> Result<Vec<RowEntry>, SlateDBError>
    requires { number < length offsets.now }
    ensures rows { IfOk result (λ rows. all_ok (restart_at body.now offsets.now number) ≡ Ok rows.items) }
    ensures cause { IfErr result (λ e. (e ≡ SlateDBError.OutOfMemory) ⊎ (all_ok (restart_at body.now offsets.now number) ≡ Err e)) }
    ensures damage { IfErr result (λ e. (e ≡ SlateDBError.OutOfMemory) ⊎ IsBlockDamage e) }
{
    let mut rows = Vec::with_capacity(alloc, GROUP_LEN)?;
    let (first, mut group) = first_of_group(alloc, body, offsets, number)?;
    rows.push_reserved(first);
    while !group.is_over() {
        let (row, rest) = next_of_group(alloc, body, &group)?;
        group = rest;
        rows.push_reserved(row);
    }
    drop(group);
    Ok(rows)
}

/// How many rows stay where those are taken off the end that come after a key.
#[tactic(auto, using(crate::proofs::BackSteps::end_past, crate::proofs::BackSteps::end_stops, crate::proofs::BackSteps::none_stops, crate::proofs::SeekLaws::past_none))]
pub fn rows_upto_key(rows: &[RowEntry], key: &[u8]) -> usize
    ensures within { result ≤ length rows.now }
    ensures past { IsPast IterationOrder.Descending key.now (turned (Ok rows.now)) (turned (Ok (take result rows.now))) }
    ensures stops { StopsAt IterationOrder.Descending key.now (turned (Ok (take result rows.now))) }
{
    let mut kept = rows.len();
    while kept > 0 {
        if !IterationOrder::Descending.puts_before(rows[kept - 1].key.as_slice(), key) {
            return kept;
        }
        kept -= 1;
    }
    0
}

/// Behind how many of so many groups a seek goes on. The first key of the group behind them comes after the key, and that
/// group is read whole: a key that stands there doesn't make a row.
pub fn groups_to_search(
    alloc: Global,
    body: &Bytes,
    offsets: &[u16],
    groups: usize,
    key: &[u8],
) -> Result<usize, SlateDBError>
    requires { groups ≤ length offsets.now }
    ensures within { IfOk result (λ upto. upto ≤ groups) }
    ensures after { IfOk result (λ upto. upto < groups → BeginsBefore IterationOrder.Descending body.now offsets.now upto key.now) }
    ensures read { IfOk result (λ upto. upto < groups → IsOk (all_ok (restart_at body.now offsets.now upto))) }
    ensures cause { IfErr result (λ e. (e ≡ SlateDBError.OutOfMemory) ⊎ Refuses (reads_back groups body.now offsets.now) e) }
{
    let mut low = 0;
    let mut upto = groups;
    while low < upto {
        let middle = low + (upto - low) / 2;
        if begins_before(IterationOrder::Descending, body, offsets, middle, key) {
            upto = middle;
        } else {
            low = middle + 1;
        }
    }
    if upto < groups {
        let _behind = group_rows(alloc, body, offsets, upto)?;
    }
    Ok(upto)
}

/// Goes back over so many groups past the rows that come after a key: the number of groups before the one where it stops,
/// and the rows of that one that stay.
pub fn before_key(
    alloc: Global,
    body: &Bytes,
    offsets: &[u16],
    groups: usize,
    key: &[u8],
) -> Result<(usize, Vec<RowEntry>), SlateDBError>
    requires { groups ≤ length offsets.now }
    ensures past { IfOk result (λ found. IsPast IterationOrder.Descending key.now (reads_back groups body.now offsets.now) (left_back body.now offsets.now found.0 found.1.items)) }
    ensures stops { IfOk result (λ found. StopsAt IterationOrder.Descending key.now (left_back body.now offsets.now found.0 found.1.items)) }
    ensures read { IfOk result (λ found. BeginsRead (left_back body.now offsets.now found.0 found.1.items)) }
    ensures within { IfOk result (λ found. found.0 ≤ groups) }
    ensures cause { IfErr result (λ e. (e ≡ SlateDBError.OutOfMemory) ⊎ Refuses (reads_back groups body.now offsets.now) e) }
    ensures damage { IfErr result (λ e. (e ≡ SlateDBError.OutOfMemory) ⊎ IsBlockDamage e) }
{
    let mut before = groups;
    while before > 0 {
        let mut rows = group_rows(alloc, body, offsets, before - 1)?;
        before -= 1;
        let kept = rows_upto_key(&rows, key);
        if kept > 0 {
            rows.truncate(kept);
            return Ok((before, rows));
        }
    }
    Ok((0, Vec::new(alloc)))
}
