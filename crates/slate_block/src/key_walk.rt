//! A walk over the keys of a block of version 2, in one buffer: no row is made.
ghost use Rattle.std.specs.Prelude.{◌≡◌, ◌<◌, ◌⊎◌, ℕ, List, [], ◌∷◌, true, false, Ok, Err, Some, None, IfOk, IfErr, length, slice_get};
ghost use Rattle.slate_block.specs.Walks.{row_v2_in};
ghost use Rattle.slate_block.specs.BlockWalks.{IsBlockDamage};
ghost use Rattle.slate_block.specs.GroupWalks.{as_place, group_left, is_over, left_v2, PassesFirst, PassesRow};

use crate::fields::corrupt;
use crate::key_parts::cmp_parts;
use crate::places::{place_behind, placed_fields};
use crate::row_groups::GROUP_LEN;
use bytes::Bytes;
use slate_types::SlateDBError;

/// A place between two rows. The key before its next row stands in a buffer, which is written anew for each row.
#[derive(Drop)]
pub struct KeyPlace {
    /// Where the next row of the group that was begun begins in the rows' part.
    pub at: usize,
    /// Where that group ends.
    pub end: usize,
    /// How many rows it can still have.
    pub room: usize,
    /// Whether it is the block's last, which may have fewer.
    pub is_last: bool,
    /// The key before its next row.
    pub previous: Vec<u8>,
    /// The number of the next group.
    pub next: usize,
}

impl KeyPlace {
    fn is_over(&self) -> bool
        ensures { result ≡ is_over (as_place self.now).group }
    {
        self.at == self.end && (self.room == 0 || self.is_last)
    }

    /// Whether no row is behind it.
    #[tactic(auto, using(crate::proofs::GroupSteps::over_left, crate::proofs::GroupSteps::left_behind_block))]
    pub fn is_at_end(&self, offsets: &[u16]) -> bool
        ensures end { (body : List ℕ) → result ≡ true → left_v2 body offsets.now (as_place self.now) ≡ [] }
        ensures more { result ≡ false → is_over (as_place self.now).group ≡ true → self.now.next < length offsets.now }
    {
        self.is_over() && self.next >= offsets.len()
    }

    /// Goes behind the next row where that comes before the key, and says whether it did.
    pub fn pass(&mut self, body: &Bytes, offsets: &[u16], key: &[u8]) -> Result<bool, SlateDBError>
        requires { is_over (as_place self.old).group ≡ true → self.old.next < length offsets.now }
        ensures goes { IfOk result (λ passed. PassesFirst key.now (left_v2 body.now offsets.now (as_place self.old)) (left_v2 body.now offsets.now (as_place self.new)) passed) }
        ensures cause { IfErr result (λ e. (e ≡ SlateDBError.OutOfMemory) ⊎ (slice_get (left_v2 body.now offsets.now (as_place self.old)) 0 ≡ Some (Err e))) }
        ensures damage { IfErr result (λ e. (e ≡ SlateDBError.OutOfMemory) ⊎ IsBlockDamage e) }
    {
        if self.is_over() {
            return self.pass_first(body, offsets, key);
        }
        self.pass_next(body, key)
    }

    /// The same of the first row of the next group.
    fn pass_first(
        &mut self,
        body: &Bytes,
        offsets: &[u16],
        key: &[u8],
    ) -> Result<bool, SlateDBError>
        requires over { is_over (as_place self.old).group ≡ true }
        requires more { self.old.next < length offsets.now }
        ensures goes { IfOk result (λ passed. PassesFirst key.now (left_v2 body.now offsets.now (as_place self.old)) (left_v2 body.now offsets.now (as_place self.new)) passed) }
        ensures cause { IfErr result (λ e. (e ≡ SlateDBError.OutOfMemory) ⊎ (slice_get (left_v2 body.now offsets.now (as_place self.old)) 0 ≡ Some (Err e))) }
        ensures damage { IfErr result (λ e. (e ≡ SlateDBError.OutOfMemory) ⊎ IsBlockDamage e) }
    {
        let from = offsets[self.next] as usize;
        let upto = place_behind(body, offsets, self.next);
        self.previous.clear();
        let Some(end) = pass_row(body, &mut self.previous, from, upto, key)? else {
            return Ok(false);
        };
        self.at = end;
        self.end = upto;
        self.room = GROUP_LEN - 1;
        self.is_last = self.next + 1 == offsets.len();
        self.next += 1;
        Ok(true)
    }

    /// The same of the next row of a group that isn't over.
    fn pass_next(&mut self, body: &Bytes, key: &[u8]) -> Result<bool, SlateDBError>
        requires { is_over (as_place self.old).group ≡ false }
        ensures goes { IfOk result (λ passed. PassesFirst key.now (group_left body.now (as_place self.old).group) (group_left body.now (as_place self.new).group) passed) }
        ensures next { self.new.next ≡ self.old.next }
        ensures cause { IfErr result (λ e. (e ≡ SlateDBError.OutOfMemory) ⊎ (group_left body.now (as_place self.old).group ≡ Err e ∷ [])) }
        ensures damage { IfErr result (λ e. (e ≡ SlateDBError.OutOfMemory) ⊎ IsBlockDamage e) }
    {
        if self.room == 0 {
            return Err(corrupt(self.at));
        }
        let Some(end) = pass_row(body, &mut self.previous, self.at, self.end, key)? else {
            return Ok(false);
        };
        self.at = end;
        self.room -= 1;
        Ok(true)
    }
}

/// Where the row between two places ends, if it comes before the key: then its key comes in the place of the one before it.
fn pass_row(
    body: &Bytes,
    previous: &mut Vec<u8>,
    from: usize,
    upto: usize,
    key: &[u8],
) -> Result<Option<usize>, SlateDBError>
    ensures goes { IfOk result (λ passed. PassesRow body.now previous.old.items from upto key.now previous.new.items passed) }
    ensures cause { IfErr result (λ e. (e ≡ SlateDBError.OutOfMemory) ⊎ (row_v2_in body.now previous.old.items from upto ≡ Err e)) }
    ensures damage { IfErr result (λ e. (e ≡ SlateDBError.OutOfMemory) ⊎ IsBlockDamage e) }
{
    let (shared, fields) = placed_fields(body, previous, from, upto)?;
    let bytes = &body.as_slice()[from..upto];
    let suffix = &bytes[fields.suffix_at..fields.suffix_end];
    if !cmp_parts(&previous[..shared], suffix, key).is_lt() {
        return Ok(None);
    }
    previous.truncate(shared);
    previous.extend_from_slice(suffix)?;
    Ok(Some(from + fields.end))
}
