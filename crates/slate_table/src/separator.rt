//! Separators: what of a block's first key is kept in the index.
ghost use Rattle.std.specs.Prelude.{◌≡◌, ◌≤◌, length, take, IfOk, IsOkUnless};
ghost use Rattle.slate_table.specs.Parts.{separator};

use bytes::Bytes;
use slate_block::compute_prefix;
use slate_types::SlateDBError;

/// The key's front that ends one byte past the front that it shares with the key before it, or the whole key where both are
/// equal. It shares the key's buffer. The one error is `OutOfMemory`.
pub fn separator(previous: &[u8], key: &Bytes) -> Result<Bytes, SlateDBError>
    ensures value { IfOk result (λ front. front ≡ separator previous.now key.now) }
    ensures cause { IsOkUnless result SlateDBError.OutOfMemory }
{
    let len = separator_len(previous, key.as_slice());
    key.slice(0..len).map_err(SlateDBError::from)
}

/// How many bytes of the key that front has.
fn separator_len(previous: &[u8], key: &[u8]) -> usize
    ensures value { take result key.now ≡ separator previous.now key.now }
    ensures within { result ≤ length key.now }
{
    if previous == key {
        return key.len();
    }
    let shared = compute_prefix(previous, key);
    if shared < key.len() {
        shared + 1
    } else {
        key.len()
    }
}
