//! Where tables are stored.
ghost use Rattle.std.specs.Prelude.{◌≡◌, ◌≤◌, ◌<◌, ◌+◌, ◌++◌, length, take, codes, string_bytes, IfOk, IsOkUnless};
ghost use Rattle.slate_table.specs.Paths.{hex, path_of};

use slate_types::{SlateDBError, Ulid};
use std::alloc::{AllocError, Global};

/// The room of a path below a root of `LONGEST_ROOT` bytes.
pub(crate) const PATH_ROOM: usize = 64;

/// How long a root may be for its paths to fit into the room: they have 47 bytes more.
pub(crate) const LONGEST_ROOT: usize = 17;

/// The two digits of each byte.
static PAIRS: [u8; 512] = *b"\
    000102030405060708090a0b0c0d0e0f101112131415161718191a1b1c1d1e1f\
    202122232425262728292a2b2c2d2e2f303132333435363738393a3b3c3d3e3f\
    404142434445464748494a4b4c4d4e4f505152535455565758595a5b5c5d5e5f\
    606162636465666768696a6b6c6d6e6f707172737475767778797a7b7c7d7e7f\
    808182838485868788898a8b8c8d8e8f909192939495969798999a9b9c9d9e9f\
    a0a1a2a3a4a5a6a7a8a9aaabacadaeafb0b1b2b3b4b5b6b7b8b9babbbcbdbebf\
    c0c1c2c3c4c5c6c7c8c9cacbcccdcecfd0d1d2d3d4d5d6d7d8d9dadbdcdddedf\
    e0e1e2e3e4e5e6e7e8e9eaebecedeeeff0f1f2f3f4f5f6f7f8f9fafbfcfdfeff";

/// The path of a table, below the root. The one error is `OutOfMemory`.
pub fn table_path(alloc: Global, root: &str, id: Ulid) -> Result<String, SlateDBError>
    ensures path { IfOk result (λ path. string_bytes path ≡ path_of root.now id.0) }
    ensures cause { IsOkUnless result SlateDBError.OutOfMemory }
{
    let digits = digits_of(id);
    let Ok(digits) = str::from_utf8(&digits) else {
        unreachable!()
    };
    path_text(alloc, root, digits).map_err(SlateDBError::from)
}

/// The path with these digits. It takes memory once.
fn path_text(alloc: Global, root: &str, digits: &str) -> Result<String, AllocError>
    ensures path { IfOk result (λ path. string_bytes path ≡ root.now ++ codes "/compacted/" ++ digits.now ++ codes ".sst") }
{
    let mut path = String::with_capacity(alloc, root.len().saturating_add(47))?;
    path.push_str(root)?;
    path.push_str("/compacted/")?;
    path.push_str(digits)?;
    path.push_str(".sst")?;
    Ok(path)
}

/// The path of a table below a root that isn't long, written into a room for it. It takes no memory.
pub(crate) fn short_path<'a>(room: &'a mut [u8; PATH_ROOM], root: &str, id: Ulid) -> &'a str
    requires { length root.now ≤ 17 }
    ensures { result.now ≡ path_of root.now id.0 }
{
    let start = put(room, 0, root.as_bytes());
    let digits = put(room, start, "/compacted/".as_bytes());
    let dot = put(room, digits, &digits_of(id));
    let end = put(room, dot, ".sst".as_bytes());
    unsafe { str::from_utf8_unchecked(&room[..end]) }
}

/// Puts bytes at a place, and answers where they end.
fn put(room: &mut [u8; PATH_ROOM], at: usize, bytes: &[u8]) -> usize
    requires { at + length bytes.now ≤ 64 }
    ensures end { result ≡ at + length bytes.now }
    ensures bytes { take result room.new ≡ take at room.old ++ bytes.now }
{
    let end = at + bytes.len();
    room[at..end].copy_from_slice(bytes);
    end
}

/// The 32 hex digits of an id.
fn digits_of(id: Ulid) -> [u8; 32]
    ensures { result ≡ hex 32 id.0 }
{
    let bytes = id.0.to_be_bytes();
    let mut digits = [0; 32];
    for i in 0..16 {
        let pair = 2 * bytes[i] as usize;
        digits[2 * i] = PAIRS[pair];
        digits[2 * i + 1] = PAIRS[pair + 1];
    }
    digits
}
