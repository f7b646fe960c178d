//! The ids that stand in paths.
ghost use Rattle.std.specs.Prelude.{◌≡◌, ◌<◌, ◌^◌, ◌++◌, ℕ, List, IfSome, IsSome, MatchOption};
ghost use Rattle.slate_table.specs.Paths.{hex, hex_digit, path_of};

use slate_types::Ulid;

/// The digits of an id.
const DIGITS: usize = 32;

/// Returns the id in the path of a table below the root: `None` exactly if the path is no table's.
/// Takes no memory.
pub fn id_in_path(root: &str, path: &str) -> Option<Ulid>
    ensures found { IfSome result (λ id. path.now ≡ path_of root.now id.0) }
    ensures only { (id : ℕ) → id < 2 ^ 128 → path.now ≡ path_of root.now id → IsSome result }
{
    let name = behind(root.as_bytes(), path.as_bytes())?;
    let rest = behind(b"/compacted/", name)?;
    let digits = before(rest, b".sst")?;
    match number_of(digits) {
        Some(number) => Some(Ulid(number)),
        None => None,
    }
}

/// Returns what stands behind a front.
fn behind<'a>(front: &[u8], bytes: &'a [u8]) -> Option<&'a [u8]>
    ensures { MatchOption result ((rest : List ℕ) → bytes.now ≡ front.now ++ rest →
        ⊥) (λ rest. bytes.now ≡ front.now ++ rest.now) }
{
    bytes.strip_prefix(front)
}

/// Returns what stands before an end.
fn before<'a>(bytes: &'a [u8], end: &[u8]) -> Option<&'a [u8]>
    ensures { MatchOption result ((front : List ℕ) → bytes.now ≡ front ++ end.now →
        ⊥) (λ front. bytes.now ≡ front.now ++ end.now) }
{
    bytes.strip_suffix(end)
}

/// Returns the number that 32 lower-case hex digits spell, and `None` for other bytes.
fn number_of(digits: &[u8]) -> Option<u128>
    ensures found { IfSome result (λ n. digits.now ≡ hex 32 n) }
    ensures only { (n : ℕ) → n < 2 ^ 128 → digits.now ≡ hex 32 n → IsSome result }
{
    if digits.len() != DIGITS {
        return None;
    }
    let mut number = 0;
    for digit in digits {
        number = number * 16 + u128::from(digit_value(*digit)?);
    }
    Some(number)
}

/// Returns what a hex digit stands for.
fn digit_value(digit: u8) -> Option<u8>
    ensures found { IfSome result (λ n. digit ≡ hex_digit n) }
    ensures below { IfSome result (λ n. n < 16) }
    ensures only { (n : ℕ) → n < 16 → digit ≡ hex_digit n → IsSome result }
{
    match digit {
        b'0'..=b'9' => Some(digit - b'0'),
        b'a'..=b'f' => Some(digit - b'a' + 10),
        _ => None,
    }
}
