//! A script that a run makes for itself.
ghost use Rattle.std.specs.Prelude.{◌≡◌, ◌++◌, ◌/◌, ◌%◌, ◌^◌, IfOk, OnOk, IsOkUnless};
ghost use Rattle.std.specs.String.{string_bytes};
ghost use Rattle.slate_language.specs.Generate.{drawn, generate, round};

use slate_types::SlateDBError;
use std::alloc::{AllocError, Global};
use std::fmt::Write;

/// How many rounds lie between two flushes.
const ROUNDS_PER_FLUSH: u32 = 64;

/// The script of n rounds from the number s. A round is a transaction that reads one of 1,000 keys and writes one, both
/// drawn by a linear congruence that begins at s. Each 64th round ends with a flush, and so does the script.
pub fn generate(alloc: Global, n: u32, s: u64) -> Result<Vec<u8>, SlateDBError>
    ensures script { IfOk result (λ script. script.items ≡ generate n s) }
    ensures cause { IsOkUnless result SlateDBError.OutOfMemory }
{
    generated(alloc, n, s).map_err(SlateDBError::from)
}

fn generated(alloc: Global, n: u32, s: u64) -> Result<Vec<u8>, AllocError>
    ensures script { IfOk result (λ script. script.items ≡ generate n s) }
{
    let mut script = String::new(alloc);
    let mut x = s;
    for done in 0..n {
        let first = draw(x);
        let second = draw(first);
        push_round(&mut script, done + 1, first, second)?;
        x = second;
    }
    script.push_str("flush\n")?;
    Ok(script.into_bytes())
}

/// Adds the lines of the round with this number, from 1.
fn push_round(script: &mut String, number: u32, first: u64, second: u64) -> Result<(), AllocError>
    ensures lines { OnOk result (string_bytes script.new ≡ string_bytes script.old ++ round number first second) }
{
    write!(
        script,
        "begin t ssi\nget t 'k{}\nput t 'k{} 'v{number}\ncommit t\n",
        key_number(first),
        key_number(second)
    )?;
    if number % ROUNDS_PER_FLUSH == 0 {
        script.push_str("flush\n")?;
    }
    Ok(())
}

/// The number that is drawn behind this one.
fn draw(x: u64) -> u64
    ensures { result ≡ drawn x }
{
    x.wrapping_mul(6364136223846793005)
        .wrapping_add(1442695040888963407)
}

/// The number of the key that the drawn number stands for.
fn key_number(x: u64) -> u64
    ensures { result ≡ x / 2 ^ 33 % 1000 }
{
    (x >> 33) % 1000
}
