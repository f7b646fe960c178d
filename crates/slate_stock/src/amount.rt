//! Amounts as they are stored.
ghost use Rattle.std.specs.Prelude.{◌≡◌, ◌≢◌, ◌<◌, ◌^◌, ℕ, IfOk, IfSome, None, length};
ghost use Rattle.slate_stock.specs.Amounts.{amount_bytes};

use bytes::Bytes;
use std::alloc::{AllocError, Global};

/// The amount as it is stored.
#[tactic(auto, unfolding(crate::specs::Amounts::amount_bytes))]
pub fn stored(alloc: Global, amount: u64) -> Result<Bytes, AllocError>
    ensures { IfOk result (λ bytes. bytes ≡ amount_bytes amount) }
{
    Bytes::copy_from_slice(alloc, &amount.to_be_bytes())
}

/// The amount that is stored in these bytes, where they are 8.
#[tactic(auto, using(crate::proofs::PutLaws::amount_long))]
pub fn amount(value: &[u8]) -> Option<u64>
    ensures some { IfSome result (λ n. (value.now ≡ amount_bytes n) × (n < 2 ^ 64)) }
    ensures none { result ≡ None → (n : ℕ) → value.now ≡ amount_bytes n → ⊥ }
    ensures long { result ≡ None → length value.now ≢ 8 }
{
    if value.len() != 8 {
        return None;
    }
    Some(u64::from_be_bytes([
        value[0], value[1], value[2], value[3], value[4], value[5], value[6], value[7],
    ]))
}
