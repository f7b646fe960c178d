//! What an order puts, by the amounts that stand at its keys.
ghost use Rattle.std.specs.Prelude.{◌≡◌, ◌⊎◌, ◌+◌, ◌-◌, ◌*◌, ◌<◌, ◌^◌, nat_lt, nat_le, false, true, IfErr, IfOk, OnOk, None, Some, length, map};
ghost use Rattle.slate_types.specs.declared.error.SlateDBError.{SlateDBError};
ghost use Rattle.slate_stock.specs.Amounts.{Amounts, balance_key};
ghost use Rattle.slate_stock.specs.Orders.{first_of, form_refusals, order_keys, order_moves, order_refusal};

use crate::error::StockError;
use crate::keys::{MONEY, balance_key};
use crate::name::Name;
use crate::order::Order;
use bytes::Bytes;
use std::alloc::{AllocError, Global};

/// Why the order is refused whatever the amounts are.
pub fn form_refusal(order: &Order) -> Option<StockError>
    ensures { result ≡ first_of (form_refusals order.now) }
{
    match order {
        Order::Issue { .. } => None,
        Order::Pay { from, to, .. } => {
            if from.as_slice() == to.as_slice() {
                return Some(StockError::SameName);
            }
            None
        }
        Order::Trade {
            asset,
            buyer,
            seller,
            quantity,
            price,
        } => {
            if buyer.as_slice() == seller.as_slice() {
                return Some(StockError::SameName);
            }
            if asset.as_slice() == MONEY {
                return Some(StockError::SameAsset);
            }
            if price.checked_mul(*quantity).is_none() {
                return Some(StockError::TooMuch);
            }
            None
        }
    }
}

/// The new amounts at an order's keys, by those that stand there, both in the order of the keys. Refuses as the order does on these
/// amounts, and by `OutOfMemory`.
pub fn moves(alloc: Global, order: &Order, amounts: &[u64]) -> Result<Vec<u64>, StockError>
    requires form { first_of (form_refusals order.now) ≡ None }
    requires known { length amounts.now ≡ length (order_keys order.now) }
    ensures ok { (m : Amounts) → amounts.now ≡ map m (order_keys order.now) → IfOk result (λ new. (order_refusal m order.now ≡ None) × (new.items ≡ map (λ p. p.1) (order_moves m order.now))) }
    ensures refused { (m : Amounts) → amounts.now ≡ map m (order_keys order.now) → IfErr result (λ e. (e ≡ StockError.Db SlateDBError.OutOfMemory) ⊎ (order_refusal m order.now ≡ Some e)) }
{
    match order {
        Order::Issue { asset, amount, .. } => {
            test_issued(alloc, asset, amounts[0])?;
            let more = added(amounts[1], *amount)?;
            Ok(listed(alloc, &[*amount, more])?)
        }
        Order::Pay {
            asset,
            from,
            amount,
            ..
        } => {
            let left = taken(alloc, asset.as_slice(), from, amounts[0], *amount)?;
            let more = added(amounts[1], *amount)?;
            Ok(listed(alloc, &[left, more])?)
        }
        Order::Trade {
            asset,
            buyer,
            seller,
            quantity,
            price,
        } => {
            let cost = *price * *quantity;
            let left = taken(alloc, asset.as_slice(), seller, amounts[0], *quantity)?;
            let paid = taken(alloc, MONEY, buyer, amounts[2], cost)?;
            let more = added(amounts[1], *quantity)?;
            let earned = added(amounts[3], cost)?;
            Ok(listed(alloc, &[left, more, paid, earned])?)
        }
    }
}

/// Refuses an asset of which some is issued.
fn test_issued(alloc: Global, asset: &Name, issued: u64) -> Result<(), StockError>
    ensures ok { OnOk result (nat_lt 0 issued ≡ false) }
    ensures refused { IfErr result (λ e. (e ≡ StockError.Db SlateDBError.OutOfMemory) ⊎ ((nat_lt 0 issued ≡ true) × (e ≡ StockError.AlreadyIssued asset.now))) }
{
    if issued > 0 {
        let asset = Bytes::copy_from_slice(alloc, asset.as_slice())?;
        return Err(StockError::AlreadyIssued { asset });
    }
    Ok(())
}

/// What is left of a holding.
fn taken(alloc: Global, asset: &[u8], name: &Name, has: u64, needs: u64) -> Result<u64, StockError>
    ensures ok { IfOk result (λ left. (nat_lt has needs ≡ false) × (left ≡ has - needs)) }
    ensures refused { IfErr result (λ e. (e ≡ StockError.Db SlateDBError.OutOfMemory) ⊎ ((nat_lt has needs ≡ true) × (e ≡ StockError.NotEnough (balance_key asset.now name.now) has needs))) }
{
    if has < needs {
        let key = balance_key(alloc, asset, name)?;
        return Err(StockError::NotEnough { key, has, needs });
    }
    Ok(has - needs)
}

/// A holding with more.
pub(crate) fn added(old: u64, more: u64) -> Result<u64, StockError>
    ensures ok { IfOk result (λ sum. (nat_le (2 ^ 64) (old + more) ≡ false) × (sum ≡ old + more)) }
    ensures refused { IfErr result (λ e. (nat_le (2 ^ 64) (old + more) ≡ true) × (e ≡ StockError.TooMuch)) }
{
    old.checked_add(more).ok_or(StockError::TooMuch)
}

/// The amounts, in a list of their own.
fn listed(alloc: Global, amounts: &[u64]) -> Result<Vec<u64>, AllocError>
    ensures { IfOk result (λ list. list.items ≡ amounts.now) }
{
    let mut list = Vec::new(alloc);
    list.extend_from_slice(amounts)?;
    Ok(list)
}
