//! Which order keys and amounts show.
ghost use Rattle.std.specs.Prelude.{◌≡◌, ℕ, List, None, Some, Ok, IfOk, IfSome, length, true, false};
ghost use Rattle.slate_stock.specs.declared.order.Order.{Order};
ghost use Rattle.slate_stock.specs.Amounts.{Amounts};
ghost use Rattle.slate_stock.specs.Commits.{HasNames};
ghost use Rattle.slate_stock.specs.Names.{is_plain_name};
ghost use Rattle.slate_stock.specs.Legs.{AreLegsOf};
ghost use Rattle.slate_stock.specs.Reading.{balance_of, cut_name, issued_of, of_four, of_two, plain_order, price};

use crate::name::Name;
use crate::order::Order;
use bytes::Bytes;
use std::alloc::{AllocError, Global};

/// The order that reads these amounts at these keys and puts the new ones there, where there is one. It may be an order that makes
/// something else.
pub fn shown(
    alloc: Global,
    keys: &[Bytes],
    amounts: &[u64],
    new: &[u64],
) -> Result<Option<Order>, AllocError>
    ensures { (o : Order) (m : Amounts) (js : List (List ℕ)) → AreLegsOf o m keys.now amounts.now js new.now → IfOk result (λ shown. shown ≡ Some (plain_order o)) }
{
    if are_long(keys, amounts, new, 2) {
        return by_two(
            alloc,
            keys[0].as_slice(),
            keys[1].as_slice(),
            amounts[0],
            new[0],
        );
    }
    if are_long(keys, amounts, new, 4) {
        let quantity = amounts[0].saturating_sub(new[0]);
        let cost = amounts[2].saturating_sub(new[2]);
        return by_four(
            alloc,
            keys[0].as_slice(),
            keys[1].as_slice(),
            quantity,
            cost,
        );
    }
    Ok(None)
}

/// Whether each has this many.
fn are_long(keys: &[Bytes], amounts: &[u64], new: &[u64], number: usize) -> bool
    ensures yes { result ≡ true → (length keys.now ≡ number) × (length amounts.now ≡ number) × (length new.now ≡ number) }
    ensures no { result ≡ false → length keys.now ≡ number → length amounts.now ≡ number → length new.now ≡ number → ⊥ }
{
    keys.len() == number && amounts.len() == number && new.len() == number
}

/// An issue or a payment. `had` and `put` are the amounts at the first key.
fn by_two(
    alloc: Global,
    first: &[u8],
    second: &[u8],
    had: u64,
    put: u64,
) -> Result<Option<Order>, AllocError>
    ensures { (o : Order) → of_two (issued_of first.now) (balance_of first.now) (balance_of second.now) had put ≡ Some o → HasNames o → IfOk result (λ shown. shown ≡ Some o) }
{
    let Some((_, to)) = balance_of(second) else {
        return Ok(None);
    };
    if let Some(asset) = issued_of(first) {
        return issue(alloc, asset, to, put);
    }
    let Some((asset, from)) = balance_of(first) else {
        return Ok(None);
    };
    pay(alloc, asset, from, to, had.saturating_sub(put))
}

/// A trade, by the keys of the seller and of the buyer.
fn by_four(
    alloc: Global,
    first: &[u8],
    second: &[u8],
    quantity: u64,
    cost: u64,
) -> Result<Option<Order>, AllocError>
    ensures { (o : Order) → of_four (balance_of first.now) (balance_of second.now) quantity cost ≡ Some o → HasNames o → IfOk result (λ shown. shown ≡ Some o) }
{
    let Some((asset, seller)) = balance_of(first) else {
        return Ok(None);
    };
    let Some((_, buyer)) = balance_of(second) else {
        return Ok(None);
    };
    trade(alloc, asset, buyer, seller, quantity, price(cost, quantity))
}

fn issue(
    alloc: Global,
    asset: &[u8],
    holder: &[u8],
    amount: u64,
) -> Result<Option<Order>, AllocError>
    ensures { HasNames (Order.Issue asset.now holder.now amount) → IfOk result (λ shown. shown ≡ Some (Order.Issue asset.now holder.now amount)) }
{
    let Some(asset) = name(alloc, asset)? else {
        return Ok(None);
    };
    let Some(name) = name(alloc, holder)? else {
        return Ok(None);
    };
    Ok(Some(Order::Issue {
        asset,
        name,
        amount,
    }))
}

fn pay(
    alloc: Global,
    asset: &[u8],
    from: &[u8],
    to: &[u8],
    amount: u64,
) -> Result<Option<Order>, AllocError>
    ensures { HasNames (Order.Pay asset.now from.now to.now amount) → IfOk result (λ shown. shown ≡ Some (Order.Pay asset.now from.now to.now amount)) }
{
    let Some(asset) = name(alloc, asset)? else {
        return Ok(None);
    };
    let Some(from) = name(alloc, from)? else {
        return Ok(None);
    };
    let Some(to) = name(alloc, to)? else {
        return Ok(None);
    };
    Ok(Some(Order::Pay {
        asset,
        from,
        to,
        amount,
    }))
}

fn trade(
    alloc: Global,
    asset: &[u8],
    buyer: &[u8],
    seller: &[u8],
    quantity: u64,
    price: u64,
) -> Result<Option<Order>, AllocError>
    ensures { HasNames (Order.Trade asset.now buyer.now seller.now quantity price) → IfOk result (λ shown. shown ≡ Some (Order.Trade asset.now buyer.now seller.now quantity price)) }
{
    let Some(asset) = name(alloc, asset)? else {
        return Ok(None);
    };
    let Some(buyer) = name(alloc, buyer)? else {
        return Ok(None);
    };
    let Some(seller) = name(alloc, seller)? else {
        return Ok(None);
    };
    Ok(Some(Order::Trade {
        asset,
        buyer,
        seller,
        quantity,
        price,
    }))
}

/// The name of these bytes, where they are one.
fn name(alloc: Global, text: &[u8]) -> Result<Option<Name>, AllocError>
    ensures { is_plain_name text.now ≡ true → IfOk result (λ name. name ≡ Some text.now) }
{
    let text = Bytes::copy_from_slice(alloc, text)?;
    Ok(Name::new(text))
}

/// The cost of one, and 0 for none.
fn price(cost: u64, quantity: u64) -> u64
    ensures { result ≡ price cost quantity }
{
    if quantity == 0 { 0 } else { cost / quantity }
}

/// Asset and holder of a balance's key.
fn balance_of(key: &[u8]) -> Option<(&[u8], &[u8])>
    ensures some { IfSome result (λ p. balance_of key.now ≡ Some (p.0.now, p.1.now)) }
    ensures none { result ≡ None → balance_of key.now ≡ None }
{
    if key.starts_with(b"b:") {
        cut_name(&key[2..])
    } else {
        None
    }
}

/// The asset of an issued amount's key.
fn issued_of(key: &[u8]) -> Option<&[u8]>
    ensures some { IfSome result (λ asset. issued_of key.now ≡ Some asset.now) }
    ensures none { result ≡ None → issued_of key.now ≡ None }
{
    if key.starts_with(b"i:") {
        Some(&key[2..])
    } else {
        None
    }
}

/// What stands before the first colon, and behind it.
fn cut_name(text: &[u8]) -> Option<(&[u8], &[u8])>
    ensures some { IfSome result (λ p. cut_name text.now ≡ Some (p.0.now, p.1.now)) }
    ensures none { result ≡ None → cut_name text.now ≡ None }
{
    for at in 0..text.len() {
        if text[at] == b':' {
            return Some((&text[..at], &text[at + 1..]));
        }
    }
    None
}
