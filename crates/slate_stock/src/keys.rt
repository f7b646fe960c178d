//! Where balances and issued amounts stand.
ghost use Rattle.std.specs.Prelude.{◌≡◌, IfOk};
ghost use Rattle.slate_stock.specs.Amounts.{balance_key, head, issued_key, money};
ghost use Rattle.slate_stock.specs.Orders.{order_keys};

use crate::name::Name;
use crate::order::Order;
use bytes::Bytes;
use std::alloc::{AllocError, Global};

/// The asset in which prices are.
pub const MONEY: &[u8] = b"money";

/// The keys that an order reads and puts, in their order.
pub fn order_keys(alloc: Global, order: &Order) -> Result<Vec<Bytes>, AllocError>
    ensures { IfOk result (λ keys. keys.items ≡ order_keys order.now) }
{
    let mut keys = Vec::new(alloc);
    match order {
        Order::Issue { asset, name, .. } => {
            keys.push(issued_key(alloc, asset.as_slice())?)?;
            keys.push(balance_key(alloc, asset.as_slice(), name)?)?;
        }
        Order::Pay {
            asset,
            from,
            to,
            ..
        } => {
            keys.push(balance_key(alloc, asset.as_slice(), from)?)?;
            keys.push(balance_key(alloc, asset.as_slice(), to)?)?;
        }
        Order::Trade {
            asset,
            buyer,
            seller,
            ..
        } => {
            keys.push(balance_key(alloc, asset.as_slice(), seller)?)?;
            keys.push(balance_key(alloc, asset.as_slice(), buyer)?)?;
            keys.push(balance_key(alloc, MONEY, buyer)?)?;
            keys.push(balance_key(alloc, MONEY, seller)?)?;
        }
    }
    Ok(keys)
}

/// Where the issued amount of an asset stands.
pub fn issued_key(alloc: Global, asset: &[u8]) -> Result<Bytes, AllocError>
    ensures { IfOk result (λ key. key ≡ issued_key asset.now) }
{
    let mut key = Vec::new(alloc);
    key.extend_from_slice(b"i:")?;
    key.extend_from_slice(asset)?;
    Bytes::from_vec(key).map_err(AllocError::from)
}

/// Where the balance of a name stands.
pub fn balance_key(alloc: Global, asset: &[u8], name: &Name) -> Result<Bytes, AllocError>
    ensures { IfOk result (λ key. key ≡ balance_key asset.now name.now) }
{
    let mut key = head_of(alloc, asset)?;
    key.extend_from_slice(name.as_slice())?;
    Bytes::from_vec(key).map_err(AllocError::from)
}

/// What the keys of an asset's balances begin with.
pub fn balance_head(alloc: Global, asset: &[u8]) -> Result<Bytes, AllocError>
    ensures { IfOk result (λ key. key ≡ head asset.now) }
{
    Bytes::from_vec(head_of(alloc, asset)?).map_err(AllocError::from)
}

fn head_of(alloc: Global, asset: &[u8]) -> Result<Vec<u8>, AllocError>
    ensures { IfOk result (λ v. v.items ≡ head asset.now) }
{
    let mut head = Vec::new(alloc);
    head.extend_from_slice(b"b:")?;
    head.extend_from_slice(asset)?;
    head.push(b':')?;
    Ok(head)
}
