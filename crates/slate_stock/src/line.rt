//! The lines of the program.
ghost use Rattle.std.specs.Prelude.{◌≡◌, ◌⊎◌, IfErr, IfOk, IfSome, None, Ok, Some, false, option_map, true};
ghost use Rattle.slate_types.specs.declared.error.SlateDBError.{SlateDBError};
ghost use Rattle.slate_language.specs.Replies.{is_silent};
ghost use Rattle.slate_stock.specs.Lines.{issue_in, issue_of, line_behind, line_of, name_of, pair_in, parties_in, parties_of, pay_in, pay_of, read_issue, read_line, read_pay, read_total, read_trade, trade_in, trade_of};

use crate::name::Name;
use crate::order::Order;
use bytes::Bytes;
use slate_language::{Token, is_word, read_number, split_tokens};
use slate_types::SlateDBError;
use std::alloc::{AllocError, Global};

/// What a line asks for.
#[derive(Drop)]
pub enum StockLine {
    Order(Order),
    /// The sum of an asset's balances, and what was issued of it.
    Total(Name),
}

/// An asset, and the two that an order names.
#[derive(Drop)]
struct Parties {
    asset: Name,
    one: Name,
    other: Name,
}

/// What the line with this number asks for, and None for an empty line and a comment. `ScriptSyntax` comes exactly where it is none of
/// these.
pub(crate) fn read_line(
    alloc: Global,
    line: &[u8],
    number: u64,
) -> Result<Option<StockLine>, SlateDBError>
    ensures meant { IfOk result (λ o. IfSome o (λ l. (is_silent line.now ≡ false) × (read_line line.now ≡ Some l))) }
    ensures silent { result ≡ Ok None → is_silent line.now ≡ true }
    ensures cause { IfErr result (λ e. (e ≡ SlateDBError.OutOfMemory) ⊎ ((e ≡ SlateDBError.ScriptSyntax number) × (is_silent line.now ≡ false) × (read_line line.now ≡ None))) }
{
    if is_silent(line) {
        return Ok(None);
    }
    match read_text(alloc, line)? {
        Some(line) => Ok(Some(line)),
        None => Err(SlateDBError::ScriptSyntax { line: number }),
    }
}

/// Whether the line is empty or a comment.
fn is_silent(line: &[u8]) -> bool
    ensures { result ≡ is_silent line.now }
{
    line.first().is_none_or(|byte| *byte == b'#')
}

fn read_text(alloc: Global, text: &[u8]) -> Result<Option<StockLine>, AllocError>
    ensures line { IfOk result (λ o. o ≡ read_line text.now) }
{
    let text = Bytes::copy_from_slice(alloc, text)?;
    let line = read_shared(alloc, &text);
    drop(text);
    line
}

fn read_shared(alloc: Global, text: &Bytes) -> Result<Option<StockLine>, AllocError>
    ensures line { IfOk result (λ o. o ≡ read_line text.now) }
{
    let tokens = split_tokens(alloc, text)?;
    let line = read_tokens(alloc, tokens.as_slice());
    drop(tokens);
    line
}

fn read_tokens(alloc: Global, tokens: &[Token<'_>]) -> Result<Option<StockLine>, AllocError>
    ensures line { IfOk result (λ o. o ≡ line_of tokens.now) }
{
    let Some((word, rest)) = tokens.split_first() else {
        return Ok(None);
    };
    read_behind(alloc, word.text(), rest)
}

/// The line that begins with the word.
fn read_behind(
    alloc: Global,
    word: &[u8],
    tokens: &[Token<'_>],
) -> Result<Option<StockLine>, AllocError>
    ensures line { IfOk result (λ o. o ≡ line_behind word.now tokens.now) }
{
    if is_word(word, b"issue") {
        read_issue(alloc, tokens)
    } else if is_word(word, b"pay") {
        read_pay(alloc, tokens)
    } else if is_word(word, b"trade") {
        read_trade(alloc, tokens)
    } else if is_word(word, b"total") {
        read_total(alloc, tokens)
    } else {
        Ok(None)
    }
}

/// `issue`, an asset, a name and an amount
fn read_issue(alloc: Global, tokens: &[Token<'_>]) -> Result<Option<StockLine>, AllocError>
    ensures line { IfOk result (λ o. o ≡ read_issue tokens.now) }
{
    let [asset, name, amount] = tokens else {
        return Ok(None);
    };
    issue_in(alloc, asset.text(), name.text(), amount.text())
}

fn issue_in(
    alloc: Global,
    asset: &[u8],
    name: &[u8],
    amount: &[u8],
) -> Result<Option<StockLine>, AllocError>
    ensures line { IfOk result (λ o. o ≡ issue_in asset.now name.now amount.now) }
{
    match read_pair(alloc, asset, name) {
        Ok(Some(names)) => Ok(issue_of(names, read_number(amount))),
        Ok(None) => Ok(None),
        Err(error) => Err(error),
    }
}

fn issue_of(names: (Name, Name), amount: Option<u64>) -> Option<StockLine>
    ensures { result ≡ issue_of names amount }
{
    let amount = amount?;
    let (asset, name) = names;
    Some(StockLine::Order(Order::Issue {
        asset,
        name,
        amount,
    }))
}

/// `pay`, an asset, two names and an amount
fn read_pay(alloc: Global, tokens: &[Token<'_>]) -> Result<Option<StockLine>, AllocError>
    ensures line { IfOk result (λ o. o ≡ read_pay tokens.now) }
{
    let [asset, from, to, amount] = tokens else {
        return Ok(None);
    };
    pay_in(alloc, asset.text(), from.text(), to.text(), amount.text())
}

fn pay_in(
    alloc: Global,
    asset: &[u8],
    from: &[u8],
    to: &[u8],
    amount: &[u8],
) -> Result<Option<StockLine>, AllocError>
    ensures line { IfOk result (λ o. o ≡ pay_in asset.now from.now to.now amount.now) }
{
    match read_parties(alloc, asset, from, to) {
        Ok(Some(parties)) => Ok(pay_of(parties, read_number(amount))),
        Ok(None) => Ok(None),
        Err(error) => Err(error),
    }
}

fn pay_of(parties: Parties, amount: Option<u64>) -> Option<StockLine>
    ensures { result ≡ pay_of parties amount }
{
    let amount = amount?;
    let Parties { asset, one, other } = parties;
    Some(StockLine::Order(Order::Pay {
        asset,
        from: one,
        to: other,
        amount,
    }))
}

/// `trade`, an asset, two names, a quantity and a price
fn read_trade(alloc: Global, tokens: &[Token<'_>]) -> Result<Option<StockLine>, AllocError>
    ensures line { IfOk result (λ o. o ≡ read_trade tokens.now) }
{
    let [asset, buyer, seller, quantity, price] = tokens else {
        return Ok(None);
    };
    trade_in(
        alloc,
        asset.text(),
        buyer.text(),
        seller.text(),
        quantity.text(),
        price.text(),
    )
}

fn trade_in(
    alloc: Global,
    asset: &[u8],
    buyer: &[u8],
    seller: &[u8],
    quantity: &[u8],
    price: &[u8],
) -> Result<Option<StockLine>, AllocError>
    ensures line { IfOk result (λ o. o ≡ trade_in asset.now buyer.now seller.now quantity.now price.now) }
{
    match read_parties(alloc, asset, buyer, seller) {
        Ok(Some(parties)) => Ok(trade_of(parties, read_number(quantity), read_number(price))),
        Ok(None) => Ok(None),
        Err(error) => Err(error),
    }
}

fn trade_of(parties: Parties, quantity: Option<u64>, price: Option<u64>) -> Option<StockLine>
    ensures { result ≡ trade_of parties quantity price }
{
    let quantity = quantity?;
    let price = price?;
    let Parties { asset, one, other } = parties;
    Some(StockLine::Order(Order::Trade {
        asset,
        buyer: one,
        seller: other,
        quantity,
        price,
    }))
}

/// `total` and an asset
fn read_total(alloc: Global, tokens: &[Token<'_>]) -> Result<Option<StockLine>, AllocError>
    ensures line { IfOk result (λ o. o ≡ read_total tokens.now) }
{
    let [asset] = tokens else {
        return Ok(None);
    };
    match read_name(alloc, asset.text())? {
        Some(asset) => Ok(Some(StockLine::Total(asset))),
        None => Ok(None),
    }
}

/// The names that three tokens are.
fn read_parties(
    alloc: Global,
    asset: &[u8],
    one: &[u8],
    other: &[u8],
) -> Result<Option<Parties>, AllocError>
    ensures names { IfOk result (λ o. o ≡ parties_in asset.now one.now other.now) }
{
    match read_pair(alloc, one, other) {
        Ok(Some(pair)) => with_asset(alloc, asset, pair),
        Ok(None) => Ok(None),
        Err(error) => Err(error),
    }
}

fn with_asset(
    alloc: Global,
    asset: &[u8],
    pair: (Name, Name),
) -> Result<Option<Parties>, AllocError>
    ensures names { IfOk result (λ o. o ≡ option_map (parties_of pair) (name_of asset.now)) }
{
    match read_name(alloc, asset) {
        Ok(Some(asset)) => {
            let (one, other) = pair;
            Ok(Some(Parties { asset, one, other }))
        }
        Ok(None) => Ok(None),
        Err(error) => Err(error),
    }
}

/// The names that two tokens are.
fn read_pair(alloc: Global, first: &[u8], second: &[u8]) -> Result<Option<(Name, Name)>, AllocError>
    ensures names { IfOk result (λ o. o ≡ pair_in first.now second.now) }
{
    let Some(first) = read_name(alloc, first)? else {
        return Ok(None);
    };
    match read_name(alloc, second) {
        Ok(Some(second)) => Ok(Some((first, second))),
        Ok(None) => {
            drop(first);
            Ok(None)
        }
        Err(error) => {
            drop(first);
            Err(error)
        }
    }
}

/// The name that a token is.
fn read_name(alloc: Global, token: &[u8]) -> Result<Option<Name>, AllocError>
    ensures name { IfOk result (λ o. o ≡ name_of token.now) }
{
    Ok(Name::new(Bytes::copy_from_slice(alloc, token)?))
}
