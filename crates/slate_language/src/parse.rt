//! The meaning of a line.
ghost use Rattle.std.specs.Prelude.{◌≡◌, ◌⊎◌, ◌≤◌, ◌∷◌, [], Ok, Some, None, IfOk, IfSome, IfErr, codes, length, option_map, true, false};
ghost use Rattle.slate_language.specs.Parse.{parse, tokens_of, grouped, both, many_keyed, read_all, read_bytes, read_bound, read_level, read_name, read_order, read_pair, read_step, read_ttl, read_way};
ghost use Rattle.slate_language.specs.Built.{keyword, keyword_among, writing, marking, unnamed, built_begin, built_snapshot, built_get, built_scan, built_prefix, built_put, built_merge, built_delete, built_mark, built_unmark, built_commit, built_rollback, built_now, built_write, built_alone, built_as, built_tokens};
ghost use Rattle.slate_language.specs.Built.{is_op_word, built_put_op, built_merge_op, built_delete_op, built_op, built_ops};
ghost use Rattle.slate_language.specs.Replies.{is_silent};

use crate::token::{
    Token, is_word, read_bound, read_bytes, read_moment, read_name, read_step, read_ttl,
    split_tokens,
};
use bytes::Bytes;
use slate_mem::WriteOp;
use slate_txn::{KeyList, Line, OpList, StepList};
use slate_types::{IsolationLevel, IterationOrder, MergeOptions, PutOptions, SlateDBError, Ttl};
use std::alloc::{AllocError, Global};
use std::ops::Bound;

/// The first word of a line.
#[derive(Clone, Copy)]
enum Keyword {
    Begin,
    Snapshot,
    Get,
    Scan,
    Prefix,
    Put,
    Merge,
    Delete,
    Mark,
    Unmark,
    Commit,
    Rollback,
    Now,
    Write,
    Freeze,
    Flush,
    Journal,
}

/// What the line means; None for an empty line and a comment. `ScriptSyntax`, with line number 0, comes
/// exactly where the line is none of these. The meaning's names, and its keys and values of text, share the
/// line's buffer.
#[tactic(auto, using(crate::proofs::BuiltLaws::parse_built))]
pub fn parse_line(alloc: Global, line: Vec<u8>) -> Result<Option<Line>, SlateDBError>
    ensures meant { IfOk result (λ o. IfSome o (λ l. (is_silent line.items ≡ false) × (parse line.items ≡ Some l))) }
    ensures silent { result ≡ Ok None → is_silent line.items ≡ true }
    ensures cause { IfErr result (λ e. (e ≡ SlateDBError.OutOfMemory) ⊎ ((e ≡ SlateDBError.ScriptSyntax 0) × (is_silent line.items ≡ false) × (parse line.items ≡ None))) }
{
    if is_silent(line.as_slice()) {
        return Ok(None);
    }
    match read_text(alloc, line)? {
        Some(meaning) => Ok(Some(meaning)),
        None => Err(SlateDBError::ScriptSyntax { line: 0 }),
    }
}

/// Whether the line is empty or a comment.
fn is_silent(line: &[u8]) -> bool
    ensures { result ≡ is_silent line.now }
{
    line.first().is_none_or(|byte| *byte == b'#')
}

/// The line that the text means, if any. Its names, and its keys and values of text, share the text's buffer.
fn read_text(alloc: Global, text: Vec<u8>) -> Result<Option<Line>, AllocError>
    ensures line { IfOk result (λ o. o ≡ built_tokens (tokens_of text.items)) }
{
    let text = Bytes::from_vec(text)?;
    let line = read_shared(alloc, &text);
    drop(text);
    line
}

/// The line that the text means, if any, in the text's buffer.
fn read_shared(alloc: Global, text: &Bytes) -> Result<Option<Line>, AllocError>
    ensures line { IfOk result (λ o. o ≡ built_tokens (tokens_of text.now)) }
{
    let tokens = split_tokens(alloc, text)?;
    let line = read_line(alloc, tokens.as_slice());
    drop(tokens);
    line
}

/// The line that the tokens mean, if any.
fn read_line(alloc: Global, tokens: &[Token<'_>]) -> Result<Option<Line>, AllocError>
    ensures line { IfOk result (λ o. o ≡ built_tokens tokens.now) }
{
    let Some((word, rest)) = tokens.split_first() else {
        return Ok(None);
    };
    match read_keyword(word.text()) {
        Some(keyword) => read_as(alloc, keyword, rest),
        None => Ok(None),
    }
}

fn read_keyword(token: &[u8]) -> Option<Keyword>
    ensures { result ≡ keyword token.now }
{
    if is_word(token, b"begin") {
        Some(Keyword::Begin)
    } else if is_word(token, b"snapshot") {
        Some(Keyword::Snapshot)
    } else if is_word(token, b"get") {
        Some(Keyword::Get)
    } else if is_word(token, b"scan") {
        Some(Keyword::Scan)
    } else if is_word(token, b"prefix") {
        Some(Keyword::Prefix)
    } else {
        read_writing(token)
    }
}

/// The words of operations of a transaction, of other lines that name one, and of those that name none.
fn read_writing(token: &[u8]) -> Option<Keyword>
    ensures { result ≡ keyword_among writing token.now }
{
    if is_word(token, b"put") {
        Some(Keyword::Put)
    } else if is_word(token, b"merge") {
        Some(Keyword::Merge)
    } else if is_word(token, b"delete") {
        Some(Keyword::Delete)
    } else {
        read_marking(token)
    }
}

/// The other words of lines that name a transaction, and those of lines that name none.
fn read_marking(token: &[u8]) -> Option<Keyword>
    ensures { result ≡ keyword_among marking token.now }
{
    if is_word(token, b"mark") {
        Some(Keyword::Mark)
    } else if is_word(token, b"unmark") {
        Some(Keyword::Unmark)
    } else if is_word(token, b"commit") {
        Some(Keyword::Commit)
    } else if is_word(token, b"rollback") {
        Some(Keyword::Rollback)
    } else {
        read_unnamed(token)
    }
}

/// The words of lines that name no transaction.
fn read_unnamed(token: &[u8]) -> Option<Keyword>
    ensures { result ≡ keyword_among unnamed token.now }
{
    if is_word(token, b"now") {
        Some(Keyword::Now)
    } else if is_word(token, b"write") {
        Some(Keyword::Write)
    } else if is_word(token, b"freeze") {
        Some(Keyword::Freeze)
    } else if is_word(token, b"flush") {
        Some(Keyword::Flush)
    } else if is_word(token, b"journal") {
        Some(Keyword::Journal)
    } else {
        None
    }
}

/// The line of the word and the tokens behind it.
fn read_as(
    alloc: Global,
    keyword: Keyword,
    tokens: &[Token<'_>],
) -> Result<Option<Line>, AllocError>
    ensures line { IfOk result (λ o. o ≡ built_as keyword tokens.now) }
{
    match keyword {
        Keyword::Begin => read_begin(tokens),
        Keyword::Snapshot => read_snapshot(tokens),
        Keyword::Get => read_get(alloc, tokens),
        Keyword::Scan => read_scan(alloc, tokens),
        Keyword::Prefix => read_prefix(alloc, tokens),
        Keyword::Put => read_put(alloc, tokens),
        Keyword::Merge => read_merge(alloc, tokens),
        Keyword::Delete => read_delete(alloc, tokens),
        Keyword::Mark => read_mark(alloc, tokens),
        Keyword::Unmark => read_unmark(alloc, tokens),
        Keyword::Commit => read_commit(tokens),
        Keyword::Rollback => read_rollback(tokens),
        Keyword::Now => Ok(read_now(tokens)),
        Keyword::Write => read_write(alloc, tokens),
        Keyword::Freeze => Ok(read_freeze(tokens)),
        Keyword::Flush => Ok(read_flush(tokens)),
        Keyword::Journal => Ok(read_journal(tokens)),
    }
}

/// `now` and a moment
fn read_now(tokens: &[Token<'_>]) -> Option<Line>
    ensures { result ≡ built_now tokens.now }
{
    let [moment] = tokens else {
        return None;
    };
    let moment = read_moment(moment.text())?;
    Some(Line::Now { moment })
}

/// `begin N si` or `begin N ssi`
fn read_begin(tokens: &[Token<'_>]) -> Result<Option<Line>, AllocError>
    ensures line { IfOk result (λ o. o ≡ built_begin tokens.now) }
{
    let [name, level] = tokens else {
        return Ok(None);
    };
    let Some(level) = read_level(level.text()) else {
        return Ok(None);
    };
    match cut_name(name)? {
        Some(name) => Ok(Some(Line::Begin { name, level })),
        None => Ok(None),
    }
}

/// The name, cut out of its line.
fn cut_name(token: &Token<'_>) -> Result<Option<Bytes>, AllocError>
    ensures name { IfOk result (λ o. o ≡ read_name token.now) }
{
    match read_name(token.text()) {
        Some(_) => Ok(Some(token.cut()?)),
        None => Ok(None),
    }
}

fn read_level(token: &[u8]) -> Option<IsolationLevel>
    ensures { result ≡ read_level token.now }
{
    if is_word(token, b"si") {
        Some(IsolationLevel::Snapshot)
    } else if is_word(token, b"ssi") {
        Some(IsolationLevel::SerializableSnapshot)
    } else {
        None
    }
}

/// `snapshot N`
fn read_snapshot(tokens: &[Token<'_>]) -> Result<Option<Line>, AllocError>
    ensures line { IfOk result (λ o. o ≡ built_snapshot tokens.now) }
{
    let [name] = tokens else {
        return Ok(None);
    };
    match cut_name(name)? {
        Some(name) => Ok(Some(Line::Snapshot { name })),
        None => Ok(None),
    }
}

/// `get N K`
fn read_get(alloc: Global, tokens: &[Token<'_>]) -> Result<Option<Line>, AllocError>
    ensures line { IfOk result (λ o. o ≡ built_get tokens.now) }
{
    let [name, key] = tokens else {
        return Ok(None);
    };
    match read_named(alloc, name, key)? {
        Some((name, key)) => Ok(Some(Line::Get { name, key })),
        None => Ok(None),
    }
}

/// The name of one token and the bytes of another.
fn read_named(
    alloc: Global,
    name: &Token<'_>,
    key: &Token<'_>,
) -> Result<Option<(Bytes, Bytes)>, AllocError>
    ensures pair { IfOk result (λ o. o ≡ both (λ n k. (n, k)) (read_name name.now) (read_bytes key.now)) }
{
    let Some(key) = read_bytes(alloc, key)? else {
        return Ok(None);
    };
    match cut_name(name) {
        Ok(Some(name)) => Ok(Some((name, key))),
        Ok(None) => {
            drop(key);
            Ok(None)
        }
        Err(error) => {
            drop(key);
            Err(error)
        }
    }
}

/// `scan N <order> B B`, and maybe steps
fn read_scan(alloc: Global, tokens: &[Token<'_>]) -> Result<Option<Line>, AllocError>
    ensures line { IfOk result (λ o. o ≡ built_scan tokens.now) }
{
    let [name, order, rest @ ..] = tokens else {
        return Ok(None);
    };
    let Some(order) = read_order(order.text()) else {
        return Ok(None);
    };
    let Some(name) = cut_name(name)? else {
        return Ok(None);
    };
    match read_way(alloc, rest) {
        Ok(Some((start, end, steps))) => Ok(Some(Line::Scan {
            name,
            order,
            start,
            end,
            steps,
        })),
        Ok(None) => {
            drop(name);
            Ok(None)
        }
        Err(error) => {
            drop(name);
            Err(error)
        }
    }
}

/// `prefix N <order> K B B`, and maybe steps
fn read_prefix(alloc: Global, tokens: &[Token<'_>]) -> Result<Option<Line>, AllocError>
    ensures line { IfOk result (λ o. o ≡ built_prefix tokens.now) }
{
    let [name, order, prefix, rest @ ..] = tokens else {
        return Ok(None);
    };
    let Some(order) = read_order(order.text()) else {
        return Ok(None);
    };
    let Some((name, prefix)) = read_named(alloc, name, prefix)? else {
        return Ok(None);
    };
    match read_way(alloc, rest) {
        Ok(Some((start, end, steps))) => Ok(Some(Line::Prefix {
            name,
            order,
            prefix,
            start,
            end,
            steps,
        })),
        Ok(None) => {
            drop((name, prefix));
            Ok(None)
        }
        Err(error) => {
            drop((name, prefix));
            Err(error)
        }
    }
}

fn read_order(token: &[u8]) -> Option<IterationOrder>
    ensures { result ≡ read_order token.now }
{
    if is_word(token, b"asc") {
        Some(IterationOrder::Ascending)
    } else if is_word(token, b"desc") {
        Some(IterationOrder::Descending)
    } else {
        None
    }
}

/// Two bounds, and maybe steps
fn read_way(
    alloc: Global,
    tokens: &[Token<'_>],
) -> Result<Option<(Bound<Bytes>, Bound<Bytes>, StepList)>, AllocError>
    ensures way { IfOk result (λ o. o ≡ read_way (λ start end steps. (start, end, steps)) tokens.now) }
{
    let [start, end, rest @ ..] = tokens else {
        return Ok(None);
    };
    let Some(steps) = read_steps(alloc, rest)? else {
        return Ok(None);
    };
    match read_bounds(alloc, start, end) {
        Ok(Some((start, end))) => Ok(Some((start, end, steps))),
        Ok(None) => {
            drop(steps);
            Ok(None)
        }
        Err(error) => {
            drop(steps);
            Err(error)
        }
    }
}

/// The bounds of two tokens.
fn read_bounds(
    alloc: Global,
    start: &Token<'_>,
    end: &Token<'_>,
) -> Result<Option<(Bound<Bytes>, Bound<Bytes>)>, AllocError>
    ensures bounds { IfOk result (λ o. o ≡ both (λ a b. (a, b)) (read_bound start.now) (read_bound end.now)) }
{
    let Some(start) = read_bound(alloc, start)? else {
        return Ok(None);
    };
    match read_bound(alloc, end) {
        Ok(Some(end)) => Ok(Some((start, end))),
        Ok(None) => {
            drop(start);
            Ok(None)
        }
        Err(error) => {
            drop(start);
            Err(error)
        }
    }
}

/// The step of each token.
fn read_steps(alloc: Global, tokens: &[Token<'_>]) -> Result<Option<StepList>, AllocError>
    ensures steps { IfOk result (λ o. o ≡ read_all read_step tokens.now) }
{
    let mut steps = Vec::new(alloc);
    for token in tokens {
        let Some(step) = read_step(alloc, token)? else {
            return Ok(None);
        };
        steps.push(step)?;
    }
    Ok(Some(StepList::from_vec(steps)))
}

/// `put N K V`, and maybe a time to live
fn read_put(alloc: Global, tokens: &[Token<'_>]) -> Result<Option<Line>, AllocError>
    ensures line { IfOk result (λ o. o ≡ built_put tokens.now) }
{
    let Some((name, rest)) = tokens.split_first() else {
        return Ok(None);
    };
    let Some(name) = cut_name(name)? else {
        return Ok(None);
    };
    match read_pair(alloc, rest) {
        Ok(Some((key, value, ttl))) => Ok(Some(Line::Put {
            name,
            key,
            value,
            ttl,
        })),
        Ok(None) => {
            drop(name);
            Ok(None)
        }
        Err(error) => {
            drop(name);
            Err(error)
        }
    }
}

/// `merge N K V`, and maybe a time to live
fn read_merge(alloc: Global, tokens: &[Token<'_>]) -> Result<Option<Line>, AllocError>
    ensures line { IfOk result (λ o. o ≡ built_merge tokens.now) }
{
    let Some((name, rest)) = tokens.split_first() else {
        return Ok(None);
    };
    let Some(name) = cut_name(name)? else {
        return Ok(None);
    };
    match read_pair(alloc, rest) {
        Ok(Some((key, value, ttl))) => Ok(Some(Line::Merge {
            name,
            key,
            value,
            ttl,
        })),
        Ok(None) => {
            drop(name);
            Ok(None)
        }
        Err(error) => {
            drop(name);
            Err(error)
        }
    }
}

/// `delete N K`
fn read_delete(alloc: Global, tokens: &[Token<'_>]) -> Result<Option<Line>, AllocError>
    ensures line { IfOk result (λ o. o ≡ built_delete tokens.now) }
{
    let [name, key] = tokens else {
        return Ok(None);
    };
    match read_named(alloc, name, key)? {
        Some((name, key)) => Ok(Some(Line::Delete { name, key })),
        None => Ok(None),
    }
}

/// `mark N K..`
fn read_mark(alloc: Global, tokens: &[Token<'_>]) -> Result<Option<Line>, AllocError>
    ensures line { IfOk result (λ o. o ≡ built_mark tokens.now) }
{
    match read_many(alloc, tokens)? {
        Some((name, keys)) => Ok(Some(Line::Mark { name, keys })),
        None => Ok(None),
    }
}

/// `unmark N K..`
fn read_unmark(alloc: Global, tokens: &[Token<'_>]) -> Result<Option<Line>, AllocError>
    ensures line { IfOk result (λ o. o ≡ built_unmark tokens.now) }
{
    match read_many(alloc, tokens)? {
        Some((name, keys)) => Ok(Some(Line::Unmark { name, keys })),
        None => Ok(None),
    }
}

/// A name, and one key or more
fn read_many(alloc: Global, tokens: &[Token<'_>]) -> Result<Option<(Bytes, KeyList)>, AllocError>
    ensures pair { IfOk result (λ o. o ≡ many_keyed (λ n ks. (n, ks)) tokens.now) }
{
    let Some((name, keys)) = tokens.split_first() else {
        return Ok(None);
    };
    if keys.is_empty() {
        return Ok(None);
    }
    let Some(keys) = read_keys(alloc, keys)? else {
        return Ok(None);
    };
    match cut_name(name) {
        Ok(Some(name)) => Ok(Some((name, keys))),
        Ok(None) => {
            drop(keys);
            Ok(None)
        }
        Err(error) => {
            drop(keys);
            Err(error)
        }
    }
}

/// The bytes of each token.
fn read_keys(alloc: Global, tokens: &[Token<'_>]) -> Result<Option<KeyList>, AllocError>
    ensures keys { IfOk result (λ o. o ≡ read_all read_bytes tokens.now) }
{
    let mut keys = Vec::new(alloc);
    for token in tokens {
        let Some(key) = read_bytes(alloc, token)? else {
            return Ok(None);
        };
        keys.push(key)?;
    }
    Ok(Some(KeyList::from_vec(keys)))
}

/// `commit N`
fn read_commit(tokens: &[Token<'_>]) -> Result<Option<Line>, AllocError>
    ensures line { IfOk result (λ o. o ≡ built_commit tokens.now) }
{
    let [name] = tokens else {
        return Ok(None);
    };
    match cut_name(name)? {
        Some(name) => Ok(Some(Line::Commit { name })),
        None => Ok(None),
    }
}

/// `rollback N`
fn read_rollback(tokens: &[Token<'_>]) -> Result<Option<Line>, AllocError>
    ensures line { IfOk result (λ o. o ≡ built_rollback tokens.now) }
{
    let [name] = tokens else {
        return Ok(None);
    };
    match cut_name(name)? {
        Some(name) => Ok(Some(Line::Rollback { name })),
        None => Ok(None),
    }
}

/// `write` and operations
fn read_write(alloc: Global, tokens: &[Token<'_>]) -> Result<Option<Line>, AllocError>
    ensures line { IfOk result (λ o. o ≡ built_write tokens.now) }
{
    match read_ops(alloc, tokens)? {
        Some(ops) => Ok(Some(Line::Write {
            ops: OpList::from_vec(ops),
        })),
        None => Ok(None),
    }
}

/// `freeze`
fn read_freeze(tokens: &[Token<'_>]) -> Option<Line>
    ensures { result ≡ built_alone Line.Freeze tokens.now }
{
    match tokens {
        [] => Some(Line::Freeze),
        _ => None,
    }
}

/// `flush`
fn read_flush(tokens: &[Token<'_>]) -> Option<Line>
    ensures { result ≡ built_alone Line.Flush tokens.now }
{
    match tokens {
        [] => Some(Line::Flush),
        _ => None,
    }
}

/// `journal`
fn read_journal(tokens: &[Token<'_>]) -> Option<Line>
    ensures { result ≡ built_alone Line.Journal tokens.now }
{
    match tokens {
        [] => Some(Line::Journal),
        _ => None,
    }
}

/// The operations, each a word with the tokens up to the next such word.
fn read_ops(
    alloc: Global,
    tokens: &[Token<'_>],
) -> Result<Option<Vec<(Bytes, WriteOp)>>, AllocError>
    ensures ops { IfOk result (λ o. option_map (λ v. v.items) o ≡ built_ops tokens.now) }
{
    let mut ops = Vec::new(alloc);
    let mut at = 0;
    while at < tokens.len() {
        let end = at + 1 + own_len(&tokens[at + 1..]);
        let Some(op) = read_op(alloc, tokens[at].text(), &tokens[at + 1..end])? else {
            return Ok(None);
        };
        ops.push(op)?;
        at = end;
    }
    Ok(Some(ops))
}

/// How many tokens stand before the next word of an operation.
fn own_len(tokens: &[Token<'_>]) -> usize
    ensures len { result ≡ length (grouped tokens.now).0 }
    ensures within { result ≤ length tokens.now }
{
    for (i, token) in tokens.iter().enumerate() {
        if is_op_word(token.text()) {
            return i;
        }
    }
    tokens.len()
}

fn is_op_word(token: &[u8]) -> bool
    ensures { result ≡ is_op_word token.now }
{
    is_word(token, b"put") || is_word(token, b"merge") || is_word(token, b"delete")
}

/// An operation: its word, and the tokens behind it.
fn read_op(
    alloc: Global,
    word: &[u8],
    tokens: &[Token<'_>],
) -> Result<Option<(Bytes, WriteOp)>, AllocError>
    ensures op { IfOk result (λ o. o ≡ built_op word.now tokens.now) }
{
    if is_word(word, b"put") {
        read_put_op(alloc, tokens)
    } else if is_word(word, b"merge") {
        read_merge_op(alloc, tokens)
    } else if is_word(word, b"delete") {
        read_delete_op(alloc, tokens)
    } else {
        Ok(None)
    }
}

/// `K V`, and maybe a time to live
fn read_put_op(alloc: Global, tokens: &[Token<'_>]) -> Result<Option<(Bytes, WriteOp)>, AllocError>
    ensures op { IfOk result (λ o. o ≡ built_put_op tokens.now) }
{
    match read_pair(alloc, tokens)? {
        Some((key, value, ttl)) => Ok(Some((key, WriteOp::Put(value, PutOptions { ttl })))),
        None => Ok(None),
    }
}

/// `K V`, and maybe a time to live
fn read_merge_op(
    alloc: Global,
    tokens: &[Token<'_>],
) -> Result<Option<(Bytes, WriteOp)>, AllocError>
    ensures op { IfOk result (λ o. o ≡ built_merge_op tokens.now) }
{
    match read_pair(alloc, tokens)? {
        Some((key, value, ttl)) => Ok(Some((key, WriteOp::Merge(value, MergeOptions { ttl })))),
        None => Ok(None),
    }
}

/// A key, a value, and maybe a time to live
fn read_pair(alloc: Global, tokens: &[Token<'_>]) -> Result<Option<(Bytes, Bytes, Ttl)>, AllocError>
    ensures pair { IfOk result (λ o. o ≡ read_pair (λ k v ttl. (k, v, ttl)) tokens.now) }
{
    let [key, value, rest @ ..] = tokens else {
        return Ok(None);
    };
    let Some(ttl) = read_last_ttl(rest) else {
        return Ok(None);
    };
    match read_two(alloc, key, value)? {
        Some((key, value)) => Ok(Some((key, value, ttl))),
        None => Ok(None),
    }
}

/// The bytes of two byte tokens.
fn read_two(
    alloc: Global,
    first: &Token<'_>,
    second: &Token<'_>,
) -> Result<Option<(Bytes, Bytes)>, AllocError>
    ensures bytes { IfOk result (λ o. o ≡ both (λ a b. (a, b)) (read_bytes first.now) (read_bytes second.now)) }
{
    let Some(first) = read_bytes(alloc, first)? else {
        return Ok(None);
    };
    match read_bytes(alloc, second) {
        Ok(Some(second)) => Ok(Some((first, second))),
        Ok(None) => {
            drop(first);
            Ok(None)
        }
        Err(error) => {
            drop(first);
            Err(error)
        }
    }
}

/// The time to live where there is one, and else the default.
fn read_last_ttl(tokens: &[Token<'_>]) -> Option<Ttl>
    ensures { result ≡ read_ttl tokens.now }
{
    match tokens {
        [] => Some(Ttl::Default),
        [ttl] => read_ttl(ttl.text()),
        _ => None,
    }
}

/// `K`
fn read_delete_op(
    alloc: Global,
    tokens: &[Token<'_>],
) -> Result<Option<(Bytes, WriteOp)>, AllocError>
    ensures op { IfOk result (λ o. o ≡ built_delete_op tokens.now) }
{
    let [key] = tokens else {
        return Ok(None);
    };
    match read_bytes(alloc, key)? {
        Some(key) => Ok(Some((key, WriteOp::Delete))),
        None => Ok(None),
    }
}
