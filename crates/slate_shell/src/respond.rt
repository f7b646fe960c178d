//! The response to a line that a person types.
ghost use Rattle.std.specs.Prelude.{◌≡◌, IfOk, IsTrue, map};
ghost use Rattle.slate_types.specs.Config.{IsValid};
ghost use Rattle.slate_filter.specs.Laws.{AreValidNames};
ghost use Rattle.slate_txn.specs.declared.line.Line.{Line};
ghost use Rattle.slate_db.specs.Flushed.{layout_of};
ghost use Rattle.slate_db.specs.Meaning.{segments_by};
ghost use Rattle.slate_script.specs.Session.{has_moment};
ghost use Rattle.slate_shell.specs.Typed.{HasMoment, Otherwise, ReadsAlone, Responds, own_name, read_under};

use crate::answers::answer;
use crate::reading::{Typed, read_typed};
use crate::spelling::{SpellingError, respell};
use crate::wrong::find_wrong;
use bytes::Bytes;
use slate_db::laws::Laws;
use slate_script::Session;
use slate_store::{Env, EnvOf, Store};
use slate_txn::line::Line;
use slate_types::{BlockTransformer, MergeOperator, Outside, PrefixExtractor, SlateDBError};
use std::alloc::{AllocError, Global};

/// The name of the snapshot that a read without one is made in. No line of the language has it.
const OWN_NAME: &[u8] = b"?";

/// Returns what is written for the line with this number, which is nothing for a silent one. A line
/// of the language is answered as the model answers it. Another one is spelled anew if it has a
/// quoted text, is a read without a name if it begins as one, and is else told to be wrong, and
/// changes nothing. Errors are those of `Session::answer`.
pub fn respond<S: Store, M: MergeOperator, T: BlockTransformer, X: PrefixExtractor>(
    alloc: Global,
    session: &mut Session,
    typed: &[u8],
    number: u64,
    env: &mut Env<'_, S, M, T>,
    laws: &Laws<X>,
) -> Result<Vec<u8>, SlateDBError>
    requires valid { IsValid laws.now.options }
    requires names { AreValidNames
        (map (λ p. (meaning (p.vtable, p.value)).name) laws.now.policies.items) }
    ensures { let reach = ⟦<EnvOf<S, M, T> as Outside>⟧.reach in
        let policies = map (λ p. meaning (p.vtable, p.value)) laws.now.policies.items in
        let seg = segments_by X.lengths laws.now.segments in
        let layout = layout_of laws.now.options policies seg in
        Responds layout typed.now (reach env.old) (reach env.new) session.old session.new result }
{
    let read = read_typed(alloc, typed)?;
    match read {
        Typed::Meant(line) => answer(alloc, session, line, env, laws),
        Typed::Silent => Ok(Vec::new(alloc)),
        Typed::Other => respond_otherwise(alloc, session, typed, number, env, laws),
    }
}

/// Returns what is written for a line that isn't one of the language as it stands.
fn respond_otherwise<S: Store, M: MergeOperator, T: BlockTransformer, X: PrefixExtractor>(
    alloc: Global,
    session: &mut Session,
    typed: &[u8],
    number: u64,
    env: &mut Env<'_, S, M, T>,
    laws: &Laws<X>,
) -> Result<Vec<u8>, SlateDBError>
    requires valid { IsValid laws.now.options }
    requires names { AreValidNames
        (map (λ p. (meaning (p.vtable, p.value)).name) laws.now.policies.items) }
    ensures { let reach = ⟦<EnvOf<S, M, T> as Outside>⟧.reach in
        let policies = map (λ p. meaning (p.vtable, p.value)) laws.now.policies.items in
        let seg = segments_by X.lengths laws.now.segments in
        let layout = layout_of laws.now.options policies seg in
        Otherwise layout (reach env.old) (reach env.new) session.old session.new result }
{
    let spelled = match respell(alloc, typed) {
        Ok(spelled) => spelled,
        Err(SpellingError::OutOfMemory) => return Err(SlateDBError::OutOfMemory),
        Err(error) => return Ok(told(alloc, number, None, error.expected())?),
    };
    let read = read_typed(alloc, spelled.as_slice())?;
    match read {
        Typed::Meant(line) => answer(alloc, session, line, env, laws),
        _ => respond_to_read(alloc, session, spelled.as_slice(), number, env, laws),
    }
}

/// Returns what is written for a line that is a read without a name, or is wrong.
fn respond_to_read<S: Store, M: MergeOperator, T: BlockTransformer, X: PrefixExtractor>(
    alloc: Global,
    session: &mut Session,
    line: &[u8],
    number: u64,
    env: &mut Env<'_, S, M, T>,
    laws: &Laws<X>,
) -> Result<Vec<u8>, SlateDBError>
    requires valid { IsValid laws.now.options }
    requires names { AreValidNames
        (map (λ p. (meaning (p.vtable, p.value)).name) laws.now.policies.items) }
    ensures { let reach = ⟦<EnvOf<S, M, T> as Outside>⟧.reach in
        let policies = map (λ p. meaning (p.vtable, p.value)) laws.now.policies.items in
        let seg = segments_by X.lengths laws.now.segments in
        let layout = layout_of laws.now.options policies seg in
        Otherwise layout (reach env.old) (reach env.new) session.old session.new result }
{
    let read = read_named(alloc, line)?;
    match read {
        Typed::Meant(named) => read_alone(alloc, session, named, env, laws),
        _ => Ok(wrong(alloc, line, number)?),
    }
}

/// The line with a name after its first word, as the language reads it, if that is a read.
fn read_named(alloc: Global, line: &[u8]) -> Result<Typed, SlateDBError>
    ensures { IfOk result HasMoment }
{
    match named(alloc, line)? {
        Some(named) => read_typed(alloc, named.as_slice()),
        None => Ok(Typed::Other),
    }
}

fn named(alloc: Global, line: &[u8]) -> Result<Option<Vec<u8>>, AllocError> {
    for word in [
        b"get ".as_slice(),
        b"scan ".as_slice(),
        b"prefix ".as_slice(),
    ] {
        if let Some(rest) = line.strip_prefix(word) {
            let mut named = Vec::from_slice(alloc, word)?;
            named.extend_from_slice(b"x ")?;
            named.extend_from_slice(rest)?;
            return Ok(Some(named));
        }
    }
    Ok(None)
}

/// Answers a read in a snapshot of its own, as the store is now.
fn read_alone<S: Store, M: MergeOperator, T: BlockTransformer, X: PrefixExtractor>(
    alloc: Global,
    session: &mut Session,
    line: Line,
    env: &mut Env<'_, S, M, T>,
    laws: &Laws<X>,
) -> Result<Vec<u8>, SlateDBError>
    requires moment { IsTrue (has_moment line) }
    requires valid { IsValid laws.now.options }
    requires names { AreValidNames
        (map (λ p. (meaning (p.vtable, p.value)).name) laws.now.policies.items) }
    ensures { let reach = ⟦<EnvOf<S, M, T> as Outside>⟧.reach in
        let policies = map (λ p. meaning (p.vtable, p.value)) laws.now.policies.items in
        let seg = segments_by X.lengths laws.now.segments in
        let layout = layout_of laws.now.options policies seg in
        IfOk result
        (ReadsAlone layout line (reach env.old) (reach env.new) session.old session.new) }
{
    let opening = opening(alloc)?;
    let closing = closing(alloc)?;
    let read = read_under(alloc, line)?;
    let opened = answer(alloc, session, opening, env, laws)?;
    drop(opened);
    let text = answer(alloc, session, read, env, laws)?;
    let closed = answer(alloc, session, closing, env, laws)?;
    drop(closed);
    Ok(text)
}

/// The line that opens the snapshot.
fn opening(alloc: Global) -> Result<Line, AllocError>
    ensures line { IfOk result (λ l. l ≡ Line.Snapshot own_name) }
    ensures moment { IfOk result (λ l. IsTrue (has_moment l)) }
{
    let name = Bytes::copy_from_slice(alloc, OWN_NAME)?;
    Ok(Line::Snapshot { name })
}

/// The line that closes it.
fn closing(alloc: Global) -> Result<Line, AllocError>
    ensures line { IfOk result (λ l. l ≡ Line.Rollback own_name) }
    ensures moment { IfOk result (λ l. IsTrue (has_moment l)) }
{
    let name = Bytes::copy_from_slice(alloc, OWN_NAME)?;
    Ok(Line::Rollback { name })
}

/// The read in the snapshot.
fn read_under(alloc: Global, line: Line) -> Result<Line, AllocError>
    requires { IsTrue (has_moment line) }
    ensures line { IfOk result (λ l. l ≡ read_under own_name line) }
    ensures moment { IfOk result (λ l. IsTrue (has_moment l)) }
{
    let name = Bytes::copy_from_slice(alloc, OWN_NAME)?;
    Ok(under(line, name))
}

/// The read under this name.
fn under(line: Line, name: Bytes) -> Line
    ensures line { result ≡ read_under name line }
    ensures moment { IsTrue (has_moment line) → IsTrue (has_moment result) }
{
    match line {
        Line::Get { key, .. } => Line::Get { name, key },
        Line::Scan {
            order,
            start,
            end,
            steps,
            ..
        } => Line::Scan {
            name,
            order,
            start,
            end,
            steps,
        },
        Line::Prefix {
            order,
            prefix,
            start,
            end,
            steps,
            ..
        } => Line::Prefix {
            name,
            order,
            prefix,
            start,
            end,
            steps,
        },
        other => other,
    }
}

/// What is told of a line that is none.
fn wrong(alloc: Global, line: &[u8], number: u64) -> Result<Vec<u8>, AllocError> {
    let mut tokens = Vec::new(alloc);
    for token in line.split(|byte| *byte == b' ') {
        if token.is_empty() {
            return told(
                alloc,
                number,
                None,
                "one space between two tokens, and none at an end",
            );
        }
        tokens.push(token)?;
    }
    let found = find_wrong(tokens.as_slice());
    told(alloc, number, found.token, found.expected)
}

/// `error`, the line's number, the token and what was expected.
fn told(
    alloc: Global,
    number: u64,
    token: Option<&[u8]>,
    expected: &str,
) -> Result<Vec<u8>, AllocError> {
    let mut text = format!(in alloc; "error line {number}: ")?.into_bytes();
    if let Some(token) = token {
        text.extend_from_slice(b"at ")?;
        text.extend_from_slice(token)?;
        text.extend_from_slice(b": ")?;
    }
    text.extend_from_slice(b"expected ")?;
    text.extend_from_slice(expected.as_bytes())?;
    text.push(b'\n')?;
    Ok(text)
}
