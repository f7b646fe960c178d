//! A shell's run.
ghost use Rattle.std.specs.Prelude.{map};
ghost use Rattle.slate_types.specs.Config.{IsValid};
ghost use Rattle.slate_filter.specs.Laws.{AreValidNames};
ghost use Rattle.slate_db.specs.Flushed.{layout_of};
ghost use Rattle.slate_db.specs.Meaning.{segments_by};
ghost use Rattle.slate_shell.specs.Typed.{IsNote, WritesResponse};

use crate::respond::respond;
use crate::spelling::closes_text;
use slate_db::laws::Laws;
use slate_script::Session;
use slate_store::{Env, EnvOf, Lines, Sink, Source, Store, write_all};
use slate_types::{BlockTransformer, MergeOperator, Outside, PrefixExtractor, SlateDBError};
use std::alloc::Global;

/// What is written after the answer to a line with a text that looks closed.
const CLOSED: &[u8] = b"note: a text has no closing ', so the last ' is a byte of it\n";

/// What a shell writes beside its responses.
#[derive(Clone, Copy, Debug)]
pub struct Pages<'a> {
    /// Before each line.
    pub prompt: &'a str,
    /// For the line `help`.
    pub help: &'a str,
}

/// Answers each line of the source into the sink, up to its end or the line `quit`. A line that is
/// wrong is told, and the run goes on. Errors are those of the source, of the sink and of
/// `Session::answer`, which end it.
pub fn run_shell<
    R: Source,
    W: Sink,
    S: Store,
    M: MergeOperator,
    T: BlockTransformer,
    X: PrefixExtractor,
>(
    alloc: Global,
    source: &mut R,
    sink: &mut W,
    env: &mut Env<'_, S, M, T>,
    laws: &Laws<X>,
    pages: Pages<'_>,
) -> Result<(), SlateDBError>
    requires valid { IsValid laws.now.options }
    requires names { AreValidNames
        (map (λ p. (meaning (p.vtable, p.value)).name) laws.now.policies.items) }
{
    let mut lines = Lines::new(alloc);
    let mut session = Session::new(alloc, &laws.options);
    let mut ran = Ok(());
    for number in 1..u64::MAX {
        match step(
            alloc,
            source,
            sink,
            env,
            laws,
            pages,
            &mut lines,
            &mut session,
            number,
        ) {
            Ok(true) => {}
            Ok(false) => break,
            Err(error) => {
                ran = Err(error);
                break;
            }
        }
    }
    session.close();
    ran
}

/// Answers the next line, and says whether the run goes on.
fn step<R: Source, W: Sink, S: Store, M: MergeOperator, T: BlockTransformer, X: PrefixExtractor>(
    alloc: Global,
    source: &mut R,
    sink: &mut W,
    env: &mut Env<'_, S, M, T>,
    laws: &Laws<X>,
    pages: Pages<'_>,
    lines: &mut Lines,
    session: &mut Session,
    number: u64,
) -> Result<bool, SlateDBError>
    requires valid { IsValid laws.now.options }
    requires names { AreValidNames
        (map (λ p. (meaning (p.vtable, p.value)).name) laws.now.policies.items) }
{
    write_all(sink, pages.prompt.as_bytes())?;
    let Some(line) = lines.next(source)? else {
        return Ok(false);
    };
    if is(&line, b"quit") {
        return Ok(false);
    }
    if is(&line, b"help") {
        write_all(sink, pages.help.as_bytes())?;
        return Ok(true);
    }
    write_response(alloc, session, sink, line.as_slice(), number, env, laws)?;
    Ok(true)
}

/// Writes what the line with this number is answered (`respond`), and behind it a note if a text of
/// it looks closed. Nothing more is written. Errors are those of `respond` and of the sink.
pub fn write_response<W: Sink, S: Store, M: MergeOperator, T: BlockTransformer, X: PrefixExtractor>(
    alloc: Global,
    session: &mut Session,
    sink: &mut W,
    typed: &[u8],
    number: u64,
    env: &mut Env<'_, S, M, T>,
    laws: &Laws<X>,
) -> Result<(), SlateDBError>
    requires valid { IsValid laws.now.options }
    requires names { AreValidNames
        (map (λ p. (meaning (p.vtable, p.value)).name) laws.now.policies.items) }
    ensures { let reach = ⟦<EnvOf<S, M, T> as Outside>⟧.reach in
        let policies = map (λ p. meaning (p.vtable, p.value)) laws.now.policies.items in
        let seg = segments_by X.lengths laws.now.segments in
        let layout = layout_of laws.now.options policies seg in
        WritesResponse layout typed.now (reach env.old) (reach env.new) session.old session.new
        (W.content sink.old) (W.content sink.new) result }
{
    let mut text = respond(alloc, session, typed, number, env, laws)?;
    text.extend_from_slice(note(typed))?;
    write_all(sink, text.as_slice())
}

/// The note on a line, if a text of it looks closed.
fn note(typed: &[u8]) -> &'static [u8]
    ensures { IsNote result.now }
{
    if closes_text(typed) { CLOSED } else { &[] }
}

fn is(line: &[u8], word: &[u8]) -> bool {
    line == word
}
