//! A run over a whole script.
ghost use Rattle.std.specs.Prelude.{◌≡◌, ◌⊎◌, ◌≤◌, ◌<◌, ◌++◌, ℕ, List, Some, Err, OnOk, IfErr, take, length, map};
ghost use Rattle.slate_types.specs.Config.{IsValid};
ghost use Rattle.slate_types.specs.Faults.{Rose};
ghost use Rattle.slate_filter.specs.Laws.{AreValidNames};
ghost use Rattle.slate_db.specs.Flushed.{layout_of};
ghost use Rattle.slate_db.specs.Meaning.{segments_by};
ghost use Rattle.slate_language.specs.Answers.{reply_of};
ghost use Rattle.slate_language.specs.Replies.{reply_line};
ghost use Rattle.slate_script.specs.Calls.Run.{CountsReplies, RepliesLine, Runs, WritesReply};
ghost use Rattle.slate_script.specs.Terms.{sink_of, streams_of, terms_of};

use crate::session::Session;
use slate_db::laws::Laws;
use slate_language::{Answer, Tally, parse_line, reply_text};
use slate_store::{Env, EnvOf, Lines, Sink, Source, Store, write_all};
use slate_types::{BlockTransformer, MergeOperator, Outside, PrefixExtractor, SlateDBError};
use std::alloc::Global;

/// Answers each line of the source into the sink, and reads on to the end. Rows are stored where `env` says.
///
/// What is said of the script and of what was written holds where source and sink tell their bytes, and what is said
/// of replies and of stored tables where the parts and the policies of filters are lawful and the store is honest and
/// was empty besides. At Ok each line was answered, and the store's objects are the tables that flushes put, with the
/// filters of the policies, and their rows alone fold to the state at the last flush. What is said of replies holds over a store
/// that tells its acts alone, too, or a section slipped through: a read returned a section of a table that isn't what this run had
/// put there, and whose checksum fits. Where an honest store that was empty tells its acts too, what it did in a run that answers Ok is one
/// part for each line, one behind the other, over the tables that it holds after the run: in the part of a line that gets a key, where policies are set, a
/// block of a table with filters is read behind these alone, and only where they don't deny the key, and where the row that is got takes one of a
/// commit that was flushed, a block is read that has the key. Flushes alone put, gets and scans alone read, and a get of a name that isn't open
/// does neither.
///
/// An error of the script itself, `ScriptSyntax` or `ScriptTooLong`, comes exactly where `script_error` has it, unless
/// another error came first. `ReadFault`, `WriteFault`, `StoreFault`, `Callback` and `BlockTransformError` come only
/// where that object's count of faults rose in this call. No failure of the source, the sink, the store or a part is passed over: each
/// count of faults is as it was, but for that of the one whose fault the error is. Damage is answered only where the store isn't honest,
/// wasn't empty, or a part or a policy isn't lawful; where these are lawful and the store tells its acts, only where a read was
/// answered otherwise than by what this run had put. It is shown by the last reads of the run, of a table that the run had put, but a
/// scan's `MergeOperatorMissing`, which shows an operand where there is no operator, and its `InvalidSequenceOrder`, which shows an
/// operand and a row of its key with a greater sequence: rows in memory, of an open transaction's own, or of such a table by these
/// reads. No limit is reached: of a script no more bytes are taken than the least of them.
///
/// What is written at an error is replies: at one of the script those to all lines before it, at `ReadFault` those to
/// all whole lines that the source gave, or to the whole script, at `WriteFault` those to some first lines and a front
/// of one more, and at an error of a part or want of memory those to some first lines.
pub fn run_script<
    R: Source,
    W: Sink,
    S: Store,
    M: MergeOperator,
    T: BlockTransformer,
    X: PrefixExtractor,
>(
    alloc: Global,
    source: &mut R,
    sink: &mut W,
    env: &mut Env<'_, S, M, T>,
    laws: &Laws<X>,
) -> Result<(), SlateDBError>
    requires valid { IsValid laws.now.options }
    requires names { AreValidNames (map (λ p. (meaning (p.vtable, p.value)).name) laws.now.policies.items) }

    ensures { let reach = ⟦<EnvOf<S, M, T> as Outside>⟧.reach in
        let policies = map (λ p. meaning (p.vtable, p.value)) laws.now.policies.items in
        let seg = segments_by X.lengths laws.now.segments in
        let terms = terms_of laws.now.options seg policies (reach env.old).meaning in
        let streams = streams_of R.left R.faults W.content W.faults in
        Runs terms (streams source.old sink.old) (streams source.new sink.new) (reach env.old) (reach env.new) result }
{
    let mut tally = Tally::new(laws.options.start_seq);
    answer_lines(alloc, source, sink, env, laws, &mut tally)
}

/// Answers each line of the source into the sink, reads on to the end, and counts the replies. What is said of a run
/// is `run_script`'s.
pub(crate) fn answer_lines<
    R: Source,
    W: Sink,
    S: Store,
    M: MergeOperator,
    T: BlockTransformer,
    X: PrefixExtractor,
>(
    alloc: Global,
    source: &mut R,
    sink: &mut W,
    env: &mut Env<'_, S, M, T>,
    laws: &Laws<X>,
    tally: &mut Tally,
) -> Result<(), SlateDBError>
    requires valid { IsValid laws.now.options }
    requires names { AreValidNames (map (λ p. (meaning (p.vtable, p.value)).name) laws.now.policies.items) }

    ensures run { let reach = ⟦<EnvOf<S, M, T> as Outside>⟧.reach in
        let policies = map (λ p. meaning (p.vtable, p.value)) laws.now.policies.items in
        let seg = segments_by X.lengths laws.now.segments in
        let terms = terms_of laws.now.options seg policies (reach env.old).meaning in
        let streams = streams_of R.left R.faults W.content W.faults in
        Runs terms (streams source.old sink.old) (streams source.new sink.new) (reach env.old) (reach env.new) result }
    ensures counts { let reach = ⟦<EnvOf<S, M, T> as Outside>⟧.reach in
        let policies = map (λ p. meaning (p.vtable, p.value)) laws.now.policies.items in
        let seg = segments_by X.lengths laws.now.segments in
        let terms = terms_of laws.now.options seg policies (reach env.old).meaning in
        let streams = streams_of R.left R.faults W.content W.faults in
        CountsReplies terms (streams source.old sink.old) (reach env.old) (reach env.new) tally.old tally.new result }
{
    let mut lines = Lines::new(alloc);
    let mut session = Session::new(alloc, &laws.options);
    let mut number = 0;
    loop {
        let line = match lines.next(source) {
            Ok(Some(line)) => line,
            Ok(None) => break,
            Err(error) => {
                session.close();
                return Err(error);
            }
        };
        number += 1;
        match answer_line(alloc, &mut session, sink, tally, env, laws, line, number) {
            Ok(()) => {}
            Err(error) => {
                session.close();
                return Err(error);
            }
        }
    }
    session.close();
    Ok(())
}

/// Answers and counts the line with this number: nothing for a silent one. `ScriptSyntax` comes exactly where it is
/// neither silent nor means something, unless memory was wanting first. `WriteFault` comes only where the
/// sink's count of faults rose, and then a front of the reply was written, and not all of it. At another error
/// nothing was written. No failure of the store or of a part is passed over.
fn answer_line<W: Sink, S: Store, M: MergeOperator, T: BlockTransformer, X: PrefixExtractor>(
    alloc: Global,
    session: &mut Session,
    sink: &mut W,
    tally: &mut Tally,
    env: &mut Env<'_, S, M, T>,
    laws: &Laws<X>,
    line: Vec<u8>,
    number: u64,
) -> Result<(), SlateDBError>
    requires valid { IsValid laws.now.options }
    requires names { AreValidNames (map (λ p. (meaning (p.vtable, p.value)).name) laws.now.policies.items) }
    ensures line { let reach = ⟦<EnvOf<S, M, T> as Outside>⟧.reach in
        let policies = map (λ p. meaning (p.vtable, p.value)) laws.now.policies.items in
        let layout = layout_of laws.now.options policies (segments_by X.lengths laws.now.segments) in
        let sunk = sink_of W.content W.faults in
        RepliesLine layout number line.items (reach env.old) (reach env.new) session.old session.new
        (sunk sink.old) (sunk sink.new) tally.old tally.new result }
    ensures sink { let sunk = sink_of W.content W.faults in
        WritesReply line.items (sunk sink.old) (sunk sink.new) result }
{
    let meaning = match parse_line(alloc, line) {
        Ok(None) => return Ok(()),
        Ok(Some(meaning)) => meaning,
        Err(error) => return Err(at_line(error, number)),
    };
    match session.answer(meaning, env, laws) {
        Ok(answer) => {
            tally.count(&answer);
            write_reply(alloc, sink, answer)
        }
        Err(error) => Err(error),
    }
}

/// The error of the line with this number.
fn at_line(error: SlateDBError, number: u64) -> SlateDBError
    ensures memory { error ≡ SlateDBError.OutOfMemory → result ≡ SlateDBError.OutOfMemory }
    ensures syntax { error ≡ SlateDBError.ScriptSyntax 0 → result ≡ SlateDBError.ScriptSyntax number }
{
    match error {
        SlateDBError::ScriptSyntax { .. } => SlateDBError::ScriptSyntax { line: number },
        other => other,
    }
}

/// Writes the reply that the answer is. `WriteFault` comes only where the sink's count of faults rose, and then a
/// front of the reply was written, and not all of it. At another error nothing was written.
fn write_reply<W: Sink>(alloc: Global, sink: &mut W, answer: Answer) -> Result<(), SlateDBError>
    ensures ok { (before : List ℕ) → W.content sink.old ≡ Some before →
        OnOk result (W.content sink.new ≡ Some (before ++ reply_line (reply_of answer))) }
    ensures part { let line = reply_line (reply_of answer) in
        (before : List ℕ) → W.content sink.old ≡ Some before → result ≡ Err SlateDBError.WriteFault →
        (n : ℕ) × (n < length line) × (W.content sink.new ≡ Some (before ++ take n line)) }
    ensures cause { IfErr result (λ e. (e ≡ SlateDBError.OutOfMemory) ⊎ (e ≡ SlateDBError.WriteFault)) }
    ensures write_fault { result ≡ Err SlateDBError.WriteFault → Rose (W.faults sink.old) (W.faults sink.new) }
    ensures still { OnOk result (W.faults sink.new ≡ W.faults sink.old) }
    ensures uncounted { IfErr result (λ e. (e ≡ SlateDBError.WriteFault) ⊎ (W.faults sink.new ≡ W.faults sink.old)) }
    ensures unanswered { IfErr result (λ e. (e ≡ SlateDBError.WriteFault) ⊎ (W.content sink.new ≡ W.content sink.old)) }
    ensures later { W.faults sink.old ≤ W.faults sink.new }
{
    let text = reply_text(alloc, &answer);
    drop(answer);
    let text = text?;
    write_all(sink, text.as_slice())
}
