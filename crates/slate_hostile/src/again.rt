//! A script whose lines are answered again where memory was wanting.
ghost use Rattle.std.specs.Prelude.{map, IsTrue};
ghost use Rattle.slate_types.specs.Config.{IsValid};
ghost use Rattle.slate_filter.specs.Laws.{AreValidNames};
ghost use Rattle.slate_script.specs.Session.{has_moment};

use crate::runs::no_policies;
use slate_db::laws::Laws;
use slate_filter::FilterPolicy;
use slate_language::{
    Answer, NamedExtractor, NamedOperator, Settings, Xor, parse_line, parse_words, reply_text,
};
use slate_script::Session;
use slate_store::{Env, Lines, MemoryStore, Source};
use slate_txn::line::Line;
use slate_types::SlateDBError;
use std::alloc::Global;

type Parts<'a> = Env<'a, MemoryStore, NamedOperator, Xor>;

/// How many bytes all replies may have.
const MOST: usize = 1 << 16;

/// How often a line is answered.
const TIMES: u32 = 3;

/// Answers the lines of the source over a core, each again where it is refused for want of memory, and then all of them over another one.
/// Whether both give the same replies: a call that is refused leaves a core as it was, but a commit, which ends its transaction, so that the
/// other core rolls it back. `None` for words that are none of a run.
pub fn answers_alike<R: Source>(
    alloc: Global,
    words: &[String],
    source: &mut R,
) -> Result<Option<bool>, SlateDBError> {
    let Some(settings) = parse_words(words, &[]) else {
        return Ok(None);
    };
    let script = read(alloc, source)?;
    let first = answer_script(alloc, &settings, &script, None)?;
    let second = answer_script(alloc, &settings, &script, first.ended)?;
    let are_alike = match second.ended {
        None => first.text == second.text,
        // Memory was wanting in the second one, so that the first one is like neither.
        Some(place) => {
            let third = answer_script(alloc, &settings, &script, Some(place))?;
            let are_alike = second.text == third.text;
            drop(third);
            are_alike
        }
    };
    drop((script, first, second));
    Ok(Some(are_alike))
}

/// The lines of the source, each with its end, and a last one that shows all commits.
fn read<R: Source>(alloc: Global, source: &mut R) -> Result<Vec<u8>, SlateDBError> {
    let mut script = Vec::new(alloc);
    let mut lines = Lines::new(alloc);
    for _ in 0..MOST {
        let Some(line) = lines.next(source)? else {
            break;
        };
        script.extend_from_slice(line.as_slice())?;
        script.push(b'\n')?;
    }
    script.extend_from_slice(b"journal\n")?;
    drop(lines);
    Ok(script)
}

/// The replies so far, and the place of a commit that ended its transaction for want of memory.
#[derive(Drop)]
struct Replies {
    text: Vec<u8>,
    ended: Option<usize>,
}

impl Replies {
    fn new(alloc: Global) -> Result<Replies, SlateDBError> {
        let text = Vec::with_capacity(alloc, MOST)?;
        Ok(Replies { text, ended: None })
    }
}

/// The replies to the script. The commit at a place that is given is a rollback in its stead.
fn answer_script(
    alloc: Global,
    settings: &Settings,
    script: &[u8],
    rolled_back: Option<usize>,
) -> Result<Replies, SlateDBError>
    requires { IsValid settings.now.options }
{
    let mut replies = Replies::new(alloc)?;
    let mut store = MemoryStore::new(alloc, Vec::new(alloc));
    let mut env: Parts<'_> = Env {
        store: &mut store,
        operator: settings.operator,
        transformer: settings.mask.map(|mask| Xor { mask }),
    };
    let laws: Laws<NamedExtractor> = Laws {
        options: settings.options,
        segments: settings.segments,
        policies: no_policies(alloc),
    };
    let answered = answer_lines(alloc, &mut env, &laws, script, rolled_back, &mut replies);
    drop((laws, env));
    drop(store);
    answered?;
    Ok(replies)
}

fn answer_lines(
    alloc: Global,
    env: &mut Parts<'_>,
    laws: &Laws<NamedExtractor>,
    script: &[u8],
    rolled_back: Option<usize>,
    replies: &mut Replies,
) -> Result<(), SlateDBError>
    requires valid { IsValid laws.now.options }
    requires names { AreValidNames (map (λ p. (meaning (p.vtable, p.value)).name) laws.now.policies.items) }
{
    let mut session = Session::new(alloc, &laws.options);
    let mut start: usize = 0;
    for (end, byte) in script.iter().enumerate() {
        if *byte != b'\n' {
            continue;
        }
        if let Some(line) = script.get(start..end) {
            let is_rolled_back = rolled_back == Some(start);
            answer_again(
                alloc,
                &mut session,
                env,
                laws,
                line,
                is_rolled_back,
                start,
                replies,
            )?;
        }
        start = end.saturating_add(1);
    }
    session.close();
    Ok(())
}

/// Answers a line, up to three times where memory is wanting.
fn answer_again(
    alloc: Global,
    session: &mut Session,
    env: &mut Parts<'_>,
    laws: &Laws<NamedExtractor>,
    line: &[u8],
    is_rolled_back: bool,
    place: usize,
    replies: &mut Replies,
) -> Result<(), SlateDBError>
    requires valid { IsValid laws.now.options }
    requires names { AreValidNames (map (λ p. (meaning (p.vtable, p.value)).name) laws.now.policies.items) }
{
    for time in 0..TIMES {
        match answer(alloc, session, env, laws, line, is_rolled_back) {
            Ok(Some(answer)) => {
                return note(
                    alloc,
                    replies,
                    answer,
                    time > 0 && line.starts_with(b"commit "),
                    place,
                );
            }
            Ok(None) => return Ok(()),
            Err(SlateDBError::OutOfMemory) => {}
            Err(error) => return Err(error),
        }
    }
    Err(SlateDBError::OutOfMemory)
}

/// What the line is answered. A commit may be a rollback in its stead.
fn answer(
    alloc: Global,
    session: &mut Session,
    env: &mut Parts<'_>,
    laws: &Laws<NamedExtractor>,
    line: &[u8],
    is_rolled_back: bool,
) -> Result<Option<Answer>, SlateDBError>
    requires valid { IsValid laws.now.options }
    requires names { AreValidNames (map (λ p. (meaning (p.vtable, p.value)).name) laws.now.policies.items) }
{
    let line = Vec::from_slice(alloc, line)?;
    match parse_line(alloc, line) {
        Ok(None) => Ok(None),
        Ok(Some(meaning)) => session
            .answer(in_stead(meaning, is_rolled_back), env, laws)
            .map(Some),
        Err(error) => Err(error),
    }
}

/// A rollback in the stead of a commit, where it is asked for, and each other line as it is.
fn in_stead(line: Line, is_rolled_back: bool) -> Line
    requires { IsTrue (has_moment line) }
    ensures { IsTrue (has_moment result) }
{
    match line {
        Line::Commit { name } if is_rolled_back => Line::Rollback { name },
        other => other,
    }
}

/// Notes the reply. A commit that was tried again and has no transaction left had ended it.
fn note(
    alloc: Global,
    replies: &mut Replies,
    answer: Answer,
    is_commit_again: bool,
    place: usize,
) -> Result<(), SlateDBError> {
    let has_ended = is_commit_again
        && matches!(
            &answer,
            Answer::Refused(SlateDBError::UnknownTransaction { .. })
        );
    if has_ended {
        drop(answer);
        replies.ended = Some(place);
        replies.text.extend_from_slice(b"ok\n")?;
        return Ok(());
    }
    let text = match reply_text(alloc, &answer) {
        Ok(text) => Ok(text),
        Err(_) => reply_text(alloc, &answer),
    };
    drop(answer);
    let text = text?;
    replies.text.extend_from_slice(text.as_slice())?;
    drop(text);
    Ok(())
}
