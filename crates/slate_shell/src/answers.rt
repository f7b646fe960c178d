//! Answers to lines of the language, and their texts.
ghost use Rattle.std.specs.Prelude.{◌≡◌, ◌++◌, ◌∷◌, [], IfOk, IsTrue, OnOk, codes, decimal, map};
ghost use Rattle.slate_types.specs.Config.{IsValid};
ghost use Rattle.slate_filter.specs.Laws.{AreValidNames};
ghost use Rattle.slate_db.specs.Flushed.{layout_of};
ghost use Rattle.slate_db.specs.Meaning.{segments_by};
ghost use Rattle.slate_language.specs.Answers.{reply_of};
ghost use Rattle.slate_txn.specs.Reply.{RowsAre};
ghost use Rattle.slate_script.specs.Session.{has_moment};
ghost use Rattle.slate_shell.specs.Shown.{AnswersShown, IsTextOf, row_line, shown_reply};

use slate_db::laws::Laws;
use slate_language::{Answer, reply_text};
use slate_script::Session;
use slate_store::{Env, EnvOf, Store};
use slate_txn::line::Line;
use slate_types::{
    BlockTransformer, KeyValue, MergeOperator, Outside, PrefixExtractor, SlateDBError,
};
use std::alloc::{AllocError, Global};

/// Answers a line of the language, and returns the text of its answer: the model's reply, but that
/// rows stand one a line. Of the session and of what it reaches all is said that `Session::answer`
/// says.
pub fn answer<S: Store, M: MergeOperator, T: BlockTransformer, X: PrefixExtractor>(
    alloc: Global,
    session: &mut Session,
    line: Line,
    env: &mut Env<'_, S, M, T>,
    laws: &Laws<X>,
) -> Result<Vec<u8>, SlateDBError>
    requires moment { IsTrue (has_moment line) }
    requires valid { IsValid laws.now.options }
    requires names { AreValidNames
        (map (λ p. (meaning (p.vtable, p.value)).name) laws.now.policies.items) }
    ensures { let reach = ⟦<EnvOf<S, M, T> as Outside>⟧.reach in
        let policies = map (λ p. meaning (p.vtable, p.value)) laws.now.policies.items in
        let seg = segments_by X.lengths laws.now.segments in
        let layout = layout_of laws.now.options policies seg in
        AnswersShown layout line (reach env.old) (reach env.new) session.old session.new result }
{
    let answered = session.answer(line, env, laws);
    text_of(alloc, answered)
}

/// The text of an answer, and an error as it is.
fn text_of(alloc: Global, answered: Result<Answer, SlateDBError>) -> Result<Vec<u8>, SlateDBError>
    ensures { IsTextOf answered result }
{
    match answered {
        Ok(answer) => Ok(shown(alloc, answer)?),
        Err(error) => Err(error),
    }
}

/// Returns the text of an answer: its reply, or of rows a line with their number, and then a line
/// for each.
pub fn shown(alloc: Global, answer: Answer) -> Result<Vec<u8>, AllocError>
    ensures { IfOk result (λ text. text.items ≡ shown_reply (reply_of answer)) }
{
    match answer {
        Answer::Rows(rows) => shown_rows(alloc, rows),
        other => {
            let text = reply_text(alloc, &other);
            drop(other);
            text
        }
    }
}

fn shown_rows(alloc: Global, rows: Vec<KeyValue>) -> Result<Vec<u8>, AllocError>
    ensures { IfOk result (λ text. text.items ≡ shown_reply (RowsAre rows.items)) }
{
    let mut text = count_line(alloc, rows.as_slice().len())?;
    for row in rows {
        push_row(alloc, &mut text, row)?;
    }
    Ok(text)
}

fn count_line(alloc: Global, count: usize) -> Result<Vec<u8>, AllocError>
    ensures { IfOk result (λ text. text.items ≡ codes "rows " ++ (decimal count ++ (10 ∷ []))) }
{
    let text = format!(in alloc; "rows {count}\n")?;
    Ok(text.into_bytes())
}

fn push_row(alloc: Global, text: &mut Vec<u8>, row: KeyValue) -> Result<(), AllocError>
    ensures { OnOk result (text.new.items ≡ text.old.items ++ row_line row) }
{
    let found = Answer::Found(Some(row));
    let line = reply_text(alloc, &found);
    drop(found);
    text.extend_from_slice(line?.as_slice())
}
