//! The rows of an export, as they are written.
ghost use Rattle.std.specs.Prelude.{◌≡◌, ◌≤◌, ◌⊎◌, ◌-◌, ◌^◌, ◌++◌, ◌∷◌, ℕ, List, None, Some};
ghost use Rattle.std.specs.Prelude.{not, ◌&&◌, is_some, option_map, IfSome, FitsSigned, OnOk, IfOk, IfErr, IsOkUnless};
ghost use mir.Syntax.{w64};
ghost use Rattle.std.specs.List.{join_with_byte};
ghost use Rattle.slate_types.specs.declared.error.SlateDBError.{SlateDBError};
ghost use Rattle.slate_types.specs.Faults.{Rose};
ghost use Rattle.slate_types.specs.Keys.{AreBytes};
ghost use Rattle.slate_types.specs.Outside.{IsFault, IsStill, OnlyReads};
ghost use Rattle.slate_types.specs.Refusing.{IsDamage};
ghost use Rattle.slate_types.specs.Rows.{is_operand, key_value, operand};
ghost use Rattle.slate_types.specs.World.{Checks, Made, Sees, World};
ghost use Rattle.slate_txn.specs.Reply.{Found};
ghost use Rattle.slate_language.specs.Replies.{reply_line};
ghost use Rattle.slate_language.specs.Text.{shown_bytes};
ghost use Rattle.slate_tables.specs.Loading.{moment, time_to_live};
ghost use Rattle.slate_tables.specs.LoadText.{ends_before_made, op_words, ttl_words};
ghost use Rattle.slate_tables.specs.Writing.{IsLoadable, IsRefusedRow, IsRefusedText, IsUnwritten};
ghost use Rattle.slate_tables.specs.Writing.{Passes, WritesRows, counted_row, form_text};
ghost use Rattle.slate_tables.specs.Writing.{row_script, state_line};

use bytes::Bytes;
use itoa::Buffer;
use slate_language::{Answer, reply_text, show};
use slate_merge::Operates;
use slate_store::{Sink, write_all};
use slate_types::{KeyValue, RowEntry, RowEntryIterator, SlateDBError, ValueDeletable};
use std::alloc::{AllocError, Global};

/// How rows are written.
#[derive(Clone, Copy)]
pub(crate) enum Form {
    /// Each as a `get` answers it.
    State,
    /// Each as the lines of a script that make it again.
    Script,
}

/// What was written. Each count stops at its greatest number.
#[derive(Clone, Copy, Debug, PartialEq, Eq)]
pub struct Written {
    pub rows: u64,
    /// How many rows end before they were made.
    pub moved: u64,
    /// The greatest sequence of a row, or 0.
    pub greatest_seq: u64,
}

impl Written {
    fn none() -> Written
        ensures { result ≡ record { rows = 0; moved = 0; greatest_seq = 0 } }
    {
        Written {
            rows: 0,
            moved: 0,
            greatest_seq: 0,
        }
    }

    fn with(self, row: &RowEntry) -> Written
        ensures { result ≡ counted_row self row.now }
    {
        let moved = if ends_before_it_was_made(row) {
            self.moved.saturating_add(1)
        } else {
            self.moved
        };
        Written {
            rows: self.rows.saturating_add(1),
            moved,
            greatest_seq: self.greatest_seq.max(row.seq),
        }
    }
}

fn ends_before_it_was_made(row: &RowEntry) -> bool
    ensures { result ≡ ends_before_made row.now }
{
    match row.expire_ts {
        Some(end) => end < row.create_ts.unwrap_or(0),
        None => false,
    }
}

/// The moment at which a script makes a row: its creation, or its expiry if that comes before.
fn moment_of(row: &RowEntry) -> i64
    ensures { result ≡ moment row.now }
{
    let made = row.create_ts.unwrap_or(0);
    match row.expire_ts {
        Some(end) => { if end < made { end } else { made } }
        None => made,
    }
}

// ---- the text of a row

/// Returns the value or the operand of a row, shared.
fn shared_value(row: &RowEntry) -> Result<Bytes, AllocError>
    ensures { IfOk result (λ bytes. bytes ≡ operand row.now) }
{
    match &row.value {
        ValueDeletable::Value(bytes) | ValueDeletable::Merge(bytes) => bytes.clone(),
        ValueDeletable::Tombstone => Ok(Bytes::new()),
    }
}

/// Returns what a reader gets of a row.
fn shown(row: &RowEntry) -> Result<KeyValue, AllocError>
    ensures { IfOk result (λ shown. shown ≡ key_value row.now) }
{
    let key = row.key.clone()?;
    let value = shared_value(row)?;
    Ok(KeyValue {
        key,
        value,
        seq: row.seq,
        create_ts: row.create_ts.unwrap_or(0),
        expire_ts: row.expire_ts,
    })
}

/// The numbers of a slice of bytes are bytes.
fn are_bytes(bytes: &[u8])
    ensures { AreBytes bytes.now }
{
    let _ = bytes;
}

/// The moments of a row have 64 bits.
fn are_moments(made: i64, ends: Option<i64>)
    ensures made { FitsSigned w64 made }
    ensures ends { IfSome ends (FitsSigned w64) }
{
    let _ = made;
    let _ = ends;
}

/// Whether a row is an operand, and there is no operator.
fn lacks_operator(row: &RowEntry, has_operator: bool) -> bool
    ensures { result ≡ (is_operand row.now && not has_operator) }
{
    match row.value {
        ValueDeletable::Merge(_) => !has_operator,
        _ => false,
    }
}

/// Refuses a row that no line of a script makes again, by the error of such a line.
#[tactic(auto, using(crate::proofs::Writings::has_it))]
fn check_row(row: &RowEntry, has_operator: bool) -> Result<(), SlateDBError>
    ensures loads { OnOk result (IsLoadable has_operator row.now) }
    ensures cause { IfErr result (IsRefusedRow has_operator row.now) }
{
    are_bytes(row.key.as_slice());
    let value = value_of(row);
    are_bytes(value);
    are_moments(row.create_ts.unwrap_or(0), row.expire_ts);
    if row.key.is_empty() {
        return Err(SlateDBError::EmptyKey);
    }
    if row.key.len() > u16::MAX as usize {
        return Err(SlateDBError::KeyTooLong {
            len: row.key.len() as u64,
        });
    }
    if value.len() > u32::MAX as usize {
        return Err(SlateDBError::ValueTooLong {
            len: value.len() as u64,
        });
    }
    if lacks_operator(row, has_operator) {
        return Err(SlateDBError::MergeOperatorMissing);
    }
    Ok(())
}

/// The value or the operand of a row.
fn value_of(row: &RowEntry) -> &[u8]
    ensures { result.now ≡ operand row.now }
{
    match &row.value {
        ValueDeletable::Value(bytes) | ValueDeletable::Merge(bytes) => bytes.as_slice(),
        ValueDeletable::Tombstone => &[],
    }
}

/// Adds a space and the byte token of the bytes.
fn push_bytes(alloc: Global, text: &mut Vec<u8>, bytes: &[u8]) -> Result<(), SlateDBError>
    ensures text { OnOk result (text.new.items ≡ text.old.items ++ (32 ∷ shown_bytes bytes.now)) }
    ensures cause { IsOkUnless result SlateDBError.OutOfMemory }
{
    let token = show(alloc, bytes)?;
    text.push(b' ')?;
    text.extend_from_slice(token.as_slice())?;
    Ok(())
}

/// Adds a space and the time to live from a moment to an expiry.
fn push_ttl(text: &mut Vec<u8>, now: i64, expire_ts: Option<i64>) -> Result<(), SlateDBError>
    ensures text { OnOk result (text.new.items ≡
        text.old.items ++ (32 ∷ join_with_byte 32 (ttl_words (time_to_live now expire_ts)))) }
    ensures cause { IsOkUnless result SlateDBError.OutOfMemory }
{
    match expire_ts {
        Some(end) => {
            text.extend_from_slice(b" t")?;
            text.extend_from_slice(Buffer::new().format(end.abs_diff(now)).as_bytes())?;
        }
        None => text.extend_from_slice(b" t-")?,
    }
    Ok(())
}

/// Adds the operation that makes a row again at a moment.
fn push_op(alloc: Global, text: &mut Vec<u8>, row: &RowEntry, now: i64) -> Result<(), SlateDBError>
    ensures text { OnOk result (text.new.items ≡ text.old.items
        ++ join_with_byte 32
        (op_words row.now.key (time_to_live now row.now.expire_ts) row.now.value)) }
    ensures cause { IsOkUnless result SlateDBError.OutOfMemory }
{
    match &row.value {
        ValueDeletable::Value(bytes) => {
            text.extend_from_slice(b"put")?;
            push_bytes(alloc, text, row.key.as_slice())?;
            push_bytes(alloc, text, bytes.as_slice())?;
            push_ttl(text, now, row.expire_ts)
        }
        ValueDeletable::Merge(bytes) => {
            text.extend_from_slice(b"merge")?;
            push_bytes(alloc, text, row.key.as_slice())?;
            push_bytes(alloc, text, bytes.as_slice())?;
            push_ttl(text, now, row.expire_ts)
        }
        ValueDeletable::Tombstone => {
            text.extend_from_slice(b"delete")?;
            push_bytes(alloc, text, row.key.as_slice())
        }
    }
}

/// Returns the lines of a script that make a row again. The one error is `OutOfMemory`.
fn script_lines(alloc: Global, row: &RowEntry) -> Result<Vec<u8>, SlateDBError>
    ensures text { IfOk result (λ text. text.items ≡ row_script row.now) }
    ensures cause { IsOkUnless result SlateDBError.OutOfMemory }
{
    let now = moment_of(row);
    let mut text = Vec::with_capacity(alloc, 64)?;
    text.extend_from_slice(b"now ")?;
    text.extend_from_slice(Buffer::new().format(now).as_bytes())?;
    text.extend_from_slice(b"\nwrite ")?;
    push_op(alloc, &mut text, row, now)?;
    text.push(b'\n')?;
    Ok(text)
}

/// Returns a row as a `get` answers it, with its line end. The one error is `OutOfMemory`.
fn state_text(alloc: Global, row: &RowEntry) -> Result<Vec<u8>, SlateDBError>
    ensures text { IfOk result (λ text. text.items ≡ state_line row.now) }
    ensures cause { IsOkUnless result SlateDBError.OutOfMemory }
{
    match shown(row) {
        Ok(found) => found_text(alloc, found),
        Err(error) => Err(SlateDBError::from(error)),
    }
}

fn found_text(alloc: Global, found: KeyValue) -> Result<Vec<u8>, SlateDBError>
    ensures text { IfOk result (λ text. text.items ≡ reply_line (Found (Some found))) }
    ensures cause { IsOkUnless result SlateDBError.OutOfMemory }
{
    let answer = Answer::Found(Some(found));
    let text = reply_text(alloc, &answer);
    drop(answer);
    match text {
        Ok(text) => Ok(text),
        Err(error) => Err(SlateDBError::from(error)),
    }
}

/// Returns the lines of a script that make a row again. Refuses a row that none makes again, or by
/// `OutOfMemory`.
fn loaded_text(alloc: Global, row: &RowEntry, has_operator: bool) -> Result<Vec<u8>, SlateDBError>
    ensures text { IfOk result (λ text. text.items ≡ row_script row.now) }
    ensures loads { OnOk result (IsLoadable has_operator row.now) }
    ensures cause { IfErr result (λ e. (e ≡ SlateDBError.OutOfMemory)
        ⊎ IsRefusedRow has_operator row.now e) }
{
    match check_row(row, has_operator) {
        Ok(()) => script_lines(alloc, row),
        Err(error) => Err(error),
    }
}

/// Returns the text of a row in a form. Refuses a row that no line of a script makes again, or by
/// `OutOfMemory`.
fn row_text(
    alloc: Global,
    form: Form,
    row: &RowEntry,
    has_operator: bool,
) -> Result<Vec<u8>, SlateDBError>
    ensures text { IfOk result (λ text. text.items ≡ form_text form row.now) }
    ensures passes { OnOk result (Passes form has_operator row.now) }
    ensures cause { IfErr result (IsRefusedText form has_operator row.now) }
{
    match form {
        Form::State => state_text(alloc, row),
        Form::Script => loaded_text(alloc, row, has_operator),
    }
}

/// Returns the answer of a `get` that found a row, or none, with its line end. The one error is
/// `OutOfMemory`.
fn answer_text(alloc: Global, row: Option<RowEntry>) -> Result<Vec<u8>, SlateDBError>
    ensures text { IfOk result (λ text. text.items ≡
        reply_line (Found (option_map key_value row))) }
    ensures cause { IsOkUnless result SlateDBError.OutOfMemory }
{
    match row {
        Some(row) => {
            let text = state_text(alloc, &row);
            drop(row);
            text
        }
        None => none_text(alloc),
    }
}

fn none_text(alloc: Global) -> Result<Vec<u8>, SlateDBError>
    ensures text { IfOk result (λ text. text.items ≡ reply_line (Found None)) }
    ensures cause { IsOkUnless result SlateDBError.OutOfMemory }
{
    match reply_text(alloc, &Answer::Found(None)) {
        Ok(text) => Ok(text),
        Err(error) => Err(SlateDBError::from(error)),
    }
}

/// Writes the answer of a `get` that found a row, or none.
pub(crate) fn write_found<W: Sink>(
    alloc: Global,
    row: Option<RowEntry>,
    sink: &mut W,
) -> Result<(), SlateDBError>
    ensures text { (before : List ℕ) → W.content sink.old ≡ Some before →
        OnOk result (W.content sink.new ≡
        Some (before ++ reply_line (Found (option_map key_value row)))) }
    ensures cause { IfErr result (λ e. (e ≡ SlateDBError.OutOfMemory)
        ⊎ ((e ≡ SlateDBError.WriteFault) × Rose (W.faults sink.old) (W.faults sink.new))) }
    ensures later { W.faults sink.old ≤ W.faults sink.new }
    ensures still { OnOk result (W.faults sink.new ≡ W.faults sink.old) }
{
    match answer_text(alloc, row) {
        Ok(text) => {
            let done = write_all(sink, text.as_slice());
            drop(text);
            done
        }
        Err(error) => Err(error),
    }
}

// ---- all rows

/// Writes the text of a row in a form.
fn write_row<W: Sink>(
    alloc: Global,
    form: Form,
    row: &RowEntry,
    has_operator: bool,
    sink: &mut W,
) -> Result<(), SlateDBError>
    ensures text { (before : List ℕ) → W.content sink.old ≡ Some before →
        OnOk result (W.content sink.new ≡ Some (before ++ form_text form row.now)) }
    ensures passes { OnOk result (Passes form has_operator row.now) }
    ensures fits { row.now.seq ≤ 2 ^ 64 - 1 }
    ensures cause { IfErr result (IsUnwritten form (W.faults sink.old) (W.faults sink.new)) }
    ensures later { W.faults sink.old ≤ W.faults sink.new }
    ensures still { OnOk result (W.faults sink.new ≡ W.faults sink.old) }
{
    is_sequence(row.seq);
    match row_text(alloc, form, row, has_operator) {
        Ok(text) => {
            let done = write_all(sink, text.as_slice());
            drop(text);
            done
        }
        Err(error) => Err(error),
    }
}

/// The number has 64 bits.
fn is_sequence(seq: u64)
    ensures { seq ≤ 2 ^ 64 - 1 }
{
    let _ = seq;
}

/// Writes the rows that are left, each as its text, and returns what was written.
pub(crate) fn write_rows<E: Operates, I: RowEntryIterator<E>, W: Sink>(
    alloc: Global,
    form: Form,
    rows: &mut I,
    env: &mut E,
    sink: &mut W,
) -> Result<Written, SlateDBError>
    ensures written { (w : World) (before : List ℕ) → Sees w (E.reach env.old) (E.reach env.new) →
        I.sound rows.old w → W.content sink.old ≡ Some before →
        IfOk result (WritesRows form (is_some (E.reach env.old).meaning.combine) (I.rest rows.old w)
        before (W.content sink.new)) }
    ensures checked { (w : World) → I.sound rows.old w →
        OnOk result (Checks w (E.reach env.old) (E.reach env.new)) }
    ensures undamaged { (w : World) → Sees w (E.reach env.old) (E.reach env.new) →
        I.sound rows.old w → IfErr result (λ e. ¬ IsDamage e) }
    ensures cause { IfErr result (λ e. IsUnwritten form (W.faults sink.old) (W.faults sink.new) e
        ⊎ Made (E.reach env.old) (E.reach env.new) (λ reads.
        IsFault (E.reach env.old) (E.reach env.new) e
        ⊎ I.refuses rows.old (E.reach env.old).meaning reads None e)) }
    ensures reads { OnlyReads (E.reach env.old) (E.reach env.new) }
    ensures counts { IsStill (E.reach env.old).faults (E.reach env.new).faults result }
    ensures later { W.faults sink.old ≤ W.faults sink.new }
    ensures still { OnOk result (W.faults sink.new ≡ W.faults sink.old) }
{
    let has_operator = env.has_operator();
    let mut written = Written::none();
    while let Some(row) = rows.next(alloc, env)? {
        match write_row(alloc, form, &row, has_operator, sink) {
            Ok(()) => {
                written = written.with(&row);
                drop(row);
            }
            Err(error) => {
                drop(row);
                return Err(error);
            }
        }
    }
    Ok(written)
}
