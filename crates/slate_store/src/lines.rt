//! A reader of lines.
ghost use Rattle.std.specs.Prelude.{◌≡◌, ◌≤◌, ◌<◌, ◌+◌, ◌++◌, ◌∷◌, ◌⊎◌, [], length, vec_len, take, drop, ℕ, List, Some, None, IfOk, IfErr, OnOk, OnErr, IfSome, IfNone, MatchResult, MatchOption};
ghost use Rattle.slate_types.specs.Faults.{Rose};
ghost use Rattle.slate_store.specs.Lines.{script_limit, HasNoEnd, GivesLine, IsEnd, KeepsAll};
ghost use Rattle.slate_store.specs.Held.{held_bytes, model_of, unread, IsWhole, SplitsAt};

use crate::Failed;
use crate::source::Source;
use memchr::memchr;
use slate_types::SlateDBError;
use std::alloc::{AllocError, Global};
use std::marker::Model;
use std::mem;

/// How many bytes are asked for at once.
const PIECE: usize = 65536;

/// How many bytes are taken at most.
const LIMIT: u64 = 4294967295;

/// What was taken from a source and not given: the partial line, and of the last piece what stands behind it.
#[derive(Drop)]
struct Held {
    line: Vec<u8>,
    piece: Vec<u8>,
    start: usize,
    end: usize,
    taken: u64,
}

impl Held {
    /// The next line, as `Lines::next` has it.
    fn next<R: Source>(
        &mut self,
        alloc: Global,
        source: &mut R,
    ) -> Result<Option<Vec<u8>>, SlateDBError>
        requires { IsWhole self.old }
        ensures whole { IsWhole self.new }
        ensures told { (left : List ℕ) → R.left source.old ≡ Some left → (rest : List ℕ) × (R.left source.new ≡ Some rest)
            × MatchResult result (λ o. MatchOption o (IsEnd (model_of self.old) left (model_of self.new) rest) (λ l. GivesLine l.items (model_of self.old) left (model_of self.new) rest)) (λ _. KeepsAll (model_of self.old) left (model_of self.new) rest) }
        ensures at_once { (HasNoEnd (held_bytes self.old) → ⊥) → source.new ≡ source.old }
        ensures further { IfOk result (λ o. IfSome o (λ _. (model_of self.old).given < (model_of self.new).given)) }
        ensures counted { IfOk result (λ o. IfSome o (λ l. (model_of self.old).given + length l.items ≤ (model_of self.new).given)) }
        ensures kept { OnErr result ((model_of self.new).given ≡ (model_of self.old).given) }
        ensures read_fault { result ≡ Err SlateDBError.ReadFault → Rose (R.faults source.old) (R.faults source.new) × HasNoEnd (held_bytes self.new) }
        ensures too_long { result ≡ Err SlateDBError.ScriptTooLong → (self.new.taken ≡ script_limit) × HasNoEnd (held_bytes self.new) }
        ensures cause { IfErr result (λ e. (e ≡ SlateDBError.OutOfMemory) ⊎ (e ≡ SlateDBError.ReadFault) ⊎ (e ≡ SlateDBError.ScriptTooLong)) }
        ensures later { R.faults source.old ≤ R.faults source.new }
        ensures still { (result ≡ Err SlateDBError.ReadFault) ⊎ (R.faults source.new ≡ R.faults source.old) }
    {
        loop {
            if let Some(line) = self.cut(alloc)? {
                return Ok(Some(line));
            }
            if self.fill(alloc, source)? == 0 {
                return Ok(self.last(alloc));
            }
        }
    }

    /// Takes out the first line that is whole. Without one the partial line becomes all that is held.
    fn cut(&mut self, alloc: Global) -> Result<Option<Vec<u8>>, SlateDBError>
        requires { IsWhole self.old }
        ensures whole { IsWhole self.new }
        ensures taken { self.new.taken ≡ self.old.taken }
        ensures line { IfOk result (λ o. IfSome o (λ l. HasNoEnd l.items × (held_bytes self.old ≡ l.items ++ (10 ∷ held_bytes self.new)))) }
        ensures none { IfOk result (λ o. IfNone o ((self.new.line.items ≡ held_bytes self.old) × (self.new.start ≡ self.new.«end»))) }
        ensures err { IfErr result (λ e. (e ≡ SlateDBError.OutOfMemory) × (held_bytes self.new ≡ held_bytes self.old)) }
    {
        let unread = &self.piece[self.start..self.end];
        match find_end(unread) {
            Some(place) => {
                self.line.extend_from_slice(&unread[..place])?;
                self.start += place + 1;
                Ok(Some(mem::replace(&mut self.line, Vec::new(alloc))))
            }
            None => {
                self.line.extend_from_slice(unread)?;
                self.start = self.end;
                Ok(None)
            }
        }
    }

    /// Takes a piece behind the partial line. 0 means the end of the source.
    fn fill<R: Source>(&mut self, alloc: Global, source: &mut R) -> Result<usize, SlateDBError>
        requires whole { IsWhole self.old }
        requires read { self.old.start ≡ self.old.«end» }
        ensures whole { IsWhole self.new }
        ensures line { self.new.line.items ≡ self.old.line.items }
        ensures ok { IfOk result (λ n. (length (unread self.new) ≡ n) × (self.new.taken ≡ self.old.taken + n)) }
        ensures limit { IfOk result (λ _. self.old.taken < script_limit) }
        ensures bytes { (left : List ℕ) → R.left source.old ≡ Some left → IfOk result (λ n. (unread self.new ≡ take n left) × (R.left source.new ≡ Some (drop n left)) × (n ≡ 0 → left ≡ [])) }
        ensures err { OnErr result ((self.new.start ≡ self.new.«end») × (self.new.taken ≡ self.old.taken) × (R.left source.new ≡ R.left source.old)) }
        ensures read_fault { result ≡ Err SlateDBError.ReadFault → Rose (R.faults source.old) (R.faults source.new) }
        ensures too_long { result ≡ Err SlateDBError.ScriptTooLong → self.new.taken ≡ script_limit }
        ensures cause { IfErr result (λ e. (e ≡ SlateDBError.OutOfMemory) ⊎ (e ≡ SlateDBError.ReadFault) ⊎ (e ≡ SlateDBError.ScriptTooLong)) }
        ensures later { R.faults source.old ≤ R.faults source.new }
        ensures still { (result ≡ Err SlateDBError.ReadFault) ⊎ (R.faults source.new ≡ R.faults source.old) }
    {
        if self.taken == LIMIT {
            return Err(SlateDBError::ScriptTooLong);
        }
        make_piece(alloc, &mut self.piece)?;
        let room = self.piece.len().min((LIMIT - self.taken) as usize);
        match read_front(source, &mut self.piece, room) {
            Ok(count) => {
                self.start = 0;
                self.end = count;
                self.taken += count as u64;
                Ok(count)
            }
            Err(Failed) => Err(SlateDBError::ReadFault),
        }
    }

    /// Takes out the last line, which has no LF.
    fn last(&mut self, alloc: Global) -> Option<Vec<u8>>
        requires whole { IsWhole self.old }
        requires read { self.old.start ≡ self.old.«end» }
        ensures whole { IsWhole self.new }
        ensures taken { self.new.taken ≡ self.old.taken }
        ensures bytes { held_bytes self.new ≡ [] }
        ensures line { IfSome result (λ l. (l.items ≡ held_bytes self.old) × (0 < length l.items) × HasNoEnd l.items) }
        ensures none { IfNone result (held_bytes self.old ≡ []) }
    {
        if self.line.is_empty() {
            None
        } else {
            Some(mem::replace(&mut self.line, Vec::new(alloc)))
        }
    }
}

/// Makes the piece, at the first read.
fn make_piece(alloc: Global, piece: &mut Vec<u8>) -> Result<(), AllocError>
    ensures ok { OnOk result (0 < vec_len piece.new) }
    ensures grown { vec_len piece.old ≤ vec_len piece.new }
    ensures err { OnErr result (piece.new ≡ piece.old) }
{
    if piece.is_empty() {
        *piece = vec![in alloc; 0; PIECE]?;
    }
    Ok(())
}

/// Reads into the front of the piece.
fn read_front<R: Source>(source: &mut R, piece: &mut [u8], room: usize) -> Result<usize, Failed>
    requires some { 0 < room }
    requires within { room ≤ length piece.old }
    ensures bound { IfOk result (λ n. n ≤ room) }
    ensures bytes { (left : List ℕ) → R.left source.old ≡ Some left → IfOk result (λ n. (take n piece.new ≡ take n left) × (n ≤ length left) × (R.left source.new ≡ Some (drop n left)) × (n ≡ 0 → left ≡ [])) }
    ensures failed { OnErr result (R.left source.new ≡ R.left source.old) }
    ensures later { R.faults source.old ≤ R.faults source.new }
    ensures still { OnOk result (R.faults source.new ≡ R.faults source.old) }
    ensures cause { OnErr result (Rose (R.faults source.old) (R.faults source.new)) }
{
    source.read(&mut piece[..room])
}

/// The place of the first LF.
fn find_end(bytes: &[u8]) -> Option<usize>
    ensures { MatchOption result (HasNoEnd bytes.now) (SplitsAt bytes.now) }
{
    memchr(b'\n', bytes)
}

/// Cuts what a source gives into lines. It takes large pieces and looks at each byte a constant number of
/// times; its memory is the longest line and one piece.
#[derive(Drop)]
pub struct Lines {
    alloc: Global,
    held: Held,
}

impl Model for Lines {
    ghost use Rattle.slate_store.specs.Lines.{LinesModel};

    ghost Value = { LinesModel };

    ghost use Rattle.slate_store.specs.Held.{model_of, IsWhole};

    ghost view = { λ l. model_of l.held };

    ghost invariant = { λ l. IsWhole l.held };
}

impl Lines {
    /// A reader that has taken nothing.
    pub fn new(alloc: Global) -> Lines
        ensures held { result.held ≡ [] }
        ensures given { result.given ≡ 0 }
    {
        Lines {
            alloc,
            held: Held {
                line: Vec::new(alloc),
                piece: Vec::new(alloc),
                start: 0,
                end: 0,
                taken: 0,
            },
        }
    }

    /// The next line, without its LF; None exactly at the end of the source. `ReadFault` comes only where
    /// the source's count of faults rose, and `ScriptTooLong` exactly where 4294967295 bytes were taken
    /// since `new` and all whole lines among them were given. A refused call loses no byte. A line that
    /// is held is given without a read.
    pub fn next<R: Source>(&mut self, source: &mut R) -> Result<Option<Vec<u8>>, SlateDBError>
        ensures told { (left : List ℕ) → R.left source.old ≡ Some left → (rest : List ℕ) × (R.left source.new ≡ Some rest)
            × MatchResult result (λ o. MatchOption o (IsEnd self.old left self.new rest) (λ l. GivesLine l.items self.old left self.new rest)) (λ _. KeepsAll self.old left self.new rest) }
        ensures at_once { (HasNoEnd self.old.held → ⊥) → source.new ≡ source.old }
        ensures further { IfOk result (λ o. IfSome o (λ _. self.old.given < self.new.given)) }
        ensures counted { IfOk result (λ o. IfSome o (λ l. self.old.given + length l.items ≤ self.new.given)) }
        ensures within { self.new.given + length self.new.held ≤ script_limit }
        ensures kept { OnErr result (self.new.given ≡ self.old.given) }
        ensures read_fault { result ≡ Err SlateDBError.ReadFault → Rose (R.faults source.old) (R.faults source.new) × HasNoEnd self.new.held }
        ensures too_long { result ≡ Err SlateDBError.ScriptTooLong → (self.new.given + length self.new.held ≡ script_limit) × HasNoEnd self.new.held }
        ensures cause { IfErr result (λ e. (e ≡ SlateDBError.OutOfMemory) ⊎ (e ≡ SlateDBError.ReadFault) ⊎ (e ≡ SlateDBError.ScriptTooLong)) }
        ensures later { R.faults source.old ≤ R.faults source.new }
        ensures still { (result ≡ Err SlateDBError.ReadFault) ⊎ (R.faults source.new ≡ R.faults source.old) }
    {
        self.held.next(self.alloc, source)
    }
}
