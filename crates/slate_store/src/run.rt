//! A program that answers lines, and its run over a source.
ghost use Rattle.std.specs.Prelude.{◌≡◌, ◌⊎◌, ◌≤◌, ◌++◌, ◌∷◌, ◌+◌, [], ℕ, List, Bool, Option, Some, None, Err, option_map, true, false, OnOk, IfOk, IfErr};
ghost use Rattle.slate_types.specs.declared.error.SlateDBError.{SlateDBError};
ghost use Rattle.slate_types.specs.Faults.{Rose};
ghost use Rattle.slate_store.specs.Lines.{script_limit};
ghost use Rattle.slate_store.specs.Run.{WritesLine, IsRunCause, HasTaken, WroteAsSaid, IsProgramError, LineSays, Says, said_by};

use crate::lines::Lines;
use crate::sink::{Sink, write_all};
use crate::source::Source;
use slate_types::SlateDBError;
use std::alloc::Global;

/// Answers lines, one after another. What it reaches beside them it holds.
pub trait Program: Drop {
    /// Whether the line is one of its own, or silent.
    ghost takes: { Self → List ℕ → Bool };

    /// It answers the lines to come by this function, from them to what is written for them.
    ghost answers: { Self → Says → Type 0 };

    /// What its calls need.
    ghost ready: { Self → Type 0 };

    /// What the calls between two of its values keep, of which there are that many.
    ghost goes: { Self → Self → ℕ → Type 0 };

    /// What a call may refuse for, from the value before to the value after.
    ghost refuses: { Self → Self → SlateDBError → Type 0 };

    /// The reply to the line with this number, with its line end, and None for a silent line. `ScriptSyntax` comes only for a line that
    /// isn't its own.
    fn answer(
        &mut self,
        alloc: Global,
        line: &[u8],
        number: u64,
    ) -> Result<Option<Vec<u8>>, SlateDBError>
        requires { ready self.old }
        ensures own { OnOk result (takes self.old line.now ≡ true) }
        ensures alike { (l : List ℕ) → takes self.new l ≡ takes self.old l }
        ensures ready { OnOk result (ready self.new) }
        ensures said { (f : Says) → answers self.old f → IfOk result (λ o. LineSays f (answers self.new) line.now (said_by (option_map (λ t. t.items) o))) }
        ensures goes { goes self.old self.new 1 }
        ensures cause { IfErr result (λ e. ((e ≡ SlateDBError.ScriptSyntax number) × (takes self.old line.now ≡ false)) ⊎ refuses self.old self.new e) };

    ghost ends: { (a : Self) (f : Says) → answers a f → f [] ≡ [] };

    ghost stays: { (a : Self) → goes a a 0 };

    ghost goes_on: { (a b c : Self) (n m : ℕ) → goes a b n → goes b c m → goes a c (n + m) };

    ghost later: { (a b c : Self) (n : ℕ) (e : SlateDBError) → goes a b n → refuses b c e → refuses a c e };

    ghost apart: { (a b : Self) (e : SlateDBError) → refuses a b e → IsProgramError e };
}

/// Answers each line of the source into the sink, and reads on to the end.
///
/// `ScriptSyntax` and `ScriptTooLong` come exactly where `error_in` has them, unless another error came first, `ReadFault` and
/// `WriteFault` only where that object's count of faults rose, and else what the program refuses for. What is written at an error is
/// replies: at one of the script those to all lines before it, at `ReadFault` those to all whole lines that the source gave, at
/// `WriteFault` those to some first lines and a front of one more, and else those to some first lines.
pub fn run_lines<R: Source, W: Sink, P: Program>(
    alloc: Global,
    source: &mut R,
    sink: &mut W,
    program: &mut P,
) -> Result<(), SlateDBError>
    requires ready { P.ready program.old }
    ensures said { (script before : List ℕ) (f : Says) → R.left source.old ≡ Some script → W.content sink.old ≡ Some before → P.answers program.old f →
        WroteAsSaid (P.takes program.old) f script (R.left source.new) before (W.content sink.new) result }
    ensures read { (script : List ℕ) → R.left source.old ≡ Some script → HasTaken (P.takes program.old) script (R.left source.new) result }
    ensures goes { (n : ℕ) × (n ≤ script_limit) × P.goes program.old program.new n }
    ensures cause { IfErr result (IsRunCause (Rose (R.faults source.old) (R.faults source.new)) (Rose (W.faults sink.old) (W.faults sink.new)) (P.refuses program.old program.new)) }
    ensures source_still { (result ≡ Err SlateDBError.ReadFault) ⊎ (R.faults source.new ≡ R.faults source.old) }
    ensures sink_still { (result ≡ Err SlateDBError.WriteFault) ⊎ (W.faults sink.new ≡ W.faults sink.old) }
    ensures later { (R.faults source.old ≤ R.faults source.new) × (W.faults sink.old ≤ W.faults sink.new) }
{
    let mut lines = Lines::new(alloc);
    let mut number = 0;
    loop {
        let line = match lines.next(source) {
            Ok(Some(line)) => line,
            Ok(None) => break,
            Err(error) => return Err(error),
        };
        number += 1;
        match answer_line(alloc, sink, program, line.as_slice(), number) {
            Ok(()) => {}
            Err(error) => return Err(error),
        }
    }
    Ok(())
}

/// Answers the line with this number into the sink. At `WriteFault` a front of the reply was written, and not all of it, and at
/// another error nothing.
fn answer_line<W: Sink, P: Program>(
    alloc: Global,
    sink: &mut W,
    program: &mut P,
    line: &[u8],
    number: u64,
) -> Result<(), SlateDBError>
    requires ready { P.ready program.old }
    ensures own { OnOk result (P.takes program.old line.now ≡ true) }
    ensures alike { (l : List ℕ) → P.takes program.new l ≡ P.takes program.old l }
    ensures ready { OnOk result (P.ready program.new) }
    ensures said { (f : Says) → P.answers program.old f → WritesLine f (P.answers program.new) line.now (W.content sink.old) (W.content sink.new) result }
    ensures unwritten { IfErr result (λ e. (e ≡ SlateDBError.WriteFault) ⊎ (W.content sink.new ≡ W.content sink.old)) }
    ensures goes { P.goes program.old program.new 1 }
    ensures cause { IfErr result (λ e. ((e ≡ SlateDBError.WriteFault) × (P.takes program.old line.now ≡ true) × Rose (W.faults sink.old) (W.faults sink.new)) ⊎ ((e ≡ SlateDBError.ScriptSyntax number) × (P.takes program.old line.now ≡ false)) ⊎ P.refuses program.old program.new e) }
    ensures still { (result ≡ Err SlateDBError.WriteFault) ⊎ (W.faults sink.new ≡ W.faults sink.old) }
    ensures later { W.faults sink.old ≤ W.faults sink.new }
{
    match program.answer(alloc, line, number) {
        Ok(Some(text)) => write_all(sink, text.as_slice()),
        Ok(None) => Ok(()),
        Err(error) => Err(error),
    }
}
