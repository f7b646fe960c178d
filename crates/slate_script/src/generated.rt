//! A run over a script that it makes for itself.
ghost use Rattle.std.specs.Prelude.{◌≡◌, ◌⊎◌, ◌≤◌, ℕ, List, None, Some, Err, IfErr, map};
ghost use Rattle.slate_types.specs.Config.{IsValid};
ghost use Rattle.slate_types.specs.Faults.{Rose};
ghost use Rattle.slate_filter.specs.Laws.{AreValidNames};
ghost use Rattle.slate_db.specs.Meaning.{segments_by};
ghost use Rattle.slate_language.specs.Generate.{generate};
ghost use Rattle.slate_language.specs.Tally.{tally_text};
ghost use Rattle.slate_language.specs.Words.{max_rounds};
ghost use Rattle.slate_script.specs.Calls.Run.{RunsSummed};
ghost use Rattle.slate_script.specs.Run.{HasTold};
ghost use Rattle.slate_script.specs.Terms.{sink_of, terms_of};

use crate::run::answer_lines;
use slate_db::laws::Laws;
use slate_language::{Tally, generate};
use slate_store::{Env, EnvOf, Failed, Sink, Source, Store, write_all};
use slate_types::{BlockTransformer, MergeOperator, Outside, PrefixExtractor, SlateDBError};
use std::alloc::Global;
use std::marker::Model;

/// Gives the bytes of a script, and never fails.
#[derive(Drop)]
struct Script {
    bytes: Vec<u8>,
    at: usize,
}

impl Model for Script {
    ghost use Rattle.std.specs.Prelude.{◌≤◌, List, ℕ, drop, vec_len};

    ghost Value = { List ℕ };

    ghost view = { λ s. drop s.at s.bytes.items };

    ghost invariant = { λ s. s.at ≤ vec_len s.bytes };
}

impl Script {
    fn new(bytes: Vec<u8>) -> Script
        ensures { result ≡ bytes.items }
    {
        Script { bytes, at: 0 }
    }
}

impl Source for Script {
    ghost left = { λ s. Some s };

    ghost faults = { λ s. 0 };

    fn read(&mut self, buf: &mut [u8]) -> Result<usize, Failed> {
        let left = &self.bytes[self.at..];
        let count = left.len().min(buf.len());
        buf[..count].copy_from_slice(&left[..count]);
        self.at += count;
        Ok(count)
    }
}

/// Takes each piece, and keeps nothing.
#[derive(Drop)]
struct Unwritten;

impl Sink for Unwritten {
    ghost content = { λ s. None };

    ghost faults = { λ s. 0 };

    fn write(&mut self, piece: &[u8]) -> Result<usize, Failed> {
        Ok(piece.len())
    }
}

/// Runs the script of that many rounds from the seed, counts the replies, and writes one line that says how many there
/// were, the last sequence, and how many gets found a row. Rows are stored where `env` says.
///
/// What is said of the line, of stored tables and of the reads of each line of the script holds as in `run_script`. `WriteFault` comes only where the sink's
/// count of faults rose, and then a front of the line was written, and not all of it. At another error nothing was
/// written. The errors are those of parts, want of memory and `WriteFault`, each with its cause as in `run_script`. No failure of the
/// sink, the store or a part is passed over: each count of faults is as it was, but for that of the one whose fault the error is.
pub fn run_generated<W: Sink, S: Store, M: MergeOperator, T: BlockTransformer, X: PrefixExtractor>(
    alloc: Global,
    rounds: u32,
    seed: u64,
    sink: &mut W,
    env: &mut Env<'_, S, M, T>,
    laws: &Laws<X>,
) -> Result<(), SlateDBError>
    requires valid { IsValid laws.now.options }
    requires names { AreValidNames (map (λ p. (meaning (p.vtable, p.value)).name) laws.now.policies.items) }
    requires few { rounds ≤ max_rounds }

    ensures { let reach = ⟦<EnvOf<S, M, T> as Outside>⟧.reach in
        let policies = map (λ p. meaning (p.vtable, p.value)) laws.now.policies.items in
        let seg = segments_by X.lengths laws.now.segments in
        let terms = terms_of laws.now.options seg policies (reach env.old).meaning in
        let sunk = sink_of W.content W.faults in
        RunsSummed terms (generate rounds seed) (sunk sink.old) (sunk sink.new) (reach env.old) (reach env.new) result }
{
    let script = generate(alloc, rounds, seed)?;
    let mut source = Script::new(script);
    let mut replies = Unwritten;
    let mut tally = Tally::new(laws.options.start_seq);
    match answer_lines(alloc, &mut source, &mut replies, env, laws, &mut tally) {
        Ok(()) => write_tally(alloc, sink, &tally),
        Err(error) => Err(error),
    }
}

/// Writes the line that the tally is. `WriteFault` comes only where the sink's count of faults rose, and then a front of
/// the line was written, and not all of it. At another error nothing was written.
fn write_tally<W: Sink>(alloc: Global, sink: &mut W, tally: &Tally) -> Result<(), SlateDBError>
    ensures told { (before : List ℕ) → W.content sink.old ≡ Some before →
        HasTold (tally_text tally.now) before (W.content sink.new) result }
    ensures cause { IfErr result (λ e. (e ≡ SlateDBError.OutOfMemory) ⊎ (e ≡ SlateDBError.WriteFault)) }
    ensures write_fault { result ≡ Err SlateDBError.WriteFault → Rose (W.faults sink.old) (W.faults sink.new) }
    ensures sink_still { (result ≡ Err SlateDBError.WriteFault) ⊎ (W.faults sink.new ≡ W.faults sink.old) }
    ensures unwritten { IfErr result (λ e. (e ≡ SlateDBError.WriteFault) ⊎ (W.content sink.new ≡ W.content sink.old)) }
    ensures later { W.faults sink.old ≤ W.faults sink.new }
{
    let text = tally.text(alloc)?;
    write_all(sink, text.as_slice())
}
