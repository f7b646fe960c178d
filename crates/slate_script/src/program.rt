//! The program: its words, and the status that it ends with.
ghost use Rattle.std.specs.Prelude.{◌≡◌, ◌⊎◌, ◌≤◌, [], Some, map, option_map};
ghost use Rattle.std.specs.String.{string_bytes};
ghost use Rattle.slate_types.specs.Config.{IsValid};
ghost use Rattle.slate_store.specs.Store.{IsEmpty};
ghost use Rattle.slate_filter.specs.Laws.{AreValidNames};
ghost use Rattle.slate_table.specs.Filtered.{AreLawful};
ghost use Rattle.slate_language.specs.declared.words.Generated.{Generated};
ghost use Rattle.slate_language.specs.Words.{max_rounds, read_generated};
ghost use Rattle.slate_script.specs.Calls.Main.{Ends, EndsGenerated, IsCaused};
ghost use Rattle.slate_script.specs.Program.{status, IsDamageStatus};
ghost use Rattle.slate_script.specs.Run.{IsOutside, IsScriptError};
ghost use Rattle.slate_script.specs.Terms.{sink_of, storage_of, streams_of};
ghost use Rattle.slate_script.specs.Told.{IsUntrue};

use crate::generated::run_generated;
use crate::run::run_script;
use slate_db::laws::Laws;
use slate_filter::{FilterPolicy, have_valid_names};
use slate_language::{Generated, NamedExtractor, Xor, keep_used, parse_generated, parse_words};
use slate_store::{Env, Sink, Source, Store};
use slate_types::SlateDBError;
use std::alloc::Global;

/// Runs a script over the store, as the words say, with the operator, the extractor of segments and the transformer that they name and, of the policies of
/// filters that are handed in, those that they use. Answers the status to end with: 0 where the run answers Ok, 2 exactly
/// where the words are none of a run, or the policies are more than 65535, one has a name of more bytes than that, or two have one
/// name, 3 for `ScriptSyntax`, 4 for `ScriptTooLong`, 5 for `ReadFault`, 6 for `WriteFault`, 7 for `StoreFault`, 12, 14, 15, 16, 18 and
/// 19 where a table isn't what was stored, and 20 for want of memory. No failure of the source, the sink or the store is passed over: each
/// count of faults is as it was, but for that of the source at 5, of the sink at 6 and of the store at 7.
///
/// The script is what the source gives, or, where the words begin with `gen`, one that the run makes for itself. Then
/// the source isn't read, the replies are counted and not written, and the sink takes one line: how many replies there
/// were, the last sequence, and how many gets found a row. Such a run never ends with 3, 4 or 5, and at a status other than
/// 0 and 6 nothing is written.
///
/// What is said of the script and of what was written holds where source and sink tell their bytes, and what is said
/// of replies and of stored tables where the policies are lawful and the store was empty and tells its objects besides.
/// Over such a store 12, 14, 15, 16, 18 and 19 never come, and over one that tells its acts only where a read was answered
/// otherwise than by what the run had put; by whichever policies, the last acts that it tells show the error. At 0 each line was
/// answered, and the store's objects are the tables that flushes put, with the filters of the policies that the words use, and their rows
/// alone fold to the state at the last flush; where the store tells its acts too, what it did is one part for each line, as in `run_script`.
/// Over a store that tells its acts alone and whatever it answers, the replies at 0 are right, or a read returned a section of a table that
/// isn't what the run had put there, and whose checksum fits. At 7 and 20 the replies to some first lines are written.
pub fn run_main<R: Source, W: Sink, S: Store>(
    alloc: Global,
    words: &[String],
    source: &mut R,
    sink: &mut W,
    store: &mut S,
    policies: Vec<Box<dyn FilterPolicy>>,
) -> u8
    ensures ends { let ws = map string_bytes words.now in
        let handed = map (λ p. (meaning p).name) policies.items in
        let given = map (λ p. meaning p) policies.items in
        let streams = streams_of R.left R.faults W.content W.faults in
        let storage = storage_of S.objects S.acts S.faults in
        Ends ws handed given (streams source.old sink.old) (streams source.new sink.new)
        (storage store.old) (storage store.new) result }
    ensures undamaged { AreLawful (map (λ p. meaning p) policies.items) → IsEmpty (S.objects store.old) →
        IsDamageStatus result → ⊥ }
    ensures untrue { AreLawful (map (λ p. meaning p) policies.items) → IsDamageStatus result →
        IsUntrue [] (S.acts store.old) (S.acts store.new) }

    // what isn't touched
    ensures untouched { result ≡ 2 → (source.new ≡ source.old) × (sink.new ≡ sink.old) × (store.new ≡ store.old) }
    ensures alone { let handed = map (λ p. (meaning p).name) policies.items in
        (g : Generated) → AreValidNames handed → read_generated handed (map string_bytes words.now) ≡ Some g →
        source.new ≡ source.old }
{
    if !have_valid_names(policies.as_slice()) {
        drop(policies);
        return 2;
    }
    if let Some(generated) = parse_generated(words, policies.as_slice()) {
        let kept = keep_used(policies, words);
        return main_generated(alloc, &generated, sink, store, kept);
    }
    let Some(settings) = parse_words(words, policies.as_slice()) else {
        drop(policies);
        return 2;
    };
    let kept = keep_used(policies, words);
    let mut env = Env {
        store: &mut *store,
        operator: settings.operator,
        transformer: transformer_of(settings.mask),
    };
    let laws: Laws<NamedExtractor> = Laws {
        options: settings.options,
        segments: settings.segments,
        policies: kept,
    };
    let ran = run_script(alloc, source, sink, &mut env, &laws);
    drop(laws);
    match ran {
        Ok(()) => 0,
        Err(error) => {
            let status = status_of(&error);
            drop(error);
            status
        }
    }
}

/// Runs the script that the words behind `gen` name, and answers the status to end with, as `run_main` does.
fn main_generated<W: Sink, S: Store>(
    alloc: Global,
    generated: &Generated,
    sink: &mut W,
    store: &mut S,
    policies: Vec<Box<dyn FilterPolicy>>,
) -> u8
    requires valid { IsValid generated.now.settings.options }
    requires names { AreValidNames (map (λ p. (meaning p).name) policies.items) }
    requires few { generated.now.rounds ≤ max_rounds }
    ensures ends { let given = map (λ p. meaning p) policies.items in
        let sunk = sink_of W.content W.faults in
        let storage = storage_of S.objects S.acts S.faults in
        EndsGenerated generated.now given given (sunk sink.old) (sunk sink.new)
        (storage store.old) (storage store.new) result }
    ensures caused { let sunk = sink_of W.content W.faults in
        let storage = storage_of S.objects S.acts S.faults in
        IsCaused (sunk sink.old) (sunk sink.new) (storage store.old) (storage store.new) result }
    ensures undamaged { AreLawful (map (λ p. meaning p) policies.items) → IsEmpty (S.objects store.old) →
        IsDamageStatus result → ⊥ }
    ensures untrue { AreLawful (map (λ p. meaning p) policies.items) → IsDamageStatus result →
        IsUntrue [] (S.acts store.old) (S.acts store.new) }
{
    let mut env = Env {
        store: &mut *store,
        operator: generated.settings.operator,
        transformer: transformer_of(generated.settings.mask),
    };
    let laws: Laws<NamedExtractor> = Laws {
        options: generated.settings.options,
        segments: generated.settings.segments,
        policies,
    };
    let ran = run_generated(
        alloc,
        generated.rounds,
        generated.seed,
        sink,
        &mut env,
        &laws,
    );
    drop(laws);
    match ran {
        Ok(()) => 0,
        Err(error) => {
            let status = status_of(&error);
            drop(error);
            status
        }
    }
}

/// The transformer of a word `xor=`, where there is one.
fn transformer_of(mask: Option<u8>) -> Option<Xor>
    ensures { option_map (λ x. x.mask) result ≡ mask }
{
    match mask {
        None => None,
        Some(mask) => Some(Xor { mask }),
    }
}

/// The status of a run that the error ended.
fn status_of(error: &SlateDBError) -> u8
    requires { IsOutside error.now ⊎ IsScriptError error.now }
    ensures { result ≡ status error.now }
{
    error.status().unwrap_or(20)
}
