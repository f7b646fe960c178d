//! A run over a store that keeps its reads.
ghost use Rattle.std.specs.Prelude.{◌≡◌, [], ℕ, List, Some, map};
ghost use Rattle.std.specs.String.{string_bytes};
ghost use Rattle.slate_store.specs.Lines.{lines_of};
ghost use Rattle.slate_filter.specs.Laws.{AreValidNames};
ghost use Rattle.slate_table.specs.Filtered.{AreLawful};
ghost use Rattle.slate_language.specs.declared.words.Generated.{Generated};
ghost use Rattle.slate_language.specs.declared.words.Settings.{Settings};
ghost use Rattle.slate_language.specs.Generate.{generate};
ghost use Rattle.slate_language.specs.Words.{read_generated, read_words, used};
ghost use Rattle.slate_script.specs.Calls.Main.{Ends};
ghost use Rattle.slate_script.specs.LineReads.{IsReadInParts};
ghost use Rattle.slate_script.specs.Program.{parts_of, segments_of};
ghost use Rattle.slate_script.specs.Terms.{new_storage, storage_of, streams_of, terms_of};

use crate::program::run_main;
use slate_filter::FilterPolicy;
use slate_store::{LyingStore, Sink, Source, Store};
use std::alloc::Global;

/// Runs a script as `run_main` does, over a new store in memory that answers honestly and keeps its reads, and gives the status and that store.
/// Of that run all is said that `run_main` says of its own.
///
/// At 0, by lawful policies, what it did is one part for each line of the script, one behind the other, over the tables that it holds then. In the
/// part of a line that gets a key, where policies are used, a block of a table with filters is read behind these alone, and only where they don't
/// deny the key, and where the row that is got takes one of a commit that was flushed, a block is read that has the key. Flushes alone put, gets
/// and scans alone read, and a get of a name that isn't open does neither.
pub fn run_recorded<R: Source, W: Sink>(
    alloc: Global,
    words: &[String],
    source: &mut R,
    sink: &mut W,
    policies: Vec<Box<dyn FilterPolicy>>,
) -> (u8, LyingStore)
    ensures ends { let ws = map string_bytes words.now in
        let handed = map (λ p. (meaning p).name) policies.items in
        let given = map (λ p. meaning p) policies.items in
        let streams = streams_of R.left R.faults W.content W.faults in
        let storage = storage_of ⟦<LyingStore as Store>⟧.objects ⟦<LyingStore as Store>⟧.acts ⟦<LyingStore as Store>⟧.faults in
        Ends ws handed given (streams source.old sink.old) (streams source.new sink.new)
        new_storage (storage result.1) result.0 }
    ensures script { let ws = map string_bytes words.now in
        let handed = map (λ p. (meaning p).name) policies.items in
        let given = map (λ p. meaning p) policies.items in
        (s : Settings) (script : List ℕ) → AreValidNames handed → read_words handed ws ≡ Some s → AreLawful given →
        R.left source.old ≡ Some script → result.0 ≡ 0 →
        IsReadInParts (terms_of s.options (segments_of s) (used ws given) (parts_of s)) (lines_of script)
        [] (Some result.1.acts) (⟦<LyingStore as Store>⟧.objects result.1) }
    ensures generated { let ws = map string_bytes words.now in
        let handed = map (λ p. (meaning p).name) policies.items in
        let given = map (λ p. meaning p) policies.items in
        (g : Generated) → AreValidNames handed → read_generated handed ws ≡ Some g → AreLawful given → result.0 ≡ 0 →
        IsReadInParts (terms_of g.settings.options (segments_of g.settings) (used ws given) (parts_of g.settings))
        (lines_of (generate g.rounds g.seed)) [] (Some result.1.acts) (⟦<LyingStore as Store>⟧.objects result.1) }
{
    let answers = Vec::new(alloc);
    let mut store = LyingStore::new(alloc, answers);
    let status = run_main(alloc, words, source, sink, &mut store, policies);
    (status, store)
}
