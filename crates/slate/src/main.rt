//! Runs a script from standard input, with its replies to standard output.
#![tactic(auto)]

ghost use Rattle.std.specs.Prelude.{◌≡◌, [], ◌∷◌, ◌||◌, None, is_some, map, IfOk, IsOkUnless};
ghost use Rattle.std.specs.String.{string_bytes};
ghost use Rattle.slate_store.specs.Store.{IsEmpty};
ghost use Rattle.slate_filter.specs.Laws.{AreValidNames};
ghost use Rattle.slate_language.specs.Words.{read_generated, read_words};
ghost use Rattle.slate_command.specs.FirstWord.{first_word};
ghost use Rattle.slate_script.specs.Program.{IsDamageStatus};
ghost use Rattle.slate_script.specs.Told.{IsUntrue};
ghost use Rattle.slate_table.specs.Filtered.{AreLawful};

use slate_command::{FirstWord, filters, hold, open_folder, print, words};
use slate_filter::FilterPolicy;
use slate_language::{parse_generated, parse_words};
use slate_script::run_main;
use slate_store::{MemoryStore, ReaderSource, Store, WriterSink};
use slate_types::SlateDBError;
use std::process::ExitCode;

const HELP: &str = "Runs a script of transactions over a store in memory or in a folder.

Usage: slate - [WORDS] < SCRIPT
       slate FOLDER [WORDS] < SCRIPT
       slate - gen N S [WORDS]
       slate FOLDER gen N S [WORDS]
       slate shell [-] [WORDS]
       slate shell FOLDER [WORDS]

With shell lines are answered as they are typed, and a wrong one ends nothing;
slate shell --help has more.

A store begins empty, so the folder must have no tables yet, and it is one run's
while that lives. A name that begins with -, has = before its first slash, or is
help, shell or tell is written with ./ before it.

With gen the script is made: N rounds of a read and a write, at most 100000, of
keys drawn from the number S. Its replies are counted, and one line is written.

Lines, each answered by a line on standard output. An empty line and a comment,
which begins with #, are not.

  begin T si             opens a transaction at snapshot isolation
  begin T ssi            the same, and what T reads counts for conflicts
  snapshot T             opens a snapshot, to read and no more
  get T K                shows the row of a key
  scan T O B B           shows the rows of a range; steps may follow
  prefix T O K B B       shows those of the keys that begin with K
  put T K V              sets a key; a time to live may follow
  merge T K V            merges V onto a key; a time to live may follow
  delete T K             takes a key away
  mark T K..             counts keys as read
  unmark T K..           leaves keys out of those that count as written
  commit T               commits what T put, merged and deleted
  rollback T             ends T without a commit
  write OPERATIONS       commits put K V, merge K V and delete K together
  now M                  sets the moment of later commits, in milliseconds
  freeze                 moves rows to a table in memory
  flush                  stores all rows as tables
  journal                shows all commits

  T  a name, of letters and digits      O  the order, asc or desc
  K, V  a key and a value, as 'text or 0x74657874
  B  a bound: i and a key, which is included, e and a key, which is not, or *
  steps  n and a number of rows, or s and a key to go on from
  time to live  t and milliseconds, or t- for none

Words, and in brackets what stands where one is missing:

  block=N     the bytes that a block is held to, 1 to 65535 (4096)
  table=N     the bytes at which a flush begins another table (67108864)
  format=F    v1, v2, v3 or latest, the version of tables (latest, which is v2)
  ttl=N       the time to live in milliseconds (none)
  seq=N       the sequence before the first (0)
  op=F        none, concat or max, which merges (none)
  seg=F       none, fixed<n>, colon or lastcolon, the segments of keys (none)
  xor=N       0 to 255, by which each stored byte is changed (no change)
  min=N       the rows from which on a table has filters (0)
  filter=F    none, or one or more of these words: _bf, _bf:p=colon,
              _bf:p=colon:wh=0, _bf:p=fixed4:wh=0 (_bf)

The status is
  0   where every line was answered
  2   where a word is not known, or the folder is a file, in use or has tables
  3   at the first line that is not in the language
  4   where the script has 4294967295 bytes or more
  5   where standard input failed     6   where standard output failed
  7   where the folder failed        20   where there is no more memory
  12, 14, 15, 16, 18, 19   where a table is damaged

docs/SCRIPT.md has the language, README.md what is promised, and examples/ has
scripts with their replies.";

const VERSION: &str = "slate 0.1.0, a port of slatedb 0.16.0's transaction path";

fn main(rt: HostRuntime) -> ExitCode {
    let status = match words(&rt) {
        Ok(words) => run(&rt, &words),
        Err(status) => status,
    };
    ExitCode::from(status)
}

/// Without a word, and where the first one asks for nothing, nothing is read, written, printed or
/// made.
fn run(rt: &HostRuntime, words: &[String]) -> u8
    ensures none { words.now ≡ [] → result ≡ 2 }
    ensures unknown { (w : _) (ws : _) → words.now ≡ w ∷ ws →
        first_word (string_bytes w) ≡ None → result ≡ 2 }
{
    match words {
        [first, rest @ ..] => run_by(rt, FirstWord::read(first.as_bytes()), first.as_str(), rest),
        [] => 2,
    }
}

/// Does what the first word asks for, by the words after it.
fn run_by(rt: &HostRuntime, asks: Option<FirstWord>, first: &str, words: &[String]) -> u8
    ensures { asks ≡ None → result ≡ 2 }
{
    match asks {
        Some(FirstWord::Help) if words.is_empty() => print(rt, HELP),
        Some(FirstWord::Version) if words.is_empty() => print(rt, VERSION),
        Some(FirstWord::Memory) => {
            let mut memory = MemoryStore::new(rt.alloc(), Vec::new(rt.alloc()));
            run_with(rt, None, words, &mut memory)
        }
        Some(FirstWord::Folder) => run_over_folder(rt, first, words),
        _ => 2,
    }
}

/// Runs over a store in the folder.
fn run_over_folder(rt: &HostRuntime, folder: &str, words: &[String]) -> u8 {
    match open_folder(rt, folder) {
        Ok(mut store) => {
            let status = run_with(rt, Some(folder), words, &mut store);
            store.tell(rt, status);
            status
        }
        Err(_) => 20,
    }
}

fn run_with<S: Store>(
    rt: &HostRuntime,
    folder: Option<&str>,
    words: &[String],
    store: &mut S,
) -> u8 {
    match run_filtered(rt, folder, words, store) {
        Ok(status) => status,
        Err(error) => {
            drop(error);
            20
        }
    }
}

/// Runs with the policies of filters that the program comes with, of which the words use some. Over
/// a store that was empty and is honest no table is damaged, and over one that tells its acts only
/// where a read was answered otherwise than by what the run had put.
fn run_filtered<S: Store>(
    rt: &HostRuntime,
    folder: Option<&str>,
    words: &[String],
    store: &mut S,
) -> Result<u8, SlateDBError>
    ensures undamaged { IsEmpty (S.objects store.old) → IfOk result (λ status. IsDamageStatus status → ⊥) }
    ensures untrue { IfOk result (λ status. IsDamageStatus status → IsUntrue [] (S.acts store.old) (S.acts store.new)) }
    ensures cause { IsOkUnless result SlateDBError.OutOfMemory }
{
    let alloc = rt.alloc();
    let mut policies: Vec<Box<dyn FilterPolicy>> = Vec::new(alloc);
    policies.push(Box::new(alloc, filters::whole_keys(alloc)?)?)?;
    policies.push(Box::new(alloc, filters::colon(alloc, true)?)?)?;
    policies.push(Box::new(alloc, filters::colon(alloc, false)?)?)?;
    policies.push(Box::new(alloc, filters::fixed(alloc)?)?)?;
    Ok(run_held(rt, folder, words, store, policies))
}

/// Runs with lawful policies of filters. A store in a folder is run over by words of a run alone,
/// and while no other run holds the folder.
fn run_held<S: Store>(
    rt: &HostRuntime,
    folder: Option<&str>,
    words: &[String],
    store: &mut S,
    policies: Vec<Box<dyn FilterPolicy>>,
) -> u8
    requires names { AreValidNames (map (λ p. (meaning p).name) policies.items) }
    requires lawful { AreLawful (map (λ p. meaning p) policies.items) }
    ensures undamaged { IsEmpty (S.objects store.old) → IsDamageStatus result → ⊥ }
    ensures untrue { IsDamageStatus result → IsUntrue [] (S.acts store.old) (S.acts store.new) }
{
    let Some(folder) = folder else {
        return run_lawful(rt, words, store, policies);
    };
    if !are_words(words, &policies) {
        return 2;
    }
    match hold(rt, folder) {
        Ok(held) => {
            let status = run_lawful(rt, words, store, policies);
            drop(held);
            status
        }
        Err(error) => error.status(),
    }
}

/// Whether these are words of a run.
fn are_words(words: &[String], policies: &[Box<dyn FilterPolicy>]) -> bool
    ensures { let names = map (λ p. (meaning p).name) policies.now in
        let ws = map string_bytes words.now in
        result ≡ (is_some (read_words names ws) || is_some (read_generated names ws)) }
{
    parse_words(words, policies).is_some() || parse_generated(words, policies).is_some()
}

/// Runs with lawful policies of filters.
fn run_lawful<S: Store>(
    rt: &HostRuntime,
    words: &[String],
    store: &mut S,
    policies: Vec<Box<dyn FilterPolicy>>,
) -> u8
    requires names { AreValidNames (map (λ p. (meaning p).name) policies.items) }
    requires lawful { AreLawful (map (λ p. meaning p) policies.items) }
    ensures undamaged { IsEmpty (S.objects store.old) → IsDamageStatus result → ⊥ }
    ensures untrue { IsDamageStatus result → IsUntrue [] (S.acts store.old) (S.acts store.new) }
{
    let mut source = ReaderSource::new(rt.stdin());
    let mut sink = WriterSink::new(rt.stdout());
    run_main(rt.alloc(), words, &mut source, &mut sink, store, policies)
}
