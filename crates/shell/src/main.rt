//! A shell over a store: answers lines as they are typed, and goes on after a wrong one.
#![tactic(auto)]

ghost use Rattle.std.specs.Prelude.{◌≡◌, ◌∷◌, None, map, IsOkUnless};
ghost use Rattle.std.specs.String.{string_bytes};
ghost use Rattle.slate_filter.specs.Laws.{AreValidNames};
ghost use Rattle.slate_command.specs.FirstWord.{first_word};

use slate_command::{FirstWord, filters, hold, open_folder, print, words};
use slate_filter::FilterPolicy;
use slate_language::parse_words;
use slate_shell::{Pages, run_by_words};
use slate_store::{MemoryStore, ReaderSource, Store, WriterSink};
use slate_types::SlateDBError;
use std::io::IsTerminal;
use std::process::ExitCode;

const USAGE: &str = "Answers lines over a store in memory or in a folder, as they are typed.

Usage: slate shell [-] [WORDS]
       slate shell FOLDER [WORDS]

The store is in memory without a word, as by -. One in a folder begins empty, so
the folder must have no tables yet, and it is one run's while that lives. A name
that begins with -, has = before its first slash, or is help, shell or tell is
written with ./ before it.";

const LINES: &str =
    "Lines, each answered at once. A wrong one is told, and the run goes on. Rows are
shown one a line. The lines are those of slate:

  begin T si             opens a transaction at snapshot isolation
  begin T ssi            the same, and what T reads counts for conflicts
  snapshot T             opens a snapshot, to read and no more
  get T K                shows the row of a key
  scan T O B B           shows the rows of a range; steps may follow
  prefix T O K B B       shows those of the keys that begin with K
  put T K V              sets a key; a time to live may follow
  merge T K V            merges V onto a key; a time to live may follow
  delete T K             takes a key away
  mark T K..             counts keys as read
  unmark T K..           leaves keys out of those that count as written
  commit T               commits what T put, merged and deleted
  rollback T             ends T without a commit
  write OPERATIONS       commits put K V, merge K V and delete K together
  now M                  sets the moment of later commits, in milliseconds
  freeze                 moves rows to a table in memory
  flush                  stores all rows as tables
  journal                shows all commits

  T  a name, of letters and digits      O  the order, asc or desc
  K, V  a key and a value, as 'text or 0x74657874
  B  a bound: i and a key, which is included, e and a key, which is not, or *
  steps  n and a number of rows, or s and a key to go on from
  time to live  t and milliseconds, or t- for none

Beside these a shell takes

  get K, scan O B B, prefix O K B B      reads of the store as it is now
  \"a text\"             for K and V, with \\\" \\\\ and \\x20 in it
  help                   this page of lines
  quit                   ends the run, as the end of the input does
";

const WORDS: &str = "Words, and in brackets what stands where one is missing:

  block=N     the bytes that a block is held to, 1 to 65535 (4096)
  table=N     the bytes at which a flush begins another table (67108864)
  format=F    v1, v2, v3 or latest, the version of tables (latest, which is v2)
  ttl=N       the time to live in milliseconds (none)
  seq=N       the sequence before the first (0)
  op=F        none, concat or max, which merges (none)
  seg=F       none, fixed<n>, colon or lastcolon, the segments of keys (none)
  xor=N       0 to 255, by which each stored byte is changed (no change)
  min=N       the rows from which on a table has filters (0)
  filter=F    none, or one or more of these words: _bf, _bf:p=colon,
              _bf:p=colon:wh=0, _bf:p=fixed4:wh=0 (_bf)

The status is
  0   at the end of the lines
  2   where a word is not known, or the folder is a file, in use or has tables
  4   where the lines have 4294967295 bytes or more
  5   where standard input failed     6   where standard output failed
  7   where the folder failed        20   where there is no more memory
  12, 14, 15, 16, 18, 19   where a table is damaged

docs/PROGRAMS.md has more.";

const VERSION: &str = "slate_shell 0.1.0, a shell over Slate";

fn main(rt: HostRuntime) -> ExitCode {
    let status = match words(&rt) {
        Ok(words) => run(&rt, &words),
        Err(status) => status,
    };
    ExitCode::from(status)
}

/// Without a word the store is in memory. If the first word asks for nothing, nothing is read,
/// written, printed or made.
fn run(rt: &HostRuntime, words: &[String]) -> u8
    ensures unknown { (w : _) (ws : _) → words.now ≡ w ∷ ws →
        first_word (string_bytes w) ≡ None → result ≡ 2 }
{
    match words {
        [first, rest @ ..] => run_by(rt, FirstWord::read(first.as_bytes()), first.as_str(), rest),
        [] => run_in_memory(rt, words),
    }
}

fn run_by(rt: &HostRuntime, asks: Option<FirstWord>, first: &str, words: &[String]) -> u8
    ensures { asks ≡ None → result ≡ 2 }
{
    match asks {
        Some(FirstWord::Help) if words.is_empty() => print_help(rt),
        Some(FirstWord::Version) if words.is_empty() => print(rt, VERSION),
        Some(FirstWord::Memory) => run_in_memory(rt, words),
        Some(FirstWord::Folder) => run_over_folder(rt, first, words),
        _ => 2,
    }
}

fn print_help(rt: &HostRuntime) -> u8 {
    match println!(rt; "{USAGE}\n\n{LINES}\n{WORDS}") {
        Ok(()) => 0,
        Err(_) => 6,
    }
}

fn run_in_memory(rt: &HostRuntime, words: &[String]) -> u8 {
    let mut memory = MemoryStore::new(rt.alloc(), Vec::new(rt.alloc()));
    run_with(rt, None, words, &mut memory)
}

fn run_over_folder(rt: &HostRuntime, folder: &str, words: &[String]) -> u8 {
    match open_folder(rt, folder) {
        Ok(mut store) => {
            let status = run_with(rt, Some(folder), words, &mut store);
            store.tell(rt, status);
            status
        }
        Err(_) => 20,
    }
}

fn run_with<S: Store>(
    rt: &HostRuntime,
    folder: Option<&str>,
    words: &[String],
    store: &mut S,
) -> u8 {
    match run_filtered(rt, folder, words, store) {
        Ok(status) => status,
        Err(error) => {
            drop(error);
            20
        }
    }
}

/// Runs with the policies of filters that the programs come with.
fn run_filtered<S: Store>(
    rt: &HostRuntime,
    folder: Option<&str>,
    words: &[String],
    store: &mut S,
) -> Result<u8, SlateDBError>
    ensures cause { IsOkUnless result SlateDBError.OutOfMemory }
{
    let alloc = rt.alloc();
    let mut policies: Vec<Box<dyn FilterPolicy>> = Vec::new(alloc);
    policies.push(Box::new(alloc, filters::whole_keys(alloc)?)?)?;
    policies.push(Box::new(alloc, filters::colon(alloc, true)?)?)?;
    policies.push(Box::new(alloc, filters::colon(alloc, false)?)?)?;
    policies.push(Box::new(alloc, filters::fixed(alloc)?)?)?;
    Ok(run_held(rt, folder, words, store, policies))
}

/// Runs over a folder only by words of a run, and while no other run holds it.
fn run_held<S: Store>(
    rt: &HostRuntime,
    folder: Option<&str>,
    words: &[String],
    store: &mut S,
    policies: Vec<Box<dyn FilterPolicy>>,
) -> u8
    requires names { AreValidNames (map (λ p. (meaning p).name) policies.items) }
{
    let Some(folder) = folder else {
        return run_typed(rt, words, store, policies);
    };
    if parse_words(words, &policies).is_none() {
        return 2;
    }
    match hold(rt, folder) {
        Ok(held) => {
            let status = run_typed(rt, words, store, policies);
            drop(held);
            status
        }
        Err(error) => error.status(),
    }
}

/// Runs over standard input and standard output. If both are a terminal's, a prompt is written
/// before each line.
fn run_typed<S: Store>(
    rt: &HostRuntime,
    words: &[String],
    store: &mut S,
    policies: Vec<Box<dyn FilterPolicy>>,
) -> u8
    requires names { AreValidNames (map (λ p. (meaning p).name) policies.items) }
{
    let typed = rt.stdin().is_terminal() && rt.stdout().is_terminal();
    let prompt = if typed { "slate> " } else { "" };
    let pages = Pages {
        prompt,
        help: LINES,
    };
    let mut source = ReaderSource::new(rt.stdin());
    let mut sink = WriterSink::new(rt.stdout());
    run_by_words(
        rt.alloc(),
        words,
        &mut source,
        &mut sink,
        store,
        policies,
        pages,
    )
}
