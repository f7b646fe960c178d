//! Reads the tables that a run left in a folder, with its lines to standard output.
#![tactic(auto)]

ghost use Rattle.std.specs.Prelude.{◌≡◌, [], ◌∷◌, None};
ghost use Rattle.std.specs.String.{string_bytes};
ghost use Rattle.slate_command.specs.FirstWord.{first_word};

mod export;
mod folder;
mod request;

use crate::export::{export, status_of};
use crate::folder::{read_folder, tell_fault, test_folder};
use crate::request::read_request;
use slate_command::{FirstWord, print, words};
use slate_language::Xor;
use slate_store::WriterSink;
use slate_tables::run_tables;
use std::process::ExitCode;

const HELP: &str = "Reads the tables that a run of slate left in a folder.

Usage: slate_tables FOLDER list [WORDS]
       slate_tables FOLDER check [WORDS]
       slate_tables FOLDER rows [FLUSH [PLACE]] [WORDS]
       slate_tables FOLDER state [ORDER FROM TO] [WORDS]
       slate_tables FOLDER get KEY [WORDS]
       slate_tables FOLDER script [WORDS]

The words are those of the run, as they were; xor= alone is used, and by
state, get and script op= too. ORDER, FROM, TO and KEY are as in a line of
slate: asc or desc, a bound as i'key, e'key or *, and 'key.

  list    what each table says of itself; no block is read
  check   reads each section and each block of each table
  rows    the rows as they are stored: of all tables, of a flush's, or of one
  state   of each key the row that all tables fold to, as a get answers it: of
          all keys, rising, or of those between two bounds, in an order
  get     the row of one key, or none
  script  a script that makes this state in a new store

state, get and script check all tables first, and write nothing where one is
damaged. The others write a line for each table, with the number of its flush
and its place in the flush:

  table FLUSH PLACE VERSION BYTES PUTS DELETES MERGES FIRST LAST FILTERS
  whole FLUSH PLACE VERSION ROWS LEAST GREATEST FIRST LAST
  damaged FLUSH PLACE PART NUMBER OFFSET ERROR

or for each row, and for each file that is no table:

  put, merge or delete FLUSH PLACE KEY VALUE SEQUENCE CREATED EXPIRES
  other PATH

and a last one: tables N damaged N rows N. The status is
  0   if no table is damaged      2   if the words are not known
  6   if standard output failed   7   if the folder failed
  12, 14, 15, 16   that of the first damage
  20  if there is no more memory

A run that ended with another status than 0 may have left half a flush.
docs/TABLES.md has more.";

const VERSION: &str = "slate_tables 0.1.0, a reader of tables on Slate";

fn main(rt: HostRuntime) -> ExitCode {
    let status = match words(&rt) {
        Ok(words) => run(&rt, words),
        Err(status) => status,
    };
    ExitCode::from(status)
}

/// Without a word, and where the first one names no folder, nothing is read or written.
fn run(rt: &HostRuntime, words: Vec<String>) -> u8
    ensures none { words.items ≡ [] → result ≡ 2 }
    ensures unknown { (w : _) (ws : _) → words.items ≡ w ∷ ws →
        first_word (string_bytes w) ≡ None → result ≡ 2 }
{
    let mut words = words;
    if words.is_empty() {
        return 2;
    }
    let first = words.remove(0);
    let status = run_by(rt, FirstWord::read(first.as_bytes()), first.as_str(), words);
    drop(first);
    status
}

/// Does what the first word asks for, by the words after it.
fn run_by(rt: &HostRuntime, asks: Option<FirstWord>, first: &str, words: Vec<String>) -> u8
    ensures { asks ≡ None → result ≡ 2 }
{
    match asks {
        Some(FirstWord::Help) if words.is_empty() => print(rt, HELP),
        Some(FirstWord::Version) if words.is_empty() => print(rt, VERSION),
        Some(FirstWord::Folder) => {
            match test_folder(rt, first) {
                Ok(()) => run_over(rt, first, words),
                Err(status) => status,
            }
        }
        _ => 2,
    }
}

/// Exports the tables where the words ask for it, and reads them otherwise.
fn run_over(rt: &HostRuntime, folder: &str, words: Vec<String>) -> u8 {
    let mut words = words;
    words.retain(|word| !is_of_filters(word.as_bytes()));
    match read_request(rt.alloc(), words.as_slice()) {
        Ok(Some(request)) => {
            drop(words);
            let status = export(rt, folder, &request);
            drop(request);
            status
        }
        Ok(None) => read_tables(rt, folder, words),
        Err(error) => {
            drop(words);
            status_of(error)
        }
    }
}

fn is_of_filters(word: &[u8]) -> bool {
    word.starts_with(b"filter=".as_slice())
}

fn read_tables(rt: &HostRuntime, folder: &str, words: Vec<String>) -> u8 {
    match read_folder(rt, folder, None::<Xor>) {
        Ok(mut reader) => {
            let mut sink = WriterSink::new(rt.stdout());
            let status = run_tables(rt.alloc(), words, &mut sink, &mut reader);
            tell_fault(rt, status, &reader);
            status
        }
        Err(status) => status,
    }
}
