//! Programs that answer lines, and take no words but the first.
ghost use Rattle.std.specs.Prelude.{◌≡◌, ◌∷◌, None};
ghost use Rattle.std.specs.String.{string_bytes};
ghost use Rattle.slate_command.specs.FirstWord.{first_word};

use crate::arguments::print;
use crate::first_word::FirstWord;
use crate::folder::hold;
use crate::watched::open_folder;
use slate_store::{MemoryStore, Store};

/// A program that answers lines of standard input, over a store that is empty at the start.
pub trait LineProgram {
    /// Returns the page that `--help` prints.
    fn help(&self) -> &'static str;

    /// Returns the line that `--version` prints.
    fn version(&self) -> &'static str;

    /// Answers all lines over the store, and returns the status to end with.
    fn run<S: Store>(&self, rt: &HostRuntime, store: &mut S) -> u8;
}

/// Does what the program's words ask for, and returns the status to end with. Without a word the
/// store is in memory, as by `-`. Where the first word asks for nothing, or another one follows it,
/// nothing is read, written, printed or made.
pub fn run_words<P: LineProgram>(rt: &HostRuntime, program: &P, words: &[String]) -> u8
    ensures unknown { (w : _) (ws : _) → words.now ≡ w ∷ ws →
        first_word (string_bytes w) ≡ None → result ≡ 2 }
    ensures more { (v w : _) (ws : _) → words.now ≡ v ∷ w ∷ ws → result ≡ 2 }
{
    match words {
        [] => run_in_memory(rt, program),
        [word] => run_by(rt, program, FirstWord::read(word.as_bytes()), word.as_str()),
        _ => 2,
    }
}

fn run_by<P: LineProgram>(rt: &HostRuntime, program: &P, asks: Option<FirstWord>, word: &str) -> u8
    ensures { asks ≡ None → result ≡ 2 }
{
    match asks {
        Some(FirstWord::Help) => print(rt, program.help()),
        Some(FirstWord::Version) => print(rt, program.version()),
        Some(FirstWord::Memory) => run_in_memory(rt, program),
        Some(FirstWord::Folder) => run_over_folder(rt, program, word),
        None => 2,
    }
}

fn run_in_memory<P: LineProgram>(rt: &HostRuntime, program: &P) -> u8 {
    let mut store = MemoryStore::new(rt.alloc(), Vec::new(rt.alloc()));
    program.run(rt, &mut store)
}

/// Runs over a store in the folder, which is made where it is missing, and held while the run
/// lives.
fn run_over_folder<P: LineProgram>(rt: &HostRuntime, program: &P, folder: &str) -> u8 {
    match hold(rt, folder) {
        Ok(held) => {
            let status = run_in(rt, program, folder);
            drop(held);
            status
        }
        Err(error) => error.status(),
    }
}

fn run_in<P: LineProgram>(rt: &HostRuntime, program: &P, folder: &str) -> u8 {
    match open_folder(rt, folder) {
        Ok(mut store) => {
            let status = program.run(rt, &mut store);
            store.tell(rt, status);
            status
        }
        Err(_) => 20,
    }
}
