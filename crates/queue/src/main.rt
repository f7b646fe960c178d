//! Runs a script of a queue from standard input, with its replies to standard output.
#![tactic(auto)]

use slate_command::{LineProgram, run_words, words};
use slate_db::laws::Laws;
use slate_filter::FilterPolicy;
use slate_language::{NamedExtractor, NamedOperator, Xor};
use slate_queue::run_queue;
use slate_store::{Env, ReaderSource, Store, WriterSink};
use slate_types::Options;
use std::process::ExitCode;

const HELP: &str = "Answers lines of a queue of jobs, which workers claim for some time.

Usage: slate_queue [WORD] < LINES

The words are one of

  -              the store is in memory, as without a word
  FOLDER         the store is in this folder, which is one run's while it lives;
                 a name that begins with -, has = before its first slash, or
                 is help, shell or tell is written with ./ before it
  --help, -h     this page
  --version      the version

No line stores tables, so nothing is left in a folder when the run ends.

Lines, each answered by a line on standard output. An empty line and a comment,
which begins with #, are not.

  add PAYLOAD           adds a job, and shows its id
  claim NOW MS          claims the oldest job that is free, at a moment and for
                        so many milliseconds, and shows id, lease and payload
  finish ID LEASE       finishes a job that was claimed under this lease
  feed AFTER            shows the commits after this number, and how many keys
                        each has

A payload is 'text, of visible bytes and without an end, or 0x74657874, bytes in
hex. NOW is a number of milliseconds, which may be negative; the others are
numbers below 2^64 without leading zeros.

A line that is answered by refused, an error and what there is changes nothing.

The status is
  0   where every line was answered
  2   where a word is not known, or the folder is a file, in use or has tables
  3   at the first line that is not of the program
  4   where the lines have 4294967295 bytes or more
  5   where standard input failed     6   where standard output failed
  7   where the folder failed        20   where there is no more memory

docs/PROGRAMS.md has more, and examples/ has lines with their replies.";

const VERSION: &str = "slate_queue 0.1.0, a program on Slate";

struct Queue;

impl LineProgram for Queue {
    fn help(&self) -> &'static str {
        HELP
    }

    fn version(&self) -> &'static str {
        VERSION
    }

    fn run<S: Store>(&self, rt: &HostRuntime, store: &mut S) -> u8 {
        let alloc = rt.alloc();
        let mut env: Env<'_, S, NamedOperator, Xor> = Env {
            store,
            operator: None,
            transformer: None,
        };
        let policies: Vec<Box<dyn FilterPolicy>> = Vec::new(alloc);
        let laws: Laws<NamedExtractor> = Laws {
            options: Options::new(),
            segments: None,
            policies,
        };
        let mut source = ReaderSource::new(rt.stdin());
        let mut sink = WriterSink::new(rt.stdout());
        let ran = run_queue(alloc, &mut source, &mut sink, &mut env, &laws);
        drop(laws);
        match ran {
            Ok(()) => 0,
            Err(error) => {
                let status = error.status().unwrap_or(20);
                drop(error);
                status
            }
        }
    }
}

fn main(rt: HostRuntime) -> ExitCode {
    let status = match words(&rt) {
        Ok(words) => run_words(&rt, &Queue, &words),
        Err(status) => status,
    };
    ExitCode::from(status)
}
