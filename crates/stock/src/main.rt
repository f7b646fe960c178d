//! Answers lines of orders from standard input to standard output.
#![tactic(auto)]

use slate_command::{LineProgram, run_words, words};
use slate_db::laws::Laws;
use slate_language::{NamedExtractor, NamedOperator, Xor};
use slate_stock::run::run_stock;
use slate_store::{Env, ReaderSource, Store, WriterSink};
use slate_types::Options;
use std::process::ExitCode;

const HELP: &str = "Answers lines of orders: amounts of assets that move between names.

Usage: slate_stock [WORD] < LINES

The words are one of

  -              the store is in memory, as without a word
  FOLDER         the store is in this folder, which is one run's while it lives;
                 a name that begins with -, has = before its first slash, or
                 is help, shell or tell is written with ./ before it
  --help, -h     this page
  --version      the version

No line stores tables, so nothing is left in a folder when the run ends.

Lines, each answered by a line on standard output. An empty line and a comment,
which begins with #, are not.

  issue ASSET NAME AMOUNT                   an amount of an asset comes to be
  pay ASSET FROM TO AMOUNT                  an amount goes to another name
  trade ASSET BUYER SELLER QUANTITY PRICE   a quantity goes to the buyer, and
                                            price times quantity of money back
  total ASSET                               the sum of its balances, and what
                                            was issued

An asset and a name are 1 to 32 of the letters a to z and the digits. An amount,
a quantity and a price are numbers below 2^64 without leading zeros.

A line that is answered by refused, an error and what there is changes nothing.

The status is
  0   where every line was answered
  2   where a word is not known, or the folder is a file, in use or has tables
  3   at the first line that is not of the program
  4   where the lines have 4294967295 bytes or more
  5   where standard input failed     6   where standard output failed
  7   where the folder failed        20   where there is no more memory

docs/PROGRAMS.md has more, and examples/ has lines with their replies.";

const VERSION: &str = "slate_stock 0.1.0, a program on Slate";

struct Stock;

impl LineProgram for Stock {
    fn help(&self) -> &'static str {
        HELP
    }

    fn version(&self) -> &'static str {
        VERSION
    }

    fn run<S: Store>(&self, rt: &HostRuntime, store: &mut S) -> u8 {
        let alloc = rt.alloc();
        let mut source = ReaderSource::new(rt.stdin());
        let mut sink = WriterSink::new(rt.stdout());
        let mut env: Env<'_, S, NamedOperator, Xor> = Env {
            store,
            operator: None,
            transformer: None,
        };
        let laws: Laws<NamedExtractor> = Laws {
            options: Options::new(),
            segments: None,
            policies: Vec::new(alloc),
        };
        let ran = run_stock(alloc, &mut source, &mut sink, &mut env, &laws);
        drop(laws);
        match ran {
            Ok(()) => 0,
            Err(error) => error.status().unwrap_or(20),
        }
    }
}

fn main(rt: HostRuntime) -> ExitCode {
    let status = match words(&rt) {
        Ok(words) => run_words(&rt, &Stock, &words),
        Err(status) => status,
    };
    ExitCode::from(status)
}
