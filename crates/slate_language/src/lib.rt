//! The language of a script: the bytes that spell its lines and its replies, the words of a run, and the parts that words name.
//!
//! The definitions stand in `specs/`: `Grammar` says what a line's bytes are, `Parse` reads them, `Text` what
//! the bytes of a reply are, `Replies` what a script is answered, `Words` what the words of a run set, and `Generate`
//! which script a run can make for itself. What lines do stands in `slate_txn`. `script_laws` has the laws of these, and `rows` worked scripts with their replies.
#![tactic(auto)]

pub mod extractors;
pub mod generator;
pub mod operators;
pub mod parse;
pub mod parts;
pub mod reply;
pub mod rows;
pub mod script_laws;
pub mod tally;
pub mod text;
pub mod token;
pub mod words;

pub use extractors::NamedExtractor;
pub use generator::generate;
pub use operators::{Concat, Max, NamedOperator};
pub use parse::parse_line;
pub use parts::Xor;
pub use reply::{Answer, JournalEntry, reply_text};
pub use tally::Tally;
pub use text::show;
pub use token::{Token, is_word, read_bytes, read_moment, read_name, read_number, split_tokens};
pub use words::{Generated, Settings, keep_used, parse_generated, parse_words};

fn crosses<T: Send + Sync>() {}

/// The types of this crate go to other threads, and are shared between them.
pub fn types_cross_threads() {
    crosses::<
        (
            Answer,
            Generated,
            JournalEntry,
            Settings,
            Tally,
            Token<'static>,
        ),
    >();
    crosses::<(Concat, Max, NamedExtractor, NamedOperator, Xor)>();
}
