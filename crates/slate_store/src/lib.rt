//! The outside world: where a script comes from, where its replies go, and where objects stand.
#![tactic(auto)]

pub mod env;
mod faults;
pub mod file_store;
mod folder;
pub mod laws;
pub mod lines;
pub mod lying_store;
pub mod memory;
pub mod memory_store;
pub(crate) mod object_list;
mod open_files;
pub mod path_text;
mod place;
pub mod run;
pub mod sink;
pub mod source;
pub mod store;
pub mod stream;

pub use env::{Env, EnvOf};
pub use file_store::FileStore;
pub use lines::Lines;
pub use lying_store::{LyingStore, StoreRead};
pub use memory::{MemorySink, MemorySource};
pub use memory_store::MemoryStore;
pub use path_text::PathText;
pub use run::{Program, run_lines};
pub use sink::{Sink, write_all};
pub use source::Source;
pub use store::{Store, StoreError};
pub use stream::{ReaderSource, WriterSink};

/// A source or a sink failed. Its count of faults has risen.
#[derive(Clone, Copy, Debug)]
pub struct Failed;
