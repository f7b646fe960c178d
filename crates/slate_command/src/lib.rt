//! What programs share: their first word, the folder that it names, and the filters that they come
//! with.
#![tactic(auto)]

pub mod arguments;
pub mod filters;
pub mod first_word;
pub mod folder;
pub mod line_program;
pub mod telling;
pub mod watched;
pub mod watched_files;

pub use arguments::{print, words};
pub use first_word::FirstWord;
pub use folder::{FolderError, hold};
pub use line_program::{LineProgram, run_words};
pub use telling::tell;
pub use watched::{FolderStore, Watched, open_folder};
pub use watched_files::{LastError, WatchedFiles};
