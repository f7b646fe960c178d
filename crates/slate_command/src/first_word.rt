//! What a program's first word asks for.
ghost use Rattle.std.specs.Prelude.{◌≡◌, bytes_eq};
ghost use Rattle.slate_command.specs.FirstWord.{first_word, is_reserved, is_mark, names_folder, sets_option};

/// What a program's first word asks for.
#[derive(Clone, Copy, Debug, PartialEq, Eq)]
pub enum FirstWord {
    /// The page of its words and lines.
    Help,
    /// Its version.
    Version,
    /// A run over a store in memory.
    Memory,
    /// A run over a store in the folder of this name.
    Folder,
}

impl FirstWord {
    /// Reads the first word: `--help` or `-h`, `--version`, `-` for memory, and else the name of a
    /// folder. `None` exactly if it can't be meant as one: it is empty, `help`, `shell` or `tell`,
    /// begins with `-`, or has `=` before its first slash, as an option has. Such a folder is named
    /// with `./` before it.
    pub fn read(word: &[u8]) -> Option<FirstWord>
        ensures { result ≡ first_word word.now }
    {
        if is(word, b"--help") || is(word, b"-h") {
            Some(FirstWord::Help)
        } else if is(word, b"--version") {
            Some(FirstWord::Version)
        } else if is(word, b"-") {
            Some(FirstWord::Memory)
        } else if names_folder(word) {
            Some(FirstWord::Folder)
        } else {
            None
        }
    }
}

fn is(word: &[u8], text: &[u8]) -> bool
    ensures { result ≡ bytes_eq word.now text.now }
{
    word == text
}

fn names_folder(word: &[u8]) -> bool
    ensures { result ≡ names_folder word.now }
{
    match word.first() {
        Some(first) => *first != b'-' && !is_reserved(word) && !sets_option(word),
        None => false,
    }
}

/// Whether it is a word for which the files that start programs, or a person, mean something else.
fn is_reserved(word: &[u8]) -> bool
    ensures { result ≡ is_reserved word.now }
{
    is(word, b"help") || is(word, b"shell") || is(word, b"tell")
}

/// Whether `=` stands before the first slash.
fn sets_option(word: &[u8]) -> bool
    ensures { result ≡ sets_option word.now }
{
    let mut left = word;
    while let Some((byte, rest)) = left.split_first() {
        if is_mark(*byte) {
            return *byte == b'=';
        }
        left = rest;
    }
    false
}

fn is_mark(byte: u8) -> bool
    ensures { result ≡ is_mark byte }
{
    byte == b'=' || byte == b'/'
}
