//! The words of a program, and the pages that it prints.
use std::env;
use std::io::ErrorKind;

/// Returns the words that the program was called with, without its name. At an error the status to
/// end with: 2 where they are no text, and 20 for want of memory.
pub fn words(rt: &HostRuntime) -> Result<Vec<String>, u8> {
    let words = match env::args(rt) {
        Ok(words) => words,
        Err(error) if error.kind() == ErrorKind::OutOfMemory => return Err(20),
        Err(_) => return Err(2),
    };
    words.skip(1).collect(rt.alloc()).map_err(|_| 20)
}

/// Prints the text and a line's end, and returns the status to end with: 6 where standard output
/// failed.
pub fn print(rt: &HostRuntime, text: &str) -> u8 {
    match println!(rt; "{text}") {
        Ok(()) => 0,
        Err(_) => 6,
    }
}
