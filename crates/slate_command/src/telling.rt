//! What a person is told of a status.
use std::env;
use std::fmt::Display;

/// The variable of the environment that asks a program to say on standard error what ended its run.
/// It is the program's name.
const TELLS: &str = "SLATE_TELL";

/// Says on standard error what a status means, behind the program's name, if the environment asks
/// for it.
pub fn tell<D: Display + Drop>(rt: &HostRuntime, status: u8, meaning: D) {
    if let Ok(name) = env::var(rt, TELLS) {
        let _told = eprintln!(rt; "{name}: status {status}: {meaning}");
        drop(name);
    }
}
