//! What lines ask for.

use crate::inventory::Change;

/// What a line asks for.
#[derive(Drop)]
pub enum Command<'a> {
    /// A change of what is there of an item.
    Change(&'a str, Change),
    Flush,
    Report,
}

impl<'a> Command<'a> {
    /// What a line asks for, and None where that is nothing known.
    pub fn read(line: &'a str) -> Option<Command<'a>> {
        match line {
            "flush" => return Some(Command::Flush),
            "report" => return Some(Command::Report),
            _ => {}
        }
        let (word, rest) = line.split_once(' ')?;
        let (item, count) = rest.split_once(' ')?;
        let count = count.parse::<u64>().ok()?;
        match word {
            "receive" => Some(Command::Change(item, Change::More(count))),
            "sell" => Some(Command::Change(item, Change::Less(count))),
            _ => None,
        }
    }
}
