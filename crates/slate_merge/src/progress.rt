//! Where an iterator stands that hands out the newest row of each key first.
use crate::groups::Groups;
use slate_types::SlateDBError;

/// An iterator that wasn't begun, one that goes on, and one that was refused.
#[derive(Drop)]
pub enum Progress {
    New,
    Going(Groups),
    Refused(SlateDBError),
}
