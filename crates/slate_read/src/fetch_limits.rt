//! How far the blocks of a table are read ahead.

/// How far the blocks of a table are read ahead, of those that can hold keys of the range.
#[derive(Clone, Copy)]
pub struct FetchLimits {
    /// How many reads of neighbouring blocks are made before the next row is handed out, where so many blocks are left. One is made
    /// in any case.
    pub tasks: u32,
    /// How many bytes the sections of the blocks of one read have at least, where so many blocks are left. One block is read in any
    /// case.
    pub bytes: u64,
}
