//! Where entries lead to.

/// Where an entry leads to, besides the entry that comes after it. Places of entries count from 0.
#[derive(Clone, Copy)]
pub struct EntryLinks {
    /// Where GOTO goes, or RECEIVE at the end of its channel.
    pub jump: Option<u32>,
    /// Where a test goes when it fails, or a loop that has no trips.
    pub other: u32,
}
