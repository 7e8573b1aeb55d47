//! An open area of the journal, as it is known in memory.

/// An open area: where it lies, and how far it is filled.
#[derive(Clone, Copy)]
pub struct OpenArea {
    /// Where it begins on the disk, in bytes: 0, or the size of an area.
    pub start: u64,
    /// The number of the last entry before it.
    pub base: u64,
    /// The number of its last entry: its base, where it has none.
    pub last: u64,
    /// Where in it the gate of the next batch is, in bytes.
    pub end: u64,
}
