//! What becomes of a change.

use sky_nfs::Answer;

/// What becomes of a change.
#[derive(Drop)]
pub enum Outcome {
    /// It was answered: done, or refused.
    Done(Answer),
    /// It would be answered OK, but the journal has no room for it: to be tried again (NFS3ERR_JUKEBOX, RFC 1813 section 2.6).
    Jukebox {
        /// How many bytes are left in the journal's area.
        room: u64,
        /// How many the batch with the change would take.
        wanted: u64,
    },
    /// A call of the journal's disk failed. The journal is to be read anew.
    Down,
    /// There was no memory for it.
    Memory,
}
