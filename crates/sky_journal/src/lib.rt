//! The journal of changes: two areas of a disk, in which entries stand in batches behind gates.
//!
//! An entry is a number of four bytes, and as many bytes behind it. Entries are first appended in memory, and a commit then brings all
//! pending ones to the disk as one batch: it writes the batch behind a closed gate, syncs, opens the gate, and syncs again. So a
//! crash at any moment leaves the entries before the batch, or all of it as well. `specs/Text.antt` says what the image of a
//! disk says as a journal, and `docs/JOURNAL.md` has the format.
#![tactic(auto)]

mod area;
mod areas;
mod batch;
mod closing;
mod fault;
mod gate;
mod grammar;
mod journal;
mod looking;
mod one_batch;
mod open_area;
mod pieces;
mod place;
mod read;
mod rotating;
mod span;
mod writing;

pub use fault::{AppendFault, JournalFault, NextFault};
pub use grammar::Grammar;
pub use journal::Journal;
pub use open_area::OpenArea;
pub use place::Place;
pub use read::read_journal;
