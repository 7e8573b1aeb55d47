//! Entries of the journal: a change of the tree as bytes, written and read.
//!
//! An entry has, in numbers of four bytes with the highest byte first: the length of what follows it, the seconds and the
//! nanoseconds of the change's moment, the user and the group of its caller, how many further groups the caller has, these
//! groups, and the number of the procedure. The arguments follow as XDR (RFC 1813, section 3.3), with zeros as the padding.
//! So it has 28 bytes, 4 for each further group, and those of the arguments.
#![tactic(auto)]

mod fault;
mod laws;
mod length;
mod reading;
mod writing;

pub use fault::EntryFault;
pub use laws::{entries_have_one_reading, entry_at_decides, written_entries_are_read};
pub use length::entry_length;
pub use reading::read_entry;
pub use writing::write_entry;
