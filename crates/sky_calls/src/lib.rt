//! Calls that change the file tree, each through the journal: a change that was answered OK as stable lasts through a crash.
//!
//! A change is first answered, while the tree is as before. Then the journal's room is looked at, memory is taken, the tree is
//! changed and the change is appended to the journal; and it is committed, with all that is pending, unless it is a WRITE
//! whose data may wait (UNSTABLE, RFC 1813 section 3.3.7). So all memory is taken before the first write of the disk.
#![tactic(auto)]

mod durable;
mod outcome;
mod stable;

pub use durable::DurableTree;
pub use outcome::Outcome;
