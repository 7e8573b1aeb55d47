//! The map of inodes, in pages: where the inode of each fileid lies in the log.
#![tactic(auto)]

mod laws;
mod links;
mod page;

pub use laws::{limits_are_as_defined, pages_come_back, pages_keep_their_links};
pub use links::link_at;
pub use page::{Page, page_of};
