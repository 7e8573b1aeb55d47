//! The entries of a directory, each with the cookie that it keeps for as long as it stands.
#![tactic(auto)]

mod entries;
mod fault;
mod indexed;
mod kind;
mod laws;
mod page;
mod plain;

pub use entries::Entries;
pub use fault::DirFault;
pub use laws::{limits_are_as_defined, no_cookie_is_used_again};
pub use page::{Listed, PageIter};
