//! How many bytes of each object of the cloud are in use: those of the items that some page, inode or block still
//! names. The rest of an object is waste, and where there is enough of it the cleaner copies what is left.
#![tactic(auto)]

mod iter;
mod laws;
mod usage;

pub use iter::UsageIter;
pub use laws::usage_is_a_sum;
pub use usage::Usage;
