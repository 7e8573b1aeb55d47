//! The MOUNT protocol, version 3 (RFC 1813, section 5): calls are read, and their results are written. The root of the
//! volume is exported at `/`, for everyone. No call takes memory or touches a tree.
#![tactic(auto)]

mod args;
mod laws;
mod results;

pub use args::{ArgFault, MountCall, read_mount};
pub use laws::{arguments_are_read, results_are_told_apart};
pub use results::write_mount;
