//! Checkpoints of the log, and what the names of the objects in the cloud say of them.
#![tactic(auto)]

mod check;
mod laws;
mod listing;

pub use check::{Check, PageLinks};
pub use laws::{checkpoints_come_back, the_last_checkpoint_is_the_greatest};
pub use listing::{complete_run, last_check, next_run};
