//! What the program says of how it ended, behind the line `bluesky: status N`: its name, what happened and where, and what to do.
#![tactic(auto)]

mod advice;
mod ending;
mod object;

pub use ending::Ending;
