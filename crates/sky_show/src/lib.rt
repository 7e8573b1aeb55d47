//! The answers of the proxy as lines that people read: one line for each frame that `bluesky replay` writes. The recording tells which call
//! a reply answers.
#![tactic(auto)]

mod answered;
mod answers;
mod called;
mod calls;
mod ending;
mod head;
mod line;
mod mounts;
mod outcomes;
mod parts;
mod procedures;
mod reply;
mod results;
mod showing;
mod statuses;
mod streams;
mod waiting;

pub use ending::Ending;
pub use showing::show;
