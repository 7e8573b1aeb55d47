//! The words of the command line: which of them are a command, and what they name.
//!
//! ```text
//! replay   --journal PATH --cloud PATH
//! clean    --cloud PATH --steps N
//! generate --journal PATH --cloud PATH --seed N --files N
//! serve    --journal PATH --cloud PATH --listen ADDRESS
//! ```
//!
//! Each command may have `--settings PATH` too. The command is the first word, and its options come behind it in any order, each of them
//! once, each followed by its value as a word of its own.
#![tactic(auto)]

mod command;
mod options;
mod paths;

pub use command::{Command, WordsFault, read_words};
pub use paths::paths_of;
