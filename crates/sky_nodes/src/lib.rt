//! The nodes of a file tree by their fileids, each with its attributes and what it holds.
#![tactic(auto)]

mod edits;
mod entries;
mod file_bytes;
mod moves;
mod node;
mod nodes;

pub use file_bytes::FileBytes;
pub use node::{Content, Node};
pub use nodes::Nodes;
