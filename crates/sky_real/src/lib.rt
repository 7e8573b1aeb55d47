//! Real devices: a journal's file and a folder of objects as the place that the proxy works on, and a reader and a
//! writer, as standard input and output, as where a recorded session comes from and goes to.
//!
//! Each of them counts its own faults and tells nothing of what it holds: no clause can say what a file system does.
//! So what is proved of them is how they count, what they answer without a file, and where an object lies.
#![tactic(auto)]

mod faults;
mod file_site;
mod folder;
mod journal;
mod lengths;
mod object;
mod stdio;

pub use file_site::FileSite;
pub use stdio::{StdinSource, StdoutSink};
