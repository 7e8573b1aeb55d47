//! The results of the 22 procedures of NFS version 3 (RFC 1813 section 3.3): how long an answer is in XDR, and writing
//! it into a caller's buffer. No call takes memory.
#![tactic(auto)]

mod answer;
mod attributes;
mod changes;
mod laws;
mod pages;
mod ranges;
mod readings;
mod status;
mod wcc;

pub use answer::{answer_length, is_encodable, write_answer};
pub use laws::{answers_are_bounded, one_reading};
pub use ranges::answers_are_in_range;
