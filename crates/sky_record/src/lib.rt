//! The records of a stream (record marking, RFC 5531, section 11), however the stream is cut into pieces.
#![tactic(auto)]

mod assembler;
mod laws;
mod stream;

pub use assembler::{Assembler, Fed};
pub use laws::{
    each_piece_completes_its_records, each_stream_has_one_reading, limit_is_as_defined,
};
pub use stream::assemble;

/// The most bytes that a record may have, without its headers: 131,072.
pub const RECORD_LIMIT: usize = 131_072;
