//! XDR, the External Data Representation of RFC 4506: a reader over borrowed bytes and a writer
//! into a caller's buffer. No call takes memory.
#![tactic(auto)]

mod fault;
mod laws;
mod padding;
mod reader;
mod writer;

pub use fault::{NoRoom, XdrFault};
pub use laws::{only_encoding, read_again};
pub use padding::opaque_length;
pub use reader::Reader;
pub use writer::Writer;
