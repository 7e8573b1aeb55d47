//! Recorded sessions, frame by frame: frames that go in are read from a source, and frames that come
//! out are written to a sink.
#![tactic(auto)]

mod frame;
mod laws;
mod reading;
mod writing;

pub use frame::{Frame, OutFrame, Stats};
pub use laws::all_bytes_have_one_beginning;
pub use reading::{FrameBuf, FrameFault, read_frame};
pub use writing::{HEADER_ROOM, write_frame, write_out_frame, write_reply_frame};

/// How many sessions a recording may have. They are numbered from 0.
pub const SESSION_COUNT: u32 = 256;

/// The most bytes that a frame's payload has: 2^20.
pub const PAYLOAD_LIMIT: u32 = 1_048_576;
