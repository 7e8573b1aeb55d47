//! How a row ends.

use sky_base::Status;
use sky_script::FrameFault;
use std::fmt;

/// Why no further frame is done.
#[derive(Clone, Copy, Debug, PartialEq, Eq)]
pub enum Cause {
    /// The site could not be opened.
    Refused(Status),
    /// All frames were done.
    Done,
    /// The next frame could not be read.
    Read(FrameFault),
    /// A step failed.
    Step(Status),
    /// The world had ended before.
    Over,
}

/// How a row ends.
#[derive(Clone, Copy)]
pub struct Ending {
    pub cause: Cause,
    /// Whether the world says that it ended.
    pub ended: bool,
}

impl fmt::Display for Ending {
    fn fmt<W: fmt::Write>(&self, f: &mut fmt::Formatter<W>) -> fmt::Result {
        let cause = self.cause;
        let ended = self.ended;
        write!(f, "{cause:?} ended={ended}")
    }
}
