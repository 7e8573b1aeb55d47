//! The frames of a recorded session, as values.

ghost use Rattle.std.specs.Prelude.{◌≡◌, length as length_of};
ghost use Rattle.std.specs.Bool.{OnTrue, OnFalse};
ghost use Rattle.sky_script.specs.Frame.{IsInFrame, in_frame};
ghost use Rattle.sky_script.specs.Values.{frame_of};

use sky_base::{Moment, Status};

/// A frame of a recorded session. What it carries lies in the buffer that it was read into.
#[derive(Drop)]
pub enum Frame<'a> {
    /// Kind 1: a session begins anew, and its stream is empty.
    Begin { session: u32 },
    /// Kind 2: the next bytes of a session's stream.
    Bytes { session: u32, payload: &'a [u8] },
    /// Kind 3: a session ends.
    Close { session: u32 },
    /// Kind 4: the moment of the steps that follow.
    SetMoment(Moment),
    /// Kind 16: what does the proxy have, as numbers?
    Stat,
    /// Kind 20: the proxy is stopped, and opened again.
    Restart,
    /// Kind 21: the same, and what its journal has is given up.
    RestartWithoutJournal,
    /// Kind 99: the recording ends.
    End,
}

impl Frame<'_> {
    /// The bytes that it takes in the recording.
    pub fn length(&self) -> u64
        requires { IsInFrame (frame_of self.now) }
        ensures { result ≡ length_of (in_frame (frame_of self.now)) }
    {
        match self {
            Frame::Bytes {
                session: _,
                payload,
            } => 9 + payload.len() as u64,
            Frame::SetMoment(_) => 17,
            Frame::Begin { session: _ } => 9,
            Frame::Close { session: _ } => 9,
            Frame::Stat => 9,
            Frame::Restart => 9,
            Frame::RestartWithoutJournal => 9,
            Frame::End => 9,
        }
    }
}

/// What the proxy has, as numbers.
#[derive(Clone, Copy)]
pub struct Stats {
    /// The history's length: how many changes it has.
    pub history: u64,
    /// The mark: how many of them are stable.
    pub mark: u64,
    /// The epoch: the number of the opening.
    pub epoch: u64,
    /// How many changes the last uploaded checkpoint covers.
    pub covers: u64,
    /// The last run of the cleaner that was merged.
    pub merged: u64,
    /// How many residents are clean.
    pub residents: u64,
    /// The live bytes in objects of the proxy.
    pub proxy_bytes: u64,
    /// The live bytes in objects of the cleaner.
    pub cleaner_bytes: u64,
}

/// A frame of the proxy's answers.
#[derive(Drop)]
pub enum OutFrame<'a> {
    /// Kind 2: the record of one reply to a session.
    Reply {
        session: u32,
        bytes: &'a [u8],
    },
    /// Kind 3: the proxy closes a session.
    Closed {
        session: u32,
    },
    /// Kind 16: what the proxy has.
    Counted(Stats),
    /// Kind 19: an opening.
    Opened {
        /// Its number.
        epoch: u64,
        /// How many changes it found.
        changes: u64,
        /// Whether some of them came from the journal.
        journal: bool,
    },
    /// Kind 99: how the run ended.
    Ended(Status),
}
