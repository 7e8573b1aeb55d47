//! How a run ends.

ghost use Rattle.std.specs.Prelude.{◌≡◌, ◌<◌};
ghost use Rattle.sky_base.specs.Status.{number_of, place_of};

use crate::object::SegName;
use crate::place::Damage;

/// How a run ends. The program exits with the status's number.
#[derive(Clone, Copy, Debug, PartialEq, Eq)]
pub enum Status {
    /// 0: the session's end was read and answered.
    Done,
    /// 1: the words of the command line aren't a command. Nothing is written.
    Words,
    /// 2: the source's bytes leave the grammar of a recorded session.
    Malformed {
        /// Where: the first byte of the frame, or 0 for the magic.
        at: u64,
    },
    /// 3: the source ended before the session's end.
    Early,
    /// 4: a read failed.
    SourceFault,
    /// 5: a write failed.
    SinkFault,
    /// 6: a call of the journal's disk failed.
    JournalFault,
    /// 7: a call of the cloud failed in an opening.
    CloudFault,
    /// 8: there was no memory to begin with.
    Memory,
    /// 9: the journal's disk is not one that can be opened.
    Foreign {
        /// Where: the place on the disk, in bytes from its start.
        at: u64,
    },
    /// 9: an object of the cloud that an opening needs is not there.
    Missing {
        name: SegName,
    },
    /// 9: an object of the cloud that an opening needs is not of the format.
    Damaged {
        name: SegName,
        damage: Damage,
    },
    /// 9: there is no further epoch: the next one would be 2^62.
    Worn,
    /// 10: 2^32 frames were read, and none of them ended the session.
    Long,
    /// 11: the text of the settings is refused. Nothing is written.
    Settings,
}

impl Status {
    /// The number that stands for it, 0 to 11.
    pub fn number(self) -> u32
        ensures value { result ≡ number_of self }
        ensures small { result < 16 }
    {
        match self {
            Status::Done => 0,
            Status::Words => 1,
            Status::Malformed { at: _ } => 2,
            Status::Early => 3,
            Status::SourceFault => 4,
            Status::SinkFault => 5,
            Status::JournalFault => 6,
            Status::CloudFault => 7,
            Status::Memory => 8,
            Status::Foreign { at: _ } => 9,
            Status::Missing { name: _ } => 9,
            Status::Damaged { name: _, damage: _ } => 9,
            Status::Worn => 9,
            Status::Long => 10,
            Status::Settings => 11,
        }
    }

    /// The place that it names, in the source's bytes or on the journal's disk; 0 where it names none.
    pub fn place(self) -> u64
        ensures { result ≡ place_of self }
    {
        match self {
            Status::Malformed { at } | Status::Foreign { at } => at,
            _ => 0,
        }
    }
}
