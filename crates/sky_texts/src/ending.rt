//! How the program ends, and its text.

ghost use Rattle.std.specs.Prelude.{◌≡◌, ◌<◌};
ghost use Rattle.sky_texts.specs.Ending.{exit_number};

use crate::advice::advice_on;
use crate::object::{Fault, Object};
use sky_base::Status;
use std::fmt;

/// How the program ends. As text, it's two lines: the name of the ending and what happened, and then what to do.
#[derive(Clone, Copy)]
pub enum Ending {
    /// As the run of a command ended.
    Ran(Status),
    /// The file of the settings can't be read, and no command was run.
    SettingsFile,
}

impl Ending {
    /// The program's exit status, 0 to 15.
    pub fn number(self) -> u32
        ensures value { result ≡ exit_number self }
        ensures small { result < 16 }
    {
        match self {
            Ending::Ran(status) => status.number(),
            Ending::SettingsFile => 15,
        }
    }
}

// Writes the name of a status, and what happened, where it names a place or an object.
fn write_place<W: fmt::Write>(status: Status, f: &mut fmt::Formatter<W>) -> fmt::Result {
    match status {
        Status::Malformed { at: 0 } => write!(
            f,
            "Malformed: the recording does not begin with the 8 bytes SKYREC1 and a line end."
        ),
        Status::Malformed { at } => write!(
            f,
            "Malformed: at byte {at} of the recording begins what is no frame. The frames before it were handled."
        ),
        Status::Foreign { at } => write!(
            f,
            "Foreign: the journal's file is no journal of this volume: byte {at} of it is wrong. Nothing in it was changed."
        ),
        Status::Missing { name } => write!(
            f,
            "Missing: the cloud does not have the object {}, which is needed.",
            Object(name)
        ),
        Status::Damaged { name, damage } => write!(
            f,
            "Damaged: the object {} of the cloud can't be used: {}.",
            Object(name),
            Fault(damage)
        ),
        other => f.write_str(text_of(other)),
    }
}

// The name of a status that names no place, and what happened.
fn text_of(status: Status) -> &'static str {
    match status {
        Status::Done => "Done: all was read and answered.",
        Status::Words => {
            "Words: the words of the command line are no command. Nothing was read or written."
        }
        Status::Early => {
            "Early: the recording stops before its end. The frames before that were handled."
        }
        Status::SourceFault => {
            "SourceFault: the recording could not be read further. The frames before that were handled."
        }
        Status::SinkFault => {
            "SinkFault: the answers could not be written. Changes may have been made that no answer tells of."
        }
        Status::JournalFault => {
            "JournalFault: the journal's file could not be made, opened, locked, read, written or synced."
        }
        Status::CloudFault => {
            "CloudFault: the cloud could not be read or written while the volume was opened."
        }
        Status::Memory =>
            "Memory: there was no memory to begin with, to open the volume or to begin a session.",
        Status::Long => {
            "Long: 2^32 frames were read and handled, and none of them was the recording's end."
        }
        Status::Settings => {
            "Settings: the file of the settings is no table of settings in their ranges. Nothing was read or written."
        }
        Status::Worn => {
            "Worn: the volume was opened 2^62 times, and has no number for a further time."
        }
        Status::Malformed { .. }
        | Status::Foreign { .. }
        | Status::Missing { .. }
        | Status::Damaged { .. } => "",
    }
}

impl fmt::Display for Ending {
    fn fmt<W: fmt::Write>(&self, f: &mut fmt::Formatter<W>) -> fmt::Result {
        match self {
            Ending::Ran(status) => write_place(*status, f)?,
            Ending::SettingsFile => f.write_str(
                "SettingsFile: the file of the settings could not be read. Nothing else was read or written.",
            )?,
        }
        write!(f, "\n{}", advice_on(*self))
    }
}
