//! What to do where the program ended.

use crate::ending::Ending;
use sky_base::Status;

// What to do where the recording, the answers or the command line were at fault.
fn advice_on_input(status: Status) -> &'static str {
    match status {
        Status::Words =>
            "Do: type a command as the usage says, each option once, its value a word of its own.",
        Status::Malformed { .. } => "Do: mend the recording there, or record the session again.",
        Status::Early => "Do: get the whole recording. A whole one ends with a frame of kind 99.",
        Status::SourceFault =>
            "Do: see that standard input can be read, and run the command again.",
        Status::SinkFault =>
            "Do: see that standard output has room and somebody who reads it, and run the command again.",
        Status::Long => "Do: cut the recording into parts, each with its own end.",
        Status::Settings =>
            "Do: write one setting a line, as volume = 1. The keys are volume (1 to 2^62), journal_area (2^18 to 2^28), retained (1 to 16), threshold (1 to 100) and cache_items (16 to 1048576).",
        Status::Done
        | Status::JournalFault
        | Status::CloudFault
        | Status::Memory
        | Status::Foreign { .. }
        | Status::Missing { .. }
        | Status::Damaged { .. }
        | Status::Worn => "Do: nothing.",
    }
}

/// What to do where the program ended so.
pub fn advice_on(ending: Ending) -> &'static str {
    match ending {
        Ending::SettingsFile =>
            "Do: see that the file behind --settings is there, and that it can be read.",
        Ending::Ran(Status::JournalFault) =>
            "Do: see that no other run has the file, and that its disk is well and has room. What was answered as stable is found by the next run.",
        Ending::Ran(Status::CloudFault) =>
            "Do: see that the folder behind --cloud can be read and written, and run the command again.",
        Ending::Ran(Status::Memory) =>
            "Do: end other programs, or give this one more memory, and run the command again.",
        Ending::Ran(Status::Foreign { .. }) =>
            "Do: name the journal of this volume behind --journal, or a file that is not there yet. See that the settings volume and journal_area are those it was made with.",
        Ending::Ran(Status::Missing { .. }) =>
            "Do: put the object back, from a copy of the cloud that is not older than the journal.",
        Ending::Ran(Status::Damaged { .. }) => "Do: put a good copy of the object in its place.",
        Ending::Ran(Status::Worn) => "Do: copy its files to a new volume.",
        Ending::Ran(status) => advice_on_input(status),
    }
}
