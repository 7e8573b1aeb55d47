//! How the showing ended.

ghost use Rattle.std.specs.Prelude.{◌≡◌, ◌<◌};
ghost use Rattle.sky_show.specs.Ending.{number_of};

use std::fmt;

/// How the program ended. As text it's one line, which says what happened and what to do.
#[derive(Clone, Copy, PartialEq, Eq)]
pub enum Ending {
    /// 0: a line was written for each frame, up to the one that ends the answers.
    Shown,
    /// 1: the words of the command line are no command. Nothing was read or written.
    Words,
    /// 2: what stands at this byte of the answers begins no frame, or is not the first eight bytes of answers.
    Malformed { at: u64 },
    /// 3: the answers stop before the frame that ends them.
    Early,
    /// 4: the answers could not be read further.
    AnswersFault,
    /// 5: a line could not be written.
    SinkFault,
    /// 6: the recording could not be opened. Nothing was read or written.
    NoRecording,
    /// 7: the recording could not be read further.
    RecordingFault,
    /// 8: there was no memory.
    Memory,
    /// 9: 2^40 frames were read, and none of them ended the answers.
    Long,
}

impl Ending {
    /// The program's exit status, 0 to 9.
    pub fn number(self) -> u8
        ensures value { result ≡ number_of self }
        ensures small { result < 10 }
    {
        match self {
            Ending::Shown => 0,
            Ending::Words => 1,
            Ending::Malformed { .. } => 2,
            Ending::Early => 3,
            Ending::AnswersFault => 4,
            Ending::SinkFault => 5,
            Ending::NoRecording => 6,
            Ending::RecordingFault => 7,
            Ending::Memory => 8,
            Ending::Long => 9,
        }
    }
}

// What happened, where no place belongs to it.
fn text_of(ending: Ending) -> &'static str {
    match ending {
        Ending::Shown => "all answers were shown.",
        Ending::Words => {
            "the words are no command. Usage: skyshow --recording PATH < answers. PATH is the recording that was replayed, and the answers are what bluesky wrote."
        }
        Ending::Malformed { .. } => {
            "standard input does not begin with the 8 bytes SKYREC1 and a line end. Give it what bluesky wrote."
        }
        Ending::Early => {
            "standard input stops before the frame that ends the answers. See that all of it is there."
        }
        Ending::AnswersFault => "standard input, which has the answers, could not be read further.",
        Ending::SinkFault =>
            "standard output could not be written. See that it has room and somebody who reads it.",
        Ending::NoRecording =>
            "the file behind --recording could not be opened. See that it is there, and that it can be read.",
        Ending::RecordingFault =>
            "the file behind --recording, which has the recording, could not be read further.",
        Ending::Memory => "there was no memory.",
        Ending::Long => "2^40 frames were read, and none of them ended the answers.",
    }
}

impl fmt::Display for Ending {
    fn fmt<W: fmt::Write>(&self, f: &mut fmt::Formatter<W>) -> fmt::Result {
        match *self {
            Ending::Malformed { at } if at > 0 => write!(
                f,
                "at byte {at} of standard input begins what is no frame. The frames before it were shown."
            ),
            other => f.write_str(text_of(other)),
        }
    }
}
