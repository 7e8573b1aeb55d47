//! Whether the words of the command line say the command that is done so far.

ghost use Rattle.std.specs.Prelude.{◌≡◌, ◌↔◌, IsTrue, map, string_bytes};
ghost use Rattle.sky_words.specs.Words.{Says};
ghost use Rattle.sky_words.specs.declared.command.Command.TheVariants.{Replay};

use sky_words::{Command, read_words};

/// Whether a command is that of replaying a recording.
fn is_replay(command: Command) -> bool
    ensures { IsTrue result ↔ (command ≡ Replay) }
{
    match command {
        Command::Replay => true,
        Command::Clean { .. } | Command::Generate { .. } | Command::Serve => false,
    }
}

/// Whether the words say to replay a recording.
pub fn are_replay(words: &[String]) -> bool
    ensures { IsTrue result ↔ Says Replay (map string_bytes words.now) }
{
    match read_words(words) {
        Ok(command) => is_replay(command),
        Err(_) => false,
    }
}
