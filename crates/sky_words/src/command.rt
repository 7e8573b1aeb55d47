//! The commands.

ghost use Rattle.std.specs.Prelude.{◌≡◌, ◌↔◌, Some, map, string_bytes, IfErr};
ghost use Rattle.sky_words.specs.declared.command.Command.{Command};
ghost use Rattle.sky_words.specs.Words.{name_of, GivesNumbers, IsLineOf, Says, AreRefused};

use crate::options::{are_complete, are_known, find_number};
use thiserror::Error;

/// What the program is asked to do.
#[derive(Clone, Copy)]
pub enum Command {
    /// Replay a recorded session.
    Replay,
    /// Clean the cloud's log.
    Clean {
        /// How many steps, 1 to 65,536.
        steps: u32,
    },
    /// Replay a session that is made up.
    Generate {
        /// What the session is drawn from.
        seed: u32,
        /// How many files it writes, 1 to 1,000.
        files: u32,
    },
    /// Serve clients.
    Serve,
}

/// Why words are no command, or don't tell what they name.
#[derive(Clone, Copy, Debug, Error)]
pub enum WordsFault {
    /// The words aren't of the grammar.
    #[error("the words are no command")]
    Refused,
    /// There's no memory for what they name.
    #[error("out of memory")]
    Memory,
}

// The command of this name, with the numbers that its options give.
fn command_of(name: &str, options: &[String]) -> Option<Command>
    ensures { (command : Command) → (result ≡ Some command)
        ↔ ((name.now ≡ name_of command) × GivesNumbers (map string_bytes options.now) command) }
{
    if name == "replay" {
        Some(Command::Replay)
    } else if name == "clean" {
        let steps = find_number(options, "--steps", 1, 65_536)?;
        Some(Command::Clean { steps })
    } else if name == "generate" {
        let seed = find_number(options, "--seed", 0, u32::MAX)?;
        let files = find_number(options, "--files", 1, 1_000)?;
        Some(Command::Generate { seed, files })
    } else if name == "serve" {
        Some(Command::Serve)
    } else {
        None
    }
}

// The command that a line says: its name, and the options behind it.
fn read_line(name: &str, options: &[String]) -> Option<Command>
    ensures { (command : Command) → (result ≡ Some command) ↔ IsLineOf command name.now (map string_bytes options.now) }
{
    match command_of(name, options) {
        Some(command) => {
            if are_known(command, options) && are_complete(command, options) {
                Some(command)
            } else {
                None
            }
        }
        None => None,
    }
}

/// Reads the words of the command line, without the program's name.
///
/// `Refused` where they aren't of the grammar; no other fault comes.
pub fn read_words(words: &[String]) -> Result<Command, WordsFault>
    ensures command { (command : Command) → (result ≡ Ok command) ↔ Says command (map string_bytes words.now) }
    ensures refused { (result ≡ Err WordsFault.Refused) ↔ AreRefused (map string_bytes words.now) }
    ensures no_other { IfErr result (λ fault. fault ≡ WordsFault.Refused) }
{
    match words {
        [name, options @ ..] => match read_line(name.as_str(), options) {
            Some(command) => Ok(command),
            None => Err(WordsFault::Refused),
        },
        [] => Err(WordsFault::Refused),
    }
}
