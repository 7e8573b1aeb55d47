//! Rows of the command line.

use sky_base::{Paths, Text};
use sky_words::{Command, paths_of, read_words};
use std::alloc::Global;
use std::{fmt, io};

/// A command, with its numbers.
#[derive(Clone, Copy)]
struct Asked(Command);

impl fmt::Display for Asked {
    fn fmt<W: fmt::Write>(&self, f: &mut fmt::Formatter<W>) -> fmt::Result {
        match self.0 {
            Command::Replay => write!(f, "replay"),
            Command::Clean { steps } => write!(f, "clean of {steps} steps"),
            Command::Generate { seed, files } => write!(
                f,
                "generate of seed {seed} and {files} files"
            ),
            Command::Serve => write!(f, "serve"),
        }
    }
}

/// What is named, `-` for nothing.
#[derive(Clone, Copy)]
struct Named<'a>(&'a Option<Text>);

impl fmt::Display for Named<'_> {
    fn fmt<W: fmt::Write>(&self, f: &mut fmt::Formatter<W>) -> fmt::Result {
        match self.0 {
            Some(text) => f.write_str(text.as_str()),
            None => write!(f, "-"),
        }
    }
}

/// The words of a row, where `''` stands for a word without letters.
fn words_of(alloc: Global, args: &[&str]) -> io::Result<Vec<String>> {
    let mut words = Vec::new(alloc);
    for arg in args {
        let word = if *arg == "''" { "" } else { *arg };
        words.push(String::from_str(alloc, word)?)?;
    }
    Ok(words)
}

/// Prints what a command is and names.
fn print_paths(rt: &impl Print, row: &str, command: Command, paths: &Paths) -> io::Result<()> {
    println!(rt;
        "{row} {}: journal {}, cloud {}, settings {}, listen {}",
        Asked(command),
        Named(&paths.journal),
        Named(&paths.cloud),
        Named(&paths.settings),
        Named(&paths.listen)
    )
}

/// Reads the words of a command line: `WORD..`.
pub fn read(rt: &impl Print, alloc: Global, row: &str, args: &[&str]) -> Option<io::Result<()>> {
    let words = words_of(alloc, args).ok()?;
    let command = match read_words(&words) {
        Ok(command) => command,
        Err(fault) => return Some(println!(rt; "{row} {fault}")),
    };
    match paths_of(alloc, &words) {
        Ok(paths) => Some(print_paths(rt, row, command, &paths)),
        Err(fault) => Some(println!(rt; "{row} {fault}, and yet a command")),
    }
}
