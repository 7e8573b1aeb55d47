//! The usage of the program, as text.

use clap::{Arg, ArgAction, Command};
use std::alloc::{AllocError, Global};

// An option with a path behind it.
fn path_option<'a>(alloc: Global, name: &'a str, help: &'a str) -> Arg<'a> {
    Arg::new(alloc, name)
        .long(name)
        .value_name("PATH")
        .action(ArgAction::Set)
        .help(help)
}

// The command that is there so far, with its options.
fn replay_command<'a>(alloc: Global) -> Result<Command<'a>, AllocError> {
    let journal = path_option(
        alloc,
        "journal",
        "The journal's file. Where it is missing, it is made",
    );
    let cloud = path_option(
        alloc,
        "cloud",
        "The cloud's folder. Where it is missing, it is made",
    );
    let settings = path_option(
        alloc,
        "settings",
        "A file of settings in TOML, as volume = 1",
    );
    Command::new(alloc, "bluesky replay")
        .disable_help_flag(true)
        .about(
            "Replays a recorded session: reads it from standard input, and writes the answers to standard output.",
        )
        .arg(journal.required(true))?
        .arg(cloud.required(true))?
        .arg(settings)
}

/// The usage, with a line for each option.
pub fn usage(alloc: Global) -> Result<String, AllocError> {
    replay_command(alloc)?.render_help()
}
