//! Rows of what the people meet who run the program: its command line, the file of its settings, and what it says of how it ended. `stdin` has
//! the rows and says how to read them, and `stdout` what must come.
#![tactic(auto)]

mod endings;
mod line;
mod settings;

use std::alloc::Global;
use std::io;

/// Prints what a row answers, behind the row's name. `None` where its words can't be read.
fn answer(
    rt: &impl Print,
    alloc: Global,
    name: &str,
    subject: &str,
    args: &[&str],
) -> Option<io::Result<()>> {
    match subject {
        "words" => line::read(rt, alloc, name, args),
        "settings" => settings::read(rt, alloc, name, args),
        "ending" => endings::tell(rt, name, args),
        _ => None,
    }
}

/// Answers a line. Empty ones and headings are passed over.
fn answer_line(rt: &impl Print, alloc: Global, line: &str) -> io::Result<()> {
    if line.is_empty() || line.starts_with('#') {
        return Ok(());
    }
    let words: Vec<&str> = line.split_whitespace().collect(alloc)?;
    match words.as_slice() {
        [name, subject, args @ ..] => match answer(rt, alloc, name, subject, args) {
            Some(done) => done,
            None => println!(rt; "{name} cannot read this row"),
        },
        _ => println!(rt; "{line} cannot read this row"),
    }
}

fn main(rt: HostRuntime) -> io::Result<()> {
    let alloc = rt.alloc();
    for line in rt.lines(alloc) {
        answer_line(&rt, alloc, line?.as_str())?;
    }
    Ok(())
}
