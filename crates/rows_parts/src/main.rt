//! Rows of parts of the server, in what no call brings about: buffers that are too short, answers without attributes, and directories that only
//! a cloud would give. `stdin` has the rows and says how to read them, and `stdout` what must come.
#![tactic(auto)]

mod answers;
mod directory;
mod frames;
mod made;
mod wire;
mod words;

use sky_dir::Entries;
use std::alloc::Global;
use std::io;

/// Prints what a row answers, behind the row's name. `None` where its words can't be read.
fn answer(
    rt: &impl Print,
    alloc: Global,
    directory: &mut Entries,
    name: &str,
    subject: &str,
    args: &[&str],
) -> Option<io::Result<()>> {
    match subject {
        "directory" => directory::answer(rt, alloc, directory, name, args),
        "xdr" => wire::put_items(rt, alloc, name, args),
        "fixed" => wire::take_twice(rt, alloc, name, args),
        "numbers" => wire::put_numbers(rt, alloc, name, args),
        "reply" => wire::put_reply(rt, alloc, name, args),
        "mount" => wire::put_mount(rt, alloc, name, args),
        "arguments" => wire::put_arguments(rt, alloc, name, args),
        "answer" => answers::put(rt, alloc, name, args),
        "answer-shorter" => answers::put_shorter(rt, alloc, name, args),
        "ended" => frames::ended(rt, alloc, name, args),
        "reply-frame" => frames::reply(rt, alloc, name, args),
        "settings" => frames::settings(rt, name),
        "of-group" => frames::of_group(rt, name, args),
        _ => None,
    }
}

/// Answers a line. Empty ones and headings are passed over.
fn answer_line(
    rt: &impl Print,
    alloc: Global,
    directory: &mut Entries,
    line: &str,
) -> io::Result<()> {
    if line.is_empty() || line.starts_with('#') {
        return Ok(());
    }
    let words: Vec<&str> = line.split_whitespace().collect(alloc)?;
    match words.as_slice() {
        [name, subject, args @ ..] => match answer(rt, alloc, directory, name, subject, args) {
            Some(done) => done,
            None => println!(rt; "{name} cannot read this row"),
        },
        _ => println!(rt; "{line} cannot read this row"),
    }
}

fn main(rt: HostRuntime) -> io::Result<()> {
    let alloc = rt.alloc();
    let mut directory = Entries::new(alloc);
    for line in rt.lines(alloc) {
        answer_line(&rt, alloc, &mut directory, line?.as_str())?;
    }
    Ok(())
}
