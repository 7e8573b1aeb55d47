//! Rows of the log's values: names of objects, items, objects, pages of the map of inodes, checkpoints, and how many bytes are in
//! use. `stdin` has the rows and says how to read them, and `stdout` what must come.
#![tactic(auto)]

mod bench;
mod checks;
mod counts;
mod items;
mod names;
mod objects;
mod pages;
mod text;
mod words;

use bench::Bench;
use std::alloc::Global;
use std::io;

/// Prints what a row answers, each line behind the row's name. `None` where its words can't be read.
fn answer(
    rt: &impl Print,
    alloc: Global,
    bench: &mut Bench,
    name: &str,
    subject: &str,
    args: &[&str],
) -> Option<io::Result<()>> {
    match subject {
        "keep" => bench::keep(rt, alloc, &mut bench.kept, name, args),
        "same" => bench::same(rt, alloc, &bench.kept, name, args),
        "name" => names::name(rt, name, args),
        "order" => names::order(rt, name, args),
        "status" => names::status(rt, name, args),
        "text" => Some(names::text(rt, alloc, name, args)),
        "entry" => names::entry(rt, alloc, &bench.kept, name, args),
        "cred" => names::cred(rt, name, args),
        "place" => names::place(rt, name, args),
        "item" => items::item(rt, alloc, &bench.kept, name, args),
        "object" => items::object(rt, alloc, &bench.kept, name, args),
        "build" => objects::build(rt, alloc, bench, name, args),
        "page" => pages::answer(rt, alloc, bench, name, args),
        "check" => checks::answer(rt, alloc, &bench.kept, name, args),
        "listing" => checks::listed(rt, alloc, name, args),
        "usage" => counts::answer(rt, alloc, &mut bench.usage, name, args),
        _ => None,
    }
}

/// Answers a line. Empty ones and headings are passed over.
fn answer_line(rt: &impl Print, alloc: Global, bench: &mut Bench, line: &str) -> io::Result<()> {
    if line.is_empty() || line.starts_with('#') {
        return Ok(());
    }
    let words: Vec<&str> = line.split_whitespace().collect(alloc)?;
    match words.as_slice() {
        [name, subject, args @ ..] => match answer(rt, alloc, bench, name, subject, args) {
            Some(done) => done,
            None => println!(rt; "{name} cannot read this row"),
        },
        _ => println!(rt; "{line} cannot read this row"),
    }
}

fn main(rt: HostRuntime) -> io::Result<()> {
    let alloc = rt.alloc();
    let mut bench = Bench::new(alloc);
    for line in rt.lines(alloc) {
        answer_line(&rt, alloc, &mut bench, line?.as_str())?;
    }
    Ok(())
}
