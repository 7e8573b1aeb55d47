//! Rows for the devices: sites over a file and a folder, readers and writers as a source and a sink, and those in memory. A row is a line of
//! standard input: its name, what is asked, and of what. What the call answered is printed. The sites last from row to row: `a` and `b` over
//! files, `m` in memory with a record of its calls, and `s` in memory and never failing.
#![tactic(auto)]

mod asks;
mod files;
mod memory;
mod streams;

use asks::ask;
use sky_base::{Paths, Text};
use sky_memory::{MemSite, SureSite};
use sky_real::FileSite;
use std::alloc::{AllocError, Global};
use std::io;

/// The sites that are open.
#[derive(Drop)]
struct Sites {
    a: Option<FileSite>,
    b: Option<FileSite>,
    memory: Option<MemSite>,
    sure: Option<SureSite>,
}

/// A path of a row: `-` for none, `empty` for one without a letter.
fn path_of(alloc: Global, word: &str) -> Result<Option<Text>, AllocError> {
    match word {
        "-" => Ok(None),
        "empty" => Ok(Some(Text::new(String::new(alloc)))),
        path => Ok(Some(Text::new(String::from_str(alloc, path)?))),
    }
}

/// A site over a file and a folder: `JOURNAL CLOUD SIZE`.
fn open(rt: &HostRuntime, words: &str) -> Option<FileSite> {
    let (journal, rest) = words.split_once(' ')?;
    let (cloud, size) = rest.split_once(' ')?;
    let paths = Paths {
        journal: path_of(rt.alloc(), journal).ok()?,
        cloud: path_of(rt.alloc(), cloud).ok()?,
        settings: None,
        listen: None,
    };
    Some(FileSite::new(rt, paths, size.parse::<u64>().ok()?))
}

/// Opens or closes a site in its place, or asks it.
fn ask_place(
    rt: &HostRuntime,
    place: &mut Option<FileSite>,
    what: &str,
    words: &str,
) -> Option<String> {
    let alloc = rt.alloc();
    match what {
        "open" => {
            *place = Some(open(rt, words)?);
            asks::size(alloc, place.as_ref()?)
        }
        "close" => {
            *place = None;
            String::from_str(alloc, "closed").ok()
        }
        _ => ask(alloc, place.as_mut()?, what, words),
    }
}

/// Opens the site in memory, asks it, or shows what it has or what a stop leaves.
fn ask_memory(
    alloc: Global,
    place: &mut Option<MemSite>,
    what: &str,
    words: &str,
) -> Option<String> {
    match what {
        "open" => {
            *place = Some(memory::open(alloc, words)?);
            asks::size(alloc, place.as_ref()?)
        }
        "state" => memory::state(alloc, place.as_ref()?),
        "stopped" => memory::stopped(alloc, place.as_ref()?, words),
        _ => ask(alloc, place.as_mut()?, what, words),
    }
}

/// Opens the site that never fails, or asks it.
fn ask_sure(
    alloc: Global,
    place: &mut Option<SureSite>,
    what: &str,
    words: &str,
) -> Option<String> {
    if what == "open" {
        *place = Some(SureSite::new(alloc, words.parse::<u64>().ok()?).ok()?);
        return asks::size(alloc, place.as_ref()?);
    }
    ask(alloc, place.as_mut()?, what, words)
}

/// Asks one of the sites.
fn ask_site(rt: &HostRuntime, sites: &mut Sites, what: &str, words: &str) -> Option<String> {
    let (letter, rest) = match words.split_once(' ') {
        Some((letter, rest)) => (letter, rest),
        None => (words, ""),
    };
    match letter {
        "a" => ask_place(rt, &mut sites.a, what, rest),
        "b" => ask_place(rt, &mut sites.b, what, rest),
        "m" => ask_memory(rt.alloc(), &mut sites.memory, what, rest),
        "s" => ask_sure(rt.alloc(), &mut sites.sure, what, rest),
        _ => None,
    }
}

/// What a row answers. Nothing, where it can't be read.
fn answer(rt: &HostRuntime, sites: &mut Sites, row: &str) -> Option<String> {
    let (what, words) = row.split_once(' ')?;
    match what {
        "folder" | "file" | "show" | "there" | "length" | "clear" => files::done(rt, what, words),
        "source" | "sure-source" | "memory-source" => streams::pulled(rt.alloc(), what, words),
        "sink" | "sure-sink" | "memory-sink" => streams::pushed(rt.alloc(), what, words),
        _ => ask_site(rt, sites, what, words),
    }
}

/// Prints what a line answers. An empty line and one that begins with `#` are passed over.
fn do_line(rt: &HostRuntime, sites: &mut Sites, line: &str) -> io::Result<()> {
    if line.is_empty() || line.starts_with('#') {
        return Ok(());
    }
    let (name, row) = match line.split_once(' ') {
        Some((name, row)) => (name, row),
        None => (line, ""),
    };
    match answer(rt, sites, row) {
        Some(text) => println!(rt; "{name} {text}"),
        None => println!(rt; "{name} cannot read this row"),
    }
}

fn main(rt: HostRuntime) -> io::Result<()> {
    let mut sites = Sites {
        a: None,
        b: None,
        memory: None,
        sure: None,
    };
    for line in rt.lines(rt.alloc()) {
        do_line(&rt, &mut sites, line?.as_str())?;
    }
    Ok(())
}
