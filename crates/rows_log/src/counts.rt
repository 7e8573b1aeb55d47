//! Rows of how many bytes of each object are in use.

use crate::text::ShortName;
use crate::words::{location_of, name_of};
use sky_base::{Dir, SegName};
use sky_usage::Usage;
use std::alloc::Global;
use std::{fmt, io};

/// How many names there are, and how many bytes are in use in each directory.
#[derive(Clone, Copy)]
struct State<'a>(&'a Usage);

impl fmt::Display for State<'_> {
    fn fmt<W: fmt::Write>(&self, f: &mut fmt::Formatter<W>) -> fmt::Result {
        let usage = self.0;
        let word = if usage.is_empty() {
            "empty"
        } else {
            "not empty"
        };
        let proxy = usage.total(Dir::Proxy);
        let cleaner = usage.total(Dir::Cleaner);
        write!(
            f,
            "{} names, {word}, proxy {proxy}, cleaner {cleaner}",
            usage.len()
        )
    }
}

/// All names and counts in their order.
#[derive(Clone, Copy)]
struct All<'a>(&'a Usage);

impl fmt::Display for All<'_> {
    fn fmt<W: fmt::Write>(&self, f: &mut fmt::Formatter<W>) -> fmt::Result {
        write!(f, "{}", State(self.0))?;
        for (name, live) in self.0.iter() {
            write!(f, " [{} {live}]", ShortName(name))?;
        }
        Ok(())
    }
}

/// What a row of usage answers.
pub fn answer(
    rt: &impl Print,
    alloc: Global,
    usage: &mut Usage,
    row: &str,
    args: &[&str],
) -> Option<io::Result<()>> {
    let [what, place @ ..] = args else {
        return None;
    };
    match *what {
        "new" => {
            *usage = Usage::new(alloc);
            Some(println!(rt; "{row} {}", State(usage)))
        }
        "raise" => {
            let at = location_of(place)?;
            usage.raise(at).ok()?;
            Some(print_count(rt, usage, row, at.name()))
        }
        "lower" => {
            let at = location_of(place)?;
            usage.lower(at);
            Some(print_count(rt, usage, row, at.name()))
        }
        "live" => Some(print_count(rt, usage, row, name_of(place.first()?)?)),
        "all" => Some(println!(rt; "{row} {}", All(usage))),
        _ => None,
    }
}

/// Prints how many bytes of an object are in use, and of all.
fn print_count(rt: &impl Print, usage: &Usage, row: &str, name: SegName) -> io::Result<()> {
    println!(rt; "{row} live {}, {}", usage.live(name), State(usage))
}
