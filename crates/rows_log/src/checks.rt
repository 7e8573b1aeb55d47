//! Rows of checkpoints, and of what the names of objects say of them.

ghost use Rattle.std.specs.Prelude.{◌<◌, All, IfSome};
ghost use Rattle.sky_base.specs.Limits.{max_number};

use crate::bench::Kept;
use crate::items::item_of;
use crate::text::{Checkpoint, LinkOrNone, ShortName, Shown};
use crate::words::{bytes_of, name_of, number};
use sky_base::SegName;
use sky_checkpoint::{Check, checkpoints_come_back, complete_run, last_check, next_run};
use sky_outside::Held;
use std::alloc::Global;
use std::{fmt, io};

/// What a row of checkpoints answers.
pub fn answer(
    rt: &impl Print,
    alloc: Global,
    kept: &Kept,
    row: &str,
    args: &[&str],
) -> Option<io::Result<()>> {
    let [what, word, numbers @ ..] = args else {
        return None;
    };
    let item = item_of(alloc, &bytes_of(alloc, kept, word)?).ok()?;
    checkpoints_come_back();
    match Check::of(item) {
        Ok(check) => print_check(rt, row, what, check, numbers),
        Err(item) => Some(println!(rt; "{row} handed back: {}", Shown(&item))),
    }
}

/// Prints a checkpoint with all of its fields, or where the pages of these numbers lie, or the item that it is again.
fn print_check(
    rt: &impl Print,
    row: &str,
    what: &str,
    check: Check,
    numbers: &[&str],
) -> Option<io::Result<()>> {
    match what {
        "of" => Some(print_fields(rt, row, &check)),
        "pages" => pages(rt, row, &check, numbers),
        "back" => Some(println!(rt; "{row} {}", Shown(&check.into_item()))),
        _ => None,
    }
}

/// Prints the fields of a checkpoint.
fn print_fields(rt: &impl Print, row: &str, check: &Check) -> io::Result<()> {
    let fields = Checkpoint {
        id: check.id,
        numbers: [
            check.volume,
            check.covers,
            check.next_fileid,
            check.first_seq,
            check.merged,
            check.base_epoch,
            check.base_seq,
        ],
        pages: check.pages.as_slice(),
        touched: &check.touched,
    };
    println!(rt; "{row} {fields}")
}

/// Prints where the pages of these numbers lie, a line each.
fn pages(rt: &impl Print, row: &str, check: &Check, numbers: &[&str]) -> Option<io::Result<()>> {
    for word in numbers {
        let number = number(word)?;
        let done = println!(rt; "{row} {number}: {}", LinkOrNone(check.page(number)));
        if done.is_err() {
            return Some(done);
        }
    }
    Some(Ok(()))
}

#[derive(Clone, Copy)]
struct NameOrNone(Option<SegName>);

impl fmt::Display for NameOrNone {
    fn fmt<W: fmt::Write>(&self, f: &mut fmt::Formatter<W>) -> fmt::Result {
        match self.0 {
            Some(name) => write!(f, "{}", ShortName(name)),
            None => f.write_str("none"),
        }
    }
}

#[derive(Clone, Copy)]
struct RunOrNone(Option<u64>);

impl fmt::Display for RunOrNone {
    fn fmt<W: fmt::Write>(&self, f: &mut fmt::Formatter<W>) -> fmt::Result {
        match self.0 {
            Some(run) => write!(f, "{run}"),
            None => f.write_str("none"),
        }
    }
}

/// `listing NUMBER NAMES..`: of the objects that are listed, the last checkpoint, the complete run above the number, and the run
/// that comes next where that is the last one that was merged.
pub fn listed(rt: &impl Print, alloc: Global, row: &str, args: &[&str]) -> Option<io::Result<()>> {
    let [word, names @ ..] = args else {
        return None;
    };
    let above = number(word)?;
    let listed = listing(alloc, names)?;
    let last = NameOrNone(last_check(&listed));
    let complete = RunOrNone(complete_run(&listed, above));
    if above >= 1 << 62 {
        return Some(println!(rt; "{row} last {last}, complete {complete}"));
    }
    let next = next_run(&listed, above);
    Some(println!(rt; "{row} last {last}, complete {complete}, next {next}"))
}

/// The listing of these names.
fn listing(alloc: Global, names: &[&str]) -> Option<Vec<Held>>
    ensures { IfSome result (λ listed. All (λ h. h.name.run < max_number) listed.items) }
{
    let mut listed = Vec::new(alloc);
    for word in names {
        let name = name_of(word)?;
        listed.push(Held { name, length: 36 }).ok()?;
    }
    Some(listed)
}
