//! Rows of objects that are built of items.

ghost use Rattle.sky_item.specs.Items.{IsItem};

use crate::bench::{Bench, Kept};
use crate::items::item_of;
use crate::text::{Bytes, Place, ShortName};
use crate::words::{bytes_of, name_of, number};
use sky_item::Item;
use sky_segment::{Builder, SegmentBytes};
use std::alloc::Global;
use std::{fmt, io};

/// The most bytes of an object that a row prints.
const PRINTED: usize = 1000;

/// The name of the object that is being made, and whether it has what it must have.
#[derive(Clone, Copy)]
struct State<'a>(&'a Builder);

impl fmt::Display for State<'_> {
    fn fmt<W: fmt::Write>(&self, f: &mut fmt::Formatter<W>) -> fmt::Result {
        let word = if self.0.is_complete() {
            "complete"
        } else {
            "not complete"
        };
        write!(f, "{} is {word}", ShortName(self.0.name()))
    }
}

/// What a row of the object that is being made answers.
pub fn build(
    rt: &impl Print,
    alloc: Global,
    bench: &mut Bench,
    row: &str,
    args: &[&str],
) -> Option<io::Result<()>> {
    let [what, others @ ..] = args else {
        return None;
    };
    match *what {
        "new" => begin(rt, alloc, bench, row, others),
        "finish" => finish(rt, alloc, bench, row),
        _ => with_item(rt, alloc, bench, row, what, others),
    }
}

/// `NAME`: begins an object.
fn begin(
    rt: &impl Print,
    alloc: Global,
    bench: &mut Bench,
    row: &str,
    args: &[&str],
) -> Option<io::Result<()>> {
    let name = name_of(args.first()?)?;
    bench.builder = Builder::new(alloc, name.dir, name.run, name.seq, name.last).ok();
    let builder = bench.builder.as_ref()?;
    Some(println!(rt; "{row} {}", State(builder)))
}

/// `BYTES [COUNT]`: whether an item may come next, or adds it so many times.
fn with_item(
    rt: &impl Print,
    alloc: Global,
    bench: &mut Bench,
    row: &str,
    what: &str,
    args: &[&str],
) -> Option<io::Result<()>> {
    let item = item_of(alloc, &bytes_of(alloc, &bench.kept, args.first()?)?).ok()?;
    let builder = bench.builder.as_mut()?;
    match what {
        "fits" => Some(fits(rt, row, builder, &item)),
        "add" => add(
            rt,
            row,
            builder,
            &item,
            number(args.get(1).unwrap_or(&"1"))?,
        ),
        _ => None,
    }
}

/// Prints whether an item may come next.
fn fits(rt: &impl Print, row: &str, builder: &Builder, item: &Item) -> io::Result<()>
    requires { IsItem item.now }
{
    let word = if !builder.takes(item) {
        "not of its kind"
    } else if !builder.fits(item) {
        "no room"
    } else {
        "it fits"
    };
    println!(rt; "{row} {word}")
}

/// Adds an item so many times, while it may come next, and prints where the last one lies.
fn add(
    rt: &impl Print,
    row: &str,
    builder: &mut Builder,
    item: &Item,
    count: u64,
) -> Option<io::Result<()>>
    requires { IsItem item.now }
{
    let mut last = None;
    for _ in 0..count {
        if !builder.takes(item) || !builder.fits(item) {
            return Some(fits(rt, row, builder, item));
        }
        last = Some(builder.add(item).ok()?);
    }
    Some(println!(rt; "{row} {}, {}", Place(last?), State(builder)))
}

/// Ends the object, and keeps its bytes under the row's name.
fn finish(rt: &impl Print, alloc: Global, bench: &mut Bench, row: &str) -> Option<io::Result<()>> {
    let builder = bench.builder.take()?;
    if !builder.is_complete() {
        return Some(println!(rt; "{row} not complete"));
    }
    Some(keep(rt, alloc, &mut bench.kept, row, builder.finish()))
}

/// Prints the bytes of an object, or how many where they are too many to print, and keeps them under the row's name.
fn keep(
    rt: &impl Print,
    alloc: Global,
    kept: &mut Kept,
    row: &str,
    made: SegmentBytes,
) -> io::Result<()> {
    let count = made.as_slice().len();
    print!(rt; "{row} {count} bytes ")?;
    if count <= PRINTED {
        println!(rt; "{}", Bytes(made.as_slice()))?;
    }
    let bytes = made.into_vec();
    if count > PRINTED {
        println!(rt; "in room for {}", bytes.capacity())?;
    }
    kept.put(alloc, row, bytes)?;
    Ok(())
}
