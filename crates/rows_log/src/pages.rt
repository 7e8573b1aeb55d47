//! Rows of pages of the map of inodes.

ghost use Rattle.sky_item.specs.Items.{IsItem};

use crate::bench::Bench;
use crate::items::item_of;
use crate::text::{Id, LinkOrNone, Shown};
use crate::words::{bytes_of, link_of, number};
use sky_base::ItemId;
use sky_imap::{Page, page_of, pages_come_back};
use sky_item::Item;
use std::alloc::Global;
use std::{fmt, io, mem};

/// A page in short: its number, how many slots it has, and whether it has none.
#[derive(Clone, Copy)]
struct State<'a>(&'a Page);

impl fmt::Display for State<'_> {
    fn fmt<W: fmt::Write>(&self, f: &mut fmt::Formatter<W>) -> fmt::Result {
        let word = if self.0.is_empty() {
            "empty"
        } else {
            "not empty"
        };
        write!(f, "page {} of {}, {word}", self.0.number(), self.0.len())
    }
}

/// What a row of pages answers. Each but `page number` is of the page that is being made.
pub fn answer(
    rt: &impl Print,
    alloc: Global,
    bench: &mut Bench,
    row: &str,
    args: &[&str],
) -> Option<io::Result<()>> {
    let [what, word, others @ ..] = args else {
        return None;
    };
    if *what == "of" {
        let item = item_of(alloc, &bytes_of(alloc, &bench.kept, word)?).ok()?;
        return Some(begin_as(rt, &mut bench.page, row, item));
    }
    let number = number(word)?;
    let page = &mut bench.page;
    match *what {
        "number" => Some(println!(rt; "{row} page {}", page_of(number))),
        "new" => Some(begin(rt, alloc, page, row, number)),
        "set" => set(rt, page, row, number, others),
        "clear" => {
            page.clear(number);
            Some(print_around(rt, page, row, number))
        }
        "slots" => slots(rt, page, row, &args[1..]),
        "item" => item(rt, alloc, page, row, number, others),
        _ => None,
    }
}

/// Begins the page of a number.
fn begin(
    rt: &impl Print,
    alloc: Global,
    page: &mut Page,
    row: &str,
    number: u64,
) -> io::Result<()> {
    if number >= Page::COUNT {
        return println!(rt; "{row} no such page");
    }
    *page = Page::new(alloc, number);
    println!(rt; "{row} {}", State(page))
}

/// Begins the page that an item is, or says which item was handed back.
fn begin_as(rt: &impl Print, page: &mut Page, row: &str, item: Item) -> io::Result<()>
    requires { IsItem item }
{
    pages_come_back();
    match Page::of(item) {
        Ok(new) => {
            *page = new;
            println!(rt; "{row} {}", State(page))
        }
        Err(item) => println!(rt; "{row} handed back: {}", Shown(&item)),
    }
}

/// Puts a slot in, where the fileid is one of the page's.
fn set(
    rt: &impl Print,
    page: &mut Page,
    row: &str,
    fileid: u64,
    link: &[&str],
) -> Option<io::Result<()>> {
    let link = link_of(link)?;
    if page_of(fileid) != page.number() {
        return Some(println!(rt; "{row} not of this page"));
    }
    page.set(fileid, link).ok()?;
    Some(print_around(rt, page, row, fileid))
}

/// Prints a page in short, the slot of a fileid, and what it has for the same fileids of the pages before and behind it.
fn print_around(rt: &impl Print, page: &Page, row: &str, fileid: u64) -> io::Result<()> {
    let slot = LinkOrNone(page.slot(fileid));
    let before = LinkOrNone(page.slot(fileid.wrapping_sub(Page::SLOTS)));
    let behind = LinkOrNone(page.slot(fileid.wrapping_add(Page::SLOTS)));
    println!(rt;
        "{row} {}, slot {slot}, before {before}, behind {behind}",
        State(page)
    )
}

/// Prints the slots of fileids, a line each.
fn slots(rt: &impl Print, page: &Page, row: &str, fileids: &[&str]) -> Option<io::Result<()>> {
    for word in fileids {
        let fileid = number(word)?;
        let done = println!(rt; "{row} {fileid}: {}", LinkOrNone(page.slot(fileid)));
        if done.is_err() {
            return Some(done);
        }
    }
    Some(Ok(()))
}

/// `COUNTER`: prints the item that the page is under an identifier, and the identifier that it says. The page goes on as the one
/// that this item is.
fn item(
    rt: &impl Print,
    alloc: Global,
    page: &mut Page,
    row: &str,
    epoch: u64,
    args: &[&str],
) -> Option<io::Result<()>> {
    let counter = number(args.first()?)?;
    if page.is_empty() {
        return Some(println!(rt; "{row} no item"));
    }
    let item = mem::replace(page, Page::new(alloc, 0)).into_item(ItemId { epoch, counter });
    let done = println!(rt; "{row} {}: {}", Id(item.id()), Shown(&item));
    *page = Page::of(item).ok()?;
    Some(done)
}
