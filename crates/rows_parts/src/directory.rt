//! Rows of one directory that lives on from row to row.

use crate::words::{Hex, bytes_of, number, small};
use sky_base::Name;
use sky_dir::{DirFault, Entries};
use std::alloc::Global;
use std::{fmt, io};

/// How many entries there are, their bytes together, and the next cookie.
#[derive(Clone, Copy)]
struct State<'a>(&'a Entries);

impl fmt::Display for State<'_> {
    fn fmt<W: fmt::Write>(&self, f: &mut fmt::Formatter<W>) -> fmt::Result {
        let it = self.0;
        let empty = if it.is_empty() { "yes" } else { "no" };
        write!(
            f,
            "entries {} bytes {} next {} empty {empty}",
            it.len(),
            it.size(),
            it.next_cookie()
        )
    }
}

/// The fileid that was found, or `none`.
#[derive(Clone, Copy)]
struct Found(Option<u64>);

impl fmt::Display for Found {
    fn fmt<W: fmt::Write>(&self, f: &mut fmt::Formatter<W>) -> fmt::Result {
        match self.0 {
            Some(fileid) => write!(f, "{fileid}"),
            None => write!(f, "none"),
        }
    }
}

/// A name of these bytes.
fn name_of(alloc: Global, word: &str) -> Option<Name> {
    Name::new(bytes_of(alloc, word)?)
}

/// `COOKIE:NAME:FILEID`
fn entry_of(alloc: Global, word: &str) -> Option<(u64, Name, u64)> {
    let (cookie, rest) = word.split_once(':')?;
    let (name, fileid) = rest.split_once(':')?;
    let (cookie, fileid) = (number(cookie)?, number(fileid)?);
    Some((cookie, name_of(alloc, name)?, fileid))
}

/// The directory of these entries: `NEXT COOKIE:NAME:FILEID..`.
fn of_list(alloc: Global, next: &str, entries: &[&str]) -> Option<Entries> {
    let next = number(next)?;
    let mut list = Vec::new(alloc);
    for entry in entries {
        list.push(entry_of(alloc, entry)?).ok()?;
    }
    if next > Entries::MAX_COOKIE {
        return None;
    }
    Entries::of(alloc, list, next).ok()
}

/// The name with this number of those that have 238 bytes: two of them tell the number.
fn numbered_name(alloc: Global, index: u32) -> Option<Name> {
    let mut bytes = vec![in alloc; (index & 63) as u8; 238].ok()?;
    *bytes.first_mut()? = (index >> 6 & 255) as u8;
    Name::new(bytes)
}

/// A directory of so many names of 238 bytes, from cookie 3 on, all of file 2: `NEXT COUNT`.
fn of_many(alloc: Global, next: &str, count: &str) -> Option<Entries> {
    let next = number(next)?;
    let mut list = Vec::new(alloc);
    for index in 0..small(count)? {
        let name = numbered_name(alloc, index)?;
        list.push((u64::from(index).saturating_add(3), name, 2))
            .ok()?;
    }
    if next > Entries::MAX_COOKIE {
        return None;
    }
    Entries::of(alloc, list, next).ok()
}

/// Adds an entry, unless its name is there.
fn add(
    rt: &impl Print,
    row: &str,
    directory: &mut Entries,
    name: Name,
    fileid: u64,
) -> io::Result<()> {
    if directory.find(name.as_bytes()).is_some() {
        return println!(rt; "{row} cannot be asked: the name is there");
    }
    match directory.add(name, fileid) {
        Ok(cookie) => println!(rt; "{row} cookie {cookie} {}", State(directory)),
        Err(DirFault::Crowded) => println!(rt; "{row} crowded {}", State(directory)),
        Err(DirFault::Memory) => println!(rt; "{row} no memory"),
    }
}

/// Puts an entry in the place of the first one of its name, unless no cookie is left or the directory is too large.
fn replace(
    rt: &impl Print,
    row: &str,
    directory: &mut Entries,
    name: Name,
    fileid: u64,
) -> io::Result<()> {
    if directory.next_cookie() >= Entries::MAX_COOKIE || directory.size() > Entries::MAX {
        return println!(rt; "{row} cannot be asked: the directory is full");
    }
    match directory.replace(name, fileid) {
        Ok(()) => println!(rt; "{row} {}", State(directory)),
        Err(_) => println!(rt; "{row} no memory"),
    }
}

/// Takes an entry out, behind how many bytes there would be without it.
fn drop_entry(rt: &impl Print, row: &str, directory: &mut Entries, name: &[u8]) -> io::Result<()> {
    let without = directory.size_without(name);
    let found = Found(directory.drop_name(name));
    println!(rt; "{row} {found} without {without} {}", State(directory))
}

/// Finds an entry.
fn find(rt: &impl Print, row: &str, directory: &Entries, name: &[u8]) -> io::Result<()> {
    let found = Found(directory.find(name));
    let crowded = directory.is_crowded(name);
    println!(rt; "{row} {found} crowded {crowded}")
}

/// Prints a part `COOKIE:NAME:FILEID` for each entry behind a cookie.
fn list(rt: &impl Print, row: &str, directory: &Entries, after: u64) -> io::Result<()> {
    print!(rt; "{row} lists")?;
    for entry in directory.page(after) {
        print!(rt; " {}:{}:{}", entry.cookie, Hex(entry.name), entry.fileid)?;
    }
    println!(rt; "")
}

/// Begins another directory.
fn begin(
    rt: &impl Print,
    row: &str,
    directory: &mut Entries,
    new: Option<Entries>,
) -> Option<io::Result<()>> {
    *directory = new?;
    Some(println!(rt; "{row} {}", State(directory)))
}

/// What a row of the directory answers.
pub fn answer(
    rt: &impl Print,
    alloc: Global,
    directory: &mut Entries,
    row: &str,
    args: &[&str],
) -> Option<io::Result<()>> {
    let [what, word, others @ ..] = args else {
        return None;
    };
    match *what {
        "of" => begin(rt, row, directory, of_list(alloc, word, others)),
        "of-many" => begin(rt, row, directory, of_many(alloc, word, others.first()?)),
        "list" => Some(list(rt, row, directory, number(word)?)),
        "find" => Some(find(rt, row, directory, &bytes_of(alloc, word)?)),
        "drop" => Some(drop_entry(rt, row, directory, &bytes_of(alloc, word)?)),
        "add" => {
            let fileid = number(others.first()?)?;
            Some(add(rt, row, directory, name_of(alloc, word)?, fileid))
        }
        "replace" => {
            let fileid = number(others.first()?)?;
            Some(replace(rt, row, directory, name_of(alloc, word)?, fileid))
        }
        _ => None,
    }
}
