//! What a row asks of a site of a few bytes.

ghost use Rattle.std.specs.Prelude.{◌≡◌, ◌+◌, ◌≤◌, ◌<◌, IsTrue};
ghost use Rattle.sky_base.specs.Limits.{max_number};

use sky_base::{Dir, SegName};
use sky_outside::{Cloud, Disk, Failed, GetFault, Held, PutFault, Site, Storage};
use std::alloc::Global;

/// The name of the object of this number.
pub fn name(seq: u8) -> SegName
    ensures run { result.run < max_number }
    ensures seq { result.seq < max_number }
{
    SegName {
        dir: Dir::Proxy,
        run: 1,
        seq: u64::from(seq),
        last: false,
    }
}

/// Whether a disk has this many bytes from this place on.
fn is_within<S: Site>(site: &S, at: u64, length: u64) -> bool
    ensures { IsTrue result → at + length ≤ S.bytes_of site.now }
{
    at <= site.size() && length <= site.size() - at
}

/// A text of its own.
pub fn text(alloc: Global, words: &str) -> Option<String> {
    String::from_str(alloc, words).ok()
}

/// How a call went that answers nothing else.
fn plainly(alloc: Global, done: Result<(), Failed>) -> Option<String> {
    match done {
        Ok(()) => text(alloc, "ok"),
        Err(Failed) => text(alloc, "failed"),
    }
}

/// The size of a site's disk.
pub fn size<S: Site>(alloc: Global, site: &S) -> Option<String> {
    let size = site.size();
    format!(in alloc; "size {size}").ok()
}

fn write<S: Site>(alloc: Global, site: &mut S, at: u64, bytes: &[u8]) -> Option<String> {
    if !is_within(site, at, bytes.len() as u64) {
        return text(alloc, "is not within the disk");
    }
    plainly(alloc, site.write_at(at, bytes))
}

fn sync<S: Site>(alloc: Global, site: &mut S) -> Option<String> {
    plainly(alloc, site.sync())
}

/// A word, and two bytes that were read, in hexadecimal.
fn shown(alloc: Global, word: &str, buf: [u8; 2]) -> Option<String> {
    let [first, second] = buf;
    format!(in alloc; "{word} {first:02x}{second:02x}").ok()
}

fn read<S: Site>(alloc: Global, site: &mut S, at: u64) -> Option<String> {
    if !is_within(site, at, 2) {
        return text(alloc, "is not within the disk");
    }
    let mut buf = *b"--";
    match site.read(at, &mut buf) {
        Ok(()) => shown(alloc, "ok", buf),
        Err(Failed) => shown(alloc, "failed", buf),
    }
}

fn put<S: Site>(alloc: Global, site: &mut S, seq: u8, bytes: &[u8]) -> Option<String> {
    match site.put(name(seq), bytes) {
        Ok(()) => text(alloc, "ok"),
        Err(PutFault::Failed) => text(alloc, "failed"),
        Err(PutFault::Memory) => text(alloc, "no memory"),
    }
}

fn get<S: Site>(alloc: Global, site: &mut S, seq: u8, offset: u64) -> Option<String> {
    let mut buf = *b"--";
    match site.get(name(seq), offset, &mut buf) {
        Ok(()) => shown(alloc, "ok", buf),
        Err(GetFault::Failed) => shown(alloc, "failed", buf),
        Err(GetFault::Missing) => shown(alloc, "missing", buf),
        Err(GetFault::Short { held }) => {
            let word = format!(in alloc; "short of {held}").ok()?;
            shown(alloc, word.as_str(), buf)
        }
    }
}

fn remove<S: Site>(alloc: Global, site: &mut S, seq: u8) -> Option<String> {
    plainly(alloc, site.remove(name(seq)))
}

fn list<S: Site>(alloc: Global, site: &mut S) -> Option<String> {
    match site.list() {
        Ok(held) => listed(alloc, &held),
        Err(PutFault::Failed) => text(alloc, "failed"),
        Err(PutFault::Memory) => text(alloc, "no memory"),
    }
}

/// The objects, each by its name and its length.
fn listed(alloc: Global, held: &[Held]) -> Option<String> {
    let mut all = text(alloc, "ok")?;
    for object in held {
        all.push_str(shown_object(alloc, object)?.as_str()).ok()?;
    }
    Some(all)
}

/// An object by its name and its length.
fn shown_object(alloc: Global, object: &Held) -> Option<String> {
    let name = object.name.to_text();
    let name = std::str::from_utf8(&name).ok()?;
    let length = object.length;
    format!(in alloc; " {name}={length}").ok()
}

/// A number and bytes in hexadecimal, `-` for none.
fn number_and_bytes(alloc: Global, words: &str) -> Option<(u64, Vec<u8>)> {
    let (number, digits) = words.split_once(' ')?;
    Some((number.parse::<u64>().ok()?, bytes_of(alloc, digits)?))
}

/// Bytes in hexadecimal, `-` for none.
pub fn bytes_of(alloc: Global, digits: &str) -> Option<Vec<u8>> {
    if digits == "-" {
        return Some(Vec::new(alloc));
    }
    hex::decode(alloc, digits).ok()
}

/// What a site answers. Nothing, where the words can't be read.
pub fn ask<S: Site>(alloc: Global, site: &mut S, what: &str, words: &str) -> Option<String> {
    match what {
        "write" => {
            let (at, bytes) = number_and_bytes(alloc, words)?;
            write(alloc, site, at, &bytes)
        }
        "sync" => sync(alloc, site),
        "read" => read(alloc, site, words.parse::<u64>().ok()?),
        "list" => list(alloc, site),
        _ => ask_object(alloc, site, what, words),
    }
}

/// What a site answers of an object.
fn ask_object<S: Site>(alloc: Global, site: &mut S, what: &str, words: &str) -> Option<String> {
    match what {
        "put" => {
            let (seq, bytes) = number_and_bytes(alloc, words)?;
            put(alloc, site, u8::try_from(seq).ok()?, &bytes)
        }
        "get" => {
            let (seq, offset) = words.split_once(' ')?;
            get(
                alloc,
                site,
                seq.parse::<u8>().ok()?,
                offset.parse::<u64>().ok()?,
            )
        }
        "remove" => remove(alloc, site, words.parse::<u8>().ok()?),
        _ => None,
    }
}
