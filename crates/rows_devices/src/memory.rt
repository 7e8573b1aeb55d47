//! Sites in memory, and what a stop leaves of one.

ghost use Rattle.std.specs.Prelude.{All, IfSome};
ghost use Rattle.sky_memory.specs.Objects.{IsInRange};

use crate::asks::{bytes_of, name, text};
use sky_base::SegName;
use sky_memory::{Fail, MemSite};
use std::alloc::Global;

/// The objects that a site has at first: `NUMBER=BYTES`, or `-` for none.
fn objects_of(alloc: Global, word: &str) -> Option<Vec<(SegName, Vec<u8>)>>
    ensures { IfSome result (λ held. All (λ o. IsInRange o.0) held.items) }
{
    let mut held = Vec::new(alloc);
    if word == "-" {
        return Some(held);
    }
    let (number, digits) = word.split_once('=')?;
    let name = name(number.parse::<u8>().ok()?);
    held.push((name, bytes_of(alloc, digits)?)).ok()?;
    Some(held)
}

/// A call that fails, with `!` behind its number where it does what it was asked for all the same.
fn fail_of(word: &str) -> Option<Fail> {
    let (number, happened) = match word.strip_suffix('!') {
        Some(number) => (number, true),
        None => (word, false),
    };
    let call = number.parse::<u64>().ok()?;
    Some(Fail { call, happened })
}

/// The calls of a list such as `1!,2`, `-` for none.
fn fails_of(alloc: Global, word: &str) -> Option<Vec<Fail>> {
    let mut fails = Vec::new(alloc);
    if word != "-" {
        for number in word.split(',') {
            fails.push(fail_of(number)?).ok()?;
        }
    }
    Some(fails)
}

/// A site in memory: `SIZE CALLS ROOM FAILS OBJECTS`.
pub fn open(alloc: Global, words: &str) -> Option<MemSite> {
    let (size, rest) = words.split_once(' ')?;
    let (calls, rest) = rest.split_once(' ')?;
    let (room, rest) = rest.split_once(' ')?;
    let (fails, objects) = rest.split_once(' ')?;
    let size = size.parse::<u64>().ok()?;
    let calls = calls.parse::<usize>().ok()?;
    let room = room.parse::<usize>().ok()?;
    let held = objects_of(alloc, objects)?;
    let fails = fails_of(alloc, fails)?;
    MemSite::new(alloc, size, held, calls, room, fails).ok()
}

/// What a site has: how many calls it keeps, its disk, and its objects 1 and 7.
pub fn state(alloc: Global, site: &MemSite) -> Option<String> {
    let calls = site.calls();
    let image = hex::encode(alloc, site.image()).ok()?;
    let first = held(alloc, site, 1)?;
    let seventh = held(alloc, site, 7)?;
    format!(in alloc; "calls {calls} disk {image} object 1 {first} object 7 {seventh}").ok()
}

/// The bytes of the object of a number, or `none`.
fn held(alloc: Global, site: &MemSite, number: u8) -> Option<String> {
    match site.held(name(number)) {
        Some(bytes) => hex::encode(alloc, bytes).ok(),
        None => text(alloc, "none"),
    }
}

/// What a stop leaves of a site: `CALL PART`.
pub fn stopped(alloc: Global, site: &MemSite, words: &str) -> Option<String> {
    let (call, part) = words.split_once(' ')?;
    let left = site
        .stopped(call.parse::<u64>().ok()?, part.parse::<u8>().ok()?)
        .ok()?;
    state(alloc, &left)
}
