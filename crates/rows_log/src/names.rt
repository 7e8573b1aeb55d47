//! Rows of plain values: names of objects, statuses, texts, names of entries, credentials and places.

use crate::bench::Kept;
use crate::text::{Bytes, ShortName};
use crate::words::{bytes_of, location_of, name_of, number, small};
use sky_base::{Cred, Damage, Dir, Gids, Name, SegName, Status, Text};
use std::alloc::Global;
use std::cmp::Ordering;
use std::{fmt, io};

/// The whole text of a name.
#[derive(Clone, Copy)]
struct WholeName(SegName);

impl fmt::Display for WholeName {
    fn fmt<W: fmt::Write>(&self, f: &mut fmt::Formatter<W>) -> fmt::Result {
        for byte in self.0.to_text() {
            f.write_char(char::from(byte))?;
        }
        Ok(())
    }
}

/// `name of TEXT`: the name with this text. `name of`: with no text at all. `name text DIR RUN SEQ KIND`: the text of a name.
pub fn name(rt: &impl Print, row: &str, args: &[&str]) -> Option<io::Result<()>> {
    match args {
        [_, dir, run, seq, kind] => {
            let name = SegName {
                dir: dir_of(dir)?,
                run: number(run)?,
                seq: number(seq)?,
                last: *kind == "k",
            };
            Some(println!(rt; "{row} {}", WholeName(name)))
        }
        [_, words @ ..] => match name_of(words.first().unwrap_or(&"")) {
            Some(name) => Some(println!(rt; "{row} {}", ShortName(name))),
            None => Some(println!(rt; "{row} not a name")),
        },
        [] => None,
    }
}

/// The directory of a letter.
fn dir_of(word: &str) -> Option<Dir> {
    match word {
        "p" => Some(Dir::Proxy),
        "c" => Some(Dir::Cleaner),
        _ => None,
    }
}

/// `order NAME NAME`: how the first stands to the second.
pub fn order(rt: &impl Print, row: &str, args: &[&str]) -> Option<io::Result<()>> {
    let [one, other] = args else {
        return None;
    };
    let word = match name_of(one)?.cmp(&name_of(other)?) {
        Ordering::Less => "less",
        Ordering::Equal => "equal",
        Ordering::Greater => "greater",
    };
    Some(println!(rt; "{row} {word}"))
}

/// `status STATUS`: its number and its place.
pub fn status(rt: &impl Print, row: &str, args: &[&str]) -> Option<io::Result<()>> {
    let status = match args {
        [word] => plain_status_of(word)?,
        [word, at] => status_at(word, at)?,
        [_, name, at] => Status::Damaged {
            name: name_of(name)?,
            damage: Damage::Form { at: small(at)? },
        },
        _ => return None,
    };
    Some(println!(rt; "{row} number {} place {}", status.number(), status.place()))
}

/// The status of a word that says a place or a name.
fn status_at(word: &str, at: &str) -> Option<Status> {
    match word {
        "malformed" => Some(Status::Malformed { at: number(at)? }),
        "foreign" => Some(Status::Foreign { at: number(at)? }),
        "missing" => Some(Status::Missing { name: name_of(at)? }),
        _ => None,
    }
}

/// The status of one word.
fn plain_status_of(word: &str) -> Option<Status> {
    match word {
        "done" => Some(Status::Done),
        "words" => Some(Status::Words),
        "early" => Some(Status::Early),
        "source" => Some(Status::SourceFault),
        "sink" => Some(Status::SinkFault),
        "journal" => Some(Status::JournalFault),
        "cloud" => Some(Status::CloudFault),
        "memory" => Some(Status::Memory),
        "worn" => Some(Status::Worn),
        "long" => Some(Status::Long),
        "settings" => Some(Status::Settings),
        _ => None,
    }
}

/// `text WORD`: the text of a word, to read and given back. `text`: that of none.
pub fn text(rt: &impl Print, alloc: Global, row: &str, args: &[&str]) -> io::Result<()> {
    let text = Text::new(String::from_str(alloc, args.first().unwrap_or(&""))?);
    print!(rt; "{row} {:?} and ", text.as_str())?;
    println!(rt; "{:?}", text.into_string())
}

/// `entry BYTES`: the name of an entry with these bytes, to read and given back.
pub fn entry(
    rt: &impl Print,
    alloc: Global,
    kept: &Kept,
    row: &str,
    args: &[&str],
) -> Option<io::Result<()>> {
    let bytes = bytes_of(alloc, kept, args.first()?)?;
    match Name::new(bytes) {
        Some(name) => Some(both_names(rt, row, name)),
        None => Some(println!(rt; "{row} too long")),
    }
}

fn both_names(rt: &impl Print, row: &str, name: Name) -> io::Result<()> {
    print!(rt; "{row} {} and ", Bytes(name.as_bytes()))?;
    println!(rt; "{}", Bytes(&name.into_bytes()))
}

/// `cred UID GID GIDS..`: a credential with as many of the further groups as it keeps.
pub fn cred(rt: &impl Print, row: &str, args: &[&str]) -> Option<io::Result<()>> {
    let [uid, gid, others @ ..] = args else {
        return None;
    };
    let cred = Cred {
        uid: small(uid)?,
        gid: small(gid)?,
        gids: gids_of(others)?,
    };
    let word = if cred.gids.is_full() {
        "full"
    } else {
        "not full"
    };
    let gids = cred.gids.as_slice();
    Some(println!(rt;
        "{row} uid {} gid {} gids {gids:?} {word}",
        cred.uid, cred.gid
    ))
}

/// The groups of these numbers, up to those that are kept.
fn gids_of(words: &[&str]) -> Option<Gids> {
    let mut gids = Gids::new();
    for word in words {
        let gid = small(word)?;
        if !gids.is_full() {
            gids.push(gid);
        }
    }
    Some(gids)
}

/// `place NAME OFFSET LENGTH`: the segment that an item lies in.
pub fn place(rt: &impl Print, row: &str, args: &[&str]) -> Option<io::Result<()>> {
    let at = location_of(args)?;
    Some(println!(rt; "{row} {}", WholeName(at.name())))
}
