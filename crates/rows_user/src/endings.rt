//! Rows of endings.

use hex::FromHex;
use sky_base::{Damage, ItemId, SegName, Status};
use sky_texts::Ending;
use std::io;

/// A decimal number.
fn number(word: &str) -> Option<u64> {
    word.parse::<u64>().ok()
}

/// An item's identifier: `EPOCH COUNTER`.
fn item_of(epoch: &str, counter: &str) -> Option<ItemId> {
    Some(ItemId {
        epoch: number(epoch)?,
        counter: number(counter)?,
    })
}

/// What is wrong with an object.
fn damage_of(args: &[&str]) -> Option<Damage> {
    match args {
        ["short", held] => Some(Damage::Short {
            held: number(held)?,
        }),
        ["form", at] => Some(Damage::Form {
            at: at.parse::<u32>().ok()?,
        }),
        ["digest", stored, computed] => Some(Damage::Digest {
            stored: <[u8; 32] as FromHex>::from_hex(*stored).ok()?,
            computed: <[u8; 32] as FromHex>::from_hex(*computed).ok()?,
        }),
        ["identity", epoch, counter, other_epoch, other_counter] => Some(Damage::Identity {
            wanted: item_of(epoch, counter)?,
            found: item_of(other_epoch, other_counter)?,
        }),
        _ => None,
    }
}

/// An ending that names no object.
fn plain_of(word: &str, at: u64) -> Option<Ending> {
    let status = match word {
        "done" => Status::Done,
        "words" => Status::Words,
        "malformed" => Status::Malformed { at },
        "early" => Status::Early,
        "source" => Status::SourceFault,
        "sink" => Status::SinkFault,
        "journal" => Status::JournalFault,
        "cloud" => Status::CloudFault,
        "memory" => Status::Memory,
        "foreign" => Status::Foreign { at },
        "worn" => Status::Worn,
        "long" => Status::Long,
        "settings" => Status::Settings,
        "settings-file" => return Some(Ending::SettingsFile),
        _ => return None,
    };
    Some(Ending::Ran(status))
}

/// The ending that a row says.
fn ending_of(args: &[&str]) -> Option<Ending> {
    match args {
        [word] => plain_of(word, 0),
        [word, at] if *word != "missing" => plain_of(word, number(at)?),
        ["missing", name] => Some(Ending::Ran(Status::Missing {
            name: SegName::from_text(name.as_bytes()).ok()?,
        })),
        ["damaged", name, damage @ ..] => Some(Ending::Ran(Status::Damaged {
            name: SegName::from_text(name.as_bytes()).ok()?,
            damage: damage_of(damage)?,
        })),
        _ => None,
    }
}

/// Tells of an ending: `ENDING`, `ENDING PLACE`, `missing NAME` or `damaged NAME DAMAGE`.
pub fn tell(rt: &impl Print, row: &str, args: &[&str]) -> Option<io::Result<()>> {
    let ending = ending_of(args)?;
    Some(println!(rt; "{row} {}\n{ending}", ending.number()))
}
