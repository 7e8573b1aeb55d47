//! Objects of the cloud, and what is wrong with them.

use sky_base::{Damage, Dir, ItemId, SegName};
use std::fmt;

/// The name of an object, which is its path in the cloud's folder.
#[derive(Clone, Copy)]
pub struct Object(pub SegName);

impl fmt::Display for Object {
    fn fmt<W: fmt::Write>(&self, f: &mut fmt::Formatter<W>) -> fmt::Result {
        let dir = match self.0.dir {
            Dir::Proxy => 'p',
            Dir::Cleaner => 'c',
        };
        let kind = if self.0.last { 'k' } else { 's' };
        write!(f, "{dir}/{:016x}/{:016x}.{kind}", self.0.run, self.0.seq)
    }
}

/// A digest, as `sha256sum` prints it.
#[derive(Clone, Copy)]
struct Digest([u8; 32]);

impl fmt::Display for Digest {
    fn fmt<W: fmt::Write>(&self, f: &mut fmt::Formatter<W>) -> fmt::Result {
        for byte in &self.0 {
            write!(f, "{byte:02x}")?;
        }
        Ok(())
    }
}

/// An item's identifier, in words.
#[derive(Clone, Copy)]
struct Item(ItemId);

impl fmt::Display for Item {
    fn fmt<W: fmt::Write>(&self, f: &mut fmt::Formatter<W>) -> fmt::Result {
        write!(f, "item {} of epoch {}", self.0.counter, self.0.epoch)
    }
}

/// What is wrong with an object, in words that go on a sentence.
#[derive(Clone, Copy)]
pub struct Fault(pub Damage);

impl fmt::Display for Fault {
    fn fmt<W: fmt::Write>(&self, f: &mut fmt::Formatter<W>) -> fmt::Result {
        match self.0 {
            Damage::Short { held } => write!(f, "it ends too early, after {held} bytes"),
            Damage::Form { at } => write!(f, "byte {at} of it is not of the format"),
            Damage::Digest { stored, computed } => write!(
                f,
                "the SHA-256 of its body is {}, and it says {}",
                Digest(computed),
                Digest(stored)
            ),
            Damage::Identity { wanted, found } => {
                write!(
                    f,
                    "it has {} where {} was looked for",
                    Item(found),
                    Item(wanted)
                )
            }
        }
    }
}
