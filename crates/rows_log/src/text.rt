//! Values of the log as text.

use sky_base::{Damage, Dir, ItemId, Link, Location, Moment, SegName};
use sky_item::{Attributes, Content, Fileids, InodeItem, Item, ItemFault, NumberedLink};
use std::fmt;

/// Bytes in hexadecimal digits, `-` where there are none, and more than 32 of one value in short, as in `07*40`.
#[derive(Clone, Copy)]
pub struct Bytes<'a>(pub &'a [u8]);

impl fmt::Display for Bytes<'_> {
    fn fmt<W: fmt::Write>(&self, f: &mut fmt::Formatter<W>) -> fmt::Result {
        let bytes = self.0;
        let Some(first) = bytes.first() else {
            return f.write_str("-");
        };
        if bytes.len() > 32 && bytes.iter().all(|byte| *byte == *first) {
            return write!(f, "{first:02x}*{}", bytes.len());
        }
        for byte in bytes {
            write!(f, "{byte:02x}")?;
        }
        Ok(())
    }
}

/// The name of an object, in short: its directory, run and number, and `s` or `k`.
#[derive(Clone, Copy)]
pub struct ShortName(pub SegName);

impl fmt::Display for ShortName {
    fn fmt<W: fmt::Write>(&self, f: &mut fmt::Formatter<W>) -> fmt::Result {
        let dir = match self.0.dir {
            Dir::Proxy => 'p',
            Dir::Cleaner => 'c',
        };
        let kind = if self.0.last { 'k' } else { 's' };
        write!(f, "{dir}/{}/{}.{kind}", self.0.run, self.0.seq)
    }
}

/// A place: the segment, the offset in it and the length.
#[derive(Clone, Copy)]
pub struct Place(pub Location);

impl fmt::Display for Place {
    fn fmt<W: fmt::Write>(&self, f: &mut fmt::Formatter<W>) -> fmt::Result {
        write!(
            f,
            "{} {} {}",
            ShortName(self.0.name()),
            self.0.offset,
            self.0.length
        )
    }
}

/// An identifier: its epoch and its counter.
#[derive(Clone, Copy)]
pub struct Id(pub ItemId);

impl fmt::Display for Id {
    fn fmt<W: fmt::Write>(&self, f: &mut fmt::Formatter<W>) -> fmt::Result {
        write!(f, "{}.{}", self.0.epoch, self.0.counter)
    }
}

/// An identifier and a place, if there is one.
#[derive(Clone, Copy)]
pub struct LinkOrNone(pub Option<Link>);

impl fmt::Display for LinkOrNone {
    fn fmt<W: fmt::Write>(&self, f: &mut fmt::Formatter<W>) -> fmt::Result {
        match self.0 {
            Some(link) => write!(f, "{} {}", Id(link.id), Place(link.at)),
            None => f.write_str("none"),
        }
    }
}

/// Why no item was read.
#[derive(Clone, Copy)]
pub struct Fault(pub ItemFault);

impl fmt::Display for Fault {
    fn fmt<W: fmt::Write>(&self, f: &mut fmt::Formatter<W>) -> fmt::Result {
        match self.0 {
            ItemFault::Damage(Damage::Short { held }) => write!(f, "short, {held} held"),
            ItemFault::Damage(Damage::Form { at }) => write!(f, "form at {at}"),
            ItemFault::Damage(Damage::Digest { stored, computed }) => {
                write!(
                    f,
                    "digest {} is {}",
                    Bytes(stored.as_slice()),
                    Bytes(computed.as_slice())
                )
            }
            ItemFault::Damage(Damage::Identity { wanted, found }) => {
                write!(f, "identity {} is {}", Id(wanted), Id(found))
            }
            ItemFault::Memory => f.write_str("no memory"),
        }
    }
}

/// An item, with all of its fields.
#[derive(Clone, Copy)]
pub struct Shown<'a>(pub &'a Item);

impl fmt::Display for Shown<'_> {
    fn fmt<W: fmt::Write>(&self, f: &mut fmt::Formatter<W>) -> fmt::Result {
        match self.0 {
            Item::Block(it) => write!(f, "block {} {}", Id(it.id), Bytes(it.bytes.as_slice())),
            Item::Inode(it) => write!(f, "inode {}", Inode(it)),
            Item::Page(it) => {
                let slots = Numbered(it.slots.as_slice());
                write!(f, "page {} number {}{slots}", Id(it.id), it.number)
            }
            Item::Check(it) => {
                let fields = Checkpoint {
                    id: it.id,
                    numbers: [
                        it.volume,
                        it.covers,
                        it.next_fileid,
                        it.first_seq,
                        it.merged,
                        it.base_epoch,
                        it.base_seq,
                    ],
                    pages: it.pages.as_slice(),
                    touched: &it.touched,
                };
                write!(f, "checkpoint {fields}")
            }
        }
    }
}

/// An inode, and behind it the parts of what the node holds.
#[derive(Clone, Copy)]
struct Inode<'a>(&'a InodeItem);

impl fmt::Display for Inode<'_> {
    fn fmt<W: fmt::Write>(&self, f: &mut fmt::Formatter<W>) -> fmt::Result {
        write!(f, "{} {} ", Id(self.0.id), Fields(self.0.attributes))?;
        match &self.0.content {
            Content::Regular { size, blocks } => {
                write!(f, "file of {size}")?;
                for block in blocks.as_slice() {
                    write!(f, " [{}]", LinkOrNone(*block))?;
                }
                Ok(())
            }
            Content::Directory {
                parent,
                next_cookie,
                rows,
            } => {
                write!(f, "directory in {parent} next {next_cookie}")?;
                for (cookie, name, fileid) in rows.as_slice() {
                    write!(f, " [{cookie} {fileid} {}]", Bytes(name.as_bytes()))?;
                }
                Ok(())
            }
            Content::SymbolicLink { text } => {
                write!(f, "symbolic link {}", Bytes(text.as_slice()))
            }
        }
    }
}

/// The attributes: the mode in octal, and each moment as its seconds, a dot and its nanoseconds.
#[derive(Clone, Copy)]
struct Fields(Attributes);

impl fmt::Display for Fields {
    fn fmt<W: fmt::Write>(&self, f: &mut fmt::Formatter<W>) -> fmt::Result {
        let a = self.0;
        write!(
            f,
            "mode {:o} nlink {} uid {} gid {}",
            a.mode, a.nlink, a.uid, a.gid
        )?;
        let times = a.times;
        write!(
            f,
            " atime {} mtime {}",
            Time(times.atime),
            Time(times.mtime)
        )?;
        write!(f, " ctime {} verifier ", Time(times.ctime))?;
        match a.verifier {
            Some(kept) => write!(f, "{}", Bytes(kept.as_slice()))?,
            None => f.write_str("none")?,
        }
        write!(f, " fileid {}", a.fileid)
    }
}

#[derive(Clone, Copy)]
struct Time(Moment);

impl fmt::Display for Time {
    fn fmt<W: fmt::Write>(&self, f: &mut fmt::Formatter<W>) -> fmt::Result {
        write!(f, "{}.{}", self.0.seconds, self.0.nanos)
    }
}

/// Links with their numbers.
#[derive(Clone, Copy)]
struct Numbered<'a>(&'a [NumberedLink]);

impl fmt::Display for Numbered<'_> {
    fn fmt<W: fmt::Write>(&self, f: &mut fmt::Formatter<W>) -> fmt::Result {
        for it in self.0 {
            write!(f, " [{} {}]", it.number, LinkOrNone(Some(it.link)))?;
        }
        Ok(())
    }
}

/// A checkpoint.
#[derive(Clone, Copy)]
pub struct Checkpoint<'a> {
    pub id: ItemId,
    /// The volume, what it covers, the next fileid, the first number, the last merged run, and the epoch and number of the base.
    pub numbers: [u64; 7],
    pub pages: &'a [NumberedLink],
    pub touched: &'a Fileids,
}

impl fmt::Display for Checkpoint<'_> {
    fn fmt<W: fmt::Write>(&self, f: &mut fmt::Formatter<W>) -> fmt::Result {
        let [volume, covers, next, first, merged, epoch, seq] = self.numbers;
        write!(
            f,
            "{} volume {volume} covers {covers} next {next}",
            Id(self.id)
        )?;
        write!(f, " first {first} merged {merged} base {epoch} {seq}")?;
        write!(f, " pages{} touched", Numbered(self.pages))?;
        for fileid in self.touched.as_slice() {
            write!(f, " [{fileid}]")?;
        }
        Ok(())
    }
}
