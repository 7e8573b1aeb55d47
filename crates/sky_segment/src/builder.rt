//! Building objects.

ghost use Rattle.std.specs.Prelude.{◌≡◌, ◌<◌, ◌++◌, [], ◌∷◌, List, true, Ok, IfOk, OnErr};
ghost use Rattle.sky_base.specs.Limits.{max_number};
ghost use Rattle.sky_item.specs.Items.{IsItem, IsLocation};
ghost use Rattle.sky_item.specs.declared.item.Item.{Item};
ghost use Rattle.sky_segment.specs.Objects.{IsObject, LiesAt, object_bytes};
ghost use Rattle.sky_segment.specs.Damages.{object_at};
ghost use Rattle.sky_segment.specs.Drafts.{IsDraft, is_complete, takes_kind, has_room, with_item, next_place};

use crate::bytes::SegmentBytes;
use crate::header::empty_header;
use crate::writing::{OBJECT_BYTES, push_item, set_count};
use sky_base::{Dir, Location, NoMemory, SegName};
use sky_item::{Item, item_length};
use std::alloc::Global;
use std::marker::Model;

/// An object that is being made: items are added one behind the other, and it never has more than 4,194,304 bytes. Contracts see it
/// as a `Draft`, a name and the items so far.
#[derive(Drop)]
pub struct Builder {
    name: SegName,
    /// How many items there are.
    count: u32,
    /// The header, with 0 as the number of items, and the items.
    bytes: Vec<u8>,
}

impl Model for Builder {
    ghost use Rattle.sky_segment.specs.Drafts.{Draft, IsKept, draft_of};

    ghost Value = { Draft };

    ghost view = { λ b. draft_of b.name b.count b.bytes.items };

    ghost invariant = { λ b. IsKept b.name b.count b.bytes.items };
}

impl Builder {
    /// The object of this name, with no items yet. The condition is that the numbers are below 2^62. It takes memory as it grows:
    /// at first for the header's 36 bytes.
    pub fn new(alloc: Global, dir: Dir, run: u64, seq: u64, last: bool) -> Result<Builder, NoMemory>
        requires run { run < max_number }
        requires seq { seq < max_number }
        ensures { IfOk result (λ b. b ≡ record { name = record { dir = dir; run = run; seq = seq; last = last }; items = [] }) }
    {
        let name = SegName {
            dir,
            run,
            seq,
            last,
        };
        let bytes = empty_header(alloc, name)?;
        Ok(Builder {
            name,
            count: 0,
            bytes,
        })
    }

    /// The object's name.
    pub fn name(&self) -> SegName
        ensures same { result ≡ self.now.name }
        ensures draft { IsDraft self.now }
    {
        self.name
    }

    /// Whether the object with this item would have at most 4,194,304 bytes. The condition is that it is an item of the format.
    pub fn fits(&self, item: &Item) -> bool
        requires { IsItem item.now }
        ensures { result ≡ has_room self.now item.now }
    {
        self.bytes.len() + item_length(item) as usize <= OBJECT_BYTES
    }

    /// Whether an item of this kind may come next: into an object that ends a batch one checkpoint, and into the others all other
    /// kinds.
    pub fn takes(&self, item: &Item) -> bool
        ensures { result ≡ takes_kind self.now item.now }
    {
        match item {
            Item::Check(_) => self.name.last && self.count == 0,
            Item::Block(_) | Item::Inode(_) | Item::Page(_) => !self.name.last,
        }
    }

    /// Adds an item behind the others, and says where it lies. The conditions are that it is an item of the format, that the object
    /// has room for it (`fits`), and that its kind may come next (`takes`).
    ///
    /// `NoMemory` where there is no memory for its bytes; nothing is added then.
    pub fn add(&mut self, item: &Item) -> Result<Location, NoMemory>
        requires item { IsItem item.now }
        requires fits { has_room self.old item.now ≡ true }
        requires kind { takes_kind self.old item.now ≡ true }
        ensures added { IfOk result (λ at. self.new ≡ with_item self.old item.now) }
        ensures place { IfOk result (λ at. at ≡ next_place self.old item.now) }
        ensures location { IfOk result (λ at. IsLocation at) }
        // Whatever is added later, the item lies there in the object.
        ensures lies { IfOk result (λ at. (more : List Item) → LiesAt (object_bytes self.old.name (self.old.items ++ item.now ∷ more)) at item.now) }
        ensures err { OnErr result (self.new ≡ self.old) }
    {
        let name = self.name;
        let at = Location {
            dir: name.dir,
            run: name.run,
            seq: name.seq,
            offset: self.bytes.len() as u32,
            length: item_length(item),
        };
        push_item(&mut self.bytes, item)?;
        self.count += 1;
        Ok(at)
    }

    /// Whether the object has what it must have: one that ends a batch its checkpoint.
    pub fn is_complete(&self) -> bool
        ensures { result ≡ is_complete self.now }
    {
        !self.name.last || self.count == 1
    }

    /// The object's bytes. The condition is that one that ends a batch has its checkpoint.
    pub fn finish(self) -> SegmentBytes
        requires { is_complete self ≡ true }
        ensures object { IsObject self.name result self.items }
        // What was built is read again as the same items.
        ensures read_again { object_at self.name result ≡ Ok self.items }
    {
        let mut bytes = self.bytes;
        set_count(&mut bytes, self.count);
        SegmentBytes::new(bytes)
    }
}
