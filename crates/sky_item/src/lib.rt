//! The items of the log: blocks, inodes, pages of the map of inodes, and checkpoints, written and read.
#![tactic(auto)]

mod bodies;
mod fault;
mod fields;
mod item;
mod laws;
mod length;
mod lists;
mod output;
mod parts;
mod read;
mod reading;
mod taking;
mod writing;

pub use bodies::write_item;
pub use fault::ItemFault;
pub use item::{Attributes, BlockItem, CheckItem, Content, InodeItem, Item, PageItem, Times};
pub use laws::{copies_are_the_same_item, item_at_decides, items_have_one_reading};
pub use length::item_length;
pub use lists::{BlockLinks, DirRows, Fileids, ItemBytes, NumberedLink, NumberedLinks};
pub use read::read_item;
