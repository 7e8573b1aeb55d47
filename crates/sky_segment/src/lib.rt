//! Objects of the cloud, made of items: built, and read with what is wrong with bytes that are none.
#![tactic(auto)]

mod builder;
mod bytes;
mod header;
mod laws;
mod read;
mod writing;

pub use builder::Builder;
pub use bytes::SegmentBytes;
pub use laws::{drafts_have_room, empty_objects, object_at_decides, objects_have_one_reading};
pub use read::read_segment;
