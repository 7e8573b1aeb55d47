//! The plain values that every layer of the proxy speaks of: moments, names, attributes and
//! credentials, the names of objects in the cloud and the places of items in them, the paths on the command
//! line, running out of memory, and the statuses with which a run ends. `specs/Limits.antt` has every limit's number.
#![tactic(auto)]

mod attr;
mod cred;
mod laws;
mod memory;
mod moment;
mod name;
mod name_text;
mod object;
mod paths;
mod place;
mod status;

pub use attr::{Attr, Device, Kind};
pub use cred::{Cred, Gids, Want};
pub use laws::{
    limits_are_as_defined, moments_are_ordered, names_are_ordered, texts_are_of_one_name,
};
pub use memory::NoMemory;
pub use moment::Moment;
pub use name::Name;
pub use name_text::NotAName;
pub use object::{Dir, SegName};
pub use paths::{Paths, Text};
pub use place::{Damage, ItemId, Link, Location, Lost};
pub use status::Status;
