//! What the proxy needs of the world outside it, as traits: where bytes come from and go to, the
//! journal's disk, the cloud, the clock, the threads and the doors through which clients come.
//!
//! Each device but the clock counts its own faults, and an answer that blames a device comes only
//! where the count rose in that call. A device may tell what it holds; a contract then speaks of it.
#![tactic(auto)]

mod server;
mod site;
mod storage;
mod stream;
mod through;
mod whole;

pub use server::{Clock, Doors, Spawner};
pub use site::{Cloud, Disk, GetFault, Held, PutFault, Site};
pub use storage::Storage;
pub use stream::{Failed, Sink, Source};
pub use through::write_through;
pub use whole::{FillFault, fill, write_all};
