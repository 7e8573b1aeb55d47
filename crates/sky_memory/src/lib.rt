//! Devices in memory, for tests and for runs that keep nothing: sources and sinks whose calls fail
//! where a list says so, others that never fail, and a site that never fails.
#![tactic(auto)]

mod calls;
mod fate;
mod mem_site;
mod objects;
mod past;
mod record;
mod sink;
mod site;
mod source;

pub use fate::Fail;
pub use mem_site::MemSite;
pub use sink::{MemSink, SureSink};
pub use site::SureSite;
pub use source::{MemSource, SureSource};
