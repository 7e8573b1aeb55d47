//! Opening a volume, also after a stop: from the journal of a site and its cloud.
//!
//! `recover` lists the cloud, reads the journal, claims the next epoch by putting its boot object, does the changes of the journal again,
//! and leaves the journal's areas ready for changes. What is found is the history of `sky_sound`, and a stop at any moment leaves it as
//! it was (`specs/Opening.antt`). Checkpoints are not read yet: a cloud that lists one of the proxy is refused.
#![tactic(auto)]

mod boot;
mod fault;
mod grammar;
mod laws;
mod listing;
mod opened;
mod opening;
mod reading;
mod replaying;
mod settling;

pub use fault::OpenFault;
pub use laws::a_site_is_found_in_one_way;
pub use opened::Opened;
pub use opening::recover;
