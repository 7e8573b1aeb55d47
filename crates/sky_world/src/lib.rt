//! The proxy between two frames of a recorded session, and what a frame does to it.
#![tactic(auto)]

mod fault;
mod laws;
mod message;
mod opening;
mod reply;
mod service;
mod sessions;
mod world;

pub use laws::{
    a_restart_shows_a_prefix, cuts_do_not_matter, each_frame_has_one_step,
    each_recording_has_one_meaning, the_mark_does_not_fall, there_is_one_history,
};
pub use world::World;
