//! The settings of a proxy: each in its range, and what each is where nothing is said.
#![tactic(auto)]

mod settings;

pub use settings::{Fields, Settings};
