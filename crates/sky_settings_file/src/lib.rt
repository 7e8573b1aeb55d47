//! The settings' file: a table of TOML whose keys are settings, all of them optional, and whose values are integers.
//!
//! | Key | From | To | Where nothing is said |
//! |---|---|---|---|
//! | `volume` | 1 | 2^62 | 1 |
//! | `journal_area` | 2^18 | 2^28 | 2^26 |
//! | `retained` | 1 | 16 | 2 |
//! | `threshold` | 1 | 100 | 50 |
//! | `cache_items` | 16 | 1,048,576 | 4,096 |
#![tactic(auto)]

mod read;
mod table;

pub use read::{SettingsFault, read_settings};
