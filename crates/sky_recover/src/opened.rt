//! What an opening says of a site.

/// The numbers of an opening.
#[derive(Clone, Copy)]
pub struct Opened {
    /// The epoch that it claimed: 1 to 2^62 - 1.
    pub epoch: u64,
    /// How many changes the volume has had.
    pub k: u64,
    /// Whether some of them are in the journal alone, and not in the cloud.
    pub journal: bool,
}
