//! The names of objects in the cloud.

/// Who wrote an object of the log: the proxy, or the cleaner beside the cloud. Each has a directory of its own.
#[derive(Clone, Copy, Debug, PartialEq, Eq, PartialOrd, Ord)]
pub enum Dir {
    /// Objects of the proxy.
    Proxy,
    /// Objects of the cleaner.
    Cleaner,
}

/// The name of an object in the cloud. Names are ordered by their fields, from the first to the last:
/// the proxy's before the cleaner's, and a segment before the checkpoint of the same number.
#[derive(Clone, Copy, Debug, PartialEq, Eq, PartialOrd, Ord)]
pub struct SegName {
    /// Whose directory it lies in.
    pub dir: Dir,
    /// The epoch of the proxy, or the number of the cleaner's run, below 2^62.
    pub run: u64,
    /// Its number within the epoch or the run, below 2^62.
    pub seq: u64,
    /// Whether it is the checkpoint that ends a batch.
    pub last: bool,
}
