//! Moments.

/// A moment, as NFS tells one (`nfstime3`, RFC 1813 section 2.6).
#[derive(Clone, Copy, PartialEq, Eq, PartialOrd, Ord)]
pub struct Moment {
    /// Seconds since the beginning of 1970.
    pub seconds: u32,
    /// Nanoseconds within the second.
    pub nanos: u32,
}
