//! Where an area lies on the disk.

ghost use Rattle.std.specs.Prelude.{◌+◌, ◌<◌, ◌^◌};

/// An area of the disk.
#[derive(Clone, Copy)]
pub(crate) struct Span {
    /// Where it begins, in bytes.
    pub(crate) start: u64,
    /// How many bytes it has.
    pub(crate) size: u64,
    ghost fits: { start + size < 2 ^ 64 },
}
