//! Why bytes could not be read, and why a value could not be written.

/// What is wrong with the bytes that were to be read.
#[derive(Clone, Copy)]
pub enum XdrFault {
    /// The length of opaque data is above the caller's limit.
    TooLong,
    /// Bytes are missing: of a number, of opaque data or of its padding.
    Short,
    /// A boolean is neither 0 nor 1 (RFC 4506, section 4.4).
    BadBool,
    /// A number is none of an enumeration's (RFC 4506, section 4.3). Readers of enumerations answer
    /// it, and no call of this crate.
    BadEnum,
    /// Bytes are left where the item was to end.
    Left,
}

/// The value does not fit into what is left of the writer's buffer.
#[derive(Clone, Copy)]
pub struct NoRoom;
