//! The padding of items whose length is no multiple of four (RFC 4506, section 3).

ghost use Rattle.std.specs.Prelude.{◌≡◌, length};
ghost use Rattle.sky_xdr.specs.Encoding.{padding, opaque};

/// How many bytes fill up `len` bytes to a multiple of four.
pub(crate) fn padding_of(len: usize) -> usize
    ensures { result ≡ padding len }
{
    (4 - len % 4) % 4
}

/// How many bytes variable-length opaque data takes: its length, the bytes and the padding (RFC 4506,
/// section 4.10).
pub fn opaque_length(v: &[u8]) -> usize
    ensures { result ≡ length (opaque v.now) }
{
    4 + v.len() + padding_of(v.len())
}
