//! Handles as callers send them.

ghost use Rattle.std.specs.Prelude.{◌≡◌, false, true, length, IfNone, IfSome};
ghost use Rattle.std.specs.Int.{from_be_bytes, w64};
ghost use Rattle.sky_nfs.specs.Handles.{fileid_in, is_handle_of};

/// The number that eight bytes encode, the highest first.
fn number_in(bytes: &[u8]) -> u64
    requires { length bytes.now ≡ 8 }
    ensures { result ≡ from_be_bytes w64 bytes.now }
{
    let mut number = [0; 8];
    number.copy_from_slice(bytes);
    u64::from_be_bytes(number)
}

/// The fileid in the bytes of a handle of this volume. `None` where they are of another length or of another volume.
pub fn read_handle(volume: u64, bytes: &[u8]) -> Option<u64>
    ensures found { IfSome result (λ fileid. (is_handle_of volume bytes.now ≡ true) × (fileid ≡ fileid_in bytes.now)) }
    ensures none { IfNone result (is_handle_of volume bytes.now ≡ false) }
{
    if bytes.len() != 16 {
        return None;
    }
    let (named, fileid) = bytes.split_at(8);
    if number_in(named) == volume {
        Some(number_in(fileid))
    } else {
        None
    }
}
