//! Parts of results: attributes, handles and texts.

ghost use Rattle.std.specs.Prelude.{◌≡◌};
ghost use Rattle.std.specs.Option.{option_map};
ghost use Rattle.sky_show.specs.Names.{kinds, name_in};

use sky_xdr::{Reader, XdrFault};
use std::fmt;

/// The most bytes of a handle (`nfs_fh3`, RFC 1813 section 2.6).
pub const MAX_HANDLE_BYTES: u32 = 64;

/// What a line tells of an object's attributes (`fattr3`, RFC 1813 section 2.6). As text: `fileid 3 regular 12 bytes mode 644`, the mode in
/// octal digits.
#[derive(Clone, Copy)]
pub struct Attributes {
    pub kind: u32,
    pub mode: u32,
    pub size: u64,
    pub fileid: u64,
}

/// Takes attributes, 84 bytes.
pub fn take_attributes(reader: &mut Reader<'_>) -> Result<Attributes, XdrFault> {
    let kind = reader.take_u32()?;
    let mode = reader.take_u32()?;
    reader.take_fixed(12)?;
    let size = reader.take_u64()?;
    reader.take_fixed(24)?;
    let fileid = reader.take_u64()?;
    reader.take_fixed(24)?;
    Ok(Attributes {
        kind,
        mode,
        size,
        fileid,
    })
}

/// Takes attributes that may be left out (`post_op_attr`).
pub fn take_some_attributes(reader: &mut Reader<'_>) -> Result<Option<Attributes>, XdrFault> {
    if reader.take_bool()? {
        Ok(Some(take_attributes(reader)?))
    } else {
        Ok(None)
    }
}

/// Passes over what an object was before and is after a call (`wcc_data`).
pub fn take_wcc(reader: &mut Reader<'_>) -> Result<(), XdrFault> {
    if reader.take_bool()? {
        reader.take_fixed(24)?;
    }
    take_some_attributes(reader)?;
    Ok(())
}

/// The name of a kind of object (`ftype3`, RFC 1813 section 2.6).
fn kind_name(kind: u32) -> Option<&'static str>
    ensures { option_map (λ name. name.now) result ≡ name_in kinds kind }
{
    match kind {
        1 => Some("regular"),
        2 => Some("directory"),
        3 => Some("block device"),
        4 => Some("character device"),
        5 => Some("symbolic link"),
        6 => Some("socket"),
        7 => Some("named pipe"),
        _ => None,
    }
}

impl fmt::Display for Attributes {
    fn fmt<W: fmt::Write>(&self, f: &mut fmt::Formatter<W>) -> fmt::Result {
        write!(
            f,
            "fileid {} {} {} bytes mode {:o}",
            self.fileid,
            kind_name(self.kind).unwrap_or("of no known kind"),
            self.size,
            self.mode
        )
    }
}

/// A handle. As text: the numbers in it, where it is one of this proxy: 8 bytes of the volume and 8 of the node.
#[derive(Clone, Copy)]
pub struct Handle<'a>(pub &'a [u8]);

/// The volume and the node that a handle names.
fn numbers_in(handle: &[u8]) -> Result<(u64, u64), XdrFault> {
    let mut reader = Reader::over(handle);
    let volume = reader.take_u64()?;
    let fileid = reader.take_u64()?;
    reader.end()?;
    Ok((volume, fileid))
}

impl fmt::Display for Handle<'_> {
    fn fmt<W: fmt::Write>(&self, f: &mut fmt::Formatter<W>) -> fmt::Result {
        match numbers_in(self.0) {
            Ok((volume, fileid)) => write!(f, "fileid {fileid} of volume {volume}"),
            Err(_) => write!(f, "a handle of {} bytes", self.0.len()),
        }
    }
}

/// Bytes that may be a text. As text: in quotes, where a quote, a backslash and what is no printing character of ASCII stand as `\x` and two
/// hexadecimal digits.
#[derive(Clone, Copy)]
pub struct Quoted<'a>(pub &'a [u8]);

/// Whether a byte stands for itself between quotes.
fn is_plain(byte: u8) -> bool {
    (b' '..=b'~').contains(&byte) && byte != b'"' && byte != b'\\'
}

impl fmt::Display for Quoted<'_> {
    fn fmt<W: fmt::Write>(&self, f: &mut fmt::Formatter<W>) -> fmt::Result {
        f.write_str("\"")?;
        for byte in self.0 {
            if is_plain(*byte) {
                f.write_char(char::from(*byte))?;
            } else {
                write!(f, "\\x{byte:02x}")?;
            }
        }
        f.write_str("\"")
    }
}
