//! The results of NFS procedures: their status, and what they mainly say (RFC 1813 section 3.3).

ghost use Rattle.std.specs.Prelude.{◌≡◌, ◌<◌, ◌^◌, ◌++◌, ℕ, List, IfOk, IsOk, slice_get};
ghost use Rattle.std.specs.Option.{option_map};
ghost use Rattle.sky_xdr.specs.Encoding.{uint};
ghost use Rattle.sky_show.specs.Names.{stable_hows};
ghost use Rattle.sky_show.specs.Results.{status_in};

use crate::parts::{
    Attributes, Handle, MAX_HANDLE_BYTES, Quoted, take_attributes, take_some_attributes, take_wcc,
};
use crate::statuses::{status_name, status_of};
use sky_xdr::{Reader, XdrFault};
use std::fmt;

/// NFS3_OK: the call was done.
const NFS3_OK: u32 = 0;

/// The most entries of a page that are counted. More do not fit into a frame.
const MAX_ENTRIES: u32 = 65_536;

/// What the results of a procedure mainly say.
#[derive(Clone, Copy)]
pub enum Results<'a> {
    /// The call was refused with this status.
    Refused(u32),
    /// It was done, and there is no more to say.
    Done,
    /// An object's attributes: GETATTR.
    Object(Attributes),
    /// An object: LOOKUP, CREATE, MKDIR and SYMLINK.
    Found {
        handle: &'a [u8],
        object: Option<Attributes>,
    },
    /// Rights, a bit each: ACCESS.
    Rights(u32),
    /// The text of a symbolic link: READLINK.
    Text(&'a [u8]),
    /// So many bytes, and whether the file ends with them: READ.
    Data {
        count: u32,
        eof: bool,
    },
    /// So many bytes, how stable they are, and the write verifier: WRITE.
    Written {
        count: u32,
        committed: u32,
        verifier: u64,
    },
    /// So many entries, and whether the listing ends with them: READDIR and READDIRPLUS.
    Entries {
        count: u32,
        eof: bool,
    },
    /// The bytes and the files that there can be, and how many of them are free: FSSTAT.
    Space {
        bytes: u64,
        free_bytes: u64,
        files: u64,
        free_files: u64,
    },
    /// The most bytes of a READ, of a WRITE and of a file: FSINFO.
    Sizes {
        read: u32,
        write: u32,
        file: u64,
    },
    /// The most links of a file and bytes of a name: PATHCONF.
    Names {
        links: u32,
        name: u32,
    },
    /// The write verifier: COMMIT.
    Committed(u64),
}

/// Takes the results of LOOKUP.
fn take_found<'a>(reader: &mut Reader<'a>) -> Result<Results<'a>, XdrFault>
    ensures { IfOk result (λ r. status_in r ≡ 0) }
{
    let handle = reader.take_opaque(MAX_HANDLE_BYTES)?;
    let object = take_some_attributes(reader)?;
    Ok(Results::Found { handle, object })
}

/// Takes the results of CREATE, MKDIR or SYMLINK, in which the handle may be left out.
fn take_made<'a>(reader: &mut Reader<'a>) -> Result<Results<'a>, XdrFault>
    ensures { IfOk result (λ r. status_in r ≡ 0) }
{
    if reader.take_bool()? {
        take_found(reader)
    } else {
        Ok(Results::Done)
    }
}

/// Takes the results of ACCESS.
fn take_rights<'a>(reader: &mut Reader<'a>) -> Result<Results<'a>, XdrFault>
    ensures { IfOk result (λ r. status_in r ≡ 0) }
{
    take_some_attributes(reader)?;
    Ok(Results::Rights(reader.take_u32()?))
}

/// Takes the results of READLINK.
fn take_text<'a>(reader: &mut Reader<'a>) -> Result<Results<'a>, XdrFault>
    ensures { IfOk result (λ r. status_in r ≡ 0) }
{
    take_some_attributes(reader)?;
    Ok(Results::Text(reader.take_opaque(u32::MAX)?))
}

/// Takes the results of READ.
fn take_data<'a>(reader: &mut Reader<'a>) -> Result<Results<'a>, XdrFault>
    ensures { IfOk result (λ r. status_in r ≡ 0) }
{
    take_some_attributes(reader)?;
    let count = reader.take_u32()?;
    let eof = reader.take_bool()?;
    Ok(Results::Data { count, eof })
}

/// Takes the results of WRITE.
fn take_written<'a>(reader: &mut Reader<'a>) -> Result<Results<'a>, XdrFault>
    ensures { IfOk result (λ r. status_in r ≡ 0) }
{
    take_wcc(reader)?;
    let count = reader.take_u32()?;
    let committed = reader.take_u32()?;
    let verifier = reader.take_u64()?;
    Ok(Results::Written {
        count,
        committed,
        verifier,
    })
}

/// Takes the results of COMMIT.
fn take_committed<'a>(reader: &mut Reader<'a>) -> Result<Results<'a>, XdrFault>
    ensures { IfOk result (λ r. status_in r ≡ 0) }
{
    take_wcc(reader)?;
    Ok(Results::Committed(reader.take_u64()?))
}

/// Takes an entry of a page, with attributes and a handle where it is one of READDIRPLUS.
fn take_entry(reader: &mut Reader<'_>, plus: bool) -> Result<(), XdrFault> {
    reader.take_u64()?;
    reader.take_opaque(u32::MAX)?;
    reader.take_u64()?;
    if plus {
        take_some_attributes(reader)?;
        if reader.take_bool()? {
            reader.take_opaque(MAX_HANDLE_BYTES)?;
        }
    }
    Ok(())
}

/// Takes the results of READDIR or READDIRPLUS.
fn take_entries<'a>(reader: &mut Reader<'a>, plus: bool) -> Result<Results<'a>, XdrFault>
    ensures { IfOk result (λ r. status_in r ≡ 0) }
{
    take_some_attributes(reader)?;
    reader.take_fixed(8)?;
    for count in 0..MAX_ENTRIES {
        if !reader.take_bool()? {
            let eof = reader.take_bool()?;
            return Ok(Results::Entries { count, eof });
        }
        take_entry(reader, plus)?;
    }
    Err(XdrFault::TooLong)
}

/// Takes the results of FSSTAT.
fn take_space<'a>(reader: &mut Reader<'a>) -> Result<Results<'a>, XdrFault>
    ensures { IfOk result (λ r. status_in r ≡ 0) }
{
    take_some_attributes(reader)?;
    let bytes = reader.take_u64()?;
    let free_bytes = reader.take_u64()?;
    reader.take_u64()?;
    let files = reader.take_u64()?;
    let free_files = reader.take_u64()?;
    Ok(Results::Space {
        bytes,
        free_bytes,
        files,
        free_files,
    })
}

/// Takes the results of FSINFO.
fn take_sizes<'a>(reader: &mut Reader<'a>) -> Result<Results<'a>, XdrFault>
    ensures { IfOk result (λ r. status_in r ≡ 0) }
{
    take_some_attributes(reader)?;
    let read = reader.take_u32()?;
    reader.take_fixed(8)?;
    let write = reader.take_u32()?;
    reader.take_fixed(12)?;
    let file = reader.take_u64()?;
    Ok(Results::Sizes { read, write, file })
}

/// Takes the results of PATHCONF.
fn take_names<'a>(reader: &mut Reader<'a>) -> Result<Results<'a>, XdrFault>
    ensures { IfOk result (λ r. status_in r ≡ 0) }
{
    take_some_attributes(reader)?;
    let links = reader.take_u32()?;
    let name = reader.take_u32()?;
    Ok(Results::Names { links, name })
}

/// Takes what stands behind NFS3_OK in the results of a procedure.
fn take_ok<'a>(procedure: u32, reader: &mut Reader<'a>) -> Result<Results<'a>, XdrFault>
    ensures { IfOk result (λ r. status_in r ≡ 0) }
{
    match procedure {
        1 => Ok(Results::Object(take_attributes(reader)?)),
        3 => take_found(reader),
        4 => take_rights(reader),
        5 => take_text(reader),
        6 => take_data(reader),
        7 => take_written(reader),
        8 | 9 | 10 => take_made(reader),
        16 => take_entries(reader, false),
        17 => take_entries(reader, true),
        18 => take_space(reader),
        19 => take_sizes(reader),
        20 => take_names(reader),
        21 => take_committed(reader),
        _ => Ok(Results::Done),
    }
}

/// What the results of a procedure mainly say, by its number. What stands behind that is passed over, and so are the attributes behind a refusal.
/// A fault where they end before it, or are not of their grammar.
pub fn read_results(procedure: u32, bytes: &[u8]) -> Result<Results<'_>, XdrFault>
    // The status that is told is the one that they begin with.
    ensures status { 0 < procedure → IfOk result (λ r. (more : List ℕ) × (bytes.now ≡ uint (status_in r) ++ more)) }
    // A refusal is always told.
    ensures refused { 0 < procedure → (status : ℕ) (more : List ℕ) → 0 < status → status < 2 ^ 32 → bytes.now ≡ uint status ++ more → IsOk result }
{
    if procedure == 0 {
        return Ok(Results::Done);
    }
    let mut reader = Reader::over(bytes);
    match reader.take_u32()? {
        NFS3_OK => take_ok(procedure, &mut reader),
        status => Ok(Results::Refused(status)),
    }
}

/// The name of how stable written bytes are (`stable_how`, RFC 1813 section 3.3.7).
fn stable_name(committed: u32) -> Option<&'static str>
    ensures { option_map (λ name. name.now) result ≡ slice_get stable_hows committed }
{
    match committed {
        0 => Some("UNSTABLE"),
        1 => Some("DATA_SYNC"),
        2 => Some("FILE_SYNC"),
        _ => None,
    }
}

/// Writes a status that is a refusal.
fn write_refusal<W: fmt::Write>(status: u32, f: &mut fmt::Formatter<W>) -> fmt::Result {
    match status_of(status) {
        Some(known) => f.write_str(status_name(known)),
        None => write!(f, "status {status}, which has no name here"),
    }
}

/// Writes the names of rights (RFC 1813 section 3.3.4).
fn write_rights<W: fmt::Write>(rights: u32, f: &mut fmt::Formatter<W>) -> fmt::Result {
    f.write_str("OK rights")?;
    for (bit, name) in [
        (1, " READ"),
        (2, " LOOKUP"),
        (4, " MODIFY"),
        (8, " EXTEND"),
        (16, " DELETE"),
        (32, " EXECUTE"),
    ] {
        if rights & bit != 0 {
            f.write_str(name)?;
        }
    }
    if rights == 0 {
        f.write_str(" none")
    } else {
        Ok(())
    }
}

/// Writes the numbers of a file system.
fn write_numbers<W: fmt::Write>(results: Results<'_>, f: &mut fmt::Formatter<W>) -> fmt::Result {
    match results {
        Results::Space {
            bytes,
            free_bytes,
            files,
            free_files,
        } => write!(
            f,
            "OK {bytes} bytes, {free_bytes} of them free, {files} files, {free_files} of them free"
        ),
        Results::Sizes { read, write, file } => write!(
            f,
            "OK READ up to {read} bytes, WRITE up to {write} bytes, files up to {file} bytes"
        ),
        Results::Names { links, name } => write!(f, "OK {links} links, names up to {name} bytes"),
        _ => f.write_str("OK"),
    }
}

impl fmt::Display for Results<'_> {
    fn fmt<W: fmt::Write>(&self, f: &mut fmt::Formatter<W>) -> fmt::Result {
        match *self {
            Results::Refused(status) => write_refusal(status, f),
            Results::Object(object) => write!(f, "OK {object}"),
            Results::Found {
                object: Some(object),
                ..
            } => write!(f, "OK {object}"),
            Results::Found { handle, .. } => write!(f, "OK {}", Handle(handle)),
            Results::Rights(rights) => write_rights(rights, f),
            Results::Text(text) => write!(f, "OK {}", Quoted(text)),
            Results::Data { count, eof: true } => write!(f, "OK {count} bytes, the last"),
            Results::Data { count, .. } => write!(f, "OK {count} bytes, more to come"),
            Results::Written {
                count,
                committed,
                verifier,
            } => write!(
                f,
                "OK {count} bytes {}, verifier {verifier}",
                stable_name(committed).unwrap_or("stable in no known way")
            ),
            Results::Entries { count, eof: true } => write!(f, "OK {count} entries, the last"),
            Results::Entries { count, .. } => write!(f, "OK {count} entries, more to come"),
            Results::Committed(verifier) => write!(f, "OK verifier {verifier}"),
            other => write_numbers(other, f),
        }
    }
}
