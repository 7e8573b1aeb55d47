//! Handles, names, texts, data and verifiers, read and written.

ghost use Rattle.std.specs.Prelude.{◌≡◌, ◌^◌, ◌<◌, ◌≤◌, length};
ghost use Rattle.sky_xdr.specs.Encoding.{fixed, opaque};
ghost use Rattle.sky_xdr.specs.Writing.{Puts};
ghost use Rattle.sky_xdr.specs.GrammarReading.{Reads};
ghost use Rattle.sky_args.specs.Parts.{dir_op_args_bytes};
ghost use Rattle.sky_args.specs.Reading.{ReadsOrNoMemory, handle_at, text_at, verifier_at, dir_op_args_at};
ghost use Rattle.sky_args.specs.Sizes.{FitsHandle, FitsText, FitsVerifier, FitsDirOpArgs};

use crate::fault::ArgFault;
use sky_nfs::{Bytes, DirOpArgs, RawHandle};
use sky_xdr::{NoRoom, Reader, Writer, XdrFault};
use std::alloc::Global;

/// The most bytes that a file handle has (`NFS3_FHSIZE`, RFC 1813 section 2.4).
const MAX_HANDLE: u32 = RawHandle::MAX as u32;

/// The bytes of a verifier (`NFS3_CREATEVERFSIZE`, `NFS3_COOKIEVERFSIZE`, RFC 1813 section 2.4).
const VERIFIER_SIZE: u32 = 8;

/// Takes a file handle (`nfs_fh3`).
#[tactic(auto, unfolding(crate::specs::Reading::handle_at))]
pub fn take_handle(reader: &mut Reader<'_>) -> Result<RawHandle, XdrFault>
    ensures exact { Reads result reader.new (handle_at reader.old) }
{
    let bytes = reader.take_opaque(MAX_HANDLE)?;
    Ok(RawHandle::new(bytes))
}

/// Takes a name, a text or data, of any length that is there, and copies it.
#[tactic(auto, unfolding(crate::specs::Reading::text_at))]
pub fn take_text(alloc: Global, reader: &mut Reader<'_>) -> Result<Bytes, ArgFault>
    ensures exact { ReadsOrNoMemory result reader.new (text_at reader.old) }
{
    let bytes = reader.take_opaque(u32::MAX)?;
    Ok(Bytes::new(Vec::from_slice(alloc, bytes)?))
}

/// Takes a verifier (`createverf3`, `cookieverf3`).
#[tactic(auto, unfolding(crate::specs::Reading::verifier_at))]
pub fn take_verifier(reader: &mut Reader<'_>) -> Result<[u8; 8], XdrFault>
    ensures exact { Reads result reader.new (verifier_at reader.old) }
{
    let bytes = reader.take_fixed(VERIFIER_SIZE)?;
    let mut verifier = [0; 8];
    verifier.copy_from_slice(bytes);
    Ok(verifier)
}

/// Takes a name in a directory (`diropargs3`).
#[tactic(auto, unfolding(crate::specs::Reading::dir_op_args_at, sky_xdr::specs::Reading::bind, sky_xdr::specs::GrammarReading::give))]
pub fn take_dir_op_args(alloc: Global, reader: &mut Reader<'_>) -> Result<DirOpArgs, ArgFault>
    ensures exact { ReadsOrNoMemory result reader.new (dir_op_args_at reader.old) }
{
    let directory = take_handle(reader)?;
    let name = take_text(alloc, reader)?;
    Ok(DirOpArgs { directory, name })
}

/// Writes a file handle.
pub fn put_handle(writer: &mut Writer<'_>, handle: &RawHandle) -> Result<(), NoRoom>
    ensures puts { Puts result (opaque handle.now) writer.old writer.new }
    ensures fits { FitsHandle handle.now }
{
    writer.put_opaque(handle.as_bytes())
}

/// Writes a name, a text or data.
pub fn put_text(writer: &mut Writer<'_>, text: &Bytes) -> Result<(), NoRoom>
    requires { length (opaque text.now) < 2 ^ 32 }
    ensures puts { Puts result (opaque text.now) writer.old writer.new }
    ensures fits { FitsText text.now }
{
    writer.put_opaque(text.as_slice())
}

/// Writes a verifier.
pub fn put_verifier(writer: &mut Writer<'_>, verifier: [u8; 8]) -> Result<(), NoRoom>
    ensures puts { Puts result (fixed verifier) writer.old writer.new }
    ensures fits { FitsVerifier verifier }
{
    writer.put_fixed(&verifier)
}

/// Writes a name in a directory.
#[tactic(auto, unfolding(crate::specs::Parts::dir_op_args_bytes))]
pub fn put_dir_op_args(writer: &mut Writer<'_>, at: &DirOpArgs) -> Result<(), NoRoom>
    requires { length (dir_op_args_bytes at.now) < 2 ^ 32 }
    ensures puts { Puts result (dir_op_args_bytes at.now) writer.old writer.new }
    ensures fits { FitsDirOpArgs at.now }
{
    put_handle(writer, &at.directory)?;
    put_text(writer, &at.name)
}
