//! The arguments of the calls that leave the tree as it is, read and written.
#![tactic(auto, unfolding(crate::specs::Reading::get_attr_at, crate::specs::Reading::lookup_at, crate::specs::Reading::access_at, crate::specs::Reading::read_link_at, crate::specs::Reading::read_at, crate::specs::Reading::read_dir_at, crate::specs::Reading::read_dir_plus_at, crate::specs::Reading::fs_stat_at, crate::specs::Reading::fs_info_at, crate::specs::Reading::path_conf_at, crate::specs::Reading::commit_at, sky_xdr::specs::Reading::bind, sky_xdr::specs::GrammarReading::give))]

ghost use Rattle.std.specs.Prelude.{◌≡◌, ◌<◌, ◌++◌, length};
ghost use Rattle.sky_xdr.specs.Encoding.{uint, uhyper, fixed, opaque};
ghost use Rattle.sky_xdr.specs.GrammarReading.{Reads};
ghost use Rattle.sky_xdr.specs.Writing.{Puts};
ghost use Rattle.sky_args.specs.Reading.{ReadsOrNoMemory, get_attr_at, lookup_at, access_at, read_link_at, read_at, read_dir_at, read_dir_plus_at, fs_stat_at, fs_info_at, path_conf_at, commit_at};
ghost use Rattle.sky_args.specs.Sizes.{FitsHandle, FitsUint, FitsUhyper, FitsVerifier};

use crate::fault::ArgFault;
use crate::handles::{put_handle, put_verifier, take_dir_op_args, take_handle, take_verifier};
use sky_nfs::{Call, RawHandle};
use sky_xdr::{NoRoom, Reader, Writer, XdrFault};
use std::alloc::Global;

/// Takes the arguments of GETATTR.
pub fn take_get_attr(reader: &mut Reader<'_>) -> Result<Call, XdrFault>
    ensures exact { Reads result reader.new (get_attr_at reader.old) }
{
    let object = take_handle(reader)?;
    Ok(Call::GetAttr { object })
}

/// Takes the arguments of LOOKUP.
pub fn take_lookup(alloc: Global, reader: &mut Reader<'_>) -> Result<Call, ArgFault>
    ensures exact { ReadsOrNoMemory result reader.new (lookup_at reader.old) }
{
    let at = take_dir_op_args(alloc, reader)?;
    Ok(Call::Lookup { at })
}

/// Takes the arguments of ACCESS.
pub fn take_access(reader: &mut Reader<'_>) -> Result<Call, XdrFault>
    ensures exact { Reads result reader.new (access_at reader.old) }
{
    let object = take_handle(reader)?;
    let rights = reader.take_u32()?;
    Ok(Call::Access { object, rights })
}

/// Takes the arguments of READLINK.
pub fn take_read_link(reader: &mut Reader<'_>) -> Result<Call, XdrFault>
    ensures exact { Reads result reader.new (read_link_at reader.old) }
{
    let link = take_handle(reader)?;
    Ok(Call::ReadLink { link })
}

/// Takes the arguments of READ.
pub fn take_read(reader: &mut Reader<'_>) -> Result<Call, XdrFault>
    ensures exact { Reads result reader.new (read_at reader.old) }
{
    let file = take_handle(reader)?;
    let offset = reader.take_u64()?;
    let count = reader.take_u32()?;
    Ok(Call::Read {
        file,
        offset,
        count,
    })
}

/// Takes the arguments of READDIR.
pub fn take_read_dir(reader: &mut Reader<'_>) -> Result<Call, XdrFault>
    ensures exact { Reads result reader.new (read_dir_at reader.old) }
{
    let directory = take_handle(reader)?;
    let cookie = reader.take_u64()?;
    let verifier = take_verifier(reader)?;
    let count = reader.take_u32()?;
    Ok(Call::ReadDir {
        directory,
        cookie,
        verifier,
        count,
    })
}

/// Takes the arguments of READDIRPLUS.
pub fn take_read_dir_plus(reader: &mut Reader<'_>) -> Result<Call, XdrFault>
    ensures exact { Reads result reader.new (read_dir_plus_at reader.old) }
{
    let directory = take_handle(reader)?;
    let cookie = reader.take_u64()?;
    let verifier = take_verifier(reader)?;
    let dircount = reader.take_u32()?;
    let maxcount = reader.take_u32()?;
    Ok(Call::ReadDirPlus {
        directory,
        cookie,
        verifier,
        dircount,
        maxcount,
    })
}

/// Takes the arguments of FSSTAT.
pub fn take_fs_stat(reader: &mut Reader<'_>) -> Result<Call, XdrFault>
    ensures exact { Reads result reader.new (fs_stat_at reader.old) }
{
    let root = take_handle(reader)?;
    Ok(Call::FsStat { root })
}

/// Takes the arguments of FSINFO.
pub fn take_fs_info(reader: &mut Reader<'_>) -> Result<Call, XdrFault>
    ensures exact { Reads result reader.new (fs_info_at reader.old) }
{
    let root = take_handle(reader)?;
    Ok(Call::FsInfo { root })
}

/// Takes the arguments of PATHCONF.
pub fn take_path_conf(reader: &mut Reader<'_>) -> Result<Call, XdrFault>
    ensures exact { Reads result reader.new (path_conf_at reader.old) }
{
    let object = take_handle(reader)?;
    Ok(Call::PathConf { object })
}

/// Takes the arguments of COMMIT.
pub fn take_commit(reader: &mut Reader<'_>) -> Result<Call, XdrFault>
    ensures exact { Reads result reader.new (commit_at reader.old) }
{
    let file = take_handle(reader)?;
    let offset = reader.take_u64()?;
    let count = reader.take_u32()?;
    Ok(Call::Commit {
        file,
        offset,
        count,
    })
}

/// Writes the arguments of ACCESS.
pub fn put_access(writer: &mut Writer<'_>, object: &RawHandle, rights: u32) -> Result<(), NoRoom>
    ensures puts { Puts result (opaque object.now ++ uint rights) writer.old writer.new }
    ensures fits { FitsHandle object.now × FitsUint rights }
{
    put_handle(writer, object)?;
    writer.put_u32(rights)
}

/// Writes the arguments of READ or COMMIT: a range of a file.
pub fn put_range(
    writer: &mut Writer<'_>,
    file: &RawHandle,
    offset: u64,
    count: u32,
) -> Result<(), NoRoom>
    ensures puts { Puts result (opaque file.now ++ uhyper offset ++ uint count) writer.old writer.new }
    ensures fits { FitsHandle file.now × FitsUhyper offset × FitsUint count }
{
    put_handle(writer, file)?;
    writer.put_u64(offset)?;
    writer.put_u32(count)
}

/// Writes where a listing goes on: what the arguments of READDIR and READDIRPLUS begin with.
fn put_listing(
    writer: &mut Writer<'_>,
    directory: &RawHandle,
    cookie: u64,
    verifier: [u8; 8],
) -> Result<(), NoRoom>
    ensures puts { Puts result (opaque directory.now ++ uhyper cookie ++ fixed verifier) writer.old writer.new }
    ensures fits { FitsHandle directory.now × FitsUhyper cookie × FitsVerifier verifier }
{
    put_handle(writer, directory)?;
    writer.put_u64(cookie)?;
    put_verifier(writer, verifier)
}

/// Writes the arguments of READDIR.
pub fn put_read_dir(
    writer: &mut Writer<'_>,
    directory: &RawHandle,
    cookie: u64,
    verifier: [u8; 8],
    count: u32,
) -> Result<(), NoRoom>
    ensures puts { Puts result (opaque directory.now ++ uhyper cookie ++ fixed verifier ++ uint count)
        writer.old writer.new }
    ensures fits { FitsHandle directory.now × FitsUhyper cookie × FitsVerifier verifier × FitsUint count }
{
    put_listing(writer, directory, cookie, verifier)?;
    writer.put_u32(count)
}

/// Writes the arguments of READDIRPLUS.
pub fn put_read_dir_plus(
    writer: &mut Writer<'_>,
    directory: &RawHandle,
    cookie: u64,
    verifier: [u8; 8],
    dircount: u32,
    maxcount: u32,
) -> Result<(), NoRoom>
    ensures puts { Puts result (opaque directory.now ++ uhyper cookie ++ fixed verifier ++ uint dircount ++ uint maxcount)
        writer.old writer.new }
    ensures fits { FitsHandle directory.now × FitsUhyper cookie × FitsVerifier verifier
        × FitsUint dircount × FitsUint maxcount }
{
    put_listing(writer, directory, cookie, verifier)?;
    writer.put_u32(dircount)?;
    writer.put_u32(maxcount)
}
