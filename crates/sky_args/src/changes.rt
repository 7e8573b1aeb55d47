//! The arguments of the calls that change the tree, and of MKNOD, read and written.
#![tactic(auto, unfolding(crate::specs::Reading::set_attr_call_at, crate::specs::Reading::write_at, crate::specs::Reading::create_at, crate::specs::Reading::mkdir_at, crate::specs::Reading::symlink_at, crate::specs::Reading::mknod_at, crate::specs::Reading::remove_at, crate::specs::Reading::rmdir_at, crate::specs::Reading::rename_at, crate::specs::Reading::link_at, sky_xdr::specs::Reading::bind, sky_xdr::specs::GrammarReading::give))]

ghost use Rattle.std.specs.Prelude.{◌≡◌, ◌^◌, ◌<◌, ◌≤◌, ◌++◌, length, IfSome, OnOk};
ghost use Rattle.sky_xdr.specs.Encoding.{uint, uhyper, opaque};
ghost use Rattle.sky_xdr.specs.GrammarReading.{Reads};
ghost use Rattle.sky_xdr.specs.Writing.{Puts};
ghost use Rattle.sky_args.specs.Parts.{dir_op_args_bytes, set_attr_bytes, guard_bytes, stable_how_bytes, create_how_bytes, mknod_bytes};
ghost use Rattle.sky_args.specs.Reading.{ReadsOrNoMemory, set_attr_call_at, write_at, create_at, mkdir_at, symlink_at, mknod_at, remove_at, rmdir_at, rename_at, link_at};
ghost use Rattle.sky_args.specs.Sizes.{FitsHandle, FitsUint, FitsUhyper, FitsText, FitsDirOpArgs, FitsMoment, FitsSetAttr, FitsCreateHow, FitsMknodData};

use crate::attributes::{put_guard, put_set_attr, take_guard, take_set_attr};
use crate::fault::ArgFault;
use crate::handles::{
    put_dir_op_args, put_handle, put_text, take_dir_op_args, take_handle, take_text,
};
use crate::how::{
    put_create_how, put_mknod_data, put_stable_how, take_create_how, take_mknod_data,
    take_stable_how,
};
use crate::queries::put_range;
use sky_base::Moment;
use sky_nfs::{Bytes, Call, CreateHow, DirOpArgs, MknodData, RawHandle, SetAttr, StableHow};
use sky_xdr::{NoRoom, Reader, Writer, XdrFault};
use std::alloc::Global;

/// Takes the arguments of SETATTR.
pub fn take_set_attr_call(reader: &mut Reader<'_>) -> Result<Call, XdrFault>
    ensures exact { Reads result reader.new (set_attr_call_at reader.old) }
{
    let object = take_handle(reader)?;
    let attributes = take_set_attr(reader)?;
    let guard = take_guard(reader)?;
    Ok(Call::SetAttr {
        object,
        attributes,
        guard,
    })
}

/// Takes the arguments of WRITE.
pub fn take_write(alloc: Global, reader: &mut Reader<'_>) -> Result<Call, ArgFault>
    ensures exact { ReadsOrNoMemory result reader.new (write_at reader.old) }
{
    let file = take_handle(reader)?;
    let offset = reader.take_u64()?;
    let count = reader.take_u32()?;
    let stable = take_stable_how(reader)?;
    let data = take_text(alloc, reader)?;
    Ok(Call::Write {
        file,
        offset,
        count,
        stable,
        data,
    })
}

/// Takes the arguments of CREATE.
pub fn take_create(alloc: Global, reader: &mut Reader<'_>) -> Result<Call, ArgFault>
    ensures exact { ReadsOrNoMemory result reader.new (create_at reader.old) }
{
    let at = take_dir_op_args(alloc, reader)?;
    let how = take_create_how(reader)?;
    Ok(Call::Create { at, how })
}

/// Takes the arguments of MKDIR.
pub fn take_mkdir(alloc: Global, reader: &mut Reader<'_>) -> Result<Call, ArgFault>
    ensures exact { ReadsOrNoMemory result reader.new (mkdir_at reader.old) }
{
    let at = take_dir_op_args(alloc, reader)?;
    let attributes = take_set_attr(reader)?;
    Ok(Call::Mkdir { at, attributes })
}

/// Takes the arguments of SYMLINK.
pub fn take_symlink(alloc: Global, reader: &mut Reader<'_>) -> Result<Call, ArgFault>
    ensures exact { ReadsOrNoMemory result reader.new (symlink_at reader.old) }
{
    let at = take_dir_op_args(alloc, reader)?;
    let attributes = take_set_attr(reader)?;
    let text = take_text(alloc, reader)?;
    Ok(Call::Symlink {
        at,
        attributes,
        text,
    })
}

/// Takes the arguments of MKNOD.
pub fn take_mknod(alloc: Global, reader: &mut Reader<'_>) -> Result<Call, ArgFault>
    ensures exact { ReadsOrNoMemory result reader.new (mknod_at reader.old) }
{
    let at = take_dir_op_args(alloc, reader)?;
    let what = take_mknod_data(reader)?;
    Ok(Call::Mknod { at, what })
}

/// Takes the arguments of REMOVE.
pub fn take_remove(alloc: Global, reader: &mut Reader<'_>) -> Result<Call, ArgFault>
    ensures exact { ReadsOrNoMemory result reader.new (remove_at reader.old) }
{
    let at = take_dir_op_args(alloc, reader)?;
    Ok(Call::Remove { at })
}

/// Takes the arguments of RMDIR.
pub fn take_rmdir(alloc: Global, reader: &mut Reader<'_>) -> Result<Call, ArgFault>
    ensures exact { ReadsOrNoMemory result reader.new (rmdir_at reader.old) }
{
    let at = take_dir_op_args(alloc, reader)?;
    Ok(Call::Rmdir { at })
}

/// Takes the arguments of RENAME.
pub fn take_rename(alloc: Global, reader: &mut Reader<'_>) -> Result<Call, ArgFault>
    ensures exact { ReadsOrNoMemory result reader.new (rename_at reader.old) }
{
    let from = take_dir_op_args(alloc, reader)?;
    let to = take_dir_op_args(alloc, reader)?;
    Ok(Call::Rename { from, to })
}

/// Takes the arguments of LINK.
pub fn take_link(alloc: Global, reader: &mut Reader<'_>) -> Result<Call, ArgFault>
    ensures exact { ReadsOrNoMemory result reader.new (link_at reader.old) }
{
    let file = take_handle(reader)?;
    let at = take_dir_op_args(alloc, reader)?;
    Ok(Call::Link { file, at })
}

/// Writes the arguments of SETATTR.
pub fn put_set_attr_call(
    writer: &mut Writer<'_>,
    object: &RawHandle,
    attributes: SetAttr,
    guard: Option<Moment>,
) -> Result<(), NoRoom>
    ensures puts { Puts result (opaque object.now ++ set_attr_bytes attributes ++ guard_bytes guard)
        writer.old writer.new }
    ensures fits { OnOk result (FitsHandle object.now × FitsSetAttr attributes × IfSome guard FitsMoment) }
{
    put_handle(writer, object)?;
    put_set_attr(writer, attributes)?;
    put_guard(writer, guard)
}

/// Writes the arguments of WRITE.
pub fn put_write(
    writer: &mut Writer<'_>,
    file: &RawHandle,
    offset: u64,
    count: u32,
    stable: StableHow,
    data: &Bytes,
) -> Result<(), NoRoom>
    requires { length (opaque «data».now) < 2 ^ 32 }
    ensures puts { Puts result (opaque file.now ++ uhyper offset ++ uint count ++ stable_how_bytes stable ++ opaque «data».now)
        writer.old writer.new }
    ensures fits { OnOk result (FitsHandle file.now × FitsUhyper offset × FitsUint count
        × FitsText «data».now) }
{
    put_range(writer, file, offset, count)?;
    put_stable_how(writer, stable)?;
    put_text(writer, data)
}

/// Writes the arguments of CREATE.
pub fn put_create(writer: &mut Writer<'_>, at: &DirOpArgs, how: CreateHow) -> Result<(), NoRoom>
    requires { length (dir_op_args_bytes at.now) < 2 ^ 32 }
    ensures puts { Puts result (dir_op_args_bytes at.now ++ create_how_bytes how) writer.old writer.new }
    ensures fits { OnOk result (FitsDirOpArgs at.now × FitsCreateHow how) }
{
    put_dir_op_args(writer, at)?;
    put_create_how(writer, how)
}

/// Writes the arguments of MKDIR.
pub fn put_mkdir(writer: &mut Writer<'_>, at: &DirOpArgs, attributes: SetAttr) -> Result<(), NoRoom>
    requires { length (dir_op_args_bytes at.now) < 2 ^ 32 }
    ensures puts { Puts result (dir_op_args_bytes at.now ++ set_attr_bytes attributes) writer.old writer.new }
    ensures fits { OnOk result (FitsDirOpArgs at.now × FitsSetAttr attributes) }
{
    put_dir_op_args(writer, at)?;
    put_set_attr(writer, attributes)
}

/// Writes the arguments of SYMLINK.
pub fn put_symlink(
    writer: &mut Writer<'_>,
    at: &DirOpArgs,
    attributes: SetAttr,
    text: &Bytes,
) -> Result<(), NoRoom>
    requires { length (dir_op_args_bytes at.now ++ set_attr_bytes attributes ++ opaque text.now) < 2 ^ 32 }
    ensures puts { Puts result (dir_op_args_bytes at.now ++ set_attr_bytes attributes ++ opaque text.now)
        writer.old writer.new }
    ensures fits { OnOk result (FitsDirOpArgs at.now × FitsSetAttr attributes × FitsText text.now) }
{
    put_mkdir(writer, at, attributes)?;
    put_text(writer, text)
}

/// Writes the arguments of MKNOD.
pub fn put_mknod(writer: &mut Writer<'_>, at: &DirOpArgs, what: MknodData) -> Result<(), NoRoom>
    requires { length (dir_op_args_bytes at.now) < 2 ^ 32 }
    ensures puts { Puts result (dir_op_args_bytes at.now ++ mknod_bytes what) writer.old writer.new }
    ensures fits { OnOk result (FitsDirOpArgs at.now × FitsMknodData what) }
{
    put_dir_op_args(writer, at)?;
    put_mknod_data(writer, what)
}

/// Writes the arguments of RENAME.
pub fn put_rename(writer: &mut Writer<'_>, from: &DirOpArgs, to: &DirOpArgs) -> Result<(), NoRoom>
    requires { length (dir_op_args_bytes from.now ++ dir_op_args_bytes to.now) < 2 ^ 32 }
    ensures puts { Puts result (dir_op_args_bytes from.now ++ dir_op_args_bytes to.now) writer.old writer.new }
    ensures fits { OnOk result (FitsDirOpArgs from.now × FitsDirOpArgs to.now) }
{
    put_dir_op_args(writer, from)?;
    put_dir_op_args(writer, to)
}

/// Writes the arguments of LINK.
pub fn put_link(writer: &mut Writer<'_>, file: &RawHandle, at: &DirOpArgs) -> Result<(), NoRoom>
    requires { length (dir_op_args_bytes at.now) < 2 ^ 32 }
    ensures puts { Puts result (opaque file.now ++ dir_op_args_bytes at.now) writer.old writer.new }
    ensures fits { OnOk result (FitsHandle file.now × FitsDirOpArgs at.now) }
{
    put_handle(writer, file)?;
    put_dir_op_args(writer, at)
}
