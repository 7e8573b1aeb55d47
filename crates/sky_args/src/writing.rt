//! Arguments are written.

ghost use Rattle.std.specs.Prelude.{◌≡◌, ◌^◌, ◌<◌, ◌≤◌, ◌↔◌, Ok, length, take, drop, IsOk, IfOk, OnOk, OnErr};
ghost use Rattle.sky_nfs.specs.Calls.{procedure_of};
ghost use Rattle.sky_xdr.specs.Writing.{Puts};
ghost use Rattle.sky_args.specs.Args.{IsArgs, args_bytes};
ghost use Rattle.sky_args.specs.Reading.{args_at};
ghost use Rattle.sky_args.specs.Sizes.{FitsTypes};

use crate::changes::{
    put_create, put_link, put_mkdir, put_mknod, put_rename, put_set_attr_call, put_symlink,
    put_write,
};
use crate::handles::{put_dir_op_args, put_handle};
use crate::length::args_length;
use crate::queries::{put_access, put_range, put_read_dir, put_read_dir_plus};
use sky_nfs::Call;
use sky_xdr::{NoRoom, Writer};

/// Writes the arguments of a call behind what was written before (RFC 1813, section 3.3), with zeros as the padding: for
/// what has arguments as a part of it. The condition is that these are fewer than 2^32 bytes.
///
/// `NoRoom` where all of that does not fit into what is left of the buffer; a part of it may then have been written.
pub fn put_args(writer: &mut Writer<'_>, call: &Call) -> Result<(), NoRoom>
    requires { length (args_bytes call.now) < 2 ^ 32 }
    ensures puts { Puts result (args_bytes call.now) writer.old writer.new }
    ensures fits { OnOk result (FitsTypes call.now) }
{
    match call {
        Call::Null => Ok(()),
        Call::GetAttr { object } => put_handle(writer, object),
        Call::SetAttr {
            object,
            attributes,
            guard,
        } => put_set_attr_call(writer, object, *attributes, *guard),
        Call::Lookup { at } => put_dir_op_args(writer, at),
        Call::Access { object, rights } => put_access(writer, object, *rights),
        Call::ReadLink { link } => put_handle(writer, link),
        Call::Read {
            file,
            offset,
            count,
        } => put_range(writer, file, *offset, *count),
        Call::Write {
            file,
            offset,
            count,
            stable,
            data,
        } => put_write(writer, file, *offset, *count, *stable, data),
        Call::Create { at, how } => put_create(writer, at, *how),
        Call::Mkdir { at, attributes } => put_mkdir(writer, at, *attributes),
        Call::Symlink {
            at,
            attributes,
            text,
        } => put_symlink(writer, at, *attributes, text),
        Call::Mknod { at, what } => put_mknod(writer, at, *what),
        Call::Remove { at } => put_dir_op_args(writer, at),
        Call::Rmdir { at } => put_dir_op_args(writer, at),
        Call::Rename { from, to } => put_rename(writer, from, to),
        Call::Link { file, at } => put_link(writer, file, at),
        Call::ReadDir {
            directory,
            cookie,
            verifier,
            count,
        } => put_read_dir(writer, directory, *cookie, *verifier, *count),
        Call::ReadDirPlus {
            directory,
            cookie,
            verifier,
            dircount,
            maxcount,
        } => put_read_dir_plus(writer, directory, *cookie, *verifier, *dircount, *maxcount),
        Call::FsStat { root } => put_handle(writer, root),
        Call::FsInfo { root } => put_handle(writer, root),
        Call::PathConf { object } => put_handle(writer, object),
        Call::Commit {
            file,
            offset,
            count,
        } => put_range(writer, file, *offset, *count),
    }
}

/// Writes the arguments of a call at the prefix of a buffer (RFC 1813, section 3.3), with zeros as
/// the padding, and says how many bytes they are. The condition is that these are fewer than 2^32.
///
/// `NoRoom` where the buffer is shorter than that; nothing is written then.
pub fn write_args(buf: &mut [u8], call: &Call) -> Result<usize, NoRoom>
    requires { length (args_bytes call.now) < 2 ^ 32 }
    ensures fits { IsOk result ↔ (length (args_bytes call.now) ≤ length buf.old) }
    ensures count { IfOk result (λ n. n ≡ length (args_bytes call.now)) }
    ensures written { IfOk result (λ n. take n buf.new ≡ args_bytes call.now) }
    ensures behind { IfOk result (λ n. drop n buf.new ≡ drop n buf.old) }
    ensures err { OnErr result (buf.new ≡ buf.old) }
    // What was written is of the grammar, and is read as the call.
    ensures found { OnOk result (IsArgs (args_bytes call.now) call.now) }
    ensures read_again { OnOk result (args_at (procedure_of call.now) (args_bytes call.now) ≡ Ok call.now) }
{
    if buf.len() < args_length(call) {
        return Err(NoRoom);
    }
    let mut writer = Writer::over(buf);
    put_args(&mut writer, call)?;
    Ok(writer.written())
}
