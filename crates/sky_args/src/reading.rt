//! Arguments are read.

ghost use Rattle.std.specs.Prelude.{◌≡◌, ℕ, ◌<◌, ◌≤◌, ◌↔◌, length, slice_get, IfOk, IsErrOf, IsTrue};
ghost use Rattle.sky_nfs.specs.Calls.{procedure_of};
ghost use Rattle.sky_nfs.specs.declared.call.Call.{Call};
ghost use Rattle.sky_args.specs.Args.{IsArgs, args_bytes};
ghost use Rattle.sky_args.specs.Reading.{GivesOrNoMemory, ReadsProcedure, args_at, carries_text, readers};
ghost use Rattle.sky_args.specs.Sizes.{FitsTypes};

use crate::changes::{
    take_create, take_link, take_mkdir, take_mknod, take_remove, take_rename, take_rmdir,
    take_set_attr_call, take_symlink, take_write,
};
use crate::fault::ArgFault;
use crate::queries::{
    take_access, take_commit, take_fs_info, take_fs_stat, take_get_attr, take_lookup,
    take_path_conf, take_read, take_read_dir, take_read_dir_plus, take_read_link,
};
use sky_nfs::Call;
use sky_xdr::Reader;
use std::alloc::Global;

/// Takes the arguments of a procedure.
#[tactic(auto, unfolding(crate::specs::Reading::null_at, sky_xdr::specs::GrammarReading::give))]
fn take_call(alloc: Global, procedure: u32, reader: &mut Reader<'_>) -> Result<Call, ArgFault>
    ensures exact { ReadsProcedure (slice_get readers procedure) result reader.old reader.new }
    ensures memory { IsErrOf result ArgFault.Memory → IsTrue (carries_text procedure) }
{
    match procedure {
        0 => Ok(Call::Null),
        1 => Ok(take_get_attr(reader)?),
        2 => Ok(take_set_attr_call(reader)?),
        3 => take_lookup(alloc, reader),
        4 => Ok(take_access(reader)?),
        5 => Ok(take_read_link(reader)?),
        6 => Ok(take_read(reader)?),
        7 => take_write(alloc, reader),
        8 => take_create(alloc, reader),
        9 => take_mkdir(alloc, reader),
        10 => take_symlink(alloc, reader),
        11 => take_mknod(alloc, reader),
        12 => take_remove(alloc, reader),
        13 => take_rmdir(alloc, reader),
        14 => take_rename(alloc, reader),
        15 => take_link(alloc, reader),
        16 => Ok(take_read_dir(reader)?),
        17 => Ok(take_read_dir_plus(reader)?),
        18 => Ok(take_fs_stat(reader)?),
        19 => Ok(take_fs_info(reader)?),
        20 => Ok(take_path_conf(reader)?),
        21 => Ok(take_commit(reader)?),
        _ => Err(ArgFault::NoSuchProc),
    }
}

/// The call of a procedure that has all of these bytes as its arguments.
fn read_whole(alloc: Global, procedure: u32, bytes: &[u8]) -> Result<Call, ArgFault>
    ensures exact { GivesOrNoMemory result (args_at procedure bytes.now) }
    ensures memory { IsErrOf result ArgFault.Memory → IsTrue (carries_text procedure) }
{
    let mut reader = Reader::over(bytes);
    let call = take_call(alloc, procedure, &mut reader)?;
    reader.end()?;
    Ok(call)
}

/// The call of a procedure that has these bytes as its arguments, by the procedure's number
/// (RFC 1813, section 3.3). All of the bytes belong to it. Names, texts and data have any length
/// that is there; their bytes are copied.
///
/// `NoSuchProc` where the number is above 21. `Garbage` where no call of the procedure has these
/// bytes. `Memory` only for a procedure whose arguments have a name, a text or data: LOOKUP, and
/// those from WRITE to LINK.
pub fn read_args(alloc: Global, procedure: u32, bytes: &[u8]) -> Result<Call, ArgFault>
    ensures called { IfOk result (λ call. procedure_of call ≡ procedure) }
    ensures found { IfOk result (λ call. IsArgs bytes.now call) }
    // It can be written again, in as many bytes.
    ensures fits { IfOk result FitsTypes }
    ensures as_long { IfOk result (λ call. length (args_bytes call) ≡ length bytes.now) }
    // The call that has these bytes is given, unless there was no memory.
    ensures given { (call : Call) → procedure_of call ≡ procedure → IsArgs bytes.now call
        → GivesOrNoMemory result (Ok call) }
    ensures no_such_proc { IsErrOf result ArgFault.NoSuchProc ↔ (21 < procedure) }
    ensures garbage { IsErrOf result ArgFault.Garbage
        → (procedure ≤ 21) × ((call : Call) → procedure_of call ≡ procedure → ¬ IsArgs bytes.now call) }
    ensures memory { IsErrOf result ArgFault.Memory → IsTrue (carries_text procedure) }
    // All of that in one computing definition.
    ensures exact { GivesOrNoMemory result (args_at procedure bytes.now) }
{
    read_whole(alloc, procedure, bytes)
}
