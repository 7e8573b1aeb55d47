//! Reading entries.

ghost use Rattle.std.specs.Prelude.{◌≡◌, ℕ, ◌^◌, ◌<◌, ◌≤◌, ◌++◌, List, Some, length, take, IfOk, IsErrOf, IsTrue};
ghost use Rattle.std.specs.Str.{bytes_eq};
ghost use Rattle.sky_nfs.specs.Calls.{is_change};
ghost use Rattle.sky_nfs.specs.declared.call.Change.{Change};
ghost use Rattle.sky_xdr.specs.GrammarReading.{Reads};
ghost use Rattle.sky_args.specs.Args.{args_bytes};
ghost use Rattle.sky_entry.specs.Entry.{body_bytes, entry_bytes, IsEntry, BeginsWithEntry};
ghost use Rattle.sky_entry.specs.Reading.{caller_at, head_at, change_behind, body_at, entry_at, GivesOrNoMemory};

use crate::fault::EntryFault;
use crate::writing::write_body;
use sky_args::{read_args, take_moment};
use sky_base::{Cred, Moment};
use sky_nfs::Change;
use sky_rpc::take_gids;
use sky_xdr::{NoRoom, Reader, XdrFault};
use std::alloc::{AllocError, Global};

/// What stands in an entry between its length and its arguments.
#[derive(Drop)]
pub struct Head {
    pub moment: Moment,
    pub cred: Cred,
    pub procedure: u32,
}

/// Takes who made a change.
#[tactic(auto, unfolding(crate::specs::Reading::caller_at, sky_xdr::specs::Reading::bind, sky_xdr::specs::GrammarReading::give))]
fn take_caller(reader: &mut Reader<'_>) -> Result<Cred, XdrFault>
    ensures exact { Reads result reader.new (caller_at reader.old) }
{
    let uid = reader.take_u32()?;
    let gid = reader.take_u32()?;
    let gids = take_gids(reader)?;
    Ok(Cred { uid, gid, gids })
}

/// Takes what stands before the arguments.
#[tactic(auto, unfolding(crate::specs::Reading::head_at, sky_xdr::specs::Reading::bind, sky_xdr::specs::GrammarReading::give))]
fn take_head(reader: &mut Reader<'_>) -> Result<Head, XdrFault>
    ensures exact { Reads result reader.new (head_at reader.old) }
{
    let moment = take_moment(reader)?;
    let cred = take_caller(reader)?;
    let procedure = reader.take_u32()?;
    Ok(Head {
        moment,
        cred,
        procedure,
    })
}

/// The change that these bytes say, whatever its padding is.
fn read_change(alloc: Global, body: &[u8]) -> Result<Change, EntryFault>
    ensures exact { GivesOrNoMemory result (change_behind (head_at body.now)) }
    ensures within { IfOk result (λ c. length (args_bytes c.call) ≤ length body.now) }
{
    let mut reader = Reader::over(body);
    let head = take_head(&mut reader)?;
    let call = read_args(alloc, head.procedure, reader.rest())?;
    Ok(Change {
        cred: head.cred,
        moment: head.moment,
        call,
    })
}

/// Whether a change is written as these bytes.
fn is_written_as(alloc: Global, change: &Change, body: &[u8]) -> Result<bool, AllocError>
    requires { length (args_bytes change.now.call) < 2 ^ 32 }
    ensures { IfOk result (λ same. same ≡ bytes_eq (body_bytes change.now) body.now) }
{
    let mut written = vec![in alloc; 0; body.len()]?;
    match write_body(&mut written, change) {
        Ok(count) => Ok(&written[..count] == body),
        Err(NoRoom) => Ok(false),
    }
}

/// The change that has these bytes as what follows the length of its entry.
#[tactic(auto, unfolding(crate::specs::Reading::body_at))]
fn read_body(alloc: Global, body: &[u8]) -> Result<Change, EntryFault>
    requires { length body.now < 2 ^ 32 }
    ensures { GivesOrNoMemory result (body_at body.now) }
{
    let change = read_change(alloc, body)?;
    if !change.call.changes() {
        return Err(EntryFault::Bad);
    }
    if !is_written_as(alloc, &change, body)? {
        return Err(EntryFault::Bad);
    }
    Ok(change)
}

/// The change with whose entry the bytes begin, and how many bytes that entry has.
#[tactic(auto, unfolding(crate::specs::Reading::entry_at))]
fn read_first(alloc: Global, bytes: &[u8]) -> Result<(Change, usize), EntryFault>
    ensures { GivesOrNoMemory result (entry_at bytes.now) }
{
    let mut reader = Reader::over(bytes);
    let size = reader.take_u32()? as usize;
    let body = reader.rest().get(..size).ok_or(EntryFault::Bad)?;
    let change = read_body(alloc, body)?;
    Ok((change, 4 + size))
}

/// The change with whose entry the bytes begin, and how many bytes that entry has. What stands behind it is not looked at.
///
/// `Bad` where the bytes do not begin with an entry: they end before it does; it has more than 16 further groups; its
/// procedure is none of those that change the tree; or the rest of it is not the procedure's arguments, with zeros as the
/// padding. `Memory` where there is no memory for the change, or for its bytes once more, which are compared with those
/// that were read.
pub fn read_entry(alloc: Global, bytes: &[u8]) -> Result<(Change, usize), EntryFault>
    ensures found { IfOk result (λ x. IsEntry (take x.1 bytes.now) x.0) }
    ensures count { IfOk result (λ x. x.1 ≡ length (entry_bytes x.0)) }
    ensures within { IfOk result (λ x. x.1 ≤ length bytes.now) }
    ensures changes { IfOk result (λ x. IsTrue (is_change x.0.call)) }
    // The change with whose entry they begin is given, unless there was no memory.
    ensures given { (change : Change) (rest : List ℕ) → BeginsWithEntry bytes.now change rest
        → GivesOrNoMemory result (Some (change, length (entry_bytes change))) }
    ensures bad { IsErrOf result EntryFault.Bad
        → (change : Change) (rest : List ℕ) → ¬ BeginsWithEntry bytes.now change rest }
    // All of that in one computing definition.
    ensures exact { GivesOrNoMemory result (entry_at bytes.now) }
{
    read_first(alloc, bytes)
}
