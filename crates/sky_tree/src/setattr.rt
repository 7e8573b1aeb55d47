//! SETATTR, RFC 1813 section 3.3.2.

ghost use Rattle.std.specs.Prelude.{◌≡◌, ◌&&◌, ◌||◌, [], ◌∷◌, IfOk, IsSome, None, OnErr, OnOk, is_some};
ghost use Rattle.std.specs.Result.{result_err};
ghost use Rattle.sky_base.specs.declared.cred.Want.TheVariants.{Write};
ghost use Rattle.sky_nfs.specs.Handles.{fileid_in};
ghost use Rattle.sky_nfs.specs.Procedure.{refusal_of, tree_after};
ghost use Rattle.sky_nfs.specs.Procedures.SetAttr.{guard_differs, is_client_time, is_server_time};
ghost use Rattle.sky_nfs.specs.Results.{results_or, wcc};
ghost use Rattle.sky_nfs.specs.Rules.{first_of, has_bad_time, is_stranger, is_too_big, lacks, lacks_unless_owner, may_not_set_owners};
ghost use Rattle.sky_nfs.specs.Tree.{is_directory, is_link, node_at, the_node};
ghost use Rattle.sky_nfs.specs.declared.call.Call.{Call};
ghost use Rattle.sky_nfs.specs.declared.status.NfsStatus.TheVariants.{Acces, FBig, Inval, IsDir, Perm};
ghost use Rattle.sky_tree.specs.Setting.{object_rules, setting_rules};

use crate::attribute_rules::{has_bad_time, is_too_big, may_not_set_owners};
use crate::results::{post_attributes, pre_attributes, wcc_answer};
use crate::rules::{
    attributes_at, is_stranger, lacks, lacks_unless_owner, node, refuse_if, resolve,
};
use sky_base::{Cred, Moment, NoMemory, Want};
use sky_nfs::{NfsStatus, RawHandle, Refused, SetAttr, SetTime, WccData};
use sky_nodes::Nodes;

/// Whether a guard is given, and isn't the object's ctime.
fn guard_differs(guard: Option<Moment>, ctime: Moment) -> bool
    ensures { result ≡ guard_differs guard ctime }
{
    match guard {
        Some(guard) => !(guard.seconds == ctime.seconds && guard.nanos == ctime.nanos),
        None => false,
    }
}

/// Whether a time is set to one of the caller's.
fn is_client_time(time: SetTime) -> bool
    ensures { result ≡ is_client_time time }
{
    matches!(time, SetTime::Client(_))
}

/// Whether a time is set to the server's.
fn is_server_time(time: SetTime) -> bool
    ensures { result ≡ is_server_time time }
{
    matches!(time, SetTime::Server)
}

/// The object of a SETATTR, whose ctime is the guard's.
fn check_object(nodes: &Nodes, object: &RawHandle, guard: Option<Moment>) -> Result<u64, NfsStatus>
    ensures refused { result_err result ≡ first_of (object_rules nodes.now object.now guard) }
    ensures fileid { IfOk result (λ fileid. fileid ≡ fileid_in object.now) }
    ensures there { IfOk result (λ fileid. IsSome (node_at nodes.now.nodes fileid)) }
{
    let fileid = resolve(nodes, object)?;
    let attr = attributes_at(nodes, fileid);
    refuse_if(guard_differs(guard, attr.ctime), NfsStatus::NotSync)?;
    Ok(fileid)
}

/// The times, the mode and the owners that are set of an object: the first three of the rules.
fn check_owned(nodes: &Nodes, cred: &Cred, fileid: u64, set: &SetAttr) -> Result<(), NfsStatus>
    requires { IsSome (node_at nodes.now.nodes fileid) }
    ensures { result_err result ≡ first_of ((has_bad_time set.now, Inval) ∷ (is_some set.now.mode && is_stranger nodes.now cred.now fileid, Perm) ∷ (may_not_set_owners cred.now (the_node nodes.now fileid).uid (the_node nodes.now fileid).gid set.now, Perm) ∷ []) }
{
    let attr = attributes_at(nodes, fileid);
    refuse_if(has_bad_time(set), NfsStatus::Inval)?;
    let stranger = is_stranger(nodes, cred, fileid);
    refuse_if(set.mode.is_some() && stranger, NfsStatus::Perm)?;
    refuse_if(
        may_not_set_owners(cred, attr.uid, attr.gid, set),
        NfsStatus::Perm,
    )
}

/// The size that is set of an object: the next four.
fn check_sized(nodes: &Nodes, cred: &Cred, fileid: u64, set: &SetAttr) -> Result<(), NfsStatus>
    requires { IsSome (node_at nodes.now.nodes fileid) }
    ensures { result_err result ≡ first_of ((is_some set.now.size && is_directory (the_node nodes.now fileid), IsDir) ∷ (is_some set.now.size && is_link (the_node nodes.now fileid), Inval) ∷ (is_some set.now.size && lacks_unless_owner nodes.now cred.now fileid Write, Acces) ∷ (is_too_big set.now.size, FBig) ∷ []) }
{
    let sized = set.size.is_some();
    refuse_if(
        sized && node(nodes, fileid).is_directory(),
        NfsStatus::IsDir,
    )?;
    refuse_if(sized && node(nodes, fileid).is_link(), NfsStatus::Inval)?;
    refuse_if(
        sized && lacks_unless_owner(nodes, cred, fileid, Want::Write),
        NfsStatus::Acces,
    )?;
    refuse_if(is_too_big(set.size), NfsStatus::FBig)
}

/// Whether a time is set to one of the caller's, by a caller who is neither the owner nor user 0.
fn sets_client_time(nodes: &Nodes, cred: &Cred, fileid: u64, set: &SetAttr) -> bool
    requires { IsSome (node_at nodes.now.nodes fileid) }
    ensures { result ≡ ((is_client_time set.now.atime || is_client_time set.now.mtime) && is_stranger nodes.now cred.now fileid) }
{
    (is_client_time(set.atime) || is_client_time(set.mtime)) && is_stranger(nodes, cred, fileid)
}

/// Whether a time is set to the server's, by one who is neither of the two and may not write either.
fn sets_server_time(nodes: &Nodes, cred: &Cred, fileid: u64, set: &SetAttr) -> bool
    requires { IsSome (node_at nodes.now.nodes fileid) }
    ensures { result ≡ ((is_server_time set.now.atime || is_server_time set.now.mtime) && is_stranger nodes.now cred.now fileid && lacks nodes.now cred.now fileid Write) }
{
    (is_server_time(set.atime) || is_server_time(set.mtime))
        && is_stranger(nodes, cred, fileid)
        && lacks(nodes, cred, fileid, Want::Write)
}

/// Whether the caller may set the times that are set of an object: the last two.
fn check_timed(nodes: &Nodes, cred: &Cred, fileid: u64, set: &SetAttr) -> Result<(), NfsStatus>
    requires { IsSome (node_at nodes.now.nodes fileid) }
    ensures { result_err result ≡ first_of (((is_client_time set.now.atime || is_client_time set.now.mtime) && is_stranger nodes.now cred.now fileid, Perm) ∷ ((is_server_time set.now.atime || is_server_time set.now.mtime) && is_stranger nodes.now cred.now fileid && lacks nodes.now cred.now fileid Write, Acces) ∷ []) }
{
    refuse_if(sets_client_time(nodes, cred, fileid, set), NfsStatus::Perm)?;
    refuse_if(sets_server_time(nodes, cred, fileid, set), NfsStatus::Acces)
}

/// What is set of an object: who may set it, and whether the object can have it.
fn check_setting(nodes: &Nodes, cred: &Cred, fileid: u64, set: &SetAttr) -> Result<(), NfsStatus>
    requires { IsSome (node_at nodes.now.nodes fileid) }
    ensures { result_err result ≡ first_of (setting_rules nodes.now cred.now fileid set.now) }
{
    check_owned(nodes, cred, fileid, set)?;
    check_sized(nodes, cred, fileid, set)?;
    check_timed(nodes, cred, fileid, set)
}

/// The object of which a SETATTR sets attributes, or why it is refused.
pub fn check_setattr(
    nodes: &Nodes,
    cred: &Cred,
    object: &RawHandle,
    set: &SetAttr,
    guard: Option<Moment>,
) -> Result<u64, NfsStatus>
    ensures refused { result_err result ≡ refusal_of nodes.now cred.now (Call.SetAttr object.now set.now guard) }
    ensures fileid { IfOk result (λ fileid. fileid ≡ fileid_in object.now) }
    ensures there { IfOk result (λ fileid. IsSome (node_at nodes.now.nodes fileid)) }
{
    let fileid = check_object(nodes, object, guard)?;
    check_setting(nodes, cred, fileid, set)?;
    Ok(fileid)
}

/// Does a SETATTR, or says why it is refused.
fn do_setattr(
    nodes: &mut Nodes,
    cred: &Cred,
    object: &RawHandle,
    set: &SetAttr,
    guard: Option<Moment>,
    now: Moment,
) -> Result<Result<(), NfsStatus>, NoMemory>
    ensures refused { IfOk result (λ done. result_err done ≡ refusal_of nodes.old cred.now (Call.SetAttr object.now set.now guard)) }
    ensures tree { OnOk result (nodes.new ≡ tree_after nodes.old cred.now (Call.SetAttr object.now set.now guard) now) }
    ensures err { OnErr result (nodes.new ≡ nodes.old) }
    ensures memory { OnErr result (refusal_of nodes.old cred.now (Call.SetAttr object.now set.now guard) ≡ None) }
{
    let fileid = match check_setattr(nodes, cred, object, set, guard) {
        Ok(fileid) => fileid,
        Err(status) => return Ok(Err(status)),
    };
    nodes.set(fileid, set, now)?;
    Ok(Ok(()))
}

/// Does a SETATTR, and answers it. `NoMemory` leaves all as it was.
pub fn setattr(
    nodes: &mut Nodes,
    cred: &Cred,
    object: &RawHandle,
    set: &SetAttr,
    guard: Option<Moment>,
    now: Moment,
) -> Result<Result<WccData, Refused<WccData>>, NoMemory>
    ensures tree { OnOk result (nodes.new ≡ tree_after nodes.old cred.now (Call.SetAttr object.now set.now guard) now) }
    ensures answer { IfOk result (λ answer. answer ≡ results_or (refusal_of nodes.old cred.now (Call.SetAttr object.now set.now guard)) (wcc nodes.old nodes.new object.now) (wcc nodes.old nodes.new object.now)) }
    ensures err { OnErr result (nodes.new ≡ nodes.old) }
    ensures memory { OnErr result (refusal_of nodes.old cred.now (Call.SetAttr object.now set.now guard) ≡ None) }
{
    let before = pre_attributes(nodes, object);
    let done = do_setattr(nodes, cred, object, set, guard, now)?;
    let after = post_attributes(nodes, object);
    Ok(wcc_answer(done, WccData { before, after }))
}
