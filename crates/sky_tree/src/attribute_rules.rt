//! The rules of refusal on attributes that a caller sets.

ghost use Rattle.std.specs.Prelude.{◌≡◌};
ghost use Rattle.std.specs.Result.{result_err};
ghost use Rattle.sky_nfs.specs.Procedures.Mkdir.{new_attribute_rules};
ghost use Rattle.sky_nfs.specs.Rules.{first_of, has_bad_time, is_bad_time, is_too_big, may_not_set_owners};

use crate::rules::refuse_if;
use sky_base::Cred;
use sky_nfs::{NfsStatus, SetAttr, SetTime};

/// The nanoseconds of a second.
const SECOND: u32 = 1_000_000_000;

/// The most bytes of a file.
const MAX_FILE_BYTES: u64 = 1 << 30;

/// Whether a time from the caller has nanoseconds of a second or more.
fn is_bad_time(time: SetTime) -> bool
    ensures { result ≡ is_bad_time time }
{
    match time {
        SetTime::Keep | SetTime::Server => false,
        SetTime::Client(time) => time.nanos >= SECOND,
    }
}

/// Whether one of the two times is such a one.
pub fn has_bad_time(set: &SetAttr) -> bool
    ensures { result ≡ has_bad_time set.now }
{
    is_bad_time(set.atime) || is_bad_time(set.mtime)
}

/// Whether a caller may not set these owners of a node with this owner and group.
pub fn may_not_set_owners(cred: &Cred, uid: u32, gid: u32, set: &SetAttr) -> bool
    ensures { result ≡ may_not_set_owners cred.now uid gid set.now }
{
    !sky_access::may_set_owners(cred, uid, gid, set.uid, set.gid)
}

/// Whether a size is set that no file may have.
pub fn is_too_big(size: Option<u64>) -> bool
    ensures { result ≡ is_too_big size }
{
    match size {
        Some(size) => size > MAX_FILE_BYTES,
        None => false,
    }
}

/// Attributes that a new directory or link can have.
pub fn check_new_attributes(cred: &Cred, set: &SetAttr) -> Result<(), NfsStatus>
    ensures { result_err result ≡ first_of (new_attribute_rules cred.now set.now) }
{
    refuse_if(set.size.is_some() || has_bad_time(set), NfsStatus::Inval)?;
    refuse_if(
        may_not_set_owners(cred, cred.uid, cred.gid, set),
        NfsStatus::Perm,
    )
}
