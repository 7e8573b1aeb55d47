//! What the changes of a node make of its attributes.

ghost use Rattle.std.specs.Prelude.{◌≡◌, ◌+◌, ◌^◌, ◌<◌, length};
ghost use Rattle.sky_nfs.specs.Changes.{set_time};
ghost use Rattle.sky_tree.specs.AttrChanges as changes;

use sky_base::{Attr, Moment};
use sky_nfs::{SetAttr, SetTime};

/// The bytes that an entry adds to the size of a directory, beside those of its name.
const ENTRY_OVERHEAD: u64 = 18;

/// The attributes with another size.
pub fn of_size(attr: &Attr, size: u64) -> Attr
    ensures { result ≡ changes.of_size size attr.now }
{
    Attr {
        size,
        used: size,
        ..*attr
    }
}

/// Those of another content, of this size, from now on.
pub fn sized(attr: &Attr, size: u64, now: Moment) -> Attr
    ensures { result ≡ changes.sized size now attr.now }
{
    Attr {
        size,
        used: size,
        mtime: now,
        ctime: now,
        ..*attr
    }
}

/// Those of a directory that gets an entry of this name.
pub fn entered(attr: &Attr, name: &[u8], now: Moment) -> Attr
    requires { attr.now.size + 18 + length name.now < 2 ^ 64 }
    ensures { result ≡ changes.entered name.now now attr.now }
{
    sized(attr, attr.size + ENTRY_OVERHEAD + name.len() as u64, now)
}

/// Those of a directory whose entry of this name goes.
pub fn left(attr: &Attr, name: &[u8], now: Moment) -> Attr
    ensures { result ≡ changes.left name.now now attr.now }
{
    let unnamed = attr.size.saturating_sub(ENTRY_OVERHEAD);
    sized(attr, unnamed.saturating_sub(name.len() as u64), now)
}

/// With a link more.
pub fn linked(attr: &Attr) -> Attr
    requires { attr.now.nlink + 1 < 2 ^ 32 }
    ensures { result ≡ changes.linked attr.now }
{
    Attr {
        nlink: attr.nlink + 1,
        ..*attr
    }
}

/// With a link less.
pub fn unlinked(attr: &Attr) -> Attr
    ensures { result ≡ changes.unlinked attr.now }
{
    Attr {
        nlink: attr.nlink.saturating_sub(1),
        ..*attr
    }
}

/// Changed now.
pub fn stamped(attr: &Attr, now: Moment) -> Attr
    ensures { result ≡ changes.stamped now attr.now }
{
    Attr {
        ctime: now,
        ..*attr
    }
}

/// Those of a file to which so many bytes are written at an offset.
pub fn written(attr: &Attr, offset: u64, count: u32, now: Moment) -> Attr
    requires { offset + count < 2 ^ 64 }
    ensures { result ≡ changes.written offset count now attr.now }
{
    if count == 0 {
        *attr
    } else {
        sized(attr, attr.size.max(offset + count as u64), now)
    }
}

/// Those of a file whose size an unchecked CREATE sets, if it sets one.
pub fn taken(attr: &Attr, size: Option<u64>, now: Moment) -> Attr
    ensures { result ≡ changes.taken size now attr.now }
{
    match size {
        None => *attr,
        Some(size) => sized(attr, size, now),
    }
}

/// Whether a time is set, and to which.
fn set_time(how: SetTime, now: Moment, before: Moment) -> Moment
    ensures { result ≡ set_time how now before }
{
    match how {
        SetTime::Keep => before,
        SetTime::Server => now,
        SetTime::Client(time) => time,
    }
}

/// Those that a SETATTR leaves. An object whose size is set is a file.
pub fn set(attr: &Attr, how: &SetAttr, now: Moment) -> Attr
    ensures { result ≡ changes.set how.now now attr.now }
{
    let mtime = if how.size.is_some() { now } else { attr.mtime };
    Attr {
        mode: how.mode.map_or(attr.mode, |mode| mode % 4096),
        uid: how.uid.unwrap_or(attr.uid),
        gid: how.gid.unwrap_or(attr.gid),
        size: how.size.unwrap_or(attr.size),
        used: how.size.unwrap_or(attr.used),
        atime: set_time(how.atime, now, attr.atime),
        mtime: set_time(how.mtime, now, mtime),
        ctime: now,
        ..*attr
    }
}

/// Those of a directory whose entry of this name goes, and counts no longer where it named a directory.
pub fn went(attr: &Attr, is_directory: bool, name: &[u8], now: Moment) -> Attr
    ensures { result ≡ changes.went is_directory name.now now attr.now }
{
    let unnamed = left(attr, name, now);
    if is_directory {
        unlinked(&unnamed)
    } else {
        unnamed
    }
}

/// Those of a directory that gets an entry of this name, which counts where it names a directory.
pub fn came(attr: &Attr, is_directory: bool, name: &[u8], now: Moment) -> Attr
    requires size { attr.now.size + 18 + length name.now < 2 ^ 64 }
    requires links { attr.now.nlink + 1 < 2 ^ 32 }
    ensures { result ≡ changes.came is_directory name.now now attr.now }
{
    let named = entered(attr, name, now);
    if is_directory { linked(&named) } else { named }
}

/// Those of a directory in which this name is free, after what had it went: a directory, another node or none.
pub fn cleared(attr: &Attr, target: Option<bool>, name: &[u8], now: Moment) -> Attr
    ensures { result ≡ changes.cleared target name.now now attr.now }
{
    match target {
        None => *attr,
        Some(is_directory) => went(attr, is_directory, name, now),
    }
}
