//! Who may do what with an object: the rules of access by owner, group and mode, and of setting owners.
//! Nothing here needs memory.
#![tactic(auto)]

ghost use Rattle.std.specs.Prelude.{◌≡◌};
ghost use Rattle.sky_base.specs.Access.{owns, is_of_group, digit_for, grants, may, may_or_owns, is_owner_or_superuser, may_set_owners};

use sky_base::{Attr, Cred, Want};

/// Whether a caller may do this with an object, by its mode: user 0 always may. For any other caller one digit of the
/// mode counts: the owner's for the owner, else the group's for a caller of the object's group, else the others'.
/// ACCESS tells a client by this rule what it may do (RFC 1813 section 3.3.4).
pub fn may(attr: &Attr, cred: &Cred, want: Want) -> bool
    ensures { result ≡ may attr.now cred.now want }
{
    cred.uid == 0 || grants(digit_for(attr, cred), want)
}

/// Whether a caller may do this with an object, or owns it. Whoever owns a file reads and writes it whatever its mode
/// is, since a program may write on through a file that it has made read-only (RFC 1813 section 4.4).
pub fn may_or_owns(attr: &Attr, cred: &Cred, want: Want) -> bool
    ensures { result ≡ may_or_owns attr.now cred.now want }
{
    may(attr, cred, want) || owns(cred, attr)
}

/// Whether a caller owns an object.
pub fn owns(cred: &Cred, attr: &Attr) -> bool
    ensures { result ≡ owns cred.now attr.now }
{
    cred.uid == attr.uid
}

/// Whether a caller owns an object or is user 0: only such a caller sets its mode, or its times to moments that the
/// caller gives (SETATTR, RFC 1813 section 3.3.2).
pub fn is_owner_or_superuser(cred: &Cred, attr: &Attr) -> bool
    ensures { result ≡ is_owner_or_superuser cred.now attr.now }
{
    cred.uid == 0 || owns(cred, attr)
}

/// Whether a caller may set the owner and the group of an object, each where it is given (`sattr3`, RFC 1813 section
/// 2.6). `uid` and `gid` are those that the object has. Only user 0 gives it another owner. Only user 0, or the owner
/// to a group of its own, gives it another group. Setting what the object has already changes nothing, and anyone may.
pub fn may_set_owners(
    cred: &Cred,
    uid: u32,
    gid: u32,
    new_uid: Option<u32>,
    new_gid: Option<u32>,
) -> bool
    ensures { result ≡ may_set_owners cred.now uid gid new_uid new_gid }
{
    if cred.uid == 0 {
        return true;
    }
    let owner_stays = new_uid.is_none_or(|new| new == uid);
    let group_is_allowed = new_gid.is_none_or(|new| new == gid
        || cred.uid == uid && is_of_group(cred, new));
    owner_stays && group_is_allowed
}

/// Whether a caller is of a group, by its own group or one of the further ones.
pub fn is_of_group(cred: &Cred, gid: u32) -> bool
    ensures { result ≡ is_of_group cred.now gid }
{
    cred.gid == gid || cred.gids.as_slice().contains(&gid)
}

// The octal digit of the mode that counts for a caller.
fn digit_for(attr: &Attr, cred: &Cred) -> u32
    ensures { result ≡ digit_for attr.now cred.now }
{
    let shifted = if owns(cred, attr) {
        attr.mode >> 6
    } else if is_of_group(cred, attr.gid) {
        attr.mode >> 3
    } else {
        attr.mode
    };
    shifted & 0o7
}

// Whether an octal digit of a mode grants a want.
#[tactic(auto, using(crate::proofs::Masks::four_masked, crate::proofs::Masks::two_masked))]
fn grants(digit: u32, want: Want) -> bool
    ensures { result ≡ grants digit want }
{
    match want {
        Want::Read => digit & 4 != 0,
        Want::Write => digit & 2 != 0,
        Want::Execute => digit & 1 != 0,
    }
}
