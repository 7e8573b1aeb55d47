//! The names of statuses.

ghost use Rattle.std.specs.Prelude.{◌≡◌, ◌≢◌, ◌<◌, IfSome, IsNone};
ghost use Rattle.sky_nfs.specs.NfsStatus.{number_of};
ghost use Rattle.sky_nfs.specs.declared.status.NfsStatus.{NfsStatus};
ghost use Rattle.sky_show.specs.Names.{name_of};

use sky_nfs::NfsStatus;

/// The refusal that a number stands for (`nfsstat3`, RFC 1813 section 2.6), of those that the proxy answers.
fn below_hundred(number: u32) -> Option<NfsStatus>
    ensures some { IfSome result (λ status. number_of status ≡ number) }
    ensures none { IsNone result → (status : NfsStatus) → number_of status ≡ number → 100 < number }
{
    match number {
        1 => Some(NfsStatus::Perm),
        2 => Some(NfsStatus::NoEnt),
        5 => Some(NfsStatus::Io),
        13 => Some(NfsStatus::Acces),
        17 => Some(NfsStatus::Exist),
        20 => Some(NfsStatus::NotDir),
        21 => Some(NfsStatus::IsDir),
        22 => Some(NfsStatus::Inval),
        27 => Some(NfsStatus::FBig),
        28 => Some(NfsStatus::NoSpc),
        31 => Some(NfsStatus::MLink),
        63 => Some(NfsStatus::NameTooLong),
        66 => Some(NfsStatus::NotEmpty),
        70 => Some(NfsStatus::Stale),
        _ => None,
    }
}

/// The refusal that a number stands for, where one of the proxy's has it.
pub fn status_of(number: u32) -> Option<NfsStatus>
    ensures some { IfSome result (λ status. number_of status ≡ number) }
    ensures none { IsNone result → (status : NfsStatus) → number_of status ≢ number }
{
    match number {
        10001 => Some(NfsStatus::BadHandle),
        10002 => Some(NfsStatus::NotSync),
        10003 => Some(NfsStatus::BadCookie),
        10004 => Some(NfsStatus::NotSupp),
        10005 => Some(NfsStatus::TooSmall),
        10006 => Some(NfsStatus::ServerFault),
        10007 => Some(NfsStatus::BadType),
        10008 => Some(NfsStatus::Jukebox),
        _ => below_hundred(number),
    }
}

/// The name of a refusal, as RFC 1813 writes it.
pub fn status_name(status: NfsStatus) -> &'static str
    ensures { result.now ≡ name_of status }
{
    match status {
        NfsStatus::Perm => "NFS3ERR_PERM",
        NfsStatus::NoEnt => "NFS3ERR_NOENT",
        NfsStatus::Io => "NFS3ERR_IO",
        NfsStatus::Acces => "NFS3ERR_ACCES",
        NfsStatus::Exist => "NFS3ERR_EXIST",
        NfsStatus::NotDir => "NFS3ERR_NOTDIR",
        NfsStatus::IsDir => "NFS3ERR_ISDIR",
        NfsStatus::Inval => "NFS3ERR_INVAL",
        NfsStatus::FBig => "NFS3ERR_FBIG",
        NfsStatus::NoSpc => "NFS3ERR_NOSPC",
        NfsStatus::MLink => "NFS3ERR_MLINK",
        NfsStatus::NameTooLong => "NFS3ERR_NAMETOOLONG",
        NfsStatus::NotEmpty => "NFS3ERR_NOTEMPTY",
        NfsStatus::Stale => "NFS3ERR_STALE",
        NfsStatus::BadHandle => "NFS3ERR_BADHANDLE",
        NfsStatus::NotSync => "NFS3ERR_NOT_SYNC",
        NfsStatus::BadCookie => "NFS3ERR_BAD_COOKIE",
        NfsStatus::NotSupp => "NFS3ERR_NOTSUPP",
        NfsStatus::TooSmall => "NFS3ERR_TOOSMALL",
        NfsStatus::ServerFault => "NFS3ERR_SERVERFAULT",
        NfsStatus::BadType => "NFS3ERR_BADTYPE",
        NfsStatus::Jukebox => "NFS3ERR_JUKEBOX",
    }
}
