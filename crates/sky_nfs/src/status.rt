//! The statuses with which calls are refused.

ghost use Rattle.std.specs.Prelude.{◌≡◌};
ghost use Rattle.sky_nfs.specs.NfsStatus.{number_of};

/// Why a call is refused: the statuses of RFC 1813 section 2.6 that this server answers, by the RFC's names. An
/// answer that is no refusal has the status `NFS3_OK`, 0, and no value of this type.
#[derive(Clone, Copy)]
pub enum NfsStatus {
    /// `NFS3ERR_PERM`: only the owner or user 0 may do it.
    Perm,
    /// `NFS3ERR_NOENT`: the directory has no such name.
    NoEnt,
    /// `NFS3ERR_IO`: what the answer needs couldn't be read.
    Io,
    /// `NFS3ERR_ACCES`: the caller has no such right, or the name may not stand in a directory.
    Acces,
    /// `NFS3ERR_EXIST`: the name is taken.
    Exist,
    /// `NFS3ERR_NOTDIR`: it is no directory.
    NotDir,
    /// `NFS3ERR_ISDIR`: it is a directory.
    IsDir,
    /// `NFS3ERR_INVAL`: the arguments, or the kind of object, don't fit the procedure.
    Inval,
    /// `NFS3ERR_FBIG`: the file would be larger than a file may be.
    FBig,
    /// `NFS3ERR_NOSPC`: a limit of the file system or of a directory is reached.
    NoSpc,
    /// `NFS3ERR_MLINK`: the file has as many links as a file may have.
    MLink,
    /// `NFS3ERR_NAMETOOLONG`: a name or a link's text is too long.
    NameTooLong,
    /// `NFS3ERR_NOTEMPTY`: the directory has entries.
    NotEmpty,
    /// `NFS3ERR_STALE`: the object that the handle names is gone.
    Stale,
    /// `NFS3ERR_BADHANDLE`: the handle isn't one of this server.
    BadHandle,
    /// `NFS3ERR_NOT_SYNC`: the time of the guard isn't the object's.
    NotSync,
    /// `NFS3ERR_BAD_COOKIE`: the cookie's verifier isn't this server's.
    BadCookie,
    /// `NFS3ERR_NOTSUPP`: this server has no such operation.
    NotSupp,
    /// `NFS3ERR_TOOSMALL`: the answer doesn't fit the bytes that the caller allows.
    TooSmall,
    /// `NFS3ERR_SERVERFAULT`: there was no memory.
    ServerFault,
    /// `NFS3ERR_BADTYPE`: no object of that kind can be made.
    BadType,
    /// `NFS3ERR_JUKEBOX`: not now; the caller may try again.
    Jukebox,
}

impl NfsStatus {
    /// The number that stands for it in a reply.
    pub fn number(self) -> u32
        ensures { result ≡ number_of self }
    {
        match self {
            NfsStatus::Perm => 1,
            NfsStatus::NoEnt => 2,
            NfsStatus::Io => 5,
            NfsStatus::Acces => 13,
            NfsStatus::Exist => 17,
            NfsStatus::NotDir => 20,
            NfsStatus::IsDir => 21,
            NfsStatus::Inval => 22,
            NfsStatus::FBig => 27,
            NfsStatus::NoSpc => 28,
            NfsStatus::MLink => 31,
            NfsStatus::NameTooLong => 63,
            NfsStatus::NotEmpty => 66,
            NfsStatus::Stale => 70,
            NfsStatus::BadHandle => 10001,
            NfsStatus::NotSync => 10002,
            NfsStatus::BadCookie => 10003,
            NfsStatus::NotSupp => 10004,
            NfsStatus::TooSmall => 10005,
            NfsStatus::ServerFault => 10006,
            NfsStatus::BadType => 10007,
            NfsStatus::Jukebox => 10008,
        }
    }
}
