//! The calls and their arguments.

ghost use Rattle.std.specs.Prelude.{◌≡◌};
ghost use Rattle.sky_nfs.specs.Calls.{is_change};

use super::{Bytes, RawHandle};
use sky_base::{Cred, Device, Moment};

/// How a time is set (`set_atime` and `set_mtime`, RFC 1813 section 2.6).
#[derive(Clone, Copy)]
pub enum SetTime {
    /// It isn't set.
    Keep,
    /// To the moment of the call.
    Server,
    /// To this one.
    Client(Moment),
}

/// The attributes that a call sets (`sattr3`, RFC 1813 section 2.6). What is `None` isn't set.
#[derive(Clone, Copy)]
pub struct SetAttr {
    /// The access bits, of which the lowest 12 count.
    pub mode: Option<u32>,
    pub uid: Option<u32>,
    pub gid: Option<u32>,
    pub size: Option<u64>,
    /// When it was last read.
    pub atime: SetTime,
    /// When its content last changed.
    pub mtime: SetTime,
}

/// A name in a directory (`diropargs3`, RFC 1813 section 2.6).
#[derive(Drop)]
pub struct DirOpArgs {
    pub directory: RawHandle,
    /// The name as the caller sent it, of whatever length.
    pub name: Bytes,
}

/// How a file is made (`createhow3`, RFC 1813 section 3.3.8).
#[derive(Clone, Copy)]
pub enum CreateHow {
    /// With these attributes; a file that has the name is taken as it is.
    Unchecked(SetAttr),
    /// With these attributes, only where the name is free.
    Guarded(SetAttr),
    /// Under this verifier, so that the call can be sent again.
    Exclusive([u8; 8]),
}

/// What is made by MKNOD (`mknoddata3`, RFC 1813 section 3.3.11).
#[derive(Clone, Copy)]
pub enum MknodData {
    /// 1: a regular file, which MKNOD doesn't make.
    Regular,
    /// 2: a directory, which MKNOD doesn't make.
    Directory,
    /// 3: a block device.
    Block(SetAttr, Device),
    /// 4: a character device.
    Character(SetAttr, Device),
    /// 5: a symbolic link, which MKNOD doesn't make.
    SymbolicLink,
    /// 6: a socket.
    Socket(SetAttr),
    /// 7: a named pipe.
    Pipe(SetAttr),
}

/// How stable written data is to be (`stable_how`, RFC 1813 section 3.3.7).
#[derive(Clone, Copy)]
pub enum StableHow {
    /// 0: it may be lost until a COMMIT.
    Unstable,
    /// 1: the data is stable before the answer.
    DataSync,
    /// 2: data and attributes are stable before the answer.
    FileSync,
}

/// A call of NFS version 3 with its arguments: one variant for each procedure of RFC 1813 section 3.3, in the order of
/// their numbers 0 to 21.
#[derive(Drop)]
pub enum Call {
    /// 0: does nothing.
    Null,
    /// 1: the attributes of an object.
    GetAttr {
        object: RawHandle,
    },
    /// 2: sets attributes of an object, where its ctime is the guard's.
    SetAttr {
        object: RawHandle,
        attributes: SetAttr,
        guard: Option<Moment>,
    },
    /// 3: the object that a name stands for.
    Lookup {
        at: DirOpArgs,
    },
    /// 4: which of these rights the caller has.
    Access {
        object: RawHandle,
        rights: u32,
    },
    /// 5: the text of a symbolic link.
    ReadLink {
        link: RawHandle,
    },
    /// 6: bytes of a file.
    Read {
        file: RawHandle,
        offset: u64,
        count: u32,
    },
    /// 7: writes bytes to a file.
    Write {
        file: RawHandle,
        offset: u64,
        count: u32,
        stable: StableHow,
        data: Bytes,
    },
    /// 8: makes a file.
    Create {
        at: DirOpArgs,
        how: CreateHow,
    },
    /// 9: makes a directory.
    Mkdir {
        at: DirOpArgs,
        attributes: SetAttr,
    },
    /// 10: makes a symbolic link.
    Symlink {
        at: DirOpArgs,
        attributes: SetAttr,
        text: Bytes,
    },
    /// 11: makes a special object.
    Mknod {
        at: DirOpArgs,
        what: MknodData,
    },
    /// 12: removes a name of a file or a link.
    Remove {
        at: DirOpArgs,
    },
    /// 13: removes an empty directory.
    Rmdir {
        at: DirOpArgs,
    },
    /// 14: gives an object another name.
    Rename {
        from: DirOpArgs,
        to: DirOpArgs,
    },
    /// 15: gives a file one more name.
    Link {
        file: RawHandle,
        at: DirOpArgs,
    },
    /// 16: entries of a directory.
    ReadDir {
        directory: RawHandle,
        cookie: u64,
        verifier: [u8; 8],
        count: u32,
    },
    /// 17: entries of a directory, with attributes and handles.
    ReadDirPlus {
        directory: RawHandle,
        cookie: u64,
        verifier: [u8; 8],
        dircount: u32,
        maxcount: u32,
    },
    /// 18: how full the file system is.
    FsStat {
        root: RawHandle,
    },
    /// 19: what the file system can do.
    FsInfo {
        root: RawHandle,
    },
    /// 20: the limits on names and links.
    PathConf {
        object: RawHandle,
    },
    /// 21: makes what was written stable.
    Commit {
        file: RawHandle,
        offset: u64,
        count: u32,
    },
}

impl Call {
    /// Whether it is one of the procedures that change the tree: SETATTR, WRITE, CREATE, MKDIR, SYMLINK, REMOVE, RMDIR,
    /// RENAME and LINK.
    pub fn changes(&self) -> bool
        ensures { result ≡ is_change self.now }
    {
        matches!(
            self,
            Call::SetAttr { .. }
                | Call::Write { .. }
                | Call::Create { .. }
                | Call::Mkdir { .. }
                | Call::Symlink { .. }
                | Call::Remove { .. }
                | Call::Rmdir { .. }
                | Call::Rename { .. }
                | Call::Link { .. }
        )
    }
}

/// A change of the tree: who called, when, and what.
#[derive(Drop)]
pub struct Change {
    pub cred: Cred,
    pub moment: Moment,
    pub call: Call,
}
