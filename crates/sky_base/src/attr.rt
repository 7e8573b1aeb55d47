//! The attributes of objects.

use super::Moment;

/// What kind of object a node is (`ftype3`, RFC 1813 section 2.6, as far as this server has them).
#[derive(Clone, Copy, PartialEq, Eq)]
pub enum Kind {
    /// 1, `NF3REG`: a regular file.
    Regular,
    /// 2, `NF3DIR`: a directory.
    Directory,
    /// 5, `NF3LNK`: a symbolic link.
    SymbolicLink,
}

/// The two numbers of a device (`specdata3`, RFC 1813 section 2.6).
#[derive(Clone, Copy, PartialEq, Eq)]
pub struct Device {
    /// The first word, the major number.
    pub major: u32,
    /// The second word, the minor number.
    pub minor: u32,
}

/// The attributes of an object (`fattr3`, RFC 1813 section 2.6).
#[derive(Clone, Copy, PartialEq, Eq)]
pub struct Attr {
    pub kind: Kind,
    /// The access bits, below 0o10000.
    pub mode: u32,
    /// The number of hard links: of names that stand for it, and of a directory 2 and one for each directory in it.
    pub nlink: u32,
    pub uid: u32,
    pub gid: u32,
    /// The size in bytes.
    pub size: u64,
    /// The bytes that it uses on the disk.
    pub used: u64,
    /// The device that it stands for.
    pub rdev: Device,
    /// The number of the file system, which is the volume.
    pub fsid: u64,
    /// Its number in the file system, never used again.
    pub fileid: u64,
    /// When it was last read.
    pub atime: Moment,
    /// When its content last changed.
    pub mtime: Moment,
    /// When its content or its attributes last changed.
    pub ctime: Moment,
}
