//! The answers to calls.

ghost use Rattle.std.specs.Prelude.{◌≡◌};

use super::{Bytes, Handle, NfsStatus};
use sky_base::{Attr, Moment};
use std::marker::Model;

/// A refusal, with the attributes that go with it.
#[derive(Clone, Copy)]
pub struct Refused<A> {
    pub status: NfsStatus,
    pub attributes: A,
}

/// What tells whether an object changed (`wcc_attr`, RFC 1813 section 2.6).
#[derive(Clone, Copy)]
pub struct WccAttr {
    pub size: u64,
    /// When its content last changed.
    pub mtime: Moment,
    /// When its content or its attributes last changed.
    pub ctime: Moment,
}

/// An object before and after a call (`wcc_data`, RFC 1813 section 2.6). What isn't told is `None`.
#[derive(Clone, Copy)]
pub struct WccData {
    pub before: Option<WccAttr>,
    pub after: Option<Attr>,
}

/// What LOOKUP found (RFC 1813 section 3.3.3).
#[derive(Clone, Copy)]
pub struct LookupOk {
    pub handle: Handle,
    /// The object's attributes.
    pub object: Option<Attr>,
    /// The directory's attributes.
    pub directory: Option<Attr>,
}

/// The rights that a caller has (RFC 1813 section 3.3.4).
#[derive(Clone, Copy)]
pub struct AccessOk {
    /// The object's attributes.
    pub object: Option<Attr>,
    /// Those of the rights asked for that the caller has.
    pub rights: u32,
}

/// A symbolic link (RFC 1813 section 3.3.5).
#[derive(Drop)]
pub struct ReadLinkOk {
    /// The link's attributes.
    pub link: Option<Attr>,
    pub text: Bytes,
}

/// Bytes read (RFC 1813 section 3.3.6). Their count is the data's length.
#[derive(Drop)]
pub struct ReadOk {
    /// The file's attributes.
    pub file: Option<Attr>,
    /// Whether the file ends with them.
    pub eof: bool,
    pub data: Bytes,
}

/// Bytes written (RFC 1813 section 3.3.7).
#[derive(Clone, Copy)]
pub struct WriteOk {
    /// The file before and after.
    pub file: WccData,
    /// How many were written.
    pub count: u32,
    /// Whether they are stable: FILE_SYNC on the wire, else UNSTABLE.
    pub committed: bool,
    /// The write verifier, in 8 bytes on the wire: another one tells that unstable data may be lost.
    pub verifier: u64,
}

/// A new object, or the one that had the name (RFC 1813 sections 3.3.8 to 3.3.10).
#[derive(Clone, Copy)]
pub struct CreateOk {
    pub handle: Handle,
    /// The object's attributes.
    pub object: Option<Attr>,
    /// The directory before and after.
    pub directory: WccData,
}

/// Both directories of a RENAME (RFC 1813 section 3.3.14).
#[derive(Clone, Copy)]
pub struct RenameResults {
    /// The one that had the name, before and after.
    pub from: WccData,
    /// The one that gets it, before and after.
    pub to: WccData,
}

/// The file and the directory of a LINK (RFC 1813 section 3.3.15).
#[derive(Clone, Copy)]
pub struct LinkResults {
    /// The file's attributes.
    pub file: Option<Attr>,
    /// The directory before and after.
    pub directory: WccData,
}

/// An entry of a listing (`entry3`, RFC 1813 section 3.3.16).
#[derive(Drop)]
pub struct ListedEntry {
    pub fileid: u64,
    pub name: Bytes,
    /// The cookie behind which a next page begins.
    pub cookie: u64,
}

/// An entry of a listing with attributes (`entryplus3`, RFC 1813 section 3.3.17).
#[derive(Drop)]
pub struct ListedEntryPlus {
    pub entry: ListedEntry,
    pub attributes: Option<Attr>,
    pub handle: Handle,
}

/// The entries of a page. Contracts see them as a list.
#[derive(Drop)]
pub struct ListedEntries {
    entries: Vec<ListedEntry>,
}

impl Model for ListedEntries {
    ghost use Rattle.std.specs.Prelude.{List};
    ghost use Rattle.sky_nfs.specs.declared.answer.ListedEntry.{ListedEntry};

    ghost Value = { List ListedEntry };

    ghost view = { λ p. p.entries.items };
}

impl ListedEntries {
    /// These entries, which it takes over.
    pub fn new(entries: Vec<ListedEntry>) -> ListedEntries
        ensures { result ≡ entries.items }
    {
        ListedEntries { entries }
    }

    /// The entries, to read.
    pub fn as_slice(&self) -> &[ListedEntry]
        ensures { result.now ≡ self.now }
    {
        self.entries.as_slice()
    }

    /// The entries, given back.
    pub fn into_vec(self) -> Vec<ListedEntry>
        ensures { result.items ≡ self }
    {
        self.entries
    }
}

/// The entries of a page with attributes. Contracts see them as a list.
#[derive(Drop)]
pub struct ListedEntriesPlus {
    entries: Vec<ListedEntryPlus>,
}

impl Model for ListedEntriesPlus {
    ghost use Rattle.std.specs.Prelude.{List};
    ghost use Rattle.sky_nfs.specs.declared.answer.ListedEntryPlus.{ListedEntryPlus};

    ghost Value = { List ListedEntryPlus };

    ghost view = { λ p. p.entries.items };
}

impl ListedEntriesPlus {
    /// These entries, which it takes over.
    pub fn new(entries: Vec<ListedEntryPlus>) -> ListedEntriesPlus
        ensures { result ≡ entries.items }
    {
        ListedEntriesPlus { entries }
    }

    /// The entries, to read.
    pub fn as_slice(&self) -> &[ListedEntryPlus]
        ensures { result.now ≡ self.now }
    {
        self.entries.as_slice()
    }

    /// The entries, given back.
    pub fn into_vec(self) -> Vec<ListedEntryPlus>
        ensures { result.items ≡ self }
    {
        self.entries
    }
}

/// A page of a listing (RFC 1813 section 3.3.16). Its cookie verifier is zero.
#[derive(Drop)]
pub struct ReadDirOk {
    /// The directory's attributes.
    pub directory: Option<Attr>,
    pub entries: ListedEntries,
    /// Whether the listing ends with them.
    pub eof: bool,
}

/// A page of a listing with attributes (RFC 1813 section 3.3.17). Its cookie verifier is zero.
#[derive(Drop)]
pub struct ReadDirPlusOk {
    /// The directory's attributes.
    pub directory: Option<Attr>,
    pub entries: ListedEntriesPlus,
    /// Whether the listing ends with them.
    pub eof: bool,
}

/// How full the file system is (RFC 1813 section 3.3.18).
#[derive(Clone, Copy)]
pub struct FsStatOk {
    /// The root's attributes.
    pub root: Option<Attr>,
    /// The file system's size in bytes.
    pub total_bytes: u64,
    /// The bytes that are free.
    pub free_bytes: u64,
    /// The bytes that are free to the caller.
    pub available_bytes: u64,
    /// How many nodes there can be.
    pub total_files: u64,
    /// How many there can still be.
    pub free_files: u64,
    /// How many the caller can still make.
    pub available_files: u64,
    /// For how many seconds the file system isn't expected to change.
    pub invariant_seconds: u32,
}

/// What the file system can do (RFC 1813 section 3.3.19).
#[derive(Clone, Copy)]
pub struct FsInfoOk {
    /// The root's attributes.
    pub root: Option<Attr>,
    /// The most bytes of a READ.
    pub read_max: u32,
    /// The bytes of a READ that suit best.
    pub read_preferred: u32,
    /// A READ's bytes are best a multiple of this.
    pub read_multiple: u32,
    /// The most bytes of a WRITE.
    pub write_max: u32,
    /// The bytes of a WRITE that suit best.
    pub write_preferred: u32,
    /// A WRITE's bytes are best a multiple of this.
    pub write_multiple: u32,
    /// The bytes of a READDIR that suit best.
    pub directory_preferred: u32,
    /// The most bytes of a file.
    pub max_file_size: u64,
    /// How exact times are kept.
    pub time_delta: Moment,
    /// What it can do, a bit for each: hard links 1, symbolic links 2, the same limits everywhere 8, set times 16.
    pub properties: u32,
}

/// The limits on names and links (RFC 1813 section 3.3.20).
#[derive(Clone, Copy)]
pub struct PathConfOk {
    /// The object's attributes.
    pub object: Option<Attr>,
    /// The most links of a file.
    pub link_max: u32,
    /// The most bytes of a name.
    pub name_max: u32,
    /// Whether a longer name is refused, and not cut.
    pub no_truncation: bool,
    /// Whether only user 0 gives a file another owner.
    pub chown_restricted: bool,
    /// Whether names that differ in case alone are one.
    pub case_insensitive: bool,
    /// Whether a name keeps its case.
    pub case_preserving: bool,
}

/// What was written is stable (RFC 1813 section 3.3.21).
#[derive(Clone, Copy)]
pub struct CommitOk {
    /// The file before and after.
    pub file: WccData,
    /// The write verifier.
    pub verifier: u64,
}

/// The answer to a call: of each procedure its results, or the refusal with the attributes that go with it (RFC 1813
/// section 3.3). In the order of the procedures' numbers.
#[derive(Drop)]
pub enum Answer {
    /// 0.
    Null,
    /// 1: the object's attributes.
    GetAttr(Result<Attr, NfsStatus>),
    /// 2: the object before and after.
    SetAttr(Result<WccData, Refused<WccData>>),
    /// 3: what was found; else the directory's attributes.
    Lookup(Result<LookupOk, Refused<Option<Attr>>>),
    /// 4: the rights; else the object's attributes.
    Access(Result<AccessOk, Refused<Option<Attr>>>),
    /// 5: the text; else the object's attributes.
    ReadLink(Result<ReadLinkOk, Refused<Option<Attr>>>),
    /// 6: the bytes; else the object's attributes.
    Read(Result<ReadOk, Refused<Option<Attr>>>),
    /// 7: what was written; else the object before and after.
    Write(Result<WriteOk, Refused<WccData>>),
    /// 8: the file; else the directory before and after.
    Create(Result<CreateOk, Refused<WccData>>),
    /// 9: the new directory; else the directory before and after.
    Mkdir(Result<CreateOk, Refused<WccData>>),
    /// 10: the link; else the directory before and after.
    Symlink(Result<CreateOk, Refused<WccData>>),
    /// 11: this server makes none.
    Mknod(Refused<WccData>),
    /// 12: the directory before and after.
    Remove(Result<WccData, Refused<WccData>>),
    /// 13: the directory before and after.
    Rmdir(Result<WccData, Refused<WccData>>),
    /// 14: both directories before and after.
    Rename(Result<RenameResults, Refused<RenameResults>>),
    /// 15: the file, and the directory before and after.
    Link(Result<LinkResults, Refused<LinkResults>>),
    /// 16: a page; else the directory's attributes.
    ReadDir(Result<ReadDirOk, Refused<Option<Attr>>>),
    /// 17: a page; else the directory's attributes.
    ReadDirPlus(Result<ReadDirPlusOk, Refused<Option<Attr>>>),
    /// 18: the numbers; else the object's attributes.
    FsStat(Result<FsStatOk, Refused<Option<Attr>>>),
    /// 19: the numbers; else the object's attributes.
    FsInfo(Result<FsInfoOk, Refused<Option<Attr>>>),
    /// 20: the numbers; else the object's attributes.
    PathConf(Result<PathConfOk, Refused<Option<Attr>>>),
    /// 21: the file; else the object before and after.
    Commit(Result<CommitOk, Refused<WccData>>),
}

impl Answer {
    ghost use Rattle.std.specs.Prelude.{◌≡◌};
    ghost use Rattle.sky_nfs.specs.Results.{succeeded};

    /// Whether it is the answer OK to a call that changes files. MKNOD makes no node, and is never answered OK.
    pub fn is_ok(&self) -> bool
        ensures { result ≡ succeeded self.now }
    {
        match self {
            Answer::SetAttr(result) => result.is_ok(),
            Answer::Write(result) => result.is_ok(),
            Answer::Create(result) => result.is_ok(),
            Answer::Mkdir(result) => result.is_ok(),
            Answer::Symlink(result) => result.is_ok(),
            Answer::Remove(result) => result.is_ok(),
            Answer::Rmdir(result) => result.is_ok(),
            Answer::Rename(result) => result.is_ok(),
            Answer::Link(result) => result.is_ok(),
            _ => false,
        }
    }
}
