//! Answers that the server never gives: without attributes, with one half of them, or with a status of its own.

use sky_base::{Attr, Device, Kind, Moment};
use sky_nfs::{
    AccessOk, Answer, Bytes, CommitOk, CreateOk, FsInfoOk, FsStatOk, Handle, LinkResults,
    ListedEntries, LookupOk, NfsStatus, PathConfOk, ReadDirOk, ReadLinkOk, ReadOk, Refused,
    RenameResults, WccAttr, WccData, WriteOk,
};
use std::alloc::Global;

/// Nothing of an object before and after.
const UNTOLD: WccData = WccData {
    before: None,
    after: None,
};

/// The handle of the rows.
const HANDLE: Handle = Handle {
    volume: 7,
    fileid: 0x1112_1314_1516_1718,
};

/// The attributes of the rows.
const ATTRIBUTES: Attr = Attr {
    kind: Kind::Regular,
    mode: 0o640,
    nlink: 3,
    uid: 1000,
    gid: 100,
    size: 0x0102_0304_0506_0708,
    used: 0x0102_0304_0506_0708,
    rdev: Device { major: 0, minor: 0 },
    fsid: 7,
    fileid: 0x1112_1314_1516_1718,
    atime: Moment {
        seconds: 1,
        nanos: 2,
    },
    mtime: Moment {
        seconds: 3,
        nanos: 4,
    },
    ctime: Moment {
        seconds: 5,
        nanos: 6,
    },
};

/// What was before, in the rows.
const BEFORE: WccAttr = WccAttr {
    size: 0x2122_2324_2526_2728,
    mtime: Moment {
        seconds: 7,
        nanos: 8,
    },
    ctime: Moment {
        seconds: 9,
        nanos: 10,
    },
};

/// What was before where nothing is told of after.
const BEFORE_ALONE: WccData = WccData {
    before: Some(WccAttr {
        size: 5,
        mtime: Moment {
            seconds: 1,
            nanos: 2,
        },
        ctime: Moment {
            seconds: 3,
            nanos: 4,
        },
    }),
    after: None,
};

/// Both.
const TOLD: WccData = WccData {
    before: Some(BEFORE),
    after: Some(ATTRIBUTES),
};

/// A new object of which nothing is told.
const CREATED: CreateOk = CreateOk {
    handle: HANDLE,
    object: None,
    directory: UNTOLD,
};

/// Bytes that were written, of a file of which nothing is told.
const WRITTEN: WriteOk = WriteOk {
    file: UNTOLD,
    count: 65536,
    committed: false,
    verifier: 9,
};

/// A refusal for want of a right, of which nothing is told.
const NO_RIGHT: Refused<Option<Attr>> = Refused {
    status: NfsStatus::Acces,
    attributes: None,
};

/// The numbers of FSSTAT.
const NUMBERS: FsStatOk = FsStatOk {
    root: None,
    total_bytes: 1 << 50,
    free_bytes: (1 << 50) - 1,
    available_bytes: (1 << 50) - 2,
    total_files: 1 << 20,
    free_files: (1 << 20) - 1,
    available_files: (1 << 20) - 2,
    invariant_seconds: 0,
};

/// The numbers of FSINFO.
const INFO: FsInfoOk = FsInfoOk {
    root: None,
    read_max: 65536,
    read_preferred: 65536,
    read_multiple: 512,
    write_max: 65536,
    write_preferred: 65536,
    write_multiple: 512,
    directory_preferred: 65536,
    max_file_size: 1 << 30,
    time_delta: Moment {
        seconds: 0,
        nanos: 1,
    },
    properties: 27,
};

/// The limits of PATHCONF.
const LIMITS: PathConfOk = PathConfOk {
    object: None,
    link_max: 32000,
    name_max: 255,
    no_truncation: true,
    chown_restricted: true,
    case_insensitive: false,
    case_preserving: true,
};

/// The answer of a word, where nothing is told but a status.
fn refusal_of(word: &str) -> Option<Answer> {
    let status = match word {
        "io" => NfsStatus::Io,
        "jukebox" => NfsStatus::Jukebox,
        "nospc" => NfsStatus::NoSpc,
        "mlink" => NfsStatus::MLink,
        "serverfault" => NfsStatus::ServerFault,
        "badtype" => NfsStatus::BadType,
        _ => return None,
    };
    Some(Answer::GetAttr(Err(status)))
}

/// The answer of a word, of those that change nothing.
fn reading_of(alloc: Global, word: &str) -> Option<Answer> {
    match word {
        "lookup" => Some(Answer::Lookup(Ok(LookupOk {
            handle: HANDLE,
            object: None,
            directory: None,
        }))),
        "access" => Some(Answer::Access(Ok(AccessOk {
            object: None,
            rights: 31,
        }))),
        "readlink" => Some(Answer::ReadLink(Ok(ReadLinkOk {
            link: None,
            text: Bytes::new(b"a/bc.".to_vec(alloc).ok()?),
        }))),
        "readdir-of-none" => Some(Answer::ReadDir(Ok(ReadDirOk {
            directory: None,
            entries: ListedEntries::new(Vec::new(alloc)),
            eof: false,
        }))),
        "read" => Some(Answer::Read(Ok(ReadOk {
            file: None,
            eof: false,
            data: Bytes::new(b"data".to_vec(alloc).ok()?),
        }))),
        "readlink-refused" => Some(Answer::ReadLink(Err(NO_RIGHT))),
        "readdir-refused" => Some(Answer::ReadDir(Err(NO_RIGHT))),
        "read-io" => Some(Answer::Read(Err(Refused {
            status: NfsStatus::Io,
            attributes: None,
        }))),
        "fsstat" => Some(Answer::FsStat(Ok(NUMBERS))),
        "fsinfo" => Some(Answer::FsInfo(Ok(INFO))),
        "pathconf" => Some(Answer::PathConf(Ok(LIMITS))),
        _ => refusal_of(word),
    }
}

/// The answer of a word.
pub fn answer_of(alloc: Global, word: &str) -> Option<Answer> {
    match word {
        "setattr" => Some(Answer::SetAttr(Ok(UNTOLD))),
        "setattr-told" => Some(Answer::SetAttr(Ok(TOLD))),
        "remove" => Some(Answer::Remove(Ok(UNTOLD))),
        "remove-with-before-alone" => Some(Answer::Remove(Ok(BEFORE_ALONE))),
        "remove-with-after-alone" => Some(Answer::Remove(Ok(WccData {
            before: None,
            after: Some(ATTRIBUTES),
        }))),
        "rmdir" => Some(Answer::Rmdir(Ok(UNTOLD))),
        "create" => Some(Answer::Create(Ok(CREATED))),
        "mkdir" => Some(Answer::Mkdir(Ok(CREATED))),
        "mkdir-nospc" => Some(Answer::Mkdir(Err(Refused {
            status: NfsStatus::NoSpc,
            attributes: TOLD,
        }))),
        "symlink" => Some(Answer::Symlink(Ok(CREATED))),
        "link" => Some(Answer::Link(Ok(LinkResults {
            file: None,
            directory: UNTOLD,
        }))),
        "commit" => Some(Answer::Commit(Ok(CommitOk {
            file: UNTOLD,
            verifier: 9,
        }))),
        "write" => Some(Answer::Write(Ok(WRITTEN))),
        "mknod" => Some(Answer::Mknod(Refused {
            status: NfsStatus::NotSupp,
            attributes: UNTOLD,
        })),
        "rename-isdir" => Some(Answer::Rename(Err(Refused {
            status: NfsStatus::IsDir,
            attributes: RenameResults {
                from: TOLD,
                to: UNTOLD,
            },
        }))),
        "link-mlink" => Some(Answer::Link(Err(Refused {
            status: NfsStatus::MLink,
            attributes: LinkResults {
                file: Some(ATTRIBUTES),
                directory: UNTOLD,
            },
        }))),
        "commit-jukebox" => Some(Answer::Commit(Err(Refused {
            status: NfsStatus::Jukebox,
            attributes: UNTOLD,
        }))),
        _ => reading_of(alloc, word),
    }
}
