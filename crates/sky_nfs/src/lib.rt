//! The NFS version 3 protocol as values (RFC 1813): statuses, handles, calls and answers. Its `specs/` say what the
//! file tree is, and what each procedure does to it and answers.
#![tactic(auto)]

mod answer;
mod bytes;
mod call;
mod handle;
mod laws;
mod status;

pub use answer::{
    AccessOk, Answer, CommitOk, CreateOk, FsInfoOk, FsStatOk, LinkResults, ListedEntries,
    ListedEntriesPlus, ListedEntry, ListedEntryPlus, LookupOk, PathConfOk, ReadDirOk,
    ReadDirPlusOk, ReadLinkOk, ReadOk, Refused, RenameResults, WccAttr, WccData, WriteOk,
};
pub use bytes::Bytes;
pub use call::{Call, Change, CreateHow, DirOpArgs, MknodData, SetAttr, SetTime, StableHow};
pub use handle::{Handle, RawHandle};
pub use laws::{
    epochs_are_told_by_write_verifiers, handles_are_read_back, limit_is_as_defined,
    links_are_counted, refusals_and_readings_leave_the_tree, valid_trees_stay_valid,
};
pub use status::NfsStatus;
