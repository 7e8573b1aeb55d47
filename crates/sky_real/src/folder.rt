//! Folders, and the names in them that last.

use std::fs::File;
use std::io::ErrorKind;
use std::{fs, io};

/// The folder that a path lies in: the working folder where the path doesn't name one.
pub(crate) fn folder_of(path: &str) -> &str {
    match path.rsplit_once('/') {
        Some((folder, _)) if !folder.is_empty() => folder,
        Some(_) => "/",
        None => ".",
    }
}

/// Syncs a folder, so that the names in it are there after the power fails.
pub(crate) fn sync_folder(rt: &HostRuntime, folder: &str) -> io::Result<()> {
    File::open(rt, folder)?.sync_all()
}

/// Whether a folder is there, or a link to one.
pub(crate) fn is_folder(rt: &HostRuntime, path: &str) -> io::Result<bool> {
    match fs::metadata(rt, path) {
        Ok(found) => Ok(found.is_dir()),
        Err(error) if error.kind() == ErrorKind::NotFound => Ok(false),
        Err(error) => Err(error),
    }
}

/// Makes a folder, unless it is there, and sees that its name lasts.
pub(crate) fn make_folder(rt: &HostRuntime, path: &str) -> io::Result<()> {
    match fs::create_dir(rt, path) {
        Ok(()) => {}
        Err(error) if error.kind() == ErrorKind::AlreadyExists => {}
        Err(error) => return Err(error),
    }
    sync_folder(rt, folder_of(path))
}

/// Where a slash stands at `end`, makes the folder whose path ends there, if it is missing.
fn make_ancestor(rt: &HostRuntime, path: &str, end: usize) -> io::Result<()> {
    match path.split_at_checked(end) {
        Some((ancestor, rest)) if rest.starts_with('/') && !is_folder(rt, ancestor)? => {
            make_folder(rt, ancestor)
        }
        _ => Ok(()),
    }
}

/// Sees that a folder is there: makes it, and those that it lies in, where they are missing.
pub(crate) fn find_folder(rt: &HostRuntime, path: &str) -> io::Result<()> {
    if is_folder(rt, path)? {
        return Ok(());
    }
    for end in 1..path.len() {
        make_ancestor(rt, path, end)?;
    }
    make_folder(rt, path)?;
    if is_folder(rt, path)? {
        Ok(())
    } else {
        Err(ErrorKind::NotADirectory.into())
    }
}
