//! Files and folders that a row makes, shows and clears away.

use crate::asks::bytes_of;
use std::alloc::Global;
use std::{fs, io};

/// How a call went.
fn plainly(alloc: Global, done: io::Result<()>) -> Option<String> {
    match done {
        Ok(()) => String::from_str(alloc, "ok").ok(),
        Err(_) => String::from_str(alloc, "failed").ok(),
    }
}

/// Writes a file: `PATH BYTES`.
fn write(rt: &HostRuntime, words: &str) -> Option<String> {
    let alloc = rt.alloc();
    let (path, digits) = words.split_once(' ')?;
    let bytes = bytes_of(alloc, digits)?;
    plainly(alloc, fs::write(rt, path, bytes.as_slice()))
}

/// The bytes of a file.
fn show(rt: &HostRuntime, path: &str) -> Option<String> {
    let alloc = rt.alloc();
    match fs::read(rt, path) {
        Ok(bytes) => hex::encode(alloc, bytes.as_slice()).ok(),
        Err(_) => String::from_str(alloc, "failed").ok(),
    }
}

/// Whether something is at a path.
fn there(rt: &HostRuntime, path: &str) -> Option<String> {
    let alloc = rt.alloc();
    match fs::exists(rt, path) {
        Ok(there) => format!(in alloc; "{there}").ok(),
        Err(_) => String::from_str(alloc, "failed").ok(),
    }
}

/// How many bytes a file has.
fn length(rt: &HostRuntime, path: &str) -> Option<String> {
    let alloc = rt.alloc();
    match fs::metadata(rt, path) {
        Ok(metadata) => {
            let length = metadata.len();
            format!(in alloc; "{length}").ok()
        }
        Err(_) => String::from_str(alloc, "failed").ok(),
    }
}

/// Does what a row says. Nothing, where it can't be read.
pub fn done(rt: &HostRuntime, what: &str, words: &str) -> Option<String> {
    match what {
        "folder" => plainly(rt.alloc(), fs::create_dir(rt, words)),
        "file" => write(rt, words),
        "show" => show(rt, words),
        "there" => there(rt, words),
        "length" => length(rt, words),
        "clear" => plainly(rt.alloc(), fs::remove_dir_all(rt, words)),
        _ => None,
    }
}
