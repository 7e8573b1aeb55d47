//! The journal's file.

ghost use Rattle.std.specs.Prelude.{◌≡◌, None, IsNone};

use crate::folder::{folder_of, sync_folder};
use sky_base::Text;
use std::fs::{File, OpenOptions};
use std::io::ErrorKind;
use std::{fs, io};

/// The journal's file, where it could be opened, and the number of bytes that it tells: the file's own, or `size`
/// where none is open. Where the file is missing it is made of `size` zeros.
pub(crate) fn journal_at(rt: &HostRuntime, path: Option<Text>, size: u64) -> (Option<File>, u64)
    ensures unnamed { path ≡ None → IsNone result.0 }
    ensures closed { IsNone result.0 → result.1 ≡ size }
{
    let Some(path) = path else {
        return (None, size);
    };
    match open_journal(rt, path.as_str(), size) {
        Ok((file, held)) => (Some(file), held),
        Err(_) => (None, size),
    }
}

/// Opens the journal's file, which is made if it is missing, and locks it until it is closed. Says its number of bytes.
fn open_journal(rt: &HostRuntime, path: &str, size: u64) -> io::Result<(File, u64)> {
    if !fs::exists(rt, path)? {
        make_journal(rt, path, size)?;
    }
    let file = OpenOptions::new().read(true).write(true).open(rt, path)?;
    // Two proxies on one journal would lose what each of them wrote.
    file.try_lock()?;
    let found = file.metadata()?;
    if !found.is_file() {
        return Err(ErrorKind::Unsupported.into());
    }
    sync_folder(rt, folder_of(path))?;
    Ok((file, found.len()))
}

/// Makes a file of zeros, which has this name only once it is whole: it is made beside it, and then linked to the name.
/// A file that another process made in the meantime is left as it is.
fn make_journal(rt: &HostRuntime, path: &str, size: u64) -> io::Result<()> {
    let beside = format!(in rt.alloc(); "{path}.making")?;
    let _left_lying = fs::remove_file(rt, beside.as_str());
    let made = make_zeros(rt, beside.as_str(), size);
    let linked = match made {
        Ok(()) => fs::hard_link(rt, beside.as_str(), path),
        Err(error) => Err(error),
    };
    let _no_longer_needed = fs::remove_file(rt, beside.as_str());
    match linked {
        Err(error) if error.kind() == ErrorKind::AlreadyExists => Ok(()),
        other => other,
    }
}

/// Makes a new file of zeros, which take no room until they are written over.
fn make_zeros(rt: &HostRuntime, path: &str, size: u64) -> io::Result<()> {
    let file = File::create_new(rt, path)?;
    file.set_len(size)?;
    file.sync_all()
}
