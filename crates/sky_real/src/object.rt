//! The objects of a folder. Each lies at the path that is the text of its name, as `p/0000000000000001/0000000000000002.k`.

ghost use Rattle.std.specs.Prelude.{◌≡◌, ◌↔◌, ◌+◌, ◌≤◌, ◌++◌, length, string_bytes, IfErr, IfSome, IsOk, OnOk};
ghost use Rattle.sky_base.specs.NameText.{IsNumbered};
ghost use Rattle.sky_real.specs.FileSite.{object_path, ShortIsShort};

use crate::folder::{find_folder, folder_of, is_folder, make_folder, sync_folder};
use crate::lengths::Lengths;
use sky_base::{Dir, SegName, Text};
use sky_outside::GetFault;
use std::fs::File;
use std::io::{ErrorKind, Write};
use std::os::unix::fs::FileExt;
use std::{fs, io};

/// What a file that isn't whole yet has behind the name of its object. So its path is that of no name.
const UNFINISHED: &str = ".new";

/// A folder of objects, with the memory for the paths in it.
#[derive(Drop)]
pub(crate) struct Folder {
    rt: HostRuntime,
    path: Text,
    /// The path of the object that a call is for.
    object: String,
    /// That of the file that it is written to first.
    beside: String,
    /// The directory and the run of the last put, whose folders are there and last.
    ready: Option<(Dir, u64)>,
}

/// Writes the path of an object.
fn write_path(path: &mut String, folder: &str, name: SegName) -> io::Result<()>
    ensures { OnOk result (string_bytes path.new ≡ object_path folder.now name) }
{
    let bytes = name.to_text();
    let Ok(text) = str::from_utf8(&bytes) else {
        return Err(ErrorKind::InvalidData.into());
    };
    path.clear();
    path.push_str(folder)?;
    path.push_str("/")?;
    path.push_str(text)?;
    Ok(())
}

/// Whether so many bytes from an offset on lie within an object. `Short` exactly where they don't.
fn look_within(held: u64, offset: u64, count: usize) -> Result<(), GetFault>
    ensures within { IsOk result ↔ offset + count ≤ held }
    ensures short { IfErr result (λ fault. fault ≡ GetFault.Short held) }
{
    if offset <= held && count as u64 <= held - offset {
        Ok(())
    } else {
        Err(GetFault::Short { held })
    }
}

/// Reads a part of an object's file. A path at which no file lies has no object.
fn read_part(file: &File, offset: u64, buf: &mut [u8]) -> Result<(), GetFault>
    ensures { ShortIsShort offset (length buf.old) result }
{
    let Ok(found) = file.metadata() else {
        return Err(GetFault::Failed);
    };
    if !found.is_file() {
        return Err(GetFault::Missing);
    }
    look_within(found.len(), offset, buf.len())?;
    match file.read_exact_at(buf, offset) {
        Ok(()) => Ok(()),
        Err(_) => Err(GetFault::Failed),
    }
}

/// Writes a new file, whose bytes last.
fn write_file(rt: &HostRuntime, path: &str, bytes: &[u8]) -> io::Result<()> {
    let mut file = File::create(rt, path)?;
    file.write_all(bytes)?;
    file.sync_all()
}

/// The part of a path that is behind a folder's.
fn behind<'a>(path: &'a str, folder: &str) -> &'a str {
    match path.strip_prefix(folder) {
        Some(rest) => rest.strip_prefix('/').unwrap_or(rest),
        None => path,
    }
}

/// Whether the objects of a run of the log may lie in this folder, as `p/0000000000000001`.
fn is_run(path: &str) -> bool {
    let mut text = *b"p/0000000000000000/0000000000000000.s";
    if path.len() != 18 {
        return false;
    }
    text[..18].copy_from_slice(path.as_bytes());
    SegName::from_text(&text).is_ok()
}

/// What was found in a folder. A name that isn't UTF-8 is passed over.
fn found_in(entry: io::Result<fs::DirEntry>) -> io::Result<Option<fs::DirEntry>> {
    match entry {
        Ok(entry) => Ok(Some(entry)),
        Err(error) if error.kind() == ErrorKind::InvalidFilename => Ok(None),
        Err(error) => Err(error),
    }
}

/// The length of a file, or of the one that a link leads to. `None` where no file is there.
fn file_length(rt: &HostRuntime, path: &str) -> io::Result<Option<u64>> {
    match fs::metadata(rt, path) {
        Ok(found) if found.is_file() => Ok(Some(found.len())),
        Ok(_) => Ok(None),
        Err(error) if error.kind() == ErrorKind::NotFound => Ok(None),
        Err(error) => Err(error),
    }
}

/// The name of the object that lies at a path of the folder, if it is one.
fn name_at(path: &str, folder: &str) -> Option<SegName>
    ensures { IfSome result IsNumbered }
{
    match SegName::from_text(behind(path, folder).as_bytes()) {
        Ok(name) => Some(name),
        Err(_) => None,
    }
}

/// Notes an object that lies at a path of the folder. What isn't one is passed over.
fn note_object(
    rt: &HostRuntime,
    folder: &str,
    path: &str,
    lengths: &mut Lengths,
) -> io::Result<()> {
    if let Some(name) = name_at(path, folder)
        && let Some(length) = file_length(rt, path)?
    {
        lengths.note(name, length)?;
    }
    Ok(())
}

/// Notes the objects of a run.
fn note_run(rt: &HostRuntime, folder: &str, run: &str, lengths: &mut Lengths) -> io::Result<()> {
    for entry in fs::read_dir(rt, run)? {
        if let Some(entry) = found_in(entry)? {
            note_object(rt, folder, entry.path().as_str(), lengths)?;
        }
    }
    Ok(())
}

/// Notes the objects of a directory. What isn't the folder of a run is passed over.
fn note_dir(rt: &HostRuntime, folder: &str, dir: &str, lengths: &mut Lengths) -> io::Result<()> {
    if !is_folder(rt, dir)? {
        return Ok(());
    }
    for entry in fs::read_dir(rt, dir)? {
        let Some(entry) = found_in(entry)? else {
            continue;
        };
        let path = entry.path();
        if is_run(behind(path.as_str(), folder)) && is_folder(rt, path.as_str())? {
            note_run(rt, folder, path.as_str(), lengths)?;
        }
    }
    Ok(())
}

impl Folder {
    /// The folder at a path, which is made if it is missing.
    pub(crate) fn open(rt: &HostRuntime, path: Text) -> io::Result<Folder> {
        find_folder(rt, path.as_str())?;
        let room = path
            .as_str()
            .len()
            .saturating_add(1 + SegName::TEXT + UNFINISHED.len());
        Ok(Folder {
            rt: *rt,
            object: String::with_capacity(rt.alloc(), room)?,
            beside: String::with_capacity(rt.alloc(), room)?,
            path,
            ready: None,
        })
    }

    /// Turns to an object. It needs no memory: there is room for each path.
    fn aim(&mut self, name: SegName) -> io::Result<()>
        ensures object { OnOk result (string_bytes self.new.object ≡ object_path self.old.path name) }
        ensures beside { OnOk result
            (string_bytes self.new.beside ≡ object_path self.old.path name ++ UNFINISHED.now) }
        ensures path { self.new.path ≡ self.old.path }
    {
        write_path(&mut self.object, self.path.as_str(), name)?;
        write_path(&mut self.beside, self.path.as_str(), name)?;
        self.beside.push_str(UNFINISHED)?;
        Ok(())
    }

    /// That the folder itself is there. Where it is gone, as one that is no longer mounted, nothing can be said of its
    /// objects.
    fn is_there(&self) -> bool {
        matches!(is_folder(&self.rt, self.path.as_str()), Ok(true))
    }

    /// Makes the folders that the object lies in, where they are missing, and sees that their names last.
    fn make_way(&self) -> io::Result<()> {
        let run = folder_of(self.object.as_str());
        make_folder(&self.rt, folder_of(run))?;
        make_folder(&self.rt, run)
    }

    /// Writes the object beside its place, and then puts it there, whole.
    fn replace(&self, bytes: &[u8]) -> io::Result<()> {
        let beside = self.beside.as_str();
        let written = match write_file(&self.rt, beside, bytes) {
            Ok(()) => fs::rename(&self.rt, beside, self.object.as_str()),
            Err(error) => Err(error),
        };
        if written.is_err() {
            let _no_longer_needed = fs::remove_file(&self.rt, beside);
        }
        written?;
        sync_folder(&self.rt, folder_of(self.object.as_str()))
    }

    /// Stores an object in the place of what had that name. It lasts through a loss of power.
    pub(crate) fn put(&mut self, name: SegName, bytes: &[u8]) -> io::Result<()> {
        let run = Some((name.dir, name.run));
        let was_ready = self.ready == run;
        self.ready = None;
        self.aim(name)?;
        if !was_ready {
            self.make_way()?;
        }
        self.replace(bytes)?;
        self.ready = run;
        Ok(())
    }

    /// Fills the buffer with the object's bytes from this offset on.
    pub(crate) fn get(&mut self, name: SegName, offset: u64, buf: &mut [u8]) -> Result<(), GetFault>
        ensures { ShortIsShort offset (length buf.old) result }
    {
        if self.aim(name).is_err() {
            return Err(GetFault::Failed);
        }
        match File::open(&self.rt, self.object.as_str()) {
            Ok(file) => read_part(&file, offset, buf),
            Err(error) if error.kind() == ErrorKind::NotFound && self.is_there() => {
                Err(GetFault::Missing)
            }
            Err(_) => Err(GetFault::Failed),
        }
    }

    /// Removes an object, or does nothing where none has that name. Its absence lasts.
    pub(crate) fn remove(&mut self, name: SegName) -> io::Result<()> {
        self.aim(name)?;
        match fs::remove_file(&self.rt, self.object.as_str()) {
            Ok(()) => sync_folder(&self.rt, folder_of(self.object.as_str())),
            Err(error) if error.kind() == ErrorKind::NotFound && self.is_there() => Ok(()),
            Err(error) => Err(error),
        }
    }

    /// The names and lengths of the objects. What else lies in the folder is passed over, and needs no memory that lasts.
    pub(crate) fn lengths(&self) -> io::Result<Lengths> {
        if !self.is_there() {
            return Err(ErrorKind::NotFound.into());
        }
        let folder = self.path.as_str();
        let mut lengths = Lengths::new(self.rt.alloc());
        for letter in ["p", "c"] {
            let dir = format!(in self.rt.alloc(); "{folder}/{letter}")?;
            note_dir(&self.rt, folder, dir.as_str(), &mut lengths)?;
        }
        Ok(lengths)
    }
}
