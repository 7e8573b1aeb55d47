//! A journal's file and a cloud's folder.

ghost use Rattle.std.specs.Prelude.{◌≡◌, ◌<◌, ◌+◌, ◌≤◌, None, false, length, map, All, IfOk, IsErr, IsErrOf};
ghost use Rattle.std.specs.List.Sorted.{IsStrictlySortedBy};
ghost use Rattle.sky_base.specs.Limits.{max_number};
ghost use Rattle.sky_base.specs.NameText.{IsNumbered};
ghost use Rattle.sky_base.specs.Order.{name_order};
ghost use Rattle.sky_outside.specs.Count.{Counts};
ghost use Rattle.sky_real.specs.FileSite.{ShortIsShort};

use crate::faults::{counted, counted_get, counted_put};
use crate::journal::journal_at;
use crate::object::Folder;
use sky_base::{Paths, SegName, Text};
use sky_outside::{Cloud, Disk, Failed, GetFault, Held, PutFault, Site, Storage};
use std::fs::File;
use std::io;
use std::io::ErrorKind;
use std::marker::Model;
use std::os::unix::fs::FileExt;

/// A journal's file as the disk, and a folder as the cloud. It tells nothing of what they hold.
///
/// While the file is open it is locked, and no other `FileSite` opens it.
#[derive(Drop)]
pub struct FileSite {
    rt: HostRuntime,
    journal: Option<File>,
    size: u64,
    disk_faults: u64,
    folder: Option<Folder>,
    cloud_faults: u64,
}

impl Model for FileSite {
    ghost use Rattle.std.specs.Prelude.{is_some};
    ghost use Rattle.sky_real.specs.FileSite.{FileSiteState};

    ghost Value = { FileSiteState };

    ghost view = { λ s. record {
      size = s.size;
      is_open = is_some s.journal;
      has_folder = is_some s.folder;
      disk_faults = s.disk_faults;
      cloud_faults = s.cloud_faults;
    } };
}

/// The folder of the cloud's objects, where it was there or could be made.
fn folder_at(rt: &HostRuntime, path: Option<Text>) -> Option<Folder>
    ensures { path ≡ None → result ≡ None }
{
    match Folder::open(rt, path?) {
        Ok(folder) => Some(folder),
        Err(_) => None,
    }
}

/// Nothing is open to do it with.
fn closed() -> io::Result<()>
    ensures { IsErr result }
{
    Err(ErrorKind::NotFound.into())
}

impl FileSite {
    /// The journal's file and the cloud's folder that the paths name. Neither has failed yet.
    ///
    /// A journal's file that is missing is made of `size` zeros, and one that is there keeps the size that it has, which
    /// is then told. A folder that is missing is made. What isn't named, can't be made or can't be opened is closed: each
    /// call of it fails, and its count rises. So is a file that another `FileSite` has open. While the file is closed the
    /// disk's size is `size`.
    pub fn new(rt: &HostRuntime, paths: Paths, size: u64) -> FileSite
        ensures unnamed { paths.journal ≡ None → result.is_open ≡ false }
        ensures closed { result.is_open ≡ false → result.size ≡ size }
        ensures no_folder { paths.cloud ≡ None → result.has_folder ≡ false }
        ensures disk_faults { result.disk_faults ≡ 0 }
        ensures cloud_faults { result.cloud_faults ≡ 0 }
    {
        let Paths { journal, cloud, .. } = paths;
        let (journal, size) = journal_at(rt, journal, size);
        FileSite {
            rt: *rt,
            journal,
            size,
            disk_faults: 0,
            folder: folder_at(rt, cloud),
            cloud_faults: 0,
        }
    }
}

impl Storage for FileSite {
    ghost use Rattle.std.specs.Prelude.{None};

    ghost disk_faults = { λ s. s.disk_faults };

    ghost cloud_faults = { λ s. s.cloud_faults };

    ghost bytes_of = { λ s. s.size };

    ghost image = { λ _. None };

    ghost may_leave = { λ _ _. ⊥ };

    ghost moment = { λ _. 0 };

    ghost left_since = { λ _ _ _ _. ⊥ };

    ghost objects = { λ _. None };

    ghost standing = { λ _. None };

    ghost counts_now = { λ _ _ _ _ _ left _. left };

    ghost only_now = { λ _ _ _ left. absurd left };

    ghost leaves_what_is_read = { λ _ _ _. tt };

    ghost has_size = { λ _. tt };

    ghost leaves_its_size = { λ _ _ left. absurd left };
}

impl Disk for FileSite {
    /// The number of bytes of the journal's file. It never changes.
    fn size(&self) -> u64
        ensures { result ≡ self.now.size }
    {
        self.size
    }

    /// Fills the buffer from this place on.
    fn read(&mut self, at: u64, buf: &mut [u8]) -> Result<(), Failed>
        requires { at + length buf.old ≤ self.old.size }
        ensures cause { Counts self.old.disk_faults self.new.disk_faults (IsErr result) }
        ensures closed { self.old.is_open ≡ false → IsErr result }
        ensures open { self.new.is_open ≡ self.old.is_open }
        ensures size { self.new.size ≡ self.old.size }
        ensures cloud { self.new.cloud_faults ≡ self.old.cloud_faults }
        ensures folder { self.new.has_folder ≡ self.old.has_folder }
    {
        let answer = match &self.journal {
            Some(file) => file.read_exact_at(buf, at),
            None => closed(),
        };
        counted(&mut self.disk_faults, answer)
    }

    /// Writes the bytes from this place on.
    fn write_at(&mut self, at: u64, bytes: &[u8]) -> Result<(), Failed>
        requires { at + length bytes.now ≤ self.old.size }
        ensures cause { Counts self.old.disk_faults self.new.disk_faults (IsErr result) }
        ensures closed { self.old.is_open ≡ false → IsErr result }
        ensures open { self.new.is_open ≡ self.old.is_open }
        ensures size { self.new.size ≡ self.old.size }
        ensures cloud { self.new.cloud_faults ≡ self.old.cloud_faults }
        ensures folder { self.new.has_folder ≡ self.old.has_folder }
    {
        let answer = match &self.journal {
            Some(file) => file.write_all_at(bytes, at),
            None => closed(),
        };
        counted(&mut self.disk_faults, answer)
    }

    /// Syncs the data of the file.
    fn sync(&mut self) -> Result<(), Failed>
        ensures cause { Counts self.old.disk_faults self.new.disk_faults (IsErr result) }
        ensures closed { self.old.is_open ≡ false → IsErr result }
        ensures open { self.new.is_open ≡ self.old.is_open }
        ensures size { self.new.size ≡ self.old.size }
        ensures cloud { self.new.cloud_faults ≡ self.old.cloud_faults }
        ensures folder { self.new.has_folder ≡ self.old.has_folder }
    {
        let answer = match &self.journal {
            Some(file) => file.sync_data(),
            None => closed(),
        };
        counted(&mut self.disk_faults, answer)
    }
}

/// The objects of a folder, in the order of their names. `OutOfMemory` where there's no memory for the list.
fn list_of(rt: &HostRuntime, folder: &Option<Folder>) -> io::Result<Vec<Held>>
    ensures numbered { IfOk result (λ held. All (λ h. IsNumbered h.name) held.items) }
    ensures ascending { IfOk result
        (λ held. IsStrictlySortedBy name_order (map (λ h. h.name) held.items)) }
    ensures closed { folder.now ≡ None → IsErr result }
{
    let Some(folder) = folder else {
        return Err(ErrorKind::NotFound.into());
    };
    folder.lengths()?.to_list(rt.alloc())
}

impl Cloud for FileSite {
    /// Stores an object in the place of what had that name, so that it lasts through a loss of power. It takes no memory.
    fn put(&mut self, name: SegName, bytes: &[u8]) -> Result<(), PutFault>
        requires run { name.run < max_number }
        requires seq { name.seq < max_number }
        ensures cause { Counts self.old.cloud_faults self.new.cloud_faults (IsErrOf result PutFault.Failed) }
        ensures memory { ¬ (IsErrOf result PutFault.Memory) }
        ensures closed { self.old.has_folder ≡ false → IsErr result }
        ensures folder { self.new.has_folder ≡ self.old.has_folder }
        ensures size { self.new.size ≡ self.old.size }
        ensures disk { self.new.disk_faults ≡ self.old.disk_faults }
        ensures open { self.new.is_open ≡ self.old.is_open }
    {
        let answer = match &mut self.folder {
            Some(folder) => folder.put(name, bytes),
            None => closed(),
        };
        counted_put(&mut self.cloud_faults, answer)
    }

    /// Fills the buffer with the object's bytes from this offset on. `Missing` says that no file lies at the object's
    /// path.
    fn get(&mut self, name: SegName, offset: u64, buf: &mut [u8]) -> Result<(), GetFault>
        requires run { name.run < max_number }
        requires seq { name.seq < max_number }
        ensures cause { Counts self.old.cloud_faults self.new.cloud_faults (IsErrOf result GetFault.Failed) }
        ensures short { ShortIsShort offset (length buf.old) result }
        ensures closed { self.old.has_folder ≡ false → IsErrOf result GetFault.Failed }
        ensures folder { self.new.has_folder ≡ self.old.has_folder }
        ensures size { self.new.size ≡ self.old.size }
        ensures disk { self.new.disk_faults ≡ self.old.disk_faults }
        ensures open { self.new.is_open ≡ self.old.is_open }
    {
        let answer = match &mut self.folder {
            Some(folder) => folder.get(name, offset, buf),
            None => Err(GetFault::Failed),
        };
        counted_get(&mut self.cloud_faults, answer)
    }

    /// The objects of the folder, in the order of their names. `Memory` comes where there was none for the list.
    fn list(&mut self) -> Result<Vec<Held>, PutFault>
        ensures ascending { IfOk result
            (λ held. IsStrictlySortedBy name_order (map (λ h. h.name) held.items)) }
        ensures runs { IfOk result (λ held. All (λ h. h.name.run < max_number) held.items) }
        ensures seqs { IfOk result (λ held. All (λ h. h.name.seq < max_number) held.items) }
        ensures cause { Counts self.old.cloud_faults self.new.cloud_faults (IsErrOf result PutFault.Failed) }
        ensures closed { self.old.has_folder ≡ false → IsErr result }
        ensures folder { self.new.has_folder ≡ self.old.has_folder }
        ensures size { self.new.size ≡ self.old.size }
        ensures disk { self.new.disk_faults ≡ self.old.disk_faults }
        ensures open { self.new.is_open ≡ self.old.is_open }
    {
        match list_of(&self.rt, &self.folder) {
            Ok(held) => Ok(held),
            Err(error) if error.kind() == ErrorKind::OutOfMemory => Err(PutFault::Memory),
            Err(_) => {
                self.cloud_faults = self.cloud_faults.saturating_add(1);
                Err(PutFault::Failed)
            }
        }
    }
}

impl Site for FileSite {
    /// Removes an object, or does nothing where no file lies at its path.
    fn remove(&mut self, name: SegName) -> Result<(), Failed>
        requires run { name.run < max_number }
        requires seq { name.seq < max_number }
        ensures cause { Counts self.old.cloud_faults self.new.cloud_faults (IsErr result) }
        ensures closed { self.old.has_folder ≡ false → IsErr result }
        ensures folder { self.new.has_folder ≡ self.old.has_folder }
        ensures size { self.new.size ≡ self.old.size }
        ensures disk { self.new.disk_faults ≡ self.old.disk_faults }
        ensures open { self.new.is_open ≡ self.old.is_open }
    {
        let answer = match &mut self.folder {
            Some(folder) => folder.remove(name),
            None => closed(),
        };
        counted(&mut self.cloud_faults, answer)
    }
}
