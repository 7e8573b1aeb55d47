//! A journal's disk and a cloud in memory.

ghost use Rattle.std.specs.Prelude.{◌≡◌, ◌+◌, ◌<◌, ◌≤◌, ◌↔◌, ◌++◌, [], ℕ, length, take, drop, replicate, map, All, Ok, Err, Some, None, IsOk, OnOk, OnErr, IfOk, IfErr, IsErrOf, IsSomeAnd};
ghost use Rattle.std.specs.List.Sorted.{IsStrictlySortedBy};
ghost use Rattle.sky_base.specs.Limits.{max_number};
ghost use Rattle.sky_base.specs.Order.{name_order};

use crate::objects::Objects;
use crate::past::copy_part;
use sky_base::{NoMemory, SegName};
use sky_outside::{Cloud, Disk, Failed, GetFault, Held, PutFault, Site, Storage};
use std::alloc::Global;
use std::marker::Model;

/// A journal's disk and a cloud in memory. Neither fails, and nothing outlives the value.
#[derive(Drop)]
pub struct SureSite {
    alloc: Global,
    image: Vec<u8>,
    objects: Objects,
}

impl Model for SureSite {
    ghost use Rattle.sky_memory.specs.Device.{SiteState};

    ghost Value = { SiteState };

    ghost view = { λ s. record { image = s.image.items; objects = s.objects } };
}

impl SureSite {
    /// A blank disk of this many bytes, each of them zero, and a cloud with no objects.
    ///
    /// `NoMemory`: there was no memory for the disk.
    pub fn new(alloc: Global, size: u64) -> Result<SureSite, NoMemory>
        ensures image { IfOk result (λ site. site.image ≡ replicate size 0) }
        ensures objects { IfOk result (λ site. site.objects ≡ []) }
        ensures size { IfOk result (λ site. ⟦<SureSite as Storage>⟧.bytes_of site ≡ size) }
        ensures disk_faults { IfOk result (λ site. ⟦<SureSite as Storage>⟧.disk_faults site ≡ 0) }
        ensures cloud_faults { IfOk result (λ site. ⟦<SureSite as Storage>⟧.cloud_faults site ≡ 0) }
    {
        Ok(SureSite {
            alloc,
            image: vec![in alloc; 0; size as usize]?,
            objects: Objects::new(alloc),
        })
    }
}

impl Storage for SureSite {
    ghost use Rattle.std.specs.Prelude.{length, Some, None, refl};
    ghost use Rattle.sky_memory.specs.Objects.{map_of};

    ghost disk_faults = { λ _. 0 };

    ghost cloud_faults = { λ _. 0 };

    ghost bytes_of = { λ s. length s.image };

    ghost image = { λ s. Some s.image };

    ghost may_leave = { λ _ _. ⊥ };

    ghost moment = { λ _. 0 };

    ghost left_since = { λ _ _ _ _. ⊥ };

    ghost objects = { λ s. Some (map_of s.objects) };

    ghost standing = { λ _. None };

    ghost counts_now = { λ _ _ _ _ _ left _. left };

    ghost only_now = { λ _ _ _ left. absurd left };

    ghost leaves_what_is_read = { λ _ _ left. left };

    ghost has_size = { λ _. refl };

    ghost leaves_its_size = { λ _ _ left. absurd left };
}

impl Disk for SureSite {
    /// The number of bytes. It never changes.
    fn size(&self) -> u64
        ensures { result ≡ length self.now.image }
    {
        self.image.len() as u64
    }

    /// Fills the buffer from this place on.
    fn read(&mut self, at: u64, buf: &mut [u8]) -> Result<(), Failed>
        requires { at + length buf.old ≤ length self.old.image }
        ensures sure { IsOk result }
        ensures bytes { buf.new ≡ take (length buf.old) (drop at self.old.image) }
        ensures same { self.new ≡ self.old }
    {
        copy_part(&self.image, at, buf);
        Ok(())
    }

    /// Writes the bytes from this place on.
    fn write_at(&mut self, at: u64, bytes: &[u8]) -> Result<(), Failed>
        requires { at + length bytes.now ≤ length self.old.image }
        ensures sure { IsOk result }
        ensures image { self.new.image ≡
            take at self.old.image ++ bytes.now ++ drop (at + length bytes.now) self.old.image }
        ensures objects { self.new.objects ≡ self.old.objects }
    {
        let start = at as usize;
        self.image[start..start + bytes.len()].copy_from_slice(bytes);
        Ok(())
    }

    /// Does nothing: no crash leaves any of it.
    fn sync(&mut self) -> Result<(), Failed>
        ensures sure { IsOk result }
        ensures same { self.new ≡ self.old }
    {
        Ok(())
    }
}

impl Cloud for SureSite {
    ghost use Rattle.sky_memory.specs.Objects.{map_of};
    ghost use Rattle.sky_outside.specs.CloudMap.{after_put, Looks, listing};

    /// Stores a copy of the bytes, in the place of what had that name. `Memory` changes nothing.
    fn put(&mut self, name: SegName, bytes: &[u8]) -> Result<(), PutFault>
        requires run { name.run < max_number }
        requires seq { name.seq < max_number }
        ensures stored { OnOk result
            (map_of self.new.objects ≡ after_put name bytes.now (map_of self.old.objects)) }
        ensures err { OnErr result (self.new.objects ≡ self.old.objects) }
        ensures memory { IfErr result (λ e. e ≡ PutFault.Memory) }
        ensures image { self.new.image ≡ self.old.image }
    {
        match self.objects.put(self.alloc, name, bytes) {
            Ok(()) => Ok(()),
            Err(NoMemory) => Err(PutFault::Memory),
        }
    }

    /// Fills the buffer with the object's bytes from this offset on. `Missing` says that no object has
    /// that name, and `Short` that the range goes past the object's end; neither comes otherwise, and
    /// both leave the buffer.
    fn get(&mut self, name: SegName, offset: u64, buf: &mut [u8]) -> Result<(), GetFault>
        requires run { name.run < max_number }
        requires seq { name.seq < max_number }
        ensures looks { Looks (map_of self.old.objects) name offset (length buf.old) buf.new result }
        ensures sure { ¬ (IsErrOf result GetFault.Failed) }
        ensures err { OnErr result (buf.new ≡ buf.old) }
        ensures same { self.new ≡ self.old }
    {
        self.objects.look(name, offset, buf)
    }

    /// The objects that it holds, in the order of their names. `Memory` comes where there was none for
    /// the list.
    fn list(&mut self) -> Result<Vec<Held>, PutFault>
        ensures runs { IfOk result (λ held. All (λ h. h.name.run < max_number) held.items) }
        ensures seqs { IfOk result (λ held. All (λ h. h.name.seq < max_number) held.items) }
        ensures objects { IfOk result (λ held. held.items ≡ listing (map_of self.old.objects)) }
        ensures ascending { IfOk result
            (λ held. IsStrictlySortedBy name_order (map (λ h. h.name) held.items)) }
        ensures memory { IfErr result (λ e. e ≡ PutFault.Memory) }
        ensures same { self.new ≡ self.old }
    {
        match self.objects.list(self.alloc) {
            Ok(held) => Ok(held),
            Err(NoMemory) => Err(PutFault::Memory),
        }
    }
}

impl Site for SureSite {
    ghost use Rattle.sky_memory.specs.Objects.{map_of};
    ghost use Rattle.sky_outside.specs.CloudMap.{after_removal};

    /// Removes an object, or does nothing where none has that name.
    fn remove(&mut self, name: SegName) -> Result<(), Failed>
        requires run { name.run < max_number }
        requires seq { name.seq < max_number }
        ensures sure { IsOk result }
        ensures removed { map_of self.new.objects ≡ after_removal name (map_of self.old.objects) }
        ensures image { self.new.image ≡ self.old.image }
    {
        self.objects.remove(name);
        Ok(())
    }
}
