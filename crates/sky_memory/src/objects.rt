//! The objects of a cloud in memory.

ghost use Rattle.std.specs.Prelude.{◌≡◌, cond, [], length, map, All, OnOk, OnErr, IfOk, IsErrOf};
ghost use Rattle.std.specs.Option.{option_map};
ghost use Rattle.std.specs.List.Sorted.{IsStrictlySortedBy};
ghost use Rattle.sky_base.specs.Order.{name_order};

use sky_base::{NoMemory, SegName};
use sky_outside::{GetFault, Held};
use std::alloc::Global;
use std::collections::BTreeMap;
use std::marker::Model;

/// Objects under their names.
#[derive(Drop)]
pub struct Objects {
    held: BTreeMap<SegName, Vec<u8>>,
}

impl Model for Objects {
    ghost use Rattle.std.specs.Prelude.{List, ℕ, All, map};
    ghost use Rattle.std.specs.Map.{keys_of};
    ghost use Rattle.sky_base.specs.declared.object.SegName.{SegName};
    ghost use Rattle.sky_memory.specs.Objects.{IsInRange};

    ghost Value = { List (SegName × List ℕ) };

    ghost view = { λ o. map (λ e. (e.0, e.1.items)) o.held.entries };

    ghost invariant = { λ o. All IsInRange (keys_of o.held.entries) };
}

impl Objects {
    ghost use Rattle.std.specs.FinMap.{get as found};
    ghost use Rattle.sky_memory.specs.Objects.{IsInRange, map_of, pairs_of};
    ghost use Rattle.sky_outside.specs.CloudMap.{after_put, after_removal, Looks, listing};

    /// No objects.
    pub fn new(alloc: Global) -> Objects
        ensures { result ≡ [] }
    {
        Objects {
            held: BTreeMap::new(alloc),
        }
    }

    /// The bytes of an object, where one of that name is held.
    pub fn get(&self, name: SegName) -> Option<&Vec<u8>>
        ensures { option_map (λ object. object.now.items) result ≡ found (map_of self.now) name }
    {
        self.held.get(&name)
    }

    /// Fills the buffer with the object's bytes from this offset on. `Missing` says that no object has
    /// that name, and `Short` that the range goes past the object's end; neither comes otherwise, and
    /// both leave the buffer.
    pub fn look(&self, name: SegName, offset: u64, buf: &mut [u8]) -> Result<(), GetFault>
        ensures looks { Looks (map_of self.now) name offset (length buf.old) buf.new result }
        ensures sure { ¬ (IsErrOf result GetFault.Failed) }
        ensures err { OnErr result (buf.new ≡ buf.old) }
    {
        let Some(object) = self.get(name) else {
            return Err(GetFault::Missing);
        };
        let held = object.len() as u64;
        if offset > held || buf.len() as u64 > held - offset {
            return Err(GetFault::Short { held });
        }
        let start = offset as usize;
        buf.copy_from_slice(&object[start..start + buf.len()]);
        Ok(())
    }

    /// Stores a copy of the bytes, in the place of what had that name.
    pub fn put(&mut self, alloc: Global, name: SegName, bytes: &[u8]) -> Result<(), NoMemory>
        requires { IsInRange name }
        ensures ok { OnOk result (map_of self.new ≡ after_put name bytes.now (map_of self.old)) }
        ensures err { OnErr result (self.new ≡ self.old) }
    {
        self.held.insert(name, bytes.to_vec(alloc)?)?;
        Ok(())
    }

    /// The names and lengths, in the order of the names.
    pub fn list(&self, alloc: Global) -> Result<Vec<Held>, NoMemory>
        ensures objects { IfOk result (λ held. held.items ≡ listing (map_of self.now)) }
        ensures in_range { IfOk result (λ held. All (λ h. IsInRange h.name) held.items) }
        ensures ascending { IfOk result
            (λ held. IsStrictlySortedBy name_order (map (λ h. h.name) held.items)) }
    {
        let mut listed = Vec::with_capacity(alloc, self.held.len())?;
        for (name, bytes) in &self.held {
            listed.push(Held {
                name: *name,
                length: bytes.len() as u64,
            })?;
        }
        Ok(listed)
    }

    /// Removes an object, or does nothing where none has that name.
    pub fn remove(&mut self, name: SegName)
        ensures { map_of self.new ≡ after_removal name (map_of self.old) }
    {
        let _ = self.held.remove(&name);
    }

    /// These objects. Of several with one name the first is held.
    pub fn of(alloc: Global, held: &[(SegName, Vec<u8>)]) -> Result<Objects, NoMemory>
        requires { All (λ o. IsInRange o.0) held.now }
        ensures { IfOk result (λ objects. map_of objects ≡ map_of (pairs_of held.now)) }
    {
        let mut objects = Objects::new(alloc);
        let mut left = held.len();
        while left > 0 {
            left -= 1;
            let (name, bytes) = &held[left];
            objects.put(alloc, *name, bytes)?;
        }
        Ok(objects)
    }

    /// Stores an object, if the call that asks for it happened.
    pub fn put_if(
        &mut self,
        alloc: Global,
        name: SegName,
        bytes: &[u8],
        happened: bool,
    ) -> Result<(), NoMemory>
        requires { IsInRange name }
        ensures ok { OnOk result
            (map_of self.new ≡ cond happened (after_put name bytes.now (map_of self.old)) (map_of self.old)) }
        ensures err { OnErr result (self.new ≡ self.old) }
    {
        if happened {
            self.put(alloc, name, bytes)?;
        }
        Ok(())
    }

    /// Removes an object, if the call that asks for it happened.
    pub fn remove_if(&mut self, name: SegName, happened: bool)
        ensures { map_of self.new ≡ cond happened (after_removal name (map_of self.old)) (map_of self.old) }
    {
        if happened {
            self.remove(name);
        }
    }

    /// The names and bytes, in the order of the names.
    pub fn to_pairs(&self, alloc: Global) -> Result<Vec<(SegName, Vec<u8>)>, NoMemory>
        ensures objects { IfOk result (λ pairs. pairs_of pairs.items ≡ self.now) }
        ensures in_range { IfOk result (λ pairs. All (λ o. IsInRange o.0) pairs.items) }
    {
        let mut pairs = Vec::with_capacity(alloc, self.held.len())?;
        for (name, bytes) in &self.held {
            pairs.push((*name, bytes.to_vec(alloc)?))?;
        }
        Ok(pairs)
    }
}
