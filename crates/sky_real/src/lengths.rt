//! The lengths of a folder's objects.

ghost use Rattle.std.specs.Prelude.{◌≡◌, [], length, map, All, IfOk};
ghost use Rattle.std.specs.List.Sorted.{IsStrictlySortedBy};
ghost use Rattle.sky_base.specs.NameText.{IsNumbered};
ghost use Rattle.sky_base.specs.Order.{name_order};

use sky_base::SegName;
use sky_outside::Held;
use std::alloc::Global;
use std::collections::BTreeMap;
use std::io;
use std::marker::Model;

/// Lengths of objects under their names.
#[derive(Drop)]
pub(crate) struct Lengths {
    held: BTreeMap<SegName, u64>,
}

impl Model for Lengths {
    ghost use Rattle.std.specs.Prelude.{List, ℕ, All};
    ghost use Rattle.std.specs.Map.{keys_of};
    ghost use Rattle.sky_base.specs.declared.object.SegName.{SegName};
    ghost use Rattle.sky_base.specs.NameText.{IsNumbered};

    ghost Value = { List (SegName × ℕ) };

    ghost view = { λ l. l.held.entries };

    ghost invariant = { λ l. All IsNumbered (keys_of l.held.entries) };
}

impl Lengths {
    /// No objects.
    pub(crate) fn new(alloc: Global) -> Lengths
        ensures { result ≡ [] }
    {
        Lengths {
            held: BTreeMap::new(alloc),
        }
    }

    /// Notes an object. Of one that is noted twice the later length is kept.
    ///
    /// `OutOfMemory`: there was no memory for it.
    pub(crate) fn note(&mut self, name: SegName, length: u64) -> io::Result<()>
        requires { IsNumbered name }
    {
        self.held.insert(name, length)?;
        Ok(())
    }

    /// The names and lengths, in the order of the names.
    ///
    /// `OutOfMemory`: there was no memory for the list.
    pub(crate) fn to_list(&self, alloc: Global) -> io::Result<Vec<Held>>
        ensures numbered { IfOk result (λ held. All (λ h. IsNumbered h.name) held.items) }
        ensures ascending { IfOk result
            (λ held. IsStrictlySortedBy name_order (map (λ h. h.name) held.items)) }
    {
        let mut listed = Vec::with_capacity(alloc, self.held.len())?;
        for (name, length) in &self.held {
            listed.push(Held {
                name: *name,
                length: *length,
            })?;
        }
        Ok(listed)
    }
}
