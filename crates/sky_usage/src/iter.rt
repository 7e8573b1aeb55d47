//! The walk over what is counted.

ghost use Rattle.std.specs.Prelude.{◌≡◌};
ghost use Rattle.std.specs.Iterator.{YieldsFirst, item_count};

use sky_base::SegName;
use std::collections::btree_map::Iter;
use std::marker::Model;

/// Names and how many bytes of each are in use, in the order of the names. Contracts see it as the list of those that
/// are left.
#[derive(Drop)]
pub struct UsageIter<'a> {
    walk: Iter<'a, SegName, u64>,
}

impl<'a> Model for UsageIter<'a> {
    ghost use Rattle.std.specs.Prelude.{List, ℕ};
    ghost use Rattle.sky_base.specs.declared.object.SegName.{SegName};

    ghost Value = { List (SegName × ℕ) };

    ghost view = { λ a. a.walk };
}

impl<'a> UsageIter<'a> {
    /// The names and counts of a map.
    pub(crate) fn of(walk: Iter<'a, SegName, u64>) -> UsageIter<'a>
        ensures { result ≡ walk.entry }
    {
        UsageIter { walk }
    }
}

impl<'a> Iterator for UsageIter<'a> {
    type Item = (SegName, u64);

    ghost next_gives = { YieldsFirst (λ s. s) };

    ghost remaining = { item_count (λ s. s) };

    fn next(&mut self) -> Option<(SegName, u64)> {
        let (name, live) = self.walk.next()?;
        Some((*name, *live))
    }
}
