//! What holds of the plain values as such. A call of these functions does nothing: each of their
//! clauses is a law that is proved.

ghost use Rattle.std.specs.Prelude.{◌≡◌};
ghost use Rattle.std.specs.declared.cmp.Ordering.TheVariants.{Equal};
ghost use Rattle.sky_base.specs.Limits.{max_name_bytes, max_gids};
ghost use Rattle.sky_base.specs.Order.{name_order, moment_order};
ghost use Rattle.sky_base.specs.declared.moment.Moment.{Moment};
ghost use Rattle.sky_base.specs.declared.object.SegName.{SegName};
ghost use Rattle.sky_base.specs.NameText.{IsNumbered, name_text};

use crate::cred::Gids;
use crate::moment::Moment;
use crate::name::Name;
use crate::object::SegName;

/// The limits that the code has are those of the definitions.
pub fn limits_are_as_defined()
    ensures name { Name.MAX ≡ max_name_bytes }
    ensures gids { Gids.MAX ≡ max_gids }
{}

/// Names in the cloud are ordered by their directory, run, number and kind, and two that are different
/// never tie.
pub fn names_are_ordered()
    ensures order { (a b : SegName) → ⟦<SegName as Ord>⟧.cmp a b ≡ name_order a b }
    ensures apart { (a b : SegName) → name_order a b ≡ Equal → a ≡ b }
{}

/// Moments are ordered by their seconds, and then by their nanoseconds.
pub fn moments_are_ordered()
    ensures order { (a b : Moment) → ⟦<Moment as Ord>⟧.cmp a b ≡ moment_order a b }
    ensures apart { (a b : Moment) → moment_order a b ≡ Equal → a ≡ b }
{}

/// A text is that of at most one name whose numbers are below the limit.
pub fn texts_are_of_one_name()
    ensures { (a b : SegName) → IsNumbered a → IsNumbered b → name_text a ≡ name_text b → a ≡ b }
{}
