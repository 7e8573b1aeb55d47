//! What holds of checkpoints and listings as such. A call of these functions does nothing: each of their clauses is a law that is
//! proved.

ghost use Rattle.std.specs.Prelude.{◌≡◌, IfNone, IfSome, List, Some};
ghost use Rattle.sky_base.specs.declared.object.SegName.{SegName};
ghost use Rattle.sky_item.specs.Items.{IsItem};
ghost use Rattle.sky_item.specs.declared.item.Item.{Item};
ghost use Rattle.sky_outside.specs.declared.site.Held.{Held};
ghost use Rattle.sky_checkpoint.specs.Checks.{IsOrderly, check_in, item_of_check};
ghost use Rattle.sky_checkpoint.specs.Listing.{IsLast, ProxyChecks, last_checkpoint};
ghost use Rattle.sky_checkpoint.specs.declared.check.Check.{Check};

/// A checkpoint is the one that its item is, and each item of the format has its pages in order.
pub fn checkpoints_come_back()
    ensures check { (check : Check) → check_in (item_of_check check) ≡ Some check }
    ensures orderly { (item : Item) → IsItem item → IsOrderly item }
{}

/// The last checkpoint of a listing is in it, and none of the proxy that is listed is behind it; there is none exactly where no
/// checkpoint of the proxy is listed.
pub fn the_last_checkpoint_is_the_greatest()
    ensures last { (listed : List Held) → IfSome (last_checkpoint listed) (IsLast (ProxyChecks listed)) }
    ensures none { (listed : List Held) → IfNone (last_checkpoint listed) ((name : SegName) → ¬ (ProxyChecks listed name)) }
{}
