//! What holds of usage as such. A call of this function does nothing: each of its clauses is a law that is proved.

ghost use Rattle.std.specs.Prelude.{◌≡◌, ◌+◌, ◌≤◌, List, min};
ghost use Rattle.std.specs.FinMap.{empty};
ghost use Rattle.std.specs.List.Sorted.{IsPermutation};
ghost use Rattle.sky_base.specs.declared.object.SegName.{SegName};
ghost use Rattle.sky_base.specs.declared.place.Location.{Location};
ghost use Rattle.sky_usage.specs.LiveBytes.{HasNoZero, LiveBytes, counted, live_bytes, lowered_by_all, max_counted, raised_by_all};

/// Usage counts what the locations that are in use say, whatever came first.
pub fn usage_is_a_sum()
    // Once the locations of a list are in use, each name counts the sum of its lengths, or the most that is counted.
    ensures sum { (all : List Location) (name : SegName)
        → counted (raised_by_all empty all) name ≡ min (live_bytes all name) max_counted }

    // Their order is nothing to it.
    ensures order { (xs ys : List Location) → IsPermutation xs ys
        → raised_by_all empty ys ≡ raised_by_all empty xs }

    // Once they aren't any more, in this order or another, all is as it was, where no count passed the most.
    ensures back { (usage : LiveBytes) (xs ys : List Location) → HasNoZero usage → IsPermutation xs ys
        → ((name : SegName) → counted usage name + live_bytes xs name ≤ max_counted)
        → lowered_by_all (raised_by_all usage xs) ys ≡ usage }
{}
