//! What holds of directories as such. A call of these functions does nothing: each of their clauses is a law that is
//! proved.

ghost use Rattle.std.specs.Prelude.{◌≡◌, ◌≤◌, ◌⊎◌, All, Contains, List};
ghost use Rattle.std.specs.List.Sorted.{IsStrictlyIncreasing};
ghost use Rattle.sky_base.specs.Limits.{max_cookie, max_directory_bytes};
ghost use Rattle.sky_base.specs.Listing.{Entry, Listing};
ghost use Rattle.sky_dir.specs.Commands.{Command, after_all, cookies_given};
ghost use Rattle.sky_dir.specs.Orderly.{AscendsBelow};

use crate::entries::Entries;

/// The limits that the code has are those of the definitions.
pub fn limits_are_as_defined()
    ensures size { Entries.MAX ≡ max_directory_bytes }
    ensures cookie { Entries.MAX_COOKIE ≡ max_cookie }
{}

/// No cookie is used again, whatever is added and removed: each cookie that is given out is above all before it.
/// And where each cookie is below all behind it and below the next one, none ever comes to stand for another entry.
pub fn no_cookie_is_used_again()
    // Each cookie stays below all behind it and below the next one.
    ensures ascends { (l : Listing) (commands : List Command) → AscendsBelow l.next_cookie l.entries
        → AscendsBelow (after_all l commands).next_cookie (after_all l commands).entries }

    // None that is given out was used before, and no two are the same.
    ensures fresh { (l : Listing) (commands : List Command) → All (λ c. l.next_cookie ≤ c) (cookies_given l commands) }
    ensures once { (l : Listing) (commands : List Command) → IsStrictlyIncreasing (cookies_given l commands) }

    // An entry of the end was there, as it is, or has one of the cookies that were given out.
    ensures origin { (l : Listing) (commands : List Command) (e : Entry) → Contains (after_all l commands).entries e
        → Contains l.entries e ⊎ Contains (cookies_given l commands) e.cookie }

    // A cookie that stands at the beginning and at the end stands for the same entry.
    ensures same { (l : Listing) (commands : List Command) (d e : Entry) → AscendsBelow l.next_cookie l.entries
        → Contains l.entries d → Contains (after_all l commands).entries e → e.cookie ≡ d.cookie → e ≡ d }
{}
