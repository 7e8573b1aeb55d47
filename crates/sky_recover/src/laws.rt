//! What holds of each opening: a function with nothing to do, whose clause is the law.

ghost use Rattle.std.specs.Prelude.{◌≡◌, ℕ, List, Some};
ghost use Rattle.sky_outside.specs.CloudMap.{CloudMap};
ghost use Rattle.sky_recover.specs.Opening.{Found, IsFoundOn, SameButMemory};

use sky_outside::Site;

/// A site that tells what its disk and its cloud have is found in one way: two openings of the same volume that are found there have the same
/// epoch, the same history, and the same journal, apart from how much memory it has. So an opening chooses nothing, and neither do the
/// answers that follow it.
pub fn a_site_is_found_in_one_way<S: Site>(site: &S)
    ensures { (volume size : ℕ) (image : List ℕ) (objects : CloudMap) (one two : Found)
        → S.image site.now ≡ Some image → S.objects site.now ≡ Some objects
        → IsFoundOn S.Storage volume size site.now one → IsFoundOn S.Storage volume size site.now two → SameButMemory one two }
{}
