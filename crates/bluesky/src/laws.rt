//! What is true of every recording: a function with nothing to do, whose clause is the law.

ghost use Rattle.std.specs.Prelude.{ℕ, List, ◌*◌, ◌≤◌, replicate};
ghost use Rattle.std.specs.FinMap.{empty};
ghost use Rattle.sky_sound.specs.Recovery.{IsSound};
ghost use Rattle.sky_settings.specs.Settings.{default_fields};
ghost use Rattle.bluesky.specs.Run.{HasOneReading};

use sky_sound::a_blank_site_is_sound;

/// Each recording is read in one way, so that the frames, the answers and the status of a run are
/// determined by the bytes alone; and each list of bytes is so read.
#[tactic(auto, using(crate::proofs::Existing::has_one_reading))]
pub fn each_recording_has_one_reading()
    ensures { (bytes : List ℕ) → HasOneReading bytes }
{}

/// A disk of zeros that has room for the two areas of a journal, and a cloud with no objects, are a sound site: a run can open it.
pub fn a_blank_site_can_be_opened()
    ensures { (bytes : ℕ) → 2 * default_fields.journal_area ≤ bytes → IsSound default_fields.volume default_fields.journal_area (replicate bytes 0) empty }
{
    a_blank_site_is_sound();
}
