//! What holds of the definitions as such. A call of these functions does nothing: each of their clauses is a law that is proved.

ghost use Rattle.std.specs.Prelude.{◌≡◌, ℕ, ◌+◌, ◌*◌, ◌≤◌, List, Ok, replicate};
ghost use Rattle.std.specs.FinMap.{empty};
ghost use Rattle.sky_base.specs.Limits.{max_volume};
ghost use Rattle.sky_journal.specs.Journal.{JournalView};
ghost use Rattle.sky_nfs.specs.History.{History, history_length, last_tree};
ghost use Rattle.sky_nfs.specs.Tree.{empty_tree};
ghost use Rattle.sky_outside.specs.CloudMap.{CloudMap};
ghost use Rattle.sky_sound.specs.Boot.{claimed};
ghost use Rattle.sky_sound.specs.Cloud.{HasNoCheckpoint, checkpoint_in, epoch_after};
ghost use Rattle.sky_sound.specs.Recovery.{history_of, FindsSame, IsSound, recovered};
ghost use Rattle.sky_sound.specs.Settled.{settled};

use sky_nfs::valid_trees_stay_valid;

/// A disk of zeros that has room for two areas, and a cloud with no objects, are a sound site of each volume: no change was made,
/// and the tree is the empty one.
pub fn a_blank_site_is_sound()
    ensures sound { (volume size bytes : ℕ) → volume ≤ max_volume → 2 * size ≤ bytes
        → IsSound volume size (replicate bytes 0) empty }
    ensures found { (volume size bytes : ℕ) → 2 * size ≤ bytes
        → recovered volume size (replicate bytes 0) empty ≡ Ok (record { length = 0; tree = empty_tree volume }) }
{
    valid_trees_stay_valid();
}

/// What recovery finds is the length of the history that the site stands for, and the tree that it leads to.
pub fn history_is_what_is_recovered()
    ensures { (volume size : ℕ) (image : List ℕ) (objects : CloudMap) (history : History)
        → history_of volume size image objects ≡ Ok history
        → recovered volume size image objects ≡ Ok (record { length = history_length history; tree = last_tree history }) }
{}

/// A site whose cloud lists a checkpoint of the proxy is not sound, as checkpoints are not read yet.
pub fn a_sound_site_has_no_checkpoint()
    ensures { (volume size : ℕ) (image : List ℕ) (objects : CloudMap) → IsSound volume size image objects → HasNoCheckpoint objects }
{}

/// Once the boot object of the next epoch was put, the next epoch is one more; no checkpoint is listed that was not; and a sound
/// site stays sound, and recovery finds the same.
pub fn a_boot_object_claims_its_epoch()
    ensures epoch { (objects : CloudMap) → epoch_after (claimed objects) ≡ epoch_after objects + 1 }
    ensures checkpoint { (objects : CloudMap) → checkpoint_in (claimed objects) ≡ checkpoint_in objects }
    ensures sound { (volume size : ℕ) (image : List ℕ) (objects : CloudMap) → IsSound volume size image objects
        → FindsSame volume size image objects image (claimed objects) }
{}

/// What an opening leaves of a journal is left as it is by the next one, where the same entries are kept elsewhere.
pub fn a_settled_journal_stays()
    ensures { (covers : ℕ) (read : JournalView) → settled covers (settled covers read) ≡ settled covers read }
{}
