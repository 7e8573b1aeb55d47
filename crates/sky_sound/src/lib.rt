//! What recovery finds on a site, and which sites are sound.
//!
//! The definitions are in `specs/`: `Cloud.antt` says which epochs and checkpoints a cloud shows and what it holds of a volume,
//! `Boot.antt` by which object an epoch is claimed, `Entries.antt` which changes the journal of a disk has, `Settled.antt` how an opening leaves
//! the journal's areas (`settled`), `Recovery.antt` what recovery finds (`recovered`), the history that a site stands for at the start
//! (`history_of`), and which sites are sound (`IsSound`), and `Refusal.antt` why nothing is found.
#![tactic(auto)]

mod laws;

pub use laws::{
    a_blank_site_is_sound, a_boot_object_claims_its_epoch, a_settled_journal_stays,
    a_sound_site_has_no_checkpoint, history_is_what_is_recovered,
};
