//! The entries of the journal: those of changes.

ghost use Rattle.sky_sound.specs.Entries.{is_of_change};

use sky_base::NoMemory;
use sky_entry::{EntryFault, read_entry};
use sky_journal::Grammar;
use std::alloc::Global;

/// The grammar of a journal whose entries are those of changes.
#[derive(Drop)]
pub(crate) struct ChangeGrammar;

impl Grammar for ChangeGrammar {
    ghost is_entry = { is_of_change };

    fn spells(&mut self, alloc: Global, entry: &[u8]) -> Result<bool, NoMemory> {
        match read_entry(alloc, entry) {
            Ok(found) => Ok(found.1 == entry.len()),
            Err(EntryFault::Bad) => Ok(false),
            Err(EntryFault::Memory) => Err(NoMemory),
        }
    }
}
