//! Why a call of the journal did not do what it was for.

ghost use Rattle.std.specs.Prelude.{◌≡◌};
ghost use Rattle.sky_journal.specs.declared.fault.JournalFault.TheVariants.{DiskFault, Memory};

use sky_base::NoMemory;
use sky_outside::Failed;
use std::alloc::AllocError;

/// Why no journal was read.
#[derive(Clone, Copy)]
pub enum JournalFault {
    /// The disk failed.
    DiskFault,
    /// There was no memory for an entry, or for the batch to come.
    Memory,
    /// The image is not a journal of this volume.
    Foreign {
        /// The first place of the disk, in the order of reading, at which it is not one.
        at: u64,
    },
}

impl From<Failed> for JournalFault {
    ghost from_gives = { λ _ e. e ≡ DiskFault };

    fn from(_: Failed) -> JournalFault {
        JournalFault::DiskFault
    }
}

impl From<AllocError> for JournalFault {
    ghost from_gives = { λ _ e. e ≡ Memory };

    fn from(_: AllocError) -> JournalFault {
        JournalFault::Memory
    }
}

/// Why no entry was given.
#[derive(Clone, Copy)]
pub enum NextFault {
    /// The disk failed.
    DiskFault,
    /// There was no memory for the entry.
    Memory,
}

impl From<Failed> for NextFault {
    ghost use Rattle.sky_journal.specs.Faults.{disk_failed};

    ghost from_gives = { λ _ e. e ≡ disk_failed };

    fn from(_: Failed) -> NextFault {
        NextFault::DiskFault
    }
}

impl From<NoMemory> for NextFault {
    ghost use Rattle.sky_journal.specs.Faults.{no_memory};

    ghost from_gives = { λ _ e. e ≡ no_memory };

    fn from(_: NoMemory) -> NextFault {
        NextFault::Memory
    }
}

impl From<AllocError> for NextFault {
    ghost use Rattle.sky_journal.specs.Faults.{no_memory};

    ghost from_gives = { λ _ e. e ≡ no_memory };

    fn from(_: AllocError) -> NextFault {
        NextFault::Memory
    }
}

impl From<NextFault> for JournalFault {
    ghost use Rattle.sky_journal.specs.Faults.{fault_of};

    ghost from_gives = { λ fault e. e ≡ fault_of fault };

    fn from(fault: NextFault) -> JournalFault {
        match fault {
            NextFault::DiskFault => JournalFault::DiskFault,
            NextFault::Memory => JournalFault::Memory,
        }
    }
}

/// Why an entry was not appended.
#[derive(Clone, Copy)]
pub enum AppendFault {
    /// The newer area has no room for the batch with this entry.
    Full {
        /// How many bytes are left in it.
        room: u64,
        /// How many bytes the batch and the gate behind it would take.
        wanted: u64,
    },
    /// There was no memory for it.
    Memory,
}
