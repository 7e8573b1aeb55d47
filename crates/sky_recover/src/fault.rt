//! Why a site was not opened, and why a step of an opening ended.

use sky_base::{Lost, NoMemory};
use sky_journal::{JournalFault, NextFault};
use sky_outside::{Failed, PutFault};

/// Why a site was not opened.
#[derive(Clone, Copy)]
pub enum OpenFault {
    /// The journal's disk failed.
    DiskFault,
    /// The cloud failed.
    CloudFault,
    /// There was no memory.
    Memory,
    /// The disk is not a journal of the volume whose changes can be done again.
    Foreign {
        /// The first place of the disk, in bytes, in the order of reading, at which it is not one.
        at: u64,
    },
    /// An object that is needed cannot be had.
    Lost(Lost),
    /// The last epoch was begun.
    Worn,
}

/// Why the cloud's list gave no epoch.
#[derive(Clone, Copy)]
pub(crate) enum ListFault {
    /// The cloud failed.
    CloudFault,
    /// There was no memory for the list.
    Memory,
    /// A checkpoint of the proxy is listed, and cannot be had.
    Lost(Lost),
    /// The last epoch was begun.
    Worn,
}

/// Why the journal was not read, or the epoch not claimed behind that.
#[derive(Clone, Copy)]
pub(crate) enum ClaimFault {
    /// The journal's disk failed.
    DiskFault,
    /// The cloud failed.
    CloudFault,
    /// There was no memory.
    Memory,
    /// The disk is not a journal of the volume.
    Foreign {
        /// The first place of the disk, in bytes, in the order of reading, at which it is not one.
        at: u64,
    },
}

/// Why the change of an entry was not done again.
#[derive(Clone, Copy)]
pub(crate) enum ChangeFault {
    /// There was no memory.
    Memory,
    /// It is the entry of no change, or its change is not answered OK.
    Foreign {
        /// Where on the disk the entry lies, in bytes.
        at: u64,
    },
}

/// Why the changes of a journal were not done again, or its areas not made ready behind that.
#[derive(Clone, Copy)]
pub(crate) enum ReplayFault {
    /// The journal's disk failed.
    DiskFault,
    /// There was no memory.
    Memory,
    /// A change is not answered OK, or the disk gives other bytes than when the journal was read.
    Foreign {
        /// Where on the disk its entry lies, in bytes.
        at: u64,
    },
}

impl From<ListFault> for OpenFault {
    ghost use Rattle.std.specs.Prelude.{◌≡◌};
    ghost use Rattle.sky_recover.specs.Faults.{of_list};

    ghost from_gives = { λ fault e. e ≡ of_list fault };

    fn from(fault: ListFault) -> OpenFault {
        match fault {
            ListFault::CloudFault => OpenFault::CloudFault,
            ListFault::Memory => OpenFault::Memory,
            ListFault::Lost(lost) => OpenFault::Lost(lost),
            ListFault::Worn => OpenFault::Worn,
        }
    }
}

impl From<ClaimFault> for OpenFault {
    ghost use Rattle.std.specs.Prelude.{◌≡◌};
    ghost use Rattle.sky_recover.specs.Faults.{of_claim};

    ghost from_gives = { λ fault e. e ≡ of_claim fault };

    fn from(fault: ClaimFault) -> OpenFault {
        match fault {
            ClaimFault::DiskFault => OpenFault::DiskFault,
            ClaimFault::CloudFault => OpenFault::CloudFault,
            ClaimFault::Memory => OpenFault::Memory,
            ClaimFault::Foreign { at } => OpenFault::Foreign { at },
        }
    }
}

impl From<ReplayFault> for OpenFault {
    ghost use Rattle.std.specs.Prelude.{◌≡◌};
    ghost use Rattle.sky_recover.specs.Faults.{of_replay};

    ghost from_gives = { λ fault e. e ≡ of_replay fault };

    fn from(fault: ReplayFault) -> OpenFault {
        match fault {
            ReplayFault::DiskFault => OpenFault::DiskFault,
            ReplayFault::Memory => OpenFault::Memory,
            ReplayFault::Foreign { at } => OpenFault::Foreign { at },
        }
    }
}

impl From<PutFault> for ListFault {
    ghost use Rattle.std.specs.Prelude.{◌≡◌};
    ghost use Rattle.sky_recover.specs.Faults.{of_call};

    ghost from_gives = { λ fault e. e ≡ of_call fault };

    fn from(fault: PutFault) -> ListFault {
        match fault {
            PutFault::Failed => ListFault::CloudFault,
            PutFault::Memory => ListFault::Memory,
        }
    }
}

impl From<JournalFault> for ClaimFault {
    ghost use Rattle.std.specs.Prelude.{◌≡◌};
    ghost use Rattle.sky_recover.specs.Faults.{of_journal};

    ghost from_gives = { λ fault e. e ≡ of_journal fault };

    fn from(fault: JournalFault) -> ClaimFault {
        match fault {
            JournalFault::DiskFault => ClaimFault::DiskFault,
            JournalFault::Memory => ClaimFault::Memory,
            JournalFault::Foreign { at } => ClaimFault::Foreign { at },
        }
    }
}

impl From<PutFault> for ClaimFault {
    ghost use Rattle.std.specs.Prelude.{◌≡◌};
    ghost use Rattle.sky_recover.specs.Faults.{of_put};

    ghost from_gives = { λ fault e. e ≡ of_put fault };

    fn from(fault: PutFault) -> ClaimFault {
        match fault {
            PutFault::Failed => ClaimFault::CloudFault,
            PutFault::Memory => ClaimFault::Memory,
        }
    }
}

impl From<Failed> for ReplayFault {
    ghost use Rattle.std.specs.Prelude.{◌≡◌};
    ghost use Rattle.sky_recover.specs.Faults.{disk_failed};

    ghost from_gives = { λ _ e. e ≡ disk_failed };

    fn from(_: Failed) -> ReplayFault {
        ReplayFault::DiskFault
    }
}

impl From<NoMemory> for ReplayFault {
    ghost use Rattle.std.specs.Prelude.{◌≡◌};
    ghost use Rattle.sky_recover.specs.Faults.{no_memory};

    ghost from_gives = { λ _ e. e ≡ no_memory };

    fn from(_: NoMemory) -> ReplayFault {
        ReplayFault::Memory
    }
}

impl From<NextFault> for ReplayFault {
    ghost use Rattle.std.specs.Prelude.{◌≡◌};
    ghost use Rattle.sky_recover.specs.Faults.{of_next};

    ghost from_gives = { λ fault e. e ≡ of_next fault };

    fn from(fault: NextFault) -> ReplayFault {
        match fault {
            NextFault::DiskFault => ReplayFault::DiskFault,
            NextFault::Memory => ReplayFault::Memory,
        }
    }
}

impl From<ChangeFault> for ReplayFault {
    ghost use Rattle.std.specs.Prelude.{◌≡◌};
    ghost use Rattle.sky_recover.specs.Faults.{of_change};

    ghost from_gives = { λ fault e. e ≡ of_change fault };

    fn from(fault: ChangeFault) -> ReplayFault {
        match fault {
            ChangeFault::Memory => ReplayFault::Memory,
            ChangeFault::Foreign { at } => ReplayFault::Foreign { at },
        }
    }
}
