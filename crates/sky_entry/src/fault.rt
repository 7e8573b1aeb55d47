//! Why no entry was read.

ghost use Rattle.std.specs.Prelude.{◌≡◌};
ghost use Rattle.sky_entry.specs.declared.fault.EntryFault.TheVariants.{Bad, Memory};

use sky_args::ArgFault;
use sky_xdr::XdrFault;
use std::alloc::AllocError;

/// Why no entry was read.
#[derive(Clone, Copy)]
pub enum EntryFault {
    /// The bytes do not begin with an entry.
    Bad,
    /// There was no memory for what an entry holds.
    Memory,
}

impl From<XdrFault> for EntryFault {
    ghost from_gives = { λ _ e. e ≡ Bad };

    fn from(_: XdrFault) -> EntryFault {
        EntryFault::Bad
    }
}

impl From<ArgFault> for EntryFault {
    ghost use Rattle.sky_entry.specs.Faults.{fault_of};

    ghost from_gives = { λ fault e. e ≡ fault_of fault };

    fn from(fault: ArgFault) -> EntryFault {
        match fault {
            ArgFault::NoSuchProc | ArgFault::Garbage => EntryFault::Bad,
            ArgFault::Memory => EntryFault::Memory,
        }
    }
}

impl From<AllocError> for EntryFault {
    ghost from_gives = { λ _ e. e ≡ Memory };

    fn from(_: AllocError) -> EntryFault {
        EntryFault::Memory
    }
}
