//! Why arguments could not be read.

ghost use Rattle.std.specs.Prelude.{◌≡◌};
ghost use Rattle.sky_args.specs.declared.fault.ArgFault.TheVariants.{Garbage, Memory};

use sky_xdr::XdrFault;
use std::alloc::AllocError;

/// Why arguments could not be read.
#[derive(Clone, Copy)]
pub enum ArgFault {
    /// There is no procedure of this number.
    NoSuchProc,
    /// The bytes are not the arguments of the procedure.
    Garbage,
    /// There was no memory for a name, a text or data.
    Memory,
}

impl From<XdrFault> for ArgFault {
    ghost from_gives = { λ _ e. e ≡ Garbage };

    fn from(_: XdrFault) -> ArgFault {
        ArgFault::Garbage
    }
}

impl From<AllocError> for ArgFault {
    ghost from_gives = { λ _ e. e ≡ Memory };

    fn from(_: AllocError) -> ArgFault {
        ArgFault::Memory
    }
}
