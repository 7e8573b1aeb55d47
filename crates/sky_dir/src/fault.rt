//! Why an entry wasn't added.

use sky_base::NoMemory;

/// Why an entry wasn't added.
#[derive(Clone, Copy)]
pub enum DirFault {
    /// There was no memory for it.
    Memory,
    /// The directory would have more than 2^20 bytes, or has given out its last cookie.
    Crowded,
}

impl From<NoMemory> for DirFault {
    ghost use Rattle.std.specs.Prelude.{◌≡◌};
    ghost use Rattle.sky_dir.specs.declared.fault.DirFault.TheVariants.{Memory};

    ghost from_gives = { λ _ e. e ≡ Memory };

    fn from(_: NoMemory) -> DirFault {
        DirFault::Memory
    }
}
