//! Why no item was read.

ghost use Rattle.std.specs.Prelude.{◌≡◌};
ghost use Rattle.sky_item.specs.declared.fault.Refusal.TheVariants as refusal;
ghost use Rattle.sky_item.specs.declared.fault.ItemFault.TheVariants as fault;

use sky_base::Damage;
use std::alloc::AllocError;

/// Why no item was read.
#[derive(Clone, Copy)]
pub enum ItemFault {
    /// The bytes are no item.
    Damage(Damage),
    /// There was no memory for what the item holds.
    Memory,
}

/// Why a field was not taken.
#[derive(Clone, Copy)]
pub enum Refusal {
    /// It is not of the format.
    At {
        /// How many bytes are left from it on.
        left: usize,
    },
    /// There was no memory for it.
    Memory,
}

impl From<AllocError> for Refusal {
    ghost from_gives = { λ _ e. e ≡ refusal.Memory };

    fn from(_: AllocError) -> Refusal {
        Refusal::Memory
    }
}
