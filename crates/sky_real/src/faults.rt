//! How faults are counted.

ghost use Rattle.std.specs.Prelude.{◌≡◌, ◌↔◌, IsOk, IsErr, IsErrOf};
ghost use Rattle.sky_outside.specs.Count.{Counts};

use sky_outside::{Failed, GetFault, PutFault};
use std::io;

/// What a call answers, with its failure counted.
pub(crate) fn counted(faults: &mut u64, answer: io::Result<()>) -> Result<(), Failed>
    ensures cause { Counts faults.old faults.new (IsErr result) }
    ensures same { IsOk result ↔ IsOk answer }
{
    match answer {
        Ok(()) => Ok(()),
        Err(_) => {
            *faults = faults.saturating_add(1);
            Err(Failed)
        }
    }
}

/// What a put answers, with its failure counted. Nothing of it needs memory.
pub(crate) fn counted_put(faults: &mut u64, answer: io::Result<()>) -> Result<(), PutFault>
    ensures cause { Counts faults.old faults.new (IsErrOf result PutFault.Failed) }
    ensures same { IsOk result ↔ IsOk answer }
    ensures memory { ¬ (IsErrOf result PutFault.Memory) }
{
    match counted(faults, answer) {
        Ok(()) => Ok(()),
        Err(Failed) => Err(PutFault::Failed),
    }
}

/// What a look at an object answers, with a failure counted.
pub(crate) fn counted_get(faults: &mut u64, answer: Result<(), GetFault>) -> Result<(), GetFault>
    ensures cause { Counts faults.old faults.new (IsErrOf result GetFault.Failed) }
    ensures same { result ≡ answer }
{
    if matches!(answer, Err(GetFault::Failed)) {
        *faults = faults.saturating_add(1);
    }
    answer
}
