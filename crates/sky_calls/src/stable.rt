//! Which changes are stable before their answer.

ghost use Rattle.std.specs.Prelude.{◌≡◌};
ghost use Rattle.sky_calls.specs.Stable.{is_stable_call};

use sky_nfs::{Call, StableHow};

/// Whether a change is stable before its answer: each is, but a WRITE whose data may wait.
pub fn is_stable(call: &Call) -> bool
    ensures { result ≡ is_stable_call call.now }
{
    match call {
        Call::Write { stable, .. } => !matches!(stable, StableHow::Unstable),
        _ => true,
    }
}
