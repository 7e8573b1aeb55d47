//! Counting the calls of a device, and which of them fail.

ghost use Rattle.std.specs.Prelude.{◌≡◌, ◌⊎◌, ◌↔◌, IsTrue, IsErr, is_err};
ghost use Rattle.sky_outside.specs.Count.{Counts};

use sky_outside::Failed;
use std::marker::Model;

/// The calls of a device: which of them fail, how many there were, and how many failed.
#[derive(Drop)]
pub struct Calls {
    fail: Vec<u64>,
    calls: u64,
    faults: u64,
}

impl Model for Calls {
    ghost use Rattle.sky_memory.specs.Calls.{CallLog};

    ghost Value = { CallLog };

    ghost view = { λ c. record { fail = c.fail.items; calls = c.calls; faults = c.faults } };
}

impl Calls {
    ghost use Rattle.sky_memory.specs.Calls.{no_calls, after_call, IsToFail};

    /// No calls yet, of which those of these numbers will fail.
    pub fn new(fail: Vec<u64>) -> Calls
        ensures { result ≡ no_calls fail.items }
    {
        Calls {
            fail,
            calls: 0,
            faults: 0,
        }
    }

    /// Counts a call, which the device can serve or not. It fails where it can't or is not to.
    pub fn count(&mut self, can_serve: bool) -> Result<(), Failed>
        ensures fails { IsErr result ↔ (IsToFail self.old ⊎ ¬ (IsTrue can_serve)) }
        ensures cause { Counts self.old.faults self.new.faults (IsErr result) }
        ensures after { self.new ≡ after_call self.old (is_err result) }
    {
        let fails = !can_serve || self.fail.contains(&self.calls);
        self.calls = self.calls.saturating_add(1);
        if fails {
            self.faults = self.faults.saturating_add(1);
            return Err(Failed);
        }
        Ok(())
    }
}
