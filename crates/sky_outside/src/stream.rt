//! Where bytes come from and go to.

ghost use Rattle.std.specs.Prelude.{◌≡◌, ◌<◌, ◌≤◌, ℕ, List, [], length, take, Option, IfOk, OnErr, IsErr};
ghost use Rattle.sky_outside.specs.Count.{Counts};
ghost use Rattle.sky_outside.specs.Told.{WhereTold, Had, Given};

/// A device failed. Its count of faults rose.
#[derive(Clone, Copy)]
pub struct Failed;

/// Where bytes come from: a recorded session, or a client's connection.
pub trait Source {
    /// The bytes that are left, where the source tells them.
    ghost left: { Self → Option (List ℕ) };

    /// How often it has failed, which never falls.
    ghost faults: { Self → ℕ };

    /// Reads some bytes into the start of the buffer and says how many. No bytes, where the buffer has
    /// room, is the end of the source. `Failed` takes none; what the buffer then holds is left open.
    fn read(&mut self, buf: &mut [u8]) -> Result<usize, Failed>
        ensures within { IfOk result (λ n. n ≤ length buf.old) }
        ensures bytes { IfOk result (λ n. Had (left self.old) (left self.new) (take n buf.new)) }
        ensures end { IfOk result (λ n. n ≡ 0 → 0 < length buf.old → WhereTold (left self.old) (λ bytes. bytes ≡ [])) }
        ensures err { OnErr result (left self.new ≡ left self.old) }
        ensures cause { Counts (faults self.old) (faults self.new) (IsErr result) };
}

/// Where bytes go to: the record of a session's replies, or a client's connection.
pub trait Sink {
    /// The bytes that it was given so far, where the sink tells them.
    ghost written: { Self → Option (List ℕ) };

    /// How often it has failed, which never falls.
    ghost faults: { Self → ℕ };

    /// Takes some bytes from the start of the piece, at least one if there is one, and says how many.
    /// `Failed` takes none.
    fn write(&mut self, bytes: &[u8]) -> Result<usize, Failed>
        ensures within { IfOk result (λ n. n ≤ length bytes.now) }
        ensures some { 0 < length bytes.now → IfOk result (λ n. 0 < n) }
        ensures bytes { IfOk result (λ n. Given (written self.old) (written self.new) (take n bytes.now)) }
        ensures err { OnErr result (written self.new ≡ written self.old) }
        ensures cause { Counts (faults self.old) (faults self.new) (IsErr result) };
}
