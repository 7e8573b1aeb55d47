//! The clock, the threads, and the doors through which clients come.

ghost use Rattle.std.specs.Prelude.{◌<◌, ℕ, IsErr, IfErr, ◌≡◌};
ghost use Rattle.sky_outside.specs.Count.{Counts};

use crate::stream::{Failed, Sink, Source};
use sky_base::Moment;

/// What tells the time of day.
pub trait Clock {
    /// The moment now. Its nanoseconds are below 10^9.
    fn now(&mut self) -> Moment
        ensures { result.nanos < 1000000000 };
}

/// What starts threads.
pub trait Spawner {
    /// How often it has failed, which never falls.
    ghost faults: { Self → ℕ };

    /// Starts a thread that does the job. A job for which there is no thread is handed back.
    fn start<F: FnOnce() + Send + 'static>(&mut self, job: F) -> Result<(), F>
        requires { F.pre job }
        ensures back { IfErr result (λ f. f ≡ job) }
        ensures cause { Counts (faults self.old) (faults self.new) (IsErr result) };
}

/// Where clients knock: each connection is a source and a sink.
pub trait Doors {
    type In: Source + Send + 'static;

    type Out: Sink + Send + 'static;

    /// How often it has failed, which never falls.
    ghost faults: { Self → ℕ };

    /// Waits for the next client.
    fn accept(&mut self) -> Result<(Self::In, Self::Out), Failed>
        ensures { Counts (faults self.old) (faults self.new) (IsErr result) };
}
