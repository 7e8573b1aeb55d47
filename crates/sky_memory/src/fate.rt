//! Which calls of a site in memory fail.

ghost use Rattle.std.specs.Prelude.{◌≡◌, ◌≢◌, length, IsTrue, IsErr, IsErrOf};
ghost use Rattle.sky_outside.specs.Count.{Counts};
ghost use Rattle.sky_memory.specs.Past.{IsAllowed};
ghost use Rattle.sky_memory.specs.Record.{has_room, listed, next_fate, after_next, answer_of, put_answer_of};
ghost use Rattle.sky_memory.specs.declared.fate.Fate.TheVariants.{Beyond};

use crate::record::{Record, Step};
use sky_outside::{Failed, PutFault};

/// A call that fails.
#[derive(Clone, Copy)]
pub struct Fail {
    /// Its number, where the first call of the site has the number 0.
    pub call: u64,
    /// Whether it does what it was asked for all the same.
    pub happened: bool,
}

/// How a call goes.
#[derive(Clone, Copy)]
pub enum Fate {
    /// It fails, does nothing and isn't kept: the record is full.
    Beyond,
    /// It fails, and does what it was asked for or nothing.
    Fails { happened: bool },
    /// It goes well.
    Goes,
}

impl Fate {
    ghost use Rattle.sky_memory.specs.Record.{happens};

    /// Whether the call does what it was asked for.
    pub fn happens(self) -> bool
        ensures { result ≡ happens self }
    {
        match self {
            Fate::Beyond => false,
            Fate::Fails { happened } => happened,
            Fate::Goes => true,
        }
    }
}

// How the call of this number is listed among those that fail.
fn listed(fail: &[Fail], number: usize) -> Option<Fail>
    ensures { result ≡ listed fail.now number }
{
    let number = number as u64;
    fail.iter().copied().find(|f| f.call == number)
}

/// How the next call goes, which has so many bytes.
pub fn next(noted: &Record, fail: &[Fail], length: usize) -> Fate
    ensures fate { result ≡ next_fate fail.now noted.now length }
    ensures room { result ≢ Beyond → IsTrue (has_room noted.now length) }
{
    if !noted.has_room(length) {
        return Fate::Beyond;
    }
    match listed(fail, noted.len()) {
        Some(f) => Fate::Fails {
            happened: f.happened,
        },
        None => Fate::Goes,
    }
}

/// Keeps a call that goes so.
pub fn keep(noted: &mut Record, fate: Fate, step: Step, bytes: &[u8])
    requires room { fate ≢ Beyond → IsTrue (has_room noted.old (length bytes.now)) }
    requires allowed { IsAllowed step }
    ensures { noted.new ≡ after_next noted.old step bytes.now fate }
{
    match fate {
        Fate::Beyond => {}
        Fate::Fails { happened } => noted.note(step, happened, bytes),
        Fate::Goes => noted.note(step, true, bytes),
    }
}

/// Keeps the next call, and says how it goes.
pub fn begin(noted: &mut Record, fail: &[Fail], step: Step, bytes: &[u8]) -> Fate
    requires { IsAllowed step }
    ensures fate { result ≡ next_fate fail.now noted.old (length bytes.now) }
    ensures kept { noted.new ≡ after_next noted.old step bytes.now result }
{
    let fate = next(noted, fail, bytes.len());
    keep(noted, fate, step, bytes);
    fate
}

/// The answer of a call that went so, which counts it if it failed.
pub fn answer(fate: Fate, faults: &mut u64) -> Result<(), Failed>
    ensures answer { result ≡ answer_of fate }
    ensures cause { Counts faults.old faults.new (IsErr result) }
{
    match fate {
        Fate::Goes => Ok(()),
        Fate::Beyond | Fate::Fails { .. } => {
            *faults = faults.saturating_add(1);
            Err(Failed)
        }
    }
}

/// The same as the answer of a put.
pub fn put_answer(fate: Fate, faults: &mut u64) -> Result<(), PutFault>
    ensures answer { result ≡ put_answer_of fate }
    ensures cause { Counts faults.old faults.new (IsErrOf result PutFault.Failed) }
{
    match answer(fate, faults) {
        Ok(()) => Ok(()),
        Err(Failed) => Err(PutFault::Failed),
    }
}
