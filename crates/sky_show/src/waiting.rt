//! Calls that were not answered yet.

ghost use Rattle.std.specs.Prelude.{◌≡◌, ◌++◌, ◌∷◌, [], IfSome, IsNone, OnOk, OnErr, IfOk, IsTrue, ◌↔◌};
ghost use Rattle.sky_show.specs.Waiting.{IsAnswered, IsFirst, IsOfNone, is_of};

use crate::called::Called;
use sky_base::NoMemory;
use std::alloc::Global;
use std::collections::VecDeque;
use std::marker::Model;

/// A call that was not answered yet.
#[derive(Clone, Copy)]
pub struct Call {
    /// The session that it came in.
    pub session: u32,
    /// Its number, which its reply repeats.
    pub xid: u32,
    pub called: Called,
}

/// The calls that were not answered yet, in the order in which they came. Contracts see them as a list.
#[derive(Drop)]
pub struct Waiting {
    calls: VecDeque<Call>,
}

impl Model for Waiting {
    ghost use Rattle.std.specs.Prelude.{List};
    ghost use Rattle.sky_show.specs.declared.waiting.Call.{Call};

    ghost Value = { List Call };

    ghost view = { λ w. w.calls.items };
}

/// Whether a call is the one of this session and number.
fn is_call(call: &Call, session: u32, xid: u32) -> bool
    ensures { result ≡ is_of session xid call.now }
{
    call.session == session && call.xid == xid
}

impl Waiting {
    /// No call.
    pub fn new(alloc: Global) -> Waiting
        ensures { result ≡ [] }
    {
        Waiting {
            calls: VecDeque::new(alloc),
        }
    }

    /// Adds a call behind the others.
    pub fn add(&mut self, call: Call) -> Result<(), NoMemory>
        ensures ok { OnOk result (self.new ≡ self.old ++ call ∷ []) }
        ensures err { OnErr result (self.new ≡ self.old) }
    {
        self.calls.push_back(call)?;
        Ok(())
    }

    /// The place of the first call of this session and number.
    fn place_of(&self, session: u32, xid: u32) -> Option<usize>
        ensures some { IfSome result (λ place. IsFirst session xid self.now place) }
        ensures none { IsNone result → IsOfNone session xid self.now }
    {
        for place in 0..self.calls.len() {
            if let Some(call) = self.calls.get(place)
                && is_call(call, session, xid)
            {
                return Some(place);
            }
        }
        None
    }

    /// Takes out the first call of this session and number, which is answered, and says what it called. The others stay in their
    /// order. `None` where no such call waits. It looks at the calls in order, so that the oldest is found at once.
    pub fn answer(&mut self, session: u32, xid: u32) -> Option<Called>
        ensures some { IfSome result (λ called. IsAnswered session xid self.old called self.new) }
        ensures none { IsNone result → IsOfNone session xid self.old }
        ensures kept { IsNone result → self.new ≡ self.old }
    {
        let place = self.place_of(session, xid)?;
        let call = self.calls.remove(place)?;
        Some(call.called)
    }
}
