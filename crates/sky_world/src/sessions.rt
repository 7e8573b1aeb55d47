//! The sessions of a recording, each with the buffer of its stream.

ghost use Rattle.std.specs.Prelude.{◌≡◌, ◌<◌, IfOk, OnErr, replicate, slice_index_or, slice_set};
ghost use Rattle.sky_record.specs.Stream.{nothing};
ghost use Rattle.sky_script.specs.Frame.{session_count};
ghost use Rattle.sky_world.specs.Sessions.{IsReady, closed};
ghost use Rattle.sky_world.specs.declared.sessions.Session.TheVariants.{Absent};

use sky_base::NoMemory;
use sky_record::Assembler;
use std::alloc::Global;
use std::marker::Model;
use std::mem;

/// How many sessions a recording may have.
const SESSION_COUNT: usize = 256;

/// A session of a recording.
#[derive(Drop)]
pub enum Session {
    /// It has not begun.
    Absent,
    /// It is open, and this assembles its records.
    Open(Assembler),
    /// It was closed. The buffer is kept for when it begins again.
    Closed(Assembler),
}

impl Session {
    /// What assembles the records of a session that begins: the buffer that it had, or a new one. Where there is no memory
    /// for that, it had none.
    pub fn begin(self, alloc: Global) -> Result<Assembler, NoMemory>
        ensures empty { IfOk result (λ assembler. assembler ≡ nothing) }
        ensures absent { OnErr result (self ≡ Session.Absent) }
    {
        match self {
            Session::Absent => Assembler::new(alloc),
            Session::Open(mut assembler) | Session::Closed(mut assembler) => {
                assembler.clear();
                Ok(assembler)
            }
        }
    }

    /// What the session is when it ends.
    pub fn closed(self) -> Session
        ensures value { result ≡ closed self }
        ensures ready { IsReady result }
    {
        match self {
            Session::Absent => Session::Absent,
            Session::Open(assembler) | Session::Closed(assembler) => Session::Closed(assembler),
        }
    }
}

/// The sessions of a recording. Contracts see them as a list. What assembles the records of an open one is ready.
#[derive(Drop)]
pub struct Sessions {
    sessions: Vec<Session>,
}

impl Model for Sessions {
    ghost use Rattle.std.specs.Prelude.{List};
    ghost use Rattle.sky_world.specs.declared.sessions.Session.{Session};

    ghost Value = { List Session };

    ghost use Rattle.sky_world.specs.Sessions.{IsKept};

    ghost view = { λ s. s.sessions.items };

    ghost invariant = { λ s. IsKept s.sessions.items };
}

impl Sessions {
    /// As many sessions as there may be, none of which has begun.
    pub fn new(alloc: Global) -> Result<Sessions, NoMemory>
        ensures { IfOk result (λ sessions. sessions ≡ replicate session_count Session.Absent) }
    {
        let mut sessions = Vec::with_capacity(alloc, SESSION_COUNT)?;
        for _ in 0..SESSION_COUNT {
            sessions.push(Session::Absent)?;
        }
        Ok(Sessions { sessions })
    }

    /// Takes a session out. As long as it is not put back, it counts as one that has not begun.
    pub fn take(&mut self, number: u32) -> Session
        requires { number < session_count }
        ensures taken { result ≡ slice_index_or self.old number Session.Absent }
        ensures left { self.new ≡ slice_set self.old number Session.Absent }
        ensures ready { IsReady result }
    {
        mem::replace(&mut self.sessions[number as usize], Session::Absent)
    }

    /// Puts a session in the place of the one that has this number.
    pub fn put(&mut self, number: u32, session: Session)
        requires number { number < session_count }
        requires ready { IsReady session }
        ensures { self.new ≡ slice_set self.old number session }
    {
        self.sessions[number as usize] = session;
    }

    /// Gives all sessions up: none has begun.
    pub fn forget(&mut self)
        ensures { self.new ≡ replicate session_count Session.Absent }
    {
        for session in self.sessions.iter_mut() {
            *session = Session::Absent;
        }
    }
}
