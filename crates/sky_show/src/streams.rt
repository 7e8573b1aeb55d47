//! The streams of a recording's sessions.

ghost use Rattle.std.specs.Prelude.{◌≡◌, ◌<◌, ◌≤◌, ◌++◌, is_some, IfOk, OnOk, IfSome, length, vec_len};
ghost use Rattle.sky_record.specs.Stream.{IsOpen};
ghost use Rattle.sky_script.specs.Frame.{session_count};
ghost use Rattle.sky_show.specs.Waiting.{HasMore, called_in, calls_of};

use crate::called::read_called;
use crate::waiting::{Call, Waiting};
use sky_base::NoMemory;
use sky_record::{Assembler, Fed};
use std::alloc::Global;
use std::mem;

/// How many sessions a recording may have.
const COUNT: usize = 256;

/// The streams of the sessions, each with what assembles its records. One that did not begin, or that was closed, has none.
#[derive(Drop)]
pub struct Streams {
    streams: Vec<Option<Assembler>>,
    ghost whole: { vec_len streams ≡ session_count },
}

/// Adds the call that a record is to those that wait. Says whether it is one: the session is closed where it isn't.
fn add_call(session: u32, message: &[u8], waiting: &mut Waiting) -> Result<bool, NoMemory>
    ensures added { OnOk result (waiting.new ≡ waiting.old ++ calls_of session (called_in message.now)) }
    ensures open { IfOk result (λ is_open. is_open ≡ is_some (called_in message.now)) }
{
    match read_called(message) {
        Some((xid, called)) => {
            waiting.add(Call {
                session,
                xid,
                called,
            })?;
            Ok(true)
        }
        None => Ok(false),
    }
}

/// Feeds a piece of a stream once, and adds the call that is whole then. Says how much of the piece was taken, or nothing where the session
/// is closed.
fn feed_once(
    assembler: &mut Assembler,
    session: u32,
    piece: &[u8],
    waiting: &mut Waiting,
) -> Result<Option<usize>, NoMemory>
    requires ready { IsOpen assembler.old.progress }
    ensures taken { IfOk result (λ fed. IfSome fed (λ taken. taken ≤ length piece.now)) }
    ensures some { 0 < length piece.now → IfOk result (λ fed. IfSome fed (λ taken. 0 < taken)) }
    ensures more { OnOk result (HasMore waiting.old waiting.new) }
{
    let (taken, fed) = assembler.feed(piece);
    match fed {
        Fed::Message => {
            let open = add_call(session, assembler.message(), waiting)?;
            assembler.clear();
            Ok(if open { Some(taken) } else { None })
        }
        Fed::More => Ok(Some(taken)),
        Fed::TooLong => Ok(None),
    }
}

/// Feeds a whole piece of a stream, and adds the calls that become whole in it. Says whether the session is still open.
fn feed_whole(
    assembler: &mut Assembler,
    session: u32,
    piece: &[u8],
    waiting: &mut Waiting,
) -> Result<bool, NoMemory>
    ensures more { OnOk result (HasMore waiting.old waiting.new) }
{
    let mut at = 0;
    while at < piece.len() && assembler.is_ready() {
        match feed_once(assembler, session, &piece[at..], waiting)? {
            Some(taken) => at += taken,
            None => return Ok(false),
        }
    }
    Ok(true)
}

impl Streams {
    /// As many streams as there may be, none of which has begun.
    pub fn new(alloc: Global) -> Result<Streams, NoMemory> {
        let mut streams = Vec::with_capacity(alloc, COUNT)?;
        for _ in 0..COUNT {
            streams.push(None)?;
        }
        Ok(Streams { streams })
    }

    /// A session begins, with an empty stream.
    pub fn begin(&mut self, alloc: Global, session: u32) -> Result<(), NoMemory>
        requires { session < session_count }
    {
        self.streams[session as usize] = Some(Assembler::new(alloc)?);
        Ok(())
    }

    /// A session ends.
    pub fn end(&mut self, session: u32)
        requires { session < session_count }
    {
        self.streams[session as usize] = None;
    }

    /// All sessions end.
    pub fn end_all(&mut self) {
        for stream in self.streams.iter_mut() {
            *stream = None;
        }
    }

    /// The next bytes of a session come, and the calls that become whole wait from now on. They are passed over where the session is not
    /// open. A record that is no call, or that is too long, closes the session.
    pub fn feed(
        &mut self,
        session: u32,
        piece: &[u8],
        waiting: &mut Waiting,
    ) -> Result<(), NoMemory>
        requires { session < session_count }
        ensures more { OnOk result (HasMore waiting.old waiting.new) }
    {
        let Some(mut assembler) = mem::replace(&mut self.streams[session as usize], None) else {
            return Ok(());
        };
        if feed_whole(&mut assembler, session, piece, waiting)? {
            self.streams[session as usize] = Some(assembler);
        }
        Ok(())
    }
}
