//! The calls of a recording.

ghost use Rattle.std.specs.Prelude.{◌≡◌, [], IfOk, OnOk, IsErrOf, IfErr};
ghost use Rattle.sky_outside.specs.Count.{Counts};
ghost use Rattle.sky_script.specs.Frame.{IsInFrame};
ghost use Rattle.sky_script.specs.Values.{frame_of};
ghost use Rattle.sky_show.specs.Ending.{IsOfLine};
ghost use Rattle.sky_show.specs.Waiting.{HasMore, Looked};

use crate::called::Called;
use crate::ending::Ending;
use crate::streams::Streams;
use crate::waiting::Waiting;
use sky_base::NoMemory;
use sky_outside::{FillFault, Source, fill};
use sky_script::{Frame, FrameBuf, FrameFault, read_frame};
use std::alloc::Global;

/// What recordings and answers begin with.
pub const MAGIC: [u8; 8] = *b"SKYREC1\n";

/// How many frames a recording may have, the end among them.
const FRAME_LIMIT: u64 = 1 << 32;

/// The calls of a recording: it is read only as far as the replies ask for, and only the calls that were not answered yet are kept.
#[derive(Drop)]
pub struct Calls {
    alloc: Global,
    buf: FrameBuf,
    streams: Streams,
    waiting: Waiting,
    /// Whether no further frame can be read: the recording ended, or what stands there is no frame.
    over: bool,
}

/// Does what a frame of the recording does to the calls that wait. Says whether it ends the recording.
fn take_frame(
    alloc: Global,
    frame: &Frame<'_>,
    streams: &mut Streams,
    waiting: &mut Waiting,
) -> Result<bool, NoMemory>
    requires { IsInFrame (frame_of frame.now) }
    ensures { OnOk result (HasMore waiting.old waiting.new) }
{
    match *frame {
        Frame::Begin { session } => streams.begin(alloc, session)?,
        Frame::Bytes { session, payload } => streams.feed(session, payload, waiting)?,
        Frame::Close { session } => streams.end(session),
        Frame::Restart | Frame::RestartWithoutJournal => streams.end_all(),
        Frame::SetMoment(_) | Frame::Stat => {}
        Frame::End => return Ok(true),
    }
    Ok(false)
}

impl Calls {
    /// The calls of a recording, of which what it begins with is read. `Memory` where there is none for the buffers, and
    /// `RecordingFault` where the read failed. A recording that begins with something else has no calls.
    pub fn begin<S: Source>(alloc: Global, recording: &mut S) -> Result<Calls, Ending>
        ensures none { IfOk result (λ calls. calls.waiting ≡ []) }
        ensures endings { IfErr result IsOfLine }
        ensures cause { Counts (S.faults recording.old) (S.faults recording.new) (IsErrOf result Ending.RecordingFault) }
    {
        let mut bytes = [0; 8];
        let over = match fill(recording, &mut bytes) {
            Ok(()) => bytes != MAGIC,
            Err(FillFault::Early) => true,
            Err(FillFault::Broken) => return Err(Ending::RecordingFault),
        };
        match (FrameBuf::new(alloc), Streams::new(alloc)) {
            (Ok(buf), Ok(streams)) => Ok(Calls {
                alloc,
                buf,
                streams,
                waiting: Waiting::new(alloc),
                over,
            }),
            _ => Err(Ending::Memory),
        }
    }

    /// Reads the next frame of the recording, and adds its calls to those that wait.
    fn read_on<S: Source>(&mut self, recording: &mut S) -> Result<(), Ending>
        ensures more { OnOk result (HasMore self.old.waiting self.new.waiting) }
        ensures endings { IfErr result IsOfLine }
        ensures cause { Counts (S.faults recording.old) (S.faults recording.new) (IsErrOf result Ending.RecordingFault) }
    {
        match read_frame(recording, &mut self.buf) {
            Ok(frame) => {
                match take_frame(self.alloc, &frame, &mut self.streams, &mut self.waiting) {
                    Ok(over) => {
                        self.over = over;
                        Ok(())
                    }
                    Err(NoMemory) => Err(Ending::Memory),
                }
            }
            Err(FrameFault::Malformed | FrameFault::Early) => {
                self.over = true;
                Ok(())
            }
            Err(FrameFault::SourceFault) => Err(Ending::RecordingFault),
        }
    }

    /// What the call of this session and number called that a reply now answers: the first such call that was not answered yet. The recording is
    /// read on until it is found. `None` where the recording has no such call.
    pub fn answer<S: Source>(
        &mut self,
        recording: &mut S,
        session: u32,
        xid: u32,
    ) -> Result<Option<Called>, Ending>
        ensures looked { IfOk result (λ found. Looked session xid self.old.waiting found self.new.waiting) }
        ensures endings { IfErr result IsOfLine }
        ensures cause { Counts (S.faults recording.old) (S.faults recording.new) (IsErrOf result Ending.RecordingFault) }
    {
        for _ in 0..FRAME_LIMIT {
            let found = self.waiting.answer(session, xid);
            if found.is_some() || self.over {
                return Ok(found);
            }
            self.read_on(recording)?;
        }
        Ok(self.waiting.answer(session, xid))
    }
}
