//! Answers shown, line by line.

ghost use Rattle.std.specs.Prelude.{◌≡◌, ◌≢◌, ◌≤◌, ℕ, List, [], length, IfOk, IfErr, IsErrOf, OnOk, OnErr, IsErr};
ghost use Rattle.sky_outside.specs.Count.{Counts};
ghost use Rattle.sky_outside.specs.Told.{Had, Given, GivenPart, WhereTold};
ghost use Rattle.sky_script.specs.Frame.{frame, magic};
ghost use Rattle.sky_show.specs.Ending.{IsOfFrame, IsOfLine, IsOfMagic};
ghost use Rattle.sky_show.specs.Frames.{HadSome, parts_of};
ghost use Rattle.sky_show.specs.Line.{IsLine, line};
ghost use Rattle.sky_show.specs.Shown.{GoesOn, IsStop, Ran, RanFrom, Shown, StoppedBy, ending_of, line_for};

use crate::answered::Answered;
use crate::answers::{Answer, AnswerBuf, AnswerFault, read_answer};
use crate::calls::{Calls, MAGIC};
use crate::ending::Ending;
use crate::head::Head;
use crate::line::line_of;
use crate::outcomes::told_by;
use crate::reply::{Reply, read_reply};
use sky_base::NoMemory;
use sky_outside::{Failed, FillFault, Sink, Source, fill, write_all};
use std::alloc::Global;
use std::fmt::Display;

/// How many frames answers may have, the end among them: 2^40.
const FRAME_LIMIT: u64 = 1 << 40;

/// The kind of a frame that is a reply.
const REPLY: u8 = 2;

/// The kind of the frame that ends the answers.
const END: u8 = 99;

/// The bytes of a frame's header.
const HEADER_LENGTH: u64 = 9;

/// Why no further frame is shown.
#[derive(Clone, Copy)]
pub enum Stop {
    /// The frame that ends the answers was shown.
    End,
    /// What stands where the next frame was due is none.
    Malformed,
    /// Another cause, which names no place.
    Ended(Ending),
}

/// The line that begins with the head of a frame, and goes on with what is shown so.
fn text_line<D: Display + Drop>(
    alloc: Global,
    answer: &Answer<'_>,
    shown: D,
) -> Result<Vec<u8>, Ending>
    ensures line { IfOk result (λ made. (s : Shown) × (s.answer ≡ parts_of answer.now) × (made.items ≡ line_for s)) }
    ensures memory { IfErr result (λ e. e ≡ Ending.Memory) }
{
    let head = Head {
        kind: answer.kind,
        session: answer.session,
    };
    let (Ok(head), Ok(text)) = (format!(in alloc; "{head}"), format!(in alloc; "{shown}")) else {
        return Err(Ending::Memory);
    };
    match line_of(alloc, head.as_str(), text.as_str()) {
        Ok(line) => Ok(line),
        Err(NoMemory) => Err(Ending::Memory),
    }
}

/// The line of a frame that is this reply.
fn reply_line<R: Source>(
    alloc: Global,
    answer: &Answer<'_>,
    reply: Reply<'_>,
    recording: &mut R,
    calls: &mut Calls,
) -> Result<Vec<u8>, Ending>
    ensures line { IfOk result (λ made. (s : Shown) × (s.answer ≡ parts_of answer.now) × (made.items ≡ line_for s)) }
    ensures endings { IfErr result IsOfLine }
    ensures cause { Counts (R.faults recording.old) (R.faults recording.new) (IsErrOf result Ending.RecordingFault) }
{
    let called = calls.answer(recording, answer.session, reply.xid)?;
    text_line(alloc, answer, Answered { reply, called })
}

/// The line of a frame.
fn frame_line<R: Source>(
    alloc: Global,
    answer: &Answer<'_>,
    recording: &mut R,
    calls: &mut Calls,
) -> Result<Vec<u8>, Ending>
    ensures line { IfOk result (λ made. (s : Shown) × (s.answer ≡ parts_of answer.now) × (made.items ≡ line_for s)) }
    ensures endings { IfErr result IsOfLine }
    ensures cause { Counts (R.faults recording.old) (R.faults recording.new) (IsErrOf result Ending.RecordingFault) }
{
    match read_reply(answer.payload) {
        Ok(reply) if answer.kind == REPLY => reply_line(alloc, answer, reply, recording, calls),
        _ => text_line(alloc, answer, told_by(*answer)),
    }
}

/// Writes the line of a frame.
fn show_frame<R: Source, K: Sink>(
    alloc: Global,
    answer: &Answer<'_>,
    recording: &mut R,
    calls: &mut Calls,
    sink: &mut K,
) -> Result<(), Ending>
    ensures ok { OnOk result ((s : Shown) × (s.answer ≡ parts_of answer.now) × Given (K.written sink.old) (K.written sink.new) (line_for s)) }
    ensures partly { IsErrOf result Ending.SinkFault → (s : Shown) × (s.answer ≡ parts_of answer.now) × GivenPart (K.written sink.old) (K.written sink.new) (line_for s) }
    ensures unwritten { IfErr result (λ e. e ≢ Ending.SinkFault → sink.new ≡ sink.old) }
    ensures endings { IfErr result IsOfFrame }
    ensures recording_cause { Counts (R.faults recording.old) (R.faults recording.new) (IsErrOf result Ending.RecordingFault) }
    ensures sink_cause { Counts (K.faults sink.old) (K.faults sink.new) (IsErrOf result Ending.SinkFault) }
{
    let line = frame_line(alloc, answer, recording, calls)?;
    match write_all(sink, &line) {
        Ok(()) => Ok(()),
        Err(Failed) => Err(Ending::SinkFault),
    }
}

impl From<AnswerFault> for Stop {
    ghost use Rattle.sky_show.specs.Shown.{stop_of};
    ghost use Rattle.std.specs.Prelude.{◌≡◌};

    ghost from_gives = { λ fault e. e ≡ stop_of fault };

    fn from(fault: AnswerFault) -> Stop {
        match fault {
            AnswerFault::Malformed => Stop::Malformed,
            AnswerFault::Early => Stop::Ended(Ending::Early),
            AnswerFault::SourceFault => Stop::Ended(Ending::AnswersFault),
        }
    }
}

/// Reads the next frame of the answers and writes its line, and says how many bytes the frame takes.
fn show_next<R: Source, A: Source, K: Sink>(
    alloc: Global,
    recording: &mut R,
    calls: &mut Calls,
    answers: &mut A,
    buf: &mut AnswerBuf,
    sink: &mut K,
) -> Result<u64, Stop>
    ensures ok { IfOk result (λ len. (s : Shown) × GoesOn s × (len ≡ length (frame s.answer))
        × Had (A.left answers.old) (A.left answers.new) (frame s.answer) × Given (K.written sink.old) (K.written sink.new) (line_for s)) }
    ensures small { IfOk result (λ len. len ≤ 1048585) }
    ensures stopped { IfErr result (λ stop. StoppedBy stop (A.left answers.old) (A.left answers.new) (K.written sink.old) (K.written sink.new)) }
    ensures stops { IfErr result IsStop }
    ensures recording_cause { Counts (R.faults recording.old) (R.faults recording.new) (IsErrOf result (Stop.Ended Ending.RecordingFault)) }
    ensures answers_cause { Counts (A.faults answers.old) (A.faults answers.new) (IsErrOf result (Stop.Ended Ending.AnswersFault)) }
    ensures sink_cause { Counts (K.faults sink.old) (K.faults sink.new) (IsErrOf result (Stop.Ended Ending.SinkFault)) }
{
    let answer = read_answer(answers, buf)?;
    match show_frame(alloc, &answer, recording, calls, sink) {
        Ok(()) if answer.kind == END => Err(Stop::End),
        Ok(()) => Ok(HEADER_LENGTH + answer.payload.len() as u64),
        Err(ending) => Err(Stop::Ended(ending)),
    }
}

/// How the program ends by a cause, where the next frame was due at this place.
fn ending_at(stop: Stop, place: u64) -> Ending
    ensures { result ≡ ending_of stop place }
{
    match stop {
        Stop::End => Ending::Shown,
        Stop::Malformed => Ending::Malformed { at: place },
        Stop::Ended(ending) => ending,
    }
}

/// Shows frame after frame, up to the one that ends the answers.
fn show_frames<R: Source, A: Source, K: Sink>(
    alloc: Global,
    recording: &mut R,
    calls: &mut Calls,
    answers: &mut A,
    buf: &mut AnswerBuf,
    sink: &mut K,
) -> Ending
    ensures ran { RanFrom 8 result (A.left answers.old) (A.left answers.new) (K.written sink.old) (K.written sink.new) }
    ensures recording_cause { Counts (R.faults recording.old) (R.faults recording.new) (result ≡ Ending.RecordingFault) }
    ensures answers_cause { Counts (A.faults answers.old) (A.faults answers.new) (result ≡ Ending.AnswersFault) }
    ensures sink_cause { Counts (K.faults sink.old) (K.faults sink.new) (result ≡ Ending.SinkFault) }
{
    let mut place = 8;
    for _ in 0..FRAME_LIMIT {
        match show_next(alloc, recording, calls, answers, buf, sink) {
            Ok(length) => place += length,
            Err(stop) => return ending_at(stop, place),
        }
    }
    Ending::Long
}

/// Reads what answers begin with. Says why it isn't there, where it isn't.
fn read_magic<A: Source>(answers: &mut A) -> Result<(), Ending>
    ensures ok { OnOk result (Had (A.left answers.old) (A.left answers.new) magic) }
    ensures other { IsErrOf result (Ending.Malformed 0) → (taken : List ℕ) × (length taken ≡ 8) × (taken ≢ magic) × Had (A.left answers.old) (A.left answers.new) taken }
    ensures partly { OnErr result (HadSome (A.left answers.old) (A.left answers.new)) }
    ensures early { IsErrOf result Ending.Early → WhereTold (A.left answers.new) (λ rest. rest ≡ []) }
    ensures endings { IfErr result IsOfMagic }
    ensures cause { Counts (A.faults answers.old) (A.faults answers.new) (IsErrOf result Ending.AnswersFault) }
{
    let mut bytes = [0; 8];
    match fill(answers, &mut bytes) {
        Ok(()) if bytes == MAGIC => Ok(()),
        Ok(()) => Err(Ending::Malformed { at: 0 }),
        Err(FillFault::Early) => Err(Ending::Early),
        Err(FillFault::Broken) => Err(Ending::AnswersFault),
    }
}

/// What is needed before the first frame: the calls of the recording, and a buffer for frames.
fn begin<R: Source>(alloc: Global, recording: &mut R) -> Result<(Calls, AnswerBuf), Ending>
    ensures endings { IfErr result IsOfLine }
    ensures cause { Counts (R.faults recording.old) (R.faults recording.new) (IsErrOf result Ending.RecordingFault) }
{
    let calls = Calls::begin(alloc, recording)?;
    match AnswerBuf::new(alloc) {
        Ok(buf) => Ok((calls, buf)),
        Err(NoMemory) => Err(Ending::Memory),
    }
}

/// Shows the frames of answers whose magic was read.
fn show_behind<R: Source, A: Source, K: Sink>(
    alloc: Global,
    recording: &mut R,
    answers: &mut A,
    sink: &mut K,
) -> Ending
    ensures ran { RanFrom 8 result (A.left answers.old) (A.left answers.new) (K.written sink.old) (K.written sink.new) }
    ensures recording_cause { Counts (R.faults recording.old) (R.faults recording.new) (result ≡ Ending.RecordingFault) }
    ensures answers_cause { Counts (A.faults answers.old) (A.faults answers.new) (result ≡ Ending.AnswersFault) }
    ensures sink_cause { Counts (K.faults sink.old) (K.faults sink.new) (result ≡ Ending.SinkFault) }
{
    match begin(alloc, recording) {
        Ok((mut calls, mut buf)) => show_frames(
            alloc, recording, &mut calls, answers, &mut buf, sink,
        ),
        Err(ending) => ending,
    }
}

/// Shows answers that `bluesky replay` wrote: writes one line for each frame, in order, up to the frame that ends them, behind which nothing is
/// read. The recording that was replayed tells which call a reply answers, by the session and the call's number. It is read only as far as the
/// replies ask for. A recording that is none, or that stops before its end, has the calls up to there.
///
/// What is kept is one frame of each, a record of each session that is open, and the calls that were not answered yet.
pub fn show<R: Source, A: Source, K: Sink>(
    alloc: Global,
    recording: &mut R,
    answers: &mut A,
    sink: &mut K,
) -> Ending
    // Which frames were read, and which lines were written for them, by how it ended.
    ensures ran { Ran result (A.left answers.old) (A.left answers.new) (K.written sink.old) (K.written sink.new) }
    // A line is one line, whatever its text is.
    ensures one_line { (text : List ℕ) → IsLine (line text) }
    // A device is blamed only where it failed in this run.
    ensures recording_cause { Counts (R.faults recording.old) (R.faults recording.new) (result ≡ Ending.RecordingFault) }
    ensures answers_cause { Counts (A.faults answers.old) (A.faults answers.new) (result ≡ Ending.AnswersFault) }
    ensures sink_cause { Counts (K.faults sink.old) (K.faults sink.new) (result ≡ Ending.SinkFault) }
{
    match read_magic(answers) {
        Ok(()) => show_behind(alloc, recording, answers, sink),
        Err(ending) => ending,
    }
}
