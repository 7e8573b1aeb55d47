//! Frames that go in, read from a source.

ghost use Rattle.std.specs.Prelude.{◌≡◌, ◌<◌, ◌≤◌, ◌^◌, ◌++◌, [], true, length, length as length_of, take, IfOk, OnOk, OnErr, IsErrOf, MatchResult, vec_len};
ghost use Rattle.sky_outside.specs.Count.{Counts};
ghost use Rattle.sky_outside.specs.Told.{WhereTold, Had, HadPart};
ghost use Rattle.sky_script.specs.Frame.{IsInFrame, header as encoded_header, in_frame, payload_limit};
ghost use Rattle.sky_script.specs.Frame as frames;
ghost use Rattle.sky_script.specs.Beginning.{IsRefused, IsCutShort, HadSome};
ghost use Rattle.sky_script.specs.Values.{frame_of, fault_of};

use crate::frame::Frame;
use crate::{PAYLOAD_LIMIT, SESSION_COUNT};
use byteorder::{BigEndian, ByteOrder};
use sky_base::{Moment, NoMemory};
use sky_outside::{FillFault, Source, fill};
use std::alloc::Global;

/// The bytes of a frame's header.
const HEADER_LENGTH: usize = 9;

/// How many nanoseconds a second has.
const SECOND: u32 = 1_000_000_000;

/// Why no frame was read.
#[derive(Clone, Copy, Debug, PartialEq, Eq)]
pub enum FrameFault {
    /// What stands there is no frame.
    Malformed,
    /// The source ended before the frame did.
    Early,
    /// A read failed.
    SourceFault,
}

impl From<FillFault> for FrameFault {
    ghost from_gives = { λ fault e. e ≡ fault_of fault };

    fn from(fault: FillFault) -> FrameFault {
        match fault {
            FillFault::Early => FrameFault::Early,
            FillFault::Broken => FrameFault::SourceFault,
        }
    }
}

/// A buffer for the payload of one frame.
#[derive(Drop)]
pub struct FrameBuf {
    bytes: Vec<u8>,
    ghost whole: { vec_len bytes ≡ payload_limit },
}

/// Fills the prefix of a buffer from a source.
fn fill_prefix<S: Source>(source: &mut S, buf: &mut [u8], len: usize) -> Result<(), FillFault>
    requires { len ≤ length buf.old }
    ensures ok { OnOk result (Had (S.left source.old) (S.left source.new) (take len buf.new)) }
    ensures partly { OnErr result (HadPart (S.left source.old) (S.left source.new) (take len buf.new)) }
    ensures early { IsErrOf result FillFault.Early → WhereTold (S.left source.new) (λ rest. rest ≡ []) }
    ensures cause { Counts (S.faults source.old) (S.faults source.new) (IsErrOf result FillFault.Broken) }
{
    fill(source, &mut buf[..len])
}

impl FrameBuf {
    /// Reserves the buffer, for the longest payload.
    pub fn new(alloc: Global) -> Result<FrameBuf, NoMemory> {
        let bytes = vec![in alloc; 0; PAYLOAD_LIMIT as usize]?;
        Ok(FrameBuf { bytes })
    }

    /// Fills the prefix of the buffer from a source.
    fn take_in<S: Source>(&mut self, source: &mut S, length: u32) -> Result<(), FillFault>
        requires { length ≤ payload_limit }
        ensures ok { OnOk result (Had (S.left source.old) (S.left source.new) (take length self.new.bytes.items)) }
        ensures partly { OnErr result (HadPart (S.left source.old) (S.left source.new) (take length self.new.bytes.items)) }
        ensures early { IsErrOf result FillFault.Early → WhereTold (S.left source.new) (λ rest. rest ≡ []) }
        ensures cause { Counts (S.faults source.old) (S.faults source.new) (IsErrOf result FillFault.Broken) }
    {
        fill_prefix(source, &mut self.bytes, length as usize)
    }

    /// The prefix of the buffer.
    fn prefix(&self, length: u32) -> &[u8]
        requires { length ≤ payload_limit }
        ensures { result.now ≡ take length self.now.bytes.items }
    {
        &self.bytes[..length as usize]
    }
}

/// A frame's header.
#[derive(Clone, Copy)]
struct Header {
    kind: u8,
    session: u32,
    length: u32,
}

/// Whether a header is one of a frame that may go in.
fn is_header(header: &Header) -> bool
    ensures { result ≡ frames.is_header header.now.kind header.now.session header.now.length }
{
    match header.kind {
        1 | 3 => header.session < SESSION_COUNT && header.length == 0,
        2 => header.session < SESSION_COUNT && header.length <= PAYLOAD_LIMIT,
        4 => header.session == 0 && header.length == 8,
        16 | 20 | 21 | 99 => header.session == 0 && header.length == 0,
        _ => false,
    }
}

/// The header that nine bytes encode.
fn header_of(bytes: &[u8]) -> Header
    requires { length bytes.now ≡ 9 }
    ensures encoded { bytes.now ≡ encoded_header result.kind result.session result.length }
    ensures kind { result.kind < 2 ^ 8 }
    ensures session { result.session < 2 ^ 32 }
    ensures length { result.length < 2 ^ 32 }
{
    Header {
        kind: bytes[0],
        session: BigEndian::read_u32(&bytes[1..]),
        length: BigEndian::read_u32(&bytes[5..]),
    }
}

/// Reads the nine bytes with which a frame begins.
fn read_header<S: Source>(source: &mut S) -> Result<Header, FillFault>
    ensures ok { IfOk result (λ h.
        Had (S.left source.old) (S.left source.new) (encoded_header h.kind h.session h.length)) }
    ensures fits { IfOk result (λ h. (h.kind < 2 ^ 8) × (h.session < 2 ^ 32) × (h.length < 2 ^ 32)) }
    ensures partly { OnErr result (HadSome IsCutShort (S.left source.old) (S.left source.new)) }
    ensures early { IsErrOf result FillFault.Early → WhereTold (S.left source.new) (λ rest. rest ≡ []) }
    ensures cause { Counts (S.faults source.old) (S.faults source.new) (IsErrOf result FillFault.Broken) }
{
    let mut bytes = [0; HEADER_LENGTH];
    fill(source, &mut bytes)?;
    Ok(header_of(&bytes))
}

/// The frame of a moment, or nothing where its nanoseconds are a second or more.
fn moment_in(payload: &[u8]) -> Result<Moment, FrameFault>
    requires { length payload.now ≡ 8 }
    ensures moment { IfOk result (λ at. IsInFrame (frames.SetMoment at)) }
    ensures encoded { IfOk result (λ at. encoded_header 4 0 8 ++ payload.now ≡ in_frame (frames.SetMoment at)) }
    ensures refused { OnErr result (IsRefused (encoded_header 4 0 8 ++ payload.now)) }
    ensures malformed { OnErr result (IsErrOf result FrameFault.Malformed) }
{
    let at = Moment {
        seconds: BigEndian::read_u32(payload),
        nanos: BigEndian::read_u32(&payload[4..]),
    };
    if at.nanos < SECOND {
        Ok(at)
    } else {
        Err(FrameFault::Malformed)
    }
}

/// The frame of this header that carries this payload. `Malformed` is a moment that is none.
fn frame_with(header: Header, payload: &[u8]) -> Result<Frame<'_>, FrameFault>
    requires known { frames.is_header header.kind header.session header.length ≡ true }
    requires whole { length payload.now ≡ header.length }
    ensures formed { IfOk result (λ f. IsInFrame (frame_of f)) }
    ensures encoded { IfOk result (λ f. encoded_header header.kind header.session header.length ++ payload.now ≡ in_frame (frame_of f)) }
    ensures refused { OnErr result (IsRefused (encoded_header header.kind header.session header.length ++ payload.now)) }
    ensures malformed { OnErr result (IsErrOf result FrameFault.Malformed) }
{
    let session = header.session;
    match header.kind {
        1 => Ok(Frame::Begin { session }),
        2 => Ok(Frame::Bytes { session, payload }),
        3 => Ok(Frame::Close { session }),
        4 => Ok(Frame::SetMoment(moment_in(payload)?)),
        16 => Ok(Frame::Stat),
        20 => Ok(Frame::Restart),
        21 => Ok(Frame::RestartWithoutJournal),
        _ => Ok(Frame::End),
    }
}

/// Reads the next frame, into the buffer what it carries.
///
/// `Malformed` where what stands there is no frame: its header is judged when its nine bytes are
/// there, and a moment when it is whole, and nothing is read past them. `Early` where the source ends
/// within the frame; `SourceFault` where a read failed.
pub fn read_frame<'a, S: Source>(
    source: &mut S,
    buf: &'a mut FrameBuf,
) -> Result<Frame<'a>, FrameFault>
    ensures formed { IfOk result (λ f. IsInFrame (frame_of f)) }
    ensures ok { IfOk result (λ f. Had (S.left source.old) (S.left source.new) (in_frame (frame_of f))) }
    ensures malformed { IsErrOf result FrameFault.Malformed → HadSome IsRefused (S.left source.old) (S.left source.new) }
    ensures early { IsErrOf result FrameFault.Early → HadSome IsCutShort (S.left source.old) (S.left source.new) }
    ensures end { IsErrOf result FrameFault.Early → WhereTold (S.left source.new) (λ rest. rest ≡ []) }
    ensures fault { IsErrOf result FrameFault.SourceFault → HadSome IsCutShort (S.left source.old) (S.left source.new) }
    ensures cause { Counts (S.faults source.old) (S.faults source.new) (IsErrOf result FrameFault.SourceFault) }
{
    let header = read_header(source)?;
    if !is_header(&header) {
        return Err(FrameFault::Malformed);
    }
    buf.take_in(source, header.length)?;
    frame_with(header, buf.prefix(header.length))
}
