//! Frames of answers, read from a source.

ghost use Rattle.std.specs.Prelude.{◌≡◌, ◌≤◌, ℕ, List, [], take, length, vec_len, IfOk, OnOk, OnErr, IsErrOf};
ghost use Rattle.sky_outside.specs.Count.{Counts};
ghost use Rattle.sky_outside.specs.Told.{Had, WhereTold};
ghost use Rattle.sky_script.specs.Frame.{frame, header as encoded_header, payload_limit};
ghost use Rattle.sky_show.specs.Frames.{fault_of, parts_of, HadSome, IsTooLong};

use byteorder::{BigEndian, ByteOrder};
use sky_base::NoMemory;
use sky_outside::{FillFault, Source, fill};
use sky_script::PAYLOAD_LIMIT;
use std::alloc::Global;

/// A frame of answers, whatever its kind is.
#[derive(Clone, Copy)]
pub struct Answer<'a> {
    pub kind: u8,
    pub session: u32,
    pub payload: &'a [u8],
}

/// Why no frame was read.
#[derive(Clone, Copy, PartialEq, Eq)]
pub enum AnswerFault {
    /// Its payload would have more than 2^20 bytes, so what stands there is no frame.
    Malformed,
    /// The source ended before the frame did.
    Early,
    /// A read failed.
    SourceFault,
}

impl From<FillFault> for AnswerFault {
    ghost from_gives = { λ fault e. e ≡ fault_of fault };

    fn from(fault: FillFault) -> AnswerFault {
        match fault {
            FillFault::Early => AnswerFault::Early,
            FillFault::Broken => AnswerFault::SourceFault,
        }
    }
}

/// A buffer for the payload of one frame.
#[derive(Drop)]
pub struct AnswerBuf {
    bytes: Vec<u8>,
    ghost whole: { vec_len bytes ≡ payload_limit },
}

impl AnswerBuf {
    /// Reserves the buffer, for the longest payload.
    pub fn new(alloc: Global) -> Result<AnswerBuf, NoMemory> {
        let bytes = vec![in alloc; 0; PAYLOAD_LIMIT as usize]?;
        Ok(AnswerBuf { bytes })
    }
}

/// A frame's header.
#[derive(Clone, Copy)]
struct Header {
    kind: u8,
    session: u32,
    length: u32,
}

/// The header that nine bytes encode.
fn header_of(bytes: &[u8]) -> Header
    requires { length bytes.now ≡ 9 }
    ensures { bytes.now ≡ encoded_header result.kind result.session result.length }
{
    Header {
        kind: bytes[0],
        session: BigEndian::read_u32(&bytes[1..]),
        length: BigEndian::read_u32(&bytes[5..]),
    }
}

/// Fills the beginning of a buffer from a source.
fn fill_some<S: Source>(source: &mut S, buf: &mut [u8], len: usize) -> Result<(), FillFault>
    requires { len ≤ length buf.old }
    ensures ok { OnOk result (Had (S.left source.old) (S.left source.new) (take len buf.new)) }
    ensures partly { OnErr result (HadSome (S.left source.old) (S.left source.new)) }
    ensures early { IsErrOf result FillFault.Early → WhereTold (S.left source.new) (λ rest. rest ≡ []) }
    ensures cause { Counts (S.faults source.old) (S.faults source.new) (IsErrOf result FillFault.Broken) }
{
    fill(source, &mut buf[..len])
}

/// Reads the next frame, into the buffer what it carries. `Malformed` where its payload would be too long: it is judged when the nine bytes
/// of its header are there, and nothing is read past them.
pub fn read_answer<'a, S: Source>(
    source: &mut S,
    buf: &'a mut AnswerBuf,
) -> Result<Answer<'a>, AnswerFault>
    ensures ok { IfOk result (λ answer. Had (S.left source.old) (S.left source.new) (frame (parts_of answer))) }
    ensures within { IfOk result (λ answer. length answer.payload.now ≤ payload_limit) }
    ensures malformed { IsErrOf result AnswerFault.Malformed → (taken : List ℕ) × IsTooLong taken × Had (S.left source.old) (S.left source.new) taken }
    ensures partly { OnErr result (HadSome (S.left source.old) (S.left source.new)) }
    ensures early { IsErrOf result AnswerFault.Early → WhereTold (S.left source.new) (λ rest. rest ≡ []) }
    ensures cause { Counts (S.faults source.old) (S.faults source.new) (IsErrOf result AnswerFault.SourceFault) }
{
    let mut bytes = [0; 9];
    fill(source, &mut bytes)?;
    let header = header_of(&bytes);
    if header.length > PAYLOAD_LIMIT {
        return Err(AnswerFault::Malformed);
    }
    let length = header.length as usize;
    fill_some(source, &mut buf.bytes, length)?;
    Ok(Answer {
        kind: header.kind,
        session: header.session,
        payload: &buf.bytes[..length],
    })
}
