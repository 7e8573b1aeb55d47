//! Frames that come out, written to a sink.

ghost use Rattle.std.specs.Prelude.{◌≡◌, ◌≤◌, ◌++◌, drop, length, OnOk, OnErr, IsErr};
ghost use Rattle.sky_base.specs.Status.{number_of, place_of};
ghost use Rattle.sky_outside.specs.Count.{Counts};
ghost use Rattle.sky_outside.specs.Told.{Given, GivenPart};
ghost use Rattle.sky_xdr.specs.Encoding.{uint, uhyper, bool as boolean};
ghost use Rattle.sky_script.specs.Frame.{header as encoded_header, frame, payload_limit, IsOutFrame, Reply, out_frame, stats_bytes};
ghost use Rattle.sky_script.specs.Values.{out_frame_of};

use crate::frame::{OutFrame, Stats};
use byteorder::{BigEndian, ByteOrder};
use sky_base::Status;
use sky_outside::{Failed, Sink, write_all};

/// How many bytes a frame's header has.
pub const HEADER_ROOM: usize = 9;

/// The kind of frame that carries a reply.
const REPLY: u8 = 2;

/// The nine bytes that encode a header.
#[tactic(auto, unfolding(sky_xdr::specs::Encoding::uint))]
fn header_bytes(kind: u8, session: u32, length: u32) -> [u8; 9]
    ensures { result ≡ encoded_header kind session length }
{
    let mut bytes = [0; 9];
    bytes[0] = kind;
    BigEndian::write_u32(&mut bytes[1..], session);
    BigEndian::write_u32(&mut bytes[5..], length);
    bytes
}

/// Writes a frame of at most 2^20 bytes of payload. Where it fails, the sink was given a prefix of it.
pub fn write_frame<K: Sink>(
    sink: &mut K,
    kind: u8,
    session: u32,
    payload: &[u8],
) -> Result<(), Failed>
    requires { length payload.now ≤ payload_limit }
    ensures ok { OnOk result (Given (K.written sink.old) (K.written sink.new)
        (frame (record { kind = kind; session = session; payload = payload.now }))) }
    ensures partly { OnErr result (GivenPart (K.written sink.old) (K.written sink.new)
        (frame (record { kind = kind; session = session; payload = payload.now }))) }
    ensures cause { Counts (K.faults sink.old) (K.faults sink.new) (IsErr result) }
{
    write_all(sink, &header_bytes(kind, session, payload.len() as u32))?;
    write_all(sink, payload)
}

/// Writes the frame of a reply that stands in a buffer behind room for its header, nine bytes, which are overwritten. It is
/// handed to the sink in one piece. Where it fails, the sink was given a prefix of it.
pub fn write_reply_frame<K: Sink>(sink: &mut K, session: u32, buf: &mut [u8]) -> Result<(), Failed>
    requires room { HEADER_ROOM ≤ length buf.old }
    requires formed { IsOutFrame (Reply session (drop HEADER_ROOM buf.old)) }
    ensures ok { OnOk result (Given (K.written sink.old) (K.written sink.new) (out_frame (Reply session (drop HEADER_ROOM buf.old)))) }
    ensures partly { OnErr result (GivenPart (K.written sink.old) (K.written sink.new) (out_frame (Reply session (drop HEADER_ROOM buf.old)))) }
    ensures cause { Counts (K.faults sink.old) (K.faults sink.new) (IsErr result) }
{
    let count = buf.len() - HEADER_ROOM;
    buf[..HEADER_ROOM].copy_from_slice(&header_bytes(REPLY, session, count as u32));
    write_all(sink, buf)
}

/// What the frame of an opening carries.
#[tactic(auto, unfolding(sky_xdr::specs::Encoding::uint, sky_xdr::specs::Encoding::uhyper))]
fn opened_payload(epoch: u64, changes: u64, journal: bool) -> [u8; 20]
    ensures { result ≡ uhyper epoch ++ uhyper changes ++ boolean journal }
{
    let mut bytes = [0; 20];
    BigEndian::write_u64(&mut bytes, epoch);
    BigEndian::write_u64(&mut bytes[8..], changes);
    BigEndian::write_u32(&mut bytes[16..], u32::from(journal));
    bytes
}

/// What the frame of the proxy's numbers carries.
#[tactic(auto, unfolding(sky_xdr::specs::Encoding::uhyper))]
fn stats_payload(stats: Stats) -> [u8; 64]
    ensures { result ≡ stats_bytes stats }
{
    let mut bytes = [0; 64];
    BigEndian::write_u64(&mut bytes, stats.history);
    BigEndian::write_u64(&mut bytes[8..], stats.mark);
    BigEndian::write_u64(&mut bytes[16..], stats.epoch);
    BigEndian::write_u64(&mut bytes[24..], stats.covers);
    BigEndian::write_u64(&mut bytes[32..], stats.merged);
    BigEndian::write_u64(&mut bytes[40..], stats.residents);
    BigEndian::write_u64(&mut bytes[48..], stats.proxy_bytes);
    BigEndian::write_u64(&mut bytes[56..], stats.cleaner_bytes);
    bytes
}

/// What the last frame carries.
#[tactic(auto, unfolding(sky_xdr::specs::Encoding::uint, sky_xdr::specs::Encoding::uhyper))]
fn ended_payload(status: Status) -> [u8; 12]
    ensures { result ≡ uint (number_of status) ++ uhyper (place_of status) }
{
    let mut bytes = [0; 12];
    BigEndian::write_u32(&mut bytes, status.number());
    BigEndian::write_u64(&mut bytes[4..], status.place());
    bytes
}

/// Writes a frame that comes out. Where it fails, the sink was given a prefix of it.
pub fn write_out_frame<K: Sink>(sink: &mut K, frame: &OutFrame<'_>) -> Result<(), Failed>
    requires { IsOutFrame (out_frame_of frame.now) }
    ensures ok { OnOk result (Given (K.written sink.old) (K.written sink.new) (out_frame (out_frame_of frame.now))) }
    ensures partly { OnErr result (GivenPart (K.written sink.old) (K.written sink.new) (out_frame (out_frame_of frame.now))) }
    ensures cause { Counts (K.faults sink.old) (K.faults sink.new) (IsErr result) }
{
    match *frame {
        OutFrame::Reply { session, bytes } => write_frame(sink, REPLY, session, bytes),
        OutFrame::Closed { session } => write_frame(sink, 3, session, &[]),
        OutFrame::Counted(stats) => write_frame(sink, 16, 0, &stats_payload(stats)),
        OutFrame::Opened {
            epoch,
            changes,
            journal,
        } => write_frame(sink, 19, 0, &opened_payload(epoch, changes, journal)),
        OutFrame::Ended(status) => write_frame(sink, 99, 0, &ended_payload(status)),
    }
}
