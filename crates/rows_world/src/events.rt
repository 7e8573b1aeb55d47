//! What happens to a world, as the frames of a recording.

use crate::words::{bytes_of, numbers_of};
use std::alloc::Global;

/// The kinds of frames that go in.
const BEGIN: u8 = 1;

const BYTES: u8 = 2;

const CLOSE: u8 = 3;

const SET_MOMENT: u8 = 4;

const STAT: u8 = 16;

const RESTART: u8 = 20;

const RESTART_WITHOUT_JOURNAL: u8 = 21;

const END: u8 = 99;

/// Puts a frame behind the others.
fn put_frame(recording: &mut Vec<u8>, kind: u8, session: u32, payload: &[u8]) -> Option<()> {
    let length = u32::try_from(payload.len()).ok()?;
    recording.push(kind).ok()?;
    recording.extend_from_slice(&session.to_be_bytes()).ok()?;
    recording.extend_from_slice(&length.to_be_bytes()).ok()?;
    recording.extend_from_slice(payload).ok()
}

/// Puts the frame that ends a recording behind the others.
pub fn end(recording: &mut Vec<u8>) -> Option<()> {
    put_frame(recording, END, 0, &[])
}

/// Puts the frame of a moment: `SECONDS:NANOSECONDS`.
fn put_moment(recording: &mut Vec<u8>, rest: &str) -> Option<()> {
    let (seconds, nanos) = rest.split_once(':')?;
    let seconds = seconds.parse::<u32>().ok()?;
    let nanos = nanos.parse::<u32>().ok()?;
    let moment = u64::from(seconds) << 32 | u64::from(nanos);
    put_frame(recording, SET_MOMENT, 0, &moment.to_be_bytes())
}

/// Puts the next bytes of a session's stream, in one frame: `SESSION:BYTES`.
fn put_bytes(alloc: Global, recording: &mut Vec<u8>, rest: &str) -> Option<()> {
    let (session, bytes) = rest.split_once(':')?;
    let bytes = bytes_of(alloc, bytes)?;
    put_frame(recording, BYTES, session.parse::<u32>().ok()?, &bytes)
}

/// Puts bytes in pieces, each of them for these sessions one after the other: `SESSION,SESSION:SIZE:BYTES`.
fn put_pieces(alloc: Global, recording: &mut Vec<u8>, rest: &str) -> Option<()> {
    let (sessions, rest) = rest.split_once(':')?;
    let (size, bytes) = rest.split_once(':')?;
    let size = size.parse::<usize>().ok()?;
    if size == 0 {
        return None;
    }
    let bytes = bytes_of(alloc, bytes)?;
    for piece in bytes.chunks(size) {
        put_piece(recording, sessions, piece)?;
    }
    Some(())
}

/// Puts a piece for these sessions, one after the other.
fn put_piece(recording: &mut Vec<u8>, sessions: &str, piece: &[u8]) -> Option<()> {
    for session in sessions.split(',') {
        put_frame(recording, BYTES, session.parse::<u32>().ok()?, piece)?;
    }
    Some(())
}

/// Puts numbers of four bytes each.
fn put_numbers(record: &mut Vec<u8>, numbers: &[u32]) -> Option<()> {
    for number in numbers {
        record.extend_from_slice(&number.to_be_bytes()).ok()?;
    }
    Some(())
}

/// Puts who calls, as AUTH_SYS has it: of the machine nothing, a user, a group and further groups.
fn put_caller(record: &mut Vec<u8>, user: u32, group: u32, groups: &[u64]) -> Option<()> {
    let count = u32::try_from(groups.len()).ok()?;
    let length = count.checked_mul(4)?.checked_add(20)?;
    put_numbers(record, &[1, length, 0, 0, user, group, count])?;
    for group in groups {
        put_numbers(record, &[u32::try_from(*group).ok()?])?;
    }
    put_numbers(record, &[0, 0])
}

/// Puts a call of version 3 of NFS: `USER:GROUP:GROUPS:PROCEDURE:ARGUMENTS`.
fn put_nfs_call(alloc: Global, record: &mut Vec<u8>, rest: &str) -> Option<()> {
    let (user, rest) = rest.split_once(':')?;
    let (group, rest) = rest.split_once(':')?;
    let (groups, rest) = rest.split_once(':')?;
    let (procedure, arguments) = rest.split_once(':')?;
    put_numbers(
        record,
        &[1, 0, 2, 100003, 3, procedure.parse::<u32>().ok()?],
    )?;
    let user = user.parse::<u32>().ok()?;
    let group = group.parse::<u32>().ok()?;
    let groups = numbers_of(alloc, groups)?;
    put_caller(record, user, group, &groups)?;
    record.extend_from_slice(&bytes_of(alloc, arguments)?).ok()
}

/// Puts a call as one record in one frame.
fn put_record(alloc: Global, recording: &mut Vec<u8>, session: u32, call: &[u8]) -> Option<()> {
    let mark = u32::try_from(call.len()).ok()? | 1 << 31;
    let mut record = mark.to_be_bytes().to_vec(alloc).ok()?;
    record.extend_from_slice(call).ok()?;
    put_frame(recording, BYTES, session, &record)
}

/// Puts a call of a session: `SESSION:USER:GROUP:GROUPS:PROCEDURE:ARGUMENTS`.
fn put_call(alloc: Global, recording: &mut Vec<u8>, rest: &str) -> Option<()> {
    let (session, rest) = rest.split_once(':')?;
    let session = session.parse::<u32>().ok()?;
    let mut call = Vec::new(alloc);
    put_nfs_call(alloc, &mut call, rest)?;
    put_record(alloc, recording, session, &call)
}

/// Puts a call that links a file under a name of this length, which begins with five digits of a number.
fn put_link(
    alloc: Global,
    recording: &mut Vec<u8>,
    handles: &[u8],
    number: u32,
    length: u32,
) -> Option<()> {
    let mut call = Vec::new(alloc);
    put_numbers(&mut call, &[1, 0, 2, 100003, 3, 15])?;
    put_caller(&mut call, 0, 0, &[])?;
    call.extend_from_slice(handles).ok()?;
    put_numbers(&mut call, &[length])?;
    for scale in [10000, 1000, 100, 10, 1] {
        call.push(b'0' + (number / scale % 10) as u8).ok()?;
    }
    for _ in 5..length {
        call.push(b'n').ok()?;
    }
    for _ in 0..length.wrapping_neg() % 4 {
        call.push(0).ok()?;
    }
    put_record(alloc, recording, 0, &call)
}

/// Puts calls of session 0 that give a file names with the numbers from 0 on: `HANDLES:COUNT:LENGTH`, with the handles of the file and of the
/// directory as LINK has them.
fn put_links(alloc: Global, recording: &mut Vec<u8>, rest: &str) -> Option<()> {
    let (handles, rest) = rest.split_once(':')?;
    let (count, length) = rest.split_once(':')?;
    let count = count.parse::<u32>().ok()?;
    let length = length.parse::<u32>().ok()?;
    let handles = bytes_of(alloc, handles)?;
    for number in 0..count {
        put_link(alloc, recording, &handles, number, length)?;
    }
    Some(())
}

/// Puts bytes into the recording as they are.
fn put_raw(alloc: Global, recording: &mut Vec<u8>, rest: &str) -> Option<()> {
    let bytes = bytes_of(alloc, rest)?;
    recording.extend_from_slice(&bytes).ok()
}

/// Puts what happens behind what happened before.
pub fn put(alloc: Global, recording: &mut Vec<u8>, word: &str) -> Option<()> {
    match word.split_once(':') {
        Some(("begin", session)) => put_frame(recording, BEGIN, session.parse::<u32>().ok()?, &[]),
        Some(("close", session)) => put_frame(recording, CLOSE, session.parse::<u32>().ok()?, &[]),
        Some(("bytes", rest)) => put_bytes(alloc, recording, rest),
        Some(("pieces", rest)) => put_pieces(alloc, recording, rest),
        Some(("moment", rest)) => put_moment(recording, rest),
        Some(("call", rest)) => put_call(alloc, recording, rest),
        Some(("links", rest)) => put_links(alloc, recording, rest),
        Some(("raw", rest)) => put_raw(alloc, recording, rest),
        Some(_) => None,
        None => put_plain(recording, word),
    }
}

/// Puts a frame that has neither a session nor a payload.
fn put_plain(recording: &mut Vec<u8>, word: &str) -> Option<()> {
    match word {
        "stat" => put_frame(recording, STAT, 0, &[]),
        "restart" => put_frame(recording, RESTART, 0, &[]),
        "restart-without-journal" => put_frame(recording, RESTART_WITHOUT_JOURNAL, 0, &[]),
        _ => None,
    }
}
