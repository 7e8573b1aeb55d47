//! Rows of frames that end a run, of a reply of no bytes, of the settings where nothing is said, and of who is of a group.

use crate::words::{Hex, bytes_of, number, small, word_of};
use sky_access::is_of_group;
use sky_base::{Cred, Gids, Status};
use sky_memory::MemSink;
use sky_script::{HEADER_ROOM, OutFrame, PAYLOAD_LIMIT, write_out_frame, write_reply_frame};
use sky_settings::Settings;
use std::alloc::Global;
use std::io;

/// The status of a word, and of a place.
fn status_of(word: &str, at: u64) -> Option<Status> {
    match word {
        "done" => Some(Status::Done),
        "early" => Some(Status::Early),
        "foreign" => Some(Status::Foreign { at }),
        "worn" => Some(Status::Worn),
        _ => None,
    }
}

/// Writes the frame that ends a run: `STATUS PLACE`.
pub fn ended(rt: &impl Print, alloc: Global, row: &str, args: &[&str]) -> Option<io::Result<()>> {
    let [word, at] = args else {
        return None;
    };
    let status = status_of(word, number(at)?)?;
    let mut sink = MemSink::new(alloc, 100, Vec::new(alloc)).ok()?;
    let well = write_out_frame(&mut sink, &OutFrame::Ended(status)).is_ok();
    Some(println!(rt; "{row} {} {}", word_of(well, "failed"), Hex(sink.bytes())))
}

/// Writes a reply of session 0 that stands in a buffer behind room for its header: `BUFFER`.
pub fn reply(rt: &impl Print, alloc: Global, row: &str, args: &[&str]) -> Option<io::Result<()>> {
    let mut buf = bytes_of(alloc, args.first()?)?;
    if buf.len() < HEADER_ROOM || buf.len() - HEADER_ROOM > PAYLOAD_LIMIT as usize {
        return None;
    }
    let mut sink = MemSink::new(alloc, 100, Vec::new(alloc)).ok()?;
    let well = write_reply_frame(&mut sink, 0, &mut buf).is_ok();
    Some(println!(rt; "{row} {} {}", word_of(well, "failed"), Hex(sink.bytes())))
}

/// The settings where nothing is said.
pub fn settings(rt: &impl Print, row: &str) -> Option<io::Result<()>> {
    let it = Settings::default().fields();
    Some(println!(rt;
        "{row} {} {} {} {} {}",
        it.volume, it.journal_area, it.retained, it.threshold, it.cache_items
    ))
}

/// Whether a caller without further groups is of a group: `UID GID GROUP`.
pub fn of_group(rt: &impl Print, row: &str, args: &[&str]) -> Option<io::Result<()>> {
    let [uid, gid, group] = args else {
        return None;
    };
    let cred = Cred {
        uid: small(uid)?,
        gid: small(gid)?,
        gids: Gids::new(),
    };
    Some(println!(rt; "{row} {}", is_of_group(&cred, small(group)?)))
}
