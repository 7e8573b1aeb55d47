//! Frames of answers that are no replies.

ghost use Rattle.std.specs.Prelude.{◌≡◌, slice_get};
ghost use Rattle.std.specs.Option.{option_map};
ghost use Rattle.sky_show.specs.Names.{failures, name_in, run_statuses, steps, words_in};

use crate::answers::Answer;
use crate::parts::Quoted;
use sky_script::Stats;
use sky_xdr::{Reader, XdrFault};
use std::fmt;

/// The bytes of an object's name.
const NAME_BYTES: u32 = 37;

/// What a step of the log came to.
#[derive(Clone, Copy)]
pub struct Outcome<'a> {
    /// The step: the frame's kind, 10 to 15.
    kind: u8,
    code: u32,
    first: u64,
    second: u64,
    /// The object that it was done to, if one is named.
    name: Option<&'a [u8]>,
}

/// What a frame that is no reply tells. As text: a sentence about it.
#[derive(Clone, Copy)]
pub enum Told<'a> {
    /// 3: the proxy closed the session.
    Closed,
    /// 10 to 15: what a step of the log came to.
    Stepped(Outcome<'a>),
    /// 16: what the proxy has.
    Counted(Stats),
    /// 19: an opening.
    Opened {
        epoch: u64,
        changes: u64,
        journal: bool,
    },
    /// 99: how the run ended.
    Ended {
        status: u32,
        place: u64,
    },
    /// Nothing that can be read: so many bytes of a frame that is of no known kind, or not of its kind's format.
    Unread(usize),
}

/// Takes what the proxy has, as eight numbers.
fn take_stats(reader: &mut Reader<'_>) -> Result<Stats, XdrFault> {
    Ok(Stats {
        history: reader.take_u64()?,
        mark: reader.take_u64()?,
        epoch: reader.take_u64()?,
        covers: reader.take_u64()?,
        merged: reader.take_u64()?,
        residents: reader.take_u64()?,
        proxy_bytes: reader.take_u64()?,
        cleaner_bytes: reader.take_u64()?,
    })
}

/// Takes what a step came to: a code, two numbers, and where bytes are left the 37 of a name.
fn take_outcome<'a>(kind: u8, reader: &mut Reader<'a>) -> Result<Outcome<'a>, XdrFault> {
    let code = reader.take_u32()?;
    let first = reader.take_u64()?;
    let second = reader.take_u64()?;
    let name = reader.rest();
    if name.len() == NAME_BYTES as usize {
        return Ok(Outcome {
            kind,
            code,
            first,
            second,
            name: Some(name),
        });
    }
    reader.end()?;
    Ok(Outcome {
        kind,
        code,
        first,
        second,
        name: None,
    })
}

/// Takes an opening.
fn take_opened<'a>(reader: &mut Reader<'a>) -> Result<Told<'a>, XdrFault> {
    let epoch = reader.take_u64()?;
    let changes = reader.take_u64()?;
    let journal = reader.take_bool()?;
    Ok(Told::Opened {
        epoch,
        changes,
        journal,
    })
}

/// Takes how the run ended.
fn take_ended<'a>(reader: &mut Reader<'a>) -> Result<Told<'a>, XdrFault> {
    let status = reader.take_u32()?;
    let place = reader.take_u64()?;
    Ok(Told::Ended { status, place })
}

/// What a frame that is no reply tells. A fault where it is of no known kind, or not of its kind's format.
fn read_frame<'a>(answer: Answer<'a>) -> Result<Told<'a>, XdrFault> {
    let mut reader = Reader::over(answer.payload);
    match answer.kind {
        3 => {
            reader.end()?;
            Ok(Told::Closed)
        }
        10..=15 => Ok(Told::Stepped(take_outcome(answer.kind, &mut reader)?)),
        16 => {
            let stats = take_stats(&mut reader)?;
            reader.end()?;
            Ok(Told::Counted(stats))
        }
        19 => {
            let opened = take_opened(&mut reader)?;
            reader.end()?;
            Ok(opened)
        }
        99 => {
            let ended = take_ended(&mut reader)?;
            reader.end()?;
            Ok(ended)
        }
        _ => Err(XdrFault::Left),
    }
}

/// What a frame that is no reply tells, `Unread` where it can't be read.
pub fn told_by<'a>(answer: Answer<'a>) -> Told<'a> {
    match read_frame(answer) {
        Ok(told) => told,
        Err(_) => Told::Unread(answer.payload.len()),
    }
}

/// What a code of a step means, and what its two numbers are, where they are used. `None` where it has no name.
fn words_of(kind: u8, code: u32) -> Option<(&'static str, &'static str, &'static str)>
    ensures { option_map (λ words. (words.0.now, words.1.now, words.2.now)) result ≡ words_in steps kind code }
{
    match (kind, code) {
        (10, 0) => Some(("Sealed", "covers", "objects")),
        (10, 1) => Some(("Unchanged", "covers", "")),
        (10, 2) => Some(("Busy", "objects that wait", "")),
        (11, 0) => Some(("Put", "objects left", "")),
        (11, 1) => Some(("Idle", "", "")),
        (11, 3) => Some(("Completed", "covers", "")),
        (12, 0) => Some(("Evicted", "residents", "clean residents left")),
        (13, 0) => Some(("Chosen", "run", "victims")),
        (13, 1) => Some(("Nothing", "", "")),
        (13, 2) => Some(("Waiting", "run", "")),
        (13, 3) => Some(("Copied", "items", "")),
        (13, 4) => Some(("Finished", "run", "touched")),
        (13, 5) => Some(("Abandoned", "", "")),
        (14, 0) => Some(("Took", "taken", "kept")),
        (14, 1) => Some(("Nothing", "", "")),
        (14, 3) => Some(("Finished", "run", "")),
        (15, 0) => Some(("Removed", "", "")),
        (15, 1) => Some(("Nothing", "", "")),
        _ => None,
    }
}

/// What a code means that each step has, where it is one.
fn failure_of(code: u32) -> Option<&'static str>
    ensures { option_map (λ name. name.now) result ≡ name_in failures code }
{
    match code {
        7 => Some("fault of the cloud"),
        8 => Some("no memory"),
        9 => Some("Lost"),
        _ => None,
    }
}

/// The words of a step's code, whether it is one of the step's own, one that each step has, or has no name.
fn step_words(kind: u8, code: u32) -> (&'static str, &'static str, &'static str) {
    match (words_of(kind, code), failure_of(code)) {
        (Some(words), _) => words,
        (None, Some(what)) => (what, "", ""),
        (None, None) => ("a code that has no name here", "first", "second"),
    }
}

/// Writes a number of a step, if it is used.
fn write_part<W: fmt::Write>(what: &str, number: u64, f: &mut fmt::Formatter<W>) -> fmt::Result {
    if what.is_empty() {
        Ok(())
    } else {
        write!(f, ", {what} {number}")
    }
}

impl fmt::Display for Outcome<'_> {
    fn fmt<W: fmt::Write>(&self, f: &mut fmt::Formatter<W>) -> fmt::Result {
        let (what, first, second) = step_words(self.kind, self.code);
        f.write_str(what)?;
        write_part(first, self.first, f)?;
        write_part(second, self.second, f)?;
        match self.name {
            Some(name) => write!(f, ", object {}", Quoted(name)),
            None => Ok(()),
        }
    }
}

/// The name of a status with which a run ends, by its number.
fn status_word(status: u32) -> Option<&'static str>
    ensures { option_map (λ name. name.now) result ≡ slice_get run_statuses status }
{
    match status {
        0 => Some("Done"),
        1 => Some("Words"),
        2 => Some("Malformed"),
        3 => Some("Early"),
        4 => Some("SourceFault"),
        5 => Some("SinkFault"),
        6 => Some("JournalFault"),
        7 => Some("CloudFault"),
        8 => Some("Memory"),
        9 => Some("Foreign, Missing, Damaged or Worn"),
        10 => Some("Long"),
        11 => Some("Settings"),
        _ => None,
    }
}

/// Writes how the run ended.
fn write_ending<W: fmt::Write>(status: u32, place: u64, f: &mut fmt::Formatter<W>) -> fmt::Result {
    match status {
        2 => write!(f, "status 2 Malformed at byte {place} of the recording"),
        9 if place > 0 => write!(f, "status 9 Foreign at byte {place} of the journal"),
        _ => write!(
            f,
            "status {status} {}",
            status_word(status).unwrap_or("a status that has no name here")
        ),
    }
}

/// Writes what the proxy has.
fn write_stats<W: fmt::Write>(stats: Stats, f: &mut fmt::Formatter<W>) -> fmt::Result {
    write!(
        f,
        "{} changes, {} of them stable, epoch {}, {} covered by the last checkpoint",
        stats.history, stats.mark, stats.epoch, stats.covers
    )?;
    write!(
        f,
        ", merged run {}, {} clean residents, {} live bytes of the proxy and {} of the cleaner",
        stats.merged, stats.residents, stats.proxy_bytes, stats.cleaner_bytes
    )
}

impl fmt::Display for Told<'_> {
    fn fmt<W: fmt::Write>(&self, f: &mut fmt::Formatter<W>) -> fmt::Result {
        match *self {
            Told::Closed => f.write_str("closed by the proxy"),
            Told::Stepped(outcome) => write!(f, "{outcome}"),
            Told::Counted(stats) => write_stats(stats, f),
            Told::Opened {
                epoch,
                changes,
                journal: true,
            } => write!(
                f,
                "epoch {epoch}, {changes} changes found, some of them in the journal"
            ),
            Told::Opened { epoch, changes, .. } => write!(
                f,
                "epoch {epoch}, {changes} changes found, none of them in the journal"
            ),
            Told::Ended { status, place } => write_ending(status, place, f),
            Told::Unread(count) => write!(f, "{count} bytes that can't be read"),
        }
    }
}
