//! Rows of answers and the lines that `skyshow` prints for them. `stdin` has the rows and says how to read them, and `stdout` what must come.
#![tactic(auto)]

use hex::decode;
use sky_memory::{MemSink, MemSource};
use sky_show::show;
use std::alloc::Global;
use std::io;

/// What recordings and answers begin with.
const MAGIC: &[u8] = b"SKYREC1\n";

/// The most bytes of the lines of a row.
const ROOM: usize = 1 << 16;

/// A device that fails, and the number of the call that does.
#[derive(Clone, Copy)]
struct Failing<'a> {
    device: &'a str,
    call: u64,
}

/// The bytes that digits stand for.
fn bytes_of(alloc: Global, digits: &str) -> Option<Vec<u8>> {
    if digits == "-" {
        return Some(Vec::new(alloc));
    }
    decode(alloc, digits).ok()
}

/// The bytes of a word: behind `!` all of them, and else those of the frames behind the magic.
fn stream_of(alloc: Global, word: &str) -> Option<Vec<u8>> {
    match word.strip_prefix('!') {
        Some(digits) => bytes_of(alloc, digits),
        None => {
            let mut bytes = Vec::from_slice(alloc, MAGIC).ok()?;
            bytes.extend_from_slice(&bytes_of(alloc, word)?).ok()?;
            Some(bytes)
        }
    }
}

/// The calls of a device that fail.
fn calls_of(alloc: Global, device: &str, failing: Option<Failing<'_>>) -> Option<Vec<u64>> {
    let mut calls = Vec::new(alloc);
    if let Some(failing) = failing
        && failing.device == device
    {
        calls.push(failing.call).ok()?;
    }
    Some(calls)
}

/// Prints lines, each behind two spaces.
fn print_lines(rt: &impl Print, lines: &str) -> io::Result<()> {
    for line in lines.lines() {
        println!(rt; "  {line}")?;
    }
    Ok(())
}

/// Shows the answers of a row, and prints its name, the exit status and the lines. `None` where it can't be read.
fn show_row(
    rt: &impl Print,
    alloc: Global,
    name: &str,
    recording: &str,
    answers: &str,
    failing: Option<Failing<'_>>,
) -> Option<io::Result<()>> {
    let mut source = MemSource::new(
        stream_of(alloc, recording)?,
        calls_of(alloc, "recording", failing)?,
    );
    let mut answered = MemSource::new(
        stream_of(alloc, answers)?,
        calls_of(alloc, "answers", failing)?,
    );
    let mut sink = MemSink::new(alloc, ROOM, calls_of(alloc, "sink", failing)?).ok()?;
    let ending = show(alloc, &mut source, &mut answered, &mut sink);
    let lines = str::from_utf8(sink.bytes()).ok()?;
    match println!(rt; "{name} {}", ending.number()) {
        Ok(()) => Some(print_lines(rt, lines)),
        Err(error) => Some(Err(error)),
    }
}

/// Shows the answers of a row with these words.
fn show_words(rt: &impl Print, alloc: Global, words: &[&str]) -> Option<io::Result<()>> {
    match words {
        [name, recording, answers] => show_row(rt, alloc, name, recording, answers, None),
        [name, recording, answers, device, call] => {
            let call = call.parse::<u64>().ok()?;
            let failing = Failing { device, call };
            show_row(rt, alloc, name, recording, answers, Some(failing))
        }
        _ => None,
    }
}

/// Answers a line. Empty ones and headings are passed over.
fn answer_line(rt: &impl Print, alloc: Global, line: &str) -> io::Result<()> {
    if line.is_empty() || line.starts_with('#') {
        return Ok(());
    }
    let words: Vec<&str> = line.split_whitespace().collect(alloc)?;
    match show_words(rt, alloc, words.as_slice()) {
        Some(done) => done,
        None => println!(rt; "{line} cannot be read"),
    }
}

fn main(rt: HostRuntime) -> io::Result<()> {
    let alloc = rt.alloc();
    for line in rt.lines(alloc) {
        answer_line(&rt, alloc, line?.as_str())?;
    }
    Ok(())
}
