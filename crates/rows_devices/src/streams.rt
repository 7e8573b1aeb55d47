//! Sources and sinks: a reader and a writer, and those in memory.

use crate::asks::bytes_of;
use sky_memory::{MemSink, MemSource, SureSink, SureSource};
use sky_outside::{Failed, Sink, Source};
use sky_real::{StdinSource, StdoutSink};
use std::alloc::Global;

/// Reads two bytes, and puts what was read behind the rest: how many, and the bytes of the buffer.
fn pull<S: Source>(alloc: Global, source: &mut S, buf: &mut [u8; 2]) -> Option<String> {
    match source.read(buf) {
        Ok(count) => {
            let digits = hex::encode(alloc, buf.as_slice()).ok()?;
            format!(in alloc; " {count}:{digits}").ok()
        }
        Err(Failed) => String::from_str(alloc, " failed").ok(),
    }
}

/// What is read from a source, two bytes at a time.
fn pull_all<S: Source>(alloc: Global, source: &mut S, count: &str) -> Option<String> {
    let mut buf = *b"--";
    let mut all = String::from_str(alloc, "reads").ok()?;
    for _ in 0..count.parse::<u32>().ok()? {
        all.push_str(pull(alloc, source, &mut buf)?.as_str()).ok()?;
    }
    Some(all)
}

/// What is read from a source: `KIND BYTES COUNT`, and of one in memory the calls that fail.
pub fn pulled(alloc: Global, kind: &str, words: &str) -> Option<String> {
    let (digits, rest) = words.split_once(' ')?;
    let (count, fails) = rest.split_once(' ').unwrap_or((rest, "-"));
    let bytes = bytes_of(alloc, digits)?;
    match kind {
        "source" => pull_all(alloc, &mut StdinSource::new(bytes.as_slice()), count),
        "sure-source" => pull_all(alloc, &mut SureSource::new(bytes), count),
        _ => {
            let fails = calls_of(alloc, fails)?;
            pull_all(alloc, &mut MemSource::new(bytes, fails), count)
        }
    }
}

/// Writes a piece, and says how many bytes were taken.
fn push<K: Sink>(alloc: Global, sink: &mut K, bytes: &[u8]) -> Option<String> {
    match sink.write(bytes) {
        Ok(count) => format!(in alloc; " {count}").ok(),
        Err(Failed) => String::from_str(alloc, " failed").ok(),
    }
}

/// What a sink takes of these pieces.
fn push_all<K: Sink>(alloc: Global, sink: &mut K, pieces: &str) -> Option<String> {
    let mut all = String::from_str(alloc, "takes").ok()?;
    for digits in pieces.split_whitespace() {
        let piece = bytes_of(alloc, digits)?;
        all.push_str(push(alloc, sink, &piece)?.as_str()).ok()?;
    }
    Some(all)
}

/// What a sink takes: `KIND PIECES`. One in memory begins with its room and the calls that fail, and then has what is shown.
pub fn pushed(alloc: Global, kind: &str, words: &str) -> Option<String> {
    match kind {
        "sink" => push_all(alloc, &mut StdoutSink::new(Vec::<u8>::new(alloc)), words),
        "sure-sink" => push_all(alloc, &mut SureSink::new(), words),
        _ => push_to_memory(alloc, words),
    }
}

/// What a sink in memory takes: `ROOM FAILS PIECES`, and behind it what it has then.
fn push_to_memory(alloc: Global, words: &str) -> Option<String> {
    let (room, rest) = words.split_once(' ')?;
    let (fails, pieces) = rest.split_once(' ')?;
    let fails = calls_of(alloc, fails)?;
    let mut sink = MemSink::new(alloc, room.parse::<usize>().ok()?, fails).ok()?;
    let taken = push_all(alloc, &mut sink, pieces)?;
    let digits = hex::encode(alloc, sink.bytes()).ok()?;
    format!(in alloc; "{taken} has {digits}").ok()
}

/// The calls of a list such as `1,3`, `-` for none.
fn calls_of(alloc: Global, word: &str) -> Option<Vec<u64>> {
    let mut calls = Vec::new(alloc);
    if word != "-" {
        for number in word.split(',') {
            calls.push(number.parse::<u64>().ok()?).ok()?;
        }
    }
    Some(calls)
}
