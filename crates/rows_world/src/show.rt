//! The frames that a world answers, as text.

use crate::setup::{Setup, name_of};
use sky_memory::MemSite;
use std::{fmt, io};

/// The bytes of a frame's header: its kind, its session and the length of its payload.
const HEADER: usize = 9;

/// A frame that was written, and what is behind it.
#[derive(Clone, Copy)]
struct Shown<'a> {
    kind: u8,
    session: u32,
    payload: &'a [u8],
    rest: &'a [u8],
}

/// The number that four bytes at a place encode, or 0 where they aren't there.
fn number_at(bytes: &[u8], at: usize) -> u32 {
    match bytes.get(at..) {
        Some([a, b, c, d, ..]) => u32::from_be_bytes([*a, *b, *c, *d]),
        _ => 0,
    }
}

/// The first frame, where it is whole.
fn first_frame(bytes: &[u8]) -> Option<Shown<'_>> {
    if bytes.len() < HEADER {
        return None;
    }
    let (header, behind) = bytes.split_at(HEADER);
    let length = number_at(header, 5) as usize;
    if behind.len() < length {
        return None;
    }
    let (payload, rest) = behind.split_at(length);
    Some(Shown {
        kind: header[0],
        session: number_at(header, 1),
        payload,
        rest,
    })
}

/// Bytes in hexadecimal, `-` for none. Eight or more of one value are written once, with their number behind `*`; parts are joined by `+`.
#[derive(Clone, Copy)]
struct Hex<'a>(&'a [u8]);

/// How many bytes at the beginning are the same.
fn run_of(bytes: &[u8]) -> usize {
    match bytes.first() {
        Some(first) => bytes.iter().take_while(|byte| **byte == *first).count(),
        None => 0,
    }
}

/// Writes bytes of one value behind what was written, if anything was: `joint` says whether what came before was a run.
fn write_run<W: fmt::Write>(
    f: &mut fmt::Formatter<W>,
    run: &[u8],
    begun: bool,
    joint: bool,
) -> fmt::Result {
    let long = run.len() >= 8;
    if joint || (long && begun) {
        write!(f, "+")?;
    }
    match run.first() {
        Some(byte) if long => write!(f, "{byte:02x}*{}", run.len()),
        _ => write_digits(f, run),
    }
}

/// Writes two digits for each byte.
fn write_digits<W: fmt::Write>(f: &mut fmt::Formatter<W>, bytes: &[u8]) -> fmt::Result {
    for byte in bytes {
        write!(f, "{byte:02x}")?;
    }
    Ok(())
}

impl fmt::Display for Hex<'_> {
    fn fmt<W: fmt::Write>(&self, f: &mut fmt::Formatter<W>) -> fmt::Result {
        let bytes = self.0;
        if bytes.is_empty() {
            return write!(f, "-");
        }
        let mut left = bytes;
        let mut joint = false;
        for _ in 0..bytes.len() {
            let (run, rest) = left.split_at(run_of(left).min(left.len()));
            write_run(f, run, left.len() < bytes.len(), joint)?;
            joint = run.len() >= 8;
            left = rest;
            if left.is_empty() {
                break;
            }
        }
        Ok(())
    }
}

/// Prints a frame: its kind, its session, its payload, and behind `=` the payload's numbers.
fn print_frame(rt: &impl Print, name: &str, shown: &Shown<'_>) -> io::Result<()> {
    let payload = shown.payload;
    print!(rt; "{name} {} {} {}", shown.kind, shown.session, Hex(payload))?;
    match shown.kind {
        2 => print_reply(rt, payload)?,
        16 => print_longs(rt, payload, 8)?,
        19 => print_longs(rt, payload, 2)?,
        _ => {}
    }
    println!(rt; "")
}

/// Prints the number of a call and the status of its results, where there are results.
fn print_reply(rt: &impl Print, payload: &[u8]) -> io::Result<()> {
    let call = number_at(payload, 4);
    if payload.len() < 32 {
        return print!(rt; " = call {call}");
    }
    let status = number_at(payload, 28);
    print!(rt; " = call {call} status {status}")
}

/// Prints this many numbers of eight bytes each.
fn print_longs(rt: &impl Print, payload: &[u8], count: usize) -> io::Result<()> {
    print!(rt; " =")?;
    for chunk in payload.chunks(8).take(count) {
        let high = u64::from(number_at(chunk, 0));
        let number = high << 32 | u64::from(number_at(chunk, 4));
        print!(rt; " {number}")?;
    }
    Ok(())
}

/// Prints the frames that were written but the first few, and behind them the bytes of one that is not whole.
pub fn print_frames(rt: &impl Print, name: &str, skip: u64, written: &[u8]) -> io::Result<()> {
    let mut left = written;
    for number in 0..written.len() as u64 {
        match first_frame(left) {
            Some(shown) => {
                if number >= skip {
                    print_frame(rt, name, &shown)?;
                }
                left = shown.rest;
            }
            None => break,
        }
    }
    if left.is_empty() {
        return Ok(());
    }
    println!(rt; "{name} cut {}", Hex(left))
}

/// Prints what a row shows of the site that it left: bytes of the disk, and objects.
pub fn print_site(rt: &impl Print, name: &str, setup: &Setup, site: &MemSite) -> io::Result<()> {
    for (at, length) in &setup.images {
        println!(rt;
            "{name} image {at} {}",
            Hex(part_of(site.image(), *at, *length))
        )?;
    }
    for object in &setup.shown {
        print_object(rt, name, object.as_str(), site)?;
    }
    Ok(())
}

/// This many bytes from a place on, or those that are there.
fn part_of(bytes: &[u8], at: usize, length: usize) -> &[u8] {
    let rest = bytes.get(at..).unwrap_or(&[]);
    rest.get(..length).unwrap_or(rest)
}

/// Prints the bytes of an object.
fn print_object(rt: &impl Print, name: &str, object: &str, site: &MemSite) -> io::Result<()> {
    match name_of(object).and_then(|name| site.held(name)) {
        Some(bytes) => println!(rt; "{name} object {object} {}", Hex(bytes)),
        None => println!(rt; "{name} object {object} none"),
    }
}
