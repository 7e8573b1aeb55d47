//! Rows of what is written into buffers that may be too short.

ghost use Rattle.std.specs.Prelude.{◌^◌, ◌<◌};
ghost use Rattle.sky_rpc.specs.Values.{message_length};

use crate::words::{Count, Hex, bytes_of, small, word_of};
use sky_args::{args_length, read_args, write_args};
use sky_mount::{MountCall, write_mount};
use sky_rpc::{ReplyBody, put_words, write_reply};
use sky_xdr::{NoRoom, Reader, Writer};
use std::alloc::Global;
use std::io;

/// Puts an item: `u32`, `u64` or `bool`, of 7 or true each, or `fixed:BYTES` or `opaque:BYTES`.
fn put_item(alloc: Global, writer: &mut Writer<'_>, item: &str) -> Option<Result<(), NoRoom>> {
    match item.split_once(':') {
        Some((kind, word)) => put_data(writer, kind, &bytes_of(alloc, word)?),
        None => put_number(writer, item),
    }
}

/// Puts a number or a truth.
fn put_number(writer: &mut Writer<'_>, kind: &str) -> Option<Result<(), NoRoom>> {
    match kind {
        "u32" => Some(writer.put_u32(7)),
        "u64" => Some(writer.put_u64(7)),
        "bool" => Some(writer.put_bool(true)),
        _ => None,
    }
}

/// Puts data.
fn put_data(writer: &mut Writer<'_>, kind: &str, bytes: &[u8]) -> Option<Result<(), NoRoom>> {
    if bytes.len() >= 1 << 32 {
        return None;
    }
    match kind {
        "fixed" => Some(writer.put_fixed(bytes)),
        "opaque" => Some(writer.put_opaque(bytes)),
        _ => None,
    }
}

/// Puts items, and prints how each went.
fn print_items(
    rt: &impl Print,
    alloc: Global,
    writer: &mut Writer<'_>,
    items: &[&str],
) -> Option<io::Result<()>> {
    for item in items {
        let well = put_item(alloc, writer, item)?.is_ok();
        let done = print!(rt; " {}", word_of(well, "no-room"));
        if done.is_err() {
            return Some(done);
        }
    }
    Some(print!(rt; " written {}", writer.written()))
}

/// Puts items into a buffer: `BUFFER ITEM..`.
pub fn put_items(
    rt: &impl Print,
    alloc: Global,
    row: &str,
    args: &[&str],
) -> Option<io::Result<()>> {
    let [buffer, items @ ..] = args else {
        return None;
    };
    let mut buf = bytes_of(alloc, buffer)?;
    let begun = print!(rt; "{row}");
    if begun.is_err() {
        return Some(begun);
    }
    let done = print_items(rt, alloc, &mut Writer::over(&mut buf), items)?;
    if done.is_err() {
        return Some(done);
    }
    Some(println!(rt; " {}", Hex(&buf)))
}

/// Takes data of two lengths: `BYTES LENGTH LENGTH`.
pub fn take_twice(
    rt: &impl Print,
    alloc: Global,
    row: &str,
    args: &[&str],
) -> Option<io::Result<()>> {
    let [bytes, first, second] = args else {
        return None;
    };
    let bytes = bytes_of(alloc, bytes)?;
    let mut reader = Reader::over(&bytes);
    let one = reader.take_fixed(small(first)?).ok()?;
    let two = reader.take_fixed(small(second)?).ok()?;
    Some(println!(rt;
        "{row} {} {} left {}",
        Hex(one),
        Hex(two),
        Hex(reader.rest())
    ))
}

/// Puts a number of four bytes: `BUFFER NUMBER`.
pub fn put_numbers(
    rt: &impl Print,
    alloc: Global,
    row: &str,
    args: &[&str],
) -> Option<io::Result<()>> {
    let [buffer, number] = args else {
        return None;
    };
    let number = small(number)?;
    let mut buf = bytes_of(alloc, buffer)?;
    let mut writer = Writer::over(&mut buf);
    let well = put_words(&mut writer, &[number]).is_ok();
    let count = writer.written();
    Some(println!(rt;
        "{row} {} written {count} {}",
        word_of(well, "no-room"),
        Hex(&buf)
    ))
}

/// The body of a word.
fn body_of(word: &str) -> Option<ReplyBody> {
    match word {
        "done" => Some(ReplyBody::Success { results: 0 }),
        "done-of-4" => Some(ReplyBody::Success { results: 4 }),
        "prog-unavail" => Some(ReplyBody::ProgUnavail),
        "prog-mismatch" => Some(ReplyBody::ProgMismatch),
        "proc-unavail" => Some(ReplyBody::ProcUnavail),
        "garbage-args" => Some(ReplyBody::GarbageArgs),
        "system-err" => Some(ReplyBody::SystemErr),
        "bad-version" => Some(ReplyBody::BadVersion),
        "bad-cred" => Some(ReplyBody::BadCred),
        _ => None,
    }
}

/// Writes the reply to call 7: `BUFFER BODY`.
pub fn put_reply(
    rt: &impl Print,
    alloc: Global,
    row: &str,
    args: &[&str],
) -> Option<io::Result<()>> {
    let [buffer, body] = args else {
        return None;
    };
    let mut buf = bytes_of(alloc, buffer)?;
    let count = reply_written(&mut buf, body)?;
    Some(println!(rt; "{row} {count} {}", Hex(&buf)))
}

/// How many bytes of a reply were written.
fn reply_written(buf: &mut [u8], word: &str) -> Option<Count> {
    let body = body_of(word)?;
    if let ReplyBody::Success { results } = body
        && results > 4
    {
        return None;
    }
    Some(Count(write_body(buf, body)))
}

/// Writes a reply whose results are few.
fn write_body(buf: &mut [u8], body: ReplyBody) -> Option<usize>
    requires { message_length body < 2 ^ 31 }
{
    write_reply(buf, 7, body).ok()
}

/// Writes the results of a call of MOUNT where volume 258 is served: `BUFFER mnt PATH`, `BUFFER dump -` or `BUFFER export -`.
pub fn put_mount(
    rt: &impl Print,
    alloc: Global,
    row: &str,
    args: &[&str],
) -> Option<io::Result<()>> {
    let [buffer, what, path] = args else {
        return None;
    };
    let path = bytes_of(alloc, path)?;
    let call = match *what {
        "mnt" => MountCall::Mnt { path: &path },
        "dump" => MountCall::Dump,
        _ => MountCall::Export,
    };
    let mut buf = bytes_of(alloc, buffer)?;
    let count = Count(write_mount(&mut buf, &call, 258).ok());
    Some(println!(rt; "{row} {count} {}", Hex(&buf)))
}

/// Writes arguments that were read again: `BUFFER PROCEDURE BYTES`.
pub fn put_arguments(
    rt: &impl Print,
    alloc: Global,
    row: &str,
    args: &[&str],
) -> Option<io::Result<()>> {
    let [buffer, procedure, bytes] = args else {
        return None;
    };
    let bytes = bytes_of(alloc, bytes)?;
    if bytes.len() >= 1 << 32 {
        return None;
    }
    let call = read_args(alloc, small(procedure)?, &bytes).ok()?;
    let mut buf = bytes_of(alloc, buffer)?;
    let count = Count(write_args(&mut buf, &call).ok());
    let length = args_length(&call);
    Some(println!(rt; "{row} length {length} written {count} {}", Hex(&buf)))
}
