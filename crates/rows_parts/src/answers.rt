//! Rows of answers, written into a buffer.

use crate::made::answer_of;
use crate::words::{Count, Hex, bytes_of};
use sky_nfs::Answer;
use sky_results::{answer_length, is_encodable, write_answer};
use std::alloc::Global;
use std::io;

/// How many bytes of an answer were written.
fn written(buf: &mut [u8], answer: &Answer) -> Count {
    if is_encodable(answer) {
        Count(write_answer(buf, answer).ok())
    } else {
        Count(None)
    }
}

/// How many bytes an answer takes.
fn length_of(answer: &Answer) -> usize {
    if is_encodable(answer) {
        answer_length(answer)
    } else {
        0
    }
}

/// Writes an answer: `BUFFER ANSWER`.
pub fn put(rt: &impl Print, alloc: Global, row: &str, args: &[&str]) -> Option<io::Result<()>> {
    let [buffer, word] = args else {
        return None;
    };
    let answer = answer_of(alloc, word)?;
    let mut buf = bytes_of(alloc, buffer)?;
    let count = written(&mut buf, &answer);
    Some(println!(rt;
        "{row} length {} written {count} {}",
        length_of(&answer),
        Hex(&buf)
    ))
}

/// Writes an answer into each buffer that is shorter, and says how many were refused and stayed as they were: `ANSWER`.
pub fn put_shorter(
    rt: &impl Print,
    alloc: Global,
    row: &str,
    args: &[&str],
) -> Option<io::Result<()>> {
    let answer = answer_of(alloc, args.first()?)?;
    let length = length_of(&answer);
    let mut refused = 0u64;
    for room in 0..length {
        let mut buf = vec![in alloc; 0xaau8; room].ok()?;
        let count = written(&mut buf, &answer);
        if count.0.is_none() && buf.iter().all(|byte| *byte == 0xaa) {
            refused = refused.saturating_add(1);
        }
    }
    Some(println!(rt; "{row} {refused} of {length} refused"))
}
