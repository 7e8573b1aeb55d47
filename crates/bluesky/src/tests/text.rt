//! Recordings and answers, as texts: frames with `;` between them, and of each its kind and the words of its payload; the bytes of
//! words behind `raw` stand in no frame. A word is hexadecimal, or a name of such; `3*ff` is three times `ff`. A word of several with `:`
//! between them is the record of a call of NFS by user 1000 (AUTH_SYS), which has the number 1: the procedure and the arguments.

use std::alloc::Global;
use std::test::Fail;

/// The names of words.
static NAMES: [(&'static str, &'static str); 54] = [
    ("magic", "534b59524543310a"),
    // What an opening in the first epoch tells that found nothing, and in the second, with no changes and with two.
    ("opening", "0000000000000001000000000000000000000000"),
    ("second", "0000000000000002000000000000000000000000"),
    ("second-with-2", "0000000000000002000000000000000200000001"),
    // The record of a NULL call of the number 1 (RFC 1813, section 3.3.0), and of the reply to it.
    (
        "null",
        "80000028000000010000000000000002000186a3000000030000000000000000000000000000000000000000",
    ),
    (
        "reply",
        "80000018000000010000000100000000000000000000000000000000",
    ),
    // A call of the number 1 up to its procedure, and the credential and verifier behind it.
    ("nfs", "000000010000000000000002000186a300000003"),
    (
        "user",
        "00000001000000140000000000000000000003e8000003e8000000000000000000000000",
    ),
    // What stands behind the header of the record of a reply up to its results; a regular file with mode 644 of user 1000 up to its size,
    // and the root up to its; and what stands behind the size of node 2, and of the root, up to the times.
    (
        "success",
        "000000010000000100000000000000000000000000000000",
    ),
    ("file", "00000001000001a400000001000003e8000003e8"),
    ("root-is", "00000002000001ff000000020000000000000000"),
    ("is-2", "000000000000000000000000000000010000000000000002"),
    ("is-1", "000000000000000000000000000000010000000000000001"),
    // A size, and what is used: 5, and 19.
    ("size-5", "00000000000000050000000000000005"),
    ("size-19", "00000000000000130000000000000013"),
    ("read", "00000006"),
    ("write", "00000007"),
    ("create", "00000008"),
    ("mkdir", "00000009"),
    ("rename", "0000000e"),
    ("readdirplus", "00000011"),
    ("commit", "00000015"),
    ("root", "0000001000000000000000010000000000000001"),
    ("node-2", "0000001000000000000000010000000000000002"),
    ("a", "0000000161000000"),
    ("b", "0000000162000000"),
    ("c", "0000000163000000"),
    // UNCHECKED, and no attribute is set (sattr3, RFC 1813 section 2.6).
    ("unchecked", "00000000"),
    ("keep", "6*00000000"),
    // A whole file; the first 16 bytes of one; the first page of a directory.
    ("whole", "12*00"),
    ("first-16", "000000000000000000000010"),
    (
        "first-page",
        "000000000000000000000000000000000001000000010000",
    ),
    // 5 bytes of data at a place, UNSTABLE and FILE_SYNC.
    ("at-0", "000000000000000000000005"),
    ("at-5", "000000000000000500000005"),
    ("at-10", "000000000000000a00000005"),
    ("unstable-hello", "000000000000000568656c6c6f000000"),
    ("stable-hello", "000000020000000568656c6c6f000000"),
    // UNSTABLE is how the large piece is written, of 65,536 bytes at 0.
    ("from-0", "0000000000000000"),
    ("unstable", "00000000"),
    ("count", "00010000"),
    ("bytes", "65536*4d"),
    ("create-a", "create:root:a:unchecked:keep"),
    ("create-b", "create:root:b:unchecked:keep"),
    ("mkdir-c", "mkdir:root:c:keep"),
    ("rename-a", "rename:root:a:root:b"),
    ("write-0", "write:node-2:at-0:unstable-hello"),
    ("write-5", "write:node-2:at-5:unstable-hello"),
    ("write-10", "write:node-2:at-10:unstable-hello"),
    ("stable-0", "write:node-2:at-0:stable-hello"),
    ("stable-10", "write:node-2:at-10:stable-hello"),
    (
        "write-large",
        "write:node-2:from-0:count:unstable:count:bytes",
    ),
    ("commit-2", "commit:node-2:whole"),
    ("list", "readdirplus:root:first-page"),
    ("read-2", "read:node-2:first-16"),
];

/// The word that a name stands for; a word that is no name stands for itself.
fn meaning(word: &str) -> &str {
    for (name, text) in &NAMES {
        if *name == word {
            return text;
        }
    }
    word
}

/// Adds the bytes of a hexadecimal word.
fn put_hex(bytes: &mut Vec<u8>, word: &str) -> Result<(), Fail> {
    let mut high = None;
    for digit in word.chars() {
        let low = digit.to_digit(16).ok_or("no word")?;
        match high.take() {
            None => high = Some(low),
            Some(high) => bytes.push((high << 4 & 0xf0 | low & 0xf) as u8)?,
        }
    }
    Ok(())
}

/// Adds the bytes of a word that is no call.
fn put_word(bytes: &mut Vec<u8>, word: &str) -> Result<(), Fail> {
    let word = meaning(word);
    let Some((times, word)) = word.split_once('*') else {
        return put_hex(bytes, word);
    };
    for _ in 0..times.parse::<u32>()? {
        put_hex(bytes, word)?;
    }
    Ok(())
}

/// The message of a call.
fn message_of(alloc: Global, procedure: &str, args: &str) -> Result<Vec<u8>, Fail> {
    let mut message = Vec::new(alloc);
    put_word(&mut message, "nfs")?;
    put_word(&mut message, procedure)?;
    put_word(&mut message, "user")?;
    for arg in args.split(':') {
        put_word(&mut message, arg)?;
    }
    Ok(message)
}

/// Adds the bytes of a word, or the record of a call.
fn put_part(alloc: Global, bytes: &mut Vec<u8>, word: &str) -> Result<(), Fail> {
    let Some((procedure, args)) = meaning(word).split_once(':') else {
        return put_word(bytes, word);
    };
    let message = message_of(alloc, procedure, args)?;
    let header = 0x8000_0000 | u32::try_from(message.len())?;
    bytes.extend_from_slice(&header.to_be_bytes())?;
    bytes.extend_from_slice(&message)?;
    Ok(())
}

/// Adds a frame of the session 0.
pub fn put_frame(bytes: &mut Vec<u8>, kind: u8, payload: &[u8]) -> Result<(), Fail> {
    let length = u32::try_from(payload.len())?;
    bytes.extend_from_slice(&[kind, 0, 0, 0, 0])?;
    bytes.extend_from_slice(&length.to_be_bytes())?;
    bytes.extend_from_slice(payload)?;
    Ok(())
}

/// The bytes of words.
pub fn bytes_of_words(alloc: Global, words: &str) -> Result<Vec<u8>, Fail> {
    let mut bytes = Vec::new(alloc);
    for word in words.split_whitespace() {
        put_part(alloc, &mut bytes, word)?;
    }
    Ok(bytes)
}

/// Adds a frame.
pub fn put_item(alloc: Global, bytes: &mut Vec<u8>, item: &str) -> Result<(), Fail> {
    let item = item.trim();
    let (kind, words) = item.split_once(' ').unwrap_or((item, ""));
    let payload = bytes_of_words(alloc, words)?;
    if kind == "raw" {
        bytes.extend_from_slice(&payload)?;
        return Ok(());
    }
    put_frame(bytes, kind.parse::<u8>()?, &payload)
}

/// The bytes of a text.
pub fn bytes_of(alloc: Global, text: &str) -> Result<Vec<u8>, Fail> {
    let mut bytes = Vec::new(alloc);
    for item in text.split(';') {
        put_item(alloc, &mut bytes, item)?;
    }
    Ok(bytes)
}
