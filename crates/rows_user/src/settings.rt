//! Rows of the settings' text.

use sky_settings_file::read_settings;
use std::alloc::Global;
use std::io;

/// Puts the bytes of a word: `|` stands for the end of a line, and `~` for a byte that is in no text.
fn put_word(bytes: &mut Vec<u8>, word: &str) -> io::Result<()> {
    for byte in word.bytes() {
        let byte = match byte {
            b'|' => b'\n',
            b'~' => 0xff,
            other => other,
        };
        bytes.push(byte)?;
    }
    Ok(())
}

/// The text of a row: its words, with a space behind each.
fn text_of(alloc: Global, args: &[&str]) -> io::Result<Vec<u8>> {
    let mut bytes = Vec::new(alloc);
    for arg in args {
        put_word(&mut bytes, arg)?;
        bytes.push(b' ')?;
    }
    Ok(bytes)
}

/// Reads a text of settings: `WORD..`.
pub fn read(rt: &impl Print, alloc: Global, row: &str, args: &[&str]) -> Option<io::Result<()>> {
    let text = text_of(alloc, args).ok()?;
    match read_settings(alloc, &text) {
        Ok(settings) => {
            let it = settings.fields();
            Some(println!(rt;
                "{row} volume {}, journal_area {}, retained {}, threshold {}, cache_items {}",
                it.volume, it.journal_area, it.retained, it.threshold, it.cache_items
            ))
        }
        Err(fault) => Some(println!(rt; "{row} {fault}")),
    }
}
