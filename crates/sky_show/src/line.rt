//! Lines.

ghost use Rattle.std.specs.Prelude.{◌≡◌, ◌++◌, IfOk, OnOk, map};
ghost use Rattle.sky_show.specs.Line.{in_line, line};

use sky_base::NoMemory;
use std::alloc::Global;

/// The byte that ends a line.
const LINE_END: u8 = b'\n';

/// A byte within a line: a space in place of a line end.
fn within_line(byte: u8) -> u8
    ensures { result ≡ in_line byte }
{
    if byte == LINE_END { b' ' } else { byte }
}

/// Adds a text to a line, with a space in place of each line end.
fn add_text(line: &mut Vec<u8>, text: &str) -> Result<(), NoMemory>
    ensures { OnOk result (line.new.items ≡ line.old.items ++ map in_line text.now) }
{
    for byte in text.as_bytes() {
        line.push(within_line(*byte))?;
    }
    Ok(())
}

/// The line of a text in two parts: the text, where a space stands for each line end, and one line end behind it.
pub fn line_of(alloc: Global, head: &str, text: &str) -> Result<Vec<u8>, NoMemory>
    ensures { IfOk result (λ made. made.items ≡ line (head.now ++ text.now)) }
{
    let mut line = Vec::new(alloc);
    add_text(&mut line, head)?;
    add_text(&mut line, text)?;
    line.push(LINE_END)?;
    Ok(line)
}
