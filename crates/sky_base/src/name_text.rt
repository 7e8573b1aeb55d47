//! The names of objects in the cloud as text.

ghost use Rattle.std.specs.Prelude.{◌≡◌, ◌<◌, ◌^◌, ℕ, Err, Ok, IfOk, IfSome, IsNone, length};
ghost use Rattle.sky_base.specs.Limits.{max_number};
ghost use Rattle.sky_base.specs.NameText.{dir_letter, hex_digit, hex_digits, IsNumbered, kind_letter, name_text};
ghost use Rattle.sky_base.specs.declared.object.Dir.{Dir};
ghost use Rattle.sky_base.specs.declared.object.SegName.{SegName};

use crate::object::{Dir, SegName};

/// The text is not that of an object's name.
#[derive(Clone, Copy, PartialEq, Eq)]
pub struct NotAName;

/// How many digits a number has in a name.
const DIGITS: usize = 16;

/// What the numbers in a name are below.
const NUMBERS: u64 = 1 << 62;

/// A hexadecimal digit in ASCII, in lower case.
fn digit(value: u8) -> u8
    requires { value < 16 }
    ensures { result ≡ hex_digit value }
{
    if value < 10 {
        b'0' + value
    } else {
        b'a' + (value - 10)
    }
}

/// The value of a hexadecimal digit in lower case, 0 to 15.
fn digit_value(byte: u8) -> Option<u8>
    ensures small { IfSome result (λ value. value < 16) }
    ensures digit { IfSome result (λ value. hex_digit value ≡ byte) }
    ensures other { IsNone result → (value : ℕ) → value < 16 → hex_digit value ≡ byte → ⊥ }
{
    match byte {
        b'0'..=b'9' => Some(byte - b'0'),
        b'a'..=b'f' => Some(byte - b'a' + 10),
        _ => None,
    }
}

/// All digits of a number, the highest first.
fn digits(number: u64) -> [u8; DIGITS]
    ensures { result ≡ hex_digits 16 number }
{
    let mut digits = [0; DIGITS];
    let mut left = number;
    let mut at = DIGITS;
    while at > 0 {
        at -= 1;
        digits[at] = digit((left % 16) as u8);
        left /= 16;
    }
    digits
}

/// The number with these 16 digits, where they are digits and it is below 2^62.
fn number_of(text: &[u8]) -> Option<u64>
    requires { length text.now ≡ 16 }
    ensures small { IfSome result (λ number. number < max_number) }
    ensures reads { (number : ℕ) → number < max_number → hex_digits 16 number ≡ text.now → result ≡ Some number }
{
    let mut number = 0;
    for byte in text {
        number = number * 16 + u64::from(digit_value(*byte)?);
    }
    if number < NUMBERS { Some(number) } else { None }
}

/// The directory with this letter.
fn dir_of(letter: u8) -> Option<Dir>
    ensures { (dir : Dir) → dir_letter dir ≡ letter → result ≡ Some dir }
{
    match letter {
        b'p' => Some(Dir::Proxy),
        b'c' => Some(Dir::Cleaner),
        _ => None,
    }
}

/// The letter of a directory.
fn letter_of(dir: Dir) -> u8
    ensures { result ≡ dir_letter dir }
{
    match dir {
        Dir::Proxy => b'p',
        Dir::Cleaner => b'c',
    }
}

/// The letter of an object's kind, which says whether it is a checkpoint.
fn kind_of(last: bool) -> u8
    ensures { result ≡ kind_letter last }
{
    if last { b'k' } else { b's' }
}

/// A name whose parts stand at the places that a text of 37 bytes has for them. What stands elsewhere isn't looked at.
fn parts_of(text: &[u8]) -> Option<SegName>
    requires { length text.now ≡ 37 }
    ensures numbered { IfSome result IsNumbered }
    ensures reads { (name : SegName) → IsNumbered name → name_text name ≡ text.now → result ≡ Some name }
{
    Some(SegName {
        dir: dir_of(text[0])?,
        run: number_of(&text[2..18])?,
        seq: number_of(&text[19..35])?,
        last: text[36] == b'k',
    })
}

impl SegName {
    /// How many bytes the text of a name has.
    pub const TEXT: usize = 37;

    /// The name as text: `p/` or `c/`, the epoch or run, `/`, the number within it, and `.s` for a segment or `.k` for a
    /// checkpoint. Each number has 16 hexadecimal digits in lower case.
    pub fn to_text(&self) -> [u8; 37]
        ensures { result ≡ name_text self.now }
    {
        let mut text = *b"p/0000000000000000/0000000000000000.s";
        text[0] = letter_of(self.dir);
        text[36] = kind_of(self.last);
        text[2..18].copy_from_slice(&digits(self.run));
        text[19..35].copy_from_slice(&digits(self.seq));
        text
    }

    /// The name with this text. `NotAName` exactly where no name with numbers below 2^62 has it.
    pub fn from_text(text: &[u8]) -> Result<SegName, NotAName>
        ensures numbered { IfOk result IsNumbered }
        ensures text { IfOk result (λ name. name_text name ≡ text.now) }
        ensures reads { (name : SegName) → IsNumbered name → name_text name ≡ text.now → result ≡ Ok name }
    {
        if text.len() != SegName::TEXT {
            return Err(NotAName);
        }
        match parts_of(text) {
            Some(name) if name.to_text().as_slice() == text => Ok(name),
            _ => Err(NotAName),
        }
    }
}
