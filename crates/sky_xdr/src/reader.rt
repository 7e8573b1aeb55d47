//! Reading XDR items from borrowed bytes.

ghost use Rattle.std.specs.Prelude.{◌≡◌, ◌+◌, ◌<◌, ◌≤◌, ◌++◌, ◌↔◌, [], length, IfOk, OnErr, IsOk, IsErrOf};
ghost use Rattle.sky_xdr.specs.Encoding.{uint, uhyper, bool, BeginsWithFixed, BeginsWithOpaque, padding};
ghost use Rattle.sky_xdr.specs.Reading.{Gives, IsCutShort, Takes, word, uint_at, uhyper_at, bool_at, fixed_at, opaque_at, end_at};

use crate::fault::XdrFault;
use crate::padding::padding_of;
use byteorder::{BigEndian, ByteOrder};
use std::marker::Model;

/// Reads XDR items one after the other from borrowed bytes, and copies none of them. A call that
/// is refused leaves the reader where it was.
#[derive(Drop)]
pub struct Reader<'a> {
    rest: &'a [u8],
}

// A clause sees the bytes that are left.
impl<'a> Model for Reader<'a> {
    ghost use Rattle.std.specs.Prelude.{ℕ, List};

    ghost Value = { List ℕ };

    ghost view = { λ r. r.rest.now };
}

#[tactic(auto, unfolding(crate::specs::Reading::uint_at, crate::specs::Reading::word))]
fn uint_of(bytes: &[u8]) -> Result<(u32, &[u8]), XdrFault>
    ensures exact { Gives (λ x. (x.0, x.1.now)) result (uint_at bytes.now) }
    ensures found { IfOk result (λ x. bytes.now ≡ uint x.0 ++ x.1.now) }
{
    if bytes.len() < 4 {
        return Err(XdrFault::Short);
    }
    let (prefix, rest) = bytes.split_at(4);
    Ok((BigEndian::read_u32(prefix), rest))
}

#[tactic(auto, unfolding(crate::specs::Reading::uhyper_at, crate::specs::Reading::double_word))]
fn uhyper_of(bytes: &[u8]) -> Result<(u64, &[u8]), XdrFault>
    ensures exact { Gives (λ x. (x.0, x.1.now)) result (uhyper_at bytes.now) }
    ensures found { IfOk result (λ x. bytes.now ≡ uhyper x.0 ++ x.1.now) }
{
    if bytes.len() < 8 {
        return Err(XdrFault::Short);
    }
    let (prefix, rest) = bytes.split_at(8);
    Ok((BigEndian::read_u64(prefix), rest))
}

#[tactic(auto, unfolding(crate::specs::Reading::bool_at))]
fn bool_of(bytes: &[u8]) -> Result<(bool, &[u8]), XdrFault>
    ensures exact { Gives (λ x. (x.0, x.1.now)) result (bool_at bytes.now) }
    ensures found { IfOk result (λ x. bytes.now ≡ bool x.0 ++ x.1.now) }
{
    let (number, rest) = uint_of(bytes)?;
    match number {
        0 => Ok((false, rest)),
        1 => Ok((true, rest)),
        _ => Err(XdrFault::BadBool),
    }
}

#[tactic(auto, unfolding(crate::specs::Reading::fixed_at))]
fn fixed_of(len: u32, bytes: &[u8]) -> Result<(&[u8], &[u8]), XdrFault>
    ensures exact { Gives (λ x. (x.0.now, x.1.now)) result (fixed_at len bytes.now) }
    ensures found { IfOk result (λ x. BeginsWithFixed bytes.now x.0.now x.1.now) }
    ensures size { IfOk result (λ x. length x.0.now ≡ len) }
{
    let len = len as usize;
    let whole = len + padding_of(len);
    if bytes.len() < whole {
        return Err(XdrFault::Short);
    }
    Ok((&bytes[..len], &bytes[whole..]))
}

#[tactic(auto, unfolding(crate::specs::Reading::opaque_at))]
fn opaque_of(max: u32, bytes: &[u8]) -> Result<(&[u8], &[u8]), XdrFault>
    ensures exact { Gives (λ x. (x.0.now, x.1.now)) result (opaque_at max bytes.now) }
    ensures found { IfOk result (λ x. BeginsWithOpaque bytes.now x.0.now x.1.now) }
    ensures within { IfOk result (λ x. length x.0.now ≤ max) }
{
    let (len, rest) = uint_of(bytes)?;
    if len > max {
        return Err(XdrFault::TooLong);
    }
    let len = len as usize;
    let whole = len + padding_of(len);
    if rest.len() < whole {
        return Err(XdrFault::Short);
    }
    Ok((&rest[..len], &rest[whole..]))
}

impl<'a> Reader<'a> {
    /// A reader at the first of the bytes.
    pub fn over(bytes: &'a [u8]) -> Reader<'a>
        ensures { result ≡ bytes.now }
    {
        Reader { rest: bytes }
    }

    /// The bytes that are left.
    pub fn rest(&self) -> &'a [u8]
        ensures { result.now ≡ self.now }
    {
        self.rest
    }

    /// Takes an unsigned integer, four bytes (RFC 4506, section 4.2).
    ///
    /// `Short` where fewer than four bytes are left.
    pub fn take_u32(&mut self) -> Result<u32, XdrFault>
        ensures exact { Takes (λ n. n) result self.old self.new (uint_at self.old) }
        ensures found { IfOk result (λ n. self.old ≡ uint n ++ self.new) }
        ensures short { IsErrOf result XdrFault.Short ↔ (length self.old < 4) }
        ensures err { OnErr result (self.new ≡ self.old) }
    {
        let (number, rest) = uint_of(self.rest)?;
        self.rest = rest;
        Ok(number)
    }

    /// Takes an unsigned hyper integer, eight bytes (RFC 4506, section 4.5).
    ///
    /// `Short` where fewer than eight bytes are left.
    pub fn take_u64(&mut self) -> Result<u64, XdrFault>
        ensures exact { Takes (λ n. n) result self.old self.new (uhyper_at self.old) }
        ensures found { IfOk result (λ n. self.old ≡ uhyper n ++ self.new) }
        ensures short { IsErrOf result XdrFault.Short ↔ (length self.old < 8) }
        ensures err { OnErr result (self.new ≡ self.old) }
    {
        let (number, rest) = uhyper_of(self.rest)?;
        self.rest = rest;
        Ok(number)
    }

    /// Takes a boolean, four bytes that encode 0 or 1 (RFC 4506, section 4.4).
    ///
    /// `Short` where fewer than four bytes are left, and `BadBool` where they encode another number.
    pub fn take_bool(&mut self) -> Result<bool, XdrFault>
        ensures exact { Takes (λ b. b) result self.old self.new (bool_at self.old) }
        ensures found { IfOk result (λ b. self.old ≡ bool b ++ self.new) }
        ensures short { IsErrOf result XdrFault.Short ↔ (length self.old < 4) }
        ensures bad { IsErrOf result XdrFault.BadBool ↔ ((4 ≤ length self.old) × (1 < word self.old)) }
        ensures err { OnErr result (self.new ≡ self.old) }
    {
        let (value, rest) = bool_of(self.rest)?;
        self.rest = rest;
        Ok(value)
    }

    /// Takes fixed-length opaque data of `len` bytes: the bytes, and padding up to a multiple of four
    /// (RFC 4506, section 4.9). The padding may hold any bytes.
    ///
    /// `Short` where bytes are missing, of the data or of the padding.
    pub fn take_fixed(&mut self, len: u32) -> Result<&'a [u8], XdrFault>
        ensures exact { Takes (λ v. v.now) result self.old self.new (fixed_at len self.old) }
        ensures found { IfOk result (λ v. BeginsWithFixed self.old v.now self.new) }
        ensures size { IfOk result (λ v. length v.now ≡ len) }
        ensures short { IsErrOf result XdrFault.Short ↔ (length self.old < len + padding len) }
        ensures err { OnErr result (self.new ≡ self.old) }
    {
        let (value, rest) = fixed_of(len, self.rest)?;
        self.rest = rest;
        Ok(value)
    }

    /// Takes variable-length opaque data of at most `max` bytes: its length, the bytes, and padding
    /// up to a multiple of four (RFC 4506, section 4.10). The padding may hold any bytes.
    ///
    /// `TooLong` where the length is there and is above `max`. Else `Short` where bytes are missing,
    /// of the length, of the data or of the padding.
    pub fn take_opaque(&mut self, max: u32) -> Result<&'a [u8], XdrFault>
        ensures exact { Takes (λ v. v.now) result self.old self.new (opaque_at max self.old) }
        ensures found { IfOk result (λ v. BeginsWithOpaque self.old v.now self.new) }
        ensures within { IfOk result (λ v. length v.now ≤ max) }
        ensures too_long { IsErrOf result XdrFault.TooLong
            ↔ ((4 ≤ length self.old) × (max < word self.old)) }
        ensures short { IsErrOf result XdrFault.Short ↔ IsCutShort max self.old }
        ensures err { OnErr result (self.new ≡ self.old) }
    {
        let (value, rest) = opaque_of(max, self.rest)?;
        self.rest = rest;
        Ok(value)
    }

    /// Checks that no byte is left.
    ///
    /// `Left` where one is.
    #[tactic(auto, unfolding(crate::specs::Reading::end_at))]
    pub fn end(&self) -> Result<(), XdrFault>
        ensures exact { result ≡ end_at self.now }
        ensures ended { IsOk result ↔ (self.now ≡ []) }
        ensures left { IsErrOf result XdrFault.Left ↔ (0 < length self.now) }
    {
        if self.rest.is_empty() {
            Ok(())
        } else {
            Err(XdrFault::Left)
        }
    }
}
