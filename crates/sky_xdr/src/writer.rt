//! Writing XDR items into a caller's buffer.

ghost use Rattle.std.specs.Prelude.{◌≡◌, ◌+◌, ◌^◌, ◌<◌, ◌≤◌, ◌++◌, ◌↔◌, [], length, take, drop, replicate, IsOk, OnOk, OnErr};
ghost use Rattle.sky_xdr.specs.Encoding.{padding, uint, uhyper, bool, fixed, opaque};

use crate::fault::NoRoom;
use crate::padding::padding_of;
use byteorder::{BigEndian, ByteOrder};

/// Writes XDR items one after the other to the start of a caller's buffer. A call for which there
/// is no room writes nothing.
#[derive(Drop)]
pub struct Writer<'a> {
    buffer: &'a mut [u8],
    place: usize,
    ghost in_buffer: { place ≤ length buffer.now },
}

#[tactic(auto, unfolding(crate::specs::Encoding::uint))]
fn write_uint(out: &mut [u8], v: u32)
    requires { 4 ≤ length out.old }
    ensures { out.new ≡ uint v ++ drop 4 out.old }
{
    BigEndian::write_u32(out, v);
}

#[tactic(auto, unfolding(crate::specs::Encoding::uhyper))]
fn write_uhyper(out: &mut [u8], v: u64)
    requires { 8 ≤ length out.old }
    ensures { out.new ≡ uhyper v ++ drop 8 out.old }
{
    BigEndian::write_u64(out, v);
}

fn write_bytes(out: &mut [u8], v: &[u8])
    requires { length v.now ≤ length out.old }
    ensures { out.new ≡ v.now ++ drop (length v.now) out.old }
{
    out[..v.len()].copy_from_slice(v);
}

fn write_zeros(out: &mut [u8], count: usize)
    requires { count ≤ length out.old }
    ensures { out.new ≡ replicate count 0 ++ drop count out.old }
{
    out[..count].fill(0);
}

fn write_fixed(out: &mut [u8], v: &[u8])
    requires { length v.now + padding (length v.now) ≤ length out.old }
    ensures { out.new ≡ fixed v.now ++ drop (length v.now + padding (length v.now)) out.old }
{
    write_bytes(out, v);
    write_zeros(&mut out[v.len()..], padding_of(v.len()));
}

fn write_opaque(out: &mut [u8], v: &[u8])
    requires short { length v.now < 2 ^ 32 }
    requires room { 4 + length v.now + padding (length v.now) ≤ length out.old }
    ensures { out.new ≡ opaque v.now ++ drop (4 + length v.now + padding (length v.now)) out.old }
{
    write_uint(out, v.len() as u32);
    write_bytes(&mut out[4..], v);
    write_zeros(&mut out[4 + v.len()..], padding_of(v.len()));
}

impl<'a> Writer<'a> {
    ghost use Rattle.sky_xdr.specs.Writing.{Puts, buffer_of, written_of, unwritten_of, room_of, name_of};

    /// A writer at the start of the buffer.
    pub fn over(buf: &'a mut [u8]) -> Writer<'a>
        ensures written { written_of result ≡ [] }
        ensures unwritten { unwritten_of result ≡ buf.old }
        ensures room { room_of result ≡ length buf.old }
        ensures same_buffer { name_of result ≡ buf.entry.ghost_name }
    {
        Writer {
            buffer: buf,
            place: 0,
        }
    }

    /// How many bytes were written so far.
    pub fn written(&self) -> usize
        ensures count { result ≡ length (written_of self.now) }
        ensures prefix { written_of self.now ≡ take result (buffer_of self.now) }
    {
        self.place
    }

    /// Writes an unsigned integer, four bytes (RFC 4506, section 4.2).
    ///
    /// `NoRoom` where fewer than four bytes are left in the buffer.
    pub fn put_u32(&mut self, v: u32) -> Result<(), NoRoom>
        ensures fits { IsOk result ↔ (4 ≤ room_of self.old) }
        ensures written { OnOk result (written_of self.new ≡ written_of self.old ++ uint v) }
        ensures unwritten { OnOk result (unwritten_of self.new ≡ drop 4 (unwritten_of self.old)) }
        ensures room { OnOk result (room_of self.new + 4 ≡ room_of self.old) }
        ensures err { OnErr result (self.new ≡ self.old) }
        ensures same_buffer { name_of self.new ≡ name_of self.old }
        // The same in one fact, for writers that are put together.
        ensures puts { Puts result (uint v) self.old self.new }
    {
        if self.buffer.len() - self.place < 4 {
            return Err(NoRoom);
        }
        write_uint(&mut self.buffer[self.place..], v);
        self.place += 4;
        Ok(())
    }

    /// Writes an unsigned hyper integer, eight bytes (RFC 4506, section 4.5).
    ///
    /// `NoRoom` where fewer than eight bytes are left in the buffer.
    pub fn put_u64(&mut self, v: u64) -> Result<(), NoRoom>
        ensures fits { IsOk result ↔ (8 ≤ room_of self.old) }
        ensures written { OnOk result (written_of self.new ≡ written_of self.old ++ uhyper v) }
        ensures unwritten { OnOk result (unwritten_of self.new ≡ drop 8 (unwritten_of self.old)) }
        ensures room { OnOk result (room_of self.new + 8 ≡ room_of self.old) }
        ensures err { OnErr result (self.new ≡ self.old) }
        ensures same_buffer { name_of self.new ≡ name_of self.old }
        // The same in one fact, for writers that are put together.
        ensures puts { Puts result (uhyper v) self.old self.new }
    {
        if self.buffer.len() - self.place < 8 {
            return Err(NoRoom);
        }
        write_uhyper(&mut self.buffer[self.place..], v);
        self.place += 8;
        Ok(())
    }

    /// Writes a boolean, four bytes that encode 0 or 1 (RFC 4506, section 4.4).
    ///
    /// `NoRoom` where fewer than four bytes are left in the buffer.
    pub fn put_bool(&mut self, v: bool) -> Result<(), NoRoom>
        ensures fits { IsOk result ↔ (4 ≤ room_of self.old) }
        ensures written { OnOk result (written_of self.new ≡ written_of self.old ++ bool v) }
        ensures unwritten { OnOk result (unwritten_of self.new ≡ drop 4 (unwritten_of self.old)) }
        ensures room { OnOk result (room_of self.new + 4 ≡ room_of self.old) }
        ensures err { OnErr result (self.new ≡ self.old) }
        ensures same_buffer { name_of self.new ≡ name_of self.old }
        // The same in one fact, for writers that are put together.
        ensures puts { Puts result (bool v) self.old self.new }
    {
        self.put_u32(u32::from(v))
    }

    /// Writes fixed-length opaque data: the bytes, and zeros up to a multiple of four (RFC 4506,
    /// section 4.9).
    ///
    /// `NoRoom` where all of that does not fit into what is left of the buffer.
    pub fn put_fixed(&mut self, v: &[u8]) -> Result<(), NoRoom>
        ensures fits { IsOk result ↔ (length (fixed v.now) ≤ room_of self.old) }
        ensures written { OnOk result (written_of self.new ≡ written_of self.old ++ fixed v.now) }
        ensures unwritten { OnOk result
            (unwritten_of self.new ≡ drop (length (fixed v.now)) (unwritten_of self.old)) }
        ensures room { OnOk result (room_of self.new + length (fixed v.now) ≡ room_of self.old) }
        ensures err { OnErr result (self.new ≡ self.old) }
        ensures same_buffer { name_of self.new ≡ name_of self.old }
        // The same in one fact, for writers that are put together.
        ensures puts { Puts result (fixed v.now) self.old self.new }
    {
        let whole = v.len() + padding_of(v.len());
        if self.buffer.len() - self.place < whole {
            return Err(NoRoom);
        }
        write_fixed(&mut self.buffer[self.place..], v);
        self.place += whole;
        Ok(())
    }

    /// Writes variable-length opaque data: its length, the bytes, and zeros up to a multiple of
    /// four (RFC 4506, section 4.10). The data has fewer than 2^32 bytes.
    ///
    /// `NoRoom` where all of that does not fit into what is left of the buffer.
    pub fn put_opaque(&mut self, v: &[u8]) -> Result<(), NoRoom>
        requires { length v.now < 2 ^ 32 }
        ensures fits { IsOk result ↔ (length (opaque v.now) ≤ room_of self.old) }
        ensures written { OnOk result (written_of self.new ≡ written_of self.old ++ opaque v.now) }
        ensures unwritten { OnOk result
            (unwritten_of self.new ≡ drop (length (opaque v.now)) (unwritten_of self.old)) }
        ensures room { OnOk result (room_of self.new + length (opaque v.now) ≡ room_of self.old) }
        ensures err { OnErr result (self.new ≡ self.old) }
        ensures same_buffer { name_of self.new ≡ name_of self.old }
        // The same in one fact, for writers that are put together.
        ensures puts { Puts result (opaque v.now) self.old self.new }
    {
        let size = 4 + v.len() + padding_of(v.len());
        if self.buffer.len() - self.place < size {
            return Err(NoRoom);
        }
        write_opaque(&mut self.buffer[self.place..], v);
        self.place += size;
        Ok(())
    }
}
