//! Bytes that are written into a caller's buffer.

ghost use Rattle.std.specs.Prelude.{◌≡◌, ◌≤◌, ◌++◌, [], length, take, drop};
ghost use Rattle.sky_xdr.specs.Encoding.{uint, uhyper};
ghost use Rattle.sky_item.specs.Encoding.{ushort};

use sky_xdr::NoRoom;

/// Writes pieces one behind the other to the start of a caller's buffer. A call for which there is no room writes nothing.
#[derive(Drop)]
pub struct Output<'a> {
    buffer: &'a mut [u8],
    place: usize,
    ghost in_buffer: { place ≤ length buffer.now },
}

fn write_bytes(out: &mut [u8], v: &[u8])
    requires { length v.now ≤ length out.old }
    ensures { out.new ≡ v.now ++ drop (length v.now) out.old }
{
    out[..v.len()].copy_from_slice(v);
}

impl<'a> Output<'a> {
    ghost use Rattle.sky_item.specs.Writing.{Puts, written_of, unwritten_of, room_of, name_of};

    /// An output to the start of the buffer.
    pub fn over(buf: &'a mut [u8]) -> Output<'a>
        ensures written { written_of result ≡ [] }
        ensures unwritten { unwritten_of result ≡ buf.old }
        ensures room { room_of result ≡ length buf.old }
        ensures same_buffer { name_of result ≡ buf.entry.ghost_name }
    {
        Output {
            buffer: buf,
            place: 0,
        }
    }

    /// How many bytes were written so far.
    pub fn written(&self) -> usize
        ensures count { result ≡ length (written_of self.now) }
        ensures prefix { written_of self.now ≡ take result self.now.buffer.now }
    {
        self.place
    }

    /// Writes bytes.
    pub fn put(&mut self, bytes: &[u8]) -> Result<(), NoRoom>
        ensures { Puts result bytes.now self.old self.new }
    {
        if self.buffer.len() - self.place < bytes.len() {
            return Err(NoRoom);
        }
        write_bytes(&mut self.buffer[self.place..], bytes);
        self.place += bytes.len();
        Ok(())
    }

    /// Writes a number in two bytes.
    #[tactic(auto, unfolding(crate::specs::Encoding::ushort))]
    pub fn put_u16(&mut self, v: u16) -> Result<(), NoRoom>
        ensures { Puts result (ushort v) self.old self.new }
    {
        self.put(&v.to_be_bytes())
    }

    /// Writes a number in four bytes.
    #[tactic(auto, unfolding(sky_xdr::specs::Encoding::uint))]
    pub fn put_u32(&mut self, v: u32) -> Result<(), NoRoom>
        ensures { Puts result (uint v) self.old self.new }
    {
        self.put(&v.to_be_bytes())
    }

    /// Writes a number in eight bytes.
    #[tactic(auto, unfolding(sky_xdr::specs::Encoding::uhyper))]
    pub fn put_u64(&mut self, v: u64) -> Result<(), NoRoom>
        ensures { Puts result (uhyper v) self.old self.new }
    {
        self.put(&v.to_be_bytes())
    }
}
