//! The bytes of a file.

ghost use Rattle.std.specs.Prelude.{◌≡◌, ◌+◌, ◌++◌, ◌^◌, ◌<◌, ◌≤◌, [], IfOk, OnErr, OnOk, drop, length, take, vec_len};
ghost use Rattle.sky_nfs.specs.Changes.{resized, written};

use sky_base::NoMemory;
use std::alloc::Global;
use std::marker::Model;

/// The bytes of a file. Contracts see them as a list.
///
/// A `read` and a `write` cost the bytes that they move, and the zeros of a gap before them.
#[derive(Drop)]
pub struct FileBytes {
    bytes: Vec<u8>,
}

impl Model for FileBytes {
    ghost use Rattle.std.specs.Prelude.{List, ℕ};

    ghost Value = { List ℕ };

    ghost view = { λ b. b.bytes.items };
}

impl FileBytes {
    /// No bytes.
    pub fn new(alloc: Global) -> FileBytes
        ensures { result ≡ [] }
    {
        FileBytes {
            bytes: Vec::new(alloc),
        }
    }

    /// How many there are.
    pub fn len(&self) -> u64
        ensures { result ≡ length self.now }
    {
        self.bytes.len() as u64
    }

    /// Those from an offset on, at most so many.
    ///
    /// `NoMemory` where there is no memory for them.
    pub fn read(&self, alloc: Global, offset: u64, count: u32) -> Result<Vec<u8>, NoMemory>
        ensures { IfOk result (λ piece. piece.items ≡ take count (drop offset self.now)) }
    {
        let bytes = self.bytes.as_slice();
        let start = bytes.len().min(offset as usize);
        let left = &bytes[start..];
        let piece = &left[..left.len().min(count as usize)];
        Ok(Vec::from_slice(alloc, piece)?)
    }

    /// Cuts them to a size, or continues them with zeros.
    ///
    /// `NoMemory` where there is no memory for the zeros. All is as it was then.
    pub fn resize(&mut self, size: u64) -> Result<(), NoMemory>
        ensures resized { OnOk result (self.new ≡ resized self.old size) }
        ensures err { OnErr result (self.new ≡ self.old) }
    {
        self.bytes.resize(size as usize, 0)?;
        Ok(())
    }

    /// Writes a piece at an offset. A gap before it is filled with zeros.
    ///
    /// `NoMemory` where there is no memory for what the file grows by. All is as it was then.
    pub fn write(&mut self, offset: u64, piece: &[u8]) -> Result<(), NoMemory>
        requires { offset + length piece.now < 2 ^ 64 }
        ensures written { OnOk result (self.new ≡ written self.old offset piece.now) }
        ensures err { OnErr result (self.new ≡ self.old) }
    {
        let start = offset as usize;
        let end = start + piece.len();
        if self.bytes.len() < end {
            self.bytes.resize(end, 0)?;
        }
        overwrite(&mut self.bytes, start, piece);
        Ok(())
    }
}

/// Writes a piece over the bytes from a place on.
fn overwrite(bytes: &mut Vec<u8>, start: usize, piece: &[u8])
    requires { start + length piece.now ≤ vec_len bytes.old }
    ensures { bytes.new.items ≡ take start bytes.old.items ++ piece.now ++ drop (start + length piece.now) bytes.old.items }
{
    bytes[start..start + piece.len()].copy_from_slice(piece);
}
