//! The journal's disk and the cloud.

ghost use Rattle.std.specs.Prelude.{◌≡◌, ◌+◌, ◌<◌, ◌≤◌, length, map, IfOk, OnOk, OnErr, IsErr, IsErrOf, All};
ghost use Rattle.std.specs.Option.{option_map};
ghost use Rattle.std.specs.List.Sorted.{IsStrictlySortedBy};
ghost use Rattle.sky_base.specs.Limits.{max_number};
ghost use Rattle.sky_base.specs.Order.{name_order};
ghost use Rattle.sky_outside.specs.CloudMap.{after_put, after_removal, Happened, HappenedOrNot, Looks, listing, StandsNow};
ghost use Rattle.sky_outside.specs.Count.{Counts};
ghost use Rattle.sky_outside.specs.Image.{bytes_at, written, Torn};
ghost use Rattle.sky_outside.specs.Moments.{NothingPending, LeavesNoMore, MayTear, SameDisk, SameCloud, Elapses};
ghost use Rattle.sky_outside.specs.Told.{WhereTold, BothTold};

use crate::storage::Storage;
use crate::stream::Failed;
use sky_base::SegName;

/// Why an object could not be put, or the objects not be listed.
#[derive(Clone, Copy)]
pub enum PutFault {
    /// The cloud failed. An object may be there all the same.
    Failed,
    /// There was no memory for it.
    Memory,
}

/// Why an object's bytes could not be read.
#[derive(Clone, Copy)]
pub enum GetFault {
    /// The cloud failed.
    Failed,
    /// The cloud holds no object of that name.
    Missing,
    /// The range passes the object's end.
    Short {
        /// The object's length in bytes.
        held: u64,
    },
}

/// An object that the cloud holds.
#[derive(Clone, Copy)]
pub struct Held {
    pub name: SegName,
    /// In bytes.
    pub length: u64,
}

/// The disk under the journal: a fixed number of bytes, read and written in place. A disk call leaves
/// the cloud beside it, and its count of faults, as they were.
pub trait Disk: Storage {
    /// The number of bytes. It never changes.
    fn size(&self) -> u64
        ensures { result ≡ Self.bytes_of self.now };

    /// Fills the buffer from this place on. After `Failed` it may hold any bytes.
    fn read(&mut self, at: u64, buf: &mut [u8]) -> Result<(), Failed>
        requires { at + length buf.old ≤ Self.bytes_of self.old }
        ensures bytes { OnOk result (WhereTold (Self.image self.old)
            (λ image. buf.new ≡ bytes_at image at (length buf.old))) }
        ensures image { Self.image self.new ≡ Self.image self.old }
        ensures crash { LeavesNoMore Self.Storage self.old self.new }
        ensures time { Elapses Self.Storage self.old self.new }
        ensures beside { SameCloud Self.Storage self.old self.new }
        ensures size { Self.bytes_of self.new ≡ Self.bytes_of self.old }
        ensures cause { Counts (Self.disk_faults self.old) (Self.disk_faults self.new) (IsErr result) }
        ensures cloud { Self.cloud_faults self.new ≡ Self.cloud_faults self.old };

    /// Writes the bytes from this place on. Until a sync a crash may leave any bytes in this range.
    /// After `Failed` a read may give any bytes there too, and the same ones each time until the next
    /// write.
    fn write_at(&mut self, at: u64, bytes: &[u8]) -> Result<(), Failed>
        requires { at + length bytes.now ≤ Self.bytes_of self.old }
        ensures written { OnOk result
            (Self.image self.new ≡ option_map (λ image. written image at bytes.now) (Self.image self.old)) }
        ensures torn { OnErr result (BothTold (Torn at (length bytes.now)) (Self.image self.old) (Self.image self.new)) }
        ensures crash { MayTear Self.Storage at (length bytes.now) self.old self.new }
        ensures time { Elapses Self.Storage self.old self.new }
        ensures beside { SameCloud Self.Storage self.old self.new }
        ensures size { Self.bytes_of self.new ≡ Self.bytes_of self.old }
        ensures cause { Counts (Self.disk_faults self.old) (Self.disk_faults self.new) (IsErr result) }
        ensures cloud { Self.cloud_faults self.new ≡ Self.cloud_faults self.old };

    /// Makes what was written last through a crash. `Failed` promises nothing of that, and leaves what
    /// a read gives.
    fn sync(&mut self) -> Result<(), Failed>
        ensures durable { OnOk result (NothingPending Self.Storage self.new) }
        ensures image { Self.image self.new ≡ Self.image self.old }
        ensures crash { LeavesNoMore Self.Storage self.old self.new }
        ensures time { Elapses Self.Storage self.old self.new }
        ensures beside { SameCloud Self.Storage self.old self.new }
        ensures size { Self.bytes_of self.new ≡ Self.bytes_of self.old }
        ensures cause { Counts (Self.disk_faults self.old) (Self.disk_faults self.new) (IsErr result) }
        ensures cloud { Self.cloud_faults self.new ≡ Self.cloud_faults self.old };
}

/// The cloud: whole objects under their names. A cloud call leaves the disk beside it, what is pending
/// there, and its count of faults, as they were.
pub trait Cloud: Storage {
    /// Stores an object in the place of what had that name, whole or not at all. After
    /// `PutFault::Failed` it may have been stored; `PutFault::Memory` changes nothing.
    fn put(&mut self, name: SegName, bytes: &[u8]) -> Result<(), PutFault>
        requires run { name.run < max_number }
        requires seq { name.seq < max_number }
        ensures stored { OnOk result (Happened (after_put name bytes.now) (Self.objects self.old) (Self.objects self.new)) }
        ensures failed { OnErr result (HappenedOrNot (after_put name bytes.now) (Self.objects self.old) (Self.objects self.new)) }
        ensures memory { IsErrOf result PutFault.Memory → Self.objects self.new ≡ Self.objects self.old }
        ensures stands { OnOk result (StandsNow name bytes.now (Self.standing self.old) (Self.standing self.new)) }
        ensures stood { OnErr result (Self.standing self.new ≡ Self.standing self.old) }
        ensures time { Elapses Self.Storage self.old self.new }
        ensures beside { SameDisk Self.Storage self.old self.new }
        ensures cause { Counts (Self.cloud_faults self.old) (Self.cloud_faults self.new) (IsErrOf result PutFault.Failed) }
        ensures size { Self.bytes_of self.new ≡ Self.bytes_of self.old }
        ensures disk { Self.disk_faults self.new ≡ Self.disk_faults self.old };

    /// Fills the buffer with the object's bytes from this offset on. After an error it may hold any
    /// bytes.
    fn get(&mut self, name: SegName, offset: u64, buf: &mut [u8]) -> Result<(), GetFault>
        requires run { name.run < max_number }
        requires seq { name.seq < max_number }
        ensures looks { WhereTold (Self.objects self.old)
            (λ objects. Looks objects name offset (length buf.old) buf.new result) }
        ensures same { SameCloud Self.Storage self.old self.new }
        ensures time { Elapses Self.Storage self.old self.new }
        ensures beside { SameDisk Self.Storage self.old self.new }
        ensures cause { Counts (Self.cloud_faults self.old) (Self.cloud_faults self.new) (IsErrOf result GetFault.Failed) }
        ensures size { Self.bytes_of self.new ≡ Self.bytes_of self.old }
        ensures disk { Self.disk_faults self.new ≡ Self.disk_faults self.old };

    /// The objects that it holds, each name once, in the order of their names.
    fn list(&mut self) -> Result<Vec<Held>, PutFault>
        ensures listed { IfOk result (λ held. WhereTold (Self.objects self.old) (λ objects. held.items ≡ listing objects)) }
        ensures ascending { IfOk result
            (λ held. IsStrictlySortedBy name_order (map (λ h. h.name) held.items)) }
        ensures runs { IfOk result (λ held. All (λ h. h.name.run < max_number) held.items) }
        ensures seqs { IfOk result (λ held. All (λ h. h.name.seq < max_number) held.items) }
        ensures same { SameCloud Self.Storage self.old self.new }
        ensures time { Elapses Self.Storage self.old self.new }
        ensures beside { SameDisk Self.Storage self.old self.new }
        ensures cause { Counts (Self.cloud_faults self.old) (Self.cloud_faults self.new) (IsErrOf result PutFault.Failed) }
        ensures size { Self.bytes_of self.new ≡ Self.bytes_of self.old }
        ensures disk { Self.disk_faults self.new ≡ Self.disk_faults self.old };
}

/// A journal's disk and the cloud beside it, as one place. It has one meaning, as a disk and as a
/// cloud.
pub trait Site: Disk + Cloud {
    /// Removes an object, or does nothing where none has that name. After `Failed` it may have been
    /// removed.
    fn remove(&mut self, name: SegName) -> Result<(), Failed>
        requires run { name.run < max_number }
        requires seq { name.seq < max_number }
        ensures removed { OnOk result (Happened (after_removal name) (Self.objects self.old) (Self.objects self.new)) }
        ensures failed { OnErr result (HappenedOrNot (after_removal name) (Self.objects self.old) (Self.objects self.new)) }
        ensures stood { Self.standing self.new ≡ Self.standing self.old }
        ensures time { Elapses Self.Storage self.old self.new }
        ensures beside { SameDisk Self.Storage self.old self.new }
        ensures size { Self.bytes_of self.new ≡ Self.bytes_of self.old }
        ensures cause { Counts (Self.cloud_faults self.old) (Self.cloud_faults self.new) (IsErr result) }
        ensures disk { Self.disk_faults self.new ≡ Self.disk_faults self.old };
}
