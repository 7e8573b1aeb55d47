//! A site in memory that keeps a record of its calls.

ghost use Rattle.sky_outside.specs.Count.{Counts};
ghost use Rattle.sky_outside.specs.Image.{bytes_at};
ghost use Rattle.std.specs.Prelude.{◌≡◌, ◌⊎◌, ◌+◌, ◌≤◌, ◌<◌, [], length, replicate, take, min, All, Some, Err, IfOk, OnErr, IsErr, IsErrOf};

use crate::fate::{Fail, answer, begin, keep, next, put_answer};
use crate::objects::Objects;
use crate::past::{Past, copy_part, overwrite_if};
use crate::record::{Record, Step};
use sky_base::{NoMemory, SegName};
use sky_outside::{Cloud, Disk, Failed, GetFault, Held, PutFault, Site, Storage};
use std::alloc::Global;
use std::marker::Model;

/// A journal's disk and a cloud in memory, which tell all that there is to tell. Each call is kept in a
/// record, for which memory was reserved; a call beyond it fails, and so do the calls that are listed.
/// `stopped` shows what a stop within a call leaves.
#[derive(Drop)]
pub struct MemSite {
    alloc: Global,
    // As it was at first.
    first_image: Vec<u8>,
    first_held: Vec<(SegName, Vec<u8>)>,
    // As it is now.
    image: Vec<u8>,
    objects: Objects,
    noted: Record,
    fail: Vec<Fail>,
    disk_faults: u64,
    cloud_faults: u64,
}

impl Model for MemSite {
    ghost use Rattle.sky_memory.specs.Objects.{pairs_of};
    ghost use Rattle.sky_memory.specs.MemSite.{MemSiteState};

    ghost Value = { MemSiteState };

    ghost use Rattle.sky_memory.specs.Kept.{IsKept};

    ghost view = { λ m. record {
      first = record { image = m.first_image.items; objects = pairs_of m.first_held.items };
      noted = m.noted;
      fail = m.fail.items;
      disk_faults = m.disk_faults;
      cloud_faults = m.cloud_faults;
    } };

    ghost invariant = { IsKept };
}

impl MemSite {
    ghost use Rattle.std.specs.Option.{option_map};
    ghost use Rattle.std.specs.FinMap.{get as found};
    ghost use Rattle.sky_outside.specs.CloudMap.{Looks};
    ghost use Rattle.sky_base.specs.declared.object.SegName.{SegName};
    ghost use Rattle.sky_memory.specs.declared.record.Step.TheVariants.{Look, Write, Sync, Put, Remove};
    ghost use Rattle.sky_memory.specs.Objects.{IsInRange, map_of, pairs_of};
    ghost use Rattle.sky_memory.specs.Record.{answer_of, put_answer_of};
    ghost use Rattle.sky_memory.specs.MemSite.{now_at, fate_of, Made};
    ghost use Rattle.sky_memory.specs.Past.{at_first, after_calls, stopped_at};
    ghost use Rattle.sky_memory.specs.Replay.{IsAt, IsStoppedAt};
    ghost use Rattle.sky_outside.specs.Moments.{NothingPending, TellsCrashes};

    // A site with this image and these objects, and no calls.
    fn fresh(
        alloc: Global,
        image: Vec<u8>,
        held: Vec<(SegName, Vec<u8>)>,
        calls: usize,
        room: usize,
        fail: Vec<Fail>,
    ) -> Result<MemSite, NoMemory>
        requires { All (λ o. IsInRange o.0) held.items }
        ensures { IfOk result (λ site. site ≡ record {
          first = record { image = image.items; objects = pairs_of held.items };
          noted = record { calls = []; most = calls; used = 0; room = room };
          fail = fail.items;
          disk_faults = 0;
          cloud_faults = 0;
        }) }
    {
        Ok(MemSite {
            alloc,
            first_image: image.to_vec(alloc)?,
            objects: Objects::of(alloc, &held)?,
            first_held: held,
            image,
            noted: Record::new(alloc, calls, room)?,
            fail,
            disk_faults: 0,
            cloud_faults: 0,
        })
    }

    /// A disk of these bytes and a cloud with these objects, of which the first is held where several have
    /// one name. Their names' numbers are in their range. There is room for so many calls, and for so many
    /// bytes that they write and put; a call beyond that fails, as do the calls that are listed.
    ///
    /// `NoMemory`: there was no memory for a copy of the disk, the objects or the record.
    pub fn over(
        alloc: Global,
        image: Vec<u8>,
        held: Vec<(SegName, Vec<u8>)>,
        calls: usize,
        room: usize,
        fail: Vec<Fail>,
    ) -> Result<MemSite, NoMemory>
        requires { All (λ o. IsInRange o.0) held.items }
        ensures image { IfOk result (λ site. ⟦<MemSite as Storage>⟧.image site ≡ Some image.items) }
        ensures objects { IfOk result (λ site. ⟦<MemSite as Storage>⟧.objects site ≡ Some (map_of (pairs_of held.items))) }
        ensures durable { IfOk result (λ site. NothingPending ⟦<MemSite as Storage>⟧ site) }
        ensures tells { IfOk result (λ site. TellsCrashes ⟦<MemSite as Storage>⟧ site) }
        ensures size { IfOk result (λ site. ⟦<MemSite as Storage>⟧.bytes_of site ≡ length image.items) }
        ensures disk_faults { IfOk result (λ site. ⟦<MemSite as Storage>⟧.disk_faults site ≡ 0) }
        ensures cloud_faults { IfOk result (λ site. ⟦<MemSite as Storage>⟧.cloud_faults site ≡ 0) }
        ensures noted { IfOk result (λ site. site.noted ≡ record { calls = []; most = calls; used = 0; room = room }) }
        ensures fail { IfOk result (λ site. site.fail ≡ fail.items) }
    {
        MemSite::fresh(alloc, image, held, calls, room, fail)
    }

    /// The same over a blank disk of this many bytes, each of them zero.
    ///
    /// `NoMemory`: there was no memory for the disk, the objects or the record.
    pub fn new(
        alloc: Global,
        size: u64,
        held: Vec<(SegName, Vec<u8>)>,
        calls: usize,
        room: usize,
        fail: Vec<Fail>,
    ) -> Result<MemSite, NoMemory>
        requires { All (λ o. IsInRange o.0) held.items }
        ensures image { IfOk result (λ site. ⟦<MemSite as Storage>⟧.image site ≡ Some (replicate size 0)) }
        ensures objects { IfOk result (λ site. ⟦<MemSite as Storage>⟧.objects site ≡ Some (map_of (pairs_of held.items))) }
        ensures durable { IfOk result (λ site. NothingPending ⟦<MemSite as Storage>⟧ site) }
        ensures tells { IfOk result (λ site. TellsCrashes ⟦<MemSite as Storage>⟧ site) }
        ensures size { IfOk result (λ site. ⟦<MemSite as Storage>⟧.bytes_of site ≡ size) }
        ensures disk_faults { IfOk result (λ site. ⟦<MemSite as Storage>⟧.disk_faults site ≡ 0) }
        ensures cloud_faults { IfOk result (λ site. ⟦<MemSite as Storage>⟧.cloud_faults site ≡ 0) }
        ensures noted { IfOk result (λ site. site.noted ≡ record { calls = []; most = calls; used = 0; room = room }) }
        ensures fail { IfOk result (λ site. site.fail ≡ fail.items) }
    {
        let image = vec![in alloc; 0; size as usize]?;
        MemSite::over(alloc, image, held, calls, room, fail)
    }

    // The site after so many of its calls.
    fn replayed(&self, number: usize) -> Result<Past, NoMemory>
        requires { number ≤ length self.now.noted.calls }
        ensures { IfOk result
            (λ past. IsAt past (after_calls (take number self.now.noted.calls) (at_first self.now.first))) }
    {
        let mut past = Past::start(self.alloc, &self.first_image, &self.first_held)?;
        for i in 0..number {
            let (step, happened, bytes) = self.noted.get(i);
            past.redo(self.alloc, step, happened, bytes)?;
        }
        Ok(past)
    }

    // What a stop within a call leaves.
    fn left_by(&self, call: u64, part: u8) -> Result<Past, NoMemory>
        ensures { let stop = stopped_at part self.now.noted.calls call (at_first self.now.first) in
            IfOk result (λ past. IsStoppedAt past stop.0 stop.1) }
    {
        let count = self.noted.len();
        if call >= count as u64 {
            return self.replayed(count);
        }
        let number = call as usize;
        let mut past = self.replayed(number)?;
        let (step, happened, bytes) = self.noted.get(number);
        past.stop(self.alloc, part, step, happened, bytes)?;
        Ok(past)
    }

    /// The site that a stop within the call of this number leaves, with an empty record of the same
    /// room, in which no call fails. `part` 0 leaves nothing of the call, 1 all of it, and another
    /// number all of what it wrote, each bit inverted. Of a sync this is said of what is pending, and of
    /// a put or a removal each number but 0 leaves what the call did. Beyond the last call the site is
    /// left as it is.
    ///
    /// `NoMemory`: there was no memory for it.
    pub fn stopped(&self, call: u64, part: u8) -> Result<MemSite, NoMemory>
        ensures image { IfOk result (λ left. (now_at left).image
            ≡ (stopped_at part self.now.noted.calls call (at_first self.now.first)).0) }
        ensures objects { IfOk result (λ left. (now_at left).objects
            ≡ (stopped_at part self.now.noted.calls call (at_first self.now.first)).1) }
        // It is one of the outcomes that a crash since then may have left.
        ensures among { IfOk result (λ left. ⟦<MemSite as Storage>⟧.left_since self.now
            (min call (⟦<MemSite as Storage>⟧.moment self.now)) (now_at left).image (now_at left).objects) }
        ensures durable { IfOk result (λ left. NothingPending ⟦<MemSite as Storage>⟧ left) }
        ensures disk_faults { IfOk result (λ left. ⟦<MemSite as Storage>⟧.disk_faults left ≡ 0) }
        ensures cloud_faults { IfOk result (λ left. ⟦<MemSite as Storage>⟧.cloud_faults left ≡ 0) }
        ensures noted { IfOk result (λ left. left.noted
            ≡ record { calls = []; most = self.now.noted.most; used = 0; room = self.now.noted.room }) }
        ensures fail { IfOk result (λ left. left.fail ≡ []) }
    {
        let past = self.left_by(call, part)?;
        let held = past.objects.to_pairs(self.alloc)?;
        let fail = Vec::new(self.alloc);
        MemSite::fresh(
            self.alloc,
            past.image,
            held,
            self.noted.most(),
            self.noted.room(),
            fail,
        )
    }

    // Writes, as the next call goes.
    fn write(&mut self, at: u64, bytes: &[u8]) -> Result<(), Failed>
        ensures made { Made (Write at) bytes.now (fate_of self.old (length bytes.now)) self.old self.new }
        ensures answer { result ≡ answer_of (fate_of self.old (length bytes.now)) }
        ensures cause { Counts self.old.disk_faults self.new.disk_faults (IsErr result) }
        ensures cloud { self.new.cloud_faults ≡ self.old.cloud_faults }
    {
        let fate = begin(&mut self.noted, &self.fail, Step::Write { at }, bytes);
        overwrite_if(&mut self.image, at, bytes, fate.happens());
        answer(fate, &mut self.disk_faults)
    }

    // Syncs, as the next call goes.
    fn flush(&mut self) -> Result<(), Failed>
        ensures made { Made Sync [] (fate_of self.old 0) self.old self.new }
        ensures answer { result ≡ answer_of (fate_of self.old 0) }
        ensures cause { Counts self.old.disk_faults self.new.disk_faults (IsErr result) }
        ensures cloud { self.new.cloud_faults ≡ self.old.cloud_faults }
    {
        let fate = begin(&mut self.noted, &self.fail, Step::Sync, &[]);
        answer(fate, &mut self.disk_faults)
    }

    // Looks at the disk, as the next call goes.
    fn look_at_disk(&mut self) -> Result<(), Failed>
        ensures made { Made Look [] (fate_of self.old 0) self.old self.new }
        ensures answer { result ≡ answer_of (fate_of self.old 0) }
        ensures cause { Counts self.old.disk_faults self.new.disk_faults (IsErr result) }
        ensures cloud { self.new.cloud_faults ≡ self.old.cloud_faults }
    {
        let fate = begin(&mut self.noted, &self.fail, Step::Look, &[]);
        answer(fate, &mut self.disk_faults)
    }

    // Looks into the cloud, as the next call goes.
    fn look_at_cloud(&mut self) -> Result<(), Failed>
        ensures made { Made Look [] (fate_of self.old 0) self.old self.new }
        ensures answer { result ≡ answer_of (fate_of self.old 0) }
        ensures cause { Counts self.old.cloud_faults self.new.cloud_faults (IsErr result) }
        ensures disk { self.new.disk_faults ≡ self.old.disk_faults }
    {
        let fate = begin(&mut self.noted, &self.fail, Step::Look, &[]);
        answer(fate, &mut self.cloud_faults)
    }

    // Stores an object, as the next call goes. `Memory` changes nothing.
    fn store(&mut self, name: SegName, bytes: &[u8]) -> Result<(), PutFault>
        requires { IsInRange name }
        ensures made { ((result ≡ Err PutFault.Memory) × (self.new ≡ self.old))
            ⊎ ((result ≡ put_answer_of (fate_of self.old (length bytes.now)))
            × Made (Put name) bytes.now (fate_of self.old (length bytes.now)) self.old self.new) }
        ensures cause { Counts self.old.cloud_faults self.new.cloud_faults (IsErrOf result PutFault.Failed) }
        ensures disk { self.new.disk_faults ≡ self.old.disk_faults }
    {
        let fate = next(&self.noted, &self.fail, bytes.len());
        if let Err(NoMemory) = self.objects.put_if(self.alloc, name, bytes, fate.happens()) {
            return Err(PutFault::Memory);
        }
        keep(&mut self.noted, fate, Step::Put { name }, bytes);
        put_answer(fate, &mut self.cloud_faults)
    }

    // Removes an object, as the next call goes.
    fn discard(&mut self, name: SegName) -> Result<(), Failed>
        ensures made { Made (Remove name) [] (fate_of self.old 0) self.old self.new }
        ensures answer { result ≡ answer_of (fate_of self.old 0) }
        ensures cause { Counts self.old.cloud_faults self.new.cloud_faults (IsErr result) }
        ensures disk { self.new.disk_faults ≡ self.old.disk_faults }
    {
        let fate = begin(&mut self.noted, &self.fail, Step::Remove { name }, &[]);
        self.objects.remove_if(name, fate.happens());
        answer(fate, &mut self.cloud_faults)
    }

    // Fills the buffer with the image's bytes from this place on.
    fn copy_to(&self, at: u64, buf: &mut [u8])
        requires { at + length buf.old ≤ length self.now.first.image }
        ensures { buf.new ≡ bytes_at (now_at self.now).image at (length buf.old) }
    {
        copy_part(&self.image, at, buf);
    }

    // Fills the buffer with an object's bytes from this offset on.
    fn look_up(&self, name: SegName, offset: u64, buf: &mut [u8]) -> Result<(), GetFault>
        ensures looks { Looks (now_at self.now).objects name offset (length buf.old) buf.new result }
        ensures sure { ¬ (IsErrOf result GetFault.Failed) }
        ensures err { OnErr result (buf.new ≡ buf.old) }
    {
        self.objects.look(name, offset, buf)
    }

    /// The bytes that a read gives.
    pub fn image(&self) -> &[u8]
        ensures { result.now ≡ (now_at self.now).image }
    {
        &self.image
    }

    /// The bytes of an object, where one of that name is held.
    pub fn held(&self, name: SegName) -> Option<&[u8]>
        ensures { option_map (λ bytes. bytes.now) result ≡ found (now_at self.now).objects name }
    {
        match self.objects.get(name) {
            Some(bytes) => Some(bytes.as_slice()),
            None => None,
        }
    }

    /// How many calls there were so far, of those that are kept. It is the number of the next one.
    pub fn calls(&self) -> u64
        ensures { result ≡ length self.now.noted.calls }
    {
        self.noted.len() as u64
    }
}

impl Storage for MemSite {
    ghost use Rattle.std.specs.Prelude.{length, Some, None};
    ghost use Rattle.sky_memory.specs.Past.{LeavesImage, LeavesSince, at_first};
    ghost use Rattle.sky_memory.specs.PastLaws.{whole_now, size_now, size_left, since_now, now_since};
    ghost use Rattle.sky_memory.specs.MemSite.{now_at};

    ghost disk_faults = { λ s. s.disk_faults };

    ghost cloud_faults = { λ s. s.cloud_faults };

    ghost bytes_of = { λ s. length s.first.image };

    ghost image = { λ s. Some (now_at s).image };

    ghost may_leave = { λ s. LeavesImage (now_at s) };

    ghost moment = { λ s. length s.noted.calls };

    ghost left_since = { λ s. LeavesSince (at_first s.first) s.noted.calls };

    ghost objects = { λ s. Some (now_at s).objects };

    ghost standing = { λ _. None };

    ghost counts_now = { λ s t left held le may told. since_now (at_first s.first) s.noted.calls t left held le (may, told) };

    ghost only_now = { λ s left held since. now_since (at_first s.first) s.noted.calls left held since };

    ghost leaves_what_is_read = { λ s left may. (whole_now s.first s.noted.calls).read };

    ghost has_size = { λ s. size_now s.first s.noted.calls };

    ghost leaves_its_size = { λ s left may. size_left s.first s.noted.calls left may };
}

impl Disk for MemSite {
    ghost use Rattle.std.specs.Prelude.{OnOk};
    ghost use Rattle.sky_outside.specs.Image.{written, Torn};
    ghost use Rattle.sky_outside.specs.Moments.{NothingPending, LeavesNoMore, MayTear, SameCloud, Elapses};
    ghost use Rattle.sky_memory.specs.declared.record.Step.TheVariants.{Look, Write, Sync};
    ghost use Rattle.sky_memory.specs.Record.{answer_of};
    ghost use Rattle.sky_memory.specs.MemSite.{now_at, fate_of, Made};

    /// The number of bytes. It never changes.
    fn size(&self) -> u64
        ensures { result ≡ length self.now.first.image }
    {
        self.first_image.len() as u64
    }

    /// Fills the buffer from this place on. It fails where this call is listed, or is beyond the record.
    /// `Failed` leaves the buffer.
    fn read(&mut self, at: u64, buf: &mut [u8]) -> Result<(), Failed>
        requires { at + length buf.old ≤ length self.old.first.image }
        ensures made { Made Look [] (fate_of self.old 0) self.old self.new }
        ensures answer { result ≡ answer_of (fate_of self.old 0) }
        ensures bytes { OnOk result (buf.new ≡ bytes_at (now_at self.old).image at (length buf.old)) }
        ensures err { OnErr result (buf.new ≡ buf.old) }
        ensures image { Some (now_at self.new).image ≡ Some (now_at self.old).image }
        ensures crash { LeavesNoMore ⟦<MemSite as Storage>⟧ self.old self.new }
        ensures time { Elapses ⟦<MemSite as Storage>⟧ self.old self.new }
        ensures beside { SameCloud ⟦<MemSite as Storage>⟧ self.old self.new }
        ensures size { length self.new.first.image ≡ length self.old.first.image }
        ensures cause { Counts self.old.disk_faults self.new.disk_faults (IsErr result) }
        ensures cloud { self.new.cloud_faults ≡ self.old.cloud_faults }
    {
        self.look_at_disk()?;
        self.copy_to(at, buf);
        Ok(())
    }

    /// Writes the bytes from this place on. It fails where this call is listed, and then happened or not
    /// as the list says; or where it is beyond the record, and then it did not.
    fn write_at(&mut self, at: u64, bytes: &[u8]) -> Result<(), Failed>
        requires { at + length bytes.now ≤ length self.old.first.image }
        ensures made { Made (Write at) bytes.now (fate_of self.old (length bytes.now)) self.old self.new }
        ensures answer { result ≡ answer_of (fate_of self.old (length bytes.now)) }
        ensures written { OnOk result (Some (now_at self.new).image ≡ Some (written (now_at self.old).image at bytes.now)) }
        ensures torn { OnErr result (Torn at (length bytes.now) (now_at self.old).image (now_at self.new).image) }
        ensures crash { MayTear ⟦<MemSite as Storage>⟧ at (length bytes.now) self.old self.new }
        ensures time { Elapses ⟦<MemSite as Storage>⟧ self.old self.new }
        ensures beside { SameCloud ⟦<MemSite as Storage>⟧ self.old self.new }
        ensures size { length self.new.first.image ≡ length self.old.first.image }
        ensures cause { Counts self.old.disk_faults self.new.disk_faults (IsErr result) }
        ensures cloud { self.new.cloud_faults ≡ self.old.cloud_faults }
    {
        self.write(at, bytes)
    }

    /// Makes what was written last through a stop. It fails where this call is listed, and then happened
    /// or not as the list says; or where it is beyond the record, and then it did not.
    fn sync(&mut self) -> Result<(), Failed>
        ensures made { Made Sync [] (fate_of self.old 0) self.old self.new }
        ensures answer { result ≡ answer_of (fate_of self.old 0) }
        ensures durable { OnOk result (NothingPending ⟦<MemSite as Storage>⟧ self.new) }
        ensures image { Some (now_at self.new).image ≡ Some (now_at self.old).image }
        ensures crash { LeavesNoMore ⟦<MemSite as Storage>⟧ self.old self.new }
        ensures time { Elapses ⟦<MemSite as Storage>⟧ self.old self.new }
        ensures beside { SameCloud ⟦<MemSite as Storage>⟧ self.old self.new }
        ensures size { length self.new.first.image ≡ length self.old.first.image }
        ensures cause { Counts self.old.disk_faults self.new.disk_faults (IsErr result) }
        ensures cloud { self.new.cloud_faults ≡ self.old.cloud_faults }
    {
        self.flush()
    }
}

impl Cloud for MemSite {
    ghost use Rattle.std.specs.Prelude.{◌≢◌, ◌↔◌, map, OnOk, is_err};
    ghost use Rattle.std.specs.List.Sorted.{IsStrictlySortedBy};
    ghost use Rattle.sky_base.specs.Limits.{max_number};
    ghost use Rattle.sky_base.specs.Order.{name_order};
    ghost use Rattle.sky_outside.specs.CloudMap.{after_put, Happened, HappenedOrNot, Looks, listing};
    ghost use Rattle.sky_outside.specs.Moments.{SameDisk, SameCloud, Elapses};
    ghost use Rattle.sky_memory.specs.declared.record.Step.TheVariants.{Look, Put};
    ghost use Rattle.sky_memory.specs.Record.{answer_of, put_answer_of};
    ghost use Rattle.sky_memory.specs.MemSite.{now_at, fate_of, Made};

    /// Stores a copy of the bytes, in the place of what had that name. It fails where this call is listed,
    /// and then happened or not as the list says; or where it is beyond the record, and then it did not.
    /// `Memory` comes where there was none for the copy, and then there was no call.
    fn put(&mut self, name: SegName, bytes: &[u8]) -> Result<(), PutFault>
        requires run { name.run < max_number }
        requires seq { name.seq < max_number }
        ensures memory { IsErrOf result PutFault.Memory → self.new ≡ self.old }
        ensures made { result ≢ Err PutFault.Memory
            → Made (Put name) bytes.now (fate_of self.old (length bytes.now)) self.old self.new }
        ensures answer { result ≢ Err PutFault.Memory → result ≡ put_answer_of (fate_of self.old (length bytes.now)) }
        ensures stored { OnOk result (Happened (after_put name bytes.now) (Some (now_at self.old).objects) (Some (now_at self.new).objects)) }
        ensures failed { OnErr result (HappenedOrNot (after_put name bytes.now) (Some (now_at self.old).objects) (Some (now_at self.new).objects)) }
        ensures time { Elapses ⟦<MemSite as Storage>⟧ self.old self.new }
        ensures beside { SameDisk ⟦<MemSite as Storage>⟧ self.old self.new }
        ensures size { length self.new.first.image ≡ length self.old.first.image }
        ensures cause { Counts self.old.cloud_faults self.new.cloud_faults (IsErrOf result PutFault.Failed) }
        ensures disk { self.new.disk_faults ≡ self.old.disk_faults }
    {
        self.store(name, bytes)
    }

    /// Fills the buffer with the object's bytes from this offset on. `Failed` comes where this call is
    /// listed, or is beyond the record. An error leaves the buffer.
    fn get(&mut self, name: SegName, offset: u64, buf: &mut [u8]) -> Result<(), GetFault>
        requires run { name.run < max_number }
        requires seq { name.seq < max_number }
        ensures made { Made Look [] (fate_of self.old 0) self.old self.new }
        ensures fails { IsErrOf result GetFault.Failed ↔ IsErr (answer_of (fate_of self.old 0)) }
        ensures looks { Looks (now_at self.old).objects name offset (length buf.old) buf.new result }
        ensures err { OnErr result (buf.new ≡ buf.old) }
        ensures same { SameCloud ⟦<MemSite as Storage>⟧ self.old self.new }
        ensures time { Elapses ⟦<MemSite as Storage>⟧ self.old self.new }
        ensures beside { SameDisk ⟦<MemSite as Storage>⟧ self.old self.new }
        ensures size { length self.new.first.image ≡ length self.old.first.image }
        ensures cause { Counts self.old.cloud_faults self.new.cloud_faults (IsErrOf result GetFault.Failed) }
        ensures disk { self.new.disk_faults ≡ self.old.disk_faults }
    {
        let Ok(()) = self.look_at_cloud() else {
            return Err(GetFault::Failed);
        };
        self.look_up(name, offset, buf)
    }

    /// The objects that it holds, in the order of their names. `Failed` comes where this call is listed,
    /// or is beyond the record. `Memory` comes where there was none for the list, and then there was no
    /// call.
    fn list(&mut self) -> Result<Vec<Held>, PutFault>
        ensures memory { IsErrOf result PutFault.Memory → self.new ≡ self.old }
        ensures made { result ≢ Err PutFault.Memory → Made Look [] (fate_of self.old 0) self.old self.new }
        ensures fails { result ≢ Err PutFault.Memory → is_err result ≡ is_err (answer_of (fate_of self.old 0)) }
        ensures listed { IfOk result (λ held. held.items ≡ listing (now_at self.old).objects) }
        ensures ascending { IfOk result
            (λ held. IsStrictlySortedBy name_order (map (λ h. h.name) held.items)) }
        ensures runs { IfOk result (λ held. All (λ h. h.name.run < max_number) held.items) }
        ensures seqs { IfOk result (λ held. All (λ h. h.name.seq < max_number) held.items) }
        ensures same { SameCloud ⟦<MemSite as Storage>⟧ self.old self.new }
        ensures time { Elapses ⟦<MemSite as Storage>⟧ self.old self.new }
        ensures beside { SameDisk ⟦<MemSite as Storage>⟧ self.old self.new }
        ensures size { length self.new.first.image ≡ length self.old.first.image }
        ensures cause { Counts self.old.cloud_faults self.new.cloud_faults (IsErrOf result PutFault.Failed) }
        ensures disk { self.new.disk_faults ≡ self.old.disk_faults }
    {
        let Ok(held) = self.objects.list(self.alloc) else {
            return Err(PutFault::Memory);
        };
        let Ok(()) = self.look_at_cloud() else {
            return Err(PutFault::Failed);
        };
        Ok(held)
    }
}

impl Site for MemSite {
    ghost use Rattle.std.specs.Prelude.{OnOk};
    ghost use Rattle.sky_base.specs.Limits.{max_number};
    ghost use Rattle.sky_outside.specs.CloudMap.{after_removal, Happened, HappenedOrNot};
    ghost use Rattle.sky_outside.specs.Moments.{SameDisk, Elapses};
    ghost use Rattle.sky_memory.specs.declared.record.Step.TheVariants.{Remove};
    ghost use Rattle.sky_memory.specs.Record.{answer_of};
    ghost use Rattle.sky_memory.specs.MemSite.{now_at, fate_of, Made};

    /// Removes an object, or does nothing where none has that name. It fails where this call is listed,
    /// and then happened or not as the list says; or where it is beyond the record, and then it did not.
    fn remove(&mut self, name: SegName) -> Result<(), Failed>
        requires run { name.run < max_number }
        requires seq { name.seq < max_number }
        ensures made { Made (Remove name) [] (fate_of self.old 0) self.old self.new }
        ensures answer { result ≡ answer_of (fate_of self.old 0) }
        ensures removed { OnOk result (Happened (after_removal name) (Some (now_at self.old).objects) (Some (now_at self.new).objects)) }
        ensures failed { OnErr result (HappenedOrNot (after_removal name) (Some (now_at self.old).objects) (Some (now_at self.new).objects)) }
        ensures time { Elapses ⟦<MemSite as Storage>⟧ self.old self.new }
        ensures beside { SameDisk ⟦<MemSite as Storage>⟧ self.old self.new }
        ensures size { length self.new.first.image ≡ length self.old.first.image }
        ensures cause { Counts self.old.cloud_faults self.new.cloud_faults (IsErr result) }
        ensures disk { self.new.disk_faults ≡ self.old.disk_faults }
    {
        self.discard(name)
    }
}
