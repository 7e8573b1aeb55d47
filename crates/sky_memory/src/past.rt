//! A site as it was after some of its calls, which are done again.

ghost use Rattle.std.specs.Prelude.{◌≡◌, ◌+◌, ◌≤◌, ◌==◌, false, cond, [], length, All, IfOk, OnOk};
ghost use Rattle.sky_outside.specs.Image.{bytes_at};
ghost use Rattle.sky_memory.specs.Past.{overwritten, inverted};

use crate::objects::Objects;
use crate::record::Step;
use sky_base::{NoMemory, SegName};
use std::alloc::Global;

/// A site at some moment: its disk as it reads, as it was at the last sync, and as it was then with
/// each write since, the bytes inverted; and the cloud's objects.
#[derive(Drop)]
pub struct Past {
    pub image: Vec<u8>,
    synced: Vec<u8>,
    inverted: Vec<u8>,
    pub objects: Objects,
}

/// Fills the buffer with the image's bytes from this place on.
pub fn copy_part(image: &[u8], at: u64, buf: &mut [u8])
    requires { at + length buf.old ≤ length image.now }
    ensures { buf.new ≡ bytes_at image.now at (length buf.old) }
{
    let start = at as usize;
    buf.copy_from_slice(&image[start..start + buf.len()]);
}

/// Writes the bytes at this place of the image, where they fit.
pub fn overwrite(image: &mut Vec<u8>, at: u64, bytes: &[u8])
    ensures { image.new.items ≡ overwritten image.old.items at bytes.now }
{
    let start = at as usize;
    if start <= image.len() && bytes.len() <= image.len() - start {
        image[start..start + bytes.len()].copy_from_slice(bytes);
    }
}

/// The same, if the write happened.
pub fn overwrite_if(image: &mut Vec<u8>, at: u64, bytes: &[u8], happened: bool)
    ensures { image.new.items ≡ cond happened (overwritten image.old.items at bytes.now) image.old.items }
{
    if happened {
        overwrite(image, at, bytes);
    }
}

// The bytes with each bit inverted.
fn inverted_copy(alloc: Global, bytes: &[u8]) -> Result<Vec<u8>, NoMemory>
    ensures { IfOk result (λ copy. copy.items ≡ inverted bytes.now) }
{
    Ok(bytes.iter().map(|b| 255 - *b).collect(alloc)?)
}

// Writes the bytes inverted.
fn overwrite_inverted(
    alloc: Global,
    image: &mut Vec<u8>,
    at: u64,
    bytes: &[u8],
) -> Result<(), NoMemory>
    ensures { OnOk result (image.new.items ≡ overwritten image.old.items at (inverted bytes.now)) }
{
    let inverted = inverted_copy(alloc, bytes)?;
    overwrite(image, at, &inverted);
    Ok(())
}

// Whether a call happens of which this part is left.
fn unless_none(part: u8, happened: bool) -> bool
    ensures { result ≡ cond (part == 0) false happened }
{
    part != 0 && happened
}

impl Past {
    ghost use Rattle.sky_memory.specs.Objects.{IsInRange, map_of, pairs_of};
    ghost use Rattle.sky_memory.specs.Past.{IsAllowed, at_first, after_step, stopped_image, stopped_objects, SiteAt};
    ghost use Rattle.sky_memory.specs.Replay.{IsAt, IsStoppedAt};
    ghost use Rattle.sky_memory.specs.declared.record.Step.TheVariants.{Sync};

    /// A site at first, when nothing is pending.
    pub fn start(alloc: Global, image: &[u8], held: &[(SegName, Vec<u8>)]) -> Result<Past, NoMemory>
        requires { All (λ o. IsInRange o.0) held.now }
        ensures { IfOk result
            (λ past. IsAt past (at_first (record { image = image.now; objects = pairs_of held.now }))) }
    {
        Ok(Past {
            image: image.to_vec(alloc)?,
            synced: image.to_vec(alloc)?,
            inverted: image.to_vec(alloc)?,
            objects: Objects::of(alloc, held)?,
        })
    }

    /// Does a call again. After `NoMemory` it isn't of use any more.
    pub fn redo(
        &mut self,
        alloc: Global,
        step: Step,
        happened: bool,
        bytes: &[u8],
    ) -> Result<(), NoMemory>
        requires { IsAllowed step }
        ensures { OnOk result ((s : SiteAt) → IsAt self.old s → IsAt self.new (after_step step bytes.now happened s)) }
    {
        match step {
            Step::Look => Ok(()),
            Step::Write { at } => {
                overwrite_if(&mut self.image, at, bytes, happened);
                overwrite_inverted(alloc, &mut self.inverted, at, bytes)
            }
            Step::Sync => self.redo_sync(alloc, happened),
            Step::Put { name } => self.objects.put_if(alloc, name, bytes, happened),
            Step::Remove { name } => {
                self.objects.remove_if(name, happened);
                Ok(())
            }
        }
    }

    // Does a sync again.
    fn redo_sync(&mut self, alloc: Global, happened: bool) -> Result<(), NoMemory>
        ensures { OnOk result ((s : SiteAt) → IsAt self.old s → IsAt self.new (after_step Sync [] happened s)) }
    {
        if happened {
            self.synced = self.image.to_vec(alloc)?;
            self.inverted = self.image.to_vec(alloc)?;
        }
        Ok(())
    }

    /// Stops within a call: `part` 0 leaves nothing of it, 1 all of it, and another number all of what
    /// it wrote inverted. Of a sync this is said of what is pending, and of a call of the cloud each
    /// number but 0 leaves all of it. After `NoMemory` it isn't of use any more.
    pub fn stop(
        &mut self,
        alloc: Global,
        part: u8,
        step: Step,
        happened: bool,
        bytes: &[u8],
    ) -> Result<(), NoMemory>
        requires { IsAllowed step }
        ensures { OnOk result ((s : SiteAt) → IsAt self.old s → IsStoppedAt self.new
            (stopped_image part step bytes.now s) (stopped_objects part (record { step = step; bytes = bytes.now; happened = happened }) s)) }
    {
        self.stop_disk(alloc, part, step, bytes)?;
        self.stop_cloud(alloc, step, unless_none(part, happened), bytes)
    }

    // Stops the disk within a call.
    fn stop_disk(
        &mut self,
        alloc: Global,
        part: u8,
        step: Step,
        bytes: &[u8],
    ) -> Result<(), NoMemory>
        ensures image { OnOk result ((s : SiteAt) → IsAt self.old s → self.new.image.items ≡ stopped_image part step bytes.now s) }
        ensures objects { self.new.objects ≡ self.old.objects }
    {
        match (step, part) {
            (Step::Write { at }, 1) => overwrite(&mut self.image, at, bytes),
            (Step::Write { .. }, 0) => {}
            (Step::Write { at }, _) => overwrite_inverted(alloc, &mut self.image, at, bytes)?,
            (Step::Sync, 0) => self.image = self.synced.to_vec(alloc)?,
            (Step::Sync, 1) => {}
            (Step::Sync, _) => self.image = self.inverted.to_vec(alloc)?,
            (Step::Look | Step::Put { .. } | Step::Remove { .. }, _) => {}
        }
        Ok(())
    }

    // Does a call of the cloud, or not.
    fn stop_cloud(
        &mut self,
        alloc: Global,
        step: Step,
        happens: bool,
        bytes: &[u8],
    ) -> Result<(), NoMemory>
        requires { IsAllowed step }
        ensures objects { OnOk result ((s : SiteAt) → map_of self.old.objects ≡ s.objects → map_of self.new.objects ≡ (after_step step bytes.now happens s).objects) }
        ensures image { self.new.image.items ≡ self.old.image.items }
    {
        match step {
            Step::Put { name } => self.objects.put_if(alloc, name, bytes, happens),
            Step::Remove { name } => {
                self.objects.remove_if(name, happens);
                Ok(())
            }
            Step::Look | Step::Write { .. } | Step::Sync => Ok(()),
        }
    }
}
