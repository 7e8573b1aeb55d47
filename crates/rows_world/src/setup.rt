//! What a world is opened over.

ghost use Rattle.std.specs.Prelude.{All, IfOk, IfSome};
ghost use Rattle.sky_base.specs.NameText.{IsNumbered};
ghost use Rattle.sky_memory.specs.Objects.{IsInRange};
ghost use Rattle.sky_outside.specs.Moments.{NothingPending};

use crate::words::{bytes_of, numbers_of};
use sky_base::{NoMemory, SegName};
use sky_memory::{Fail, MemSink, MemSite, MemSource, SureSite};
use sky_outside::Storage;
use sky_settings::{Fields, Settings};
use std::alloc::Global;

/// How many calls of a site that may fail are kept, and how many bytes of them.
const CALLS: usize = 1 << 12;

const CALL_BYTES: usize = 1 << 20;

/// What a row says of the site, of the settings, of the sink and of the source.
#[derive(Drop)]
pub struct Setup {
    /// The settings' numbers.
    fields: Fields,
    /// The bytes of the journal's disk.
    size: u64,
    /// How many bytes the sink takes.
    room: usize,
    /// The calls of the source that fail, the first of them with the number 0.
    source_fails: Vec<u64>,
    /// The calls of the sink that fail.
    sink_fails: Vec<u64>,
    /// The calls of the site that fail. Where there are none, the site is one that never fails.
    site_fails: Vec<Fail>,
    /// The call of the site, and what of it, that a stop comes in: `CALL:PART`.
    pub stop: Option<(u64, u8)>,
    /// What the disk has at first: `PLACE:BYTES`.
    disk: Vec<String>,
    /// The objects that the cloud has at first: `NAME:BYTES`.
    objects: Vec<String>,
    /// The bytes of the disk that are shown behind the frames: `PLACE:LENGTH`.
    pub images: Vec<(usize, usize)>,
    /// The objects that are shown then.
    pub shown: Vec<String>,
    /// How many of the next frames are not printed.
    pub skip: u64,
}

impl Setup {
    /// Where a row says nothing: two journal areas of 2^18 bytes, a sink of 2^16 bytes, and nothing fails.
    pub fn new(alloc: Global) -> Setup {
        Setup {
            fields: Fields {
                journal_area: 1 << 18,
                ..Settings::new().fields()
            },
            size: 1 << 19,
            room: 1 << 16,
            source_fails: Vec::new(alloc),
            sink_fails: Vec::new(alloc),
            site_fails: Vec::new(alloc),
            stop: None,
            disk: Vec::new(alloc),
            objects: Vec::new(alloc),
            images: Vec::new(alloc),
            shown: Vec::new(alloc),
            skip: 0,
        }
    }

    /// Takes what a word says. Nothing, where it can't be read.
    pub fn take(&mut self, alloc: Global, key: &str, value: &str) -> Option<()> {
        match key {
            "volume" => self.fields.volume = value.parse::<u64>().ok()?,
            "retained" => self.fields.retained = value.parse::<u32>().ok()?,
            "threshold" => self.fields.threshold = value.parse::<u32>().ok()?,
            "cache_items" => self.fields.cache_items = value.parse::<u32>().ok()?,
            "journal_area" => self.fields.journal_area = value.parse::<u64>().ok()?,
            "size" => self.size = value.parse::<u64>().ok()?,
            "skip" => self.skip = value.parse::<u64>().ok()?,
            "room" => self.room = value.parse::<usize>().ok()?,
            "source_fails" => self.source_fails = numbers_of(alloc, value)?,
            "sink_fails" => self.sink_fails = numbers_of(alloc, value)?,
            "site_fails" => self.site_fails = fails_of(alloc, value)?,
            "stop" => self.stop = Some(stop_of(value)?),
            "image" => self.images.push(range_of(value)?).ok()?,
            "disk" => keep(alloc, &mut self.disk, value)?,
            "object" => keep(alloc, &mut self.objects, value)?,
            "objects" => keep(alloc, &mut self.shown, value)?,
            _ => return None,
        }
        Some(())
    }

    /// The settings. Nothing, where one of them is out of its range.
    pub fn settings(&self) -> Option<Settings> {
        Settings::of(self.fields)
    }

    /// Whether the site is one that never fails, keeps no record of its calls and is blank at first.
    pub fn is_sure(&self) -> bool {
        let fails = !self.site_fails.is_empty() || self.stop.is_some();
        let begins = !self.disk.is_empty() || !self.objects.is_empty();
        let shows = !self.images.is_empty() || !self.shown.is_empty();
        !fails && !begins && !shows
    }

    /// A blank site that never fails.
    pub fn sure_site(&self, alloc: Global) -> Result<SureSite, NoMemory>
        ensures { IfOk result (λ site. NothingPending ⟦<SureSite as Storage>⟧ site) }
    {
        SureSite::new(alloc, self.size)
    }

    /// A site whose calls fail where the row says so. Nothing, where there is no memory, or the row says what no disk or cloud has.
    pub fn site(&self, alloc: Global) -> Option<MemSite>
        ensures { IfSome result (λ site. NothingPending ⟦<MemSite as Storage>⟧ site) }
    {
        let image = image_of(alloc, self.size, &self.disk)?;
        let held = objects_of(alloc, &self.objects)?;
        let fails = self.site_fails.to_vec(alloc).ok()?;
        MemSite::over(alloc, image, held, CALLS, CALL_BYTES, fails).ok()
    }

    /// The sink.
    pub fn sink(&self, alloc: Global) -> Result<MemSink, NoMemory> {
        MemSink::new(alloc, self.room, self.sink_fails.to_vec(alloc)?)
    }

    /// A source of a recording.
    pub fn source(&self, alloc: Global, recording: Vec<u8>) -> Result<MemSource, NoMemory> {
        Ok(MemSource::new(recording, self.source_fails.to_vec(alloc)?))
    }
}

/// The calls of a list such as `3,5!`: the fifth does what it was asked for all the same.
fn fails_of(alloc: Global, word: &str) -> Option<Vec<Fail>> {
    let mut fails = Vec::new(alloc);
    for number in word.split(',') {
        fails.push(fail_of(number)?).ok()?;
    }
    Some(fails)
}

/// A call that fails.
fn fail_of(word: &str) -> Option<Fail> {
    let (number, happened) = match word.strip_suffix('!') {
        Some(number) => (number, true),
        None => (word, false),
    };
    let call = number.parse::<u64>().ok()?;
    Some(Fail { call, happened })
}

/// The call that a stop comes in, and what it leaves of it.
fn stop_of(word: &str) -> Option<(u64, u8)> {
    let (call, part) = word.split_once(':')?;
    Some((call.parse::<u64>().ok()?, part.parse::<u8>().ok()?))
}

/// A place and a length: `PLACE:LENGTH`.
fn range_of(word: &str) -> Option<(usize, usize)> {
    let (at, length) = word.split_once(':')?;
    Some((at.parse::<usize>().ok()?, length.parse::<usize>().ok()?))
}

/// Keeps a word behind the others.
fn keep(alloc: Global, words: &mut Vec<String>, word: &str) -> Option<()> {
    words.push(String::from_str(alloc, word).ok()?).ok()
}

/// Writes what a word says into a disk: `PLACE:BYTES`.
fn write(alloc: Global, image: &mut [u8], word: &str) -> Option<()> {
    let (at, bytes) = word.split_once(':')?;
    let at = at.parse::<usize>().ok()?;
    let bytes = bytes_of(alloc, bytes)?;
    image
        .get_mut(at..)?
        .get_mut(..bytes.len())?
        .copy_from_slice(&bytes);
    Some(())
}

/// A disk of this many bytes, zero where no word says what it has.
fn image_of(alloc: Global, size: u64, words: &[String]) -> Option<Vec<u8>> {
    let mut image = vec![in alloc; 0u8; usize::try_from(size).ok()?].ok()?;
    for word in words {
        write(alloc, &mut image, word.as_str())?;
    }
    Some(image)
}

/// The name that a word is.
pub fn name_of(word: &str) -> Option<SegName>
    ensures { IfSome result IsNumbered }
{
    SegName::from_text(word.as_bytes()).ok()
}

/// An object: `NAME:BYTES`.
fn object_of(alloc: Global, word: &str) -> Option<(SegName, Vec<u8>)>
    ensures { IfSome result (λ o. IsInRange o.0) }
{
    let (name, bytes) = word.split_once(':')?;
    Some((name_of(name)?, bytes_of(alloc, bytes)?))
}

/// The objects of a cloud.
fn objects_of(alloc: Global, words: &[String]) -> Option<Vec<(SegName, Vec<u8>)>>
    ensures { IfSome result (λ held. All (λ o. IsInRange o.0) held.items) }
{
    let mut held = Vec::new(alloc);
    for word in words {
        held.push(object_of(alloc, word.as_str())?).ok()?;
    }
    Some(held)
}
