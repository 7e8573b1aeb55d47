//! The run of a recorded session, from its words to its status.

ghost use Rattle.std.specs.Prelude.{◌≡◌, ◌≢◌, ◌≤◌, ◌↔◌, ◌⊎◌, ℕ, Bool, false, true, List, [], map, string_bytes, Option, IfOk, IfErr, IsErr, IsErrOf, OnErr, OnOk};
ghost use Rattle.sky_outside.specs.Count.{Counts, Rose};
ghost use Rattle.sky_outside.specs.Moments.{NothingPending};
ghost use Rattle.sky_outside.specs.Told.{WhereTold, Had, Given, GivenPart};
ghost use Rattle.sky_recover.specs.Opening.{Found, IsFoundOn, LeavesFound, WhereBothTold};
ghost use Rattle.sky_script.specs.Frame.{magic, out_frame};
ghost use Rattle.sky_settings.specs.declared.settings.Fields.{Fields};
ghost use Rattle.sky_settings_file.specs.Table.{SaysSettings};
ghost use Rattle.sky_sound.specs.Boot.{Claims};
ghost use Rattle.sky_sound.specs.Recovery.{IsSound};
ghost use Rattle.sky_world.specs.Carried.{IsServing};
ghost use Rattle.sky_world.specs.Meaning.{start, opening};
ghost use Rattle.sky_world.specs.Opening.{IsOfOpening, IsRefusedAs, LeavesRefusedAs};
ghost use Rattle.sky_world.specs.World.{ClaimsFailed, Stands, tells};
ghost use Rattle.sky_words.specs.Words.{Says};
ghost use Rattle.sky_words.specs.declared.command.Command.TheVariants.{Replay};
ghost use Rattle.bluesky.specs.Asked.{IsUnsaid, SaysNone};
ghost use Rattle.bluesky.specs.Run.{GaveUnopened, Ran, RanOn, IsExact, IsOfDamage, IsReplayed, SinkCounts, session_bytes};
ghost use Rattle.bluesky.specs.Stop.{NoMagic, Opened, magic_status_of};

use crate::ending::{end_failed, end_with};
use crate::frames::handle_frames;
use crate::words::are_replay;
use sky_base::Status;
use sky_outside::{Failed, Sink, Site, Source, fill, write_all};
use sky_script::{FrameBuf, FrameFault};
use sky_settings::Settings;
use sky_settings_file::{SettingsFault, read_settings};
use sky_world::World;
use std::alloc::Global;

/// What a recording begins with, and so does what is written.
const MAGIC: [u8; 8] = *b"SKYREC1\n";

/// Begins what is written: the magic.
fn write_magic<K: Sink>(sink: &mut K) -> Result<(), Status>
    ensures ok { OnOk result (Given (K.written sink.old) (K.written sink.new) magic) }
    ensures partly { OnErr result (GivenPart (K.written sink.old) (K.written sink.new) magic) }
    ensures status { IfErr result (λ status. status ≡ Status.SinkFault) }
    ensures cause { Counts (K.faults sink.old) (K.faults sink.new) (IsErr result) }
{
    match write_all(sink, &MAGIC) {
        Ok(()) => Ok(()),
        Err(Failed) => Err(Status::SinkFault),
    }
}

/// Opens the site, and writes the frame of the opening.
///
/// `Memory` where there was none for the buffers, and else what `World::start` answers.
fn open<K: Sink, P: Site>(
    alloc: Global,
    sink: &mut K,
    site: &mut P,
    settings: Settings,
) -> Result<(FrameBuf, World), Status>
    requires settled { NothingPending P.Storage site.old }
    ensures world { IfOk result (λ opened. (found : Found) × Opened P.Storage settings site.old site.new found
        × Stands P.Storage opened.1 site.new (start (tells P.Storage site.old) found) × Given (K.written sink.old) (K.written sink.new) (out_frame (opening found))) }
    ensures settings { IfOk result (λ opened. opened.1.settings ≡ settings) }
    ensures going { IfOk result (λ opened. opened.1.ended ≡ false) }
    ensures serving { IfOk result (λ opened. IsServing P.Storage opened.1.service site.new) }
    ensures unwritten { IfErr result (λ status. IsOfOpening status → sink.new ≡ sink.old) }
    ensures partly { IsErrOf result Status.SinkFault → (found : Found) × IsFoundOn P.Storage settings.volume settings.journal_area site.old found
        × GivenPart (K.written sink.old) (K.written sink.new) (out_frame (opening found)) }
    ensures any_moment { LeavesFound P.Storage settings.volume settings.journal_area site.old site.new }
    ensures refused { IfErr result (λ status. WhereBothTold P.Storage site.old (IsRefusedAs settings.volume settings.journal_area status)) }
    ensures untouched { IfErr result (LeavesRefusedAs P.Storage site.old site.new) }
    ensures claims { OnOk result (Claims 1 (P.objects site.old) (P.objects site.new)) }
    ensures claims_failed { IfErr result (λ status. ClaimsFailed status 1 (P.objects site.old) (P.objects site.new)) }
    ensures statuses { IfErr result (λ status. IsOfOpening status ⊎ (status ≡ Status.SinkFault)) }
    ensures size { P.bytes_of site.new ≡ P.bytes_of site.old }
    ensures journal_cause { Counts (P.disk_faults site.old) (P.disk_faults site.new) (IsErrOf result Status.JournalFault) }
    ensures cloud_cause { Counts (P.cloud_faults site.old) (P.cloud_faults site.new) (IsErrOf result Status.CloudFault) }
    ensures cause { Counts (K.faults sink.old) (K.faults sink.new) (IsErrOf result Status.SinkFault) }
{
    let Ok(buf) = FrameBuf::new(alloc) else {
        return Err(Status::Memory);
    };
    let world = World::start(alloc, site, sink, settings)?;
    Ok((buf, world))
}

/// Reads what a recording begins with.
///
/// `Malformed` where eight bytes are something else, and nothing is read past them; `Early` where the
/// source ends within them; `SourceFault` where a read failed.
fn read_magic<S: Source>(source: &mut S) -> Result<(), FrameFault>
    ensures ok { OnOk result (Had (S.left source.old) (S.left source.new) magic) }
    ensures none { IfErr result (λ fault. NoMagic fault (S.left source.old) (S.left source.new)) }
    ensures cause { Counts (S.faults source.old) (S.faults source.new) (IsErrOf result FrameFault.SourceFault) }
{
    let mut bytes = [0; 8];
    fill(source, &mut bytes)?;
    if bytes == MAGIC {
        Ok(())
    } else {
        Err(FrameFault::Malformed)
    }
}

/// The status of a run that found no magic.
fn magic_status(fault: FrameFault) -> Status
    ensures { result ≡ magic_status_of fault }
{
    match fault {
        FrameFault::Malformed => Status::Malformed { at: 0 },
        FrameFault::Early => Status::Early,
        FrameFault::SourceFault => Status::SourceFault,
    }
}

/// Reads a recording over a site that was opened, and writes what it means.
fn replay_opened<S: Source, K: Sink, P: Site>(
    alloc: Global,
    source: &mut S,
    sink: &mut K,
    site: &mut P,
    mut buf: FrameBuf,
    world: World,
) -> Status
    requires going { world.ended ≡ false }
    requires serving { IsServing P.Storage world.service site.old }
    ensures ran { (first : P) (before : Option (List ℕ)) (found : Found) → Opened P.Storage world.settings first site.old found
        → Stands P.Storage world site.old (start (tells P.Storage first) found) → Given before (K.written sink.old) (session_bytes found [])
        → RanOn P.Storage world.settings first site.new result
        (record { had = S.left source.old; left = S.left source.new })
        (record {
          before = before;
          after = K.written sink.new;
          faults_before = K.faults sink.old;
          faults_after = K.faults sink.new;
        }) }
    ensures replayed { IsReplayed result }
    ensures refused { (told : Bool) (found : Found) → Stands P.Storage world site.old (start told found) → told ≡ true → IsOfDamage result → ⊥ }
    ensures size { P.bytes_of site.new ≡ P.bytes_of site.old }
    ensures source_cause { Counts (S.faults source.old) (S.faults source.new) (result ≡ Status.SourceFault) }
    ensures journal_cause { Counts (P.disk_faults site.old) (P.disk_faults site.new) (result ≡ Status.JournalFault) }
    ensures cloud_cause { Counts (P.cloud_faults site.old) (P.cloud_faults site.new) (result ≡ Status.CloudFault) }
    ensures sink_cause { SinkCounts (K.faults sink.old) (K.faults sink.new) result }
{
    match read_magic(source) {
        Ok(()) => handle_frames(alloc, source, sink, site, &mut buf, world),
        Err(fault) => end_with(sink, magic_status(fault)),
    }
}

/// Replays a recording: opens the site, reads the recording from the source, and writes to the sink what it means.
fn replay<S: Source, K: Sink, P: Site>(
    alloc: Global,
    source: &mut S,
    sink: &mut K,
    site: &mut P,
    settings: Settings,
) -> Status
    requires settled { NothingPending P.Storage site.old }
    ensures ran { Ran P.Storage settings site.old site.new result
        (record { had = S.left source.old; left = S.left source.new })
        (record {
          before = K.written sink.old;
          after = K.written sink.new;
          faults_before = K.faults sink.old;
          faults_after = K.faults sink.new;
        }) }
    ensures replayed { IsReplayed result }
    ensures sound { IsOfDamage result → WhereBothTold P.Storage site.old (λ image objects. IsSound settings.volume settings.journal_area image objects → ⊥) }
    ensures size { P.bytes_of site.new ≡ P.bytes_of site.old }
    ensures source_cause { Counts (S.faults source.old) (S.faults source.new) (result ≡ Status.SourceFault) }
    ensures journal_cause { Counts (P.disk_faults site.old) (P.disk_faults site.new) (result ≡ Status.JournalFault) }
    ensures cloud_cause { Counts (P.cloud_faults site.old) (P.cloud_faults site.new) (result ≡ Status.CloudFault) }
    ensures sink_cause { SinkCounts (K.faults sink.old) (K.faults sink.new) result }
{
    if let Err(status) = write_magic(sink) {
        return status;
    }
    match open(alloc, sink, site, settings) {
        Ok((buf, world)) => replay_opened(alloc, source, sink, site, buf, world),
        Err(status) => end_failed(sink, status),
    }
}

/// Ends a run for whose settings there was no memory: writes the magic and the last frame, and opens nothing.
fn end_without_settings<K: Sink>(sink: &mut K) -> Status
    ensures statuses { (result ≡ Status.Memory) ⊎ (result ≡ Status.SinkFault) }
    ensures gave { GaveUnopened result (record {
      before = K.written sink.old;
      after = K.written sink.new;
      faults_before = K.faults sink.old;
      faults_after = K.faults sink.new;
    }) }
    ensures cause { SinkCounts (K.faults sink.old) (K.faults sink.new) result }
{
    match write_magic(sink) {
        Ok(()) => end_with(sink, Status::Memory),
        Err(status) => status,
    }
}

/// Replays a recording by the settings that a text says.
fn replay_by<S: Source, K: Sink, P: Site>(
    alloc: Global,
    settings: &[u8],
    source: &mut S,
    sink: &mut K,
    site: &mut P,
) -> Status
    requires settled { NothingPending P.Storage site.old }
    ensures words { result ≢ Status.Words }
    ensures settings { result ≡ Status.Settings → SaysNone settings.now }
    ensures source_untouched { (IsReplayed result → ⊥) → source.new ≡ source.old }
    ensures sink_untouched { (IsReplayed result → ⊥) → sink.new ≡ sink.old }
    ensures site_untouched { (IsReplayed result → ⊥) → site.new ≡ site.old }
    ensures unsaid { SaysNone settings.now → IsUnsaid result }
    ensures unsaid_source { SaysNone settings.now → source.new ≡ source.old }
    ensures unsaid_sink { SaysNone settings.now → GaveUnopened result (record {
      before = K.written sink.old;
      after = K.written sink.new;
      faults_before = K.faults sink.old;
      faults_after = K.faults sink.new;
    }) }
    ensures unsaid_site { SaysNone settings.now → site.new ≡ site.old }
    ensures ran { (fields : Fields) → SaysSettings settings.now fields → Ran P.Storage fields site.old site.new result
        (record { had = S.left source.old; left = S.left source.new })
        (record {
          before = K.written sink.old;
          after = K.written sink.new;
          faults_before = K.faults sink.old;
          faults_after = K.faults sink.new;
        }) }
    ensures sound { (fields : Fields) → SaysSettings settings.now fields → IsOfDamage result
        → WhereBothTold P.Storage site.old (λ image objects. IsSound fields.volume fields.journal_area image objects → ⊥) }
    ensures exact { IsReplayed result → WhereTold (S.left source.old) (IsExact result) }
    ensures source_cause { Counts (S.faults source.old) (S.faults source.new) (result ≡ Status.SourceFault) }
    ensures journal_cause { Counts (P.disk_faults site.old) (P.disk_faults site.new) (result ≡ Status.JournalFault) }
    ensures cloud_cause { Counts (P.cloud_faults site.old) (P.cloud_faults site.new) (result ≡ Status.CloudFault) }
    ensures sink_cause { SinkCounts (K.faults sink.old) (K.faults sink.new) result }
    ensures size { P.bytes_of site.new ≡ P.bytes_of site.old }
{
    match read_settings(alloc, settings) {
        Ok(settings) => replay(alloc, source, sink, site, settings),
        Err(SettingsFault::Refused) => Status::Settings,
        Err(SettingsFault::Memory) => end_without_settings(sink),
    }
}

/// Runs the command that the words say, by the settings that a text says, over these devices, and says how it ended. So far `replay` is the one
/// command that is done; the words of the others are refused.
///
/// It writes the magic, opens the site, whatever it has, and writes the frame of the opening. Then it reads a recorded session from
/// the source, and writes the answers to its frames, and at its end a frame that says how it ended. A change goes through the journal, and
/// one that is to be stable is on the disk before its answer is written; what was stable is found again by the next run, and by a restart within
/// this one. What comes is in the docs of `Status`; if it refuses the words or the settings, it reads and writes nothing. Where there is no memory
/// for reading the settings, it writes the magic and the last frame, and opens nothing.
///
/// When it begins, nothing that was written to the disk may wait for a sync.
pub fn run<S: Source, K: Sink, P: Site>(
    alloc: Global,
    words: &[String],
    settings: &[u8],
    source: &mut S,
    sink: &mut K,
    site: &mut P,
) -> Status
    requires settled { NothingPending P.Storage site.old }

    // The words are judged first, then the settings, and nothing else is done where they are refused.
    ensures words { (result ≡ Status.Words) ↔ (Says Replay (map string_bytes words.now) → ⊥) }
    ensures settings { result ≡ Status.Settings → Says Replay (map string_bytes words.now) × SaysNone settings.now }
    ensures source_untouched { (IsReplayed result → ⊥) → source.new ≡ source.old }
    ensures sink_untouched { (IsReplayed result → ⊥) → sink.new ≡ sink.old }
    ensures site_untouched { (IsReplayed result → ⊥) → site.new ≡ site.old }

    // A text that says no settings is refused, unless the words are, or there is no memory for reading it. Nothing is opened, and nothing is read.
    ensures unsaid { SaysNone settings.now → IsUnsaid result }
    ensures unsaid_source { SaysNone settings.now → source.new ≡ source.old }
    ensures unsaid_sink { SaysNone settings.now → GaveUnopened result (record {
      before = K.written sink.old;
      after = K.written sink.new;
      faults_before = K.faults sink.old;
      faults_after = K.faults sink.new;
    }) }
    ensures unsaid_site { SaysNone settings.now → site.new ≡ site.old }

    // By the settings that the text says: what was read, what was written, and what recovery finds after a crash at any moment, by the status:
    // the meaning of the frames that were handled, in the history that the site stood for.
    ensures ran { (fields : Fields) → SaysSettings settings.now fields → Ran P.Storage fields site.old site.new result
        (record { had = S.left source.old; left = S.left source.new })
        (record {
          before = K.written sink.old;
          after = K.written sink.new;
          faults_before = K.faults sink.old;
          faults_after = K.faults sink.new;
        }) }

    // No sound site is refused for what it has.
    ensures sound { (fields : Fields) → SaysSettings settings.now fields → IsOfDamage result
        → WhereBothTold P.Storage site.old (λ image objects. IsSound fields.volume fields.journal_area image objects → ⊥) }

    // Each other status is the one that the bytes of the source ask for.
    ensures exact { IsReplayed result → WhereTold (S.left source.old) (IsExact result) }

    // A device is blamed only where it failed in this run.
    ensures source_cause { Counts (S.faults source.old) (S.faults source.new) (result ≡ Status.SourceFault) }
    ensures journal_cause { Counts (P.disk_faults site.old) (P.disk_faults site.new) (result ≡ Status.JournalFault) }
    // The cloud's count never falls, and rose where the cloud is blamed; today it stays elsewhere.
    ensures cloud_grows { P.cloud_faults site.old ≤ P.cloud_faults site.new }
    ensures cloud_cause { result ≡ Status.CloudFault → Rose (P.cloud_faults site.old) (P.cloud_faults site.new) }
    ensures cloud_quiet { (result ≡ Status.CloudFault → ⊥) → P.cloud_faults site.new ≡ P.cloud_faults site.old }
    ensures sink_cause { SinkCounts (K.faults sink.old) (K.faults sink.new) result }

    ensures size { P.bytes_of site.new ≡ P.bytes_of site.old }
{
    if !are_replay(words) {
        return Status::Words;
    }
    replay_by(alloc, settings, source, sink, site)
}
