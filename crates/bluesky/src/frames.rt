//! The frames of a recording, read and handled one after the other.

ghost use Rattle.std.specs.Prelude.{◌≡◌, false, true, ℕ, Bool, List, [], length, Option, IfOk, IfErr, IsErrOf, OnOk};
ghost use Rattle.std.specs.Bool.{OnTrue, OnFalse};
ghost use Rattle.sky_outside.specs.Count.{Counts};
ghost use Rattle.sky_outside.specs.Told.{Had};
ghost use Rattle.sky_script.specs.Frame as frames;
ghost use Rattle.sky_script.specs.Frame.{InFrame, IsInFrame, in_frame};
ghost use Rattle.sky_script.specs.Values.{frame_of};
ghost use Rattle.sky_world.specs.Carried.{IsServing};
ghost use Rattle.sky_recover.specs.Opening.{Found};
ghost use Rattle.sky_world.specs.Meaning.{State, start, IsStep};
ghost use Rattle.sky_sound.specs.Boot.{Claims};
ghost use Rattle.sky_world.specs.World.{Stands, Stepped, restarts_by};
ghost use Rattle.bluesky.specs.Run.{IsOfDamage, IsReplayed, SinkCounts};
ghost use Rattle.bluesky.specs.Stop.{IsFailed, IsStop, MayStop, stop_of, StoppedBy, RanBehind};

use crate::ending::{end_with, finish};
use sky_base::Status;
use sky_outside::{Sink, Site, Source};
use sky_script::{Frame, FrameBuf, FrameFault, read_frame};
use sky_world::World;
use std::alloc::Global;

/// How many frames a recording may have, the end among them.
const FRAME_LIMIT: u64 = 1 << 32;

/// Why no further frame is handled.
#[derive(Clone, Copy)]
pub enum Stop {
    /// The end of the recording was read.
    End,
    /// What stands where the next frame was due is none.
    Malformed,
    /// The source ended.
    Early,
    /// A read failed.
    SourceFault,
    /// A step failed with this status.
    Failed(Status),
}

impl From<FrameFault> for Stop {
    ghost from_gives = { λ fault e. e ≡ stop_of fault };

    fn from(fault: FrameFault) -> Stop {
        match fault {
            FrameFault::Malformed => Stop::Malformed,
            FrameFault::Early => Stop::Early,
            FrameFault::SourceFault => Stop::SourceFault,
        }
    }
}

/// Whether a frame ends the recording.
fn is_end(frame: &Frame<'_>) -> bool
    ensures ended { OnTrue result (frame_of frame.now ≡ frames.End) }
    ensures goes_on { OnFalse result (IsStep (frame_of frame.now)) }
{
    matches!(frame, Frame::End)
}

/// Does one frame, and writes its answers. It stops where the step fails.
fn do_frame<K: Sink, P: Site>(
    alloc: Global,
    frame: &Frame<'_>,
    world: &mut World,
    sink: &mut K,
    site: &mut P,
) -> Result<(), Stop>
    requires formed { IsInFrame (frame_of frame.now) }
    requires step { IsStep (frame_of frame.now) }
    requires going { world.old.ended ≡ false }
    requires serving { IsServing P.Storage world.old.service site.old }
    ensures ok { OnOk result (Stepped P.Storage world.old site.old (frame_of frame.now) world.new site.new
        (record { before = K.written sink.old; after = K.written sink.new })) }
    ensures claims { OnOk result (Claims (restarts_by (frame_of frame.now)) (P.objects site.old) (P.objects site.new)) }
    ensures going { OnOk result (world.new.ended ≡ false) }
    ensures serving { OnOk result (IsServing P.Storage world.new.service site.new) }
    ensures stopped { IfErr result (λ stop. (had left : Option (List ℕ)) → Had had left (in_frame (frame_of frame.now))
        → StoppedBy P.Storage stop world.old site.old site.new (record { had = had; left = left })
        (record { before = K.written sink.old; after = K.written sink.new })) }
    ensures failed { IfErr result IsFailed }
    ensures refused { IfErr result (λ stop. (state : State) → Stands P.Storage world.old site.old state → MayStop stop state) }
    ensures size { P.bytes_of site.new ≡ P.bytes_of site.old }
    ensures journal_cause { Counts (P.disk_faults site.old) (P.disk_faults site.new) (IsErrOf result (Stop.Failed Status.JournalFault)) }
    ensures cloud_cause { Counts (P.cloud_faults site.old) (P.cloud_faults site.new) (IsErrOf result (Stop.Failed Status.CloudFault)) }
    ensures cause { Counts (K.faults sink.old) (K.faults sink.new) (IsErrOf result (Stop.Failed Status.SinkFault)) }
{
    match world.step(alloc, frame, site, sink) {
        Ok(()) => Ok(()),
        Err(status) => Err(Stop::Failed(status)),
    }
}

/// Reads the next frame and does it, and says how many bytes it takes.
fn next_frame<S: Source, K: Sink, P: Site>(
    alloc: Global,
    source: &mut S,
    sink: &mut K,
    site: &mut P,
    buf: &mut FrameBuf,
    world: &mut World,
) -> Result<u64, Stop>
    requires going { world.old.ended ≡ false }
    requires serving { IsServing P.Storage world.old.service site.old }
    ensures ok { IfOk result (λ len. (f : InFrame) × IsInFrame f × (len ≡ length (in_frame f))
        × Had (S.left source.old) (S.left source.new) (in_frame f)
        × Stepped P.Storage world.old site.old f world.new site.new (record { before = K.written sink.old; after = K.written sink.new })
        × Claims (restarts_by f) (P.objects site.old) (P.objects site.new)) }
    ensures going { OnOk result (world.new.ended ≡ false) }
    ensures serving { OnOk result (IsServing P.Storage world.new.service site.new) }
    ensures stopped { IfErr result (λ stop. StoppedBy P.Storage stop world.old site.old site.new
        (record { had = S.left source.old; left = S.left source.new })
        (record { before = K.written sink.old; after = K.written sink.new })) }
    ensures statuses { IfErr result IsStop }
    ensures refused { IfErr result (λ stop. (state : State) → Stands P.Storage world.old site.old state → MayStop stop state) }
    ensures size { P.bytes_of site.new ≡ P.bytes_of site.old }
    ensures source_cause { Counts (S.faults source.old) (S.faults source.new) (IsErrOf result Stop.SourceFault) }
    ensures journal_cause { Counts (P.disk_faults site.old) (P.disk_faults site.new) (IsErrOf result (Stop.Failed Status.JournalFault)) }
    ensures cloud_cause { Counts (P.cloud_faults site.old) (P.cloud_faults site.new) (IsErrOf result (Stop.Failed Status.CloudFault)) }
    ensures sink_cause { Counts (K.faults sink.old) (K.faults sink.new) (IsErrOf result (Stop.Failed Status.SinkFault)) }
{
    let frame = read_frame(source, buf)?;
    let length = frame.length();
    if is_end(&frame) {
        return Err(Stop::End);
    }
    do_frame(alloc, &frame, world, sink, site)?;
    Ok(length)
}

/// Handles frame after frame, from the state of an opening on, of a recording whose magic was read. The site is the one over which
/// the world was opened.
pub fn handle_frames<S: Source, K: Sink, P: Site>(
    alloc: Global,
    source: &mut S,
    sink: &mut K,
    site: &mut P,
    buf: &mut FrameBuf,
    mut world: World,
) -> Status
    requires going { world.ended ≡ false }
    requires serving { IsServing P.Storage world.service site.old }
    ensures ran { (told : Bool) (found : Found) → Stands P.Storage world site.old (start told found) → RanBehind P.Storage world.settings found site.old site.new result
        (record { had = S.left source.old; left = S.left source.new })
        (record {
          before = K.written sink.old;
          after = K.written sink.new;
          faults_before = K.faults sink.old;
          faults_after = K.faults sink.new;
        }) }
    ensures replayed { IsReplayed result }
    ensures refused { (told : Bool) (found : Found) → Stands P.Storage world site.old (start told found) → told ≡ true → IsOfDamage result → ⊥ }
    ensures size { P.bytes_of site.new ≡ P.bytes_of site.old }
    ensures source_cause { Counts (S.faults source.old) (S.faults source.new) (result ≡ Status.SourceFault) }
    ensures journal_cause { Counts (P.disk_faults site.old) (P.disk_faults site.new) (result ≡ Status.JournalFault) }
    ensures cloud_cause { Counts (P.cloud_faults site.old) (P.cloud_faults site.new) (result ≡ Status.CloudFault) }
    ensures sink_cause { SinkCounts (K.faults sink.old) (K.faults sink.new) result }
{
    let mut place = 8;
    for _ in 0..FRAME_LIMIT {
        match next_frame(alloc, source, sink, site, buf, &mut world) {
            Ok(length) => place += length,
            Err(stop) => return finish(sink, stop, place),
        }
    }
    end_with(sink, Status::Long)
}
