//! The last frame of a run.

ghost use Rattle.std.specs.Prelude.{◌≡◌, ◌≢◌, ◌≤◌, []};
ghost use Rattle.bluesky.specs.Run.{GaveEnding};
ghost use Rattle.bluesky.specs.Stop.{Finishes};

use crate::frames::Stop;
use sky_base::Status;
use sky_outside::{Failed, Sink};
use sky_script::{OutFrame, write_out_frame};

/// Writes the last frame of a run that ends with this status, which stays also where that fails.
pub fn end_with<K: Sink>(sink: &mut K, status: Status) -> Status
    ensures status { result ≡ status }
    ensures gave { GaveEnding (record {
      before = K.written sink.old;
      after = K.written sink.new;
      faults_before = K.faults sink.old;
      faults_after = K.faults sink.new;
    }) [] status }
    ensures grows { K.faults sink.old ≤ K.faults sink.new }
{
    let _ = write_out_frame(sink, &OutFrame::Ended(status));
    status
}

/// Ends a run whose opening, or one of whose steps, failed with this status: writes the last frame, unless the sink was what failed.
pub fn end_failed<K: Sink>(sink: &mut K, status: Status) -> Status
    ensures status { result ≡ status }
    ensures sunk { status ≡ Status.SinkFault → sink.new ≡ sink.old }
    ensures gave { status ≢ Status.SinkFault → GaveEnding (record {
      before = K.written sink.old;
      after = K.written sink.new;
      faults_before = K.faults sink.old;
      faults_after = K.faults sink.new;
    }) [] status }
    ensures grows { K.faults sink.old ≤ K.faults sink.new }
{
    match status {
        Status::SinkFault => status,
        _ => end_with(sink, status),
    }
}

/// Ends a run that stops at this place of the recording.
pub fn finish<K: Sink>(sink: &mut K, stop: Stop, place: u64) -> Status
    ensures finishes { Finishes stop place result (record {
      before = K.written sink.old;
      after = K.written sink.new;
      faults_before = K.faults sink.old;
      faults_after = K.faults sink.new;
    }) }
    ensures grows { K.faults sink.old ≤ K.faults sink.new }
{
    match stop {
        Stop::End => match write_out_frame(sink, &OutFrame::Ended(Status::Done)) {
            Ok(()) => Status::Done,
            Err(Failed) => Status::SinkFault,
        },
        Stop::Malformed => end_with(sink, Status::Malformed { at: place }),
        Stop::Early => end_with(sink, Status::Early),
        Stop::SourceFault => end_with(sink, Status::SourceFault),
        Stop::Failed(status) => end_failed(sink, status),
    }
}
