//! What the proxy is in between two frames, and what a frame does to it.

ghost use Rattle.std.specs.Prelude.{◌≡◌, ◌<◌, ◌≤◌, ◌^◌, ◌⊎◌, ℕ, Bool, true, false, List, [], Option, length, take, IfOk, IfErr, OnOk, OnErr, IsErr, IsErrOf, is_err, is_some, slice_index_or, slice_set, replicate};
ghost use Rattle.sky_nfs.specs.Tree.{epoch_start};
ghost use Rattle.sky_outside.specs.Count.{Counts, Rose};
ghost use Rattle.sky_outside.specs.Moments.{NothingPending};
ghost use Rattle.sky_outside.specs.Told.{BothTold, Given, GivenPart, WhereTold};
ghost use Rattle.sky_record.specs.Stream.{Received, IsOpen, nothing};
ghost use Rattle.sky_script.specs.Frame as frames;
ghost use Rattle.sky_script.specs.Frame.{IsInFrame, out_frame, out_frames, session_count};
ghost use Rattle.sky_script.specs.Values.{frame_of};
ghost use Rattle.sky_world.specs.Carried.{IsServing};
ghost use Rattle.sky_world.specs.Feeding.{Answers, Fails, Feeds, FeedFails, Handled, HandledPart, HandledDown};
ghost use Rattle.sky_recover.specs.Opening.{Found, IsFoundOn, IsOpenOn, LeavesFound, WhereBothTold};
ghost use Rattle.sky_sound.specs.Boot.{Claims, MayClaim};
ghost use Rattle.sky_world.specs.Meaning.{State, start as started, opening, frame_for, IsStep};
ghost use Rattle.sky_world.specs.Opening.{IsOfOpening, IsRefusedAs, LeavesCloudAs, LeavesRefusedAs, MayRefuse, reopened_world};
ghost use Rattle.sky_world.specs.Sessions.{IsReady, closed};
ghost use Rattle.sky_world.specs.declared.sessions.Session.{Session};
ghost use Rattle.sky_world.specs.World.{ClaimsFailed, ServiceView, Stands, StepFailed, Stepped, SteppedPart, SteppedDown, IsRestart, restarts_by, stats_shown, tells};

use crate::opening::open_site;
use crate::reply::ReplyBuf;
use crate::service::Service;
use crate::sessions::{Session, Sessions};
use sky_base::{Moment, NoMemory, Status};
use sky_calls::DurableTree;
use sky_outside::{Disk, Failed, Sink, Site};
use sky_record::{Assembler, Fed};
use sky_recover::Opened;
use sky_script::{Frame, OutFrame, Stats, write_out_frame};
use sky_settings::Settings;
use std::alloc::Global;
use std::marker::Model;

/// Answers a record of a session: gives the reply to it, or closes the session. Says whether the session stays open.
///
/// `JournalFault` where a call of the disk failed; nothing was written then. `SinkFault` where a write failed.
fn answer_record<D: Disk, K: Sink>(
    alloc: Global,
    service: &mut Service,
    buf: &mut ReplyBuf,
    session: u32,
    text: &[u8],
    disk: &mut D,
    sink: &mut K,
) -> Result<bool, Status>
    requires short { length text.now ≤ 131072 }
    requires serving { IsServing D.Storage service.old disk.old }
    ensures ok { IfOk result (λ stays. (reply : Option (List ℕ)) × Answers D.Storage service.old disk.old text.now reply service.new disk.new × (stays ≡ is_some reply)
        × Given (K.written sink.old) (K.written sink.new) (out_frame (frame_for session reply))) }
    ensures serving { OnOk result (IsServing D.Storage service.new disk.new) }
    ensures partly { IsErrOf result Status.SinkFault → (reply : Option (List ℕ)) × (after : ServiceView) × Answers D.Storage service.old disk.old text.now reply after disk.new
        × GivenPart (K.written sink.old) (K.written sink.new) (out_frame (frame_for session reply)) }
    ensures fails { IsErrOf result Status.JournalFault → Fails D.Storage service.old disk.old text.now disk.new }
    ensures unwritten { IsErrOf result Status.JournalFault → sink.new ≡ sink.old }
    ensures statuses { IfErr result (λ status. (status ≡ Status.JournalFault) ⊎ (status ≡ Status.SinkFault)) }
    ensures size { D.bytes_of disk.new ≡ D.bytes_of disk.old }
    ensures disk_cause { Counts (D.disk_faults disk.old) (D.disk_faults disk.new) (IsErrOf result Status.JournalFault) }
    ensures cloud { D.cloud_faults disk.new ≡ D.cloud_faults disk.old }
    ensures objects { D.objects disk.new ≡ D.objects disk.old }
    ensures cause { Counts (K.faults sink.old) (K.faults sink.new) (IsErrOf result Status.SinkFault) }
{
    match buf.write(alloc, service, disk, text) {
        Err(Failed) => Err(Status::JournalFault),
        Ok(Some(count)) => match buf.give(session, count, sink) {
            Ok(()) => Ok(true),
            Err(Failed) => Err(Status::SinkFault),
        },
        Ok(None) => match write_out_frame(sink, &OutFrame::Closed { session }) {
            Ok(()) => Ok(false),
            Err(Failed) => Err(Status::SinkFault),
        },
    }
}

/// Takes bytes from the prefix of a piece, up to the end of the record under way, and answers that record if it ended.
/// Says how many bytes it took, and whether the session stays open.
fn feed_once<D: Disk, K: Sink>(
    alloc: Global,
    service: &mut Service,
    buf: &mut ReplyBuf,
    session: u32,
    assembler: &mut Assembler,
    piece: &[u8],
    disk: &mut D,
    sink: &mut K,
) -> Result<(usize, bool), Status>
    requires ready { IsOpen assembler.old.progress }
    requires serving { IsServing D.Storage service.old disk.old }
    ensures taken { IfOk result (λ r. r.0 ≤ length piece.now) }
    ensures some { IfOk result (λ r. 0 < length piece.now → 0 < r.0) }
    ensures ready { IfOk result (λ r. r.1 ≡ true → IsOpen assembler.new.progress) }
    ensures serving { OnOk result (IsServing D.Storage service.new disk.new) }
    ensures ok { IfOk result (λ r. (outs : List frames.OutFrame)
        × Feeds D.Storage session service.old disk.old assembler.old (take r.0 piece.now) outs r.1 service.new disk.new assembler.new
        × Given (K.written sink.old) (K.written sink.new) (out_frames outs)) }
    ensures partly { IsErrOf result Status.SinkFault → (count : ℕ) × (after : ServiceView) × (new : Received) × (outs : List frames.OutFrame) × (stays : Bool)
        × Feeds D.Storage session service.old disk.old assembler.old (take count piece.now) outs stays after disk.new new
        × GivenPart (K.written sink.old) (K.written sink.new) (out_frames outs) }
    ensures fails { IsErrOf result Status.JournalFault → (count : ℕ) × FeedFails D.Storage service.old disk.old assembler.old (take count piece.now) disk.new }
    ensures unwritten { IsErrOf result Status.JournalFault → sink.new ≡ sink.old }
    ensures statuses { IfErr result (λ status. (status ≡ Status.JournalFault) ⊎ (status ≡ Status.SinkFault)) }
    ensures size { D.bytes_of disk.new ≡ D.bytes_of disk.old }
    ensures disk_cause { Counts (D.disk_faults disk.old) (D.disk_faults disk.new) (IsErrOf result Status.JournalFault) }
    ensures cloud { D.cloud_faults disk.new ≡ D.cloud_faults disk.old }
    ensures objects { D.objects disk.new ≡ D.objects disk.old }
    ensures cause { Counts (K.faults sink.old) (K.faults sink.new) (IsErrOf result Status.SinkFault) }
{
    let (taken, fed) = assembler.feed(piece);
    match fed {
        Fed::More => Ok((taken, true)),
        Fed::Message => {
            let text = assembler.message();
            match answer_record(alloc, service, buf, session, text, disk, sink) {
                Ok(stays) => {
                    assembler.clear();
                    Ok((taken, stays))
                }
                Err(status) => Err(status),
            }
        }
        Fed::TooLong => match write_out_frame(sink, &OutFrame::Closed { session }) {
            Ok(()) => Ok((taken, false)),
            Err(Failed) => Err(Status::SinkFault),
        },
    }
}

/// Handles the payload of a frame on an open session: each record that ends in it is answered, and only then the next is looked at.
/// Behind the record at which the session is closed nothing is looked at. Answers what the session then is.
fn feed_payload<D: Disk, K: Sink>(
    alloc: Global,
    service: &mut Service,
    buf: &mut ReplyBuf,
    session: u32,
    mut assembler: Assembler,
    payload: &[u8],
    disk: &mut D,
    sink: &mut K,
) -> Result<Session, Status>
    requires ready { IsOpen assembler.progress }
    requires serving { IsServing D.Storage service.old disk.old }
    ensures ready { IfOk result IsReady }
    ensures serving { OnOk result (IsServing D.Storage service.new disk.new) }
    ensures ok { IfOk result (λ next. Handled D.Storage session service.old disk.old assembler payload.now service.new disk.new next
        (record { before = K.written sink.old; after = K.written sink.new })) }
    ensures partly { IsErrOf result Status.SinkFault → HandledPart D.Storage session service.old disk.old assembler payload.now disk.new
        (record { before = K.written sink.old; after = K.written sink.new }) }
    ensures fails { IsErrOf result Status.JournalFault → HandledDown D.Storage session service.old disk.old assembler payload.now disk.new
        (record { before = K.written sink.old; after = K.written sink.new }) }
    ensures statuses { IfErr result (λ status. (status ≡ Status.JournalFault) ⊎ (status ≡ Status.SinkFault)) }
    ensures size { D.bytes_of disk.new ≡ D.bytes_of disk.old }
    ensures disk_cause { Counts (D.disk_faults disk.old) (D.disk_faults disk.new) (IsErrOf result Status.JournalFault) }
    ensures cloud { D.cloud_faults disk.new ≡ D.cloud_faults disk.old }
    ensures objects { D.objects disk.new ≡ D.objects disk.old }
    ensures cause { Counts (K.faults sink.old) (K.faults sink.new) (IsErrOf result Status.SinkFault) }
{
    let mut taken = 0;
    while taken < payload.len() {
        let piece = &payload[taken..];
        match feed_once(
            alloc,
            service,
            buf,
            session,
            &mut assembler,
            piece,
            disk,
            sink,
        ) {
            Ok((count, stays)) => {
                if !stays {
                    return Ok(Session::Closed(assembler));
                }
                taken += count;
            }
            Err(status) => return Err(status),
        }
    }
    Ok(Session::Open(assembler))
}

/// The proxy between two frames of a recorded session.
///
/// It has the file tree, the buffers of its sessions and one for a reply, each of 131,072 bytes. A session's buffer is reserved when it
/// first begins, and is used again when it begins anew.
#[derive(Drop)]
pub struct World {
    settings: Settings,
    service: Service,
    sessions: Sessions,
    buf: ReplyBuf,
    ended: bool,
}

impl Model for World {
    ghost use Rattle.sky_world.specs.World.{WorldView};

    ghost Value = { WorldView };

    ghost view = { λ w. record { settings = w.settings; service = w.service; sessions = w.sessions; ended = w.ended } };
}

/// A world over files that were opened, in this epoch.
fn over(
    alloc: Global,
    settings: Settings,
    epoch: u64,
    files: DurableTree,
) -> Result<World, NoMemory>
    ensures { IfOk result (λ world. world ≡ record {
      settings = settings;
      service = record { epoch = epoch; tree = files.tree; journal = files.journal; moment = epoch_start };
      sessions = replicate session_count Session.Absent;
      ended = false;
    }) }
{
    Ok(World {
        settings,
        service: Service::new(epoch, files),
        sessions: Sessions::new(alloc)?,
        buf: ReplyBuf::new(alloc)?,
        ended: false,
    })
}

/// Writes the frame of an opening.
fn tell_opened<K: Sink>(sink: &mut K, opened: Opened) -> Result<(), Status>
    ensures ok { OnOk result (Given (K.written sink.old) (K.written sink.new) (out_frame (frames.Opened opened.epoch opened.k opened.journal))) }
    ensures partly { IsErrOf result Status.SinkFault
        → GivenPart (K.written sink.old) (K.written sink.new) (out_frame (frames.Opened opened.epoch opened.k opened.journal)) }
    ensures statuses { IfErr result (λ status. status ≡ Status.SinkFault) }
    ensures cause { Counts (K.faults sink.old) (K.faults sink.new) (IsErrOf result Status.SinkFault) }
{
    let frame = OutFrame::Opened {
        epoch: opened.epoch,
        changes: opened.k,
        journal: opened.journal,
    };
    match write_out_frame(sink, &frame) {
        Ok(()) => Ok(()),
        Err(Failed) => Err(Status::SinkFault),
    }
}

impl World {
    /// Opens a site, whatever it has: claims the next epoch in the cloud, reads the journal and does its changes again. No session has
    /// begun. Writes the frame that says which epoch it is and how many changes were found. Nothing that was written to the disk may wait for a
    /// sync then.
    ///
    /// `JournalFault` and `CloudFault` where a call of the disk or of the cloud failed; `Damaged` where the cloud has a checkpoint, as they are not
    /// read yet; `Worn` where no epoch is left; `Foreign` where the disk is not a journal of the volume, with the place; `Memory` where
    /// there is no memory for the journal, the tree, the buffer of a reply and the list of sessions. Nothing is written to
    /// the sink then. `SinkFault` where a write failed; the sink was given a prefix of the frame then.
    pub fn start<S: Site, K: Sink>(
        alloc: Global,
        site: &mut S,
        sink: &mut K,
        settings: Settings,
    ) -> Result<World, Status>
        requires settled { NothingPending S.Storage site.old }

        // The world stands for the history that the site stood for, and says so.
        ensures world { IfOk result (λ world. (found : Found) × IsFoundOn S.Storage settings.volume settings.journal_area site.old found
            × Stands S.Storage world site.new (started (tells S.Storage site.old) found)
            × Given (K.written sink.old) (K.written sink.new) (out_frame (opening found))) }
        ensures settings { IfOk result (λ world. world.settings ≡ settings) }
        ensures going { IfOk result (λ world. world.ended ≡ false) }
        ensures serving { IfOk result (λ world. IsServing S.Storage world.service site.new) }
        ensures unwritten { IfErr result (λ status. IsOfOpening status → sink.new ≡ sink.old) }
        ensures partly { IsErrOf result Status.SinkFault → (found : Found) × IsFoundOn S.Storage settings.volume settings.journal_area site.old found
            × GivenPart (K.written sink.old) (K.written sink.new) (out_frame (opening found)) }

        // After a crash at any moment recovery finds the same as before.
        ensures any_moment { LeavesFound S.Storage settings.volume settings.journal_area site.old site.new }
        // The epoch is claimed in the cloud, and nothing else is done there.
        ensures claims { OnOk result (Claims 1 (S.objects site.old) (S.objects site.new)) }
        ensures claims_failed { IfErr result (λ status. ClaimsFailed status 1 (S.objects site.old) (S.objects site.new)) }

        // Each refusal has its cause on the site, and a site that is refused for what it has is left as it was.
        ensures refused { IfErr result (λ status. WhereBothTold S.Storage site.old (IsRefusedAs settings.volume settings.journal_area status)) }
        ensures untouched { IfErr result (LeavesRefusedAs S.Storage site.old site.new) }
        ensures statuses { IfErr result (λ status. IsOfOpening status ⊎ (status ≡ Status.SinkFault)) }
        ensures size { S.bytes_of site.new ≡ S.bytes_of site.old }
        ensures disk_cause { Counts (S.disk_faults site.old) (S.disk_faults site.new) (IsErrOf result Status.JournalFault) }
        // The cloud's count of faults never falls, and rose where the cloud is blamed; today it stays elsewhere.
        ensures cloud_grows { S.cloud_faults site.old ≤ S.cloud_faults site.new }
        ensures cloud_cause { IsErrOf result Status.CloudFault → Rose (S.cloud_faults site.old) (S.cloud_faults site.new) }
        ensures cloud_quiet { (IsErrOf result Status.CloudFault → ⊥) → S.cloud_faults site.new ≡ S.cloud_faults site.old }
        ensures cause { Counts (K.faults sink.old) (K.faults sink.new) (IsErrOf result Status.SinkFault) }
    {
        let (files, opened) = open_site(alloc, site, &settings)?;
        let Ok(world) = over(alloc, settings, opened.epoch, files) else {
            return Err(Status::Memory);
        };
        tell_opened(sink, opened)?;
        Ok(world)
    }

    /// Begins a session anew: its stream is empty. Where there is no memory for its buffer, it is its first time, and
    /// nothing has changed.
    fn begin(&mut self, alloc: Global, session: u32) -> Result<(), NoMemory>
        requires { session < session_count }
        ensures ok { OnOk result (self.new ≡ record self.old {
          sessions = slice_set self.old.sessions session (Session.Open nothing);
        }) }
        ensures err { OnErr result (self.new ≡ self.old) }
        ensures absent { OnErr result (slice_index_or self.old.sessions session Session.Absent ≡ Session.Absent) }
    {
        let assembler = self.sessions.take(session).begin(alloc)?;
        self.sessions.put(session, Session::Open(assembler));
        Ok(())
    }

    /// Ends a session. One that has not begun stays so.
    fn close(&mut self, session: u32)
        requires { session < session_count }
        ensures { self.new ≡ record self.old {
          sessions = slice_set self.old.sessions session (closed (slice_index_or self.old.sessions session Session.Absent));
        } }
    {
        let next = self.sessions.take(session).closed();
        self.sessions.put(session, next);
    }

    /// Does a frame 2: handles the payload of a session that is open, and passes over that of another.
    fn feed<D: Disk, K: Sink>(
        &mut self,
        alloc: Global,
        session: u32,
        payload: &[u8],
        disk: &mut D,
        sink: &mut K,
    ) -> Result<(), Status>
        requires session { session < session_count }
        requires serving { IsServing D.Storage self.old.service disk.old }
        ensures ok { OnOk result (Stepped D.Storage self.old disk.old (frames.Bytes session payload.now) self.new disk.new
            (record { before = K.written sink.old; after = K.written sink.new })) }
        ensures serving { OnOk result (IsServing D.Storage self.new.service disk.new) }
        ensures partly { IsErrOf result Status.SinkFault → SteppedPart D.Storage self.old disk.old (frames.Bytes session payload.now) disk.new
            (record { before = K.written sink.old; after = K.written sink.new }) }
        ensures fails { IsErrOf result Status.JournalFault → SteppedDown D.Storage self.old disk.old (frames.Bytes session payload.now) disk.new
            (record { before = K.written sink.old; after = K.written sink.new }) }
        ensures statuses { IfErr result (λ status. (status ≡ Status.JournalFault) ⊎ (status ≡ Status.SinkFault)) }
        ensures size { D.bytes_of disk.new ≡ D.bytes_of disk.old }
        ensures disk_cause { Counts (D.disk_faults disk.old) (D.disk_faults disk.new) (IsErrOf result Status.JournalFault) }
        ensures cloud { D.cloud_faults disk.new ≡ D.cloud_faults disk.old }
        ensures objects { D.objects disk.new ≡ D.objects disk.old }
        ensures cause { Counts (K.faults sink.old) (K.faults sink.new) (IsErrOf result Status.SinkFault) }
    {
        match self.sessions.take(session) {
            Session::Open(assembler) => {
                self.feed_open(alloc, session, assembler, payload, disk, sink)
            }
            other => {
                self.sessions.put(session, other);
                Ok(())
            }
        }
    }

    /// Handles the payload of an open session, and puts what the session then is in its place.
    fn feed_open<D: Disk, K: Sink>(
        &mut self,
        alloc: Global,
        session: u32,
        assembler: Assembler,
        payload: &[u8],
        disk: &mut D,
        sink: &mut K,
    ) -> Result<(), Status>
        requires session { session < session_count }
        requires ready { IsOpen assembler.progress }
        requires serving { IsServing D.Storage self.old.service disk.old }
        ensures ok { OnOk result ((next : Session) × Handled D.Storage session self.old.service disk.old assembler payload.now self.new.service disk.new next
            (record { before = K.written sink.old; after = K.written sink.new })
            × (self.new.sessions ≡ slice_set self.old.sessions session next)) }
        ensures over { self.new.ended ≡ self.old.ended }
        ensures settings { self.new.settings ≡ self.old.settings }
        ensures serving { OnOk result (IsServing D.Storage self.new.service disk.new) }
        ensures partly { IsErrOf result Status.SinkFault → HandledPart D.Storage session self.old.service disk.old assembler payload.now disk.new
            (record { before = K.written sink.old; after = K.written sink.new }) }
        ensures fails { IsErrOf result Status.JournalFault → HandledDown D.Storage session self.old.service disk.old assembler payload.now disk.new
            (record { before = K.written sink.old; after = K.written sink.new }) }
        ensures statuses { IfErr result (λ status. (status ≡ Status.JournalFault) ⊎ (status ≡ Status.SinkFault)) }
        ensures size { D.bytes_of disk.new ≡ D.bytes_of disk.old }
        ensures disk_cause { Counts (D.disk_faults disk.old) (D.disk_faults disk.new) (IsErrOf result Status.JournalFault) }
        ensures cloud { D.cloud_faults disk.new ≡ D.cloud_faults disk.old }
        ensures objects { D.objects disk.new ≡ D.objects disk.old }
        ensures cause { Counts (K.faults sink.old) (K.faults sink.new) (IsErrOf result Status.SinkFault) }
    {
        let (service, buf) = (&mut self.service, &mut self.buf);
        match feed_payload(alloc, service, buf, session, assembler, payload, disk, sink) {
            Ok(next) => {
                self.sessions.put(session, next);
                Ok(())
            }
            Err(status) => Err(status),
        }
    }

    /// Sets the moment of the calls that follow.
    fn set_moment(&mut self, at: Moment)
        ensures { self.new ≡ record self.old { service = record self.old.service { moment = at } } }
    {
        self.service.set_moment(at);
    }

    /// What the proxy has, as numbers: how long the history is, how many changes are stable, and the epoch. There is no checkpoint and no object
    /// with items.
    fn stats(&self) -> Stats
        ensures { result ≡ stats_shown self.now }
    {
        Stats {
            history: self.service.last(),
            mark: self.service.mark(),
            epoch: self.service.epoch(),
            covers: 0,
            merged: 0,
            residents: 0,
            proxy_bytes: 0,
            cleaner_bytes: 0,
        }
    }

    /// Does a frame 16: writes what the proxy has.
    fn tell<K: Sink>(&self, sink: &mut K) -> Result<(), Status>
        ensures ok { OnOk result (Given (K.written sink.old) (K.written sink.new) (out_frame (frames.Counted (stats_shown self.now)))) }
        ensures partly { IsErrOf result Status.SinkFault → GivenPart (K.written sink.old) (K.written sink.new) (out_frame (frames.Counted (stats_shown self.now))) }
        ensures statuses { IfErr result (λ status. status ≡ Status.SinkFault) }
        ensures cause { Counts (K.faults sink.old) (K.faults sink.new) (IsErrOf result Status.SinkFault) }
    {
        match write_out_frame(sink, &OutFrame::Counted(self.stats())) {
            Ok(()) => Ok(()),
            Err(Failed) => Err(Status::SinkFault),
        }
    }

    /// Opens the site again: the files are those that are found there, in the next epoch, and no session has begun. The moment stays.
    fn reopen<S: Site>(&mut self, alloc: Global, site: &mut S) -> Result<Opened, Status>
        requires settled { NothingPending S.Storage site.old }
        ensures found { IfOk result (λ opened. (found : Found)
            × IsFoundOn S.Storage self.old.settings.volume self.old.settings.journal_area site.old found × IsOpenOn S.Storage site.new found
            × (self.new ≡ reopened_world self.old found) × (opening found ≡ frames.Opened opened.epoch opened.k opened.journal)) }
        ensures err { OnErr result (self.new ≡ self.old) }
        ensures any_moment { LeavesFound S.Storage self.old.settings.volume self.old.settings.journal_area site.old site.new }
        ensures claims { OnOk result (Claims 1 (S.objects site.old) (S.objects site.new)) }
        ensures unclaimed { OnErr result (MayClaim 1 (S.objects site.old) (S.objects site.new)) }
        ensures tells { OnOk result (BothTold (λ old new. Unit {0}) (S.image site.old) (S.image site.new)) }
        ensures refused { IfErr result (λ status. WhereBothTold S.Storage site.old
            (IsRefusedAs self.old.settings.volume self.old.settings.journal_area status)) }
        ensures untouched { IfErr result (LeavesRefusedAs S.Storage site.old site.new) }
        ensures untouched_cloud { IfErr result (LeavesCloudAs S.Storage site.old site.new) }
        ensures statuses { IfErr result IsOfOpening }
        ensures size { S.bytes_of site.new ≡ S.bytes_of site.old }
        ensures disk_cause { Counts (S.disk_faults site.old) (S.disk_faults site.new) (IsErrOf result Status.JournalFault) }
        ensures cloud_cause { Counts (S.cloud_faults site.old) (S.cloud_faults site.new) (IsErrOf result Status.CloudFault) }
    {
        let (files, opened) = open_site(alloc, site, &self.settings)?;
        self.service.reopen(opened.epoch, files);
        self.sessions.forget();
        Ok(opened)
    }

    /// Does a frame 20: opens the site again, and says what was found.
    fn restart<S: Site, K: Sink>(
        &mut self,
        alloc: Global,
        site: &mut S,
        sink: &mut K,
    ) -> Result<(), Status>
        requires serving { IsServing S.Storage self.old.service site.old }
        ensures ok { OnOk result (Stepped S.Storage self.old site.old frames.Restart self.new site.new
            (record { before = K.written sink.old; after = K.written sink.new })) }
        ensures serving { OnOk result (IsServing S.Storage self.new.service site.new) }
        ensures failed { IfErr result (λ status. StepFailed S.Storage status self.old site.old frames.Restart site.new
            (record { before = K.written sink.old; after = K.written sink.new })) }
        ensures claims { OnOk result (Claims 1 (S.objects site.old) (S.objects site.new)) }
        ensures claims_failed { IfErr result (λ status. ClaimsFailed status 1 (S.objects site.old) (S.objects site.new)) }
        ensures refused { IfErr result (λ status. (state : State) → Stands S.Storage self.old site.old state → MayRefuse status state) }
        ensures untouched_cloud { IfErr result (LeavesCloudAs S.Storage site.old site.new) }
        ensures untouched { IfErr result (LeavesRefusedAs S.Storage site.old site.new) }
        ensures statuses { IfErr result (λ status. IsOfOpening status ⊎ (status ≡ Status.SinkFault)) }
        ensures size { S.bytes_of site.new ≡ S.bytes_of site.old }
        ensures disk_cause { Counts (S.disk_faults site.old) (S.disk_faults site.new) (IsErrOf result Status.JournalFault) }
        ensures cloud_cause { Counts (S.cloud_faults site.old) (S.cloud_faults site.new) (IsErrOf result Status.CloudFault) }
        ensures cause { Counts (K.faults sink.old) (K.faults sink.new) (IsErrOf result Status.SinkFault) }
    {
        let opened = self.reopen(alloc, site)?;
        tell_opened(sink, opened)
    }

    /// Does a frame 21: gives up what the journal has, opens the site again, and says what was found.
    fn restart_without_journal<S: Site, K: Sink>(
        &mut self,
        alloc: Global,
        site: &mut S,
        sink: &mut K,
    ) -> Result<(), Status>
        requires serving { IsServing S.Storage self.old.service site.old }
        ensures ok { OnOk result (Stepped S.Storage self.old site.old frames.RestartWithoutJournal self.new site.new
            (record { before = K.written sink.old; after = K.written sink.new })) }
        ensures serving { OnOk result (IsServing S.Storage self.new.service site.new) }
        ensures failed { IfErr result (λ status. StepFailed S.Storage status self.old site.old frames.RestartWithoutJournal site.new
            (record { before = K.written sink.old; after = K.written sink.new })) }
        ensures claims { OnOk result (Claims 1 (S.objects site.old) (S.objects site.new)) }
        ensures claims_failed { IfErr result (λ status. ClaimsFailed status 1 (S.objects site.old) (S.objects site.new)) }
        ensures refused { IfErr result (λ status. (state : State) → Stands S.Storage self.old site.old state → MayRefuse status state) }
        ensures untouched_cloud { IfErr result (LeavesCloudAs S.Storage site.old site.new) }
        ensures statuses { IfErr result (λ status. IsOfOpening status ⊎ (status ≡ Status.SinkFault)) }
        ensures size { S.bytes_of site.new ≡ S.bytes_of site.old }
        ensures disk_cause { Counts (S.disk_faults site.old) (S.disk_faults site.new) (IsErrOf result Status.JournalFault) }
        ensures cloud_cause { Counts (S.cloud_faults site.old) (S.cloud_faults site.new) (IsErrOf result Status.CloudFault) }
        ensures cause { Counts (K.faults sink.old) (K.faults sink.new) (IsErrOf result Status.SinkFault) }
    {
        if self.service.wipe(site).is_err() {
            return Err(Status::JournalFault);
        }
        let opened = self.reopen(alloc, site)?;
        tell_opened(sink, opened)
    }

    /// Does one frame, and writes its answers.
    fn do_frame<S: Site, K: Sink>(
        &mut self,
        alloc: Global,
        frame: &Frame<'_>,
        site: &mut S,
        sink: &mut K,
    ) -> Result<(), Status>
        requires formed { IsInFrame (frame_of frame.now) }
        requires step { IsStep (frame_of frame.now) }
        requires serving { IsServing S.Storage self.old.service site.old }
        ensures ok { OnOk result (Stepped S.Storage self.old site.old (frame_of frame.now) self.new site.new
            (record { before = K.written sink.old; after = K.written sink.new })) }
        ensures serving { OnOk result (IsServing S.Storage self.new.service site.new) }
        ensures failed { IfErr result (λ status. StepFailed S.Storage status self.old site.old (frame_of frame.now) site.new
            (record { before = K.written sink.old; after = K.written sink.new })) }
        ensures unchanged { IsErrOf result Status.Memory → (IsRestart (frame_of frame.now) → ⊥) → self.new ≡ self.old }
        ensures claims { OnOk result (Claims (restarts_by (frame_of frame.now)) (S.objects site.old) (S.objects site.new)) }
        ensures claims_failed { IfErr result (λ status. ClaimsFailed status (restarts_by (frame_of frame.now)) (S.objects site.old) (S.objects site.new)) }
        ensures refused { IfErr result (λ status. (state : State) → Stands S.Storage self.old site.old state → MayRefuse status state) }
        ensures untouched_cloud { IfErr result (LeavesCloudAs S.Storage site.old site.new) }
        ensures untouched { frame_of frame.now ≡ frames.Restart → IfErr result (LeavesRefusedAs S.Storage site.old site.new) }
        ensures objects { (IsRestart (frame_of frame.now) → ⊥) → S.objects site.new ≡ S.objects site.old }
        ensures statuses { IfErr result (λ status. IsOfOpening status ⊎ (status ≡ Status.SinkFault)) }
        ensures size { S.bytes_of site.new ≡ S.bytes_of site.old }
        ensures disk_cause { Counts (S.disk_faults site.old) (S.disk_faults site.new) (IsErrOf result Status.JournalFault) }
        ensures cloud_cause { Counts (S.cloud_faults site.old) (S.cloud_faults site.new) (IsErrOf result Status.CloudFault) }
        ensures cause { Counts (K.faults sink.old) (K.faults sink.new) (IsErrOf result Status.SinkFault) }
    {
        match frame {
            Frame::Begin { session } => match self.begin(alloc, *session) {
                Ok(()) => Ok(()),
                Err(NoMemory) => Err(Status::Memory),
            },
            Frame::Bytes { session, payload } => self.feed(alloc, *session, payload, site, sink),
            Frame::Close { session } => {
                self.close(*session);
                Ok(())
            }
            Frame::SetMoment(at) => {
                self.set_moment(*at);
                Ok(())
            }
            Frame::Stat => self.tell(sink),
            Frame::Restart => self.restart(alloc, site, sink),
            Frame::RestartWithoutJournal => self.restart_without_journal(alloc, site, sink),
            Frame::End => unreachable!(),
        }
    }

    /// Does one frame, and writes the frames that answer it. Each record of a session that ends in the frame is answered,
    /// and only then the next is looked at; a change that is stable is on the disk before its reply is written. A restart opens the site
    /// again, with no session and without what was not on the disk. It ends the world where it answers an error. The site is the one over which
    /// the world was opened, with which nothing else was done since.
    ///
    /// `Memory` where a session begins for the first time and there is no memory for its buffer; nothing is written then,
    /// and nothing else has changed. `SinkFault` where a write failed; the sink was given a prefix of the answers then. `JournalFault` where a
    /// call of the disk failed in a record; the sink was given the answers to the records before it. A restart answers besides what an
    /// opening does, and nothing was written then.
    pub fn step<S: Site, K: Sink>(
        &mut self,
        alloc: Global,
        frame: &Frame<'_>,
        site: &mut S,
        sink: &mut K,
    ) -> Result<(), Status>
        requires formed { IsInFrame (frame_of frame.now) }
        requires step { IsStep (frame_of frame.now) }
        requires going { self.old.ended ≡ false }
        requires serving { IsServing S.Storage self.old.service site.old }

        // The frame has a step, in each state that the world stands for. The world then stands for the state after it. After a crash at any
        // moment of the step recovery finds a prefix of the history that holds the mark from before, and from its end on one that holds the
        // mark from after.
        ensures ok { OnOk result (Stepped S.Storage self.old site.old (frame_of frame.now) self.new site.new
            (record { before = K.written sink.old; after = K.written sink.new })) }
        ensures serving { OnOk result (IsServing S.Storage self.new.service site.new) }

        // What was done and written where it failed, by the status, and what a crash then leaves.
        ensures failed { IfErr result (λ status. StepFailed S.Storage status self.old site.old (frame_of frame.now) site.new
            (record { before = K.written sink.old; after = K.written sink.new })) }
        ensures unchanged { IsErrOf result Status.Memory → (IsRestart (frame_of frame.now) → ⊥) → self.new ≡ record self.old { ended = true } }

        // A restart refuses no site that tells what it has, unless no epoch is left. What it refuses for what it has is left as it was.
        ensures refused { IfErr result (λ status. (state : State) → Stands S.Storage self.old site.old state → MayRefuse status state) }
        ensures untouched_cloud { IfErr result (LeavesCloudAs S.Storage site.old site.new) }
        ensures untouched { frame_of frame.now ≡ frames.Restart → IfErr result (LeavesRefusedAs S.Storage site.old site.new) }
        // No frame but a restart touches the cloud, and that by its epoch alone.
        ensures claims { OnOk result (Claims (restarts_by (frame_of frame.now)) (S.objects site.old) (S.objects site.new)) }
        ensures claims_failed { IfErr result (λ status. ClaimsFailed status (restarts_by (frame_of frame.now)) (S.objects site.old) (S.objects site.new)) }
        ensures objects { (IsRestart (frame_of frame.now) → ⊥) → S.objects site.new ≡ S.objects site.old }
        ensures statuses { IfErr result (λ status. IsOfOpening status ⊎ (status ≡ Status.SinkFault)) }
        ensures ended { self.new.ended ≡ is_err result }
        ensures size { S.bytes_of site.new ≡ S.bytes_of site.old }
        ensures disk_cause { Counts (S.disk_faults site.old) (S.disk_faults site.new) (IsErrOf result Status.JournalFault) }
        // The cloud's count of faults never falls, and rose where the cloud is blamed; today it stays elsewhere.
        ensures cloud_grows { S.cloud_faults site.old ≤ S.cloud_faults site.new }
        ensures cloud_cause { IsErrOf result Status.CloudFault → Rose (S.cloud_faults site.old) (S.cloud_faults site.new) }
        ensures cloud_quiet { (IsErrOf result Status.CloudFault → ⊥) → S.cloud_faults site.new ≡ S.cloud_faults site.old }
        ensures cause { Counts (K.faults sink.old) (K.faults sink.new) (IsErrOf result Status.SinkFault) }
    {
        let outcome = self.do_frame(alloc, frame, site, sink);
        self.ended = outcome.is_err();
        outcome
    }

    /// Whether a step answered an error. No further step may be taken then.
    pub fn ended(&self) -> bool
        ensures { result ≡ self.now.ended }
    {
        self.ended
    }
}
