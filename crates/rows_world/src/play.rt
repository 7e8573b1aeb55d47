//! A world over a site in memory, and the frames that it is given.

ghost use Rattle.std.specs.Prelude.{◌≡◌, OnOk};
ghost use Rattle.std.specs.Bool.{OnFalse};
ghost use Rattle.sky_outside.specs.Moments.{NothingPending};
ghost use Rattle.sky_script.specs.Values.{frame_of};
ghost use Rattle.sky_world.specs.Carried.{IsServing};
ghost use Rattle.sky_world.specs.Meaning.{IsStep};

use crate::ending::{Cause, Ending};
use crate::setup::Setup;
use sky_memory::{MemSink, MemSite, MemSource};
use sky_outside::{Site, Storage};
use sky_script::{Frame, FrameBuf, read_frame};
use sky_settings::Settings;
use sky_world::World;
use std::alloc::Global;

/// What a row came to.
#[derive(Drop)]
pub struct Outcome {
    /// The bytes that were written.
    pub written: Vec<u8>,
    /// How it ended.
    pub ending: Ending,
    /// The site as it was left, where it is one that can be looked at.
    pub left: Option<MemSite>,
}

/// Plays a recording as a row says. Nothing, where there is no memory or the settings are out of their ranges.
pub fn played(alloc: Global, setup: &Setup, recording: Vec<u8>) -> Option<Outcome> {
    let mut source = setup.source(alloc, recording).ok()?;
    let mut sink = setup.sink(alloc).ok()?;
    let (ending, left) = if setup.is_sure() {
        (play_surely(alloc, setup, &mut source, &mut sink)?, None)
    } else {
        play_and_look(alloc, setup, &mut source, &mut sink)?
    };
    let written = sink.bytes().to_vec(alloc).ok()?;
    Some(Outcome {
        written,
        ending,
        left,
    })
}

/// Plays over a site that never fails.
fn play_surely(
    alloc: Global,
    setup: &Setup,
    source: &mut MemSource,
    sink: &mut MemSink,
) -> Option<Ending> {
    let settings = setup.settings()?;
    let mut site = setup.sure_site(alloc).ok()?;
    play(alloc, settings, &mut site, source, sink)
}

/// Plays over a site whose calls may fail, and opens what a stop leaves of it, where the row says so. Gives the site as it is then.
fn play_and_look(
    alloc: Global,
    setup: &Setup,
    source: &mut MemSource,
    sink: &mut MemSink,
) -> Option<(Ending, Option<MemSite>)> {
    let settings = setup.settings()?;
    let mut site = setup.site(alloc)?;
    let mut ending = play(alloc, settings, &mut site, source, sink)?;
    if let Some((call, part)) = setup.stop {
        site = site.stopped(call, part).ok()?;
        ending = play(alloc, settings, &mut site, source, sink)?;
    }
    Some((ending, Some(site)))
}

/// Opens a site and does the frames of a recording.
fn play<S: Site>(
    alloc: Global,
    settings: Settings,
    site: &mut S,
    source: &mut MemSource,
    sink: &mut MemSink,
) -> Option<Ending>
    requires { NothingPending S.Storage site.old }
{
    let mut buf = FrameBuf::new(alloc).ok()?;
    match World::start(alloc, site, sink, settings) {
        Ok(mut world) => {
            let cause = go_on(alloc, &mut world, site, source, &mut buf, sink);
            let ended = world.ended();
            Some(Ending { cause, ended })
        }
        Err(status) => Some(Ending {
            cause: Cause::Refused(status),
            ended: true,
        }),
    }
}

/// Does frame after frame.
fn go_on<S: Site>(
    alloc: Global,
    world: &mut World,
    site: &mut S,
    source: &mut MemSource,
    buf: &mut FrameBuf,
    sink: &mut MemSink,
) -> Cause
    requires { IsServing S.Storage world.old.service site.old }
{
    for _ in 0..u64::MAX {
        match next(alloc, world, site, source, buf, sink) {
            Ok(()) => {}
            Err(cause) => return cause,
        }
    }
    Cause::Over
}

/// Reads a frame and does it.
fn next<S: Site>(
    alloc: Global,
    world: &mut World,
    site: &mut S,
    source: &mut MemSource,
    buf: &mut FrameBuf,
    sink: &mut MemSink,
) -> Result<(), Cause>
    requires { IsServing S.Storage world.old.service site.old }
    ensures { OnOk result (IsServing S.Storage world.new.service site.new) }
{
    if world.ended() {
        return Err(Cause::Over);
    }
    match read_frame(source, buf) {
        Ok(frame) => {
            if is_end(&frame) {
                return Err(Cause::Done);
            }
            match world.step(alloc, &frame, site, sink) {
                Ok(()) => Ok(()),
                Err(status) => Err(Cause::Step(status)),
            }
        }
        Err(fault) => Err(Cause::Read(fault)),
    }
}

/// Whether a frame ends the recording.
fn is_end(frame: &Frame<'_>) -> bool
    ensures { OnFalse result (IsStep (frame_of frame.now)) }
{
    matches!(frame, Frame::End)
}
