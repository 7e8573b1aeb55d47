//! What the shipped recording can't show: other ends of a run, devices that fail, and the runs behind them.

mod crashes;
mod sparse;
mod text;

use super::*;
use sky_memory::{Fail as FailingCall, MemSink, MemSource, SureSite};
use sky_outside::{Disk, Failed, Source};
use sky_recover::a_site_is_found_in_one_way;
use sky_sound::{a_settled_journal_stays, a_sound_site_has_no_checkpoint};
use sparse::SparseSite;
use std::mem;
use std::process::Abort;
use std::test::Fail;
use text::{bytes_of, bytes_of_words, put_frame};

/// A source that gives at most so many bytes at a time, and one where that is 0.
#[derive(Drop)]
struct Trickle {
    source: MemSource,
    most: usize,
}

impl Source for Trickle {
    ghost left = { λ t. ⟦<MemSource as Source>⟧.left t.source };

    ghost faults = { λ t. ⟦<MemSource as Source>⟧.faults t.source };

    fn read(&mut self, buf: &mut [u8]) -> Result<usize, Failed> {
        let room = buf.len().min(self.most.max(1));
        self.source.read(&mut buf[..room])
    }
}

/// What fails in a run: the calls of the source, the sink and the site of these numbers. And how many bytes a read gives at most.
#[derive(Drop)]
struct Devices {
    reads: Vec<u64>,
    writes: Vec<u64>,
    calls: Vec<FailingCall>,
    most: usize,
}

impl Devices {
    /// Devices of which none fails.
    fn new(alloc: Global) -> Devices {
        Devices {
            reads: Vec::new(alloc),
            writes: Vec::new(alloc),
            calls: Vec::new(alloc),
            most: usize::MAX,
        }
    }

    /// Adds what a word and a number say.
    fn add(&mut self, word: &str, number: u64) -> Result<(), Fail> {
        match word {
            "read" => self.reads.push(number)?,
            "write" => self.writes.push(number)?,
            "most" => self.most = number as usize,
            "call" => self.add_call(number, false)?,
            "happened" => self.add_call(number, true)?,
            _ => return Err("no device".into()),
        }
        Ok(())
    }

    /// Adds a call of the site that fails, after it happened or not.
    fn add_call(&mut self, call: u64, happened: bool) -> Result<(), Fail> {
        self.calls.push(FailingCall { call, happened })?;
        Ok(())
    }
}

/// The devices that a text says: words, and numbers behind each.
fn devices_of(alloc: Global, text: &str) -> Result<Devices, Fail> {
    let mut devices = Devices::new(alloc);
    let mut kind = "";
    for word in text.split_whitespace() {
        match word.parse::<u64>() {
            Ok(number) => devices.add(kind, number)?,
            Err(_) => kind = word,
        }
    }
    Ok(devices)
}

/// The bytes of the journal's disk where the settings say nothing: two areas, each of 2^26 bytes.
const DISK_BYTES: u64 = 2 << 26;

/// A blank site of the size that the program asks for.
fn new_site(alloc: Global, calls: Vec<FailingCall>) -> Result<SparseSite, Fail> {
    Ok(SparseSite::new(alloc, DISK_BYTES, calls)?)
}

/// The words of a text, one space between any two of them.
fn words_of_text(alloc: Global, text: &str) -> Result<Vec<String>, Fail> {
    let mut words = Vec::new(alloc);
    if text.is_empty() {
        return Ok(words);
    }
    for word in text.split(' ') {
        words.push(String::from_str(alloc, word)?)?;
    }
    Ok(words)
}

/// Runs a command.
fn run_command(
    alloc: Global,
    words: &[String],
    settings: &[u8],
    source: &mut Trickle,
    sink: &mut MemSink,
    site: &mut SparseSite,
) -> Status {
    run(alloc, words, settings, source, sink, site)
}

/// The words of the command that is run.
const COMMAND: &str = "replay --journal j --cloud c";

/// How a run ended, by the status's number and place, and what it wrote.
#[derive(Drop)]
struct Ran {
    number: u32,
    place: u64,
    written: Vec<u8>,
}

/// What a run with this status wrote to a sink.
fn told_by(alloc: Global, status: Status, sink: &MemSink) -> Result<Ran, Fail> {
    Ok(Ran {
        number: status.number(),
        place: status.place(),
        written: Vec::from_slice(alloc, sink.bytes())?,
    })
}

/// Runs a command over a source, into a sink of which the calls of these numbers fail.
fn run_into(
    alloc: Global,
    command: (&str, &str),
    source: &mut Trickle,
    writes: Vec<u64>,
    site: &mut SparseSite,
) -> Result<Ran, Fail> {
    let words = words_of_text(alloc, command.0)?;
    let mut sink = MemSink::new(alloc, 200_000, writes).map_err(|_| "no memory")?;
    let settings = command.1.as_bytes();
    let status = run_command(alloc, &words, settings, source, &mut sink, site);
    told_by(alloc, status, &sink)
}

/// Runs a command over these bytes, devices and site.
fn run_text(
    alloc: Global,
    command: (&str, &str),
    bytes: &[u8],
    devices: Devices,
    site: &mut SparseSite,
) -> Result<Ran, Fail> {
    let Devices {
        reads,
        writes,
        calls: _,
        most,
    } = devices;
    let bytes = Vec::from_slice(alloc, bytes)?;
    let source = MemSource::new(bytes, reads);
    run_into(alloc, command, &mut Trickle { source, most }, writes, site)
}

/// Replays a recording over a site, where neither the source nor the sink fails.
fn replay(alloc: Global, bytes: &[u8], site: &mut SparseSite) -> Result<Ran, Fail> {
    run_text(alloc, (COMMAND, ""), bytes, Devices::new(alloc), site)
}

/// Replays the recording of a text.
fn replay_text(alloc: Global, text: &str, site: &mut SparseSite) -> Result<Ran, Fail> {
    replay(alloc, &bytes_of(alloc, text)?, site)
}

/// Replays a recording over a blank site.
fn replay_blank(alloc: Global, bytes: &[u8]) -> Result<Ran, Fail> {
    let mut site = new_site(alloc, Vec::new(alloc))?;
    replay(alloc, bytes, &mut site)
}

/// The two numbers of a text, the second behind a space. One that is no number is none.
fn numbers_of(text: &str) -> Result<(u32, Option<u64>), Fail> {
    let (number, place) = text.trim().split_once(' ').ok_or("no end")?;
    Ok((number.parse::<u32>()?, place.parse::<u64>().ok()))
}

/// The last frame, with this status at this place.
fn put_end(bytes: &mut Vec<u8>, number: u32, place: u64) -> Result<(), Fail> {
    bytes.extend_from_slice(b"\x63\0\0\0\0\0\0\0\x0c")?;
    bytes.extend_from_slice(&number.to_be_bytes())?;
    bytes.extend_from_slice(&place.to_be_bytes())?;
    Ok(())
}

/// Whether some bytes are a proper prefix of others.
fn is_cut(written: &[u8], wanted: &[u8]) -> bool {
    wanted.starts_with(written) && written.len() < wanted.len()
}

/// Whether a run ended with this status at this place, and wrote these bytes and the last frame. Without a place it wrote a
/// proper prefix of these bytes.
fn has_ended(ran: &Ran, end: (u32, Option<u64>), wanted: &mut Vec<u8>) -> Result<bool, Fail> {
    let (number, place) = end;
    let Some(place) = place else {
        return Ok(ran.number == number && is_cut(&ran.written, wanted));
    };
    put_end(wanted, number, place)?;
    Ok(ran.number == number && ran.place == place && ran.written.as_slice() == wanted.as_slice())
}

/// That a run ended as a text says: the status and the place, or `cut`; and what it wrote before the last frame.
fn check_end(
    rt: &impl Abort,
    alloc: Global,
    ran: &Ran,
    end: &str,
    answers: &str,
) -> Result<(), Fail> {
    let mut wanted = bytes_of(alloc, answers)?;
    let holds = has_ended(ran, numbers_of(end)?, &mut wanted)?;
    assert!(rt; holds, "{end} of {answers}");
    Ok(())
}

/// Puts what a stop behind the last call of a site leaves in its place.
fn stop_behind(site: &mut SparseSite) -> Result<(), Fail> {
    *site = site.stopped(site.calls(), 0)?;
    Ok(())
}

/// Puts a blank site in the place of one, of which the calls that are listed fail.
fn make_blank(alloc: Global, site: &mut SparseSite, calls: Vec<FailingCall>) -> Result<(), Fail> {
    *site = new_site(alloc, calls)?;
    Ok(())
}

/// Makes a site what a line says.
fn prepare(
    alloc: Global,
    site: &mut SparseSite,
    fails: &str,
    devices: &mut Devices,
) -> Result<(), Fail> {
    match fails {
        "same" => Ok(()),
        "next" => stop_behind(site),
        _ => {
            let calls = mem::replace(&mut devices.calls, Vec::new(alloc));
            make_blank(alloc, site, calls)
        }
    }
}

/// The four parts of a line.
fn parts_of(line: &str) -> Result<(&str, &str, &str, &str), Fail> {
    let (end, rest) = line.split_once('|').ok_or("no end")?;
    let (fails, rest) = rest.split_once('|').ok_or("no devices")?;
    let (recording, answers) = rest.split_once('|').ok_or("no answers")?;
    Ok((end, fails.trim(), recording, answers))
}

/// Runs a recording over what a line says.
fn run_line(
    alloc: Global,
    site: &mut SparseSite,
    fails: &str,
    recording: &str,
) -> Result<Ran, Fail> {
    let mut devices = devices_of(alloc, fails)?;
    prepare(alloc, site, fails, &mut devices)?;
    let bytes = bytes_of(alloc, recording)?;
    run_text(alloc, (COMMAND, ""), &bytes, devices, site)
}

/// Checks a line of `RUNS`.
fn check_line(
    rt: &impl Abort,
    alloc: Global,
    site: &mut SparseSite,
    line: &str,
) -> Result<(), Fail> {
    let (end, fails, recording, answers) = parts_of(line)?;
    let ran = run_line(alloc, site, fails, recording)?;
    check_end(rt, alloc, &ran, end, answers)
}

/// Checks lines, each over the site that the one before leaves.
fn check_lines(
    rt: &impl Abort,
    alloc: Global,
    site: &mut SparseSite,
    lines: &str,
) -> Result<(), Fail> {
    for line in lines.lines() {
        check_line(rt, alloc, site, line)?;
    }
    Ok(())
}

/// Runs, one a line: the status and place that one ends with; which calls fail; the recording; and what is written before the last
/// frame. It is over a blank site; or with `same` over the site of the line before, and with `next` over what a stop behind its last
/// call leaves.
///
/// The opening lists the cloud, reads a byte of each area, puts the object of its epoch, and then closes both areas and opens the first:
/// 10 calls. A change that is stable is two writes with a sync each.
const RUNS: &str = "\
3 0 | new | raw | raw magic; 19 opening
3 0 | new | raw 534b5952454331 | raw magic; 19 opening
2 0 | new | raw 544b59524543310a | raw magic; 19 opening
3 0 | new | raw magic 6300000000000000 | raw magic; 19 opening
0 0 | new | raw magic; 99 | raw magic; 19 opening
0 0 | new | raw magic; 99; raw 4d | raw magic; 19 opening
2 8 | new | raw magic; 77 | raw magic; 19 opening
2 8 | new | raw magic 010000010000000000 | raw magic; 19 opening
2 8 | new | raw magic 020000000000100001 | raw magic; 19 opening
2 8 | new | raw magic; 4 000000003b9aca00 | raw magic; 19 opening
3 0 | new | raw magic; 1; raw 0200000000000000024d | raw magic; 19 opening
2 17 | new | raw magic; 1; 77 | raw magic; 19 opening
0 0 | most 1 | raw magic; 1; 2 null; 99 | raw magic; 19 opening; 2 reply
4 0 | read 0 | raw magic; 1; 2 null; 99 | raw magic; 19 opening
4 0 | read 1 | raw magic; 1; 2 null; 99 | raw magic; 19 opening
4 0 | read 2 | raw magic; 1; 2 null; 99 | raw magic; 19 opening
4 0 | read 3 | raw magic; 1; 2 null; 99 | raw magic; 19 opening
4 0 | read 4 | raw magic; 1; 2 null; 99 | raw magic; 19 opening; 2 reply
5 cut | write 0 | raw magic; 1; 2 null; 99 | raw magic; 19 opening; 2 reply; 99 12*00
5 cut | write 1 | raw magic; 1; 2 null; 99 | raw magic; 19 opening; 2 reply; 99 12*00
5 cut | write 2 | raw magic; 1; 2 null; 99 | raw magic; 19 opening; 2 reply; 99 12*00
5 cut | write 3 | raw magic; 1; 2 null; 99 | raw magic; 19 opening; 2 reply; 99 12*00
5 cut | write 4 | raw magic; 1; 2 null; 99 | raw magic; 19 opening; 2 reply; 99 12*00
5 cut | write 5 | raw magic; 1; 2 null; 99 | raw magic; 19 opening; 2 reply; 99 12*00
4 cut | read 4 write 4 | raw magic; 1; 2 null; 99 | raw magic; 19 opening; 2 reply; 99 12*00
7 0 | call 0 | raw magic; 99 | raw magic
0 0 | next | raw magic; 99 | raw magic; 19 opening
0 0 | next | raw magic; 99 | raw magic; 19 second
6 0 | call 1 | raw magic; 99 | raw magic
0 0 | next | raw magic; 99 | raw magic; 19 opening
7 0 | happened 3 | raw magic; 99 | raw magic
0 0 | next | raw magic; 99 | raw magic; 19 second
7 0 | call 3 | raw magic; 99 | raw magic
0 0 | next | raw magic; 99 | raw magic; 19 opening
6 0 | call 7 | raw magic; 99 | raw magic
0 0 | next | raw magic; 99 | raw magic; 19 second
0 0 | new | raw magic; 99 | raw magic; 19 opening
0 0 | same | raw magic; 99 | raw magic; 19 second
6 0 | call 14 | raw magic; 1; 2 create-a create-b; 99 | raw magic; 19 opening; 2 80000100 success \
    00000000 00000001 node-2 00000001 file 16*00 is-2 24*00 00000001 24*00 00000001 root-is size-19 is-1 24*00
0 0 | new | raw magic; 1; 2 create-a; 2 write-0; 2 commit-2; 99 | raw magic; 19 opening; 2 80000100 success \
    00000000 00000001 node-2 00000001 file 16*00 is-2 24*00 00000001 24*00 00000001 root-is size-19 is-1 24*00; 2 800000a0 success \
    00000000 00000001 24*00 00000001 file size-5 is-2 24*00 00000005 00000000 0000000000000001; 2 80000098 success \
    00000000 00000001 0000000000000005 16*00 00000001 file size-5 is-2 24*00 0000000000000001
0 0 | next | raw magic; 1; 16; 2 read-2; 2 write-0; 99 | raw magic; 19 second-with-2; \
    16 0000000000000002 0000000000000002 0000000000000002 40*00; 2 80000088 success \
    00000000 00000001 file size-5 is-2 24*00 00000005 00000001 00000005 68656c6c6f000000; 2 800000a0 success \
    00000000 00000001 0000000000000005 16*00 00000001 file size-5 is-2 24*00 00000005 00000000 0000000000000002";

#[test]
fn runs_end(rt: HostRuntime) -> Result<(), Fail> {
    let mut site = new_site(rt.alloc(), Vec::new(rt.alloc()))?;
    check_lines(&rt, rt.alloc(), &mut site, RUNS)
}

/// Commands that are refused, one a line: the status, the words, and the text of the settings.
const REFUSED: &str = "\
11|replay --journal j --cloud c|volume = 0
11|replay --cloud c --settings s --journal j|volumes = 1
11|replay --journal j --cloud c --settings s|journal_area = 262143
1|replay --journal j --cloud|volume = 0
1||
1|replay --cloud c --journal|
1|replay --cloud c|
1|replay --journal  --cloud c|
1|replay --journal j --cloud -c|
1|Replay --journal j --cloud c|
1|replay --journal j --cloud c x|
1|replay --journal j --cloud c --journal k|
1|replay --journal j --cloud c --listen a|
1|clean --cloud c --steps 1|
1|generate --journal j --cloud c --seed 1 --files 1|
1|serve --journal j --cloud c --listen a|
1|--help|
1|--version|";

/// Runs a command with a recording of no frames.
fn run_empty(alloc: Global, command: (&str, &str)) -> Result<Ran, Fail> {
    let bytes = bytes_of(alloc, "raw magic; 99")?;
    let mut site = new_site(alloc, Vec::new(alloc))?;
    run_text(alloc, command, &bytes, Devices::new(alloc), &mut site)
}

/// That a command is refused so, and nothing is written.
fn check_refused(rt: &impl Abort, alloc: Global, line: &str) -> Result<(), Fail> {
    let (number, rest) = line.split_once('|').ok_or("no number")?;
    let command = rest.split_once('|').ok_or("no words")?;
    let ran = run_empty(alloc, command)?;
    let holds = ran.number == number.parse::<u32>()? && ran.written.is_empty();
    assert!(rt; holds, "of {line}");
    Ok(())
}

#[test]
fn other_words_and_settings_are_refused(rt: HostRuntime) -> Result<(), Fail> {
    for line in REFUSED.lines() {
        check_refused(&rt, rt.alloc(), line)?;
    }
    Ok(())
}

/// Disks that are foreign, one a line: at which place; their size; and the words that they begin with. They are of another volume; of
/// an entry whose change is not answered OK, as it is a WRITE to a file that is not there; and too small.
const FOREIGN: &str = "\
9 8|134217728|01000000 8*00 00000002
9 80|134217728|01000000 8*00 00000001 48*00 01000000 00000001 00000000 0000004c 00000048 0000000c 00000000 0000fffe 0000fffe 00000000 00000007 00000010 00000000 00000001 00000000 00000002 00000000 00000000 00000005 00000002 00000005 68656c6c 6f000000
9 100|100|";

/// Lets the disk of a site begin with these bytes.
fn put_disk(site: &mut SparseSite, disk: &[u8]) -> Result<(), Fail> {
    if disk.len() as u64 > site.size() || site.write_at(0, disk).is_err() {
        return Err("not written".into());
    }
    Ok(())
}

/// Replays a recording of no frames over a site whose disk begins with these bytes.
fn replay_over(alloc: Global, site: &mut SparseSite, disk: &[u8]) -> Result<Ran, Fail> {
    put_disk(site, disk)?;
    replay_text(alloc, "raw magic; 99", site)
}

/// The same, over a site whose disk has so many bytes.
fn replay_sized(alloc: Global, size: u64, disk: &[u8]) -> Result<Ran, Fail> {
    let mut site = SparseSite::new(alloc, size, Vec::new(alloc))?;
    replay_over(alloc, &mut site, disk)
}

/// That such a disk is refused.
fn check_foreign(rt: &impl Abort, alloc: Global, line: &str) -> Result<(), Fail> {
    let (end, rest) = line.split_once('|').ok_or("no place")?;
    let (size, words) = rest.split_once('|').ok_or("no size")?;
    let disk = bytes_of_words(alloc, words)?;
    let ran = replay_sized(alloc, size.parse::<u64>()?, &disk)?;
    check_end(rt, alloc, &ran, end, "raw magic")
}

#[test]
fn a_foreign_disk_is_refused(rt: HostRuntime) -> Result<(), Fail> {
    for line in FOREIGN.lines() {
        check_foreign(&rt, rt.alloc(), line)?;
    }
    Ok(())
}

/// How a disk with an empty journal of the volume 2 is opened, one a line: the status and its place, the words, and the settings.
const OPENED: &str = "\
0 0|replay --cloud c --settings s --journal j|volume = 2
0 0|replay --settings s --cloud c --journal j|volume = 2\\njournal_area = 67108864
9 8|replay --cloud c --journal j|
9 8|replay --journal j --cloud c --settings s|volume = 3";

/// That such a disk is opened or refused so. In the settings `\n` stands for a line end.
fn check_opened(rt: &impl Abort, alloc: Global, line: &str) -> Result<(), Fail> {
    let (end, rest) = line.split_once('|').ok_or("no status")?;
    let (words, settings) = rest.split_once('|').ok_or("no words")?;
    let settings = settings.replace(alloc, "\\n", "\n")?;
    let disk = bytes_of_words(alloc, "01000000 8*00 00000002")?;
    let bytes = bytes_of(alloc, "raw magic; 99")?;
    let mut site = new_site(alloc, Vec::new(alloc))?;
    put_disk(&mut site, &disk)?;
    let command = (words, settings.as_str());
    let ran = run_text(alloc, command, &bytes, Devices::new(alloc), &mut site)?;
    let (number, place) = end.split_once(' ').ok_or("no place")?;
    let holds = ran.number == number.parse::<u32>()? && ran.place == place.parse::<u64>()?;
    assert!(rt; holds, "of {line}: {} {}", ran.number, ran.place);
    Ok(())
}

#[test]
fn a_site_is_opened_by_the_settings(rt: HostRuntime) -> Result<(), Fail> {
    for line in OPENED.lines() {
        check_opened(&rt, rt.alloc(), line)?;
    }
    Ok(())
}

/// That a status is told so, in lines that begin like this.
fn check_said(rt: &impl Abort, alloc: Global, status: Status, line: &str) -> Result<(), Fail> {
    let said = Lines(Ending::Ran(status)).to_string(alloc)?;
    let holds = said.as_str().starts_with(line) && said.as_str().lines().count() == 3;
    assert!(rt; holds, "{line}");
    Ok(())
}

/// The usage.
const USAGE: &str = "\
Replays a recorded session: reads it from standard input, and writes the answers to standard output.

Usage: bluesky replay [OPTIONS] --journal <PATH> --cloud <PATH>

Options:
      --journal <PATH>   The journal's file. Where it is missing, it is made
      --cloud <PATH>     The cloud's folder. Where it is missing, it is made
      --settings <PATH>  A file of settings in TOML, as volume = 1
";

#[test]
fn the_usage_names_each_option(rt: HostRuntime) -> Result<(), Fail> {
    let text = usage(rt.alloc())?;
    assert!(rt; text.as_str() == USAGE, "{}", text.as_str());
    Ok(())
}

#[test]
fn a_status_is_told_by_its_number(rt: HostRuntime) -> Result<(), Fail> {
    check_said(&rt, rt.alloc(), Status::Words, "bluesky: status 1\nWords: ")?;
    check_said(
        &rt,
        rt.alloc(),
        Status::Malformed { at: 8 },
        "bluesky: status 2\nMalformed: at byte 8 of ",
    )?;
    check_said(
        &rt,
        rt.alloc(),
        Status::Settings,
        "bluesky: status 11\nSettings: ",
    )
}

/// The recording of 160 WRITEs of 65,536 bytes and a COMMIT.
fn large_recording(alloc: Global) -> Result<Vec<u8>, Fail> {
    let write = bytes_of(alloc, "2 write-large")?;
    let mut bytes = bytes_of(alloc, "raw magic; 1; 2 create-a")?;
    for _ in 0..160 {
        bytes.extend_from_slice(&write)?;
    }
    bytes.extend_from_slice(&bytes_of(alloc, "2 commit-2; 99")?)?;
    Ok(bytes)
}

/// 10 MiB of changes become stable together: each call is answered, and the run is done.
#[test]
fn many_bytes_become_stable_at_once(rt: HostRuntime) -> Result<(), Fail> {
    let ran = replay_blank(rt.alloc(), &large_recording(rt.alloc())?)?;
    let holds = ran.number == 0 && crashes::answered(&ran.written) == 163;
    assert!(rt; holds);
    Ok(())
}

/// Laws which nothing else calls.
#[test]
fn laws_hold(rt: HostRuntime) -> Result<(), Fail> {
    each_recording_has_one_reading();
    a_blank_site_can_be_opened();
    a_settled_journal_stays();
    a_sound_site_has_no_checkpoint();
    let site = SureSite::new(rt.alloc(), 64)?;
    a_site_is_found_in_one_way(&site);
    Ok(())
}
