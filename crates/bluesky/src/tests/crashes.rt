//! Crashes of a run: it is stopped within each call of its site, in three ways, or the call fails. Then the next run finds a prefix of
//! the history that has each change that was stable, and the tree of that prefix; and so does the run after one that is stopped, too.

use super::sparse::SparseSite;
use super::text::{bytes_of, put_item};
use super::*;

/// A recording; and what a crash leaves of its changes, by how many frames of openings and replies were written before: at least so many
/// changes, and a prefix of these.
type Script = (&'static str, &'static str);

static SCRIPTS: [Script; 3] = [
    // CREATE, and a WRITE to it that is stable.
    (
        "raw magic; 1; 2 create-a; 2 stable-0; 99",
        "0; 0 create-a; 1 create-a stable-0; 2 create-a stable-0",
    ),
    // WRITEs that are not stable before a COMMIT, a RENAME or a stable WRITE, or that a restart loses; a restart without the journal,
    // which gives up all changes.
    (
        "raw magic; 1; 2 create-a; 2 write-0; 2 write-5; 2 commit-2; 2 write-10; 2 rename-a; 2 write-0; \
         20; 1; 2 stable-10; 21; 1; 2 mkdir-c; 20; 1; 99",
        "0; 0 create-a; 1 create-a write-0; 1 create-a write-0 write-5; 1 create-a write-0 write-5; \
         3 create-a write-0 write-5 write-10; 3 create-a write-0 write-5 write-10 rename-a; \
         5 create-a write-0 write-5 write-10 rename-a write-0; 5 create-a write-0 write-5 write-10 rename-a write-0; \
         5 create-a write-0 write-5 write-10 rename-a stable-10; 0 create-a write-0 write-5 write-10 rename-a stable-10; \
         0 mkdir-c; 1 mkdir-c; 1 mkdir-c",
    ),
    // Four calls in one frame: a change whose reply was written stays, where a later record of the frame is cut off.
    (
        "raw magic; 1; 2 create-a stable-0 write-5 commit-2; 99",
        "0; 0 create-a; 1 create-a stable-0; 2 create-a stable-0 write-5; 2 create-a stable-0 write-5; \
         3 create-a stable-0 write-5",
    ),
];

/// The kind of the first frame, its payload, and what follows it.
fn split_frame(bytes: &[u8]) -> Option<(u8, &[u8], &[u8])> {
    let (head, rest) = bytes.split_first_chunk::<9>()?;
    let [kind, _, _, _, _, a, b, c, d] = *head;
    let length = u32::from_be_bytes([a, b, c, d]) as usize;
    let (payload, rest) = rest.split_at_checked(length)?;
    Some((kind, payload, rest))
}

/// How many frames of openings and replies stand in what a run wrote.
pub fn answered(written: &[u8]) -> usize {
    let mut count = 0usize;
    let mut rest = written.strip_prefix(b"SKYREC1\n").unwrap_or(&[]);
    for _ in 0..written.len() {
        let Some((kind, _, behind)) = split_frame(rest) else {
            break;
        };
        if matches!(kind, 2 | 19) {
            count = count.wrapping_add(1);
        }
        rest = behind;
    }
    count
}

/// What follows the magic and so many frames.
fn behind_frames(written: &[u8], count: usize) -> Result<&[u8], Fail> {
    let mut rest = written.strip_prefix(b"SKYREC1\n").ok_or("no magic")?;
    for _ in 0..count {
        rest = split_frame(rest).ok_or("no frame")?.2;
    }
    Ok(rest)
}

/// What a run that is done writes.
fn written_by(alloc: Global, bytes: &[u8], site: &mut SparseSite) -> Result<Vec<u8>, Fail> {
    let ran = replay(alloc, bytes, site)?;
    if ran.number == 0 {
        Ok(ran.written)
    } else {
        Err("not done".into())
    }
}

/// What a run over a blank site writes, which is done.
fn written_on_blank(alloc: Global, bytes: &[u8]) -> Result<Vec<u8>, Fail> {
    let mut site = new_site(alloc, Vec::new(alloc))?;
    written_by(alloc, bytes, &mut site)
}

/// Adds how a tree is read: READDIRPLUS of the root, which tells names and attributes, and READ of the first file.
fn put_looks(alloc: Global, bytes: &mut Vec<u8>) -> Result<(), Fail> {
    put_item(alloc, bytes, "2 list read-2")?;
    put_item(alloc, bytes, "99")
}

/// The recording of the first changes of some, and of how the tree is read behind them.
fn looks_behind(alloc: Global, changes: &str, count: usize) -> Result<Vec<u8>, Fail> {
    let mut bytes = bytes_of(alloc, "raw magic; 1")?;
    for change in changes.split_whitespace().take(count) {
        put_frame(&mut bytes, 2, &bytes_of_words(alloc, change)?)?;
    }
    put_looks(alloc, &mut bytes)?;
    Ok(bytes)
}

/// What is read of the tree that the first changes of some make in one run.
fn tree_of(alloc: Global, changes: &str, count: usize) -> Result<Vec<u8>, Fail> {
    let bytes = looks_behind(alloc, changes, count)?;
    let written = written_on_blank(alloc, &bytes)?;
    let tree = behind_frames(&written, count.saturating_add(1))?;
    Ok(Vec::from_slice(alloc, tree)?)
}

/// The number of 8 bytes that comes first, and what follows it.
fn split_number(bytes: &[u8]) -> Option<(u64, &[u8])> {
    let (number, rest) = bytes.split_first_chunk::<8>()?;
    Some((u64::from_be_bytes(*number), rest))
}

/// The two numbers that come first.
fn two_numbers(bytes: &[u8]) -> Result<(u64, u64), Fail> {
    let (first, rest) = split_number(bytes).ok_or("cut")?;
    let (second, _) = split_number(rest).ok_or("cut")?;
    Ok((first, second))
}

/// What a run found: how many changes, how many of them were stable, and what is read of the tree.
#[derive(Debug, Drop, PartialEq)]
struct FoundTree {
    changes: u64,
    stable: u64,
    tree: Vec<u8>,
}

/// What stands behind the first frame of what a run wrote: its numbers, and what is read of the tree.
fn found_in(alloc: Global, written: &[u8]) -> Result<FoundTree, Fail> {
    let (_, numbers, tree) = split_frame(behind_frames(written, 1)?).ok_or("no numbers")?;
    let (changes, stable) = two_numbers(numbers)?;
    Ok(FoundTree {
        changes,
        stable,
        tree: Vec::from_slice(alloc, tree)?,
    })
}

/// What the next run finds on a site.
fn found_on(alloc: Global, site: &mut SparseSite) -> Result<FoundTree, Fail> {
    let mut bytes = bytes_of(alloc, "raw magic; 16; 1")?;
    put_looks(alloc, &mut bytes)?;
    found_in(alloc, &written_by(alloc, &bytes, site)?)
}

/// What the next run finds where one is stopped within a call of a site.
fn found_behind(alloc: Global, site: &SparseSite, stop: (u64, u8)) -> Result<FoundTree, Fail> {
    let mut left = site.stopped(stop.0 % site.calls().max(1), stop.1)?;
    found_on(alloc, &mut left)
}

/// The least number of a row, and its changes.
fn row_parts(row: &str) -> Result<(u64, &str), Fail> {
    let (least, changes) = row.split_once(' ').unwrap_or((row, ""));
    Ok((least.parse::<u64>()?, changes))
}

/// Whether what was found is what a row says: at least the least number of changes, all of them stable, and the tree of so many of
/// the row's changes.
fn is_of_row(alloc: Global, found: &FoundTree, row: &str) -> Result<bool, Fail> {
    let (least, changes) = row_parts(row)?;
    let all = changes.split_whitespace().count() as u64;
    let count = found.changes;
    if count < least || count > all || count != found.stable {
        return Ok(false);
    }
    let tree = tree_of(alloc, changes, count as usize)?;
    Ok(found.tree.as_slice() == tree.as_slice())
}

/// Checks what the next run finds; and that the run after it finds the same, where the next one is stopped within one of its calls.
fn check_left(
    rt: &impl Abort,
    alloc: Global,
    left: &mut SparseSite,
    stop: (u64, u8),
    row: &str,
) -> Result<(), Fail> {
    let found = found_on(alloc, left)?;
    let holds = is_of_row(alloc, &found, row)?;
    assert!(rt; holds, "{row}");
    let later = found_behind(alloc, left, stop)?;
    let holds = later == found;
    assert!(rt; holds, "behind a stop, {row}");
    Ok(())
}

/// Checks what a stop within a call of a site leaves.
fn check_stopped(
    rt: &impl Abort,
    alloc: Global,
    site: &SparseSite,
    stop: (u64, u8),
    row: &str,
) -> Result<(), Fail> {
    let mut left = site.stopped(stop.0, stop.1)?;
    check_left(rt, alloc, &mut left, stop, row)
}

/// The row of what a crash leaves behind what a run wrote.
fn row_of<'a>(rows: &'a str, written: &[u8]) -> Result<&'a str, Fail> {
    let row = rows.split(';').nth(answered(written)).ok_or("no row")?;
    Ok(row.trim())
}

/// Runs a recording over a site of which one call fails, and checks what is left. The row of it.
fn check_failing_on<'a>(
    rt: &impl Abort,
    alloc: Global,
    site: &mut SparseSite,
    bytes: &[u8],
    rows: &'a str,
) -> Result<&'a str, Fail> {
    let ran = replay(alloc, bytes, site)?;
    let of_devices = matches!(ran.number, 6 | 7);
    assert!(rt; of_devices, "of {rows}");
    let row = row_of(rows, &ran.written)?;
    check_stopped(rt, alloc, site, (site.calls(), 2), row)?;
    Ok(row)
}

/// The same, where the call fails after it happened or not.
fn check_failing<'a>(
    rt: &impl Abort,
    alloc: Global,
    bytes: &[u8],
    fails: FailingCall,
    rows: &'a str,
) -> Result<&'a str, Fail> {
    let mut calls = Vec::new(alloc);
    calls.push(fails)?;
    let mut site = new_site(alloc, calls)?;
    check_failing_on(rt, alloc, &mut site, bytes, rows)
}

/// Checks what a stop within a call of a site leaves, in three ways.
fn check_stops(
    rt: &impl Abort,
    alloc: Global,
    site: &SparseSite,
    call: u64,
    row: &str,
) -> Result<(), Fail> {
    for part in 0..3 {
        check_stopped(rt, alloc, site, (call, part), row)?;
    }
    Ok(())
}

/// Checks what is left where a call of a site fails, before it happened and after, and what a stop within it leaves.
fn check_call(
    rt: &impl Abort,
    alloc: Global,
    script: (&[u8], &str),
    site: &SparseSite,
    call: u64,
) -> Result<(), Fail> {
    let (bytes, rows) = script;
    let happened = true;
    check_failing(rt, alloc, bytes, FailingCall { call, happened }, rows)?;
    let happened = false;
    let row = check_failing(rt, alloc, bytes, FailingCall { call, happened }, rows)?;
    check_stops(rt, alloc, site, call, row)
}

/// Checks a crash within each call of a run over a site, and one behind the last.
fn check_calls(
    rt: &impl Abort,
    alloc: Global,
    script: (&[u8], &str),
    site: &mut SparseSite,
) -> Result<(), Fail> {
    let written = written_by(alloc, script.0, site)?;
    for call in 0..site.calls() {
        check_call(rt, alloc, script, site, call)?;
    }
    let row = row_of(script.1, &written)?;
    check_stopped(rt, alloc, site, (site.calls(), 0), row)
}

/// Checks the crashes of a script.
fn check_script(rt: &impl Abort, alloc: Global, script: Script) -> Result<(), Fail> {
    let bytes = bytes_of(alloc, script.0)?;
    let mut site = new_site(alloc, Vec::new(alloc))?;
    check_calls(rt, alloc, (&bytes, script.1), &mut site)
}

#[test]
fn a_crash_leaves_each_stable_change(rt: HostRuntime) -> Result<(), Fail> {
    check_script(&rt, rt.alloc(), SCRIPTS[0])
}

#[test]
fn a_crash_leaves_a_prefix_of_the_history(rt: HostRuntime) -> Result<(), Fail> {
    check_script(&rt, rt.alloc(), SCRIPTS[1])
}

#[test]
fn a_crash_within_a_frame_leaves_what_was_answered(rt: HostRuntime) -> Result<(), Fail> {
    check_script(&rt, rt.alloc(), SCRIPTS[2])
}
