//! A script of the journal's calls, stopped within each call of the disk.

ghost use Rattle.std.specs.Prelude.{◌≡◌, false, OnOk, IfOk, IfSome};
ghost use Rattle.sky_outside.specs.Moments.{NothingPending};
ghost use Rattle.sky_journal.specs.Journal.{IsFramed, StandsOn};

use super::{AREA, Digits};
use sky_base::NoMemory;
use sky_journal::{Journal, read_journal};
use sky_memory::MemSite;
use sky_outside::{Disk, Failed, Storage};
use std::alloc::Global;
use std::test::Fail;

/// A call of the journal.
#[derive(Clone, Copy)]
enum Act {
    Append(u8),
    Commit,
    Rotate,
    Release,
    Wipe,
}

/// What is done, how many calls of the disk it makes, and the digits of the entries that a stop leaves: within these calls one of the two,
/// and behind them the last.
#[derive(Clone, Copy)]
struct Step(&'static str, Act, u64, u64, u64);

static SCRIPT: [Step; 19] = [
    // The first area is opened, and filled.
    Step("open the first area", Act::Rotate, 4, 0, 0),
    Step("append 1", Act::Append(b'1'), 0, 0, 0),
    Step("append 2", Act::Append(b'2'), 0, 0, 0),
    Step("commit 1 and 2", Act::Commit, 4, 0, 12),
    Step("commit nothing", Act::Commit, 0, 12, 12),
    Step("append 3", Act::Append(b'3'), 0, 12, 12),
    Step("commit 3", Act::Commit, 4, 12, 123),
    // So is the second.
    Step("open the second area", Act::Rotate, 4, 123, 123),
    Step("append 4", Act::Append(b'4'), 0, 123, 123),
    Step("commit 4", Act::Commit, 4, 123, 1234),
    // The first is released while an entry is pending, and opened again.
    Step("append 5", Act::Append(b'5'), 0, 1234, 1234),
    Step("release the first area", Act::Release, 2, 1234, 4),
    Step("commit 5", Act::Commit, 4, 4, 45),
    Step("open the first area again", Act::Rotate, 4, 45, 45),
    Step("append 6", Act::Append(b'6'), 0, 45, 45),
    Step("commit 6", Act::Commit, 4, 45, 456),
    Step("release the second area", Act::Release, 2, 456, 6),
    Step("open the second area again", Act::Rotate, 4, 6, 6),
    Step("wipe both", Act::Wipe, 4, 6, 0),
];

/// An entry of one digit.
#[tactic(auto, unfolding(sky_journal::specs::Layout::number_4))]
fn entry_of(digit: u8) -> [u8; 5]
    ensures { IsFramed result }
{
    [0, 0, 0, 1, digit]
}

/// Does a call of the script. A rotation is behind a commit.
fn perform<D: Disk>(journal: &mut Journal, disk: &mut D, act: Act) -> Result<(), Failed>
    requires up { journal.old.down ≡ false }
    requires stands { StandsOn D.Storage journal.old disk.old }
    ensures up { OnOk result (journal.new.down ≡ false) }
    ensures stands { OnOk result (StandsOn D.Storage journal.new disk.new) }
{
    match act {
        Act::Append(digit) => {
            if journal.base().is_some() {
                let _ = journal.append(&entry_of(digit));
            }
            Ok(())
        }
        Act::Commit => journal.commit(disk),
        Act::Rotate => {
            journal.commit(disk)?;
            if journal.two_open() {
                return Ok(());
            }
            let base = journal.last();
            journal.rotate(disk, base)
        }
        Act::Release => journal.release(disk),
        Act::Wipe => journal.wipe(disk),
    }
}

/// The digits of the entries that a disk has, as a number: each is read into a buffer. Nothing where one can't be read, or the entry of a
/// number has not its digit. Not more than nine are read.
fn digits_of<D: Disk>(journal: &Journal, disk: &mut D, entry: &mut Vec<u8>) -> Option<u64>
    requires { D.bytes_of disk.old ≡ journal.now.disk }
{
    let mut digits = 0u64;
    let mut place = journal.first();
    for _ in 0..9 {
        match journal.next_entry(disk, &mut place, entry) {
            Ok(Some(number)) => {
                if entry.get(4).copied().unwrap_or(0) as u64 != number.wrapping_add(48) {
                    return None;
                }
                digits = digits.wrapping_mul(10).wrapping_add(number);
            }
            Ok(None) => return Some(digits),
            Err(_) => return None,
        }
    }
    Some(digits)
}

/// The digits of what a stop within a call leaves.
fn left_by(alloc: Global, site: &MemSite, call: u64, part: u8) -> Option<u64> {
    let mut left = site.stopped(call, part).ok()?;
    let journal = read_journal(alloc, &mut left, &mut Digits, 1, AREA, 9).ok()?;
    digits_of(&journal, &mut left, &mut Vec::new(alloc))
}

/// Whether a stop in each call since one of them, in three ways, leaves one of these, and a stop behind them the last.
fn stops_leave(alloc: Global, site: &MemSite, from: u64, before: u64, behind: u64) -> bool {
    let calls = site.calls();
    for call in from..calls {
        for part in 0..3 {
            let left = left_by(alloc, site, call, part);
            if left != Some(before) && left != Some(behind) {
                return false;
            }
        }
    }
    left_by(alloc, site, calls, 0) == Some(behind)
}

/// Does the script, and checks what stops leave. The name of a step that is not as it says.
fn run(alloc: Global, journal: &mut Journal, site: &mut MemSite) -> Result<(), &'static str>
    requires up { journal.old.down ≡ false }
    requires stands { StandsOn ⟦<MemSite as Storage>⟧ journal.old site.old }
{
    for Step(name, act, calls, before, behind) in &SCRIPT {
        let from = site.calls();
        let done = perform(journal, site, *act).is_ok();
        let made = site.calls().wrapping_sub(from);
        if !done || made != *calls || !stops_leave(alloc, site, from, *before, *behind) {
            return Err(*name);
        }
    }
    Ok(())
}

/// A site with a blank disk of this many bytes.
fn blank_site(alloc: Global, size: u64) -> Result<MemSite, NoMemory>
    ensures { IfOk result (λ site. NothingPending ⟦<MemSite as Storage>⟧ site) }
{
    MemSite::new(alloc, size, Vec::new(alloc), 200, 3000, Vec::new(alloc))
}

/// The journal of a disk on which nothing is pending.
fn first_journal<D: Disk>(alloc: Global, disk: &mut D) -> Option<Journal>
    requires { NothingPending D.Storage disk.old }
    ensures up { IfSome result (λ j. j.down ≡ false) }
    ensures stands { IfSome result (λ j. StandsOn D.Storage j disk.new) }
{
    read_journal(alloc, disk, &mut Digits, 1, AREA, 9).ok()
}

#[test]
fn a_stop_within_a_call_leaves_what_was_there_or_all_of_it(rt: HostRuntime) -> Result<(), Fail> {
    let alloc = rt.alloc();
    let mut site = blank_site(alloc, 2 * AREA)?;
    let mut journal = first_journal(alloc, &mut site).ok_or("a journal")?;
    run(alloc, &mut journal, &mut site)?;
    Ok(())
}
