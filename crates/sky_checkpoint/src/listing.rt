//! What the names of the objects that a cloud holds say of checkpoints and runs. They may come in any order.

ghost use Rattle.std.specs.Prelude.{◌≡◌, ◌⊎◌, ◌↔◌, ◌++◌, ◌∷◌, [], ◌<◌, ℕ, All, IfNone, IfSome, IsTrue, List};
ghost use Rattle.std.specs.Option.{SomeIff};
ghost use Rattle.sky_base.specs.Limits.{max_number};
ghost use Rattle.sky_base.specs.Order.{name_order};
ghost use Rattle.sky_base.specs.declared.object.SegName.{SegName};
ghost use Rattle.sky_outside.specs.declared.site.Held.{Held};
ghost use Rattle.sky_checkpoint.specs.Listing.{CompleteRuns, IsLast, IsLeast, IsNextRun, ProxyChecks, is_check_of as is_check, last_checkpoint, with_name};
ghost use Rattle.sky_checkpoint.specs.SoFar.{LeastSoFar, GreatestSoFar};

use sky_base::{Dir, SegName};
use sky_outside::Held;

/// The name of the last checkpoint of the proxy: of those that are listed the one that comes last in the order of names.
/// `None` exactly where none is listed.
pub fn last_check(names: &[Held]) -> Option<SegName>
    ensures value { result ≡ last_checkpoint names.now }
    ensures last { IfSome result (IsLast (ProxyChecks names.now)) }
    ensures none { IfNone result ((name : SegName) → ¬ (ProxyChecks names.now name)) }
{
    let mut last = None;
    for held in names {
        last = last_with(last, held);
    }
    last
}

/// The least run of the cleaner above a number that is complete: of which a checkpoint is listed. `None` exactly where
/// there is none.
pub fn complete_run(names: &[Held], above: u64) -> Option<u64>
    ensures least { IfSome result (IsLeast (CompleteRuns names.now above)) }
    ensures none { IfNone result ((run : ℕ) → ¬ (CompleteRuns names.now above run)) }
{
    let mut least = None;
    for held in names {
        least = least_with(least, held, above);
    }
    least
}

/// The number of the cleaner's next run: 1 more than the greatest of the runs of which an object is listed, complete or
/// not, and of the run that was merged last.
pub fn next_run(names: &[Held], merged: u64) -> u64
    requires runs { All (λ h. h.name.run < max_number) names.now }
    requires merged { merged < max_number }
    ensures next { IsNextRun names.now merged result }
{
    let mut greatest = merged;
    for held in names {
        greatest = greatest_with(greatest, held);
    }
    greatest + 1
}

/// The later one of these, where this name is that of a checkpoint of the proxy.
fn last_with(last: Option<SegName>, held: &Held) -> Option<SegName>
    ensures { result ≡ with_name last held.now.name }
{
    let name = held.name;
    if !is_check_of(name, Dir::Proxy) {
        return last;
    }
    match last {
        Some(other) => Some(other.max(name)),
        None => Some(name),
    }
}

/// The lesser one of these, where this name is that of a checkpoint of a run of the cleaner above the number.
fn least_with(least: Option<u64>, held: &Held, above: u64) -> Option<u64>
    ensures { (listed : List Held)
        → LeastSoFar listed above least → LeastSoFar (listed ++ held.now ∷ []) above result }
{
    let name = held.name;
    if !is_check_of(name, Dir::Cleaner) || name.run <= above {
        return least;
    }
    match least {
        Some(other) => Some(other.min(name.run)),
        None => Some(name.run),
    }
}

/// The greater one of these, where this name is that of an object of the cleaner.
fn greatest_with(greatest: u64, held: &Held) -> u64
    ensures greatest { (listed : List Held) (merged : ℕ)
        → GreatestSoFar listed merged greatest → GreatestSoFar (listed ++ held.now ∷ []) merged result }
    ensures among { (result ≡ greatest) ⊎ (result ≡ held.now.name.run) }
{
    match held.name.dir {
        Dir::Proxy => greatest,
        Dir::Cleaner => greatest.max(held.name.run),
    }
}

/// Whether a name is that of a checkpoint of a directory.
fn is_check_of(name: SegName, dir: Dir) -> bool
    ensures { result ≡ is_check dir name }
{
    name.last && name.dir == dir
}
