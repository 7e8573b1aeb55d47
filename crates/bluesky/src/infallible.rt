//! What is promised where no device can fail.

ghost use Rattle.std.specs.Prelude.{◌≡◌, ◌↔◌, ◌⊎◌, ◌+◌, ◌≤◌, map, string_bytes, Some, None, ℕ, List};
ghost use Rattle.sky_base.specs.declared.status.Status.{Status};
ghost use Rattle.sky_world.specs.Meaning.{Supply};
ghost use Rattle.sky_recover.specs.Opening.{WhereBothTold};
ghost use Rattle.sky_sound.specs.Recovery.{IsSound};
ghost use Rattle.sky_words.specs.Words.{Says};
ghost use Rattle.sky_words.specs.declared.command.Command.TheVariants.{Replay};
ghost use Rattle.bluesky.specs.Asked.{SaysNone};
ghost use Rattle.sky_base.specs.Limits.{max_number};
ghost use Rattle.sky_settings.specs.declared.settings.Fields.{Fields};
ghost use Rattle.sky_settings_file.specs.Table.{SaysSettings};
ghost use Rattle.sky_sound.specs.Cloud.{epoch_after};
ghost use Rattle.bluesky.specs.Run.{Course, Ran, IsReading, IsReplayed, restarts_in};

use crate::run::run;
use sky_base::Status;
use sky_memory::{SureSink, SureSite, SureSource};
use sky_outside::Storage;
use std::alloc::Global;

/// Runs a command over devices that never fail, as `run` does.
///
/// Where the site is sound, the answer is the status that the recording asks for, or there's no memory; or no epoch is left, which needs 2^62 of them.
pub fn run_infallible(
    alloc: Global,
    words: &[String],
    settings: &[u8],
    source: &mut SureSource,
    sink: &mut SureSink,
    site: &mut SureSite,
) -> Status
    ensures words { (result ≡ Status.Words) ↔ (Says Replay (map string_bytes words.now) → ⊥) }
    ensures settings { result ≡ Status.Settings → Says Replay (map string_bytes words.now) × SaysNone settings.now }
    // A text that says no settings is refused, unless there is no memory for reading it.
    ensures unsaid { SaysNone settings.now → (result ≡ Status.Words) ⊎ (result ≡ Status.Settings) ⊎ (result ≡ Status.Memory) }
    // The source tells its bytes, and the sink tells nothing.
    ensures ran { (fields : Fields) → SaysSettings settings.now fields → Ran ⟦<SureSite as Storage>⟧ fields site.old site.new result (record { had = Some source.old; left = Some source.new })
        (record { before = None; after = None; faults_before = 0; faults_after = 0 }) }
    // The status is the one that the recording asks for, unless memory runs out, or so many epochs were claimed that none is left.
    ensures complete { (fields : Fields) → SaysSettings settings.now fields → IsReplayed result → WhereBothTold ⟦<SureSite as Storage>⟧ site.old (λ image objects.
        IsSound fields.volume fields.journal_area image objects
        → (memory : Supply) (course : Course) (status : Status) (rest : List ℕ) → IsReading memory source.old course status rest
        → (result ≡ status) ⊎ (result ≡ Status.Memory)
        ⊎ (result ≡ Status.Worn) × (max_number ≤ epoch_after objects + restarts_in course.frames)) }
{
    run(alloc, words, settings, source, sink, site)
}
