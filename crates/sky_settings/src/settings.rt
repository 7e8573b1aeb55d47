//! The settings.

ghost use Rattle.std.specs.Prelude.{◌≡◌, ◌↔◌, IsTrue, IsSome, IfSome};
ghost use Rattle.sky_base.specs.Limits.{max_volume, min_journal_area, max_journal_area};
ghost use Rattle.sky_settings.specs.Settings.{IsInRange, IsWithin};

use std::marker::Model;

/// A number for each setting, in whatever range.
#[derive(Clone, Copy)]
pub struct Fields {
    /// The number of the volume: 1 to 2^62.
    pub volume: u64,
    /// The bytes of one of the journal's two areas: 2^18 to 2^28.
    pub journal_area: u64,
    /// How many checkpoints are kept: 1 to 16.
    pub retained: u32,
    /// Below which share of live bytes an object is cleaned, in percent: 1 to 100.
    pub threshold: u32,
    /// How many items the cache keeps: 16 to 1,048,576.
    pub cache_items: u32,
}

/// The settings of a proxy, each of them in its range. Contracts see them as their numbers.
#[derive(Clone, Copy)]
pub struct Settings {
    fields: Fields,
}

impl Model for Settings {
    ghost use Rattle.sky_settings.specs.declared.settings.Fields.{Fields};
    ghost use Rattle.sky_settings.specs.Settings.{IsInRange};

    ghost Value = { Fields };

    ghost view = { λ s. s.fields };

    ghost invariant = { λ s. IsInRange s.fields };

    ghost inverse = { λ f. record { fields = f } };
}

// Whether a number is in a range, which has its ends too.
fn is_within(least: u64, most: u64, number: u64) -> bool
    ensures { IsTrue result ↔ IsWithin least most number }
{
    least <= number && number <= most
}

// Whether each setting is in its range.
fn are_in_range(fields: Fields) -> bool
    ensures { IsTrue result ↔ IsInRange fields }
{
    is_within(1, 1 << 62, fields.volume)
        && is_within(1 << 18, 1 << 28, fields.journal_area)
        && is_within(1, 16, u64::from(fields.retained))
        && is_within(1, 100, u64::from(fields.threshold))
        && is_within(16, 1 << 20, u64::from(fields.cache_items))
}

impl Settings {
    ghost use Rattle.sky_settings.specs.Settings.{default_fields, min_volume, min_retained, max_retained, min_threshold, max_threshold, min_cache_items, max_cache_items};

    /// The settings where nothing is said: the volume 1, journal areas of 2^26 bytes, 2 checkpoints, a threshold of 50
    /// percent, and a cache of 4,096 items.
    pub fn new() -> Settings
        ensures { result ≡ default_fields }
    {
        Settings {
            fields: Fields {
                volume: 1,
                journal_area: 1 << 26,
                retained: 2,
                threshold: 50,
                cache_items: 4096,
            },
        }
    }

    /// These settings. `None` where one of them is out of its range.
    pub fn of(fields: Fields) -> Option<Settings>
        ensures in_range { IsSome result ↔ IsInRange fields }
        ensures same { IfSome result (λ settings. settings ≡ fields) }
    {
        if are_in_range(fields) {
            Some(Settings { fields })
        } else {
            None
        }
    }

    /// The numbers, as `of` takes them.
    pub fn fields(self) -> Fields
        ensures same { result ≡ self }
        ensures in_range { IsInRange self }
    {
        self.fields
    }

    /// The number of the volume.
    pub fn volume(self) -> u64
        ensures same { result ≡ self.volume }
        ensures in_range { IsWithin min_volume max_volume result }
    {
        self.fields.volume
    }

    /// The bytes of one of the journal's two areas.
    pub fn journal_area(self) -> u64
        ensures same { result ≡ self.journal_area }
        ensures in_range { IsWithin min_journal_area max_journal_area result }
    {
        self.fields.journal_area
    }

    /// How many checkpoints are kept.
    pub fn retained(self) -> u32
        ensures same { result ≡ self.retained }
        ensures in_range { IsWithin min_retained max_retained result }
    {
        self.fields.retained
    }

    /// Below which share of live bytes an object is cleaned, in percent.
    pub fn threshold(self) -> u32
        ensures same { result ≡ self.threshold }
        ensures in_range { IsWithin min_threshold max_threshold result }
    {
        self.fields.threshold
    }

    /// How many items the cache keeps.
    pub fn cache_items(self) -> u32
        ensures same { result ≡ self.cache_items }
        ensures in_range { IsWithin min_cache_items max_cache_items result }
    {
        self.fields.cache_items
    }
}

impl Default for Settings {
    ghost use Rattle.sky_settings.specs.Settings.{default_fields};

    ghost is_default = { λ settings. settings ≡ default_fields };

    fn default() -> Settings {
        Settings::new()
    }
}
