//! The settings that a table says.

ghost use Rattle.std.specs.Prelude.{◌≡◌, Some, IfSome};
ghost use Rattle.sky_settings.specs.Settings.{default_fields, IsInRange};
ghost use Rattle.sky_settings_file.specs.Table.{natural_in, number_in, with_setting, with_settings};
ghost use Rattle.toml.specs.View.{view, table_view};

use sky_settings::{Fields, Settings};
use toml::{Table, Value};

// An integer as a number in a range.
fn natural_of(integer: i64, least: u64, most: u64) -> Option<u64>
    ensures { result ≡ natural_in least most integer }
{
    match u64::try_from(integer) {
        Ok(number) if least <= number && number <= most => Some(number),
        _ => None,
    }
}

// A value as a number in a range.
fn number_of(value: &Value, least: u64, most: u64) -> Option<u64>
    ensures { result ≡ number_in least most (view value.now) }
{
    match value.as_integer() {
        Some(integer) => natural_of(integer, least, most),
        None => None,
    }
}

// A value as a number in a range of small numbers.
fn small_number_of(value: &Value, least: u32, most: u32) -> Option<u32>
    ensures { result ≡ number_in least most (view value.now) }
{
    match number_of(value, u64::from(least), u64::from(most)) {
        Some(number) => Some(number as u32),
        None => None,
    }
}

// The settings with the one that a key and its value say.
#[tactic(auto, unfolding(crate::specs::Table::with_setting))]
fn set(fields: Fields, key: &str, value: &Value) -> Option<Fields>
    ensures { result ≡ with_setting key.now (view value.now) fields }
{
    if key == "volume" {
        number_of(value, 1, 1 << 62).map(|volume| Fields { volume, ..fields })
    } else if key == "journal_area" {
        number_of(value, 1 << 18, 1 << 28).map(|journal_area| Fields {
            journal_area,
            ..fields
        })
    } else if key == "retained" {
        small_number_of(value, 1, 16).map(|retained| Fields { retained, ..fields })
    } else if key == "threshold" {
        small_number_of(value, 1, 100).map(|threshold| Fields {
            threshold,
            ..fields
        })
    } else if key == "cache_items" {
        small_number_of(value, 16, 1 << 20).map(|cache_items| Fields {
            cache_items,
            ..fields
        })
    } else {
        None
    }
}

/// The settings that a table says.
pub fn fields_of(table: &Table) -> Option<Fields>
    ensures { result ≡ with_settings (table_view table.now) default_fields }
{
    let mut fields = Settings::new().fields();
    for (key, value) in table.iter() {
        fields = set(fields, key.as_str(), value)?;
    }
    Some(fields)
}
