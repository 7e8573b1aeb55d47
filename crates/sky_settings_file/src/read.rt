//! The text of the settings.

ghost use Rattle.std.specs.Prelude.{◌≡◌, ◌<◌, [], length, Some, IfOk, IsErrOf};
ghost use Rattle.sky_settings.specs.declared.settings.Fields.{Fields};
ghost use Rattle.sky_settings.specs.Settings.{default_fields};
ghost use Rattle.sky_settings_file.specs.Table.{SaysSettings, with_settings, settings_in};

use crate::table::fields_of;
use sky_settings::{Fields, Settings};
use std::alloc::Global;
use std::str;
use thiserror::Error;

/// Why a text says no settings.
#[derive(Clone, Copy, Debug, Error)]
pub enum SettingsFault {
    /// The text is no table of settings in their ranges.
    #[error("the text is no table of settings in their ranges")]
    Refused,
    /// There's no memory for reading the text.
    #[error("out of memory")]
    Memory,
}

// The settings that a text says.
fn read_table(alloc: Global, text: &str) -> Result<Fields, SettingsFault>
    ensures ok { IfOk result (λ fields. settings_in text.now ≡ Some fields) }
    ensures refused { IsErrOf result SettingsFault.Refused → settings_in text.now ≡ None }
{
    match toml::table_from_str(alloc, text) {
        Ok(table) => match fields_of(&table) {
            Some(fields) => Ok(fields),
            None => Err(SettingsFault::Refused),
        },
        Err(error) => {
            if error.is_memory() {
                Err(SettingsFault::Memory)
            } else {
                Err(SettingsFault::Refused)
            }
        }
    }
}

/// Reads the text of the settings' file. Where it's empty, as where no file is named, the settings are those where nothing is said.
///
/// `Refused` where it's no table of settings in their ranges, and `Memory` where there's none for reading it.
pub fn read_settings(alloc: Global, text: &[u8]) -> Result<Settings, SettingsFault>
    ensures settings { IfOk result (λ settings. SaysSettings text.now settings) }
    ensures refused { IsErrOf result SettingsFault.Refused → (fields : Fields) → SaysSettings text.now fields → ⊥ }
    ensures empty { text.now ≡ [] → result ≡ Ok default_fields }
{
    if text.is_empty() {
        return Ok(Settings::new());
    }
    let Ok(text) = str::from_utf8(text) else {
        return Err(SettingsFault::Refused);
    };
    let fields = match read_table(alloc, text) {
        Ok(fields) => fields,
        Err(fault) => return Err(fault),
    };
    match Settings::of(fields) {
        Some(settings) => Ok(settings),
        None => Err(SettingsFault::Refused),
    }
}
