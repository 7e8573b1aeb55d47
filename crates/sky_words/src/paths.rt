//! What the words name.

ghost use Rattle.std.specs.Prelude.{◌≡◌, ◌↔◌, map, string_bytes, codes, IfOk, IfErr};
ghost use Rattle.sky_words.specs.Words.{AreRefused, Names, value_of, behind_first};

use crate::command::{WordsFault, read_words};
use crate::options::find_value;
use sky_base::{Paths, Text};
use std::alloc::Global;

// The text of a word.
fn copy(alloc: Global, word: &str) -> Result<Text, WordsFault>
    ensures text { IfOk result (λ text. text ≡ word.now) }
    ensures memory { IfErr result (λ fault. fault ≡ WordsFault.Memory) }
{
    match String::from_str(alloc, word) {
        Ok(text) => Ok(Text::new(text)),
        Err(_) => Err(WordsFault::Memory),
    }
}

// The value of the option of this name, to keep.
fn copy_value(alloc: Global, options: &[String], name: &str) -> Result<Option<Text>, WordsFault>
    ensures value { IfOk result (λ value. value ≡ value_of name.now (map string_bytes options.now)) }
    ensures memory { IfErr result (λ fault. fault ≡ WordsFault.Memory) }
{
    match find_value(options, name) {
        Some(value) => Ok(Some(copy(alloc, value)?)),
        None => Ok(None),
    }
}

// What these options name.
fn named_by(alloc: Global, options: &[String]) -> Result<Paths, WordsFault>
    ensures journal { IfOk result (λ paths. paths.journal ≡ value_of (codes "--journal") (map string_bytes options.now)) }
    ensures cloud { IfOk result (λ paths. paths.cloud ≡ value_of (codes "--cloud") (map string_bytes options.now)) }
    ensures settings { IfOk result (λ paths. paths.settings ≡ value_of (codes "--settings") (map string_bytes options.now)) }
    ensures listen { IfOk result (λ paths. paths.listen ≡ value_of (codes "--listen") (map string_bytes options.now)) }
    ensures memory { IfErr result (λ fault. fault ≡ WordsFault.Memory) }
{
    Ok(Paths {
        journal: copy_value(alloc, options, "--journal")?,
        cloud: copy_value(alloc, options, "--cloud")?,
        settings: copy_value(alloc, options, "--settings")?,
        listen: copy_value(alloc, options, "--listen")?,
    })
}

// The words behind the first.
fn behind_name(words: &[String]) -> &[String]
    ensures { map string_bytes result.now ≡ behind_first (map string_bytes words.now) }
{
    match words {
        [_, options @ ..] => options,
        [] => words,
    }
}

/// What the words of the command line name: the journal's file, the cloud's folder, the settings' file and the address to listen on, each
/// where its option is given.
///
/// `Refused` where the words aren't of the grammar, and `Memory` where there's none for the texts.
pub fn paths_of(alloc: Global, words: &[String]) -> Result<Paths, WordsFault>
    ensures named { IfOk result (λ paths. Names paths (map string_bytes words.now)) }
    ensures refused { (result ≡ Err WordsFault.Refused) ↔ AreRefused (map string_bytes words.now) }
{
    match read_words(words) {
        Ok(_) => named_by(alloc, behind_name(words)),
        Err(fault) => Err(fault),
    }
}
