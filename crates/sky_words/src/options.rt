//! The options behind a command.

ghost use Rattle.std.specs.Prelude.{◌≡◌, ◌↔◌, ℕ, Some, map, string_bytes, option_map, is_some, is_none, ◌&&◌, IsSomeAnd};
ghost use Rattle.std.specs.List.{list_any, list_all};
ghost use Rattle.std.specs.Str.{bytes_eq};
ghost use Rattle.sky_words.specs.Words.{is_value, value_of, are_options, known_to, needed_by, IsNumber};

use crate::command::Command;

// Whether a word may be the value of an option: it isn't empty, and doesn't begin with a hyphen.
fn may_be_value(word: &str) -> bool
    ensures { result ≡ is_value word.now }
{
    match word.as_bytes() {
        [] => false,
        [first, ..] => *first != b'-',
    }
}

/// The value of the option of this name, among the words behind a command.
pub fn find_value<'a>(options: &'a [String], name: &str) -> Option<&'a str>
    ensures { option_map (λ value. value.now) result ≡ value_of name.now (map string_bytes options.now) }
{
    let mut rest = options;
    while let [word, value, more @ ..] = rest {
        if word.as_str() == name {
            return Some(value.as_str());
        }
        rest = more;
    }
    None
}

// Whether this is an option that a command takes.
#[tactic(auto, unfolding(crate::specs::Words::known_to))]
fn is_known(command: Command, word: &str) -> bool
    ensures { result ≡ list_any (bytes_eq word.now) (known_to command) }
{
    match command {
        Command::Replay => word == "--settings" || word == "--journal" || word == "--cloud",
        Command::Clean { .. } => word == "--settings" || word == "--cloud" || word == "--steps",
        Command::Generate { .. } => {
            word == "--settings"
                || word == "--journal"
                || word == "--cloud"
                || word == "--seed"
                || word == "--files"
        }
        Command::Serve => {
            word == "--settings" || word == "--journal" || word == "--cloud" || word == "--listen"
        }
    }
}

// Whether the option of this name is among these.
fn is_given(options: &[String], name: &str) -> bool
    ensures { result ≡ is_some (value_of name.now (map string_bytes options.now)) }
{
    find_value(options, name).is_some()
}

// Whether a command takes an option with this value, which is not among those behind it.
fn is_taken(command: Command, name: &str, value: &str, behind: &[String]) -> bool
    ensures { result ≡ (list_any (bytes_eq name.now) (known_to command) && is_value value.now
        && is_none (value_of name.now (map string_bytes behind.now))) }
{
    is_known(command, name) && may_be_value(value) && !is_given(behind, name)
}

/// Whether these words are options that a command takes, in any order, each at most once, and behind each its value.
pub fn are_known(command: Command, options: &[String]) -> bool
    ensures { result ≡ are_options (known_to command) (map string_bytes options.now) }
{
    let mut rest = options;
    while let [name, value, more @ ..] = rest {
        if !is_taken(command, name.as_str(), value.as_str(), more) {
            return false;
        }
        rest = more;
    }
    rest.is_empty()
}

/// Whether no option is missing that a command must have.
pub fn are_complete(command: Command, options: &[String]) -> bool
    ensures { result ≡ list_all (λ name. is_some (value_of name (map string_bytes options.now))) (needed_by command) }
{
    match command {
        Command::Replay => is_given(options, "--journal") && is_given(options, "--cloud"),
        Command::Clean { .. } => is_given(options, "--cloud") && is_given(options, "--steps"),
        Command::Generate { .. } => {
            is_given(options, "--journal")
                && is_given(options, "--cloud")
                && is_given(options, "--seed")
                && is_given(options, "--files")
        }
        Command::Serve => {
            is_given(options, "--journal")
                && is_given(options, "--cloud")
                && is_given(options, "--listen")
        }
    }
}

// The number that a text writes, in a range.
fn read_number(text: &str, low: u32, high: u32) -> Option<u32>
    ensures { (number : ℕ) → (result ≡ Some number) ↔ IsNumber low high number text.now }
{
    if text.len() > 10 || text.starts_with('+') {
        return None;
    }
    match text.parse::<u32>() {
        Ok(number) if low <= number && number <= high => Some(number),
        _ => None,
    }
}

/// The number that an option gives, if it's in a range.
pub fn find_number(options: &[String], name: &str, low: u32, high: u32) -> Option<u32>
    ensures { (number : ℕ) → (result ≡ Some number) ↔ IsSomeAnd (value_of name.now (map string_bytes options.now)) (IsNumber low high number) }
{
    match find_value(options, name) {
        Some(text) => read_number(text, low, high),
        None => None,
    }
}
