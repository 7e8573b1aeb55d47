//! What the words of the command line name.

ghost use Rattle.std.specs.Prelude.{◌≡◌, string_bytes};

use std::marker::Model;

/// A text, which contracts see as its bytes in UTF-8.
#[derive(Drop)]
pub struct Text {
    string: String,
}

impl Model for Text {
    ghost use Rattle.std.specs.Prelude.{List, ℕ, string_bytes};

    ghost Value = { List ℕ };

    ghost view = { λ t. string_bytes t.string };
}

impl Text {
    /// The text of a string, which it takes over.
    pub fn new(string: String) -> Text
        ensures { result ≡ string_bytes string }
    {
        Text { string }
    }

    /// The text, to read.
    pub fn as_str(&self) -> &str
        ensures { result.now ≡ self.now }
    {
        self.string.as_str()
    }

    /// The string, given back.
    pub fn into_string(self) -> String
        ensures { string_bytes result ≡ self }
    {
        self.string
    }
}

/// What the words of the command line name. What isn't named is `None`.
#[derive(Drop)]
pub struct Paths {
    /// The journal's file.
    pub journal: Option<Text>,
    /// The cloud's directory.
    pub cloud: Option<Text>,
    /// The file of the settings.
    pub settings: Option<Text>,
    /// The address to listen on.
    pub listen: Option<Text>,
}
