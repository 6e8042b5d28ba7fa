// Texts.

ghost use Rattle.std.specs.Prelude.{◌≡◌, ℕ, List, [], ◌++◌, OnOk, OnErr, IfOk, string_bytes};
ghost use Rattle.std.specs.Char.{encode_utf8};

use crate::OutOfMemory;
use std::alloc::Global;
use std::marker::Model;

/// A text. Contracts see the bytes of its UTF-8.
#[derive(Debug, Drop)]
pub struct Text {
    chars: String,
}

impl Model for Text {
    ghost Value = { List ℕ };

    ghost view = { λ t. string_bytes t.chars };
}

impl Text {
    /// The text of no characters. It takes no memory.
    pub fn new(alloc: Global) -> Text
        ensures { result ≡ [] }
    {
        Text {
            chars: String::new(alloc),
        }
    }

    /// A copy of a text. It refuses for want of memory alone.
    pub fn from_slice(alloc: Global, text: &str) -> Result<Text, OutOfMemory>
        ensures { IfOk result (λ copy. copy ≡ text.now) }
    {
        Ok(Text {
            chars: String::from_str(alloc, text)?,
        })
    }

    /// The text of a string, in its own memory.
    pub fn from_string(chars: String) -> Text
        ensures { result ≡ string_bytes chars }
    {
        Text { chars }
    }

    /// Appends a character. It refuses for want of memory alone, and then the text is unchanged.
    pub fn push(&mut self, character: char) -> Result<(), OutOfMemory>
        ensures ok { OnOk result (self.new ≡ self.old ++ encode_utf8 character) }
        ensures err { OnErr result (self.new ≡ self.old) }
    {
        self.chars.push(character)?;
        Ok(())
    }

    /// Appends a text. It refuses for want of memory alone, and then this text is unchanged.
    pub fn push_all(&mut self, text: &str) -> Result<(), OutOfMemory>
        ensures ok { OnOk result (self.new ≡ self.old ++ text.now) }
        ensures err { OnErr result (self.new ≡ self.old) }
    {
        self.chars.push_str(text)?;
        Ok(())
    }

    /// The text as a slice.
    pub fn as_slice(&self) -> &str
        ensures { result.now ≡ self.now }
    {
        self.chars.as_str()
    }
}
