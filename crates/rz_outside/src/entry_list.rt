// Files in memory, as a list of names and contents.

ghost use Rattle.std.specs.Prelude.{◌≡◌, ℕ, List, OnOk, OnErr, IfSome, IfNone, Some, None, take, position, bytes_eq, IsTrue, ◌↔◌};
ghost use Rattle.std.specs.List.{list_any};
ghost use Rattle.rz_outside.specs.Entries.{contents_of, HasDistinctNames};
ghost use Rattle.rz_outside.specs.StoreAnswers.{SameOthers};

use rz_num::{Bytes, OutOfMemory, Text};
use std::alloc::Global;
use std::marker::Model;

/// Names and their contents. Where a name stands twice its first entry counts.
#[derive(Drop)]
pub struct Entries {
    items: Vec<(Text, Bytes)>,
}

impl Model for Entries {
    ghost Value = { List (List ℕ × List ℕ) };

    ghost view = { λ e. e.items.items };
}

impl Entries {
    pub fn from_vec(items: Vec<(Text, Bytes)>) -> Entries
        ensures { result ≡ items.items }
    {
        Entries { items }
    }

    // The place of a name.
    fn place(&self, name: &str) -> Option<usize>
        ensures { result ≡ position (λ entry. bytes_eq entry.0 name.now) self.now }
    {
        self.items
            .iter()
            .position(|(key, _)| key.as_slice() == name)
    }

    /// What a name holds.
    pub fn get(&self, name: &str) -> Option<&[u8]>
        ensures found { IfSome result (λ bytes. contents_of self.now name.now ≡ Some bytes.now) }
        ensures missing { IfNone result (contents_of self.now name.now ≡ None) }
    {
        let at = self.place(name)?;
        Some(self.items[at].1.as_slice())
    }

    /// Makes a name hold these contents.
    pub fn set(&mut self, alloc: Global, name: &str, contents: Bytes) -> Result<(), OutOfMemory>
        ensures holds { OnOk result (contents_of self.new name.now ≡ Some contents) }
        ensures others { SameOthers name.now (contents_of self.old) (contents_of self.new) }
        ensures err { OnErr result (self.new ≡ self.old) }
    {
        match self.place(name) {
            Some(at) => self.items[at].1 = contents,
            None => {
                let key = Text::from_slice(alloc, name)?;
                self.items.push((key, contents))?;
            }
        }
        Ok(())
    }
}

/// Whether no name is given twice, as the stores in memory require.
pub fn has_distinct_names(files: &[(Text, Bytes)]) -> bool
    ensures { IsTrue result ↔ HasDistinctNames files.now }
{
    for (at, (name, _)) in files.iter().enumerate() {
        if is_listed(name.as_slice(), &files[at + 1..]) {
            return false;
        }
    }
    true
}

// Whether a name has an entry.
fn is_listed(name: &str, files: &[(Text, Bytes)]) -> bool
    ensures { result ≡ list_any (λ entry. bytes_eq name.now entry.0) files.now }
{
    files.iter().any(|(key, _)| name == key.as_slice())
}

/// The first bytes of a slice, at most `max`.
pub fn first(bytes: &[u8], max: u64) -> &[u8]
    ensures { result.now ≡ take max bytes.now }
{
    if max < bytes.len() as u64 {
        &bytes[..max as usize]
    } else {
        bytes
    }
}
