// A line of a trace file.

ghost use Rattle.std.specs.Prelude.{◌≡◌};
ghost use Rattle.std.specs.List.{list_all};
ghost use Rattle.rz_text.specs.Lines.{words};
ghost use Rattle.rz_trace.specs.Grammar.{address_of, entry_of as entry_said, entry_of_one as entry_of_one_word, entry_of_two as entry_of_two_words, entry_of_three as entry_of_three_words, is_plain, is_small, one_or_two as one_or_two_said};

use crate::entry::Entry;
use rz_text::{hexadecimal, word};

/// What a line says, where it is in the grammar.
pub fn entry_of(line: &[u8]) -> Option<Entry>
    ensures { result ≡ entry_said (words line.now) }
{
    let Some(key) = word(line, 0) else {
        return None;
    };
    let Some(first) = word(line, 1) else {
        return entry_of_one(key);
    };
    let Some(second) = word(line, 2) else {
        return entry_of_two(key, first);
    };
    match word(line, 3) {
        Some(_) => None,
        None => entry_of_three(key, first, second),
    }
}

// What one word says: the last line.
fn entry_of_one(key: &[u8]) -> Option<Entry>
    ensures { result ≡ entry_of_one_word key.now }
{
    if key == b"end".as_slice() {
        Some(Entry::End)
    } else {
        None
    }
}

// What two words say: the first line, the profile, or a node.
fn entry_of_two(key: &[u8], value: &[u8]) -> Option<Entry>
    ensures { result ≡ entry_of_two_words key.now value.now }
{
    if key == b"razor-trace".as_slice() {
        return match one_or_two(value) {
            Some(version) => Some(Entry::Begin(version)),
            None => None,
        };
    }
    if key == b"profile".as_slice() {
        return match one_or_two(value) {
            Some(profile) => Some(Entry::Profile(profile)),
            None => None,
        };
    }
    if key != b"n".as_slice() {
        return None;
    }
    match address_of(value) {
        Some(at) => Some(Entry::Node(at)),
        None => None,
    }
}

// The version or the profile that a word spells.
fn one_or_two(word: &[u8]) -> Option<u8>
    ensures { result ≡ one_or_two_said word.now }
{
    if word == b"1".as_slice() {
        Some(1)
    } else if word == b"2".as_slice() {
        Some(2)
    } else {
        None
    }
}

// What three words say: an edge.
fn entry_of_three(key: &[u8], from: &[u8], to: &[u8]) -> Option<Entry>
    ensures { result ≡ entry_of_three_words key.now from.now to.now }
{
    if key != b"e".as_slice() {
        return None;
    }
    match (address_of(from), address_of(to)) {
        (Some(from), Some(to)) => Some(Entry::Edge(from, to)),
        _ => None,
    }
}

// The address that a word spells: `0x` and lower-case digits without leading zeros.
fn address_of(word: &[u8]) -> Option<u64>
    ensures { result ≡ address_of word.now }
{
    if !is_plain(word) {
        return None;
    }
    match hexadecimal(word) {
        Ok(at) => Some(at),
        Err(_) => None,
    }
}

// Whether a word has no upper-case digit, and no leading zero behind `0x`.
fn is_plain(word: &[u8]) -> bool
    ensures { result ≡ is_plain word.now }
{
    all_small(word) && !(word.len() > 3 && word[2] == b'0')
}

fn all_small(word: &[u8]) -> bool
    ensures { result ≡ list_all is_small word.now }
{
    word.iter().all(|b| is_small(*b))
}

// Whether a byte is no upper-case digit.
fn is_small(b: u8) -> bool
    ensures { result ≡ is_small b }
{
    !(b'A' <= b && b <= b'F')
}
