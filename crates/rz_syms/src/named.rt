// Names in string tables (System V gABI, chapter 4, "String Table").

ghost use Rattle.std.specs.Prelude.{◌≡◌, ◌+◌, ◌<◌, ◌≤◌, ◌≢◌, ◌==◌, ℕ, length, position, Some, IfSome, slice_index};
ghost use Rattle.std.specs.List.{list_all};
ghost use Rattle.rz_syms.specs.Fault.{name_fault};
ghost use Rattle.rz_syms.specs.Symbols.{is_name, is_visible, string_at, symbols_in};
ghost use Rattle.rz_syms.specs.Calls.Named.{IsEnd, fault_of_name};

use crate::entry::SYMBOL_SIZE;
use crate::place::symbol_at;

// The most characters of the name of a function.
const NAME_MAX: usize = 255;

// The number of the first symbol whose name has no end.
pub fn first_unended(symbols: &[u8], strings: &[u8]) -> Option<u64>
    ensures { fault_of_name result ≡ name_fault strings.now 0 (symbols_in symbols.now) }
{
    let end = end_of_names(strings);
    for number in 0..symbols.len() / SYMBOL_SIZE {
        if symbol_at(symbols, number).name as usize >= end {
            return Some(number as u64);
        }
    }
    None
}

// Where the last name of a string table ends: behind its last zero.
fn end_of_names(strings: &[u8]) -> usize
    ensures { IsEnd strings.now result }
{
    let mut end = 0;
    for (place, byte) in strings.iter().enumerate() {
        if *byte == 0 {
            end = place + 1;
        }
    }
    end
}

/// Whether the string at a place is the name of a function: 1 to 255 visible ASCII characters. It reads 256 bytes at most.
pub fn is_name_at(strings: &[u8], at: usize) -> bool
    ensures { result ≡ is_name 255 (string_at strings.now at) }
{
    let rest = &strings[at.min(strings.len())..];
    let front = &rest[..rest.len().min(NAME_MAX + 1)];
    is_name(NAME_MAX, string_at(front, 0))
}

/// The string at a place of a string table: its bytes up to a zero.
pub fn string_at(strings: &[u8], at: usize) -> &[u8]
    ensures { result.now ≡ string_at strings.now at }
{
    let rest = &strings[at.min(strings.len())..];
    match first_zero(rest) {
        Some(len) => &rest[..len],
        None => rest,
    }
}

// The place of the first zero.
fn first_zero(bytes: &[u8]) -> Option<usize>
    ensures { result ≡ position (λ b. b == 0) bytes.now }
{
    bytes.iter().position(|b| *b == 0)
}

/// Whether a word is a name of 1 to `most` visible ASCII characters.
pub fn is_name(most: usize, word: &[u8]) -> bool
    ensures { result ≡ is_name most word.now }
{
    1 <= word.len() && word.len() <= most && all_visible(word)
}

fn all_visible(word: &[u8]) -> bool
    ensures { result ≡ list_all is_visible word.now }
{
    word.iter().all(|b| is_visible(*b))
}

fn is_visible(b: u8) -> bool
    ensures { result ≡ is_visible b }
{
    0x21 <= b && b <= 0x7e
}
