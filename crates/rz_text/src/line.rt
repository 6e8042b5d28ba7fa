// Lines and their words.

ghost use Rattle.std.specs.Prelude.{◌≡◌, ℕ, ◌+◌, ◌<◌, ◌^◌, List, [], ◌∷◌, length, IfSome, IfNone, slice_get, position, ◌==◌};
ghost use Rattle.std.specs.Option.{option_copied};
ghost use Rattle.rz_text.specs.Lines.{lines, lines_from, words, has_content as says_something};

use std::marker::Model;

/// The most bytes of a text that is read.
pub const TEXT_MAX: usize = 16_777_216;

// What ends a line.
const LINE_END: u8 = b'\n';

/// The lines of a text that are left, with their numbers. A line ends with the byte 0A, which isn't part of it; the last may lack it.
#[derive(Drop)]
pub struct Lines<'a> {
    rest: &'a [u8],
    passed: u64,
}

impl<'a> Model for Lines<'a> {
    ghost Value = { List (ℕ × List ℕ) };

    ghost view = { λ l. lines_from (l.passed + 1) l.rest.now };

    ghost invariant = { λ l. l.passed + length l.rest.now < 2 ^ 64 };
}

impl<'a> Lines<'a> {
    /// The lines of a text, numbered from 1. It takes no memory.
    pub fn new(bytes: &'a [u8]) -> Lines<'a>
        ensures { result ≡ lines_from 1 bytes.now }
    {
        Lines {
            rest: bytes,
            passed: 0,
        }
    }

    /// The next line and its number; None exactly at the end.
    pub fn next_line(&mut self) -> Option<(u64, &'a [u8])>
        ensures some { IfSome result (λ line. self.old ≡ (line.0, line.1.now) ∷ self.new) }
        ensures none { IfNone result ((self.old ≡ []) × (self.new ≡ [])) }
    {
        if self.rest.is_empty() {
            return None;
        }
        let (line, rest) = first_line(self.rest);
        self.rest = rest;
        self.passed += 1;
        Some((self.passed, line))
    }
}

// The first line of a text, and what stands behind its end.
fn first_line(text: &[u8]) -> (&[u8], &[u8])
    requires { 0 < length text.now }
    ensures lines { lines text.now ≡ result.0.now ∷ lines result.1.now }
    ensures shorter { length result.1.now < length text.now }
{
    match end_of_line(text) {
        Some(end) => (&text[..end], &text[end + 1..]),
        None => (text, &[]),
    }
}

// The place of the first line end.
fn end_of_line(text: &[u8]) -> Option<usize>
    ensures { result ≡ position (λ b. b == 10) text.now }
{
    text.iter().position(|b| *b == LINE_END)
}

/// Whether a line says anything: it isn't empty and doesn't begin with `#`.
pub fn has_content(line: &[u8]) -> bool
    ensures { result ≡ says_something line.now }
{
    !matches!(line, [] | [b'#', ..])
}

/// The word of a line at a place, from 0. The words are the pieces between the spaces, empty ones too; None exactly where there are fewer.
pub fn word(line: &[u8], i: usize) -> Option<&[u8]>
    ensures { option_copied result ≡ slice_get (words line.now) i }
{
    line.split(|b| *b == b' ').nth(i)
}
