// A line of a class file.

ghost use Rattle.std.specs.Prelude.{◌≡◌, ◌≢◌, ◌<◌, [], ◌∷◌, length, IfSome, IfNone, Ok};
ghost use Rattle.std.specs.List.{list_all};
ghost use Rattle.rz_text.specs.Lines.{words};
ghost use Rattle.rz_classes.specs.Calls.Entry.{listed};
ghost use Rattle.rz_classes.specs.Grammar.{is_class, is_visible, function_from, function_of, function_of_words};

use rz_text::{hexadecimal, word};

// The most characters of a class.
const CLASS_MAX: usize = 64;

/// What a line lists: the addresses from `lo` up to but not `hi`, and the name of the class.
#[derive(Clone, Copy)]
pub struct Entry<'a> {
    pub lo: u64,
    pub hi: u64,
    pub class: &'a [u8],
}

/// What a line lists, where it is in the grammar `fn LO HI CLASS`.
pub fn entry_of(line: &[u8]) -> Option<Entry<'_>>
    ensures ordered { IfSome result (λ e. e.lo < e.hi) }
    ensures value { listed result ≡ function_of (words line.now) }
{
    match four_words(line) {
        Some((key, lo, hi, class)) => entry_of_words(key, lo, hi, class),
        None => None,
    }
}

// What four words list.
fn entry_of_words<'a>(key: &[u8], lo: &[u8], hi: &[u8], class: &'a [u8]) -> Option<Entry<'a>>
    ensures ordered { IfSome result (λ e. e.lo < e.hi) }
    ensures value { listed result ≡ function_of_words key.now lo.now hi.now class.now }
{
    if key != b"fn".as_slice() {
        return None;
    }
    match (hexadecimal(lo), hexadecimal(hi)) {
        (Ok(lo), Ok(hi)) => entry_from(lo, hi, class),
        _ => None,
    }
}

// The words of a line, where it has four.
fn four_words(line: &[u8]) -> Option<(&[u8], &[u8], &[u8], &[u8])>
    ensures four { IfSome result (λ w. words line.now ≡ w.0.now ∷ w.1.now ∷ w.2.now ∷ w.3.now ∷ []) }
    ensures other { IfNone result (length (words line.now) ≢ 4) }
{
    if word(line, 4).is_some() {
        return None;
    }
    Some((
        word(line, 0)?,
        word(line, 1)?,
        word(line, 2)?,
        word(line, 3)?,
    ))
}

// What two numbers and a class list: the range isn't empty, and the word names a class.
fn entry_from(lo: u64, hi: u64, class: &[u8]) -> Option<Entry<'_>>
    ensures ordered { IfSome result (λ e. e.lo < e.hi) }
    ensures value { listed result ≡ function_from (Ok lo) (Ok hi) class.now }
{
    if lo < hi && is_class(class) {
        Some(Entry { lo, hi, class })
    } else {
        None
    }
}

// Whether a word names a class: 1 to 64 visible ASCII characters.
fn is_class(word: &[u8]) -> bool
    ensures { result ≡ is_class word.now }
{
    1 <= word.len() && word.len() <= CLASS_MAX && all_visible(word)
}

fn all_visible(word: &[u8]) -> bool
    ensures { result ≡ list_all is_visible word.now }
{
    word.iter().all(|b| is_visible(*b))
}

fn is_visible(b: u8) -> bool
    ensures { result ≡ is_visible b }
{
    0x21 <= b && b <= 0x7e
}
