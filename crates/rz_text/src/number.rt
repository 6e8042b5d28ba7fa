// Numbers in words.

ghost use Rattle.std.specs.Prelude.{◌≡◌, ◌<◌, ◌≤◌};
ghost use Rattle.std.specs.Option.{SomeIff};
ghost use Rattle.std.specs.Str.Parse.{digits_value, AllDigits};
ghost use Rattle.rz_text.specs.Calls.Digits.{HasValue};
ghost use Rattle.rz_text.specs.Number.{decimal, decimal_has, hexadecimal, hexadecimal_has, wrong_place};

const DECIMAL_DIGITS: usize = 20;

// The length of `0x`.
const PREFIX: usize = 2;

const HEXADECIMAL_DIGITS: usize = 16;

/// The number that a word of 1 to 20 decimal digits makes. The error is the place of the first byte that no number has there, or the
/// length where digits are missing or the number is above 2^64 - 1.
#[tactic(auto, unfolding(crate::specs::Number::decimal))]
pub fn decimal(word: &[u8]) -> Result<u64, usize>
    ensures { result ≡ decimal word.now }
{
    match wrong_decimal_place(word) {
        Some(place) => Err(place),
        None => value(word, 10).ok_or(word.len()),
    }
}

/// The number that `0x` and 1 to 16 hexadecimal digits of either case make. The error is as for `decimal`.
#[tactic(auto, unfolding(crate::specs::Number::hexadecimal))]
pub fn hexadecimal(word: &[u8]) -> Result<u64, usize>
    ensures { result ≡ hexadecimal word.now }
{
    match wrong_hexadecimal_place(word) {
        Some(place) => Err(place),
        None if word.len() < PREFIX => Err(word.len()),
        None => value(&word[PREFIX..], 16).ok_or(word.len()),
    }
}

fn wrong_decimal_place(word: &[u8]) -> Option<usize>
    ensures { result ≡ wrong_place decimal_has word.now }
{
    word.iter()
        .enumerate()
        .position(|(place, byte)| !decimal_has(place, *byte))
}

fn wrong_hexadecimal_place(word: &[u8]) -> Option<usize>
    ensures { result ≡ wrong_place hexadecimal_has word.now }
{
    word.iter()
        .enumerate()
        .position(|(place, byte)| !hexadecimal_has(place, *byte))
}

// Whether a decimal number has this byte at this place.
fn decimal_has(place: usize, byte: u8) -> bool
    ensures { result ≡ decimal_has place byte }
{
    place < DECIMAL_DIGITS && (byte as char).is_digit(10)
}

// Whether a hexadecimal number has this byte at this place.
fn hexadecimal_has(place: usize, byte: u8) -> bool
    ensures { result ≡ hexadecimal_has place byte }
{
    match place {
        0 => byte == b'0',
        1 => byte == b'x',
        _ => place < PREFIX + HEXADECIMAL_DIGITS && (byte as char).is_digit(16),
    }
}

// The number that digits make; None where there are none or it has no 64 bits.
fn value(digits: &[u8], radix: u32) -> Option<u64>
    requires digits { AllDigits radix digits.now }
    requires radix { (2 ≤ radix) × (radix ≤ 36) }
    ensures { SomeIff result (HasValue radix digits.now) (digits_value radix digits.now) }
{
    let Ok(text) = str::from_utf8(digits) else {
        return None;
    };
    u64::from_str_radix(text, radix).ok()
}
