// Class files that name functions.

ghost use Rattle.std.specs.Prelude.{◌≡◌, ◌≢◌, ◌+◌, ◌<◌, ◌^◌, ◌++◌, [], ◌∷◌, length, position, find, bytes_eq, ◌==◌, option_map, Some, None, IfOk, IfSome, IfNone, OnOk};
ghost use Rattle.rz_text.specs.Lines.{words};
ghost use Rattle.rz_syms.specs.Calls.Named.{named_text};
ghost use Rattle.rz_syms.specs.Resolved.{NamesNone, begins_with_fs, behind_first, named_line, resolved, resolved_line, resolved_lines};

use crate::function::{Function, Symbols};
use crate::named::is_name;
use rz_num::{Bytes, OutOfMemory};
use rz_text::{TEXT_MAX, word};
use std::alloc::Global;

// What ends a line.
const LINE_END: u8 = b'\n';

// The most characters of a class.
const CLASS_MAX: usize = 64;

/// A range of addresses from `lo` up to but not `hi`, and a class.
#[derive(Clone, Copy)]
pub struct ClassRange<'a> {
    pub lo: u64,
    pub hi: u64,
    pub class: &'a [u8],
}

/// The text of a class file in which each line `fs NAME CLASS` is the line `fn LO HI CLASS` of the first function of that
/// name, and each other line that begins with the word `fs` is `bad`. All other lines stay, and a text of more than
/// 16,777,216 bytes does; so does one in which no line begins with `fs`. It refuses for want of memory alone.
pub fn resolve(alloc: Global, bytes: &Bytes, symbols: &Symbols) -> Result<Bytes, OutOfMemory>
    ensures text { IfOk result (λ text. text ≡ resolved symbols.now bytes.now) }
    ensures unnamed { IfOk result (λ text. NamesNone bytes.now → text ≡ bytes.now) }
{
    let text = bytes.as_slice();
    if text.len() > TEXT_MAX {
        return Ok(Bytes::from_slice(alloc, text)?);
    }
    let mut out = Bytes::new(alloc);
    push_resolved(alloc, &mut out, symbols.list.as_slice(), text)?;
    Ok(out)
}

// Appends the resolved lines of a text.
fn push_resolved(
    alloc: Global,
    out: &mut Bytes,
    functions: &[Function],
    text: &[u8],
) -> Result<(), OutOfMemory>
    ensures { OnOk result (out.new ≡ out.old ++ resolved_lines functions.now text.now) }
{
    let mut rest = text;
    while let Some(end) = end_of_line(rest) {
        push_line(alloc, out, functions, &rest[..end])?;
        out.push(LINE_END)?;
        rest = &rest[end + 1..];
    }
    push_line(alloc, out, functions, rest)?;
    Ok(())
}

// The place of the first line end.
fn end_of_line(text: &[u8]) -> Option<usize>
    ensures place { result ≡ position (λ b. b == 10) text.now }
    ensures small { IfSome result (λ end. end + 1 < 2 ^ 64) }
{
    text.iter().position(|b| *b == LINE_END)
}

// Appends a resolved line.
fn push_line(
    alloc: Global,
    out: &mut Bytes,
    functions: &[Function],
    line: &[u8],
) -> Result<(), OutOfMemory>
    ensures { OnOk result (out.new ≡ out.old ++ resolved_line functions.now line.now) }
{
    if !begins_with_fs(line) {
        out.push_all(line)?;
        return Ok(());
    }
    match class_range(functions, line) {
        Some(range) => push_function(alloc, out, &range)?,
        None => out.push_all(b"bad")?,
    }
    Ok(())
}

// Appends the line of a range and a class.
fn push_function(alloc: Global, out: &mut Bytes, range: &ClassRange<'_>) -> Result<(), OutOfMemory>
    ensures { OnOk result (out.new ≡ out.old ++ named_text (Some range.now)) }
{
    let ClassRange { lo, hi, class } = *range;
    let front = format!(in alloc; "fn 0x{lo:x} 0x{hi:x} ")?;
    out.push_all(front.as_bytes())?;
    out.push_all(class)
}

// Whether the first word of a line is `fs`.
fn begins_with_fs(line: &[u8]) -> bool
    ensures { result ≡ begins_with_fs (words line.now) }
{
    match word(line, 0) {
        Some(key) => key == b"fs".as_slice(),
        None => false,
    }
}

// What a line says behind its first word: the range of the first function of a name, and a class.
fn class_range<'a>(functions: &[Function], line: &'a [u8]) -> Option<ClassRange<'a>>
    ensures { named_text result ≡ named_line functions.now (behind_first (words line.now)) }
{
    let (name, class) = two_words(line)?;
    let (lo, hi) = range_of(functions, name)?;
    if is_name(CLASS_MAX, class) {
        Some(ClassRange { lo, hi, class })
    } else {
        None
    }
}

// The words behind the first, where there are two.
fn two_words(line: &[u8]) -> Option<(&[u8], &[u8])>
    ensures two { IfSome result (λ w. behind_first (words line.now) ≡ w.0.now ∷ w.1.now ∷ []) }
    ensures other { IfNone result (length (words line.now) ≢ 3) }
{
    if word(line, 3).is_some() {
        return None;
    }
    word(line, 0)?;
    Some((word(line, 1)?, word(line, 2)?))
}

// The range of the first function of a name.
fn range_of(functions: &[Function], name: &[u8]) -> Option<(u64, u64)>
    ensures { let first = find (λ f. bytes_eq f.name name.now) functions.now in
        result ≡ option_map (λ f. (f.lo, f.hi)) first }
{
    for function in functions {
        if function.name.as_slice() == name {
            return Some((function.lo, function.hi));
        }
    }
    None
}
