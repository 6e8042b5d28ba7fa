// A line of an input file.

ghost use Rattle.std.specs.Prelude.{◌≡◌, ◌==◌, None, Some, IfOk};
ghost use Rattle.std.specs.List.{list_any};
ghost use Rattle.rz_text.specs.Lines.{words};
ghost use Rattle.rz_input.specs.Grammar.{argument as argument_of, bytes_of as bytes_named, entry_of as entry_said, entry_of_one as entry_of_one_word, entry_of_two as entry_of_two_words, entry_of_three as entry_of_three_words, numbered_reply as reply_numbered};

use crate::entry::Entry;
use hex::FromHexError;
use rz_num::{Bytes, OutOfMemory};
use rz_sys::input::Reply;
use rz_text::{decimal, word};
use std::alloc::Global;

// The greatest error number.
const ERROR_MAX: u64 = 4095;

/// What a line says, where it is in the grammar. It refuses for want of memory alone.
pub fn entry_of(alloc: Global, line: &[u8]) -> Result<Option<Entry>, OutOfMemory>
    ensures { IfOk result (λ entry. entry ≡ entry_said (words line.now)) }
{
    let Some(key) = word(line, 0) else {
        return Ok(None);
    };
    let Some(value) = word(line, 1) else {
        return entry_of_one(alloc, key);
    };
    let Some(number) = word(line, 2) else {
        return entry_of_two(alloc, key, value);
    };
    match word(line, 3) {
        Some(_) => Ok(None),
        None => Ok(entry_of_three(key, value, number)),
    }
}

// What one word says: an empty argument.
fn entry_of_one(alloc: Global, key: &[u8]) -> Result<Option<Entry>, OutOfMemory>
    ensures { IfOk result (λ entry. entry ≡ entry_of_one_word key.now) }
{
    if key == b"arg".as_slice() {
        Ok(Some(Entry::Arg(Bytes::new(alloc))))
    } else {
        Ok(None)
    }
}

// What two words say.
fn entry_of_two(alloc: Global, key: &[u8], value: &[u8]) -> Result<Option<Entry>, OutOfMemory>
    ensures { IfOk result (λ entry. entry ≡ entry_of_two_words key.now value.now) }
{
    if key == b"arg".as_slice() {
        return Ok(bytes_of(alloc, value)?.and_then(argument));
    }
    if key == b"in".as_slice() {
        return Ok(bytes_of(alloc, value)?.map(Entry::Stdin));
    }
    if key == b"reply".as_slice() && value == b"full".as_slice() {
        return Ok(Some(Entry::Reply(Reply::Full)));
    }
    Ok(None)
}

// What three words say: a reply with a number.
fn entry_of_three(key: &[u8], kind: &[u8], number: &[u8]) -> Option<Entry>
    ensures { result ≡ entry_of_three_words key.now kind.now number.now }
{
    if key != b"reply".as_slice() {
        return None;
    }
    match decimal(number) {
        Ok(n) => numbered_reply(kind, n),
        Err(_) => None,
    }
}

// A reply of at most 1 byte or more, or an error number of 1 to 4095.
fn numbered_reply(kind: &[u8], n: u64) -> Option<Entry>
    ensures { result ≡ reply_numbered kind.now (Ok n) }
{
    if kind == b"atmost".as_slice() && 1 <= n {
        return Some(Entry::Reply(Reply::AtMost(n)));
    }
    if kind == b"error".as_slice() && 1 <= n && n <= ERROR_MAX {
        return Some(Entry::Reply(Reply::Error(n)));
    }
    None
}

// An argument, where the bytes have no zero.
fn argument(bytes: Bytes) -> Option<Entry>
    ensures { result ≡ argument_of (Some bytes) }
{
    if has_zero(bytes.as_slice()) {
        None
    } else {
        Some(Entry::Arg(bytes))
    }
}

fn has_zero(bytes: &[u8]) -> bool
    ensures { result ≡ list_any (λ b. b == 0) bytes.now }
{
    bytes.iter().any(|b| *b == 0)
}

// The bytes that a word of hexadecimal digits names, one or more.
fn bytes_of(alloc: Global, word: &[u8]) -> Result<Option<Bytes>, OutOfMemory>
    ensures { IfOk result (λ bytes. bytes ≡ bytes_named word.now) }
{
    match hex::decode(alloc, word) {
        Ok(bytes) if bytes.is_empty() => Ok(None),
        Ok(bytes) => Ok(Some(Bytes::from_vec(bytes))),
        Err(FromHexError::OutOfMemory) => Err(OutOfMemory),
        Err(_) => Ok(None),
    }
}
