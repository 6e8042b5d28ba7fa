//! The text of answers.

use rz_num::{Bytes, OutOfMemory};
use std::alloc::Global;

/// Adds a line of an answer.
pub fn add_line(to: &mut Bytes, line: &str) -> Result<(), OutOfMemory> {
    to.push_all(b"  ")?;
    to.push_all(line.as_bytes())?;
    to.push(b'\n')
}

/// Adds a line of bytes as hexadecimal digits.
pub fn add_bytes(alloc: Global, to: &mut Bytes, bytes: &[u8]) -> Result<(), OutOfMemory> {
    to.push_all(b"  ")?;
    add_digits(alloc, to, bytes)?;
    to.push(b'\n')
}

/// Adds two hexadecimal digits for each byte.
pub fn add_digits(alloc: Global, to: &mut Bytes, bytes: &[u8]) -> Result<(), OutOfMemory> {
    for byte in bytes {
        to.push_all(format!(in alloc; "{byte:02x}")?.as_bytes())?;
    }
    Ok(())
}

/// Adds a text of razor, each of its lines behind a bar. A last line with no end is said to have none.
pub fn add_put(to: &mut Bytes, text: &[u8]) -> Result<(), OutOfMemory> {
    let mut is_begun = false;
    for byte in text {
        if !is_begun {
            to.push_all(b"  | ")?;
        }
        to.push(*byte)?;
        is_begun = *byte != b'\n';
    }
    if is_begun {
        to.push_all(b"\n  \\ no line end\n")?;
    }
    Ok(())
}
