// Reading class files.

ghost use Rattle.std.specs.Prelude.{◌≡◌, ◌≢◌, ◌<◌, ◌+◌, ◌^◌, ◌++◌, length, Some, None, OnOk, IfOk, IfErr};
ghost use Rattle.std.specs.Option.{option_to_list};
ghost use Rattle.rz_text.specs.Lines.{words};
ghost use Rattle.rz_classes.specs.Grammar.{function_of};
ghost use Rattle.rz_classes.specs.declared.error.ClassError.TheVariants as error;
ghost use Rattle.rz_classes.specs.Fault.{fault_of, functions_of, line_fault};

use crate::error::ClassError;
use crate::line::entry_of;
use crate::list::Classes;
use crate::listed::Function;
use rz_num::Bytes;
use rz_text::{Lines, TEXT_MAX, has_content};
use std::alloc::Global;

/// Reads the text of a class file. Each line that isn't empty and doesn't begin with `#` is `fn LO HI CLASS`: two numbers of `0x` and
/// 1 to 16 digits, LO below HI, and 1 to 64 visible ASCII characters. The error is that of the first bad line.
pub fn read_classes(alloc: Global, bytes: &Bytes) -> Result<Classes, ClassError>
    ensures sound { IfOk result (λ _. fault_of bytes.now ≡ None) }
    ensures value { IfOk result (λ classes. classes ≡ functions_of bytes.now) }
    ensures fault { IfErr result (λ e. e ≢ error.OutOfMemory → fault_of bytes.now ≡ Some e) }
{
    let text = bytes.as_slice();
    if text.len() > TEXT_MAX {
        return Err(ClassError::BadLine(0));
    }
    let mut classes = Classes::none(alloc);
    let mut lines = Lines::new(text);
    while let Some((n, line)) = lines.next_line() {
        if !has_content(line) {
            continue;
        }
        list_line(alloc, &mut classes, n, line)?;
    }
    Ok(classes)
}

// Lists the function of line `n`.
fn list_line(alloc: Global, classes: &mut Classes, n: u64, line: &[u8]) -> Result<(), ClassError>
    requires { length classes.old + 1 < 2 ^ 32 }
    ensures sound { OnOk result (line_fault classes.old n line.now ≡ None) }
    ensures listed { OnOk result (classes.new ≡ classes.old ++ option_to_list (function_of (words line.now))) }
    ensures fault { IfErr result (λ e. e ≢ error.OutOfMemory → line_fault classes.old n line.now ≡ Some e) }
{
    let Some(entry) = entry_of(line) else {
        return Err(ClassError::BadLine(n));
    };
    if classes.meets(entry.lo, entry.hi) {
        return Err(ClassError::Overlap(n));
    }
    classes.push(Function {
        lo: entry.lo,
        hi: entry.hi,
        class: Bytes::from_slice(alloc, entry.class)?,
    })?;
    Ok(())
}
