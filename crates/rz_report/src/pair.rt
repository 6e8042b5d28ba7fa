//! The report of a pair of files: an original and its new file.

ghost use Rattle.std.specs.Prelude.{◌≡◌, [], ◌∷◌, ◌++◌, codes, string_bytes, IfOk};
ghost use Rattle.serde_json.specs.Data.{number, unsigned, object, member, no_members, array, item, no_items};
ghost use Rattle.serde_json.specs.View.{view};
ghost use Rattle.rz_report.specs.Report.{pair_report_of, pair_text};

use crate::debloat::with_line_end;
use crate::stubs::stub_count;
use rz_elf::elf::Elf;
use rz_elf::executable::executable_size;
use rz_num::{Bytes, OutOfMemory};
use serde_json::{Value, json};
use std::alloc::{AllocError, Global};

/// The report of an old and a new file: the bytes of the executable loads of each in memory, the number of stubs in the
/// new one, which has one for each instruction that it keeps (0 where it isn't stamped), and the bytes of both files. It
/// refuses for want of memory alone.
pub fn pair_report(alloc: Global, old: &Elf, new: &Elf) -> Result<Bytes, OutOfMemory>
    ensures { IfOk result (λ bytes. bytes ≡ pair_report_of old.now new.now) }
{
    let old_executable = executable_size(old);
    let new_executable = executable_size(new);
    let instructions = stub_count(new);
    let old_length = old.bytes.as_slice().len() as u64;
    let new_length = new.bytes.as_slice().len() as u64;
    let text = pair_line(
        alloc,
        old_executable,
        new_executable,
        instructions,
        old_length,
        new_length,
    )?;
    with_line_end(alloc, &text)
}

// The report without its line end.
fn pair_line(
    alloc: Global,
    old_executable: u64,
    new_executable: u64,
    instructions: u64,
    old_length: u64,
    new_length: u64,
) -> Result<String, AllocError>
    ensures { IfOk result (λ line. string_bytes line ++ 10 ∷ []
        ≡ pair_text old_executable new_executable instructions old_length new_length) }
{
    let value = pair_value(
        alloc,
        old_executable,
        new_executable,
        instructions,
        old_length,
        new_length,
    )?;
    value.to_string(alloc)
}

// The report as a JSON value.
fn pair_value(
    alloc: Global,
    old_executable: u64,
    new_executable: u64,
    instructions: u64,
    old_length: u64,
    new_length: u64,
) -> Result<Value, AllocError>
    ensures { IfOk result (λ value. view value ≡ object
        (member (codes "executable") (array (item (number (unsigned old_executable))
        (item (number (unsigned new_executable)) no_items)))
        (member (codes "instructions") (number (unsigned instructions))
        (member (codes "length") (array (item (number (unsigned old_length))
        (item (number (unsigned new_length)) no_items))) no_members)))) }
{
    json!(in alloc; {
        "executable": [old_executable, new_executable],
        "instructions": instructions,
        "length": [old_length, new_length]
    })
}
