// Reading input files.

ghost use Rattle.std.specs.Prelude.{◌≡◌, ◌≢◌, ◌≤◌, length, Some, None, OnOk, IfOk, IfErr};
ghost use Rattle.rz_text.specs.Lines.{words};
ghost use Rattle.rz_sys.specs.Input.{IsValid, strings};
ghost use Rattle.rz_input.specs.declared.error.InputError.TheVariants as error;
ghost use Rattle.rz_input.specs.Grammar.{entry_of as entry_said};
ghost use Rattle.rz_input.specs.Fault.{fault_of, line_fault};
ghost use Rattle.rz_input.specs.Value.{input_of};
ghost use Rattle.rz_input.specs.Calls.Draft.{with_entry, with_some, LineRefusal};

use crate::entry::Entry;
use crate::error::InputError;
use crate::line::entry_of;
use rz_num::{Bytes, OutOfMemory};
use rz_sys::input::Input;
use rz_text::{Lines, TEXT_MAX, has_content};
use std::alloc::Global;

// The most bytes of the arguments with their zero bytes.
const STRINGS_MAX: usize = 65_536;

/// Reads the text of an input file. Each line that isn't empty and doesn't begin with `#` is `arg`, `arg HEX`, `in HEX`, `reply full`,
/// `reply atmost N` or `reply error N`. The error is that of the first bad line.
pub fn read_input(alloc: Global, bytes: &Bytes) -> Result<Input, InputError>
    ensures sound { IfOk result (λ _. fault_of bytes.now ≡ None) }
    ensures value { IfOk result (λ input. input ≡ input_of bytes.now) }
    ensures valid { IfOk result IsValid }
    ensures fault { IfErr result (λ e. e ≢ error.OutOfMemory → fault_of bytes.now ≡ Some e) }
{
    let text = bytes.as_slice();
    if text.len() > TEXT_MAX {
        return Err(InputError::BadLine(0));
    }
    let mut draft = Draft {
        input: Input::empty(alloc),
        strings: 0,
    };
    let mut lines = Lines::new(text);
    while let Some((n, line)) = lines.next_line() {
        if !has_content(line) {
            continue;
        }
        read_line(alloc, &mut draft, n, line)?;
    }
    Ok(draft.input)
}

// What is read so far, and how many bytes the arguments take with their zero bytes.
#[derive(Drop)]
struct Draft {
    input: Input,
    strings: usize,
}

// Reads line `n`.
fn read_line(alloc: Global, draft: &mut Draft, n: u64, line: &[u8]) -> Result<(), InputError>
    requires counted { draft.old.strings ≡ length (strings draft.old.input.args) }
    requires few { draft.old.strings ≤ 65536 }
    ensures sound { OnOk result (line_fault draft.old.input.args n line.now ≡ None) }
    ensures added { OnOk result (draft.new.input ≡ with_some draft.old.input (entry_said (words line.now))) }
    ensures counted { OnOk result (draft.new.strings ≡ length (strings draft.new.input.args)) }
    ensures few { OnOk result (draft.new.strings ≤ 65536) }
    ensures fault { IfErr result (LineRefusal draft.old.input.args n line.now) }
{
    let Some(entry) = entry_of(alloc, line)? else {
        return Err(InputError::BadLine(n));
    };
    if let Entry::Arg(arg) = &entry {
        draft.strings += arg.as_slice().len() + 1;
        if draft.strings > STRINGS_MAX {
            return Err(InputError::TooBig(n));
        }
    }
    add(&mut draft.input, entry)?;
    Ok(())
}

// Adds what a line says.
fn add(input: &mut Input, entry: Entry) -> Result<(), OutOfMemory>
    ensures { OnOk result (input.new ≡ with_entry input.old entry) }
{
    match entry {
        Entry::Arg(arg) => input.args.push(arg),
        Entry::Stdin(bytes) => input.stdin.push_all(bytes.as_slice()),
        Entry::Reply(reply) => input.replies.push(reply),
    }
}
