// Printing inputs.

ghost use Rattle.std.specs.Prelude.{◌≡◌, ◌++◌, OnOk, IfOk};
ghost use Rattle.std.specs.List.{AllByRecursion};
ghost use Rattle.hex.specs.Hex.{encode_lower};
ghost use Rattle.rz_input.specs.declared.entry.Entry.TheVariants as entry;
ghost use Rattle.rz_input.specs.Calls.Printing.{HasWord, arg_lines, reply_lines, stdin_lines};
ghost use Rattle.rz_input.specs.Printed.{ReadsBack, ended_line, printed};

use rz_num::{Bytes, OutOfMemory};
use rz_sys::input::{Input, Replies, Reply};
use std::alloc::Global;

// How many bytes of the standard input a line has at most.
const LINE_BYTES: usize = 32;

/// The text of an input: a line for each argument, lines of at most 32 bytes of the standard input, a line for each reply.
/// It refuses for want of memory alone.
pub fn print_input(alloc: Global, input: &Input) -> Result<Bytes, OutOfMemory>
    ensures text { IfOk result (λ text. text ≡ printed input.now) }
    ensures read_back { IfOk result (λ text. ReadsBack text input.now) }
{
    let mut text = Bytes::new(alloc);
    print_args(alloc, &mut text, input.args.as_slice())?;
    print_stdin(alloc, &mut text, input.stdin.as_slice())?;
    print_replies(alloc, &mut text, &input.replies)?;
    Ok(text)
}

// Prints a line for each argument.
fn print_args(alloc: Global, text: &mut Bytes, args: &[Bytes]) -> Result<(), OutOfMemory>
    ensures { OnOk result (text.new ≡ text.old ++ arg_lines args.now) }
{
    for arg in args {
        print_arg(alloc, text, arg.as_slice())?;
    }
    Ok(())
}

fn print_arg(alloc: Global, text: &mut Bytes, arg: &[u8]) -> Result<(), OutOfMemory>
    ensures { OnOk result (text.new ≡ text.old ++ ended_line (entry.Arg arg.now)) }
{
    text.push_all(b"arg")?;
    if !arg.is_empty() {
        text.push(b' ')?;
        print_hex(alloc, text, arg)?;
    }
    text.push(b'\n')
}

// Prints the bytes of the standard input, 32 on a line.
fn print_stdin(alloc: Global, text: &mut Bytes, bytes: &[u8]) -> Result<(), OutOfMemory>
    ensures { OnOk result (text.new ≡ text.old ++ stdin_lines bytes.now) }
{
    for piece in bytes.chunks(LINE_BYTES) {
        print_piece(alloc, text, piece)?;
    }
    Ok(())
}

fn print_piece(alloc: Global, text: &mut Bytes, piece: &[u8]) -> Result<(), OutOfMemory>
    ensures { OnOk result (text.new ≡ text.old ++ ended_line (entry.Stdin piece.now)) }
{
    text.push_all(b"in ")?;
    print_hex(alloc, text, piece)?;
    text.push(b'\n')
}

// Prints a line for each reply.
fn print_replies(alloc: Global, text: &mut Bytes, replies: &Replies) -> Result<(), OutOfMemory>
    ensures text { OnOk result (text.new ≡ text.old ++ reply_lines replies.now) }
    ensures words { OnOk result (AllByRecursion HasWord replies.now) }
{
    for reply in replies.iter() {
        print_reply(alloc, text, *reply)?;
    }
    Ok(())
}

fn print_reply(alloc: Global, text: &mut Bytes, reply: Reply) -> Result<(), OutOfMemory>
    ensures text { OnOk result (text.new ≡ text.old ++ ended_line (entry.Reply reply)) }
    ensures word { OnOk result (HasWord reply) }
{
    match reply {
        Reply::Full => text.push_all(b"reply full\n"),
        Reply::AtMost(n) => {
            let line = format!(in alloc; "reply atmost {n}\n")?;
            text.push_all(line.as_bytes())
        }
        Reply::Error(n) => {
            let line = format!(in alloc; "reply error {n}\n")?;
            text.push_all(line.as_bytes())
        }
    }
}

// Prints the hexadecimal digits of bytes, in lower case.
fn print_hex(alloc: Global, text: &mut Bytes, bytes: &[u8]) -> Result<(), OutOfMemory>
    ensures { OnOk result (text.new ≡ text.old ++ encode_lower bytes.now) }
{
    text.push_all(hex::encode(alloc, bytes)?.as_bytes())
}
