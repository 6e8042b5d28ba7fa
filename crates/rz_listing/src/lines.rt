// The lines of a listing.

ghost use Rattle.std.specs.Prelude.{◌≡◌, ◌++◌, length, IfOk, OnOk};
ghost use Rattle.rz_isa.specs.Decoded.{decoded};
ghost use Rattle.rz_isa.specs.Nodes.{spelled_at};
ghost use Rattle.rz_listing.specs.Listing.{file_code, line_of, next_of, listing as listing_text};
ghost use Rattle.rz_listing.specs.Calls.Within.{IsWithin};

use rz_decode::decode;
use rz_disasm::line;
use rz_elf::code::code_at;
use rz_elf::elf::Elf;
use rz_isa::{Decoded, InsnTable};
use rz_num::{Bytes, OutOfMemory};
use std::alloc::Global;

/// At most `count` lines: the instructions of a file from the address `at` on, one behind the other. The first address
/// where no instruction stands has the last line, which says `short` where the bytes begin one and `unknown` where they
/// begin none. It refuses for want of memory alone.
pub fn listing<T: InsnTable>(
    alloc: Global,
    elf: &Elf,
    at: u64,
    count: u32,
) -> Result<Bytes, OutOfMemory>
    ensures { let code = file_code elf.now.bytes in
        IfOk result (λ text. text ≡ listing_text (decoded T.rows) code count at) }
{
    let mut text = Bytes::new(alloc);
    let mut at = at;
    for _line in 0..count {
        let Some(next) = push_line_at::<T>(alloc, &mut text, elf, at)? else {
            return Ok(text);
        };
        at = next;
    }
    Ok(text)
}

// Appends the line of an address, and gives the address behind an instruction that stands there.
fn push_line_at<T: InsnTable>(
    alloc: Global,
    text: &mut Bytes,
    elf: &Elf,
    at: u64,
) -> Result<Option<u64>, OutOfMemory>
    ensures text { let code = file_code elf.now.bytes in
        OnOk result (text.new ≡ text.old ++ line_of (spelled_at (decoded T.rows) code at) (code at) at) }
    ensures next { let spelled = spelled_at (decoded T.rows) (file_code elf.now.bytes) at in
        IfOk result (λ next. next ≡ next_of spelled at) }
{
    let mut bytes = [0; 15];
    let count = code_at(elf, at, &mut bytes);
    let bytes = &bytes[..count as usize];
    let spelled = decode::<T>(bytes, at);
    push_line(alloc, text, at, bytes, &spelled)?;
    match spelled {
        Decoded::Insn { len, .. } => Ok(Some(at.wrapping_add(len as u64))),
        Decoded::Short | Decoded::Unknown => Ok(None),
    }
}

// Appends the line of an address, of what stands at the front of its bytes.
fn push_line(
    alloc: Global,
    text: &mut Bytes,
    at: u64,
    bytes: &[u8],
    spelled: &Decoded,
) -> Result<(), OutOfMemory>
    requires { IsWithin spelled.now (length bytes.now) }
    ensures { OnOk result (text.new ≡ text.old ++ line_of spelled.now bytes.now at) }
{
    match spelled {
        Decoded::Insn { insn, len } => {
            let line = line(alloc, at, &bytes[..*len as usize], insn)?;
            text.push_all(line.as_slice())?;
            text.push(b'\n')
        }
        Decoded::Short => {
            let line = format!(in alloc; "0x{at:x} short\n")?;
            text.push_all(line.as_bytes())
        }
        Decoded::Unknown => {
            let line = format!(in alloc; "0x{at:x} unknown\n")?;
            text.push_all(line.as_bytes())
        }
    }
}
