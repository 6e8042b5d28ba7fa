// The header page of a written file.

ghost use Rattle.std.specs.Prelude.{◌≡◌, ◌≤◌, ◌++◌, length, OnOk};
ghost use Rattle.rz_image.specs.Memory.{zeros};
ghost use Rattle.rz_elf.specs.WrittenFile.{header_bytes, header_page};

use rz_elf::format::{CURRENT, EXECUTABLE, STAMP, X86_64};
use rz_elf::header::HEADER_SIZE;
use rz_elf::segment::{SEGMENT_SIZE, Segment};
use rz_num::{OutOfMemory, push_u16, push_u32, push_u64};

/// The bytes of the header page.
pub const PAGE: usize = 4096;

// ELF, 64 bits, low byte first, version 1, System V. The stamp stands behind it.
const IDENTITY: [u8; 9] = *b"\x7fELF\x02\x01\x01\0\0";

// The bytes of a section header.
const SECTION_SIZE: u16 = 64;

/// Appends a page with the file header and the program headers.
pub fn push_header_page(
    out: &mut Vec<u8>,
    segments: &[Segment],
    entry: u64,
) -> Result<(), OutOfMemory>
    requires { length segments.now ≤ 64 }
    ensures { OnOk result (out.new.items ≡ out.old.items ++ header_page segments.now entry) }
{
    let count = segments.len();
    push_file_header(out, entry, count as u16)?;
    for segment in segments {
        segment.push(out)?;
    }
    push_zeros(out, PAGE - (HEADER_SIZE + SEGMENT_SIZE * count))?;
    Ok(())
}

// Appends the file header of an executable for x86-64 without sections.
fn push_file_header(out: &mut Vec<u8>, entry: u64, count: u16) -> Result<(), OutOfMemory>
    ensures { OnOk result (out.new.items ≡ out.old.items ++ header_bytes entry count) }
{
    out.extend_from_slice(&IDENTITY)?;
    out.extend_from_slice(&STAMP)?;
    push_u16(out, EXECUTABLE)?;
    push_u16(out, X86_64)?;
    push_u32(out, CURRENT as u32)?;
    push_u64(out, entry)?;
    push_u64(out, HEADER_SIZE as u64)?;
    push_u64(out, 0)?;
    push_u32(out, 0)?;
    push_u16(out, HEADER_SIZE as u16)?;
    push_u16(out, SEGMENT_SIZE as u16)?;
    push_u16(out, count)?;
    push_u16(out, SECTION_SIZE)?;
    push_u16(out, 0)?;
    push_u16(out, 0)?;
    Ok(())
}

/// Appends zeros, at most a page of them.
pub fn push_zeros(out: &mut Vec<u8>, count: usize) -> Result<(), OutOfMemory>
    requires { count ≤ 4096 }
    ensures { OnOk result (out.new.items ≡ out.old.items ++ zeros count) }
{
    let len = out.len();
    out.resize(len + count, 0)?;
    Ok(())
}
