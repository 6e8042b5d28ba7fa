// The header page of a generated file.

ghost use Rattle.std.specs.Prelude.{◌≡◌, ◌++◌, OnOk};
ghost use Rattle.rz_gen.specs.Generated.{code_segment, header_bytes, header_page};

use crate::bytes::push_filling;
use crate::places::CODE_AT;
use rz_elf::header::HEADER_SIZE;
use rz_elf::segment::{SEGMENT_SIZE, Segment};
use rz_num::{OutOfMemory, push_u16, push_u32, push_u64};

// The bytes of the header page.
const PAGE: u64 = 4096;

// ELF, 64 bits, low byte first, version 1, System V.
const IDENTITY: [u8; 16] = *b"\x7fELF\x02\x01\x01\0\0\0\0\0\0\0\0\0";

// ET_EXEC, EM_X86_64 and EV_CURRENT.
const EXECUTABLE: u16 = 2;

const X86_64: u16 = 62;

const CURRENT: u32 = 1;

// PT_LOAD.
const LOAD: u32 = 1;

// PF_R and PF_X.
const READ_EXECUTE: u32 = 5;

/// Appends a page with the headers of a file that has `size` bytes of code.
pub fn push_header_page(out: &mut Vec<u8>, size: u64) -> Result<(), OutOfMemory>
    ensures { OnOk result (out.new.items ≡ out.old.items ++ header_page size) }
{
    push_file_header(out)?;
    code_segment(size).push(out)?;
    push_filling(out, 0, PAGE as usize - (HEADER_SIZE + SEGMENT_SIZE))?;
    Ok(())
}

// Appends the file header.
fn push_file_header(out: &mut Vec<u8>) -> Result<(), OutOfMemory>
    ensures { OnOk result (out.new.items ≡ out.old.items ++ header_bytes) }
{
    out.extend_from_slice(&IDENTITY)?;
    push_u16(out, EXECUTABLE)?;
    push_u16(out, X86_64)?;
    push_u32(out, CURRENT)?;
    push_u64(out, CODE_AT as u64)?;
    push_u64(out, HEADER_SIZE as u64)?;
    push_u64(out, 0)?;
    push_u32(out, 0)?;
    push_u16(out, HEADER_SIZE as u16)?;
    push_u16(out, SEGMENT_SIZE as u16)?;
    push_u16(out, 1)?;
    push_u16(out, 0)?;
    push_u16(out, 0)?;
    push_u16(out, 0)?;
    Ok(())
}

// The load of the code.
fn code_segment(size: u64) -> Segment
    ensures { result ≡ code_segment size }
{
    Segment {
        kind: LOAD,
        flags: READ_EXECUTE,
        offset: PAGE,
        vaddr: CODE_AT as u64,
        paddr: CODE_AT as u64,
        filesz: size,
        memsz: size,
        align: PAGE,
    }
}
