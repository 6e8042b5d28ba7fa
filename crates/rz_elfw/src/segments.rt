// The program headers of a written file: those of the added loads, and those that are kept of the original.

ghost use Rattle.std.specs.Prelude.{◌≡◌, ◌+◌, ◌*◌, ◌^◌, ◌<◌, ◌≤◌, ◌||◌, ◌++◌, true, drop, length, IfOk, OnOk};
ghost use Rattle.rz_num.specs.Page.{page_up};
ghost use Rattle.rz_elf.specs.Elf.{is_load, is_stack, segment_of};
ghost use Rattle.rz_elf.specs.Room.{parts_end, parts_size};
ghost use Rattle.rz_elf.specs.WrittenFile.{added_segment, added_segments, kept_segments, moved, new_segments};

use crate::parts::Parts;
use rz_elf::elf::Elf;
use rz_elf::format::LOAD;
use rz_elf::header::{FileHeader, read_header};
use rz_elf::segment::{SEGMENT_SIZE, Segment};
use rz_num::{OutOfMemory, page_up};
use std::alloc::Global;

// The bytes of a page, of the header page and of the scratch page.
const PAGE: u64 = 4096;

// PF_X, PF_W and PF_R.
const EXECUTE: u32 = 1;

const WRITE: u32 = 2;

const READ: u32 = 4;

/// The program headers of the new file. It refuses for want of memory alone.
pub fn new_segments(alloc: Global, elf: &Elf, parts: &Parts) -> Result<Vec<Segment>, OutOfMemory>
    requires low { parts_end parts.now ≤ 0x70000000 }
    requires short { 4096 + page_up (length elf.now.bytes) + parts_size parts.now ≤ 67108864 }
    ensures { IfOk result (λ segments. segments.items ≡ new_segments elf.now.bytes parts.now) }
{
    let offset = PAGE + page_up(elf.bytes.as_slice().len() as u64);
    let mut segments = Vec::from_slice(alloc, &added_segments(offset, parts))?;
    push_kept(&mut segments, elf)?;
    Ok(segments)
}

// The four added loads: scratch, tables, code and stubs. The tables stand at `offset` in the file.
fn added_segments(offset: u64, parts: &Parts) -> [Segment; 4]
    requires low { parts_end parts.now ≤ 0x70000000 }
    requires short { offset + parts_size parts.now ≤ 67108864 }
    ensures { result ≡ added_segments offset parts.now }
{
    let tables_len = parts.tables.as_slice().len() as u64;
    let code_len = parts.code.as_slice().len() as u64;
    let stubs_len = parts.stubs.as_slice().len() as u64;
    let tables = parts.base + PAGE;
    let code = tables + tables_len;
    let stubs = code + code_len;
    let code_offset = offset + tables_len;
    let stubs_offset = code_offset + code_len;
    [
        added_segment(READ | WRITE, 0, parts.base, 0, PAGE),
        added_segment(READ, offset, tables, tables_len, tables_len),
        added_segment(READ | EXECUTE, code_offset, code, code_len, code_len),
        added_segment(READ | EXECUTE, stubs_offset, stubs, stubs_len, stubs_len),
    ]
}

// A load at an address, with the offset and the size of its bytes in the file.
fn added_segment(flags: u32, offset: u64, at: u64, filesz: u64, memsz: u64) -> Segment
    ensures { result ≡ added_segment flags offset at filesz memsz }
{
    Segment {
        kind: LOAD,
        flags,
        offset,
        vaddr: at,
        paddr: at,
        filesz,
        memsz,
        align: PAGE,
    }
}

// Appends what is kept of the original's program headers.
fn push_kept(segments: &mut Vec<Segment>, elf: &Elf) -> Result<(), OutOfMemory>
    ensures { OnOk result (segments.new.items ≡ segments.old.items ++ kept_segments elf.now.bytes) }
{
    let file = elf.bytes.as_slice();
    let header = read_header(file);
    for index in 0..header.count {
        let segment = segment_at(file, &header, index);
        if is_kept(&segment) {
            segments.push(moved(segment))?;
        }
    }
    Ok(())
}

/// How many program headers of a file are kept.
pub fn kept_count(elf: &Elf) -> u64
    ensures value { result ≡ length (kept_segments elf.now.bytes) }
    ensures few { result ≤ 64 }
{
    let file = elf.bytes.as_slice();
    let header = read_header(file);
    let mut count = 0;
    for index in 0..header.count {
        if is_kept(&segment_at(file, &header, index)) {
            count += 1;
        }
    }
    count
}

// The program header of a number, from 0.
fn segment_at(file: &[u8], header: &FileHeader, index: u16) -> Segment
    requires inside { header.now.table_at + 56 * header.now.count ≤ length file.now }
    requires index { index < header.now.count }
    ensures { result ≡ segment_of (drop (header.now.table_at + 56 * index) file.now) }
{
    let at = header.table_at as usize + SEGMENT_SIZE * index as usize;
    Segment::read(&file[at..])
}

// Whether a program header of the original is kept: a load, or what says how the stack may be used.
fn is_kept(segment: &Segment) -> bool
    ensures { result ≡ (is_load segment.now || is_stack segment.now) }
{
    segment.is_load() || segment.is_stack()
}

// A kept program header in the new file: a load stands a page further on, and may not be executed.
fn moved(segment: Segment) -> Segment
    requires { is_load segment ≡ true → segment.offset + 4096 < 2 ^ 64 }
    ensures { result ≡ moved segment }
{
    if segment.is_load() {
        Segment {
            flags: segment.flags & !EXECUTE,
            offset: segment.offset + PAGE,
            align: segment.align.min(PAGE),
            ..segment
        }
    } else {
        segment
    }
}
