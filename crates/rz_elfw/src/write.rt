//! The written file.

ghost use Rattle.std.specs.Prelude.{◌≡◌, ◌++◌, IfOk, OnOk, Some, None};
ghost use Rattle.rz_elf.specs.Elf.{fault_of, image_of};
ghost use Rattle.rz_elf.specs.Format.{stamp_number};
ghost use Rattle.rz_elf.specs.Loaded.{elf_of};
ghost use Rattle.rz_elf.specs.Room.{ArePages, IsInCode, extent_of, no_room, parts_end, parts_size};
ghost use Rattle.rz_elf.specs.Stamped.{stamp_of};
ghost use Rattle.rz_elf.specs.WrittenFile.{new_image, written_file};

use crate::header_page::{PAGE, push_header_page, push_zeros};
use crate::parts::Parts;
use crate::segments::new_segments;
use rz_elf::elf::Elf;
use rz_num::{Bytes, OutOfMemory, page_up};
use std::alloc::Global;

/// The written file of an original with the added parts and an entry: a header page of 4096 bytes, the original whole,
/// zeros up to a page, and the bytes of the tables, the code and the stubs. It is an accepted and stamped file. What it loads
/// are the original's loads, none of them executable, and the four added ones. It refuses for want of memory alone.
pub fn write_elf(alloc: Global, elf: &Elf, parts: &Parts, entry: u64) -> Result<Bytes, OutOfMemory>
    requires pages { ArePages parts.now }
    requires below { parts_end parts.now ≡ (extent_of elf.now.bytes).floor }
    requires entry { IsInCode parts.now entry }
    requires room { no_room (extent_of elf.now.bytes) (parts_size parts.now) ≡ None }
    ensures file { IfOk result (λ w. w ≡ written_file elf.now.bytes parts.now entry) }
    ensures accepted { IfOk result (λ w. fault_of w ≡ None) }
    ensures stamped { IfOk result (λ w. stamp_of (elf_of w) ≡ Some stamp_number) }
    ensures image { IfOk result (λ w. image_of w ≡ new_image (image_of elf.now.bytes) parts.now entry) }
{
    let file = elf.bytes.as_slice();
    let segments = new_segments(alloc, elf, parts)?;
    let filler = page_up(file.len() as u64) as usize - file.len();
    let tables = parts.tables.as_slice().len();
    let code = parts.code.as_slice().len();
    let stubs = parts.stubs.as_slice().len();
    let size = PAGE + file.len() + filler + tables + code + stubs;
    let mut out = Vec::with_capacity(alloc, size)?;
    push_header_page(&mut out, segments.as_slice(), entry)?;
    out.extend_from_slice(file)?;
    push_zeros(&mut out, filler)?;
    push_parts(&mut out, parts)?;
    Ok(Bytes::from_vec(out))
}

// Appends the bytes of the tables, the code and the stubs.
fn push_parts(out: &mut Vec<u8>, parts: &Parts) -> Result<(), OutOfMemory>
    ensures { OnOk result
        (out.new.items ≡ out.old.items ++ (parts.now.tables ++ (parts.now.code ++ parts.now.stubs))) }
{
    out.extend_from_slice(parts.tables.as_slice())?;
    out.extend_from_slice(parts.code.as_slice())?;
    out.extend_from_slice(parts.stubs.as_slice())?;
    Ok(())
}
