//! Reads files.

ghost use Rattle.std.specs.Prelude.{◌≡◌, ◌+◌, ◌<◌, ◌≤◌, filter, map, IfOk, IfErr, None, Some};
ghost use Rattle.std.specs.List.{AllByRecursion};
ghost use Rattle.rz_elf.specs.Elf.{fault_of, file_header, highest_end as highest_of, image_of, placed};
ghost use Rattle.rz_elf.specs.Loaded.{elf_of, is_load_header, load_of, loaded, IsCause, IsLow};

use crate::elf::{Elf, Load, Loads};
use crate::fault::ElfError;
use crate::file_faults::file_fault;
use crate::header::read_header;
use crate::header_faults::header_fault;
use crate::load_faults::load_fault;
use crate::placed::{Placed, loads_among, read_placed};
use rz_image::perm::Perm;
use rz_num::{Bytes, OutOfMemory, page_up};
use std::alloc::Global;

/// Reads a file: what it loads where it is accepted, and else its first fault. Or there is no memory.
pub fn read_elf(alloc: Global, bytes: Bytes) -> Result<Elf, ElfError>
    ensures accepted { IfOk result (λ elf. fault_of bytes ≡ None) }
    ensures elf { IfOk result (λ elf. elf ≡ elf_of bytes) }
    ensures image { IfOk result (λ elf. loaded elf ≡ image_of bytes) }
    ensures fault { IfErr result (IsCause bytes) }
{
    let file = bytes.as_slice();
    if let Some(fault) = file_fault(file) {
        return Err(ElfError::Fault(fault));
    }
    let header = read_header(file);
    let headers = read_placed(alloc, file, &header)?;
    if let Some(fault) = header_fault(file.len() as u64, headers.as_slice()) {
        return Err(ElfError::Fault(fault));
    }
    let loads = loads_among(alloc, headers.as_slice())?;
    if let Some(fault) = load_fault(header.entry, loads.as_slice()) {
        return Err(ElfError::Fault(fault));
    }
    Ok(keep(alloc, bytes, header.entry, loads.as_slice())?)
}

// What is read of an accepted file with an entry and loads.
fn keep(alloc: Global, bytes: Bytes, entry: u64, loads: &[Placed]) -> Result<Elf, OutOfMemory>
    requires accepted { fault_of bytes ≡ None }
    requires entry { entry ≡ (file_header bytes).entry }
    requires loads { loads.now ≡ filter is_load_header (placed bytes) }
    ensures elf { IfOk result (λ elf. elf ≡ elf_of bytes) }
    ensures image { IfOk result (λ elf. loaded elf ≡ image_of bytes) }
{
    let first_break = page_up(highest_end(loads));
    let loads = kept_loads(alloc, loads)?;
    Ok(Elf {
        bytes,
        loads,
        entry,
        first_break,
    })
}

// Where the highest load ends.
fn highest_end(loads: &[Placed]) -> u64
    requires { AllByRecursion IsLow loads.now }
    ensures value { result ≡ highest_of (map (λ p. p.segment) loads.now) }
    ensures low { result ≤ 0x70000000 }
{
    let mut highest = 0;
    for load in loads {
        highest = highest.max(load.segment.vaddr + load.segment.memsz);
    }
    highest
}

// What is kept of each load.
fn kept_loads(alloc: Global, loads: &[Placed]) -> Result<Loads, OutOfMemory>
    ensures { IfOk result (λ kept. kept ≡ map load_of loads.now) }
{
    let mut items = Vec::new(alloc);
    for load in loads {
        items.push(kept_load(load))?;
    }
    Ok(Loads::from_vec(items))
}

fn kept_load(load: &Placed) -> Load
    ensures { result ≡ load_of load.now }
{
    let segment = &load.segment;
    Load {
        at: segment.vaddr,
        size: segment.memsz,
        file_at: segment.offset,
        file_size: segment.filesz,
        align: segment.align,
        perm: Perm::of_flags(segment.flags),
        index: load.index,
    }
}
