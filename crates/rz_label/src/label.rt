//! Labels written files.

ghost use Rattle.std.specs.Prelude.{◌≡◌, ◌≢◌, ◌+◌, ◌≤◌, ◌++◌, false, nat_lt, ◌&&◌, length, None, IfOk, OnOk};
ghost use Rattle.std.specs.List.{list_any};
ghost use Rattle.rz_image.specs.Memory.{zeros};
ghost use Rattle.rz_elf.specs.Elf.{fault_of, image_of};
ghost use Rattle.rz_elf.specs.Loaded.{IsRead, elf_of};
ghost use Rattle.rz_elf.specs.Stamped.{stamp_of};
ghost use Rattle.rz_label.specs.Labelled.{headers_at as headers_place, labelled, labelled_len as len_of, load_maps_header, maps_header, names_at as names_place, names_behind, round_up as rounded, with_sections_at};

use crate::sections::{COUNT, NAMES, NAMES_NUMBER, SECTION_SIZE, push_sections};
use rz_elf::elf::{Elf, Load};
use rz_elf::header::{HEADER_SIZE, read_header};
use rz_num::{Bytes, OutOfMemory, push_u16, push_u64};
use std::alloc::Global;

// Where `e_shoff`, the fields behind it, and `e_shentsize` stand in the file header, in bytes.
const SECTIONS_AT: usize = 40;

const FLAGS: usize = 48;

const SECTION_ENTRY: usize = 58;

/// The labelled file of a written file: it with sections `.razor.scratch`, `.razor.tables`, `.razor.code` and
/// `.razor.stubs` for its first four loads. Nothing else of the file header changes, and what is new stands behind the file.
/// It is accepted, stamped as the file is, and loads what the file loads. It refuses for want of memory alone.
pub fn label(alloc: Global, new: &Elf) -> Result<Bytes, OutOfMemory>
    requires stamped { stamp_of new.now ≢ None }
    requires unmapped { maps_header new.now ≡ false }
    requires short { len_of (length new.now.bytes) ≤ 67108864 }
    ensures bytes { IfOk result (λ file. file ≡ labelled new.now) }
    ensures length { IfOk result (λ file. length file ≡ len_of (length new.now.bytes)) }
    ensures accepted { IfOk result (λ file. fault_of file ≡ None) }
    ensures stamped { IfOk result (λ file. stamp_of (elf_of file) ≡ stamp_of new.now) }
    ensures image { IfOk result (λ file. image_of file ≡ image_of new.now.bytes) }
{
    let size = labelled_len(new) as usize;
    let mut out = Vec::with_capacity(alloc, size)?;
    push_labelled(&mut out, new)?;
    Ok(Bytes::from_vec(out))
}

// Appends the labelled file.
fn push_labelled(out: &mut Vec<u8>, new: &Elf) -> Result<(), OutOfMemory>
    ensures bytes { OnOk result (out.new.items ≡ out.old.items ++ labelled new.now) }
    ensures read { OnOk result (IsRead new.now) }
{
    let file = new.bytes.as_slice();
    let len = file.len();
    push_with_sections_at(out, file, headers_at(len) as u64)?;
    push_names(out, len)?;
    push_sections(out, new.loads.as_slice(), names_at(len) as u64)?;
    Ok(())
}

// Appends what stands between a file of so many bytes and the section headers.
fn push_names(out: &mut Vec<u8>, len: usize) -> Result<(), OutOfMemory>
    requires { len ≤ 67108864 }
    ensures { OnOk result (out.new.items ≡ out.old.items ++ names_behind len) }
{
    let names_at = names_at(len);
    push_zeros(out, names_at - len)?;
    out.extend_from_slice(&NAMES)?;
    push_zeros(out, headers_at(len) - (names_at + NAMES.len()))?;
    Ok(())
}

/// How many bytes the labelled file has.
pub fn labelled_len(new: &Elf) -> u64
    ensures { result ≡ len_of (length new.now.bytes) }
{
    (headers_at(new.bytes.as_slice().len()) + SECTION_SIZE * COUNT) as u64
}

/// Whether the program headers or a load have bytes of the file header, so that a change of it could change what is loaded.
pub fn maps_header(new: &Elf) -> bool
    ensures { result ≡ maps_header new.now }
{
    let header = read_header(new.bytes.as_slice());
    header.table_at < HEADER_SIZE as u64 || has_header(new.loads.as_slice())
}

// Whether a load has bytes of the file header.
fn has_header(loads: &[Load]) -> bool
    ensures { result ≡ list_any load_maps_header loads.now }
{
    loads.iter().any(|load| load_has_header(load))
}

fn load_has_header(load: &Load) -> bool
    ensures { result ≡ load_maps_header load.now }
{
    load.file_size > 0 && load.file_at < HEADER_SIZE as u64
}

// Where the names begin in the labelled file of so many bytes.
fn names_at(len: usize) -> usize
    requires { len ≤ 67108864 }
    ensures { result ≡ names_place len }
{
    round_up(len)
}

// Where the section headers begin.
fn headers_at(len: usize) -> usize
    requires { len ≤ 67108864 }
    ensures { result ≡ headers_place len }
{
    round_up(names_at(len) + NAMES.len())
}

// A place, rounded up to a multiple of 8.
fn round_up(n: usize) -> usize
    requires { n ≤ 68000000 }
    ensures { result ≡ rounded n }
{
    (n + 7) / 8 * 8
}

// Appends a file whose header says that the section headers begin at a place.
fn push_with_sections_at(out: &mut Vec<u8>, file: &[u8], at: u64) -> Result<(), OutOfMemory>
    requires { 64 ≤ length file.now }
    ensures { OnOk result (out.new.items ≡ out.old.items ++ with_sections_at file.now at) }
{
    out.extend_from_slice(&file[..SECTIONS_AT])?;
    push_u64(out, at)?;
    out.extend_from_slice(&file[FLAGS..SECTION_ENTRY])?;
    push_u16(out, SECTION_SIZE as u16)?;
    push_u16(out, COUNT as u16)?;
    push_u16(out, NAMES_NUMBER)?;
    out.extend_from_slice(&file[HEADER_SIZE..])?;
    Ok(())
}

// Appends fewer than eight zeros.
fn push_zeros(out: &mut Vec<u8>, count: usize) -> Result<(), OutOfMemory>
    requires { count ≤ 7 }
    ensures { OnOk result (out.new.items ≡ out.old.items ++ zeros count) }
{
    let len = out.len();
    out.resize(len + count, 0)?;
    Ok(())
}
