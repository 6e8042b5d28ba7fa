// The faults of a file as a whole.

ghost use Rattle.std.specs.Prelude.{◌≡◌, ◌+◌, ◌*◌, ◌≤◌, ◌<◌, drop, length, Some, None};
ghost use Rattle.rz_elf.specs.Elf.{field, file_header, file_conditions, first_of as first_fault};

use crate::fault::ElfFault;
use crate::format::{CURRENT, EXECUTABLE, X86_64};
use crate::header::{FileHeader, HEADER_SIZE, read_header};
use crate::segment::SEGMENT_SIZE;

// The most bytes of a file.
const MOST_BYTES: usize = 67_108_864;

// The most program headers.
const MOST_HEADERS: u16 = 64;

// The first bytes of every file, and the bytes of the class, the order of bytes and the version.
const MAGIC: [u8; 4] = [0x7f, b'E', b'L', b'F'];

const CLASS: usize = 4;

const ORDER: usize = 5;

const VERSION: usize = 6;

// ELFCLASS64 and ELFDATA2LSB.
const CLASS_64: u8 = 2;

const LOW_BYTE_FIRST: u8 = 1;

/// The first fault of a file as a whole.
pub fn file_fault(file: &[u8]) -> Option<ElfFault>
    ensures { result ≡ first_fault (file_conditions file.now) }
{
    if file.len() > MOST_BYTES {
        return Some(ElfFault::Long);
    }
    if file.len() < HEADER_SIZE {
        return Some(ElfFault::Short);
    }
    field_fault(file, &read_header(file))
}

// The first fault of the header's fields.
fn field_fault(file: &[u8], header: &FileHeader) -> Option<ElfFault>
    requires whole { 64 ≤ length file.now }
    requires header { header.now ≡ file_header file.now }
    ensures { result ≡ first_fault (drop 2 (file_conditions file.now)) }
{
    let version = byte(file, VERSION) != CURRENT || header.version != u32::from(CURRENT);
    let count = header.count == 0 || header.count > MOST_HEADERS;
    first_of(&[
        (!file.starts_with(&MAGIC), ElfFault::Magic),
        (byte(file, CLASS) != CLASS_64, ElfFault::Class),
        (byte(file, ORDER) != LOW_BYTE_FIRST, ElfFault::Data),
        (version, ElfFault::Version),
        (header.file_type != EXECUTABLE, ElfFault::FileType),
        (header.machine != X86_64, ElfFault::Machine),
        (
            usize::from(header.header_size) != HEADER_SIZE,
            ElfFault::HeaderSize,
        ),
        (
            usize::from(header.entry_size) != SEGMENT_SIZE,
            ElfFault::EntrySize,
        ),
        (count, ElfFault::Count),
        (table_end(header) > file.len() as u128, ElfFault::TableRange),
    ])
}

// Where the program headers end in the file.
fn table_end(header: &FileHeader) -> u128
    ensures { result ≡ header.now.table_at + 56 * header.now.count }
{
    u128::from(header.table_at) + SEGMENT_SIZE as u128 * u128::from(header.count)
}

// The byte at a place.
fn byte(file: &[u8], at: usize) -> u8
    requires { at < length file.now }
    ensures { result ≡ field file.now at 1 }
{
    file[at]
}

/// The first fault whose condition holds.
pub fn first_of(conditions: &[(bool, ElfFault)]) -> Option<ElfFault>
    ensures { result ≡ first_fault conditions.now }
{
    for (holds, fault) in conditions {
        if *holds {
            return Some(*fault);
        }
    }
    None
}
