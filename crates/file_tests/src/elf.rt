// What no clause says: worked files, each by its change to one that is accepted, and that reading succeeds.

use rz_elf::code::code_at;
use rz_elf::elf::Elf;
use rz_elf::fault::{ElfError, ElfFault};
use rz_elf::read::read_elf;
use rz_elf::room::{Extent, Room};
use rz_num::{Bytes, OutOfMemory};
use std::alloc::Global;
use std::test::Fail;

// The headers of a file with one load of 37 bytes of code at 0x401000, at offset 4096.
const HEADERS: [u8; 120] = [
    0x7f, 0x45, 0x4c, 0x46, 2, 1, 1, 0, 0, 0, 0, 0, 0, 0, 0, 0, 2, 0, 0x3e, 0, 1, 0, 0, 0, 0, 0x10,
    0x40, 0, 0, 0, 0, 0, 0x40, 0, 0, 0, 0, 0, 0, 0, 0, 0, 0, 0, 0, 0, 0, 0, 0, 0, 0, 0, 0x40, 0,
    0x38, 0, 1, 0, 0, 0, 0, 0, 0, 0, 1, 0, 0, 0, 5, 0, 0, 0, 0, 0x10, 0, 0, 0, 0, 0, 0, 0, 0x10,
    0x40, 0, 0, 0, 0, 0, 0, 0x10, 0x40, 0, 0, 0, 0, 0, 37, 0, 0, 0, 0, 0, 0, 0, 37, 0, 0, 0, 0, 0,
    0, 0, 0, 0x10, 0, 0, 0, 0, 0, 0,
];

const CODE: [u8; 37] = [
    0xb8, 1, 0, 0, 0, 0xbf, 1, 0, 0, 0, 0xbe, 0x22, 0x10, 0x40, 0, 0xba, 3, 0, 0, 0, 0x0f, 0x05,
    0xbf, 0, 0, 0, 0, 0xb8, 0x3c, 0, 0, 0, 0x0f, 0x05, 0x68, 0x69, 0x0a,
];

// Where the fields stand: of the file header, and of the first two program headers.
const FILE_TYPE: usize = 16;

const ENTRY: usize = 24;

const TABLE_AT: usize = 32;

const COUNT: usize = 56;

const FLAGS: usize = 68;

const OFFSET: usize = 72;

const ADDRESS: usize = 80;

const FILE_SIZE: usize = 96;

const SIZE: usize = 104;

const ALIGNMENT: usize = 112;

const SECOND: usize = 120;

// A field's place in the file, its number, and the bytes of it.
type Field = (usize, u64, usize);

fn changed(alloc: Global, fields: &[Field]) -> Result<Bytes, OutOfMemory> {
    let mut file = Vec::from_slice(alloc, &HEADERS)?;
    file.resize(4096, 0)?;
    file.extend_from_slice(&CODE)?;
    for (at, number, size) in fields {
        put(&mut file, *at, &number.to_le_bytes(), *size);
    }
    Ok(Bytes::from_vec(file))
}

fn put(file: &mut Vec<u8>, at: usize, bytes: &[u8], size: usize) {
    for (place, byte) in file.iter_mut().skip(at).zip(bytes.iter().take(size)) {
        *place = *byte;
    }
}

// The first bytes of the file.
fn cut(alloc: Global, len: usize) -> Result<Bytes, OutOfMemory> {
    let file = changed(alloc, &[])?;
    let mut start = Bytes::new(alloc);
    for byte in file.as_slice().iter().take(len) {
        start.push(*byte)?;
    }
    Ok(start)
}

// The fields of a second program header: type, flags, offset, address, sizes and alignment.
fn second(kind: u64, flags: u64, at: u64, size: u64) -> [Field; 7] {
    [
        (COUNT, 2, 2),
        (SECOND, kind, 4),
        (SECOND + 4, flags, 4),
        (SECOND + 16, at, 8),
        (SECOND + 24, at, 8),
        (SECOND + 40, size, 8),
        (SECOND + 48, 1, 8),
    ]
}

fn fault(alloc: Global, file: Bytes) -> Option<ElfError> {
    read_elf(alloc, file).err()
}

fn refused(fault: ElfFault) -> Option<ElfError> {
    Some(ElfError::Fault(fault))
}

#[test]
fn the_file_is_read(rt: HostRuntime) -> Result<(), Fail> {
    let elf = read_elf(rt.alloc(), changed(rt.alloc(), &[])?)?;
    assert_eq!(rt; elf.entry, 0x40_1000);
    assert_eq!(rt; elf.first_break, 0x40_2000);
    let loads = elf.loads.as_slice();
    assert_eq!(rt; loads.len(), 1);
    assert_eq!(rt;
        (loads[0].at, loads[0].size, loads[0].file_at),
        (0x40_1000, 37, 4096)
    );
    Ok(())
}

#[test]
fn cut_files_are_refused(rt: HostRuntime) -> Result<(), Fail> {
    for len in 0..64 {
        assert_eq!(rt;
            fault(rt.alloc(), cut(rt.alloc(), len)?),
            refused(ElfFault::Short)
        );
    }
    for len in 64..120 {
        assert_eq!(rt;
            fault(rt.alloc(), cut(rt.alloc(), len)?),
            refused(ElfFault::TableRange)
        );
    }
    for len in 120..4133 {
        assert_eq!(rt;
            fault(rt.alloc(), cut(rt.alloc(), len)?),
            refused(ElfFault::FileRange(0))
        );
    }
    Ok(())
}

#[test]
fn changed_files_are_refused(rt: HostRuntime) -> Result<(), Fail> {
    for (field, expected) in [
        ((COUNT, 65, 2), ElfFault::Count),
        ((TABLE_AT, u64::MAX, 8), ElfFault::TableRange),
        ((FILE_SIZE, u64::MAX, 8), ElfFault::SizeOrder(0)),
        ((SIZE, u64::MAX, 8), ElfFault::Address(0)),
        ((OFFSET, u64::MAX - 4095, 8), ElfFault::FileRange(0)),
        ((ALIGNMENT, 3, 8), ElfFault::Align(0)),
        ((ADDRESS, 0xffff_ffff_ffff_f000, 8), ElfFault::Address(0)),
        ((ADDRESS, 0x6fff_f000, 8), ElfFault::Entry),
        ((FLAGS, 7, 4), ElfFault::WritableCode(0)),
    ] {
        assert_eq!(rt;
            fault(rt.alloc(), changed(rt.alloc(), &[field])?),
            refused(expected),
            "{field:?}"
        );
    }
    Ok(())
}

#[test]
fn second_headers_are_refused(rt: HostRuntime) -> Result<(), Fail> {
    for (fields, expected) in [
        (second(1, 6, 0x40_1800, 16), ElfFault::SharedPage(1)),
        (second(1, 6, 0x40_0000, 16), ElfFault::Order(1)),
        (second(0x6474_e551, 7, 0, 0), ElfFault::StackCode(1)),
        (second(3, 4, 0, 0), ElfFault::Dynamic(1)),
    ] {
        assert_eq!(rt;
            fault(rt.alloc(), changed(rt.alloc(), &fields)?),
            refused(expected)
        );
    }
    Ok(())
}

#[test]
fn the_earlier_fault_wins(rt: HostRuntime) -> Result<(), Fail> {
    for (first, second, expected) in [
        ((FILE_TYPE, 3, 2), (COUNT, 65, 2), ElfFault::FileType),
        ((ALIGNMENT, 3, 8), (FLAGS, 7, 4), ElfFault::WritableCode(0)),
        ((ENTRY, 0, 8), (SIZE, 268_435_457, 8), ElfFault::TotalSize),
    ] {
        assert_eq!(rt;
            fault(rt.alloc(), changed(rt.alloc(), &[first, second])?),
            refused(expected)
        );
    }
    Ok(())
}

#[test]
fn loads_reach_the_last_address(rt: HostRuntime) -> Result<(), Fail> {
    let last = [
        (ADDRESS, 0x6fff_f000, 8),
        (ENTRY, 0x6fff_f000, 8),
        (SIZE, 4096, 8),
    ];
    let elf = read_elf(rt.alloc(), changed(rt.alloc(), &last)?)?;
    assert_eq!(rt; elf.first_break, 0x7000_0000);
    let past = [
        (ADDRESS, 0x6fff_f000, 8),
        (ENTRY, 0x6fff_f000, 8),
        (SIZE, 4097, 8),
    ];
    assert_eq!(rt;
        fault(rt.alloc(), changed(rt.alloc(), &past)?),
        refused(ElfFault::Address(0))
    );
    Ok(())
}

#[test]
fn many_headers_are_read(rt: HostRuntime) -> Result<(), Fail> {
    let mut file = changed(rt.alloc(), &[(COUNT, 64, 2)])?.into_vec();
    for header in 1..64 {
        put(
            &mut file,
            64 + 56 * header,
            &0x6474_e551u32.to_le_bytes(),
            4,
        );
        put(&mut file, 68 + 56 * header, &[6], 1);
    }
    let elf = read_elf(rt.alloc(), Bytes::from_vec(file))?;
    assert_eq!(rt; elf.loads.as_slice().len(), 1);
    Ok(())
}

#[test]
fn code_ends_in_zeros(rt: HostRuntime) -> Result<(), Fail> {
    let elf = read_elf(rt.alloc(), changed(rt.alloc(), &[(SIZE, 40, 8)])?)?;
    let mut out = [0xff; 15];
    assert_eq!(rt; code_at(&elf, 0x40_1023, &mut out), 5);
    assert_eq!(rt; &out[..5], [0x69, 0x0a, 0, 0, 0].as_slice());
    assert_eq!(rt; code_at(&elf, 0x40_1028, &mut out), 0);
    Ok(())
}

#[test]
fn room_ends_where_the_limits_are(rt: HostRuntime) -> Result<(), Fail> {
    let small = Extent {
        floor: 0x1_4000,
        headers: 1,
        bytes: 4133,
        memory: 37,
    };
    for (extent, expected) in [
        (small, None),
        (
            Extent {
                floor: 0x1_3000,
                ..small
            },
            Some(Room::Low),
        ),
        (
            Extent {
                floor: 0x1_3000,
                headers: 61,
                ..small
            },
            Some(Room::Low),
        ),
        (
            Extent {
                headers: 60,
                ..small
            },
            None,
        ),
        (
            Extent {
                headers: 61,
                bytes: 67_108_864,
                ..small
            },
            Some(Room::Headers),
        ),
        (
            Extent {
                bytes: 67_092_480,
                ..small
            },
            None,
        ),
        (
            Extent {
                bytes: 67_092_481,
                memory: 268_435_037,
                ..small
            },
            Some(Room::Length),
        ),
        (
            Extent {
                memory: 268_419_072,
                ..small
            },
            None,
        ),
        (
            Extent {
                memory: 268_435_037,
                ..small
            },
            Some(Room::Total),
        ),
    ] {
        assert_eq!(rt; extent.no_room(12_288), expected, "{extent:?}");
    }
    Ok(())
}
