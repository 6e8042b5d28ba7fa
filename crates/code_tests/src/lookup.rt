// The lookup routine on the machine, over tables of many sizes, from registers and flags of a sequence: where it leads
// values that are old targets, next to one, or one and 2^32, what it leaves, and in how many steps.

ghost use Rattle.std.specs.Prelude.{◌<◌, ◌^◌};

use rz_elf::elf::Elf;
use rz_elf::fault::ElfError;
use rz_elf::read::read_elf;
use rz_elf::segment::Segment;
use rz_encode::{encode, spells};
use rz_isa::{Form, Insn, Item, Items, Label};
use rz_lookup::routine;
use rz_machine::machine::{End, Machine, Outcome};
use rz_machine::start::start;
use rz_num::{Bytes, OutOfMemory, push_u32, push_u64};
use rz_sys::input::Input;
use rz_table::Profile1;
use std::alloc::{AllocGlobal, Global};
use std::process::Abort;
use std::test::Fail;

const SCRATCH: u64 = 0x3f_d000;

const CODE: u64 = 0x40_1000;

const TABLE: u64 = 0x40_3000;

const STUB: u64 = 0x3000_0000;

// What the word at the scratch page holds: the site's RCX.
const KEPT: u64 = 0x1122_3344_5566_7788;

// Steps before the routine: a flags word pushed and popped, and fifteen registers but for RSP.
const SET_UP: u64 = 17;

// The next number of a sequence.
fn next(state: u64) -> u64 {
    state
        .wrapping_mul(0x5851_f42d_4c95_7f2d)
        .wrapping_add(0x1405_7b7e_f767_814f)
}

fn target(i: u64) -> u64
    ensures some { 0 < result }
    ensures low { result < 2 ^ 32 }
{
    0x1_0000 + i % 0x1_0000 * 3
}

fn place(i: u64) -> u64
    ensures { result < 2 ^ 32 }
{
    0x2000_0000 + i % 0x1_0000 * 16
}

// The table of so many pairs.
fn table(alloc: Global, count: u64) -> Result<Vec<u8>, OutOfMemory> {
    let mut out = Vec::new(alloc);
    push_u64(&mut out, STUB)?;
    push_u64(&mut out, count)?;
    for i in 0..count {
        push_u32(&mut out, target(i) as u32)?;
        push_u32(&mut out, place(i) as u32)?;
    }
    Ok(out)
}

// The instruction of an item whose label is the address.
fn insn_of(item: &Item, to: u64) -> Insn {
    match item {
        Item::Whole(insn) => *insn,
        Item::Jump {
            cond: Some(cond),
            ..
        } => Insn::Jcc {
            cond: *cond,
            target: to,
        },
        _ => Insn::Jmp { target: to },
    }
}

// The number of the item that a jump leads to.
fn label_of(item: &Item) -> usize {
    match item {
        Item::Jump {
            to: Label::Item(k),
            ..
        } => *k as usize,
        _ => 0,
    }
}

// Appends the near spelling of an instruction at an address; nothing where it has none.
fn push_spelling(code: &mut Vec<u8>, insn: &Insn, at: u64) -> Result<(), OutOfMemory> {
    if !spells::<Profile1>(insn, at, Form::Near) {
        return Ok(());
    }
    let mut out = [0; 15];
    let len = encode::<Profile1>(insn, at, Form::Near, &mut out);
    for byte in out.iter().take(len as usize) {
        code.push(*byte)?;
    }
    Ok(())
}

// The bytes of items from an address on, whose labels are at these places, and puts there where each begins.
fn push_items(
    code: &mut Vec<u8>,
    items: &[Item],
    at: u64,
    places: &mut [u64; 64],
) -> Result<(), OutOfMemory> {
    for (k, item) in items.iter().enumerate() {
        let here = at.wrapping_add(code.len() as u64);
        if k < 64 {
            places[k] = here;
        }
        let to = label_of(item);
        let target = if to < 64 { places[to] } else { here };
        push_spelling(code, &insn_of(item, target), here)?;
    }
    Ok(())
}

// Appends what sets the flags, and the registers but for RSP: RCX is the value.
fn push_set_up(code: &mut Vec<u8>, seed: u64, value: u64) -> Result<(), OutOfMemory> {
    code.push(0x68)?;
    push_u32(code, (seed & 0xcd5) as u32)?;
    code.push(0x9d)?;
    let mut state = seed;
    for number in 0..16_u8 {
        state = next(state);
        if number == 4 {
            continue;
        }
        code.push(0x48 + number / 8)?;
        code.push(0xb8 + number % 8)?;
        push_u64(code, if number == 1 { value } else { state })?;
    }
    Ok(())
}

// The code: the set-up, and then the routine, spelled twice, first to find its places.
fn code(alloc: Global, items: &Items, seed: u64, value: u64) -> Result<Vec<u8>, OutOfMemory> {
    let mut places = [CODE; 64];
    let mut code = Vec::new(alloc);
    push_set_up(&mut code, seed, value)?;
    let set_up = code.len();
    push_items(&mut code, items.as_slice(), CODE, &mut places)?;
    code.truncate(set_up);
    push_items(&mut code, items.as_slice(), CODE, &mut places)?;
    Ok(code)
}

fn push_load(
    out: &mut Vec<u8>,
    flags: u32,
    offset: u64,
    at: u64,
    size: u64,
) -> Result<(), OutOfMemory> {
    let load = Segment {
        kind: 1,
        flags,
        offset,
        vaddr: at,
        paddr: at,
        filesz: size,
        memsz: size,
        align: 0x1000,
    };
    load.push(out)
}

// The header of a file with three loads, which begins at 0x401000.
const HEADER: [u8; 64] = [
    0x7f, b'E', b'L', b'F', 2, 1, 1, 0, 0, 0, 0, 0, 0, 0, 0, 0, 2, 0, 62, 0, 1, 0, 0, 0, 0, 0x10,
    0x40, 0, 0, 0, 0, 0, 64, 0, 0, 0, 0, 0, 0, 0, 0, 0, 0, 0, 0, 0, 0, 0, 0, 0, 0, 0, 64, 0, 56, 0,
    3, 0, 0, 0, 0, 0, 0, 0,
];

// The headers, and the scratch page as a site leaves it.
fn push_front(out: &mut Vec<u8>, code: u64, table: u64) -> Result<(), OutOfMemory> {
    for byte in HEADER {
        out.push(byte)?;
    }
    push_load(out, 6, 0x1000, SCRATCH, 0x1000)?;
    push_load(out, 5, 0x2000, CODE, code)?;
    push_load(out, 4, 0x3000, TABLE, table)?;
    out.resize(0x1000, 0)?;
    push_u64(out, KEPT)?;
    push_u64(out, 0)?;
    push_u64(out, TABLE)?;
    out.resize(0x2000, 0)?;
    Ok(())
}

// The bytes of the file of a code and a table.
fn file(alloc: Global, code: &[u8], table: &[u8]) -> Result<Bytes, OutOfMemory> {
    let mut out = Vec::new(alloc);
    push_front(&mut out, code.len() as u64, table.len() as u64)?;
    out.extend_from_slice(code)?;
    out.resize(0x3000, 0)?;
    out.extend_from_slice(table)?;
    Ok(Bytes::from_vec(out))
}

// The program that looks a value up in the table of so many pairs.
fn program(alloc: Global, count: u64, seed: u64, value: u64) -> Result<Elf, ElfError> {
    let items = routine::<Profile1>(alloc, SCRATCH)?;
    let code = code(alloc, &items, seed, value)?;
    let table = table(alloc, count)?;
    read_elf(alloc, file(alloc, &code, &table)?)
}

// The machine that stands at the first item of the routine.
fn machine(alloc: Global, elf: &Elf) -> Result<Machine, OutOfMemory> {
    let mut machine = start(alloc, elf, &Input::empty(alloc))?;
    machine.run::<Profile1>(alloc, SET_UP)?;
    Ok(machine)
}

// Asserts that it comes to a place, where nothing is executable, within the steps for a table of at most 2^digits pairs. RCX
// is the site's then, the other registers and the flags are as they were.
fn assert_leads(
    rt: &(impl Abort + AllocGlobal),
    machine: &mut Machine,
    digits: u8,
    place: u64,
) -> Result<(), OutOfMemory> {
    let before = machine.cpu;
    let outcome = machine.run::<Profile1>(rt.alloc(), 23 + 7 * digits as u64)?;
    assert_eq!(rt; outcome, Outcome::Ended(End::Fetch(place)));
    let mut regs = before.regs;
    regs[1] = KEPT;
    assert!(rt; machine.cpu.regs == regs);
    assert!(rt; machine.cpu.flags == before.flags);
    Ok(())
}

// Asserts where a value leads in the table of so many pairs, of at most 2^digits.
fn assert_value(
    rt: &(impl Abort + AllocGlobal),
    count: u64,
    digits: u8,
    value: u64,
    place: u64,
) -> Result<(), Fail> {
    let elf = program(rt.alloc(), count, next(value.wrapping_add(count)), value)?;
    let mut machine = machine(rt.alloc(), &elf)?;
    assert_leads(rt, &mut machine, digits, place)?;
    Ok(())
}

// Asserts where the target of a pair leads, the numbers next to it, and it and 2^32.
fn assert_pair(
    rt: &(impl Abort + AllocGlobal),
    count: u64,
    digits: u8,
    i: u64,
) -> Result<(), Fail> {
    let value = target(i);
    assert_value(rt, count, digits, value, place(i))?;
    assert_value(rt, count, digits, value - 1, STUB)?;
    assert_value(rt, count, digits, value + 1, STUB)?;
    assert_value(rt, count, digits, value + (1 << 32), STUB)
}

#[test]
fn each_pair_of_small_tables(rt: HostRuntime) -> Result<(), Fail> {
    for (count, digits) in [(1, 0), (2, 1), (3, 2), (5, 3), (8, 3), (13, 4)] {
        for i in 0..count {
            assert_pair(&rt, count, digits, i)?;
        }
    }
    Ok(())
}

#[test]
fn an_empty_table_leads_to_the_stub(rt: HostRuntime) -> Result<(), Fail> {
    assert_value(&rt, 0, 0, target(0), STUB)?;
    assert_value(&rt, 0, 0, 0, STUB)
}

// The first, a middle and the last pair of tables of all sizes up to 40, and of larger ones.
#[test]
fn three_pairs_of_larger_tables(rt: HostRuntime) -> Result<(), Fail> {
    let sizes = [(63, 6), (64, 6), (65, 7), (100, 7), (4000, 12)];
    for (count, digits) in sizes {
        assert_pair(&rt, count, digits, 0)?;
        assert_pair(&rt, count, digits, count / 2)?;
        assert_pair(&rt, count, digits, count.saturating_sub(1))?;
    }
    for count in 1..41 {
        assert_pair(&rt, count, 6, count.saturating_sub(1))?;
    }
    Ok(())
}
