//! The opening state of a file on an input.

ghost use Rattle.std.specs.Prelude.{◌≡◌, ◌≤◌, ◌<◌, ◌+◌, ◌-◌, ◌*◌, ◌%◌, ◌^◌, [], ◌∷◌, ◌++◌, length, map, set, replicate, flat_map, IfOk, OnOk};
ghost use Rattle.std.specs.List.{AllByRecursion};
ghost use Rattle.byteorder.specs.Endian.{little_bytes};
ghost use Rattle.rz_image.specs.Memory.{Ascend, zeros};
ghost use Rattle.rz_image.specs.Perm.{read_write};
ghost use Rattle.rz_sys.specs.Input.{IsValid, strings};
ghost use Rattle.rz_machine.specs.Start.{start as start_of, first_rsp, first_world as first_world_of, heap_region, stack_base, stack_bytes, string_addresses};
ghost use Rattle.rz_elf.specs.Loaded.{IsLoad, loaded, loaded_region};

use crate::machine::Machine;
use rz_elf::elf::{Elf, Load};
use rz_exec::Cpu;
use rz_flags::Flags;
use rz_image::memory::Memory;
use rz_image::padded::Padded;
use rz_image::perm::Perm;
use rz_image::region::Region;
use rz_num::{Bytes, OutOfMemory, Words};
use rz_sys::event::Events;
use rz_sys::input::Input;
use rz_sys::world::{Unread, World};
use std::alloc::Global;

// The stack's address and size in bytes, the address where it ends, and the size of the heap.
const STACK_AT: u64 = 0x7fff_ffef_f000;

const STACK_SIZE: u64 = 0x10_0000;

const STACK_TOP: u64 = STACK_AT + STACK_SIZE;

const HEAP_SIZE: u64 = 0x100_0000;

// RSP (Intel SDM, volume 2, table 3-1), and what its address is a multiple of at the start.
const RSP: usize = 4;

const ALIGNMENT: u64 = 16;

// The bytes of a word.
const WORD: u64 = 8;

// The flags of heap and stack: PF_R and PF_W.
const READ_WRITE: u32 = 6;

const NO_FLAGS: Flags = Flags {
    cf: false,
    pf: false,
    af: false,
    zf: false,
    sf: false,
    df: false,
    of: false,
};

/// The state in which a run of a file on a valid input begins: its loads, a closed heap, and a stack with the arguments;
/// RIP at the entry; the input's standard input and replies to be given. It refuses for want of memory alone.
pub fn start(alloc: Global, elf: &Elf, input: &Input) -> Result<Machine, OutOfMemory>
    requires { IsValid input.now }
    ensures { IfOk result (λ machine. machine ≡ start_of (loaded elf.now) input.now) }
{
    let stack = first_stack(alloc, input.args.as_slice())?;
    let rsp = stack.rsp;
    let regions = first_regions(alloc, elf, stack_region(stack.bytes))?;
    Ok(Machine {
        cpu: Cpu {
            regs: first_registers(rsp),
            rip: elf.entry,
            flags: NO_FLAGS,
        },
        mem: Memory::new(regions),
        world: first_world(alloc, elf, input)?,
        end: None,
    })
}

// The regions in which a run begins: what is loaded, the heap, and the stack.
fn first_regions(alloc: Global, elf: &Elf, stack: Region) -> Result<Vec<Region>, OutOfMemory>
    ensures { IfOk result (λ regions. regions.items
        ≡ (loaded elf.now).loads ++ heap_region elf.now.first_break ∷ stack ∷ []) }
{
    let mut regions = load_regions(alloc, elf)?;
    regions.push(heap(alloc, elf.first_break)?)?;
    regions.push(stack)?;
    Ok(regions)
}

// The world before the first step of a run. The heap's region follows the loads.
fn first_world(alloc: Global, elf: &Elf, input: &Input) -> Result<World, OutOfMemory>
    ensures { IfOk result (λ world. world ≡ first_world_of (loaded elf.now) input.now) }
{
    let heap = elf.loads.as_slice().len() as u32;
    Ok(World {
        stdin: Unread::from_bytes(Bytes::from_slice(alloc, input.stdin.as_slice())?),
        replies: input.replies.copy(alloc)?,
        events: Events::new(alloc),
        first_break: elf.first_break,
        brk: elf.first_break,
        heap,
    })
}

// All registers are 0 but RSP.
fn first_registers(rsp: u64) -> [u64; 16]
    ensures { result ≡ set (replicate 16 0) 4 rsp }
{
    let mut regs = [0; 16];
    regs[RSP] = rsp;
    regs
}

// The bytes of the stack, and where RSP stands in it.
#[derive(Drop)]
struct Stack {
    rsp: u64,
    bytes: Bytes,
}

// The stack of these arguments: the strings end at its top, and the words that say where they are stand at RSP.
fn first_stack(alloc: Global, args: &[Bytes]) -> Result<Stack, OutOfMemory>
    requires { length (strings args.now) ≤ 65536 }
    ensures rsp { IfOk result (λ stack. stack.rsp ≡ first_rsp args.now) }
    ensures bytes { IfOk result (λ stack. stack.bytes ≡ stack_bytes args.now) }
{
    let strings = argument_strings(alloc, args)?;
    let strings = strings.as_slice();
    let at = STACK_TOP - strings.len() as u64;
    let words = argument_words(alloc, args, at)?;
    let words = words.as_slice();
    let low = at - WORD * words.len() as u64;
    let rsp = low - low % ALIGNMENT;
    let mut bytes = Vec::with_capacity(alloc, STACK_SIZE as usize)?;
    bytes.resize((rsp - STACK_AT) as usize, 0)?;
    push_words(&mut bytes, words)?;
    bytes.resize((at - STACK_AT) as usize, 0)?;
    bytes.extend_from_slice(strings)?;
    Ok(Stack {
        rsp,
        bytes: Bytes::from_vec(bytes),
    })
}

// The stack with these bytes, open whole.
fn stack_region(bytes: Bytes) -> Region
    ensures { result ≡ record { base = stack_base; bytes = bytes; opened = 2 ^ 20; perm = read_write } }
{
    Region {
        base: STACK_AT,
        bytes: Padded::from_bytes(bytes),
        opened: STACK_SIZE,
        perm: Perm::of_flags(READ_WRITE),
    }
}

// The argument strings, each with a zero byte.
fn argument_strings(alloc: Global, args: &[Bytes]) -> Result<Bytes, OutOfMemory>
    ensures { IfOk result (λ bytes. bytes ≡ strings args.now) }
{
    let mut bytes = Bytes::new(alloc);
    for arg in args {
        bytes.push_all(arg.as_slice())?;
        bytes.push(0)?;
    }
    Ok(bytes)
}

// The words at RSP for argument strings from an address on: how many there are, their addresses, and the ends of three
// lists.
fn argument_words(alloc: Global, args: &[Bytes], strings_at: u64) -> Result<Words, OutOfMemory>
    requires { strings_at + length (strings args.now) < 2 ^ 64 }
    ensures { IfOk result
        (λ words. words ≡ length args.now ∷ (string_addresses strings_at args.now ++ 0 ∷ 0 ∷ 0 ∷ 0 ∷ [])) }
{
    let mut words = Words::new(alloc);
    words.push(args.len() as u64)?;
    let mut at = strings_at;
    for arg in args {
        words.push(at)?;
        at += arg.as_slice().len() as u64 + 1;
    }
    words.push_all(&[0; 4])?;
    Ok(words)
}

// Appends words, the low byte of each first.
fn push_words(bytes: &mut Vec<u8>, words: &[u64]) -> Result<(), OutOfMemory>
    ensures { OnOk result (bytes.new.items ≡ bytes.old.items ++ flat_map (little_bytes 8) words.now) }
{
    for word in words {
        bytes.extend_from_slice(&word.to_le_bytes())?;
    }
    Ok(())
}

/// What is loaded of a file: a region for each load, in ascending order. It refuses for want of memory alone.
pub fn load_regions(alloc: Global, elf: &Elf) -> Result<Vec<Region>, OutOfMemory>
    ensures regions { IfOk result (λ regions. regions.items ≡ (loaded elf.now).loads) }
    ensures ascend { IfOk result (λ regions. Ascend regions.items) }
{
    regions_of(alloc, elf.bytes.as_slice(), elf.loads.as_slice())
}

// The regions of loads of a file.
fn regions_of(alloc: Global, file: &[u8], loads: &[Load]) -> Result<Vec<Region>, OutOfMemory>
    requires { AllByRecursion (IsLoad (length file.now)) loads.now }
    ensures { IfOk result (λ regions. regions.items ≡ map (loaded_region file.now) loads.now) }
{
    let mut regions = Vec::new(alloc);
    for load in loads {
        regions.push(load_region(alloc, file, load)?)?;
    }
    Ok(regions)
}

fn load_region(alloc: Global, file: &[u8], load: &Load) -> Result<Region, OutOfMemory>
    requires { IsLoad (length file.now) load.now }
    ensures { IfOk result (λ region. region ≡ loaded_region file.now load.now) }
{
    let begin = load.file_at as usize;
    let end = begin + load.file_size as usize;
    let bytes = filled(alloc, &file[begin..end], load.size)?;
    Ok(Region {
        base: load.at,
        bytes,
        opened: load.size,
        perm: load.perm,
    })
}

// These bytes, and zeros up to a size, which aren't held before they are written.
fn filled(alloc: Global, bytes: &[u8], size: u64) -> Result<Padded, OutOfMemory>
    requires { length bytes.now ≤ size }
    ensures { IfOk result (λ filled. filled ≡ bytes.now ++ zeros (size - length bytes.now)) }
{
    Padded::new(alloc, bytes, size)
}

// The heap from an address on, with none of it open.
fn heap(alloc: Global, at: u64) -> Result<Region, OutOfMemory>
    ensures { IfOk result (λ region. region ≡ heap_region at) }
{
    Ok(Region {
        base: at,
        bytes: filled(alloc, &[], HEAP_SIZE)?,
        opened: 0,
        perm: Perm::of_flags(READ_WRITE),
    })
}
