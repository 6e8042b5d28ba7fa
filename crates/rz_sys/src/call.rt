//! System calls: what they answer, record and leave.

ghost use Rattle.std.specs.Prelude.{◌≡◌, ◌≤◌, ◌+◌, ◌^◌, length, set, IfOk, OnOk, OnErr};
ghost use Rattle.rz_sys.specs.Answer.{answer as answer_of, called, negative as negative_of, received, regs_left};
ghost use Rattle.rz_sys.specs.Answer.{rsi, sent, world_after, Read, Write, Brk};
ghost use Rattle.rz_sys.specs.Calls.Recorded.{recorded_call, refused_call};
ghost use Rattle.rz_sys.specs.Heap.{HasHeap};

use crate::event::Event;
use crate::input::Reply;
use crate::world::World;
use rz_image::memory::Memory;
use rz_num::{Bytes, OutOfMemory, page_up};
use std::alloc::Global;

// The numbers of the registers that a call reads (Intel SDM, volume 2, table 3-1).
const RAX: usize = 0;

const RDX: usize = 2;

const RSI: usize = 6;

const RDI: usize = 7;

// The most bytes that one call moves.
const MOST: u64 = 0x7fff_f000;

// The size of the heap's region, in bytes.
const HEAP_SIZE: u64 = 0x100_0000;

// Error numbers: no such descriptor, no such address, no such call.
const BAD_FILE: u64 = 9;

const BAD_ADDRESS: u64 = 14;

const NO_CALL: u64 = 38;

/// Makes the system call that the registers name, and records it. It answers the status where the call ends the run;
/// else RAX is the call's answer. It refuses for want of memory alone, and then nothing is changed.
/// Read, write, brk, exit and exit_group are there. The world's heap stays one.
#[tactic(auto, unfolding(crate::specs::Answer::answer))]
pub fn syscall(
    alloc: Global,
    regs: &mut [u64; 16],
    mem: &mut Memory,
    world: &mut World,
) -> Result<Option<u8>, OutOfMemory>
    requires { HasHeap mem.old world.old }
    ensures status { IfOk result (λ exit. exit ≡ (answer_of regs.old mem.old world.old).exit) }
    ensures regs { OnOk result (regs.new ≡ regs_left regs.old (answer_of regs.old mem.old world.old)) }
    ensures mem { OnOk result (mem.new ≡ (answer_of regs.old mem.old world.old).mem) }
    ensures world { OnOk result
        (world.new ≡ world_after regs.old world.old (answer_of regs.old mem.old world.old)) }
    ensures err { OnErr result
        ((regs.new ≡ regs.old) × (mem.new ≡ mem.old) × (world.new ≡ world.old)) }
    ensures heap { HasHeap mem.new world.new }
{
    let number = regs[RAX];
    let first = regs[RDI];
    if number == 0 {
        if first == 0 {
            read(alloc, regs, mem, world)?;
            return Ok(None);
        }
        answered(world, regs, negative(BAD_FILE), Bytes::new(alloc))?;
        return Ok(None);
    }
    if number == 1 {
        if first == 1 || first == 2 {
            write(alloc, regs, mem, world)?;
            return Ok(None);
        }
        answered(world, regs, negative(BAD_FILE), Bytes::new(alloc))?;
        return Ok(None);
    }
    if number == 12 {
        brk(alloc, regs, mem, world)?;
        return Ok(None);
    }
    if number == 60 || number == 231 {
        note(world, regs, 0, Bytes::new(alloc))?;
        return Ok(Some((first % 256) as u8));
    }
    answered(world, regs, negative(NO_CALL), Bytes::new(alloc))?;
    Ok(None)
}

// A read of standard input.
fn read(
    alloc: Global,
    regs: &mut [u64; 16],
    mem: &mut Memory,
    world: &mut World,
) -> Result<(), OutOfMemory>
    ensures regs { OnOk result
        (regs.new ≡ regs_left regs.old (called Read regs.old mem.old world.old)) }
    ensures mem { OnOk result (mem.new ≡ (called Read regs.old mem.old world.old).mem) }
    ensures world { OnOk result
        (world.new ≡ world_after regs.old world.old (called Read regs.old mem.old world.old)) }
    ensures err { OnErr result
        ((regs.new ≡ regs.old) × (mem.new ≡ mem.old) × (world.new ≡ world.old)) }
{
    let at = regs[RSI];
    let count = regs[RDX].min(MOST);
    if !mem.can_write(at, count) {
        return answered(world, regs, negative(BAD_ADDRESS), Bytes::new(alloc));
    }
    let most = (count as usize).min(world.stdin.as_slice().len());
    match world.replies.first() {
        Reply::Full => receive(alloc, regs, mem, world, most),
        Reply::AtMost(number) => receive(alloc, regs, mem, world, (number as usize).min(most)),
        Reply::Error(number) => refuse(alloc, regs, world, number),
    }
}

// A read that moves `count` bytes.
fn receive(
    alloc: Global,
    regs: &mut [u64; 16],
    mem: &mut Memory,
    world: &mut World,
    count: usize,
) -> Result<(), OutOfMemory>
    requires { count ≤ length world.old.stdin }
    ensures regs { OnOk result
        (regs.new ≡ regs_left regs.old (received count (rsi regs.old) mem.old world.old)) }
    ensures mem { OnOk result (mem.new ≡ (received count (rsi regs.old) mem.old world.old).mem) }
    ensures world { OnOk result
        (world.new ≡ world_after regs.old world.old (received count (rsi regs.old) mem.old world.old)) }
    ensures err { OnErr result
        ((regs.new ≡ regs.old) × (mem.new ≡ mem.old) × (world.new ≡ world.old)) }
{
    let at = regs[RSI];
    let bytes = Bytes::from_slice(alloc, &world.stdin.as_slice()[..count])?;
    answered(world, regs, count as u64, bytes)?;
    mem.store_bytes(at, &world.stdin.as_slice()[..count]);
    world.stdin.advance(count);
    world.replies.advance();
    Ok(())
}

// A write to standard output or error.
fn write(
    alloc: Global,
    regs: &mut [u64; 16],
    mem: &Memory,
    world: &mut World,
) -> Result<(), OutOfMemory>
    ensures regs { OnOk result
        (regs.new ≡ regs_left regs.old (called Write regs.old mem.now world.old)) }
    ensures world { OnOk result
        (world.new ≡ world_after regs.old world.old (called Write regs.old mem.now world.old)) }
    ensures err { OnErr result ((regs.new ≡ regs.old) × (world.new ≡ world.old)) }
{
    let at = regs[RSI];
    let count = regs[RDX].min(MOST);
    if !mem.can_read(at, count) {
        return answered(world, regs, negative(BAD_ADDRESS), Bytes::new(alloc));
    }
    match world.replies.first() {
        Reply::Full => send(alloc, regs, mem, world, count),
        Reply::AtMost(number) => send(alloc, regs, mem, world, number.min(count)),
        Reply::Error(number) => refuse(alloc, regs, world, number),
    }
}

// A write that moves `count` bytes.
fn send(
    alloc: Global,
    regs: &mut [u64; 16],
    mem: &Memory,
    world: &mut World,
    count: u64,
) -> Result<(), OutOfMemory>
    requires { rsi regs.old + count ≤ 2 ^ 64 }
    ensures regs { OnOk result
        (regs.new ≡ regs_left regs.old (sent count (rsi regs.old) mem.now world.old)) }
    ensures world { OnOk result
        (world.new ≡ world_after regs.old world.old (sent count (rsi regs.old) mem.now world.old)) }
    ensures err { OnErr result ((regs.new ≡ regs.old) × (world.new ≡ world.old)) }
{
    let bytes = mem.copy(alloc, regs[RSI], count)?;
    answered(world, regs, count, bytes)?;
    world.replies.advance();
    Ok(())
}

// A read or write that the reply in turn refuses.
fn refuse(
    alloc: Global,
    regs: &mut [u64; 16],
    world: &mut World,
    number: u64,
) -> Result<(), OutOfMemory>
    ensures regs { OnOk result (regs.new ≡ set regs.old 0 (negative_of number)) }
    ensures world { OnOk result (world.new ≡ refused_call regs.old number world.old) }
    ensures err { OnErr result ((regs.new ≡ regs.old) × (world.new ≡ world.old)) }
{
    answered(world, regs, negative(number), Bytes::new(alloc))?;
    world.replies.advance();
    Ok(())
}

// A request for another break.
fn brk(
    alloc: Global,
    regs: &mut [u64; 16],
    mem: &mut Memory,
    world: &mut World,
) -> Result<(), OutOfMemory>
    requires { HasHeap mem.old world.old }
    ensures regs { OnOk result
        (regs.new ≡ regs_left regs.old (called Brk regs.old mem.old world.old)) }
    ensures mem { OnOk result (mem.new ≡ (called Brk regs.old mem.old world.old).mem) }
    ensures world { OnOk result
        (world.new ≡ world_after regs.old world.old (called Brk regs.old mem.old world.old)) }
    ensures err { OnErr result
        ((regs.new ≡ regs.old) × (mem.new ≡ mem.old) × (world.new ≡ world.old)) }
{
    let request = regs[RDI];
    if request < world.first_break || request > world.first_break + HEAP_SIZE {
        return answered(world, regs, world.brk, Bytes::new(alloc));
    }
    answered(world, regs, request, Bytes::new(alloc))?;
    mem.set_open(world.heap, page_up(request) - world.first_break);
    world.brk = request;
    Ok(())
}

// Records a call that goes on with this answer in RAX.
fn answered(
    world: &mut World,
    regs: &mut [u64; 16],
    answer: u64,
    bytes: Bytes,
) -> Result<(), OutOfMemory>
    ensures regs { OnOk result (regs.new ≡ set regs.old 0 answer) }
    ensures world { OnOk result (world.new ≡ recorded_call regs.old answer bytes world.old) }
    ensures err { OnErr result ((regs.new ≡ regs.old) × (world.new ≡ world.old)) }
{
    note(world, regs, answer, bytes)?;
    regs[RAX] = answer;
    Ok(())
}

// Records a call with this answer.
fn note(world: &mut World, regs: &[u64; 16], answer: u64, bytes: Bytes) -> Result<(), OutOfMemory>
    ensures ok { OnOk result (world.new ≡ recorded_call regs.now answer bytes world.old) }
    ensures err { OnErr result (world.new ≡ world.old) }
{
    world.events.push(Event {
        number: regs[RAX],
        args: [regs[RDI], regs[RSI], regs[RDX]],
        answer,
        bytes,
    })
}

// The answer for an error number.
fn negative(number: u64) -> u64
    ensures { result ≡ negative_of number }
{
    0u64.wrapping_sub(number)
}
