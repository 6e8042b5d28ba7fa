//! Repeats of strings, by one element or by many at once.

ghost use Rattle.std.specs.Prelude.{◌≡◌, ◌+◌, ◌-◌, ◌^◌, ◌<◌, ◌≤◌, ◌⊎◌, IsTrue, true, false, get_or, None, OnOk, OnErr};
ghost use Rattle.rz_image.specs.Memory.{bytes_at, put_bytes, refused, is_readable, is_writable};
ghost use Rattle.rz_exec.specs.Strings.{movs_effect, stos_effect};
ghost use Rattle.rz_exec.specs.Calls.Carried.{ended, repeated, AreBytes, Remains, pattern_of};

use crate::state::{Cpu, Fault};
use crate::strings::{byte_count, movs, stos};
use rz_image::memory::Memory;
use rz_num::{Width, are_bytes, mask};

/// How many bytes are copied at once.
const MANY: usize = 64;

// Whether ranges of that many bytes end below 2^64, and a copy upwards doesn't write what it still has to read.
fn are_apart(from: u64, to: u64) -> bool
    ensures from { IsTrue result → from + 64 < 2 ^ 64 }
    ensures to { IsTrue result → to + 64 < 2 ^ 64 }
    ensures apart { IsTrue result → (to ≤ from) ⊎ (from + 64 ≤ to) }
{
    let last = u64::MAX - MANY as u64;
    from <= last && to <= last && (to <= from || from + MANY as u64 <= to)
}

// Copies that many bytes of memory, where one region opens them to reading, and one to writing.
fn copy_bytes(from: u64, to: u64, mem: &mut Memory) -> bool
    ensures done { IsTrue result → mem.new ≡ put_bytes mem.old to (bytes_at mem.old from 64) }
    ensures bytes { IsTrue result → AreBytes (bytes_at mem.old from 64) }
    ensures readable { IsTrue result → refused is_readable mem.old from 64 ≡ None }
    ensures writable { IsTrue result → refused is_writable mem.old to 64 ≡ None }
    ensures unchanged { result ≡ false → mem.new ≡ mem.old }
{
    let mut bytes = [0; MANY];
    if !mem.load_run(from, &mut bytes) {
        return false;
    }
    are_bytes(&bytes);
    mem.store_run(to, &bytes)
}

// Copies many elements of a repeat at once, where memory opens them all; else it changes nothing.
fn movs_many(w: Width, cpu: &mut Cpu, mem: &mut Memory) -> bool
    ensures same { Remains (movs_effect w true) cpu.old mem.old cpu.new mem.new }
    ensures fewer { IsTrue result → get_or cpu.new.regs 1 0 < get_or cpu.old.regs 1 0 }
    ensures unchanged { result ≡ false → cpu.new ≡ cpu.old }
    ensures rip { cpu.new.rip ≡ cpu.old.rip }
{
    let count = MANY as u64 / byte_count(w);
    let from = cpu.regs[6];
    let to = cpu.regs[7];
    if cpu.flags.df || cpu.regs[1] < count || !are_apart(from, to) {
        return false;
    }
    if !copy_bytes(from, to, mem) {
        return false;
    }
    cpu.regs[6] = from + MANY as u64;
    cpu.regs[7] = to + MANY as u64;
    cpu.regs[1] -= count;
    true
}

// Copies one element of a repeat, or many.
fn movs_on(w: Width, cpu: &mut Cpu, mem: &mut Memory) -> Result<(), Fault>
    requires { 0 < get_or cpu.old.regs 1 0 }
    ensures ok { OnOk result (Remains (movs_effect w true) cpu.old mem.old cpu.new mem.new) }
    ensures fewer { OnOk result (get_or cpu.new.regs 1 0 < get_or cpu.old.regs 1 0) }
    ensures err { OnErr result (ended cpu.new mem.new result ≡ repeated (movs_effect w true) cpu.old mem.old) }
    ensures rip { cpu.new.rip ≡ cpu.old.rip }
{
    if movs_many(w, cpu, mem) {
        return Ok(());
    }
    if let Err(fault) = movs(w, true, cpu, mem) {
        return Err(fault);
    }
    Ok(())
}

// As many elements as RCX says, up to one that faults.
pub(crate) fn rep_movs(w: Width, cpu: &mut Cpu, mem: &mut Memory) -> Result<(), Fault>
    ensures done { ended cpu.new mem.new result ≡ repeated (movs_effect w true) cpu.old mem.old }
    ensures rip { cpu.new.rip ≡ cpu.old.rip }
{
    while cpu.regs[1] > 0 {
        if let Err(fault) = movs_on(w, cpu, mem) {
            return Err(fault);
        }
    }
    Ok(())
}

// Eight bytes of copies of the low bits of a value.
fn pattern(w: Width, value: u64) -> u64
    ensures { result ≡ pattern_of w value }
{
    let low = mask(w, value);
    match w {
        Width::W8 => low * 0x0101_0101_0101_0101,
        Width::W16 => low * 0x0001_0001_0001_0001,
        Width::W32 => low * 0x1_0000_0001,
        Width::W64 => low,
    }
}

// Stores many elements of a repeat at once, where memory opens them all; else it changes nothing.
fn stos_many(w: Width, cpu: &mut Cpu, mem: &mut Memory) -> bool
    ensures same { Remains (stos_effect w true) cpu.old mem.old cpu.new mem.new }
    ensures fewer { IsTrue result → get_or cpu.new.regs 1 0 < get_or cpu.old.regs 1 0 }
    ensures unchanged { result ≡ false → cpu.new ≡ cpu.old }
    ensures rip { cpu.new.rip ≡ cpu.old.rip }
{
    let count = 8 / byte_count(w);
    let to = cpu.regs[7];
    if cpu.flags.df || cpu.regs[1] < count || to > u64::MAX - 8 {
        return false;
    }
    let Ok(()) = mem.store(to, Width::W64, pattern(w, cpu.regs[0])) else {
        return false;
    };
    cpu.regs[7] = to + 8;
    cpu.regs[1] -= count;
    true
}

// Stores one element of a repeat, or many.
fn stos_on(w: Width, cpu: &mut Cpu, mem: &mut Memory) -> Result<(), Fault>
    requires { 0 < get_or cpu.old.regs 1 0 }
    ensures ok { OnOk result (Remains (stos_effect w true) cpu.old mem.old cpu.new mem.new) }
    ensures fewer { OnOk result (get_or cpu.new.regs 1 0 < get_or cpu.old.regs 1 0) }
    ensures err { OnErr result (ended cpu.new mem.new result ≡ repeated (stos_effect w true) cpu.old mem.old) }
    ensures rip { cpu.new.rip ≡ cpu.old.rip }
{
    if stos_many(w, cpu, mem) {
        return Ok(());
    }
    if let Err(fault) = stos(w, true, cpu, mem) {
        return Err(fault);
    }
    Ok(())
}

// As many elements as RCX says, up to one that faults.
pub(crate) fn rep_stos(w: Width, cpu: &mut Cpu, mem: &mut Memory) -> Result<(), Fault>
    ensures done { ended cpu.new mem.new result ≡ repeated (stos_effect w true) cpu.old mem.old }
    ensures rip { cpu.new.rip ≡ cpu.old.rip }
{
    while cpu.regs[1] > 0 {
        if let Err(fault) = stos_on(w, cpu, mem) {
            return Err(fault);
        }
    }
    Ok(())
}
