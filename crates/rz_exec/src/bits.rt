//! Bit tests, scans and counts.

ghost use Rattle.std.specs.Prelude.{◌≡◌, IsTrue};
ghost use Rattle.rz_exec.specs.Bits.{index_in as index_by, is_changed as is_changed_by, bit_test_effect, is_found as is_found_by, scan_effect};
ghost use Rattle.rz_exec.specs.Effect.{is_reg, is_named_place, is_named_index};
ghost use Rattle.rz_exec.specs.Calls.Carried.{ended, carried};

use crate::memory::{read, write};
use crate::operands::{address_of, put, value_of};
use crate::registers::{get_reg, put_reg};
use crate::state::{Cpu, Fault};
use rz_flags::{BitOp, ScanOp};
use rz_image::memory::Memory;
use rz_isa::{BitIndex, Place};
use rz_num::{Width, mask};

// The place of a bit, not yet taken modulo the width.
fn index_in(w: Width, regs: &[u64; 16], index: BitIndex) -> u64
    requires { IsTrue (is_named_index index) }
    ensures { result ≡ index_by w regs.now index }
{
    match index {
        BitIndex::Reg(n) => get_reg(w, regs, n),
        BitIndex::Imm(n) => n as u64,
    }
}

// Whether the operation writes its destination.
fn is_changed(op: BitOp) -> bool
    ensures { result ≡ is_changed_by op }
{
    !matches!(op, BitOp::Test)
}

#[tactic(auto, unfolding(crate::specs::Form::carry))]
pub(crate) fn bit_test(
    op: BitOp,
    w: Width,
    dst: &Place,
    index: BitIndex,
    cpu: &mut Cpu,
    mem: &mut Memory,
) -> Result<(), Fault>
    requires dst { IsTrue (is_named_place dst.now) }
    requires index { IsTrue (is_named_index index) }
    ensures done { ended cpu.new mem.new result ≡ carried (bit_test_effect op w dst.now index) cpu.old mem.old }
    ensures rip { cpu.new.rip ≡ cpu.old.rip }
{
    let at = address_of(&cpu.regs, dst);
    let word = read(mem, w, at)?;
    let old = value_of(w, &cpu.regs, dst, word);
    let (value, flags) = rz_alu::bit_test(op, w, old, index_in(w, &cpu.regs, index), cpu.flags);
    if is_changed(op) {
        write(mem, w, at, value)?;
        put(w, &mut cpu.regs, dst, value);
    }
    cpu.flags = flags;
    Ok(())
}

// Whether the operation writes its register, the source being cut to the width.
fn is_found(op: ScanOp, source: u64) -> bool
    ensures { result ≡ is_found_by op source }
{
    match op {
        ScanOp::Bsf | ScanOp::Bsr => source != 0,
        ScanOp::Tzcnt | ScanOp::Lzcnt | ScanOp::Popcnt => true,
    }
}

#[tactic(auto, unfolding(crate::specs::Form::carry))]
pub(crate) fn scan(
    op: ScanOp,
    w: Width,
    dst: u8,
    src: &Place,
    cpu: &mut Cpu,
    mem: &Memory,
) -> Result<(), Fault>
    requires dst { IsTrue (is_reg dst) }
    requires src { IsTrue (is_named_place src.now) }
    ensures done { ended cpu.new mem.now result ≡ carried (scan_effect op w dst src.now) cpu.old mem.now }
    ensures rip { cpu.new.rip ≡ cpu.old.rip }
{
    let word = read(mem, w, address_of(&cpu.regs, src))?;
    let source = value_of(w, &cpu.regs, src, word);
    let (value, flags) = rz_alu::scan(op, w, cpu.regs[dst as usize], source, cpu.flags);
    if is_found(op, mask(w, source)) {
        put_reg(w, &mut cpu.regs, dst, value);
    }
    cpu.flags = flags;
    Ok(())
}
