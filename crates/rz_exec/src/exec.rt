//! Plain instructions.

ghost use Rattle.std.specs.Prelude.{◌≡◌, IsTrue};
ghost use Rattle.rz_isa.specs.Insn.{kind_of};
ghost use Rattle.rz_isa.specs.declared.instruction.Kind.TheVariants.{Plain};
ghost use Rattle.rz_exec.specs.Effect.{is_named};
ghost use Rattle.rz_exec.specs.Calls.Carried.{ended};
ghost use Rattle.rz_exec.specs.Fault.{completion, plain_completion};

use crate::state::{Cpu, Fault};
use crate::{
    arithmetic, bits, comparisons, conditions, exchanges, flag_changes, moves, products, repeats,
    shifts, stack, strings,
};
use rz_flags::ArithOp;
use rz_image::memory::Memory;
use rz_isa::{Insn, Rep};

#[tactic(auto, unfolding(crate::specs::Effect::plain_effect, crate::specs::Form::carry))]
#[inline(always)]
fn exec(insn: &Insn, cpu: &mut Cpu, mem: &mut Memory) -> Result<(), Fault>
    requires { IsTrue (is_named insn.now) }
    ensures done { ended cpu.new mem.new result ≡ plain_completion insn.now cpu.old mem.old }
    ensures rip { cpu.new.rip ≡ cpu.old.rip }
{
    match insn {
        Insn::Mov { w, dst, src } => moves::mov(*w, dst, src, cpu, mem),
        Insn::Arith { op, w, dst, src } => {
            arithmetic::binary(arithmetic::is_written(*op), *op, *w, dst, src, cpu, mem)
        }
        Insn::Test { w, dst, src } => {
            arithmetic::binary(false, ArithOp::And, *w, dst, src, cpu, mem)
        }
        Insn::Lea { w, dst, src } => {
            moves::lea(*w, *dst, src, &mut cpu.regs);
            Ok(())
        }
        Insn::Extend {
            signed,
            to,
            from,
            dst,
            src,
        } => moves::extend(*signed, *to, *from, *dst, src, cpu, mem),
        Insn::Push { src } => stack::push(src, cpu, mem),
        Insn::Pop { dst } => stack::pop(dst, cpu, mem),
        Insn::Leave => stack::leave(cpu, mem),
        Insn::PushFlags => stack::push_flags(cpu, mem),
        Insn::PopFlags => stack::pop_flags(cpu, mem),
        Insn::Unary { op, w, dst } => arithmetic::one_operand(*op, *w, dst, cpu, mem),
        Insn::Wide { op, w, src } => products::wide(*op, *w, src, cpu, mem),
        Insn::Imul2 { w, dst, src } => products::imul2(*w, *dst, src, cpu, mem),
        Insn::Imul3 { w, dst, src, imm } => products::imul3(*w, *dst, src, *imm, cpu, mem),
        Insn::Shift { op, w, dst, count } => shifts::shift(*op, *w, dst, *count, cpu, mem),
        Insn::DoubleShift {
            left,
            w,
            dst,
            src,
            count,
        } => shifts::double_shift(*left, *w, dst, *src, *count, cpu, mem),
        Insn::Cmov { cond, w, dst, src } => conditions::cmov(*cond, *w, *dst, src, cpu, mem),
        Insn::Set { cond, dst } => conditions::set(*cond, dst, cpu, mem),
        Insn::Convert { w } => {
            moves::convert(*w, &mut cpu.regs);
            Ok(())
        }
        Insn::SignFill { w } => {
            moves::sign_fill(*w, &mut cpu.regs);
            Ok(())
        }
        Insn::Xchg { w, dst, src } => exchanges::xchg(*w, dst, *src, cpu, mem),
        Insn::CmpXchg { w, dst, src } => exchanges::cmpxchg(*w, dst, *src, cpu, mem),
        Insn::Xadd { w, dst, src } => exchanges::xadd(*w, dst, *src, cpu, mem),
        Insn::Bswap { w, reg } => {
            exchanges::bswap(*w, *reg, &mut cpu.regs);
            Ok(())
        }
        Insn::BitTest { op, w, dst, index } => bits::bit_test(*op, *w, dst, *index, cpu, mem),
        Insn::Scan { op, w, dst, src } => bits::scan(*op, *w, *dst, src, cpu, mem),
        Insn::Movs { w, rep: false } => strings::movs(*w, false, cpu, mem),
        Insn::Movs { w, rep: true } => repeats::rep_movs(*w, cpu, mem),
        Insn::Stos { w, rep: false } => strings::stos(*w, false, cpu, mem),
        Insn::Stos { w, rep: true } => repeats::rep_stos(*w, cpu, mem),
        Insn::Cmps { w, rep: Rep::No } => comparisons::cmps(*w, false, cpu, mem),
        Insn::Cmps { w, rep } => comparisons::rep_cmps(*w, *rep, cpu, mem),
        Insn::Scas { w, rep: Rep::No } => comparisons::scas(*w, false, cpu, mem),
        Insn::Scas { w, rep } => comparisons::rep_scas(*w, *rep, cpu, mem),
        Insn::Flag { op } => {
            cpu.flags = flag_changes::changed(*op, cpu.flags);
            Ok(())
        }
        _ => Ok(()),
    }
}

/// Carries out a plain instruction: registers, flags and memory are those that its effect leaves
/// (Intel SDM, volume 2, the entry of each instruction), and RIP is left. `None` exactly where it is
/// completed; a fault changes nothing, but that a repeat keeps its whole iterations. It takes no
/// memory, and each register number has to name a register, as in what bytes decode to.
#[inline(always)]
pub fn exec_plain(insn: &Insn, cpu: &mut Cpu, mem: &mut Memory) -> Option<Fault>
    requires plain { kind_of insn.now ≡ Plain }
    requires named { IsTrue (is_named insn.now) }
    ensures done { completion cpu.new mem.new result ≡ plain_completion insn.now cpu.old mem.old }
    ensures rip { cpu.new.rip ≡ cpu.old.rip }
{
    exec(insn, cpu, mem).err()
}
