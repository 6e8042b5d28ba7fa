ghost use Rattle.std.specs.Prelude.{◌≡◌};
ghost use Rattle.rz_isa.specs.Insn.{kind_of, target_of, rip_target_of, rip_of, rip_of_operand};

use crate::instruction::{Insn, Kind, Operand, Place};

/// How the instruction leaves.
pub fn kind(insn: &Insn) -> Kind
    ensures { result ≡ kind_of insn.now }
{
    match *insn {
        Insn::Jcc { .. } => Kind::Jcc,
        Insn::Jrcxz { .. } => Kind::Jrcxz,
        Insn::Jmp { .. } => Kind::Jmp,
        Insn::Call { .. } => Kind::Call,
        Insn::CallInd { .. } => Kind::CallInd,
        Insn::JmpInd { .. } => Kind::JmpInd,
        Insn::Ret { .. } => Kind::Ret,
        Insn::Syscall => Kind::Syscall,
        Insn::Ud2 | Insn::Hlt | Insn::Int3 => Kind::Halt,
        _ => Kind::Plain,
    }
}

/// The address of the direct target; `None` exactly where there is none.
pub fn target(insn: &Insn) -> Option<u64>
    ensures { result ≡ target_of insn.now }
{
    match *insn {
        Insn::Jcc { target, .. } => Some(target),
        Insn::Jrcxz { target } => Some(target),
        Insn::Jmp { target } => Some(target),
        Insn::Call { target } => Some(target),
        _ => None,
    }
}

fn of_place(place: Place) -> Option<u64>
    ensures { result ≡ rip_of place }
{
    match place {
        Place::At(address) => Some(address),
        _ => None,
    }
}

fn of_operand(operand: Operand) -> Option<u64>
    ensures { result ≡ rip_of_operand operand }
{
    match operand {
        Operand::Place(place) => of_place(place),
        _ => None,
    }
}

/// The address that an operand names relative to RIP; `None` exactly where no operand does.
pub fn rip_target(insn: &Insn) -> Option<u64>
    ensures { result ≡ rip_target_of insn.now }
{
    match *insn {
        Insn::Arith { dst, src, .. } => of_place(dst).or(of_operand(src)),
        Insn::Test { dst, src, .. } => of_place(dst).or(of_operand(src)),
        Insn::Mov { dst, src, .. } => of_place(dst).or(of_operand(src)),
        Insn::Push { src } => of_operand(src),
        Insn::Lea { src, .. } => of_place(src),
        Insn::Extend { src, .. } => of_place(src),
        Insn::Pop { dst } => of_place(dst),
        Insn::Unary { dst, .. } => of_place(dst),
        Insn::Wide { src, .. } => of_place(src),
        Insn::Imul2 { src, .. } => of_place(src),
        Insn::Imul3 { src, .. } => of_place(src),
        Insn::Shift { dst, .. } => of_place(dst),
        Insn::DoubleShift { dst, .. } => of_place(dst),
        Insn::Cmov { src, .. } => of_place(src),
        Insn::Set { dst, .. } => of_place(dst),
        Insn::CallInd { src } => of_place(src),
        Insn::JmpInd { src } => of_place(src),
        Insn::Xchg { dst, .. } => of_place(dst),
        Insn::CmpXchg { dst, .. } => of_place(dst),
        Insn::Xadd { dst, .. } => of_place(dst),
        Insn::BitTest { dst, .. } => of_place(dst),
        Insn::Scan { src, .. } => of_place(src),
        _ => None,
    }
}
