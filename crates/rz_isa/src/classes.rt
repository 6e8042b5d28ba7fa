ghost use Rattle.std.specs.Prelude.{◌≡◌};
ghost use Rattle.rz_isa.specs.Class.{class_of as class_of_insn, arith_class as class_of_arith};

use crate::instruction::Insn;
use rz_flags::ArithOp;

/// The class of an operation: rows of another class don't spell an instruction of this one.
#[derive(Clone, Copy)]
pub enum Class {
    Add,
    Or,
    Adc,
    Sbb,
    And,
    Sub,
    Xor,
    Cmp,
    Test,
    Mov,
    Lea,
    Extend,
    Push,
    Pop,
    Leave,
    PushFlags,
    PopFlags,
    Unary,
    Wide,
    Imul2,
    Imul3,
    Shift,
    DoubleShift,
    Cmov,
    Set,
    Jcc,
    Jrcxz,
    Jmp,
    Call,
    CallInd,
    JmpInd,
    Ret,
    Convert,
    SignFill,
    Xchg,
    CmpXchg,
    Xadd,
    Nop,
    Bswap,
    BitTest,
    Scan,
    Movs,
    Stos,
    Cmps,
    Scas,
    Flag,
    Syscall,
    Ud2,
    Hlt,
    Int3,
}

fn arith_class(op: ArithOp) -> Class
    ensures { result ≡ class_of_arith op }
{
    match op {
        ArithOp::Add => Class::Add,
        ArithOp::Or => Class::Or,
        ArithOp::Adc => Class::Adc,
        ArithOp::Sbb => Class::Sbb,
        ArithOp::And => Class::And,
        ArithOp::Sub => Class::Sub,
        ArithOp::Xor => Class::Xor,
        ArithOp::Cmp => Class::Cmp,
    }
}

/// The class of the instruction's operation.
pub fn class_of(insn: &Insn) -> Class
    ensures { result ≡ class_of_insn insn.now }
{
    match *insn {
        Insn::Arith { op, .. } => arith_class(op),
        Insn::Test { .. } => Class::Test,
        Insn::Mov { .. } => Class::Mov,
        Insn::Lea { .. } => Class::Lea,
        Insn::Extend { .. } => Class::Extend,
        Insn::Push { .. } => Class::Push,
        Insn::Pop { .. } => Class::Pop,
        Insn::Leave => Class::Leave,
        Insn::PushFlags => Class::PushFlags,
        Insn::PopFlags => Class::PopFlags,
        Insn::Unary { .. } => Class::Unary,
        Insn::Wide { .. } => Class::Wide,
        Insn::Imul2 { .. } => Class::Imul2,
        Insn::Imul3 { .. } => Class::Imul3,
        Insn::Shift { .. } => Class::Shift,
        Insn::DoubleShift { .. } => Class::DoubleShift,
        Insn::Cmov { .. } => Class::Cmov,
        Insn::Set { .. } => Class::Set,
        Insn::Jcc { .. } => Class::Jcc,
        Insn::Jrcxz { .. } => Class::Jrcxz,
        Insn::Jmp { .. } => Class::Jmp,
        Insn::Call { .. } => Class::Call,
        Insn::CallInd { .. } => Class::CallInd,
        Insn::JmpInd { .. } => Class::JmpInd,
        Insn::Ret { .. } => Class::Ret,
        Insn::Convert { .. } => Class::Convert,
        Insn::SignFill { .. } => Class::SignFill,
        Insn::Xchg { .. } => Class::Xchg,
        Insn::CmpXchg { .. } => Class::CmpXchg,
        Insn::Xadd { .. } => Class::Xadd,
        Insn::Nop => Class::Nop,
        Insn::Bswap { .. } => Class::Bswap,
        Insn::BitTest { .. } => Class::BitTest,
        Insn::Scan { .. } => Class::Scan,
        Insn::Movs { .. } => Class::Movs,
        Insn::Stos { .. } => Class::Stos,
        Insn::Cmps { .. } => Class::Cmps,
        Insn::Scas { .. } => Class::Scas,
        Insn::Flag { .. } => Class::Flag,
        Insn::Syscall => Class::Syscall,
        Insn::Ud2 => Class::Ud2,
        Insn::Hlt => Class::Hlt,
        Insn::Int3 => Class::Int3,
    }
}
