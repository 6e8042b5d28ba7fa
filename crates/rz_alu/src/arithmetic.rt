//! Arithmetic and logic with two operands and with one.

ghost use Rattle.std.specs.Prelude.{◌≡◌};
ghost use Rattle.rz_alu.specs.Arith.{arith, logic};
ghost use Rattle.rz_alu.specs.Unary.{unary};

use crate::status::flags_of;
use crate::sums::{add, subtract};
use rz_flags::{ArithOp, Flags, UnaryOp};
use rz_num::{Width, mask};

/// The value of an operation on two operands, which are cut to the width, and the flags after it. The value of CMP is
/// the difference (Intel SDM, volume 2, "ADD", "OR", "ADC", "SBB", "AND", "SUB", "XOR", "CMP"). It takes no memory.
#[inline(always)]
pub fn arith(op: ArithOp, w: Width, a: u64, b: u64, flags: Flags) -> (u64, Flags)
    ensures value { result.0 ≡ (arith op w a b flags).value }
    ensures flags { result.1 ≡ (arith op w a b flags).flags }
{
    let a = mask(w, a);
    let b = mask(w, b);
    match op {
        ArithOp::Add => add(w, a, b, false, flags),
        ArithOp::Adc => add(w, a, b, flags.cf, flags),
        ArithOp::Sub | ArithOp::Cmp => subtract(w, a, b, false, flags),
        ArithOp::Sbb => subtract(w, a, b, flags.cf, flags),
        ArithOp::And => logic(w, a & b, flags),
        ArithOp::Or => logic(w, a | b, flags),
        ArithOp::Xor => logic(w, a ^ b, flags),
    }
}

#[inline(always)]
fn logic(w: Width, value: u64, flags: Flags) -> (u64, Flags)
    ensures value { result.0 ≡ (logic w value flags).value }
    ensures flags { result.1 ≡ (logic w value flags).flags }
{
    (value, flags_of(w, value, false, false, false, flags))
}

/// The value of an operation on one operand, which is cut to the width, and the flags after it: INC and DEC leave CF,
/// and NOT leaves all (Intel SDM, volume 2, "INC", "DEC", "NOT", "NEG"). It takes no memory.
#[inline(always)]
pub fn unary(op: UnaryOp, w: Width, a: u64, flags: Flags) -> (u64, Flags)
    ensures value { result.0 ≡ (unary op w a flags).value }
    ensures flags { result.1 ≡ (unary op w a flags).flags }
{
    let a = mask(w, a);
    match op {
        UnaryOp::Inc => keep_carry(add(w, a, 1, false, flags), flags.cf),
        UnaryOp::Dec => keep_carry(subtract(w, a, 1, false, flags), flags.cf),
        UnaryOp::Not => (w.greatest() - a, flags),
        UnaryOp::Neg => subtract(w, 0, a, false, flags),
    }
}

#[inline(always)]
fn keep_carry(answer: (u64, Flags), cf: bool) -> (u64, Flags)
    ensures value { result.0 ≡ answer.0 }
    ensures flags { result.1 ≡ record answer.1 { cf = cf } }
{
    let (value, flags) = answer;
    (value, Flags { cf, ..flags })
}
