// The rows that profile 2 has beyond those of profile 1, in their order. The opcodes are those of the Intel SDM, volume 2,
// chapters 3 to 5 and appendix A.

use rz_flags::ShiftOp;
use rz_isa::{F3Rule, Form, ImmKind, Letter, Op, OpMap, RmRule, Row, Size};

// map, opcode, span, digit, ModRM, F3, size, immediate, form, operation
pub static FURTHER: [Row; 20] = [
    // D0 /2 /3, D1 /2 /3: Rcl, Rcr E by 1
    row!(One 0xd0 1  2 Any          No       B  _   Near  Op::Shift(ShiftOp::Rcl, Letter::E, Letter::One)),
    row!(One 0xd0 1  3 Any          No       B  _   Near  Op::Shift(ShiftOp::Rcr, Letter::E, Letter::One)),
    row!(One 0xd1 1  2 Any          No       V  _   Near  Op::Shift(ShiftOp::Rcl, Letter::E, Letter::One)),
    row!(One 0xd1 1  3 Any          No       V  _   Near  Op::Shift(ShiftOp::Rcr, Letter::E, Letter::One)),
    // C0 /2 /3, C1 /2 /3: Rcl, Rcr E by Ib
    row!(One 0xc0 1  2 Any          No       B  Ib  Near  Op::Shift(ShiftOp::Rcl, Letter::E, Letter::Imm)),
    row!(One 0xc0 1  3 Any          No       B  Ib  Near  Op::Shift(ShiftOp::Rcr, Letter::E, Letter::Imm)),
    row!(One 0xc1 1  2 Any          No       V  Ib  Near  Op::Shift(ShiftOp::Rcl, Letter::E, Letter::Imm)),
    row!(One 0xc1 1  3 Any          No       V  Ib  Near  Op::Shift(ShiftOp::Rcr, Letter::E, Letter::Imm)),
    // D2 /2 /3, D3 /2 /3: Rcl, Rcr E by CL
    row!(One 0xd2 1  2 Any          No       B  _   Near  Op::Shift(ShiftOp::Rcl, Letter::E, Letter::Cl)),
    row!(One 0xd2 1  3 Any          No       B  _   Near  Op::Shift(ShiftOp::Rcr, Letter::E, Letter::Cl)),
    row!(One 0xd3 1  2 Any          No       V  _   Near  Op::Shift(ShiftOp::Rcl, Letter::E, Letter::Cl)),
    row!(One 0xd3 1  3 Any          No       V  _   Near  Op::Shift(ShiftOp::Rcr, Letter::E, Letter::Cl)),
    // 0F B0, B1: CmpXchg E, G
    row!(Two 0xb0 1  _ Any          No       B  _   Near  Op::CmpXchg(Letter::E, Letter::G)),
    row!(Two 0xb1 1  _ Any          No       V  _   Near  Op::CmpXchg(Letter::E, Letter::G)),
    // 0F C0, C1: Xadd E, G
    row!(Two 0xc0 1  _ Any          No       B  _   Near  Op::Xadd(Letter::E, Letter::G)),
    row!(Two 0xc1 1  _ Any          No       V  _   Near  Op::Xadd(Letter::E, Letter::G)),
    // A6, A7: Cmps
    row!(One 0xa6 1  _ _            RepeatsBoth B _ Near  Op::Cmps),
    row!(One 0xa7 1  _ _            RepeatsBoth V _ Near  Op::Cmps),
    // AE, AF: Scas
    row!(One 0xae 1  _ _            RepeatsBoth B _ Near  Op::Scas),
    row!(One 0xaf 1  _ _            RepeatsBoth V _ Near  Op::Scas),
];
