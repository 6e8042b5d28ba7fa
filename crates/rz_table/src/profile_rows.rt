// The rows of profile 1, in their order. The opcodes are those of the Intel SDM, volume 2,
// chapters 3 to 5 and appendix A.

use rz_flags::{ArithOp, BitOp, FlagOp, ScanOp, ShiftOp, UnaryOp, WideOp};
use rz_isa::{F3Rule, Form, ImmKind, Letter, Op, OpMap, RmRule, Row, Size};

// map, opcode, span, digit, ModRM, F3, size, immediate, form, operation
pub static PROFILE: [Row; 203] = [
    // ADD: 00 to 03, 83 /0, 80 /0, 81 /0, 04, 05
    row!(One 0x00 1  _ Any          No       B  _   Near  Op::Arith(ArithOp::Add, Letter::E, Letter::G)),
    row!(One 0x01 1  _ Any          No       V  _   Near  Op::Arith(ArithOp::Add, Letter::E, Letter::G)),
    row!(One 0x02 1  _ Any          No       B  _   Near  Op::Arith(ArithOp::Add, Letter::G, Letter::E)),
    row!(One 0x03 1  _ Any          No       V  _   Near  Op::Arith(ArithOp::Add, Letter::G, Letter::E)),
    row!(One 0x83 1  0 Any          No       V  Ibs Near  Op::Arith(ArithOp::Add, Letter::E, Letter::Imm)),
    row!(One 0x80 1  0 Any          No       B  Ib  Near  Op::Arith(ArithOp::Add, Letter::E, Letter::Imm)),
    row!(One 0x81 1  0 Any          No       V  Iz  Near  Op::Arith(ArithOp::Add, Letter::E, Letter::Imm)),
    row!(One 0x04 1  _ _            No       B  Ib  Near  Op::Arith(ArithOp::Add, Letter::A, Letter::Imm)),
    row!(One 0x05 1  _ _            No       V  Iz  Near  Op::Arith(ArithOp::Add, Letter::A, Letter::Imm)),
    // OR: 08 to 0B, 83 /1, 80 /1, 81 /1, 0C, 0D
    row!(One 0x08 1  _ Any          No       B  _   Near  Op::Arith(ArithOp::Or, Letter::E, Letter::G)),
    row!(One 0x09 1  _ Any          No       V  _   Near  Op::Arith(ArithOp::Or, Letter::E, Letter::G)),
    row!(One 0x0a 1  _ Any          No       B  _   Near  Op::Arith(ArithOp::Or, Letter::G, Letter::E)),
    row!(One 0x0b 1  _ Any          No       V  _   Near  Op::Arith(ArithOp::Or, Letter::G, Letter::E)),
    row!(One 0x83 1  1 Any          No       V  Ibs Near  Op::Arith(ArithOp::Or, Letter::E, Letter::Imm)),
    row!(One 0x80 1  1 Any          No       B  Ib  Near  Op::Arith(ArithOp::Or, Letter::E, Letter::Imm)),
    row!(One 0x81 1  1 Any          No       V  Iz  Near  Op::Arith(ArithOp::Or, Letter::E, Letter::Imm)),
    row!(One 0x0c 1  _ _            No       B  Ib  Near  Op::Arith(ArithOp::Or, Letter::A, Letter::Imm)),
    row!(One 0x0d 1  _ _            No       V  Iz  Near  Op::Arith(ArithOp::Or, Letter::A, Letter::Imm)),
    // ADC: 10 to 13, 83 /2, 80 /2, 81 /2, 14, 15
    row!(One 0x10 1  _ Any          No       B  _   Near  Op::Arith(ArithOp::Adc, Letter::E, Letter::G)),
    row!(One 0x11 1  _ Any          No       V  _   Near  Op::Arith(ArithOp::Adc, Letter::E, Letter::G)),
    row!(One 0x12 1  _ Any          No       B  _   Near  Op::Arith(ArithOp::Adc, Letter::G, Letter::E)),
    row!(One 0x13 1  _ Any          No       V  _   Near  Op::Arith(ArithOp::Adc, Letter::G, Letter::E)),
    row!(One 0x83 1  2 Any          No       V  Ibs Near  Op::Arith(ArithOp::Adc, Letter::E, Letter::Imm)),
    row!(One 0x80 1  2 Any          No       B  Ib  Near  Op::Arith(ArithOp::Adc, Letter::E, Letter::Imm)),
    row!(One 0x81 1  2 Any          No       V  Iz  Near  Op::Arith(ArithOp::Adc, Letter::E, Letter::Imm)),
    row!(One 0x14 1  _ _            No       B  Ib  Near  Op::Arith(ArithOp::Adc, Letter::A, Letter::Imm)),
    row!(One 0x15 1  _ _            No       V  Iz  Near  Op::Arith(ArithOp::Adc, Letter::A, Letter::Imm)),
    // SBB: 18 to 1B, 83 /3, 80 /3, 81 /3, 1C, 1D
    row!(One 0x18 1  _ Any          No       B  _   Near  Op::Arith(ArithOp::Sbb, Letter::E, Letter::G)),
    row!(One 0x19 1  _ Any          No       V  _   Near  Op::Arith(ArithOp::Sbb, Letter::E, Letter::G)),
    row!(One 0x1a 1  _ Any          No       B  _   Near  Op::Arith(ArithOp::Sbb, Letter::G, Letter::E)),
    row!(One 0x1b 1  _ Any          No       V  _   Near  Op::Arith(ArithOp::Sbb, Letter::G, Letter::E)),
    row!(One 0x83 1  3 Any          No       V  Ibs Near  Op::Arith(ArithOp::Sbb, Letter::E, Letter::Imm)),
    row!(One 0x80 1  3 Any          No       B  Ib  Near  Op::Arith(ArithOp::Sbb, Letter::E, Letter::Imm)),
    row!(One 0x81 1  3 Any          No       V  Iz  Near  Op::Arith(ArithOp::Sbb, Letter::E, Letter::Imm)),
    row!(One 0x1c 1  _ _            No       B  Ib  Near  Op::Arith(ArithOp::Sbb, Letter::A, Letter::Imm)),
    row!(One 0x1d 1  _ _            No       V  Iz  Near  Op::Arith(ArithOp::Sbb, Letter::A, Letter::Imm)),
    // AND: 20 to 23, 83 /4, 80 /4, 81 /4, 24, 25
    row!(One 0x20 1  _ Any          No       B  _   Near  Op::Arith(ArithOp::And, Letter::E, Letter::G)),
    row!(One 0x21 1  _ Any          No       V  _   Near  Op::Arith(ArithOp::And, Letter::E, Letter::G)),
    row!(One 0x22 1  _ Any          No       B  _   Near  Op::Arith(ArithOp::And, Letter::G, Letter::E)),
    row!(One 0x23 1  _ Any          No       V  _   Near  Op::Arith(ArithOp::And, Letter::G, Letter::E)),
    row!(One 0x83 1  4 Any          No       V  Ibs Near  Op::Arith(ArithOp::And, Letter::E, Letter::Imm)),
    row!(One 0x80 1  4 Any          No       B  Ib  Near  Op::Arith(ArithOp::And, Letter::E, Letter::Imm)),
    row!(One 0x81 1  4 Any          No       V  Iz  Near  Op::Arith(ArithOp::And, Letter::E, Letter::Imm)),
    row!(One 0x24 1  _ _            No       B  Ib  Near  Op::Arith(ArithOp::And, Letter::A, Letter::Imm)),
    row!(One 0x25 1  _ _            No       V  Iz  Near  Op::Arith(ArithOp::And, Letter::A, Letter::Imm)),
    // SUB: 28 to 2B, 83 /5, 80 /5, 81 /5, 2C, 2D
    row!(One 0x28 1  _ Any          No       B  _   Near  Op::Arith(ArithOp::Sub, Letter::E, Letter::G)),
    row!(One 0x29 1  _ Any          No       V  _   Near  Op::Arith(ArithOp::Sub, Letter::E, Letter::G)),
    row!(One 0x2a 1  _ Any          No       B  _   Near  Op::Arith(ArithOp::Sub, Letter::G, Letter::E)),
    row!(One 0x2b 1  _ Any          No       V  _   Near  Op::Arith(ArithOp::Sub, Letter::G, Letter::E)),
    row!(One 0x83 1  5 Any          No       V  Ibs Near  Op::Arith(ArithOp::Sub, Letter::E, Letter::Imm)),
    row!(One 0x80 1  5 Any          No       B  Ib  Near  Op::Arith(ArithOp::Sub, Letter::E, Letter::Imm)),
    row!(One 0x81 1  5 Any          No       V  Iz  Near  Op::Arith(ArithOp::Sub, Letter::E, Letter::Imm)),
    row!(One 0x2c 1  _ _            No       B  Ib  Near  Op::Arith(ArithOp::Sub, Letter::A, Letter::Imm)),
    row!(One 0x2d 1  _ _            No       V  Iz  Near  Op::Arith(ArithOp::Sub, Letter::A, Letter::Imm)),
    // XOR: 30 to 33, 83 /6, 80 /6, 81 /6, 34, 35
    row!(One 0x30 1  _ Any          No       B  _   Near  Op::Arith(ArithOp::Xor, Letter::E, Letter::G)),
    row!(One 0x31 1  _ Any          No       V  _   Near  Op::Arith(ArithOp::Xor, Letter::E, Letter::G)),
    row!(One 0x32 1  _ Any          No       B  _   Near  Op::Arith(ArithOp::Xor, Letter::G, Letter::E)),
    row!(One 0x33 1  _ Any          No       V  _   Near  Op::Arith(ArithOp::Xor, Letter::G, Letter::E)),
    row!(One 0x83 1  6 Any          No       V  Ibs Near  Op::Arith(ArithOp::Xor, Letter::E, Letter::Imm)),
    row!(One 0x80 1  6 Any          No       B  Ib  Near  Op::Arith(ArithOp::Xor, Letter::E, Letter::Imm)),
    row!(One 0x81 1  6 Any          No       V  Iz  Near  Op::Arith(ArithOp::Xor, Letter::E, Letter::Imm)),
    row!(One 0x34 1  _ _            No       B  Ib  Near  Op::Arith(ArithOp::Xor, Letter::A, Letter::Imm)),
    row!(One 0x35 1  _ _            No       V  Iz  Near  Op::Arith(ArithOp::Xor, Letter::A, Letter::Imm)),
    // CMP: 38 to 3B, 83 /7, 80 /7, 81 /7, 3C, 3D
    row!(One 0x38 1  _ Any          No       B  _   Near  Op::Arith(ArithOp::Cmp, Letter::E, Letter::G)),
    row!(One 0x39 1  _ Any          No       V  _   Near  Op::Arith(ArithOp::Cmp, Letter::E, Letter::G)),
    row!(One 0x3a 1  _ Any          No       B  _   Near  Op::Arith(ArithOp::Cmp, Letter::G, Letter::E)),
    row!(One 0x3b 1  _ Any          No       V  _   Near  Op::Arith(ArithOp::Cmp, Letter::G, Letter::E)),
    row!(One 0x83 1  7 Any          No       V  Ibs Near  Op::Arith(ArithOp::Cmp, Letter::E, Letter::Imm)),
    row!(One 0x80 1  7 Any          No       B  Ib  Near  Op::Arith(ArithOp::Cmp, Letter::E, Letter::Imm)),
    row!(One 0x81 1  7 Any          No       V  Iz  Near  Op::Arith(ArithOp::Cmp, Letter::E, Letter::Imm)),
    row!(One 0x3c 1  _ _            No       B  Ib  Near  Op::Arith(ArithOp::Cmp, Letter::A, Letter::Imm)),
    row!(One 0x3d 1  _ _            No       V  Iz  Near  Op::Arith(ArithOp::Cmp, Letter::A, Letter::Imm)),
    // 84, 85: Test E, G
    row!(One 0x84 1  _ Any          No       B  _   Near  Op::Test(Letter::E, Letter::G)),
    row!(One 0x85 1  _ Any          No       V  _   Near  Op::Test(Letter::E, Letter::G)),
    // F6 /0, F7 /0: Test E, Ib or Iz
    row!(One 0xf6 1  0 Any          No       B  Ib  Near  Op::Test(Letter::E, Letter::Imm)),
    row!(One 0xf7 1  0 Any          No       V  Iz  Near  Op::Test(Letter::E, Letter::Imm)),
    // A8, A9: Test A, Ib or Iz
    row!(One 0xa8 1  _ _            No       B  Ib  Near  Op::Test(Letter::A, Letter::Imm)),
    row!(One 0xa9 1  _ _            No       V  Iz  Near  Op::Test(Letter::A, Letter::Imm)),
    // 88, 89: Mov E, G
    row!(One 0x88 1  _ Any          No       B  _   Near  Op::Mov(Letter::E, Letter::G)),
    row!(One 0x89 1  _ Any          No       V  _   Near  Op::Mov(Letter::E, Letter::G)),
    // 8A, 8B: Mov G, E
    row!(One 0x8a 1  _ Any          No       B  _   Near  Op::Mov(Letter::G, Letter::E)),
    row!(One 0x8b 1  _ Any          No       V  _   Near  Op::Mov(Letter::G, Letter::E)),
    // B0+r: Mov O, Ib
    row!(One 0xb0 8  _ _            No       B  Ib  Near  Op::Mov(Letter::O, Letter::Imm)),
    // B8+r: Mov O, Iv
    row!(One 0xb8 8  _ _            No       D  Iv  Near  Op::Mov(Letter::O, Letter::Imm)),
    // C6 /0, C7 /0: Mov E, Ib or Iz
    row!(One 0xc6 1  0 Any          No       B  Ib  Near  Op::Mov(Letter::E, Letter::Imm)),
    row!(One 0xc7 1  0 Any          No       V  Iz  Near  Op::Mov(Letter::E, Letter::Imm)),
    // B8+r with REX.W: Mov O, Iv
    row!(One 0xb8 8  _ _            No       WQ Iv  Near  Op::Mov(Letter::O, Letter::Imm)),
    // 8D: Lea G, M
    row!(One 0x8d 1  _ MemoryOnly   No       V  _   Near  Op::Lea(Letter::G, Letter::M)),
    // 0F B6, 0F BE: Extend G, E8
    row!(Two 0xb6 1  _ Any          No       V  _   Near  Op::Extend(false, Letter::G, Letter::E8)),
    row!(Two 0xbe 1  _ Any          No       V  _   Near  Op::Extend(true, Letter::G, Letter::E8)),
    // 0F B7, 0F BF: Extend G, E16
    row!(Two 0xb7 1  _ Any          No       Y  _   Near  Op::Extend(false, Letter::G, Letter::E16)),
    row!(Two 0xbf 1  _ Any          No       Y  _   Near  Op::Extend(true, Letter::G, Letter::E16)),
    // 63: Extend G, E32
    row!(One 0x63 1  _ Any          No       WQ _   Near  Op::Extend(true, Letter::G, Letter::E32)),
    // 50+r: Push O
    row!(One 0x50 8  _ _            No       Q  _   Near  Op::Push(Letter::O)),
    // FF /6: Push E
    row!(One 0xff 1  6 Any          No       Q  _   Near  Op::Push(Letter::E)),
    // 6A: Push Ibs
    row!(One 0x6a 1  _ _            No       Q  Ibs Near  Op::Push(Letter::Imm)),
    // 68: Push Iz
    row!(One 0x68 1  _ _            No       Q  Iz  Near  Op::Push(Letter::Imm)),
    // 58+r: Pop O
    row!(One 0x58 8  _ _            No       Q  _   Near  Op::Pop(Letter::O)),
    // 8F /0: Pop E
    row!(One 0x8f 1  0 Any          No       Q  _   Near  Op::Pop(Letter::E)),
    // C9: Leave
    row!(One 0xc9 1  _ _            No       Q  _   Near  Op::Leave),
    // 9C, 9D: PushFlags, PopFlags
    row!(One 0x9c 1  _ _            No       Q  _   Near  Op::PushFlags),
    row!(One 0x9d 1  _ _            No       Q  _   Near  Op::PopFlags),
    // FE /0 /1, FF /0 /1: Inc, Dec E
    row!(One 0xfe 1  0 Any          No       B  _   Near  Op::Unary(UnaryOp::Inc, Letter::E)),
    row!(One 0xfe 1  1 Any          No       B  _   Near  Op::Unary(UnaryOp::Dec, Letter::E)),
    row!(One 0xff 1  0 Any          No       V  _   Near  Op::Unary(UnaryOp::Inc, Letter::E)),
    row!(One 0xff 1  1 Any          No       V  _   Near  Op::Unary(UnaryOp::Dec, Letter::E)),
    // F6 /2 /3, F7 /2 /3: Not, Neg E
    row!(One 0xf6 1  2 Any          No       B  _   Near  Op::Unary(UnaryOp::Not, Letter::E)),
    row!(One 0xf6 1  3 Any          No       B  _   Near  Op::Unary(UnaryOp::Neg, Letter::E)),
    row!(One 0xf7 1  2 Any          No       V  _   Near  Op::Unary(UnaryOp::Not, Letter::E)),
    row!(One 0xf7 1  3 Any          No       V  _   Near  Op::Unary(UnaryOp::Neg, Letter::E)),
    // F6 /4 to /7, F7 /4 to /7: Mul, Imul, Div, Idiv E
    row!(One 0xf6 1  4 Any          No       B  _   Near  Op::Wide(WideOp::Mul, Letter::E)),
    row!(One 0xf6 1  5 Any          No       B  _   Near  Op::Wide(WideOp::Imul, Letter::E)),
    row!(One 0xf6 1  6 Any          No       B  _   Near  Op::Wide(WideOp::Div, Letter::E)),
    row!(One 0xf6 1  7 Any          No       B  _   Near  Op::Wide(WideOp::Idiv, Letter::E)),
    row!(One 0xf7 1  4 Any          No       V  _   Near  Op::Wide(WideOp::Mul, Letter::E)),
    row!(One 0xf7 1  5 Any          No       V  _   Near  Op::Wide(WideOp::Imul, Letter::E)),
    row!(One 0xf7 1  6 Any          No       V  _   Near  Op::Wide(WideOp::Div, Letter::E)),
    row!(One 0xf7 1  7 Any          No       V  _   Near  Op::Wide(WideOp::Idiv, Letter::E)),
    // 0F AF: Imul2 G, E
    row!(Two 0xaf 1  _ Any          No       V  _   Near  Op::Imul2(Letter::G, Letter::E)),
    // 6B: Imul3 G, E, Ibs
    row!(One 0x6b 1  _ Any          No       V  Ibs Near  Op::Imul3(Letter::G, Letter::E, Letter::Imm)),
    // 69: Imul3 G, E, Iz
    row!(One 0x69 1  _ Any          No       V  Iz  Near  Op::Imul3(Letter::G, Letter::E, Letter::Imm)),
    // D0, D1 /0 /1 /4 /5 /7: Shift E by 1
    row!(One 0xd0 1  0 Any          No       B  _   Near  Op::Shift(ShiftOp::Rol, Letter::E, Letter::One)),
    row!(One 0xd0 1  1 Any          No       B  _   Near  Op::Shift(ShiftOp::Ror, Letter::E, Letter::One)),
    row!(One 0xd0 1  4 Any          No       B  _   Near  Op::Shift(ShiftOp::Shl, Letter::E, Letter::One)),
    row!(One 0xd0 1  5 Any          No       B  _   Near  Op::Shift(ShiftOp::Shr, Letter::E, Letter::One)),
    row!(One 0xd0 1  7 Any          No       B  _   Near  Op::Shift(ShiftOp::Sar, Letter::E, Letter::One)),
    row!(One 0xd1 1  0 Any          No       V  _   Near  Op::Shift(ShiftOp::Rol, Letter::E, Letter::One)),
    row!(One 0xd1 1  1 Any          No       V  _   Near  Op::Shift(ShiftOp::Ror, Letter::E, Letter::One)),
    row!(One 0xd1 1  4 Any          No       V  _   Near  Op::Shift(ShiftOp::Shl, Letter::E, Letter::One)),
    row!(One 0xd1 1  5 Any          No       V  _   Near  Op::Shift(ShiftOp::Shr, Letter::E, Letter::One)),
    row!(One 0xd1 1  7 Any          No       V  _   Near  Op::Shift(ShiftOp::Sar, Letter::E, Letter::One)),
    // C0, C1 /0 /1 /4 /5 /7: Shift E by Ib
    row!(One 0xc0 1  0 Any          No       B  Ib  Near  Op::Shift(ShiftOp::Rol, Letter::E, Letter::Imm)),
    row!(One 0xc0 1  1 Any          No       B  Ib  Near  Op::Shift(ShiftOp::Ror, Letter::E, Letter::Imm)),
    row!(One 0xc0 1  4 Any          No       B  Ib  Near  Op::Shift(ShiftOp::Shl, Letter::E, Letter::Imm)),
    row!(One 0xc0 1  5 Any          No       B  Ib  Near  Op::Shift(ShiftOp::Shr, Letter::E, Letter::Imm)),
    row!(One 0xc0 1  7 Any          No       B  Ib  Near  Op::Shift(ShiftOp::Sar, Letter::E, Letter::Imm)),
    row!(One 0xc1 1  0 Any          No       V  Ib  Near  Op::Shift(ShiftOp::Rol, Letter::E, Letter::Imm)),
    row!(One 0xc1 1  1 Any          No       V  Ib  Near  Op::Shift(ShiftOp::Ror, Letter::E, Letter::Imm)),
    row!(One 0xc1 1  4 Any          No       V  Ib  Near  Op::Shift(ShiftOp::Shl, Letter::E, Letter::Imm)),
    row!(One 0xc1 1  5 Any          No       V  Ib  Near  Op::Shift(ShiftOp::Shr, Letter::E, Letter::Imm)),
    row!(One 0xc1 1  7 Any          No       V  Ib  Near  Op::Shift(ShiftOp::Sar, Letter::E, Letter::Imm)),
    // D2, D3 /0 /1 /4 /5 /7: Shift E by CL
    row!(One 0xd2 1  0 Any          No       B  _   Near  Op::Shift(ShiftOp::Rol, Letter::E, Letter::Cl)),
    row!(One 0xd2 1  1 Any          No       B  _   Near  Op::Shift(ShiftOp::Ror, Letter::E, Letter::Cl)),
    row!(One 0xd2 1  4 Any          No       B  _   Near  Op::Shift(ShiftOp::Shl, Letter::E, Letter::Cl)),
    row!(One 0xd2 1  5 Any          No       B  _   Near  Op::Shift(ShiftOp::Shr, Letter::E, Letter::Cl)),
    row!(One 0xd2 1  7 Any          No       B  _   Near  Op::Shift(ShiftOp::Sar, Letter::E, Letter::Cl)),
    row!(One 0xd3 1  0 Any          No       V  _   Near  Op::Shift(ShiftOp::Rol, Letter::E, Letter::Cl)),
    row!(One 0xd3 1  1 Any          No       V  _   Near  Op::Shift(ShiftOp::Ror, Letter::E, Letter::Cl)),
    row!(One 0xd3 1  4 Any          No       V  _   Near  Op::Shift(ShiftOp::Shl, Letter::E, Letter::Cl)),
    row!(One 0xd3 1  5 Any          No       V  _   Near  Op::Shift(ShiftOp::Shr, Letter::E, Letter::Cl)),
    row!(One 0xd3 1  7 Any          No       V  _   Near  Op::Shift(ShiftOp::Sar, Letter::E, Letter::Cl)),
    // 0F A4, 0F AC: DoubleShift E, G by Ib
    row!(Two 0xa4 1  _ Any          No       Y  Ib  Near  Op::DoubleShift(true, Letter::E, Letter::G, Letter::Imm)),
    row!(Two 0xac 1  _ Any          No       Y  Ib  Near  Op::DoubleShift(false, Letter::E, Letter::G, Letter::Imm)),
    // 0F A5, 0F AD: DoubleShift E, G by CL
    row!(Two 0xa5 1  _ Any          No       Y  _   Near  Op::DoubleShift(true, Letter::E, Letter::G, Letter::Cl)),
    row!(Two 0xad 1  _ Any          No       Y  _   Near  Op::DoubleShift(false, Letter::E, Letter::G, Letter::Cl)),
    // 0F 40+cc: Cmov G, E
    row!(Two 0x40 16 _ Any          No       V  _   Near  Op::Cmov(Letter::G, Letter::E)),
    // 0F 90+cc: Set E
    row!(Two 0x90 16 _ Any          No       B  _   Near  Op::Set(Letter::E)),
    // 70+cc: Jcc J8
    row!(One 0x70 16 _ _            No       N  J8  Short Op::Jcc),
    // 0F 80+cc: Jcc J32
    row!(Two 0x80 16 _ _            No       N  J32 Near  Op::Jcc),
    // E3: Jrcxz J8
    row!(One 0xe3 1  _ _            No       N  J8  Near  Op::Jrcxz),
    // EB: Jmp J8
    row!(One 0xeb 1  _ _            No       N  J8  Short Op::Jmp),
    // E9: Jmp J32
    row!(One 0xe9 1  _ _            No       N  J32 Near  Op::Jmp),
    // E8: Call J32
    row!(One 0xe8 1  _ _            No       N  J32 Near  Op::Call),
    // FF /2: CallInd E
    row!(One 0xff 1  2 Any          No       Q  _   Near  Op::CallInd(Letter::E)),
    // FF /4: JmpInd E
    row!(One 0xff 1  4 Any          No       Q  _   Near  Op::JmpInd(Letter::E)),
    // C3: Ret 0
    row!(One 0xc3 1  _ _            Allowed  N  _   Near  Op::Ret),
    // C2: Ret Iw
    row!(One 0xc2 1  _ _            No       N  Iw  Near  Op::Ret),
    // 98: Convert
    row!(One 0x98 1  _ _            No       V  _   Near  Op::Convert),
    // 99: SignFill
    row!(One 0x99 1  _ _            No       V  _   Near  Op::SignFill),
    // 86, 87: Xchg E, G
    row!(One 0x86 1  _ Any          No       B  _   Near  Op::Xchg(Letter::E, Letter::G)),
    row!(One 0x87 1  _ Any          No       V  _   Near  Op::Xchg(Letter::E, Letter::G)),
    // 90+r, not register 0: Xchg O, A
    row!(One 0x90 8  _ _            No       V  _   Near  Op::Xchg(Letter::O, Letter::A)),
    // 90 without REX.B: Nop
    row!(One 0x90 1  _ _            No       V  _   Near  Op::Nop),
    // F3 90 without REX.B: Nop (PAUSE)
    row!(One 0x90 1  _ _            Required N  _   Near  Op::Nop),
    // 0F 1F /0: Nop with an operand
    row!(Two 0x1f 1  0 Any          No       V  _   Near  Op::Nop),
    // F3 0F 1E FA: Nop (ENDBR64)
    row!(Two 0x1e 1  _ (0xfa)       Required N  _   Near  Op::Nop),
    // 0F C8+r: Bswap O
    row!(Two 0xc8 8  _ _            No       Y  _   Near  Op::Bswap(Letter::O)),
    // 0F A3, AB, B3, BB: BitTest Er, G
    row!(Two 0xa3 1  _ RegisterOnly No       V  _   Near  Op::BitTest(BitOp::Test, Letter::Er, Letter::G)),
    row!(Two 0xab 1  _ RegisterOnly No       V  _   Near  Op::BitTest(BitOp::Set, Letter::Er, Letter::G)),
    row!(Two 0xb3 1  _ RegisterOnly No       V  _   Near  Op::BitTest(BitOp::Reset, Letter::Er, Letter::G)),
    row!(Two 0xbb 1  _ RegisterOnly No       V  _   Near  Op::BitTest(BitOp::Complement, Letter::Er, Letter::G)),
    // 0F BA /4 to /7: BitTest E, Ib
    row!(Two 0xba 1  4 Any          No       V  Ib  Near  Op::BitTest(BitOp::Test, Letter::E, Letter::Imm)),
    row!(Two 0xba 1  5 Any          No       V  Ib  Near  Op::BitTest(BitOp::Set, Letter::E, Letter::Imm)),
    row!(Two 0xba 1  6 Any          No       V  Ib  Near  Op::BitTest(BitOp::Reset, Letter::E, Letter::Imm)),
    row!(Two 0xba 1  7 Any          No       V  Ib  Near  Op::BitTest(BitOp::Complement, Letter::E, Letter::Imm)),
    // 0F BC, BD: Bsf, Bsr G, E
    row!(Two 0xbc 1  _ Any          No       V  _   Near  Op::Scan(ScanOp::Bsf, Letter::G, Letter::E)),
    row!(Two 0xbd 1  _ Any          No       V  _   Near  Op::Scan(ScanOp::Bsr, Letter::G, Letter::E)),
    // F3 0F BC, BD, B8: Tzcnt, Lzcnt, Popcnt G, E
    row!(Two 0xbc 1  _ Any          Required V  _   Near  Op::Scan(ScanOp::Tzcnt, Letter::G, Letter::E)),
    row!(Two 0xbd 1  _ Any          Required V  _   Near  Op::Scan(ScanOp::Lzcnt, Letter::G, Letter::E)),
    row!(Two 0xb8 1  _ Any          Required V  _   Near  Op::Scan(ScanOp::Popcnt, Letter::G, Letter::E)),
    // A4, A5: Movs
    row!(One 0xa4 1  _ _            Repeats  B  _   Near  Op::Movs),
    row!(One 0xa5 1  _ _            Repeats  V  _   Near  Op::Movs),
    // AA, AB: Stos
    row!(One 0xaa 1  _ _            Repeats  B  _   Near  Op::Stos),
    row!(One 0xab 1  _ _            Repeats  V  _   Near  Op::Stos),
    // F8, F9, F5, FC, FD: Clc, Stc, Cmc, Cld, Std
    row!(One 0xf8 1  _ _            No       N  _   Near  Op::Flag(FlagOp::Clc)),
    row!(One 0xf9 1  _ _            No       N  _   Near  Op::Flag(FlagOp::Stc)),
    row!(One 0xf5 1  _ _            No       N  _   Near  Op::Flag(FlagOp::Cmc)),
    row!(One 0xfc 1  _ _            No       N  _   Near  Op::Flag(FlagOp::Cld)),
    row!(One 0xfd 1  _ _            No       N  _   Near  Op::Flag(FlagOp::Std)),
    // 0F 05: Syscall
    row!(Two 0x05 1  _ _            No       N  _   Near  Op::Syscall),
    // 0F 0B: Ud2
    row!(Two 0x0b 1  _ _            No       N  _   Near  Op::Ud2),
    // F4: Hlt
    row!(One 0xf4 1  _ _            No       N  _   Near  Op::Hlt),
    // CC: Int3
    row!(One 0xcc 1  _ _            No       N  _   Near  Op::Int3),
];
