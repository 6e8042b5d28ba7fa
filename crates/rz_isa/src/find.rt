ghost use Rattle.std.specs.Prelude.{◌≡◌, IsTrue, IfSome, IfNone};
ghost use Rattle.rz_isa.specs.Regular.{is_regular};
ghost use Rattle.rz_isa.specs.Spells.{Builds, NoneBuilds};
ghost use Rattle.rz_isa.specs.declared.rows.Op.TheVariants as ops;
ghost use Rattle.std.specs.Option.{option_and_then};
ghost use Rattle.rz_isa.specs.Finding.{with_place as with_place_at, with_operand as with_operand_at, with_reg as with_reg_at, with_number as with_number_at, with_count as with_count_at, with_index as with_index_at, found_in as found_from, rep_byte as rep_byte_of, repeat_byte as repeat_byte_of, least_width as least_width_of, least_place as least_place_of, least as least_of, found};

use crate::having::{can_have, is_first};
use crate::instruction::{BitIndex, Count, Insn, Mem, Operand, Place, Reg, Rep};
use crate::rows::{Letter, Op, RmRule, Row, Size};
use crate::spelled::{Fields, letter_width};
use rz_flags::{ArithOp, BitOp, ScanOp, ShiftOp, UnaryOp, WideOp};
use rz_num::Width;

fn with_place(letter: Letter, place: Place, f: Fields) -> Option<Fields>
    ensures { result ≡ with_place_at letter place f }
{
    match letter {
        Letter::G | Letter::O => match place {
            Place::Reg(reg) => Some(Fields { reg, ..f }),
            _ => None,
        },
        Letter::A => match place {
            Place::Reg(reg) => { if is_first(reg) { Some(f) } else { None } }
            _ => None,
        },
        _ => Some(Fields { rm: place, ..f }),
    }
}

fn with_operand(letter: Letter, operand: Operand, f: Fields) -> Option<Fields>
    ensures { result ≡ with_operand_at letter operand f }
{
    match letter {
        Letter::Imm => match operand {
            Operand::Imm(imm) => Some(Fields { imm, ..f }),
            _ => None,
        },
        _ => match operand {
            Operand::Place(place) => with_place(letter, place, f),
            _ => None,
        },
    }
}

fn with_reg(letter: Letter, reg: Reg, f: Fields) -> Option<Fields>
    ensures { result ≡ with_reg_at letter reg f }
{
    match letter {
        Letter::A => { if is_first(reg) { Some(f) } else { None } }
        _ => Some(Fields { reg, ..f }),
    }
}

fn with_number(letter: Letter, number: u8, f: Fields) -> Option<Fields>
    ensures { result ≡ with_number_at letter number f }
{
    with_reg(letter, Reg::R(number), f)
}

fn with_count(letter: Letter, count: Count, f: Fields) -> Option<Fields>
    ensures { result ≡ with_count_at letter count f }
{
    match letter {
        Letter::One => match count {
            Count::Imm(n) => { if n == 1 { Some(f) } else { None } }
            Count::Cl => None,
        },
        Letter::Cl => match count {
            Count::Cl => Some(f),
            Count::Imm(_) => None,
        },
        _ => match count {
            Count::Imm(n) => Some(Fields {
                imm: u64::from(n),
                ..f
            }),
            Count::Cl => None,
        },
    }
}

fn with_index(letter: Letter, index: BitIndex, f: Fields) -> Option<Fields>
    ensures { result ≡ with_index_at letter index f }
{
    match letter {
        Letter::Imm => match index {
            BitIndex::Imm(n) => Some(Fields {
                imm: u64::from(n),
                ..f
            }),
            BitIndex::Reg(_) => None,
        },
        _ => match index {
            BitIndex::Reg(n) => with_number(letter, n, f),
            BitIndex::Imm(_) => None,
        },
    }
}

// Fields with a destination and a source.
fn with_operands(d: Letter, dst: Place, s: Letter, src: Operand, f: Fields) -> Option<Fields>
    ensures { result ≡ option_and_then (with_operand_at s src) (with_place_at d dst f) }
{
    with_operand(s, src, with_place(d, dst, f)?)
}

fn with_number_and_place(d: Letter, dst: u8, s: Letter, src: Place, f: Fields) -> Option<Fields>
    ensures { result ≡ option_and_then (with_place_at s src) (with_number_at d dst f) }
{
    with_place(s, src, with_number(d, dst, f)?)
}

fn with_place_and_number(d: Letter, dst: Place, s: Letter, src: u8, f: Fields) -> Option<Fields>
    ensures { result ≡ option_and_then (with_number_at s src) (with_place_at d dst f) }
{
    with_number(s, src, with_place(d, dst, f)?)
}

fn with_place_and_reg(d: Letter, dst: Place, s: Letter, src: Reg, f: Fields) -> Option<Fields>
    ensures { result ≡ option_and_then (with_reg_at s src) (with_place_at d dst f) }
{
    with_reg(s, src, with_place(d, dst, f)?)
}

fn counted(c: Letter, count: Count, f: Option<Fields>) -> Option<Fields>
    ensures { result ≡ option_and_then (with_count_at c count) f }
{
    with_count(c, count, f?)
}

fn indexed(i: Letter, index: BitIndex, f: Option<Fields>) -> Option<Fields>
    ensures { result ≡ option_and_then (with_index_at i index) f }
{
    with_index(i, index, f?)
}

// ---- the fields `f` with what an instruction of one operation names; `None` for other instructions

fn arith_fields(op: ArithOp, d: Letter, s: Letter, insn: &Insn, f: Fields) -> Option<Fields>
    ensures { result ≡ found_from (ops.Arith op d s) insn.now f }
{
    match *insn {
        Insn::Arith { op: o, w, dst, src } if op == o => {
            with_operands(d, dst, s, src, Fields { w, ..f })
        }
        _ => None,
    }
}

fn test_fields(d: Letter, s: Letter, insn: &Insn, f: Fields) -> Option<Fields>
    ensures { result ≡ found_from (ops.Test d s) insn.now f }
{
    match *insn {
        Insn::Test { w, dst, src } => with_operands(d, dst, s, src, Fields { w, ..f }),
        _ => None,
    }
}

fn mov_fields(d: Letter, s: Letter, insn: &Insn, f: Fields) -> Option<Fields>
    ensures { result ≡ found_from (ops.Mov d s) insn.now f }
{
    match *insn {
        Insn::Mov { w, dst, src } => with_operands(d, dst, s, src, Fields { w, ..f }),
        _ => None,
    }
}

fn lea_fields(d: Letter, s: Letter, insn: &Insn, f: Fields) -> Option<Fields>
    ensures { result ≡ found_from (ops.Lea d s) insn.now f }
{
    match *insn {
        Insn::Lea { w, dst, src } => with_number_and_place(d, dst, s, src, Fields { w, ..f }),
        _ => None,
    }
}

fn extend_fields(signed: bool, d: Letter, s: Letter, insn: &Insn, f: Fields) -> Option<Fields>
    ensures { result ≡ found_from (ops.Extend signed d s) insn.now f }
{
    match *insn {
        Insn::Extend {
            signed: o,
            to,
            from,
            dst,
            src,
        } if signed == o && from == letter_width(s, to) => {
            with_number_and_place(d, dst, s, src, Fields { w: to, ..f })
        }
        _ => None,
    }
}

fn push_fields(s: Letter, insn: &Insn, f: Fields) -> Option<Fields>
    ensures { result ≡ found_from (ops.Push s) insn.now f }
{
    match *insn {
        Insn::Push { src } => with_operand(s, src, f),
        _ => None,
    }
}

fn pop_fields(d: Letter, insn: &Insn, f: Fields) -> Option<Fields>
    ensures { result ≡ found_from (ops.Pop d) insn.now f }
{
    match *insn {
        Insn::Pop { dst } => with_place(d, dst, f),
        _ => None,
    }
}

fn unary_fields(op: UnaryOp, d: Letter, insn: &Insn, f: Fields) -> Option<Fields>
    ensures { result ≡ found_from (ops.Unary op d) insn.now f }
{
    match *insn {
        Insn::Unary { op: o, w, dst } if op == o => with_place(d, dst, Fields { w, ..f }),
        _ => None,
    }
}

fn wide_fields(op: WideOp, s: Letter, insn: &Insn, f: Fields) -> Option<Fields>
    ensures { result ≡ found_from (ops.Wide op s) insn.now f }
{
    match *insn {
        Insn::Wide { op: o, w, src } if op == o => with_place(s, src, Fields { w, ..f }),
        _ => None,
    }
}

fn imul2_fields(d: Letter, s: Letter, insn: &Insn, f: Fields) -> Option<Fields>
    ensures { result ≡ found_from (ops.Imul2 d s) insn.now f }
{
    match *insn {
        Insn::Imul2 { w, dst, src } => with_number_and_place(d, dst, s, src, Fields { w, ..f }),
        _ => None,
    }
}

fn imul3_fields(d: Letter, s: Letter, _third: Letter, insn: &Insn, f: Fields) -> Option<Fields>
    ensures { result ≡ found_from (ops.Imul3 d s _third) insn.now f }
{
    match *insn {
        Insn::Imul3 { w, dst, src, imm } => with_number_and_place(
            d,
            dst,
            s,
            src,
            Fields { w, imm, ..f },
        ),
        _ => None,
    }
}

fn shift_fields(op: ShiftOp, d: Letter, c: Letter, insn: &Insn, f: Fields) -> Option<Fields>
    ensures { result ≡ found_from (ops.Shift op d c) insn.now f }
{
    match *insn {
        Insn::Shift {
            op: o,
            w,
            dst,
            count,
        } if op == o => { counted(c, count, with_place(d, dst, Fields { w, ..f })) }
        _ => None,
    }
}

fn double_shift_fields(
    left: bool,
    d: Letter,
    s: Letter,
    c: Letter,
    insn: &Insn,
    f: Fields,
) -> Option<Fields>
    ensures { result ≡ found_from (ops.DoubleShift left d s c) insn.now f }
{
    match *insn {
        Insn::DoubleShift {
            left: o,
            w,
            dst,
            src,
            count,
        } if left == o => {
            counted(
                c,
                count,
                with_place_and_number(d, dst, s, src, Fields { w, ..f }),
            )
        }
        _ => None,
    }
}

fn cmov_fields(d: Letter, s: Letter, insn: &Insn, f: Fields) -> Option<Fields>
    ensures { result ≡ found_from (ops.Cmov d s) insn.now f }
{
    match *insn {
        Insn::Cmov { cond, w, dst, src } => {
            with_number_and_place(
                d,
                dst,
                s,
                src,
                Fields {
                    w,
                    cond: cond.number(),
                    ..f
                },
            )
        }
        _ => None,
    }
}

fn set_fields(d: Letter, insn: &Insn, f: Fields) -> Option<Fields>
    ensures { result ≡ found_from (ops.Set d) insn.now f }
{
    match *insn {
        Insn::Set { cond, dst } => with_place(
            d,
            dst,
            Fields {
                cond: cond.number(),
                ..f
            },
        ),
        _ => None,
    }
}

fn jcc_fields(insn: &Insn, f: Fields) -> Option<Fields>
    ensures { result ≡ found_from ops.Jcc insn.now f }
{
    match *insn {
        Insn::Jcc { cond, target } => Some(Fields {
            cond: cond.number(),
            imm: target,
            ..f
        }),
        _ => None,
    }
}

fn call_ind_fields(s: Letter, insn: &Insn, f: Fields) -> Option<Fields>
    ensures { result ≡ found_from (ops.CallInd s) insn.now f }
{
    match *insn {
        Insn::CallInd { src } => with_place(s, src, f),
        _ => None,
    }
}

fn jmp_ind_fields(s: Letter, insn: &Insn, f: Fields) -> Option<Fields>
    ensures { result ≡ found_from (ops.JmpInd s) insn.now f }
{
    match *insn {
        Insn::JmpInd { src } => with_place(s, src, f),
        _ => None,
    }
}

fn xchg_fields(d: Letter, s: Letter, insn: &Insn, f: Fields) -> Option<Fields>
    ensures { result ≡ found_from (ops.Xchg d s) insn.now f }
{
    match *insn {
        Insn::Xchg { w, dst, src } => with_place_and_reg(d, dst, s, src, Fields { w, ..f }),
        _ => None,
    }
}

fn cmpxchg_fields(d: Letter, s: Letter, insn: &Insn, f: Fields) -> Option<Fields>
    ensures { result ≡ found_from (ops.CmpXchg d s) insn.now f }
{
    match *insn {
        Insn::CmpXchg { w, dst, src } => with_place_and_reg(d, dst, s, src, Fields { w, ..f }),
        _ => None,
    }
}

fn xadd_fields(d: Letter, s: Letter, insn: &Insn, f: Fields) -> Option<Fields>
    ensures { result ≡ found_from (ops.Xadd d s) insn.now f }
{
    match *insn {
        Insn::Xadd { w, dst, src } => with_place_and_reg(d, dst, s, src, Fields { w, ..f }),
        _ => None,
    }
}

fn bswap_fields(d: Letter, insn: &Insn, f: Fields) -> Option<Fields>
    ensures { result ≡ found_from (ops.Bswap d) insn.now f }
{
    match *insn {
        Insn::Bswap { w, reg } => with_number(d, reg, Fields { w, ..f }),
        _ => None,
    }
}

fn bit_test_fields(op: BitOp, d: Letter, i: Letter, insn: &Insn, f: Fields) -> Option<Fields>
    ensures { result ≡ found_from (ops.BitTest op d i) insn.now f }
{
    match *insn {
        Insn::BitTest {
            op: o,
            w,
            dst,
            index,
        } if op == o => { indexed(i, index, with_place(d, dst, Fields { w, ..f })) }
        _ => None,
    }
}

fn scan_fields(op: ScanOp, d: Letter, s: Letter, insn: &Insn, f: Fields) -> Option<Fields>
    ensures { result ≡ found_from (ops.Scan op d s) insn.now f }
{
    match *insn {
        Insn::Scan { op: o, w, dst, src } if op == o => {
            with_number_and_place(d, dst, s, src, Fields { w, ..f })
        }
        _ => None,
    }
}

fn movs_fields(insn: &Insn, f: Fields) -> Option<Fields>
    ensures { result ≡ found_from ops.Movs insn.now f }
{
    match *insn {
        Insn::Movs { w, rep } => Some(Fields {
            w,
            rep: rep_byte(rep),
            ..f
        }),
        _ => None,
    }
}

fn stos_fields(insn: &Insn, f: Fields) -> Option<Fields>
    ensures { result ≡ found_from ops.Stos insn.now f }
{
    match *insn {
        Insn::Stos { w, rep } => Some(Fields {
            w,
            rep: rep_byte(rep),
            ..f
        }),
        _ => None,
    }
}

fn cmps_fields(insn: &Insn, f: Fields) -> Option<Fields>
    ensures { result ≡ found_from ops.Cmps insn.now f }
{
    match *insn {
        Insn::Cmps { w, rep } => Some(Fields {
            w,
            rep: repeat_byte(rep),
            ..f
        }),
        _ => None,
    }
}

fn scas_fields(insn: &Insn, f: Fields) -> Option<Fields>
    ensures { result ≡ found_from ops.Scas insn.now f }
{
    match *insn {
        Insn::Scas { w, rep } => Some(Fields {
            w,
            rep: repeat_byte(rep),
            ..f
        }),
        _ => None,
    }
}

// The fields `f` with what the operation names in the instruction; `None` where it can't be
// the operation's.
fn found_in(operation: Op, insn: &Insn, f: Fields) -> Option<Fields>
    ensures { result ≡ found_from operation insn.now f }
{
    match operation {
        Op::Arith(op, d, s) => arith_fields(op, d, s, insn, f),
        Op::Test(d, s) => test_fields(d, s, insn, f),
        Op::Mov(d, s) => mov_fields(d, s, insn, f),
        Op::Lea(d, s) => lea_fields(d, s, insn, f),
        Op::Extend(signed, d, s) => extend_fields(signed, d, s, insn, f),
        Op::Push(s) => push_fields(s, insn, f),
        Op::Pop(d) => pop_fields(d, insn, f),
        Op::Leave => match *insn {
            Insn::Leave => Some(f),
            _ => None,
        },
        Op::PushFlags => match *insn {
            Insn::PushFlags => Some(f),
            _ => None,
        },
        Op::PopFlags => match *insn {
            Insn::PopFlags => Some(f),
            _ => None,
        },
        Op::Unary(op, d) => unary_fields(op, d, insn, f),
        Op::Wide(op, s) => wide_fields(op, s, insn, f),
        Op::Imul2(d, s) => imul2_fields(d, s, insn, f),
        Op::Imul3(d, s, _third) => imul3_fields(d, s, _third, insn, f),
        Op::Shift(op, d, c) => shift_fields(op, d, c, insn, f),
        Op::DoubleShift(left, d, s, c) => double_shift_fields(left, d, s, c, insn, f),
        Op::Cmov(d, s) => cmov_fields(d, s, insn, f),
        Op::Set(d) => set_fields(d, insn, f),
        Op::Jcc => jcc_fields(insn, f),
        Op::Jrcxz => match *insn {
            Insn::Jrcxz { target } => Some(Fields { imm: target, ..f }),
            _ => None,
        },
        Op::Jmp => match *insn {
            Insn::Jmp { target } => Some(Fields { imm: target, ..f }),
            _ => None,
        },
        Op::Call => match *insn {
            Insn::Call { target } => Some(Fields { imm: target, ..f }),
            _ => None,
        },
        Op::CallInd(s) => call_ind_fields(s, insn, f),
        Op::JmpInd(s) => jmp_ind_fields(s, insn, f),
        Op::Ret => match *insn {
            Insn::Ret { pop } => Some(Fields {
                imm: u64::from(pop),
                ..f
            }),
            _ => None,
        },
        Op::Convert => match *insn {
            Insn::Convert { w } => Some(Fields { w, ..f }),
            _ => None,
        },
        Op::SignFill => match *insn {
            Insn::SignFill { w } => Some(Fields { w, ..f }),
            _ => None,
        },
        Op::Xchg(d, s) => xchg_fields(d, s, insn, f),
        Op::CmpXchg(d, s) => cmpxchg_fields(d, s, insn, f),
        Op::Xadd(d, s) => xadd_fields(d, s, insn, f),
        Op::Nop => match *insn {
            Insn::Nop => Some(f),
            _ => None,
        },
        Op::Bswap(d) => bswap_fields(d, insn, f),
        Op::BitTest(op, d, i) => bit_test_fields(op, d, i, insn, f),
        Op::Scan(op, d, s) => scan_fields(op, d, s, insn, f),
        Op::Movs => movs_fields(insn, f),
        Op::Stos => stos_fields(insn, f),
        Op::Cmps => cmps_fields(insn, f),
        Op::Scas => scas_fields(insn, f),
        Op::Flag(op) => match *insn {
            Insn::Flag { op: o } if op == o => Some(f),
            _ => None,
        },
        Op::Syscall => match *insn {
            Insn::Syscall => Some(f),
            _ => None,
        },
        Op::Ud2 => match *insn {
            Insn::Ud2 => Some(f),
            _ => None,
        },
        Op::Hlt => match *insn {
            Insn::Hlt => Some(f),
            _ => None,
        },
        Op::Int3 => match *insn {
            Insn::Int3 => Some(f),
            _ => None,
        },
    }
}

fn rep_byte(rep: bool) -> u8
    ensures { result ≡ rep_byte_of rep }
{
    if rep { 0xf3 } else { 0 }
}

fn repeat_byte(rep: Rep) -> u8
    ensures { result ≡ repeat_byte_of rep }
{
    match rep {
        Rep::No => 0,
        Rep::WhileEqual => 0xf3,
        Rep::WhileNot => 0xf2,
    }
}

fn least_width(class: Size) -> Width
    ensures { result ≡ least_width_of class }
{
    match class {
        Size::B => Width::W8,
        Size::V => Width::W32,
        Size::D => Width::W32,
        Size::Y => Width::W32,
        Size::Q => Width::W64,
        Size::WQ => Width::W64,
        Size::N => Width::W8,
    }
}

fn least_place(rule: Option<RmRule>) -> Place
    ensures { result ≡ least_place_of rule }
{
    match rule {
        Some(RmRule::MemoryOnly) => Place::Mem(Mem {
            base: Some(0),
            index: None,
            scale: 1,
            disp: 0,
        }),
        _ => Place::Reg(Reg::R(0)),
    }
}

fn least(row: &Row) -> Fields
    ensures { result ≡ least_of row.now }
{
    Fields {
        w: least_width(row.size),
        reg: Reg::R(0),
        rm: least_place(row.rm),
        cond: 0,
        imm: 0,
        rep: 0,
    }
}

/// Fields that the row can have at some address and that build the instruction; for a regular
/// row, as every row of a table is, `None` exactly where none do. It takes no memory.
pub fn fields_of(row: &Row, insn: &Insn) -> Option<Fields>
    ensures value { result ≡ found row.now insn.now }
    ensures some { IsTrue (is_regular row.now) → IfSome result (Builds row.now insn.now) }
    ensures none { IsTrue (is_regular row.now) → IfNone result (NoneBuilds row.now insn.now) }
{
    find(row, insn)
}

fn find(row: &Row, insn: &Insn) -> Option<Fields>
    ensures { result ≡ found row.now insn.now }
{
    let fields = found_in(row.op, insn, least(row))?;
    if can_have(row, &fields) {
        Some(fields)
    } else {
        None
    }
}
