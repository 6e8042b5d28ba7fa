// The texts of instructions.

ghost use Rattle.std.specs.Prelude.{◌≡◌, Some, ◌++◌};
ghost use Rattle.rz_disasm.specs.Registers.{number_name, register_name};
ghost use Rattle.rz_disasm.specs.Operands.{operand_text, count_text, index_text};
ghost use Rattle.rz_disasm.specs.Statements.{operands_text, statement as statement_text, lone_text, transfer_text, bit_text, arithmetic_text, insn_text};
ghost use Rattle.rz_disasm.specs.Calls.Shown.{shown_text};
ghost use Rattle.rz_disasm.specs.Calls.Statement.{texts_of, text_of};

use crate::names::{
    arith_name, bit_name, cond_name, convert_name, double_shift_name, element_name, extend_name,
    flag_name, scan_name, shift_name, sign_fill_name, unary_name, wide_name,
};
use crate::operand::Shown;
use rz_isa::{BitIndex, Count, Insn, Operand, Place, Reg, Rep};
use rz_num::Width;
use std::fmt;

// The operands of an instruction, the destination first.
#[derive(Clone, Copy)]
pub enum Operands {
    Zero,
    One(Shown),
    Two(Shown, Shown),
    Three(Shown, Shown, Shown),
}

impl fmt::Display for Operands {
    ghost output = { λ x. Some (operands_text (texts_of x)) };

    fn fmt<W: fmt::Write>(&self, f: &mut fmt::Formatter<W>) -> fmt::Result {
        match self {
            Operands::Zero => Ok(()),
            Operands::One(a) => write!(f, " {a}"),
            Operands::Two(a, b) => write!(f, " {a}, {b}"),
            Operands::Three(a, b, c) => write!(f, " {a}, {b}, {c}"),
        }
    }
}

/// What is printed of an instruction: its name, where a condition or a width may have an ending of its own, and its
/// operands.
#[derive(Clone, Copy)]
pub struct Statement {
    pub stem: &'static str,
    pub ending: &'static str,
    pub operands: Operands,
}

impl Statement {
    /// A name that is whole.
    fn new(name: &'static str, operands: Operands) -> Statement
        ensures { text_of result ≡ statement_text name.now (texts_of operands) }
    {
        Statement::with_ending(name, "", operands)
    }

    /// A name of a stem and an ending.
    fn with_ending(stem: &'static str, ending: &'static str, operands: Operands) -> Statement
        ensures { text_of result ≡ statement_text (stem.now ++ ending.now) (texts_of operands) }
    {
        Statement {
            stem,
            ending,
            operands,
        }
    }
}

impl fmt::Display for Statement {
    ghost output = { λ x. Some (text_of x) };

    fn fmt<W: fmt::Write>(&self, f: &mut fmt::Formatter<W>) -> fmt::Result {
        let Statement {
            stem,
            ending,
            operands,
        } = *self;
        write!(f, "{stem}{ending}{operands}")
    }
}

#[tactic(auto, unfolding(crate::specs::Operands::place_text))]
fn shown_register(w: Width, reg: Reg) -> Shown
    ensures { shown_text result ≡ register_name w reg }
{
    Shown::Place(w, Place::Reg(reg))
}

fn numbered_register(w: Width, number: u8) -> Shown
    ensures { shown_text result ≡ number_name w number }
{
    shown_register(w, Reg::R(number))
}

fn shown_operand(w: Width, operand: Operand) -> Shown
    ensures { shown_text result ≡ operand_text w operand }
{
    match operand {
        Operand::Place(place) => Shown::Place(w, place),
        Operand::Imm(number) => Shown::Number(number),
    }
}

fn shown_count(count: Count) -> Shown
    ensures { shown_text result ≡ count_text count }
{
    match count {
        Count::Imm(number) => Shown::Number(number as u64),
        Count::Cl => Shown::Cl,
    }
}

fn shown_index(w: Width, index: BitIndex) -> Shown
    ensures { shown_text result ≡ index_text w index }
{
    match index {
        BitIndex::Reg(number) => numbered_register(w, number),
        BitIndex::Imm(number) => Shown::Number(number as u64),
    }
}

// Instructions that stand alone. The groups before it have all others.
fn lone_statement(insn: &Insn) -> Statement
    ensures { text_of result ≡ lone_text insn.now }
{
    match *insn {
        Insn::Leave => Statement::new("leave", Operands::Zero),
        Insn::PushFlags => Statement::new("pushfq", Operands::Zero),
        Insn::PopFlags => Statement::new("popfq", Operands::Zero),
        Insn::Nop => Statement::new("nop", Operands::Zero),
        Insn::Syscall => Statement::new("syscall", Operands::Zero),
        Insn::Ud2 => Statement::new("ud2", Operands::Zero),
        Insn::Hlt => Statement::new("hlt", Operands::Zero),
        Insn::Int3 => Statement::new("int3", Operands::Zero),
        Insn::Convert { w } => Statement::new(convert_name(w), Operands::Zero),
        Insn::SignFill { w } => Statement::new(sign_fill_name(w), Operands::Zero),
        Insn::Movs { w, rep: false } => Statement::with_ending(
            "movs",
            element_name(w),
            Operands::Zero,
        ),
        Insn::Movs { w, rep: true } => Statement::with_ending(
            "rep movs",
            element_name(w),
            Operands::Zero,
        ),
        Insn::Stos { w, rep: false } => Statement::with_ending(
            "stos",
            element_name(w),
            Operands::Zero,
        ),
        Insn::Stos { w, rep: true } => Statement::with_ending(
            "rep stos",
            element_name(w),
            Operands::Zero,
        ),
        Insn::Cmps { w, rep: Rep::No } => Statement::with_ending(
            "cmps",
            element_name(w),
            Operands::Zero,
        ),
        Insn::Cmps {
            w,
            rep: Rep::WhileEqual,
        } => Statement::with_ending("repe cmps", element_name(w), Operands::Zero),
        Insn::Cmps {
            w,
            rep: Rep::WhileNot,
        } => Statement::with_ending("repne cmps", element_name(w), Operands::Zero),
        Insn::Scas { w, rep: Rep::No } => Statement::with_ending(
            "scas",
            element_name(w),
            Operands::Zero,
        ),
        Insn::Scas {
            w,
            rep: Rep::WhileEqual,
        } => Statement::with_ending("repe scas", element_name(w), Operands::Zero),
        Insn::Scas {
            w,
            rep: Rep::WhileNot,
        } => Statement::with_ending("repne scas", element_name(w), Operands::Zero),
        Insn::Flag { op } => Statement::new(flag_name(op), Operands::Zero),
        _ => Statement::new("", Operands::Zero),
    }
}

// Transfers of control.
fn transfer_statement(insn: &Insn) -> Statement
    ensures { text_of result ≡ transfer_text insn.now }
{
    match *insn {
        Insn::Jcc { cond, target } => Statement::with_ending(
            "j",
            cond_name(cond),
            Operands::One(Shown::Number(target)),
        ),
        Insn::Jrcxz { target } => Statement::new("jrcxz", Operands::One(Shown::Number(target))),
        Insn::Jmp { target } => Statement::new("jmp", Operands::One(Shown::Number(target))),
        Insn::JmpInd { src } => Statement::new("jmp", Operands::One(Shown::Place(Width::W64, src))),
        Insn::Call { target } => Statement::new("call", Operands::One(Shown::Number(target))),
        Insn::CallInd { src } => Statement::new(
            "call",
            Operands::One(Shown::Place(Width::W64, src)),
        ),
        Insn::Ret { pop: 0 } => Statement::new("ret", Operands::Zero),
        Insn::Ret { pop } => Statement::new("ret", Operands::One(Shown::Number(pop as u64))),
        _ => lone_statement(insn),
    }
}

// Shifts, bits and scans.
fn bit_statement(insn: &Insn) -> Statement
    ensures { text_of result ≡ bit_text insn.now }
{
    match *insn {
        Insn::Shift { op, w, dst, count } => {
            Statement::new(
                shift_name(op),
                Operands::Two(Shown::Place(w, dst), shown_count(count)),
            )
        }
        Insn::DoubleShift {
            left,
            w,
            dst,
            src,
            count,
        } => Statement::new(
            double_shift_name(left),
            Operands::Three(
                Shown::Place(w, dst),
                numbered_register(w, src),
                shown_count(count),
            ),
        ),
        Insn::Bswap { w, reg } => Statement::new("bswap", Operands::One(numbered_register(w, reg))),
        Insn::BitTest { op, w, dst, index } => {
            Statement::new(
                bit_name(op),
                Operands::Two(Shown::Place(w, dst), shown_index(w, index)),
            )
        }
        Insn::Scan { op, w, dst, src } => {
            Statement::new(
                scan_name(op),
                Operands::Two(numbered_register(w, dst), Shown::Place(w, src)),
            )
        }
        Insn::Set { cond, dst } => {
            Statement::with_ending(
                "set",
                cond_name(cond),
                Operands::One(Shown::Place(Width::W8, dst)),
            )
        }
        _ => transfer_statement(insn),
    }
}

// Arithmetic and logic.
fn arithmetic_statement(insn: &Insn) -> Statement
    ensures { text_of result ≡ arithmetic_text insn.now }
{
    match *insn {
        Insn::Arith { op, w, dst, src } => {
            Statement::new(
                arith_name(op),
                Operands::Two(Shown::Place(w, dst), shown_operand(w, src)),
            )
        }
        Insn::Test { w, dst, src } => {
            Statement::new(
                "test",
                Operands::Two(Shown::Place(w, dst), shown_operand(w, src)),
            )
        }
        Insn::Unary { op, w, dst } => Statement::new(
            unary_name(op),
            Operands::One(Shown::Place(w, dst)),
        ),
        Insn::Wide { op, w, src } => Statement::new(
            wide_name(op),
            Operands::One(Shown::Place(w, src)),
        ),
        Insn::Imul2 { w, dst, src } => {
            Statement::new(
                "imul",
                Operands::Two(numbered_register(w, dst), Shown::Place(w, src)),
            )
        }
        Insn::Imul3 { w, dst, src, imm } => Statement::new(
            "imul",
            Operands::Three(
                numbered_register(w, dst),
                Shown::Place(w, src),
                Shown::Number(imm),
            ),
        ),
        _ => bit_statement(insn),
    }
}

/// The text of an instruction.
pub fn statement_of(insn: &Insn) -> Statement
    ensures { text_of result ≡ insn_text insn.now }
{
    match *insn {
        Insn::Mov { w, dst, src } => {
            Statement::new(
                "mov",
                Operands::Two(Shown::Place(w, dst), shown_operand(w, src)),
            )
        }
        Insn::Lea { w, dst, src } => {
            Statement::new(
                "lea",
                Operands::Two(numbered_register(w, dst), Shown::Address(w, src)),
            )
        }
        Insn::Extend {
            signed,
            to,
            from,
            dst,
            src,
        } => Statement::new(
            extend_name(signed, from),
            Operands::Two(numbered_register(to, dst), Shown::Place(from, src)),
        ),
        Insn::Push { src } => Statement::new("push", Operands::One(shown_operand(Width::W64, src))),
        Insn::Pop { dst } => Statement::new("pop", Operands::One(Shown::Place(Width::W64, dst))),
        Insn::Cmov { cond, w, dst, src } => Statement::with_ending(
            "cmov",
            cond_name(cond),
            Operands::Two(numbered_register(w, dst), Shown::Place(w, src)),
        ),
        Insn::Xchg { w, dst, src } => Statement::new(
            "xchg",
            Operands::Two(Shown::Place(w, dst), shown_register(w, src)),
        ),
        Insn::CmpXchg { w, dst, src } => Statement::new(
            "cmpxchg",
            Operands::Two(Shown::Place(w, dst), shown_register(w, src)),
        ),
        Insn::Xadd { w, dst, src } => Statement::new(
            "xadd",
            Operands::Two(Shown::Place(w, dst), shown_register(w, src)),
        ),
        _ => arithmetic_statement(insn),
    }
}
