use rz_flags::{ArithOp, BitOp, Cond, FlagOp, ScanOp, ShiftOp, UnaryOp, WideOp};
use rz_num::Width;

/// A general register: its number from 0 to 15, or the second byte of one of the first four.
/// `High(0)` to `High(3)` are AH, CH, DH and BH (Intel SDM, volume 1, section 3.4.1).
#[derive(Clone, Copy)]
pub enum Reg {
    R(u8),
    High(u8),
}

/// A memory operand: the sum of the base, the index times the scale (1, 2, 4 or 8) and the
/// displacement, modulo 2^64. Without an index the scale is 1
/// (Intel SDM, volume 1, section 3.7.5).
#[derive(Clone, Copy)]
pub struct Mem {
    pub base: Option<u8>,
    pub index: Option<u8>,
    pub scale: u8,
    pub disp: i32,
}

/// What can be written: a register, memory by registers, or memory named relative to RIP, which
/// `At` holds by its address.
#[derive(Clone, Copy)]
pub enum Place {
    Reg(Reg),
    Mem(Mem),
    At(u64),
}

/// What can be read. An immediate is cut to the width of the instruction.
#[derive(Clone, Copy)]
pub enum Operand {
    Place(Place),
    Imm(u64),
}

/// A shift count: a number, not yet masked, or CL.
#[derive(Clone, Copy)]
pub enum Count {
    Imm(u8),
    Cl,
}

/// Which bit a bit test names: by a register or a number, not yet cut to the width.
#[derive(Clone, Copy)]
pub enum BitIndex {
    Reg(u8),
    Imm(u8),
}

/// How a comparison of strings repeats: not at all, while what is compared is equal, or while it
/// is not.
#[derive(Clone, Copy, PartialEq, Eq)]
pub enum Rep {
    No,
    WhileEqual,
    WhileNot,
}

/// An instruction. Registers that have a width of more than 8 bits stand as their numbers, and
/// targets of direct transfers as their addresses.
#[derive(Clone, Copy)]
pub enum Insn {
    Arith {
        op: ArithOp,
        w: Width,
        dst: Place,
        src: Operand,
    },
    Test {
        w: Width,
        dst: Place,
        src: Operand,
    },
    Mov {
        w: Width,
        dst: Place,
        src: Operand,
    },
    Lea {
        w: Width,
        dst: u8,
        src: Place,
    },
    Extend {
        signed: bool,
        to: Width,
        from: Width,
        dst: u8,
        src: Place,
    },
    Push {
        src: Operand,
    },
    Pop {
        dst: Place,
    },
    Leave,
    PushFlags,
    PopFlags,
    Unary {
        op: UnaryOp,
        w: Width,
        dst: Place,
    },
    Wide {
        op: WideOp,
        w: Width,
        src: Place,
    },
    Imul2 {
        w: Width,
        dst: u8,
        src: Place,
    },
    Imul3 {
        w: Width,
        dst: u8,
        src: Place,
        imm: u64,
    },
    Shift {
        op: ShiftOp,
        w: Width,
        dst: Place,
        count: Count,
    },
    DoubleShift {
        left: bool,
        w: Width,
        dst: Place,
        src: u8,
        count: Count,
    },
    Cmov {
        cond: Cond,
        w: Width,
        dst: u8,
        src: Place,
    },
    Set {
        cond: Cond,
        dst: Place,
    },
    Jcc {
        cond: Cond,
        target: u64,
    },
    Jrcxz {
        target: u64,
    },
    Jmp {
        target: u64,
    },
    Call {
        target: u64,
    },
    CallInd {
        src: Place,
    },
    JmpInd {
        src: Place,
    },
    Ret {
        pop: u16,
    },
    Convert {
        w: Width,
    },
    SignFill {
        w: Width,
    },
    Xchg {
        w: Width,
        dst: Place,
        src: Reg,
    },
    CmpXchg {
        w: Width,
        dst: Place,
        src: Reg,
    },
    Xadd {
        w: Width,
        dst: Place,
        src: Reg,
    },
    Nop,
    Bswap {
        w: Width,
        reg: u8,
    },
    BitTest {
        op: BitOp,
        w: Width,
        dst: Place,
        index: BitIndex,
    },
    Scan {
        op: ScanOp,
        w: Width,
        dst: u8,
        src: Place,
    },
    Movs {
        w: Width,
        rep: bool,
    },
    Stos {
        w: Width,
        rep: bool,
    },
    Cmps {
        w: Width,
        rep: Rep,
    },
    Scas {
        w: Width,
        rep: Rep,
    },
    Flag {
        op: FlagOp,
    },
    Syscall,
    Ud2,
    Hlt,
    Int3,
}

/// How an instruction leaves: by a transfer of one of these kinds, by a system call, not at all,
/// or to the next address.
#[derive(Clone, Copy, PartialEq, Eq)]
pub enum Kind {
    Jcc,
    Jrcxz,
    Jmp,
    Call,
    CallInd,
    JmpInd,
    Ret,
    Syscall,
    Halt,
    Plain,
}
