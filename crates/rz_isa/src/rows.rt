use rz_flags::{ArithOp, BitOp, FlagOp, ScanOp, ShiftOp, UnaryOp, WideOp};

/// The opcode map: opcodes of one byte, or of the byte 0F and one byte
/// (Intel SDM, volume 2, section 2.1.2).
#[derive(Clone, Copy)]
pub enum OpMap {
    One,
    Two,
}

/// Which ModRM bytes a row takes: any, those that name memory, those that name a register, or
/// one whole byte.
#[derive(Clone, Copy)]
pub enum RmRule {
    Any,
    MemoryOnly,
    RegisterOnly,
    Fixed(u8),
}

/// Whether the prefix F3 may stand, must stand, repeats the instruction, or repeats it while
/// what is compared is equal, as F2 does while it is not.
#[derive(Clone, Copy)]
pub enum F3Rule {
    No,
    Allowed,
    Required,
    Repeats,
    RepeatsBoth,
}

/// The size class, which gives the width. `B` is 8 bits; `V` 64 with REX.W, else 16 with the
/// prefix 66, else 32; `D` 16 with 66, else 32; `Y` 64 with REX.W, else 32; `Q` 64; `WQ` 64
/// with REX.W required; `N` has no width.
#[derive(Clone, Copy)]
pub enum Size {
    B,
    V,
    D,
    Y,
    Q,
    WQ,
    N,
}

/// The immediate: one byte, one byte sign-extended, two bytes, the width but at most four
/// bytes, the whole width, or a displacement of one or four bytes from the next address
/// (Intel SDM, volume 2, section 3.1.1.3).
#[derive(Clone, Copy)]
pub enum ImmKind {
    Ib,
    Ibs,
    Iw,
    Iz,
    Iv,
    J8,
    J32,
}

/// Where an operand comes from: the ModRM operand with the row's width, or with 8, 16 or 32
/// bits, memory alone, a register alone; the register of the reg field; the register in the
/// opcode; the accumulator; the count 1; the count in CL; the immediate.
#[derive(Clone, Copy)]
pub enum Letter {
    E,
    E8,
    E16,
    E32,
    M,
    Er,
    G,
    O,
    A,
    One,
    Cl,
    Imm,
}

/// Whether a jump's displacement has one byte. Every other row has the form `Near`.
#[derive(Clone, Copy)]
pub enum Form {
    Near,
    Short,
}

/// A row of an instruction table: `span` opcodes (1, 8 or 16) from `opcode` on, the extension
/// of the opcode in the reg field, whether the prefix F0 may stand where the destination is
/// memory, and what else a spelling has.
#[derive(Clone, Copy)]
pub struct Row {
    pub map: OpMap,
    pub opcode: u8,
    pub span: u8,
    pub digit: Option<u8>,
    pub rm: Option<RmRule>,
    pub f3: F3Rule,
    pub lock: bool,
    pub size: Size,
    pub imm: Option<ImmKind>,
    pub form: Form,
    pub op: Op,
}

/// The operation of a row and where its operands come from, the destination first. The truth
/// value of `Extend` is true for sign extension, that of `DoubleShift` for left.
#[derive(Clone, Copy)]
pub enum Op {
    Arith(ArithOp, Letter, Letter),
    Test(Letter, Letter),
    Mov(Letter, Letter),
    Lea(Letter, Letter),
    Extend(bool, Letter, Letter),
    Push(Letter),
    Pop(Letter),
    Leave,
    PushFlags,
    PopFlags,
    Unary(UnaryOp, Letter),
    Wide(WideOp, Letter),
    Imul2(Letter, Letter),
    Imul3(Letter, Letter, Letter),
    Shift(ShiftOp, Letter, Letter),
    DoubleShift(bool, Letter, Letter, Letter),
    Cmov(Letter, Letter),
    Set(Letter),
    Jcc,
    Jrcxz,
    Jmp,
    Call,
    CallInd(Letter),
    JmpInd(Letter),
    Ret,
    Convert,
    SignFill,
    Xchg(Letter, Letter),
    CmpXchg(Letter, Letter),
    Xadd(Letter, Letter),
    Nop,
    Bswap(Letter),
    BitTest(BitOp, Letter, Letter),
    Scan(ScanOp, Letter, Letter),
    Movs,
    Stos,
    Cmps,
    Scas,
    Flag(FlagOp),
    Syscall,
    Ud2,
    Hlt,
    Int3,
}
