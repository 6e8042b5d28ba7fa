use crate::instruction::Insn;

/// What stands at the front of bytes.
#[derive(Clone, Copy)]
pub enum Decoded {
    /// The first `len` bytes, 1 to 15, spell the instruction.
    Insn { insn: Insn, len: u8 },
    /// The bytes begin a spelling and end inside it.
    Short,
    /// No front of the bytes is a spelling, and they begin none.
    Unknown,
}
