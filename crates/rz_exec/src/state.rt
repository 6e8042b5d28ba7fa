//! The registers, and why an instruction faults.

use rz_flags::Flags;

/// The registers (Intel SDM, volume 1, section 3.4).
#[derive(Clone, Copy, PartialEq, Eq)]
pub struct Cpu {
    pub regs: [u64; 16],
    /// The address of the instruction that is next.
    pub rip: u64,
    pub flags: Flags,
}

/// Why a plain instruction isn't completed (Intel SDM, volume 1, section 6.5).
#[derive(Clone, Copy, PartialEq, Eq, Debug)]
pub enum Fault {
    /// At an access whose first byte that isn't allowed has this address.
    Memory(u64),
    /// By a division by 0, or one whose quotient doesn't fit the width (volume 2, "DIV", "IDIV").
    Divide,
    /// By a popped flags word in which TF, NT, AC or ID is set.
    Popped,
}
