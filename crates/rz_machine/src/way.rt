//! How an instruction goes on.

ghost use Rattle.std.specs.Prelude.{◌≡◌};
ghost use Rattle.rz_machine.specs.Way.{way_of};

use rz_flags::Cond;
use rz_isa::{Insn, Place};

/// A transfer that goes by the stack or by an operand (Intel SDM, volume 1, sections 6.4 and 7.3.8).
#[derive(Clone, Copy)]
pub enum Transfer {
    /// CALL of an address.
    Call { target: u64 },
    /// CALL of the address that an operand holds.
    CallInd { src: Place },
    /// JMP to the address that an operand holds.
    JmpInd { src: Place },
    /// RET, which takes so many bytes more from the stack.
    Ret { pop: u16 },
}

/// An instruction that ends the run (Intel SDM, volume 2, "UD", "HLT" and "INT3").
#[derive(Clone, Copy)]
pub enum Halt {
    Ud2,
    Hlt,
    Int3,
}

/// How an instruction goes on, as far as it says itself.
#[derive(Clone, Copy)]
pub enum Way {
    /// To the next address: it is a plain instruction.
    Onward,
    /// To an address.
    Jumps { target: u64 },
    /// To an address where a condition holds, else to the next one.
    Branches { cond: Cond, target: u64 },
    /// To an address where RCX is 0, else to the next one.
    BranchesOnRcx { target: u64 },
    /// To an address that a call names, or that memory or a register holds.
    Transfers { how: Transfer },
    /// By a system call.
    Calls,
    /// It ends the run.
    Halts { how: Halt },
}

/// How an instruction goes on.
#[inline(always)]
pub fn find_way(insn: &Insn) -> Way
    ensures { result ≡ way_of insn.now }
{
    match *insn {
        Insn::Jcc { cond, target } => Way::Branches { cond, target },
        Insn::Jrcxz { target } => Way::BranchesOnRcx { target },
        Insn::Jmp { target } => Way::Jumps { target },
        Insn::Call { target } => Way::Transfers {
            how: Transfer::Call { target },
        },
        Insn::CallInd { src } => Way::Transfers {
            how: Transfer::CallInd { src },
        },
        Insn::JmpInd { src } => Way::Transfers {
            how: Transfer::JmpInd { src },
        },
        Insn::Ret { pop } => Way::Transfers {
            how: Transfer::Ret { pop },
        },
        Insn::Syscall => Way::Calls,
        Insn::Ud2 => Way::Halts { how: Halt::Ud2 },
        Insn::Hlt => Way::Halts { how: Halt::Hlt },
        Insn::Int3 => Way::Halts { how: Halt::Int3 },
        _ => Way::Onward,
    }
}
