// Instructions, as far as the flow of control goes.

ghost use Rattle.std.specs.Prelude.{◌≡◌, IfOk};
ghost use Rattle.rz_isa.specs.Nodes.{direct_by};
ghost use Rattle.rz_paths.specs.Program.{is_branch as branch, is_free as free, is_ret as ret};
ghost use Rattle.rz_paths.specs.Calls.Listed.{ahead_by};

use rz_isa::Kind;
use rz_num::OutOfMemory;
use std::alloc::Global;

/// An instruction: how it leaves, the address after it, and the address that a direct transfer names.
#[derive(Clone, Copy)]
pub struct Node {
    pub kind: Kind,
    pub next: u64,
    pub target: Option<u64>,
}

impl Node {
    /// Whether control leaves it for static successors alone.
    pub fn is_free(&self) -> bool
        ensures { result ≡ free self.now.kind }
    {
        matches!(self.kind, Kind::Plain | Kind::Jcc | Kind::Jrcxz | Kind::Jmp)
    }

    /// Whether it is a conditional branch.
    pub fn is_branch(&self) -> bool
        ensures { result ≡ branch self.now.kind }
    {
        matches!(self.kind, Kind::Jcc | Kind::Jrcxz)
    }

    /// Whether it returns.
    pub fn is_ret(&self) -> bool
        ensures { result ≡ ret self.now.kind }
    {
        matches!(self.kind, Kind::Ret)
    }

    /// Its static successors. It refuses for want of memory alone.
    pub fn successors(&self, alloc: Global) -> Result<Vec<u64>, OutOfMemory>
        ensures { IfOk result (λ list. list.items ≡ direct_by self.now.kind self.now.target self.now.next) }
    {
        Ok(match (self.kind, self.target) {
            (Kind::Plain | Kind::Syscall, _) => vec![in alloc; self.next]?,
            (Kind::Jcc | Kind::Jrcxz, Some(target)) => vec![in alloc; self.next, target]?,
            (Kind::Jcc | Kind::Jrcxz, None) => vec![in alloc; self.next]?,
            (Kind::Jmp | Kind::Call, Some(target)) => vec![in alloc; target]?,
            _ => Vec::new(alloc),
        })
    }

    /// Where control may come to from it, direct calls returned from. It refuses for want of memory alone.
    pub fn ahead(&self, alloc: Global) -> Result<Vec<u64>, OutOfMemory>
        ensures { IfOk result (λ list. list.items ≡ ahead_by self.now.kind self.now.target self.now.next) }
    {
        let mut list = self.successors(alloc)?;
        if let Kind::Call = self.kind {
            list.push(self.next)?;
        }
        Ok(list)
    }
}

/// A program that tells the instruction at each address.
pub trait Program {
    ghost use Rattle.rz_paths.specs.Program.{Program};

    ghost code: { Self → Program };

    /// The instruction at an address, if one stands there.
    fn node_at(&self, at: u64) -> Option<Node>
        ensures { result ≡ code self.now at };
}
