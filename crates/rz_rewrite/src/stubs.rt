//! Stubs: what a transfer comes to that isn't kept.

ghost use Rattle.std.specs.Prelude.{◌≡◌, ℕ, ◌++◌, ◌+◌, ◌*◌, ◌^◌, ◌<◌, length, IfOk, OnOk};
ghost use Rattle.rz_elf.specs.Format.{all_stubs, stub_bytes, stub_size};
ghost use Rattle.rz_rewrite.specs.Fragments.{stub_pairs as stub_pairs_of};

use rz_elf::format::{INT3, STUB_FRONT, STUB_SIZE};
use rz_num::{Bytes, OutOfMemory, Pairs};
use std::alloc::Global;

/// The stubs of ascending addresses, one after the other, wherever the first stands. It refuses for want of memory alone.
pub fn emit_stubs(alloc: Global, nodes: &[u64]) -> Result<Bytes, OutOfMemory>
    ensures { IfOk result (λ bytes. (from : ℕ) → bytes ≡ all_stubs from nodes.now) }
{
    let mut out = Bytes::new(alloc);
    for a in nodes {
        emit_stub(*a, &mut out)?;
    }
    Ok(out)
}

// Appends the stub of an address, wherever it stands.
fn emit_stub(a: u64, out: &mut Bytes) -> Result<(), OutOfMemory>
    ensures { OnOk result ((at : ℕ) → out.new ≡ out.old ++ stub_bytes at a) }
{
    out.push_all(&STUB_FRONT)?;
    out.push_all(&[0; 6])?;
    out.push_all(&a.to_le_bytes())?;
    out.push_all(&[INT3; 8])?;
    Ok(())
}

/// Each of some addresses with the address of its stub, where the stubs stand from an address on.
/// It refuses for want of memory alone.
pub fn stub_pairs(alloc: Global, nodes: &[u64], from: u64) -> Result<Pairs, OutOfMemory>
    requires { from + stub_size * length nodes.now < 2 ^ 64 }
    ensures { IfOk result (λ pairs. pairs ≡ stub_pairs_of from nodes.now) }
{
    let mut pairs = Pairs::new(alloc);
    let mut here = from;
    for a in nodes {
        pairs.push((*a, here))?;
        here += STUB_SIZE;
    }
    Ok(pairs)
}
