//! What stands at the kept nodes of a file, and where the kept edges lead from them.

ghost use Rattle.std.specs.Prelude.{◌≡◌, length, IfOk};
ghost use Rattle.rz_elf.specs.Elf.{image_of};
ghost use Rattle.rz_isa.specs.Decoded.{decoded};
ghost use Rattle.rz_isa.specs.Insn.{kind_of};
ghost use Rattle.rz_isa.specs.Nodes.{is_site as is_site_of, is_site_at, spelled_at};
ghost use Rattle.rz_machine.specs.Nodes.{code_in};
ghost use Rattle.rz_machine.specs.Added.{sites, site_edges};
ghost use Rattle.rz_rewrite.specs.Reach.{is_out_of_reach, first_out_of_reach as first_out_of_reach_of};

use rz_decode::decode;
use rz_elf::code::code_at;
use rz_elf::elf::Elf;
use rz_isa::{Decoded, Insn, InsnTable, Kind, kind, rip_target};
use rz_num::{OutOfMemory, Words};
use std::alloc::Global;

/// What the executable bytes at an address of a file spell.
pub fn decoded_at<T: InsnTable>(elf: &Elf, at: u64) -> Decoded
    ensures { result ≡ spelled_at (decoded T.rows) (code_in (image_of elf.now.bytes).loads) at }
{
    let mut out = [0; 15];
    let n = code_at(elf, at, &mut out);
    decode::<T>(&out[..n as usize], at)
}

/// The first of these nodes of a file whose instruction names an address of 2^31 or more relative to RIP, if there is
/// one. It takes no memory.
pub fn first_out_of_reach<T: InsnTable>(elf: &Elf, nodes: &[u64]) -> Option<u64>
    ensures { result ≡ first_out_of_reach_of
        (decoded T.rows) (code_in (image_of elf.now.bytes).loads) nodes.now }
{
    for at in nodes {
        if leaves_reach(&decoded_at::<T>(elf, *at)) {
            return Some(*at);
        }
    }
    None
}

// Whether what is decoded names an address of 2^31 or more relative to RIP.
fn leaves_reach(decoded: &Decoded) -> bool
    ensures { result ≡ is_out_of_reach decoded.now }
{
    match decoded {
        Decoded::Insn { insn, .. } => match rip_target(insn) {
            Some(to) => to >= 0x8000_0000,
            None => false,
        },
        Decoded::Short | Decoded::Unknown => false,
    }
}

/// Whether an instruction is a return, or a call or jump by an operand.
pub fn is_site(insn: &Insn) -> bool
    ensures { result ≡ is_site_of (kind_of insn.now) }
{
    matches!(kind(insn), Kind::CallInd | Kind::JmpInd | Kind::Ret)
}

/// Whether such an instruction stands at an address.
pub fn stands_site<T: InsnTable>(elf: &Elf, at: u64) -> bool
    ensures { result ≡ is_site_at (decoded T.rows) (code_in (image_of elf.now.bytes).loads) at }
{
    match decoded_at::<T>(elf, at) {
        Decoded::Insn { insn, .. } => is_site(&insn),
        Decoded::Short | Decoded::Unknown => false,
    }
}

/// The sites among these nodes of a file, in their order. It refuses for want of memory alone.
pub fn site_words<T: InsnTable>(
    alloc: Global,
    elf: &Elf,
    nodes: &[u64],
) -> Result<Words, OutOfMemory>
    ensures { IfOk result (λ words. words ≡ sites (decoded T.rows) (code_in (image_of elf.now.bytes).loads) nodes.now) }
{
    let mut words = Words::new(alloc);
    for at in nodes {
        if stands_site::<T>(elf, *at) {
            words.push(*at)?;
        }
    }
    Ok(words)
}

/// How many of these nodes of a file are sites.
pub fn site_count<T: InsnTable>(elf: &Elf, nodes: &[u64]) -> u64
    ensures { result ≡ length (sites (decoded T.rows) (code_in (image_of elf.now.bytes).loads) nodes.now) }
{
    let mut count = 0;
    for at in nodes {
        if stands_site::<T>(elf, *at) {
            count += 1;
        }
    }
    count
}

/// How many of these edges leave sites of a file.
pub fn site_edge_count<T: InsnTable>(elf: &Elf, edges: &[(u64, u64)]) -> u64
    ensures { result ≡ length (site_edges (decoded T.rows) (code_in (image_of elf.now.bytes).loads) edges.now) }
{
    let mut count = 0;
    for (from, _) in edges {
        if stands_site::<T>(elf, *from) {
            count += 1;
        }
    }
    count
}
