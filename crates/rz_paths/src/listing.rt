// The instructions of a file, each decoded once.

ghost use Rattle.std.specs.Prelude.{◌≡◌, IfOk};
ghost use Rattle.rz_isa.specs.Decoded.{decoded};
ghost use Rattle.rz_isa.specs.Nodes.{spelled_at};
ghost use Rattle.rz_paths.specs.Program.{code_of, program_of};

use crate::node::{Node, Program};
use indexmap::IndexMap;
use rz_aset::AddrSet;
use rz_decode::decode;
use rz_elf::code::code_at;
use rz_elf::elf::Elf;
use rz_isa::{Decoded, InsnTable, kind, target};
use rz_num::{OutOfMemory, are_bytes};
use std::alloc::Global;
use std::marker::{Model, PhantomData};

/// The instructions of a file by a table. Those that were listed are looked up in constant time on average; any other is
/// decoded at each call.
#[derive(Drop)]
pub struct Listing<'a, T: InsnTable> {
    elf: &'a Elf,
    nodes: IndexMap<u64, Option<Node>>,
    table: PhantomData<T>,
}

impl<'a, T: InsnTable> Model for Listing<'a, T> {
    ghost use Rattle.std.specs.Prelude.{List, ℕ};
    ghost use Rattle.rz_paths.specs.Program.{program_of};
    ghost use Rattle.rz_paths.specs.Calls.Listed.{IsListed};

    ghost Value = { List ℕ };

    ghost view = { λ s. s.elf.now.bytes };

    ghost invariant = { λ s. IsListed (program_of T.rows s.elf.now.bytes) s.nodes };
}

impl<T: InsnTable> Program for Listing<'_, T> {
    ghost code = { λ s. program_of T.rows s };

    fn node_at(&self, at: u64) -> Option<Node> {
        match self.nodes.get(&at) {
            Some(node) => *node,
            None => node_of::<T>(self.elf, at),
        }
    }
}

/// The instructions of a file, with none listed. It takes no memory.
pub fn unlisted<T: InsnTable>(alloc: Global, elf: &Elf) -> Listing<'_, T>
    ensures { result ≡ elf.now.bytes }
{
    Listing {
        elf,
        nodes: IndexMap::new(alloc),
        table: PhantomData,
    }
}

/// The instructions of a file, with those listed that control may come to from the starts where calls return, each
/// decoded once; without `onward`, the starts alone. It refuses for want of memory alone.
pub fn listed<'a, T: InsnTable>(
    alloc: Global,
    elf: &'a Elf,
    starts: &AddrSet,
    onward: bool,
) -> Result<Listing<'a, T>, OutOfMemory>
    ensures { IfOk result (λ listing. listing ≡ elf.now.bytes) }
{
    let mut nodes = IndexMap::new(alloc);
    let mut seen = AddrSet::new(alloc);
    seen.insert_all(starts.as_slice())?;
    let mut followed = 0;
    while followed < seen.len() {
        let at = seen.as_slice()[followed];
        let node = node_of::<T>(elf, at);
        nodes.insert(at, node)?;
        if let (Some(node), true) = (node, onward) {
            seen.insert_all(&node.ahead(alloc)?)?;
        }
        followed += 1;
    }
    Ok(Listing {
        elf,
        nodes,
        table: PhantomData,
    })
}

// The instruction at an address of a file, if one stands there.
fn node_of<T: InsnTable>(elf: &Elf, at: u64) -> Option<Node>
    ensures { result ≡ program_of T.rows elf.now.bytes at }
{
    match decoded_at::<T>(elf, at) {
        Decoded::Insn { insn, len } => Some(Node {
            kind: kind(&insn),
            next: at.wrapping_add(len as u64),
            target: target(&insn),
        }),
        Decoded::Short => None,
        Decoded::Unknown => None,
    }
}

// What the executable bytes at an address spell.
fn decoded_at<T: InsnTable>(elf: &Elf, at: u64) -> Decoded
    ensures { result ≡ spelled_at (decoded T.rows) (code_of elf.now.bytes) at }
{
    let mut out = [0; 15];
    let n = code_at(elf, at, &mut out);
    let bytes = &out[..n as usize];
    are_bytes(bytes);
    decode::<T>(bytes, at)
}
