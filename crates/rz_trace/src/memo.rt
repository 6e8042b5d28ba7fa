// Edges that a record is known to have.

ghost use Rattle.std.specs.Prelude.{◌<◌};

use std::alloc::Global;

// How many edges a memo has at first, by how many times it grows, and how many it may come to.
const FIRST: usize = 64;

const GROWTH: usize = 4;

const MOST: usize = 65536;

/// From an address to an address.
#[derive(Clone, Copy)]
pub struct Edge {
    pub from: u64,
    pub to: u64,
}

/// Some edges that a record has, each at the place that its addresses give.
#[derive(Drop)]
pub struct Memo {
    pub edges: Vec<Edge>,
    /// How many edges were noted since it has so many, as far as it grows with them.
    pub notes: usize,
}

impl Memo {
    ghost use Rattle.std.specs.Prelude.{◌≡◌, IsTrue};
    ghost use Rattle.rz_machine.specs.Kept.{Kept};
    ghost use Rattle.rz_trace.specs.Calls.Memo.{IsKept, Knows};

    /// The memo of no edges. It takes no memory.
    pub fn new(alloc: Global) -> Memo
        ensures { (kept : Kept) → Knows kept result }
    {
        Memo {
            edges: Vec::new(alloc),
            notes: 0,
        }
    }

    /// Whether the memo has an edge. Then the record has it, and the node that it leads to.
    #[inline(always)]
    pub fn has(&self, from: u64, to: u64) -> bool
        ensures { (kept : Kept) → Knows kept self.now → IsTrue result
            → IsKept kept (record { from = from; to = to }) }
    {
        let index = place(from, to, self.edges.len());
        if index < self.edges.len() {
            let edge = self.edges[index];
            return edge.from == from && edge.to == to;
        }
        false
    }

    /// Has an edge of the record from now on, where there is memory for it.
    #[cold]
    #[inline(never)]
    pub fn note(&mut self, alloc: Global, from: u64, to: u64)
        ensures { (kept : Kept) → Knows kept self.old → IsKept kept (record { from = from; to = to })
            → Knows kept self.new }
    {
        let edge = Edge { from, to };
        let len = self.edges.len();
        if len < MOST {
            if self.notes < len {
                self.notes += 1;
            } else {
                self.notes = 0;
                if let Ok(edges) = vec![in alloc; edge; grown(len)] {
                    self.edges = edges;
                }
            }
        }
        let index = place(from, to, self.edges.len());
        if index < self.edges.len() {
            self.edges[index] = edge;
        }
    }
}

// The place of an edge among so many, a power of two.
#[inline(always)]
fn place(from: u64, to: u64, edges: usize) -> usize {
    to.wrapping_mul(8).wrapping_add(from) as usize & edges.wrapping_sub(1)
}

// How many edges come after so many.
fn grown(edges: usize) -> usize
    requires { edges < 65536 }
{
    if edges == 0 { FIRST } else { edges * GROWTH }
}
