// The two sets that a run records, or that a new file keeps.

ghost use Rattle.std.specs.Prelude.{◌≡◌, []};

use crate::{AddrSet, EdgeSet};
use std::alloc::Global;

/// Nodes, which are addresses of instructions, and edges from one to the next.
#[derive(Drop)]
pub struct Record {
    pub nodes: AddrSet,
    pub edges: EdgeSet,
}

impl Record {
    /// The record of no nodes and no edges. It takes no memory.
    pub fn new(alloc: Global) -> Record
        ensures { result ≡ record { nodes = []; edges = [] } }
    {
        Record {
            nodes: AddrSet::new(alloc),
            edges: EdgeSet::new(alloc),
        }
    }
}
