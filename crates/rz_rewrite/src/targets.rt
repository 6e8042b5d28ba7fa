//! Where the kept edges from an address lead.

ghost use Rattle.std.specs.Prelude.{◌≡◌, IfOk};
ghost use Rattle.std.specs.List.Sorted.{IsNonDecreasingBy};
ghost use Rattle.rz_rewrite.specs.Fragments.{targets_from as targets_from_of};

use crate::ranges::pairs_from;
use rz_num::{OutOfMemory, Words};
use std::alloc::Global;

/// The targets of the edges that leave an address, in the edges' order, which is by source. They are found by halving. It
/// refuses for want of memory alone.
pub fn targets_from(alloc: Global, edges: &[(u64, u64)], at: u64) -> Result<Words, OutOfMemory>
    requires { IsNonDecreasingBy (λ e. e.0) edges.now }
    ensures { IfOk result (λ words. words ≡ targets_from_of edges.now at) }
{
    let mut words = Words::new(alloc);
    for (_, to) in pairs_from(edges, at) {
        words.push(*to)?;
    }
    Ok(words)
}
