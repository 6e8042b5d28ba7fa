//! How many steps of the new file a step of the original takes at most.

ghost use Rattle.std.specs.Prelude.{◌≡◌};
ghost use Rattle.std.specs.List.Sorted.{IsNonDecreasingBy};
ghost use Rattle.rz_elf.specs.Elf.{image_of};
ghost use Rattle.rz_isa.specs.Decoded.{decoded};
ghost use Rattle.rz_machine.specs.Tables.{binary_digits as digits_of, site_steps};
ghost use Rattle.rz_rewrite.specs.Fragments.{targets_from};
ghost use Rattle.rz_rewrite.specs.Rewritten.{greatest, site_targets};

use crate::nodes::stands_site;
use crate::ranges::pairs_from;
use rz_elf::elf::Elf;
use rz_isa::InsnTable;

// The steps for an instruction that is no site, and for each binary digit of the number of a site's targets.
const STEPS: u64 = 64;

const STEPS_OF_DIGIT: u64 = 16;

/// The greatest of the bounds of some nodes, in steps, for edges in the order of their sources.
pub fn greatest_bound<T: InsnTable>(elf: &Elf, nodes: &[u64], edges: &[(u64, u64)]) -> u64
    requires { IsNonDecreasingBy (λ e. e.0) edges.now }
    ensures { result ≡ greatest (λ a. site_steps (site_targets
        (decoded T.rows) (image_of elf.now.bytes) (targets_from edges.now) a)) nodes.now }
{
    let mut bound = 0;
    for at in nodes {
        bound = bound.max(node_bound::<T>(elf, edges, *at));
    }
    bound
}

// The bound of a node.
fn node_bound<T: InsnTable>(elf: &Elf, edges: &[(u64, u64)], at: u64) -> u64
    requires { IsNonDecreasingBy (λ e. e.0) edges.now }
    ensures { result ≡ site_steps (site_targets
        (decoded T.rows) (image_of elf.now.bytes) (targets_from edges.now) at) }
{
    let targets = if stands_site::<T>(elf, at) {
        pairs_from(edges, at).len() as u64
    } else {
        0
    };
    STEPS + STEPS_OF_DIGIT * binary_digits(targets)
}

// The number of binary digits of a number; 0 has none.
fn binary_digits(n: u64) -> u64
    ensures { result ≡ digits_of n }
{
    u64::from(u64::BITS - n.leading_zeros())
}
