//! The tables of the kept sites: where they stand, and their bytes.

ghost use Rattle.std.specs.Prelude.{◌≡◌, ◌+◌, ◌^◌, ◌<◌, ◌≤◌, IfOk};
ghost use Rattle.std.specs.List.{AllByRecursion};
ghost use Rattle.std.specs.List.Sorted.{IsNonDecreasingBy};
ghost use Rattle.rz_machine.specs.Tables.{IsTable, placed};
ghost use Rattle.rz_rewrite.specs.Fragments.{all_tables, routine_for, table_pairs as table_pairs_of, tables_sum, targets_from};
ghost use Rattle.rz_rewrite.specs.Calls.Places.{beside_or_zero};

use crate::ranges::{pairs_from, place_beside};
use rz_isa::{InsnTable, Items};
use rz_lookup::{routine, table_bytes};
use rz_num::{Bytes, OutOfMemory, Pairs};
use std::alloc::Global;

// The bytes of a table before its pairs, and of each pair.
const HEAD: u64 = 16;

const PAIR: u64 = 8;

/// The routine where there is a site. It refuses for want of memory alone.
pub fn routine_items<T: InsnTable>(
    alloc: Global,
    scratch: u64,
    sites: &[u64],
) -> Result<Items, OutOfMemory>
    requires { scratch + 4096 ≤ 2 ^ 31 }
    ensures { IfOk result (λ items. items ≡ routine_for scratch sites.now) }
{
    match sites {
        [] => Ok(Items::new(alloc)),
        [_, ..] => routine::<T>(alloc, scratch),
    }
}

/// Each of some sites with the place of its table, where the tables stand one after the other from an address on, for edges
/// in the order of their sources. It refuses for want of memory alone.
pub fn table_pairs(
    alloc: Global,
    edges: &[(u64, u64)],
    sites: &[u64],
    from: u64,
) -> Result<Pairs, OutOfMemory>
    requires edges { IsNonDecreasingBy (λ e. e.0) edges.now }
    requires end { from + tables_sum (targets_from edges.now) sites.now < 2 ^ 64 }
    ensures { IfOk result (λ pairs. pairs ≡ table_pairs_of (targets_from edges.now) from sites.now) }
{
    let mut pairs = Pairs::new(alloc);
    let mut here = from;
    for site in sites {
        pairs.push((*site, here))?;
        here += HEAD + PAIR * pairs_from(edges, *site).len() as u64;
    }
    Ok(pairs)
}

/// The tables of some sites one after the other, for edges in the order of their sources, by the places of fragments and of
/// stubs. It refuses for want of memory alone.
pub fn emit_tables(
    alloc: Global,
    edges: &[(u64, u64)],
    sites: &[u64],
    places: &[(u64, u64)],
    stubs: &[(u64, u64)],
) -> Result<Bytes, OutOfMemory>
    requires edges { IsNonDecreasingBy (λ e. e.0) edges.now }
    requires places { IsNonDecreasingBy (λ p. p.0) places.now }
    requires stubs { IsNonDecreasingBy (λ p. p.0) stubs.now }
    requires tables { AllByRecursion (λ a. IsTable (beside_or_zero stubs.now a)
        (placed (beside_or_zero places.now) (targets_from edges.now a))) sites.now }
    ensures { IfOk result (λ bytes. bytes ≡ all_tables
        (targets_from edges.now) (beside_or_zero places.now) (beside_or_zero stubs.now) sites.now) }
{
    let mut out = Bytes::new(alloc);
    for site in sites {
        let pairs = placed_targets(alloc, edges, *site, places)?;
        table_bytes(alloc, place_beside(stubs, *site), &pairs, &mut out)?;
    }
    Ok(out)
}

// The targets of the edges that leave an address, each with its place.
fn placed_targets(
    alloc: Global,
    edges: &[(u64, u64)],
    at: u64,
    places: &[(u64, u64)],
) -> Result<Pairs, OutOfMemory>
    requires edges { IsNonDecreasingBy (λ e. e.0) edges.now }
    requires places { IsNonDecreasingBy (λ p. p.0) places.now }
    ensures { IfOk result (λ pairs. pairs ≡ placed (beside_or_zero places.now) (targets_from edges.now at)) }
{
    let mut pairs = Pairs::new(alloc);
    for (_, to) in pairs_from(edges, at) {
        pairs.push((*to, place_beside(places, *to)))?;
    }
    Ok(pairs)
}
