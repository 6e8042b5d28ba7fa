// What is kept of each function.

ghost use Rattle.std.specs.Prelude.{◌≡◌, ◌+◌, ◌++◌, ◌≤◌, ◌<◌, nat_lt, length, sum_by, count_by, IfOk, OnOk};
ghost use Rattle.std.specs.Ordering.{nat_cmp};
ghost use Rattle.std.specs.List.Sorted.{IsSorted};
ghost use Rattle.rz_syms.specs.Symbols.{AreApart};
ghost use Rattle.rz_syms.specs.Listing.{function_text, has, kept_in, listing as listing_text, outside, outside_text};

use crate::function::{Function, Symbols};
use rz_aset::Record;
use rz_num::{Bytes, OutOfMemory};
use std::alloc::Global;

/// A line `NAME LO HI KEPT` for each function in their order, KEPT being the number of kept nodes among its addresses, and
/// last `outside N` for the nodes in no function. Each node is counted once. It refuses for want of memory alone, and takes
/// time in proportion to n log n for n nodes and log n for each function.
pub fn listing(alloc: Global, symbols: &Symbols, kept: &Record) -> Result<Bytes, OutOfMemory>
    ensures text { IfOk result (λ text. text ≡ listing_text symbols.now kept.now.nodes) }
    ensures once { let nodes = kept.now.nodes in
        IfOk result (λ _. sum_by (kept_in nodes) symbols.now + outside symbols.now nodes ≡ length nodes) }
{
    let nodes = kept.nodes.sorted(alloc)?;
    let text = lines(alloc, symbols, nodes.as_slice())?;
    Ok(text)
}

// The lines by nodes in ascending order.
fn lines(alloc: Global, symbols: &Symbols, nodes: &[u64]) -> Result<Bytes, OutOfMemory>
    requires { IsSorted nat_cmp nodes.now }
    ensures text { IfOk result (λ text. text ≡ listing_text symbols.now nodes.now) }
    ensures apart { IfOk result (λ _. AreApart symbols.now) }
{
    let mut text = Bytes::new(alloc);
    let mut outside = nodes.len();
    for function in symbols.list.as_slice() {
        let count = count_within(nodes, function.lo, function.hi);
        push_function(alloc, &mut text, function, count)?;
        outside -= count;
    }
    push_outside(alloc, &mut text, outside)?;
    Ok(text)
}

// Appends the line of a function with the number of its nodes.
fn push_function(
    alloc: Global,
    text: &mut Bytes,
    function: &Function,
    count: usize,
) -> Result<(), OutOfMemory>
    ensures { OnOk result (text.new ≡ text.old ++ function_text function.now count) }
{
    let Function { name, lo, hi } = function;
    let numbers = format!(in alloc; " 0x{lo:x} 0x{hi:x} {count}\n")?;
    text.push_all(name.as_slice())?;
    text.push_all(numbers.as_bytes())
}

// Appends the line of the nodes in no function.
fn push_outside(alloc: Global, text: &mut Bytes, count: usize) -> Result<(), OutOfMemory>
    ensures { OnOk result (text.new ≡ text.old ++ outside_text count) }
{
    let line = format!(in alloc; "outside {count}\n")?;
    text.push_all(line.as_bytes())
}

// How many of ascending nodes lie from one address up to but not another.
fn count_within(nodes: &[u64], lo: u64, hi: u64) -> usize
    requires sorted { IsSorted nat_cmp nodes.now }
    requires order { lo ≤ hi }
    ensures { result ≡ count_by (λ a. has lo hi a) nodes.now }
{
    count_below(nodes, hi) - count_below(nodes, lo)
}

// How many of ascending nodes lie below an address.
fn count_below(nodes: &[u64], end: u64) -> usize
    requires { IsSorted nat_cmp nodes.now }
    ensures { result ≡ count_by (λ a. nat_lt a end) nodes.now }
{
    nodes.partition_point(|a| *a < end)
}
