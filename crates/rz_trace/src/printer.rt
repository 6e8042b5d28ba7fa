// Printing trace files.

ghost use Rattle.std.specs.Prelude.{◌≡◌, ◌++◌, OnOk, IfOk};
ghost use Rattle.rz_machine.specs.Traced.{kept_in};
ghost use Rattle.rz_trace.specs.declared.entry.Entry.TheVariants as entry;
ghost use Rattle.rz_trace.specs.Printed.{ended_line, printed, ReadsBack};
ghost use Rattle.rz_trace.specs.Calls.Printing.{edge_lines, node_lines};

use rz_aset::Record;
use rz_num::{Bytes, OutOfMemory};
use std::alloc::Global;

/// The text of a record: a line for each node in ascending order, and for each edge in ascending order, between the first two and
/// the last line. It refuses for want of memory alone.
pub fn print_trace(alloc: Global, kept: &Record) -> Result<Bytes, OutOfMemory>
    ensures text { IfOk result (λ text. text ≡ printed (kept_in kept.now)) }
    ensures read_back { IfOk result (λ text. ReadsBack text kept.now) }
{
    // Each node and each edge is listed once.
    let _ = kept.nodes.as_slice();
    let _ = kept.edges.as_slice();
    let nodes = kept.nodes.sorted(alloc)?;
    let edges = kept.edges.sorted(alloc)?;
    let mut text = Bytes::new(alloc);
    text.push_all(b"razor-trace 2\nprofile 2\n")?;
    print_nodes(alloc, &mut text, nodes.as_slice())?;
    print_edges(alloc, &mut text, edges.as_slice())?;
    text.push_all(b"end\n")?;
    Ok(text)
}

// Prints a line for each node.
fn print_nodes(alloc: Global, text: &mut Bytes, nodes: &[u64]) -> Result<(), OutOfMemory>
    ensures { OnOk result (text.new ≡ text.old ++ node_lines nodes.now) }
{
    for node in nodes {
        print_node(alloc, text, *node)?;
    }
    Ok(())
}

fn print_node(alloc: Global, text: &mut Bytes, node: u64) -> Result<(), OutOfMemory>
    ensures { OnOk result (text.new ≡ text.old ++ ended_line (entry.Node node)) }
{
    let line = format!(in alloc; "n 0x{node:x}\n")?;
    text.push_all(line.as_bytes())
}

// Prints a line for each edge.
fn print_edges(alloc: Global, text: &mut Bytes, edges: &[(u64, u64)]) -> Result<(), OutOfMemory>
    ensures { OnOk result (text.new ≡ text.old ++ edge_lines edges.now) }
{
    for edge in edges {
        print_edge(alloc, text, edge.0, edge.1)?;
    }
    Ok(())
}

fn print_edge(alloc: Global, text: &mut Bytes, from: u64, to: u64) -> Result<(), OutOfMemory>
    ensures { OnOk result (text.new ≡ text.old ++ ended_line (entry.Edge from to)) }
{
    let line = format!(in alloc; "e 0x{from:x} 0x{to:x}\n")?;
    text.push_all(line.as_bytes())
}
