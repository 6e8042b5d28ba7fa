//! The report of a debloating.

ghost use Rattle.std.specs.Prelude.{◌≡◌, [], ◌∷◌, ◌++◌, codes, string_bytes, None, IfOk};
ghost use Rattle.serde_json.specs.Data.{number, unsigned, string, object, member, no_members};
ghost use Rattle.serde_json.specs.View.{view};
ghost use Rattle.rz_num.specs.Texts.{hex_text};
ghost use Rattle.rz_elf.specs.Elf.{image_of};
ghost use Rattle.rz_isa.specs.Decoded.{decoded};
ghost use Rattle.rz_machine.specs.Traced.{kept_in};
ghost use Rattle.rz_rewrite.specs.Refusals.{no_room_for};
ghost use Rattle.rz_report.specs.Report.{debloat_report_of, report_text};

use rz_aset::Record;
use rz_elf::elf::Elf;
use rz_elfw::extent::extent_of;
use rz_isa::InsnTable;
use rz_num::{Bytes, OutOfMemory};
use rz_rewrite::added::added_range;
use rz_rewrite::nodes::{site_count, site_edge_count};
use serde_json::{Value, json};
use std::alloc::{AllocError, Global};

/// The report of a debloating: where the added range begins, and how many edges, instructions, edges that leave sites, and
/// sites are kept of a file, whose added parts have room. It refuses for want of memory alone.
pub fn debloat_report<T: InsnTable>(
    alloc: Global,
    elf: &Elf,
    kept: &Record,
) -> Result<Bytes, OutOfMemory>
    requires { no_room_for (decoded T.rows) elf.now.bytes (kept_in kept.now) ≡ None }
    ensures { IfOk result (λ bytes. bytes
        ≡ debloat_report_of (decoded T.rows) (image_of elf.now.bytes) (kept_in kept.now)) }
{
    let words = kept.nodes.sorted(alloc)?;
    let pairs = kept.edges.sorted(alloc)?;
    let nodes = words.as_slice();
    let edges = pairs.as_slice();
    let sites = site_count::<T>(elf, nodes);
    let site_edges = site_edge_count::<T>(elf, edges);
    let Ok(range) = added_range(&extent_of(elf), nodes.len() as u64, sites, site_edges) else {
        unreachable!()
    };
    let text = report_line(
        alloc,
        range.scratch,
        edges.len() as u64,
        nodes.len() as u64,
        site_edges,
        sites,
    )?;
    with_line_end(alloc, &text)
}

/// A text as bytes, with a line feed behind it.
pub(crate) fn with_line_end(alloc: Global, text: &str) -> Result<Bytes, OutOfMemory>
    ensures { IfOk result (λ bytes. bytes ≡ text.now ++ 10 ∷ []) }
{
    let mut bytes = Bytes::from_slice(alloc, text.as_bytes())?;
    bytes.push(b'\n')?;
    Ok(bytes)
}

// The report without its line end.
fn report_line(
    alloc: Global,
    added: u64,
    edges: u64,
    instructions: u64,
    site_edges: u64,
    sites: u64,
) -> Result<String, AllocError>
    ensures { IfOk result (λ line. string_bytes line ++ 10 ∷ []
        ≡ report_text added edges instructions site_edges sites) }
{
    let added = address_text(alloc, added)?;
    let value = report_value(alloc, &added, edges, instructions, site_edges, sites)?;
    value.to_string(alloc)
}

// An address in hexadecimal.
fn address_text(alloc: Global, address: u64) -> Result<String, AllocError>
    ensures { IfOk result (λ text. string_bytes text ≡ hex_text address) }
{
    format!(in alloc; "0x{address:x}")
}

// The report as a JSON value.
fn report_value(
    alloc: Global,
    added: &str,
    edges: u64,
    instructions: u64,
    site_edges: u64,
    sites: u64,
) -> Result<Value, AllocError>
    ensures { IfOk result (λ value. view value ≡ object
        (member (codes "added") (string added.now)
        (member (codes "edges") (number (unsigned edges))
        (member (codes "instructions") (number (unsigned instructions))
        (member (codes "site_edges") (number (unsigned site_edges))
        (member (codes "sites") (number (unsigned sites)) no_members)))))) }
{
    json!(in alloc; {
        "added": added,
        "edges": edges,
        "instructions": instructions,
        "site_edges": site_edges,
        "sites": sites
    })
}
