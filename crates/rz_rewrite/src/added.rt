//! The parts that are added to a file: their sizes, and where they lie below its lowest load.

ghost use Rattle.std.specs.Prelude.{◌≡◌, ◌+◌, ◌^◌, ◌<◌, ◌≤◌, None, Some, IfOk, IfErr, OnOk};
ghost use Rattle.rz_num.specs.Page.{page_up};
ghost use Rattle.rz_elf.specs.AddedRange.{tables_size, code_size, stubs_size, parts_below, scratch_size};
ghost use Rattle.rz_elf.specs.Room.{no_room};
ghost use Rattle.rz_rewrite.specs.Refusals.{size_for};
ghost use Rattle.rz_rewrite.specs.Calls.Plan.{range_of};

use rz_elf::format::STUB_SIZE;
use rz_elf::room::{Extent, Room};

// The bytes of a page, and of the scratch part.
const PAGE: u128 = 4096;

/// Where the parts of a new file begin, in ascending order, and where the last one ends.
#[derive(Clone, Copy)]
pub struct AddedRange {
    pub scratch: u64,
    pub tables: u64,
    pub code: u64,
    pub stubs: u64,
    pub stop: u64,
}

/// Where the parts lie below the lowest load of a file that takes so much, for these numbers of kept nodes, of sites
/// among them and of kept edges that leave sites; or why there is no room for them.
pub fn added_range(extent: &Extent, nodes: u64, sites: u64, edges: u64) -> Result<AddedRange, Room>
    ensures range { IfOk result (λ range. range_of range
        ≡ parts_below (tables_size sites edges) (code_size nodes sites edges) (stubs_size nodes) extent.now.floor) }
    ensures room { OnOk result (no_room extent.now (size_for nodes sites edges) ≡ None) }
    ensures refused { IfErr result (λ room. no_room extent.now (size_for nodes sites edges) ≡ Some room) }
{
    let (nodes, sites, edges) = (u128::from(nodes), u128::from(sites), u128::from(edges));
    let tables = pages(16 * sites + 8 * edges + 1);
    let code = pages(32 * nodes + 160 * sites + 48 * edges + 512);
    let stubs = pages(u128::from(STUB_SIZE) * nodes);
    match no_room_for(extent, tables + code + stubs) {
        Some(room) => Err(room),
        None => Ok(below(u128::from(extent.floor), tables, code, stubs)),
    }
}

// So many bytes, rounded up to whole pages.
fn pages(bytes: u128) -> u128
    requires { bytes < 2 ^ 100 }
    ensures { result ≡ page_up bytes }
{
    (bytes + PAGE - 1) / PAGE * PAGE
}

// Why there is no room for parts of so many bytes.
fn no_room_for(extent: &Extent, size: u128) -> Option<Room>
    ensures { result ≡ no_room extent.now size }
{
    if size > u128::from(extent.floor) {
        return Some(Room::Low);
    }
    extent.no_room(size as u64)
}

// The parts of these sizes that end at the address `stop`, with the scratch page below them.
fn below(stop: u128, tables: u128, code: u128, stubs: u128) -> AddedRange
    requires fits { scratch_size + tables + code + stubs ≤ stop }
    requires low { stop < 2 ^ 64 }
    ensures { range_of result ≡ parts_below tables code stubs stop }
{
    let stubs = stop - stubs;
    let code = stubs - code;
    let tables = code - tables;
    AddedRange {
        scratch: (tables - PAGE) as u64,
        tables: tables as u64,
        code: code as u64,
        stubs: stubs as u64,
        stop: stop as u64,
    }
}
