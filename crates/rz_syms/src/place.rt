// Where functions stand, in ascending order.

ghost use Rattle.std.specs.Prelude.{◌≡◌, ◌+◌, ◌*◌, ◌≤◌, ◌&&◌, ◌<◌, ℕ, if◌then◌else◌, nat_le, Some, None, length, drop, IfOk, IfSome, All};
ghost use Rattle.rz_image.specs.Perm.{executes};
ghost use Rattle.rz_syms.specs.Calls.Ordered.{AreOrdered};
ghost use Rattle.rz_syms.specs.Calls.Placed.{place_of};
ghost use Rattle.rz_syms.specs.Symbols.{ascending, is_in_code, places_from, symbol_of, symbols_in};

use crate::entry::{SYMBOL_SIZE, Symbol};
use crate::named::is_name_at;
use rz_elf::elf::{Elf, Load};
use rz_num::OutOfMemory;
use std::alloc::Global;

/// Where a function stands: its first address, the one behind its last, the number of its symbol, and where its name
/// begins in the string table, in bytes. Places go in this order.
#[derive(Clone, Copy, PartialEq, Eq, PartialOrd, Ord)]
pub struct Place {
    pub lo: u64,
    pub hi: u64,
    pub number: u64,
    pub name: u32,
}

/// The places of the functions that symbols name, in ascending order. It refuses for want of memory alone.
pub fn ascending_places(
    alloc: Global,
    elf: &Elf,
    symbols: &[u8],
    strings: &[u8],
) -> Result<Vec<Place>, OutOfMemory>
    ensures value { let found = places_from elf.now.loads strings.now 0 (symbols_in symbols.now) in
        IfOk result (λ places. places.items ≡ ascending found) }
    ensures ordered { IfOk result (λ places. AreOrdered places.items) }
{
    let mut places = found_places(alloc, elf, symbols, strings)?;
    places.sort_unstable();
    Ok(places)
}

// The places of the functions that symbols name, in the order of the symbols.
fn found_places(
    alloc: Global,
    elf: &Elf,
    symbols: &[u8],
    strings: &[u8],
) -> Result<Vec<Place>, OutOfMemory>
    ensures { let found = places_from elf.now.loads strings.now 0 (symbols_in symbols.now) in
        IfOk result (λ places. places.items ≡ found) }
{
    let mut places = Vec::new(alloc);
    for number in 0..symbols.len() / SYMBOL_SIZE {
        let symbol = symbol_at(symbols, number);
        if let Some(place) = place_of(elf, strings, number as u64, &symbol) {
            places.push(place)?;
        }
    }
    Ok(places)
}

/// The symbol of a number, from 0.
pub fn symbol_at(symbols: &[u8], number: usize) -> Symbol
    requires { 24 * number + 24 ≤ length symbols.now }
    ensures { result ≡ symbol_of (drop (24 * number) symbols.now) }
{
    Symbol::read(&symbols[SYMBOL_SIZE * number..])
}

// The place of the function that a symbol names, if it does.
fn place_of(elf: &Elf, strings: &[u8], number: u64, symbol: &Symbol) -> Option<Place>
    ensures { result ≡ place_of elf.now.loads strings.now number symbol.now }
{
    if !symbol.is_defined_function() {
        return None;
    }
    let hi = end_in_code(elf, symbol.value, symbol.size)?;
    if is_name_at(strings, symbol.name as usize) {
        Some(Place {
            lo: symbol.value,
            hi,
            number,
            name: symbol.name,
        })
    } else {
        None
    }
}

// Where so many bytes end, if they lie in one load that may be executed.
fn end_in_code(elf: &Elf, lo: u64, size: u64) -> Option<u64>
    ensures { result ≡ (if is_in_code elf.now.loads lo (lo + size) then Some (lo + size) else None) }
{
    if is_in_code(elf.loads.as_slice(), lo, size) {
        Some(lo + size)
    } else {
        None
    }
}

// Whether so many bytes lie in one load that may be executed.
fn is_in_code(loads: &[Load], lo: u64, size: u64) -> bool
    ensures { result ≡ is_in_code loads.now lo (lo + size) }
{
    loads.iter().any(|load| holds_code(load, lo, size))
}

// Whether so many bytes lie in this load, which may be executed.
fn holds_code(load: &Load, lo: u64, size: u64) -> bool
    ensures { let l = load.now in
        result ≡ (executes l.perm && (nat_le l.at lo && nat_le (lo + size) (l.at + l.size))) }
{
    load.perm.executes()
        && load.at <= lo
        && u128::from(lo) + u128::from(size) <= u128::from(load.at) + u128::from(load.size)
}
