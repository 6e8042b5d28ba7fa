// Reads the functions that a file's symbol table names.

ghost use Rattle.std.specs.Prelude.{◌≡◌, ◌++◌, [], ◌∷◌, map, fold, length, Some, None, IfOk, IfErr, OnOk};
ghost use Rattle.rz_syms.specs.Symbols.{function_at, functions_of, with_function};
ghost use Rattle.rz_syms.specs.Fault.{fault_of, IsCause};
ghost use Rattle.rz_syms.specs.Calls.Found.{IsStanding, found_fault, found_table};
ghost use Rattle.rz_syms.specs.Calls.Ordered.{AreOrdered};

use crate::fault::{SymError, SymFault};
use crate::function::{Function, FunctionList, Symbols};
use crate::named::{first_unended, string_at};
use crate::place::{Place, ascending_places};
use crate::table::{Table, bytes_of, find_table};
use rz_elf::elf::Elf;
use rz_num::{Bytes, OutOfMemory};
use std::alloc::Global;

/// The functions that the symbol table of a file names, in ascending order; none where it has no symbol table. The error
/// is the first fault of the table, or there is no memory. It takes time in proportion to n log n for n symbols.
pub fn read_symbols(alloc: Global, elf: &Elf) -> Result<Symbols, SymError>
    ensures sound { IfOk result (λ _. fault_of elf.now.bytes ≡ None) }
    ensures value { IfOk result (λ symbols. symbols ≡ functions_of elf.now) }
    ensures fault { IfErr result (IsCause elf.now.bytes) }
{
    match find_table(elf.bytes.as_slice()) {
        Ok(Some(table)) => read_table(alloc, elf, &table),
        Ok(None) => Ok(Symbols::none(alloc)),
        Err(fault) => Err(SymError::Fault(fault)),
    }
}

// The functions that the symbol table of a file names.
fn read_table(alloc: Global, elf: &Elf, table: &Table) -> Result<Symbols, SymError>
    requires table { found_table elf.now.bytes ≡ Some table.now }
    requires standing { IsStanding (length elf.now.bytes) table.now }
    requires sound { found_fault elf.now.bytes ≡ None }
    ensures sound { IfOk result (λ _. fault_of elf.now.bytes ≡ None) }
    ensures value { IfOk result (λ symbols. symbols ≡ functions_of elf.now) }
    ensures fault { IfErr result (IsCause elf.now.bytes) }
{
    let file = elf.bytes.as_slice();
    let symbols = bytes_of(file, &table.symbols);
    let strings = bytes_of(file, &table.strings);
    if let Some(number) = first_unended(symbols, strings) {
        return Err(SymError::Fault(SymFault::Name(number)));
    }
    let places = ascending_places(alloc, elf, symbols, strings)?;
    Ok(functions_at(alloc, strings, places.as_slice())?)
}

// The functions at places in ascending order, but for those that begin before one ends that was taken.
fn functions_at(alloc: Global, strings: &[u8], places: &[Place]) -> Result<Symbols, OutOfMemory>
    requires { AreOrdered places.now }
    ensures { let functions = map (function_at strings.now) places.now in
        IfOk result (λ found. found ≡ fold with_function [] functions) }
{
    let mut functions = Vec::new(alloc);
    let mut end = 0;
    for place in places {
        if place.lo >= end {
            push_function(alloc, &mut functions, strings, place)?;
            end = place.hi;
        }
    }
    Ok(Symbols {
        list: FunctionList::from_vec(functions),
    })
}

// Adds the function at a place.
fn push_function(
    alloc: Global,
    functions: &mut Vec<Function>,
    strings: &[u8],
    place: &Place,
) -> Result<(), OutOfMemory>
    ensures { let function = function_at strings.now place.now in
        OnOk result (functions.new.items ≡ functions.old.items ++ function ∷ []) }
{
    let name = Bytes::from_slice(alloc, string_at(strings, place.name as usize))?;
    functions.push(Function {
        name,
        lo: place.lo,
        hi: place.hi,
    })?;
    Ok(())
}
