//! The functions that a file names.

ghost use Rattle.std.specs.Prelude.{◌≡◌, IfOk};
ghost use Rattle.rz_core.specs.Classes.{names_of, names_of_first};

use rz_elf::elf::Elf;
use rz_num::OutOfMemory;
use rz_syms::{SymError, Symbols, read_symbols};
use std::alloc::Global;

/// The functions that the first of these files names; none where its symbol table has a fault.
pub fn first_names(alloc: Global, executables: &[Elf]) -> Result<Symbols, OutOfMemory>
    ensures { IfOk result (λ symbols. symbols ≡ names_of_first executables.now) }
{
    match executables {
        [] => Ok(Symbols::none(alloc)),
        [exe, ..] => read_names(alloc, exe),
    }
}

// The functions that a file names; none where its symbol table has a fault.
fn read_names(alloc: Global, elf: &Elf) -> Result<Symbols, OutOfMemory>
    ensures { IfOk result (λ symbols. symbols ≡ names_of elf.now) }
{
    match read_symbols(alloc, elf) {
        Ok(symbols) => Ok(symbols),
        Err(SymError::Fault(_)) => Ok(Symbols::none(alloc)),
        Err(SymError::OutOfMemory) => Err(OutOfMemory),
    }
}
