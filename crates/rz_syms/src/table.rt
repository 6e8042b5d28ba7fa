// Finds the symbol table of a file (System V gABI, chapter 4, "Sections").

ghost use Rattle.std.specs.Prelude.{◌≡◌, ◌+◌, ◌*◌, ◌≤◌, ◌<◌, length, Some, None, IfOk, IfErr, IfSome, option_map};
ghost use Rattle.rz_text.specs.Fault.{or_else};
ghost use Rattle.rz_syms.specs.Sections.{section_at as section_of_number, section_bytes, section_table_of, symbol_table, table_end};
ghost use Rattle.rz_syms.specs.Fault.{header_fault, table_fault};
ghost use Rattle.rz_syms.specs.Calls.Found.{IsInside, IsStanding, found_fault, found_table, table_of};

use crate::entry::SYMBOL_SIZE;
use crate::fault::SymFault;
use crate::section::{SECTION_SIZE, STRINGS, SYMBOLS, Section, SectionTable};

/// A symbol table and its string table.
#[derive(Clone, Copy)]
pub struct Table {
    pub symbols: Section,
    pub strings: Section,
}

/// The symbol table of a file, where it has one, or the first fault but for those of names.
pub fn find_table(file: &[u8]) -> Result<Option<Table>, SymFault>
    requires { 64 ≤ length file.now }
    ensures sound { IfOk result (λ _. found_fault file.now ≡ None) }
    ensures value { IfOk result (λ table. table ≡ found_table file.now) }
    ensures standing { IfOk result (λ table. IfSome table (IsStanding (length file.now))) }
    ensures fault { IfErr result (λ f. found_fault file.now ≡ Some f) }
{
    let header = SectionTable::read(file);
    if header.count == 0 {
        return Ok(None);
    }
    if usize::from(header.entry_size) != SECTION_SIZE {
        return Err(SymFault::SectionSize);
    }
    if header.end() > file.len() as u128 {
        return Err(SymFault::SectionRange);
    }
    let Some(symbols) = first_table(file, &header) else {
        return Ok(None);
    };
    match linked(file, &header, symbols) {
        Ok(table) => Ok(Some(table)),
        Err(fault) => Err(fault),
    }
}

// The first symbol table among the sections.
fn first_table(file: &[u8], header: &SectionTable) -> Option<Section>
    requires header { header.now ≡ section_table_of file.now }
    requires inside { table_end header.now ≤ length file.now }
    ensures { result ≡ symbol_table file.now }
{
    for index in 0..header.count {
        let section = section_at(file, header, u32::from(index));
        if section.kind == SYMBOLS {
            return Some(section);
        }
    }
    None
}

// The section of a number, from 0.
fn section_at(file: &[u8], header: &SectionTable, index: u32) -> Section
    requires header { header.now ≡ section_table_of file.now }
    requires inside { table_end header.now ≤ length file.now }
    requires index { index < header.now.count }
    ensures { result ≡ section_of_number file.now index }
{
    let at = header.at as usize + SECTION_SIZE * index as usize;
    Section::read(&file[at..])
}

// A symbol table with its strings, or its first fault but for those of names.
fn linked(file: &[u8], header: &SectionTable, symbols: Section) -> Result<Table, SymFault>
    requires header { header.now ≡ section_table_of file.now }
    requires inside { table_end header.now ≤ length file.now }
    ensures sound { IfOk result (λ _. table_fault file.now symbols ≡ None) }
    ensures value { IfOk result (λ table. table ≡ table_of file.now symbols) }
    ensures standing { IfOk result (IsStanding (length file.now)) }
    ensures fault { IfErr result (λ f. table_fault file.now symbols ≡ Some f) }
{
    let len = file.len() as u64;
    if symbols.entry_size != SYMBOL_SIZE as u64 || symbols.size % SYMBOL_SIZE as u64 != 0 {
        return Err(SymFault::SymbolEntry);
    }
    if symbols.leaves(len) {
        return Err(SymFault::SymbolRange);
    }
    if symbols.link >= u32::from(header.count) {
        return Err(SymFault::StringLink);
    }
    let strings = section_at(file, header, symbols.link);
    if strings.kind != STRINGS {
        return Err(SymFault::StringLink);
    }
    if strings.leaves(len) {
        return Err(SymFault::StringRange);
    }
    Ok(Table { symbols, strings })
}

/// The bytes of a section.
pub fn bytes_of<'a>(file: &'a [u8], section: &Section) -> &'a [u8]
    requires { IsInside (length file.now) section.now }
    ensures { result.now ≡ section_bytes file.now section.now }
{
    &file[section.offset as usize..][..section.size as usize]
}
