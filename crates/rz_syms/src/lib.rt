//! Functions by name: what the symbol table of a file says of them (System V gABI, chapter 4, "Sections" and "Symbol
//! Table"), class files that name them, and which of their instructions are kept.
#![tactic(auto)]

mod class_text;
mod entry;
mod fault;
mod function;
mod kept;
mod named;
mod place;
mod read;
mod section;
mod table;

pub use class_text::resolve;
pub use fault::{SymError, SymFault};
pub use function::{Function, FunctionList, Symbols};
pub use kept::listing;
pub use read::read_symbols;
