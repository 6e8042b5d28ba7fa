//! What plain instructions do to registers, flags and memory.
#![tactic(auto)]

mod arithmetic;
mod bits;
mod comparisons;
mod conditions;
mod exchanges;
mod exec;
mod flag_changes;
pub mod memory;
mod moves;
pub mod operands;
mod products;
pub mod registers;
mod repeats;
mod shifts;
mod stack;
mod state;
mod strings;

pub use exec::exec_plain;
pub use state::{Cpu, Fault};
