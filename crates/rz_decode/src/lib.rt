//! The decoder, for any instruction table.
#![tactic(auto)]

mod decoder;
mod field;
mod fit;
mod front;
pub mod laws;
mod number;
mod operand;
mod parts;
mod rex;

pub use decoder::decode;
