//! The texts of instructions.
#![tactic(auto)]

mod names;
mod operand;
mod register;
mod statement;
mod text;

pub use text::line;
