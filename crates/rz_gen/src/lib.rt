//! Generated programs.
#![tactic(auto)]

mod bytes;
mod code;
mod file;
mod headers;
mod places;
mod sequence;

pub use file::{GEN_STEPS_LIMIT, gen_file};
