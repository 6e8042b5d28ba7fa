//! The bytes of a new file's code, by its layout.
#![tactic(auto)]

mod emitter;
mod length;
mod lookup;

pub use emitter::emit;
