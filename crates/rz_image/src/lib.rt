//! Memory: regions of bytes with permissions, read and written at addresses of 64 bits.
#![tactic(auto)]

mod access;
mod find;
pub mod memory;
pub mod padded;
pub mod perm;
pub mod region;
mod runs;
mod words;
