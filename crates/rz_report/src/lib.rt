//! The reports of a debloating, and of a pair of files.
#![tactic(auto)]

pub mod debloat;
pub mod pair;
mod stubs;
