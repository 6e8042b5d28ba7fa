//! The rewriter: the new file of a file, for what is kept of it.
#![tactic(auto)]

pub mod added;
mod bounds;
mod code;
mod fragments;
mod law;
pub mod nodes;
mod ranges;
pub mod refusal;
pub mod rewrite;
mod stubs;
mod tables;
mod targets;
