//! The written machine: its definitions, and the machine that runs.
#![tactic(auto)]

pub mod cache;
pub mod law;
pub mod machine;
pub mod runs;
pub mod start;
pub mod stub;
mod transfer;
pub mod way;
