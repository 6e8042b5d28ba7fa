//! Nodes with values, each in one list of each of two families.
#![tactic(auto)]

mod arena;
mod links;
mod lists;

pub use arena::{Arena, Family};
