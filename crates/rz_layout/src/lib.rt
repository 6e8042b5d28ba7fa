//! The layout of a new file's code: the form of each jump, and the place of each item.
#![tactic(auto)]

#[cfg(test)]
mod fit;
pub mod laws;
pub mod layout;
pub mod order;
mod piece;
mod pieces;
pub mod plan;
mod settle;
mod sizes;
mod span;
#[cfg(test)]
mod tests;
