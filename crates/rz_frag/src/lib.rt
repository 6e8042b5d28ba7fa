//! Fragments: the items that stand for each kept instruction that is no site.
#![tactic(auto)]

pub mod laws;
mod sequence;

pub use sequence::fragment;
