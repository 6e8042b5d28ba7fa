//! A graph of addresses, with its edges in both directions and what its walks reach.
#![tactic(auto)]

mod flow;

pub use flow::Flow;
