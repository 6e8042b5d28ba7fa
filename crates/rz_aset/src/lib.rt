//! Sets of addresses and of edges, in the order in which their members were first seen.
#![tactic(auto)]

mod addresses;
mod edges;
mod kept;

pub use addresses::AddrSet;
pub use edges::EdgeSet;
pub use kept::Record;
