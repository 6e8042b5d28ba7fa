//! The lookup routine, which all sites share, and the tables that it searches.
#![tactic(auto)]

mod instructions;
pub mod laws;
mod lookup;
mod tables;

pub use lookup::routine;
pub use tables::table_bytes;
