//! Listings of the code of a file.
#![tactic(auto)]

mod lines;

pub use lines::listing;
