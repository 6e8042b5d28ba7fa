//! Sites: the items that stand for each kept return, indirect call and indirect jump, and check where it leads, or look it up.
#![tactic(auto)]

mod check;
mod dispatch;
mod items;
pub mod laws;
mod moves;

pub use items::site;
