//! What each level keeps beyond what was recorded: the instructions on walks that rejoin what was recorded or return,
//! the bodies of functions of the same class, and the edges among all of them.
#![tactic(auto)]

mod bodies;
mod level;
mod listing;
mod node;
mod passing;
mod returns;
mod search;
mod sets;
mod walks;

pub use level::{Level, expand};
pub use node::Node;
