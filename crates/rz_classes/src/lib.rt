//! Class files: which functions a file has, and of what class each is.
#![tactic(auto)]

mod error;
mod line;
mod list;
mod listed;
mod reader;

pub use error::ClassError;
pub use list::Classes;
pub use listed::Function;
pub use reader::read_classes;
