//! Input files: the arguments, the standard input and the replies that a run is given.
#![tactic(auto)]

mod entry;
mod error;
mod line;
mod printer;
mod reader;

pub use error::InputError;
pub use printer::print_input;
pub use reader::read_input;
