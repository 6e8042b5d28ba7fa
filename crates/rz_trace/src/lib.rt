//! Traces: what runs use, and trace files, the texts of recorded nodes and edges.
#![tactic(auto)]

mod entry;
mod error;
mod file;
mod line;
mod memo;
mod printer;
mod reader;
mod tracer;

pub use error::TraceFault;
pub use file::TraceFile;
pub use printer::print_trace;
pub use reader::read_trace;
pub use tracer::{TraceRefusal, trace};
