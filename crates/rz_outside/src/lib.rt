//! What the tool reads from and writes to: stores of files and sinks of text.
#![tactic(auto)]

mod dir_store;
mod entry_list;
mod fault_schedule;
mod mem_sink;
mod mem_store;
mod out_sink;
mod plain_sink;
mod plain_store;
mod sinks;
mod stores;
mod transfer;

pub use dir_store::DirStore;
pub use entry_list::has_distinct_names;
pub use mem_sink::MemSink;
pub use mem_store::MemStore;
pub use out_sink::OutSink;
pub use plain_sink::PlainSink;
pub use plain_store::PlainStore;
pub use sinks::{PutErr, Sink};
pub use stores::{ReadErr, Store, WriteErr};
