//! ELF-64 files: which are accepted, and what they load (System V gABI, chapters 4 and 5).
#![tactic(auto)]

pub mod code;
pub mod elf;
pub mod executable;
pub mod fault;
mod file_faults;
pub mod format;
pub mod header;
mod header_faults;
pub mod law;
mod load_faults;
pub mod placed;
pub mod read;
pub mod room;
pub mod segment;
pub mod stamp;
