//! The top call: a command line over a store of files and a sink of text.
#![tactic(auto)]

mod check;
mod debloat;
mod decoding;
mod demo;
mod disasm;
mod driver;
pub mod files;
pub mod forms;
mod functions;
mod generate;
mod label;
pub mod making;
mod names;
pub mod outcome;
mod perform;
pub mod plan;
mod reading;
mod replay;
mod report;
mod run;
pub mod status;
mod texts;
pub mod tool;
mod trace;
mod words;
mod writing;
