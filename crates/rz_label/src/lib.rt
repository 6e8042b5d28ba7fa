//! Sections for the parts of a written file (System V gABI, chapter 4, "Sections"), so that debuggers and disassemblers
//! show them. What the file loads stays.
#![tactic(auto)]

pub mod label;
mod sections;
