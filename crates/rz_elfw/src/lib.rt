//! Writing an executable: a fresh header page, the original file whole, and the added parts
//! (System V gABI, chapter 4, "ELF Header", and chapter 5, "Program Header").
#![tactic(auto)]

pub mod extent;
mod header_page;
pub mod parts;
mod segments;
pub mod write;
