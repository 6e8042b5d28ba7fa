//! Texts as numbered lines, lines as words, words as numbers. Nothing here takes memory.
#![tactic(auto)]

mod line;
mod number;

pub use line::{Lines, TEXT_MAX, has_content, word};
pub use number::{decimal, hexadecimal};
