//! The encoder, for any instruction table.
#![tactic(auto)]

mod choose;
mod encoder;
pub mod laws;
mod length;
mod reach;
mod spelling;
mod writer;

pub use encoder::{encode, form_len, spells};
