//! What runs did: as a text, and compared.
#![tactic(auto)]

pub mod compare;
pub mod run_text;
