//! System calls: what a run is given, what each call answers, records and leaves
//! (System V ABI for x86-64, section A.2.1).
#![tactic(auto)]

pub mod call;
pub mod event;
pub mod input;
pub mod world;
