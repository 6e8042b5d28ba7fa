//! What operations on numbers and memory give as they are built, where no clause says it.
#![tactic(auto)]

#[cfg(test)]
mod alu;
#[cfg(test)]
mod exec;
#[cfg(test)]
mod image;
#[cfg(test)]
mod num;
