//! What texts are read as and what is printed, as it is built, where no clause says it.
#![tactic(auto)]

#[cfg(test)]
mod classes;
#[cfg(test)]
mod disasm;
#[cfg(test)]
mod input;
#[cfg(test)]
mod listing;
#[cfg(test)]
mod report;
#[cfg(test)]
mod text;
#[cfg(test)]
mod trace;
