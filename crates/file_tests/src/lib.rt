//! What reading, writing and generating files give as they are built, and what real files and standard output do.
#![tactic(auto)]

#[cfg(test)]
mod elf;
#[cfg(test)]
mod elfw;
#[cfg(test)]
mod generator;
#[cfg(test)]
mod label;
#[cfg(test)]
mod outside;
#[cfg(test)]
mod symbols;
