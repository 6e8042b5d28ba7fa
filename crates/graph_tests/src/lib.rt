//! What sets, lists and graphs give as they are built, where no clause says it.
#![tactic(auto)]

#[cfg(test)]
mod aset;
#[cfg(test)]
mod flow;
#[cfg(test)]
mod links;
