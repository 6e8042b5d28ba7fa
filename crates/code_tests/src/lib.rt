//! What the table, decoder, encoder, layout, items and machine give as they are built, where no clause says it.
#![tactic(auto)]

#[cfg(test)]
mod emit;
#[cfg(test)]
mod encode;
#[cfg(test)]
mod frag;
#[cfg(test)]
mod layout;
#[cfg(test)]
mod lookup;
#[cfg(test)]
mod machine;
#[cfg(test)]
mod replay;
#[cfg(test)]
mod sites;
#[cfg(test)]
mod sys;
#[cfg(test)]
mod table;
#[cfg(test)]
mod thin;
#[cfg(test)]
mod tracer;
#[cfg(test)]
mod two_jumps;
