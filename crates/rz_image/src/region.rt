//! Regions of memory.

use crate::padded::Padded;
use crate::perm::Perm;

/// The bytes from an address on. The first `opened` of them can be reached.
#[derive(Drop)]
pub struct Region {
    pub base: u64,
    pub bytes: Padded,
    pub opened: u64,
    pub perm: Perm,
}

/// The first address that an access may not reach.
#[derive(Clone, Copy, PartialEq, Eq, Debug)]
pub struct Touch {
    pub address: u64,
}
