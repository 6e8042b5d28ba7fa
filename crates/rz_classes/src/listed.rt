// A listed function.

use rz_num::Bytes;

/// A listed function: the addresses from `lo` up to but not `hi`, and the name of its class.
#[derive(Debug, Drop)]
pub struct Function {
    pub lo: u64,
    pub hi: u64,
    pub class: Bytes,
}
