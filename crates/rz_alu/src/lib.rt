//! Operations on numbers of a width: their values, and the flags that they leave. No call takes memory.
#![tactic(auto)]

mod arithmetic;
mod bits;
mod double_shifts;
mod products;
mod scans;
mod shifts;
mod status;
mod sums;

pub use arithmetic::{arith, unary};
pub use bits::bit_test;
pub use double_shifts::double_shift;
pub use products::{div, mul};
pub use scans::scan;
pub use shifts::shift;
