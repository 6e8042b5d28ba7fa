//! Why a line of the script was not followed.

use rz_num::OutOfMemory;
use std::alloc::{AllocError, AllocFailed};

/// Why a line of the script was not followed.
#[derive(Clone, Copy)]
pub enum Fault {
    /// The line is no command, or none that fits here.
    Line,
    OutOfMemory,
}

impl From<OutOfMemory> for Fault {
    fn from(_: OutOfMemory) -> Fault {
        Fault::OutOfMemory
    }
}

impl From<AllocError> for Fault {
    fn from(_: AllocError) -> Fault {
        Fault::OutOfMemory
    }
}

impl<T: Drop> From<AllocFailed<T>> for Fault {
    fn from(_: AllocFailed<T>) -> Fault {
        Fault::OutOfMemory
    }
}
