//! What a work gives.

use crate::making::Made;
use crate::status::Status;
use rz_num::{Bytes, OutOfMemory};
use std::alloc::Global;

/// How a work that is done ended, the text that is put, and what is written, in order.
#[derive(Drop)]
pub struct Outcome {
    pub status: Status,
    pub text: Bytes,
    pub writes: Vec<Bytes>,
}

impl Outcome {
    ghost use Rattle.std.specs.Prelude.{[], ◌∷◌, IfOk};
    ghost use Rattle.rz_core.specs.Calls.Outcomes.{IsSaid, IsWrote};

    /// Where nothing is written.
    pub fn said(alloc: Global, status: Status, text: Bytes) -> Outcome
        ensures { IsSaid status text result }
    {
        Outcome {
            status,
            text,
            writes: Vec::new(alloc),
        }
    }

    /// Where one file is written.
    pub fn wrote(alloc: Global, made: Made) -> Result<Outcome, OutOfMemory>
        ensures { IfOk result (IsWrote made.report (made.bytes ∷ [])) }
    {
        let Made { bytes, report } = made;
        let mut writes = Vec::new(alloc);
        writes.push(bytes)?;
        Ok(Outcome {
            status: Status::Ok,
            text: report,
            writes,
        })
    }
}
