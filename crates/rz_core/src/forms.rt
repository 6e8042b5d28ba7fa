//! The forms of the command line: what each word behind the verb says.

use crate::plan::Demand;

/// What a word of a form says.
#[derive(Clone, Copy)]
pub enum Place {
    /// The name of a file that is read.
    Read(Demand),
    /// The name of a class file that is read, or `-` for none.
    Classes,
    /// The names of 1 to 1024 inputs, to the end.
    Inputs,
    /// The name of a file that is written, and that no earlier word of this kind names.
    Write,
    /// A decimal number from 1 to this one.
    Number(u64),
    /// In hexadecimal.
    Address,
    Level,
}

/// How many steps a run may take.
const STEPS: u64 = 1_000_000_000;

/// How many lines may be listed.
const LINES: u64 = 100_000;

/// How many functions a generated program may have.
const MOST_FUNCTIONS: u64 = 4000;

/// `debloat EXE CLASSES LEVEL LIMIT OUT INPUT..`, with a limit in steps.
pub static DEBLOAT: [Place; 6] = [
    Place::Read(Demand::Accepted),
    Place::Classes,
    Place::Level,
    Place::Number(STEPS),
    Place::Write,
    Place::Inputs,
];

/// `check EXE`.
pub static CHECK: [Place; 1] = [Place::Read(Demand::Accepted)];

/// `disasm EXE ADDR COUNT`, with a count in lines.
pub static DISASM: [Place; 3] = [
    Place::Read(Demand::Accepted),
    Place::Address,
    Place::Number(LINES),
];

/// `gen N OUT`, with a number of functions.
pub static GENERATE: [Place; 2] = [Place::Number(MOST_FUNCTIONS), Place::Write];

/// `run EXE LIMIT INPUT`, with a limit in steps.
pub static RUN: [Place; 3] = [
    Place::Read(Demand::Accepted),
    Place::Number(STEPS),
    Place::Read(Demand::Input),
];

/// `trace EXE LIMIT OUT INPUT..`, with a limit in steps.
pub static TRACE: [Place; 4] = [
    Place::Read(Demand::Accepted),
    Place::Number(STEPS),
    Place::Write,
    Place::Inputs,
];

/// `replay EXE NEW LIMIT INPUT`, with a limit in steps.
pub static REPLAY: [Place; 4] = [
    Place::Read(Demand::Accepted),
    Place::Read(Demand::Accepted),
    Place::Number(STEPS),
    Place::Read(Demand::Input),
];

/// `report EXE NEW`.
pub static REPORT: [Place; 2] = [Place::Read(Demand::Accepted), Place::Read(Demand::Accepted)];

/// `demo N OUT`, with a number of functions.
pub static DEMO: [Place; 2] = [Place::Number(MOST_FUNCTIONS), Place::Write];

/// `functions EXE CLASSES LEVEL LIMIT INPUT..`, with a limit in steps.
pub static FUNCTIONS: [Place; 5] = [
    Place::Read(Demand::Named),
    Place::Classes,
    Place::Level,
    Place::Number(STEPS),
    Place::Inputs,
];

/// `label NEW OUT`.
pub static LABEL: [Place; 2] = [Place::Read(Demand::Unmapped), Place::Write];
