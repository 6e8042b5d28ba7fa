//! What a command line asks for: the work, the files that it reads and those that it writes.

use rz_num::Text;
use rz_paths::Level;

/// What is done with the files that were read.
#[derive(Clone, Copy)]
pub enum Verb {
    Debloat,
    Check,
    Disasm,
    Generate,
    Run,
    Trace,
    Replay,
    Report,
    Demo,
    Functions,
    Label,
}

/// What the words say beside names: 0 and exact where they say no such thing.
#[derive(Clone, Copy)]
pub struct Values {
    /// In steps, lines or functions, as the form has it.
    pub number: u64,
    pub address: u64,
    pub level: Level,
}

/// What a file that is read has to be.
#[derive(Clone, Copy)]
pub enum Demand {
    /// An accepted file.
    Accepted,
    /// An accepted file whose symbol table has no fault.
    Named,
    /// A written file whose header isn't mapped.
    Unmapped,
    ClassFile,
    /// The next input.
    Input,
    /// A trace file.
    Trace,
}

/// A file that is read.
#[derive(Drop)]
pub struct Wanted {
    pub name: Text,
    pub demand: Demand,
}

/// A verb with its values, the files that are read and those that are written, each in order.
#[derive(Drop)]
pub struct Plan {
    pub verb: Verb,
    pub values: Values,
    pub reads: Vec<Wanted>,
    pub writes: Vec<Text>,
}
