//! What the tool answers.

ghost use Rattle.std.specs.Prelude.{◌≡◌};
ghost use Rattle.rz_core.specs.Statuses.{number_of, refusal_text};
ghost use Rattle.rz_core.specs.Calls.Said.{text_said};

use rz_elf::fault::ElfFault;
use rz_elf::room::Room;
use rz_num::Text;
use rz_syms::SymFault;

/// What could not be written.
#[derive(Clone, Copy, PartialEq, Eq, Debug)]
pub enum Target {
    File,
    Text,
}

/// How a command ended. Inputs and lines count from 1; an address is in bytes.
#[derive(Drop)]
pub enum Status {
    Ok,
    /// The words are no form.
    Usage,
    /// A file read as an executable has this fault.
    Refused { file: Text, fault: ElfFault },
    /// An input file breaks its grammar at this line.
    BadInput { input: u64, line: u64 },
    /// The class file breaks its grammar at this line, or lists a function there that meets an earlier one.
    BadClasses { line: u64 },
    /// The run of an input leaves the code at this address.
    LeftCode { input: u64, address: u64 },
    /// The instruction at this kept address names an address relative to RIP that is out of reach.
    RipReach { address: u64 },
    /// The added parts have no room in the new file.
    NoRoom(Room),
    /// A file could not be read.
    ReadFault { file: Text },
    WriteFault(Target),
    /// Two files don't do the same, first at this system call, from 1.
    Differ { event: u64 },
    /// The run of a file ended at the stub that names this address.
    StubStop { source: u64 },
    OutOfMemory,
    /// A file isn't stamped as a written file is.
    NotStamped { file: Text },
    /// The trace file breaks its grammar at this line.
    BadTrace { line: u64 },
    /// The symbol table of a file has this fault.
    BadSymbols(SymFault),
    /// The program headers or a load of a file have bytes of its header.
    HeaderMapped { file: Text },
}

/// What the text of an answer says: its words, and the values behind them.
#[derive(Drop)]
pub enum Said<'a> {
    /// No text.
    Nothing,
    Words(&'static str),
    Name(&'static str, &'a Text),
    Number(&'static str, u64),
    /// In hexadecimal.
    Address(&'static str, u64),
    Numbers(&'static str, u64, u64),
    /// A number, and an address in hexadecimal.
    Place(&'static str, u64, u64),
    Fault(&'static str, &'a Text, ElfFault),
    Room(&'static str, Room),
    Symbols(&'static str, SymFault),
}

/// The row of a status.
#[derive(Drop)]
pub struct Row<'a> {
    /// The number that the program ends with.
    pub number: u8,
    /// What is put for a refusal.
    pub text: Said<'a>,
}

impl<'a> Row<'a> {
    ghost use Rattle.std.specs.Prelude.{◌≡◌};
    ghost use Rattle.rz_core.specs.Calls.Said.{text_said};

    fn new(number: u8, text: Said<'a>) -> Row<'a>
        ensures number { result.number ≡ number }
        ensures text { text_said result.text ≡ text_said text.entry }
    {
        Row { number, text }
    }
}

/// The row of this status.
pub fn row_of<'a>(status: &'a Status) -> Row<'a>
    ensures number { result.number ≡ number_of status.now }
    ensures text { text_said result.text ≡ refusal_text status.now }
{
    match status {
        Status::Ok => Row::new(0, Said::Nothing),
        Status::Usage => Row::new(1, Said::Words("usage")),
        Status::Refused { file, fault } => Row::new(2, Said::Fault("refused", file, *fault)),
        Status::BadInput { input, line } => Row::new(3, Said::Numbers("bad input", *input, *line)),
        Status::BadClasses { line } => Row::new(4, Said::Number("bad classes", *line)),
        Status::LeftCode { input, address } => Row::new(
            5,
            Said::Place("left code", *input, *address),
        ),
        Status::RipReach { address } => Row::new(6, Said::Address("rip reach", *address)),
        Status::NoRoom(room) => Row::new(7, Said::Room("no room", *room)),
        Status::ReadFault { file } => Row::new(8, Said::Name("read fault", file)),
        Status::WriteFault(Target::File) => Row::new(9, Said::Words("write fault file")),
        Status::WriteFault(Target::Text) => Row::new(9, Said::Nothing),
        Status::Differ { .. } => Row::new(10, Said::Nothing),
        Status::StubStop { .. } => Row::new(11, Said::Nothing),
        Status::OutOfMemory => Row::new(12, Said::Nothing),
        Status::NotStamped { file } => Row::new(13, Said::Name("not stamped", file)),
        Status::BadTrace { line } => Row::new(16, Said::Number("bad trace", *line)),
        Status::BadSymbols(fault) => Row::new(18, Said::Symbols("bad symbols", *fault)),
        Status::HeaderMapped { file } => Row::new(19, Said::Name("header mapped", file)),
    }
}

/// The number of a status, which the program ends with.
pub fn number(status: &Status) -> u8
    ensures { result ≡ number_of status.now }
{
    row_of(status).number
}
