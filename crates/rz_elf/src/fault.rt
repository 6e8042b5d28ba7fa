//! Why files are refused.

ghost use Rattle.std.specs.Prelude.{◌≡◌, Some};

use rz_num::OutOfMemory;
use std::{error, fmt};
use thiserror::Error;

/// Why a file isn't accepted. A number is that of a program header, from 0.
#[derive(Clone, Copy, PartialEq, Eq, Debug)]
pub enum ElfFault {
    Long,
    Short,
    Magic,
    Class,
    Data,
    Version,
    FileType,
    Machine,
    HeaderSize,
    EntrySize,
    Count,
    TableRange,
    Dynamic(u32),
    StackCode(u32),
    Flags(u32),
    WritableCode(u32),
    SizeOrder(u32),
    FileRange(u32),
    Align(u32),
    Address(u32),
    Order(u32),
    SharedPage(u32),
    TotalSize,
    NoLoad,
    Entry,
}

impl ElfFault {
    ghost use Rattle.rz_elf.specs.Texts.{fault_name, fault_header};

    /// Its name.
    pub fn name(&self) -> &'static str
        ensures { result.now ≡ fault_name self.now }
    {
        match *self {
            ElfFault::Long => "Long",
            ElfFault::Short => "Short",
            ElfFault::Magic => "Magic",
            ElfFault::Class => "Class",
            ElfFault::Data => "Data",
            ElfFault::Version => "Version",
            ElfFault::FileType => "Type",
            ElfFault::Machine => "Machine",
            ElfFault::HeaderSize => "HeaderSize",
            ElfFault::EntrySize => "EntrySize",
            ElfFault::Count => "Count",
            ElfFault::TableRange => "TableRange",
            ElfFault::Dynamic(_) => "Dynamic",
            ElfFault::StackCode(_) => "StackCode",
            ElfFault::Flags(_) => "Flags",
            ElfFault::WritableCode(_) => "WritableCode",
            ElfFault::SizeOrder(_) => "SizeOrder",
            ElfFault::FileRange(_) => "FileRange",
            ElfFault::Align(_) => "Align",
            ElfFault::Address(_) => "Address",
            ElfFault::Order(_) => "Order",
            ElfFault::SharedPage(_) => "SharedPage",
            ElfFault::TotalSize => "TotalSize",
            ElfFault::NoLoad => "NoLoad",
            ElfFault::Entry => "Entry",
        }
    }

    /// The number of the program header that has it, where it is a fault of one.
    pub fn header(&self) -> Option<u32>
        ensures { result ≡ fault_header self.now }
    {
        match *self {
            ElfFault::Dynamic(i)
            | ElfFault::StackCode(i)
            | ElfFault::Flags(i)
            | ElfFault::WritableCode(i)
            | ElfFault::SizeOrder(i)
            | ElfFault::FileRange(i)
            | ElfFault::Align(i)
            | ElfFault::Address(i)
            | ElfFault::Order(i)
            | ElfFault::SharedPage(i) => Some(i),
            _ => None,
        }
    }
}

impl fmt::Display for ElfFault {
    ghost use Rattle.rz_elf.specs.Texts.{fault_text};

    ghost output = { λ fault. Some (fault_text fault) };

    fn fmt<W: fmt::Write>(&self, f: &mut fmt::Formatter<W>) -> fmt::Result {
        let name = self.name();
        match self.header() {
            None => write!(f, "{name}"),
            Some(i) => write!(f, "{name} {i}"),
        }
    }
}

impl error::Error for ElfFault {}

/// Why a file isn't read.
#[derive(Clone, Copy, PartialEq, Eq, Debug, Error)]
pub enum ElfError {
    #[error("{0}")]
    Fault(ElfFault),
    #[error("out of memory")]
    OutOfMemory,
}

impl From<OutOfMemory> for ElfError {
    ghost use Rattle.std.specs.Prelude.{◌≡◌};
    ghost use Rattle.rz_elf.specs.declared.fault.ElfError.TheVariants as error;

    ghost from_gives = { λ _ e. e ≡ error.OutOfMemory };

    fn from(_: OutOfMemory) -> ElfError {
        ElfError::OutOfMemory
    }
}
