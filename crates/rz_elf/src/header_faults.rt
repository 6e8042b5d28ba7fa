// The faults of single program headers: one pass over the headers for each kind.

ghost use Rattle.std.specs.Prelude.{◌≡◌};
ghost use Rattle.rz_elf.specs.Elf.{first_of, header_conditions};
ghost use Rattle.rz_elf.specs.HeaderFaults.{holds_for, fault_at, of_kind};

use crate::fault::ElfFault;
use crate::placed::Placed;

/// What may be wrong with a program header.
#[derive(Clone, Copy)]
pub enum HeaderFault {
    Dynamic,
    StackCode,
    Flags,
    WritableCode,
    SizeOrder,
    FileRange,
    Align,
    Address,
    Order,
    SharedPage,
}

// The kinds in the order in which they are tried.
const KINDS: [HeaderFault; 10] = [
    HeaderFault::Dynamic,
    HeaderFault::StackCode,
    HeaderFault::Flags,
    HeaderFault::WritableCode,
    HeaderFault::SizeOrder,
    HeaderFault::FileRange,
    HeaderFault::Align,
    HeaderFault::Address,
    HeaderFault::Order,
    HeaderFault::SharedPage,
];

/// The first fault of the program headers of a file of `len` bytes.
pub fn header_fault(len: u64, headers: &[Placed]) -> Option<ElfFault>
    ensures { result ≡ first_of (header_conditions len headers.now) }
{
    for kind in &KINDS {
        if let Some(fault) = first_of_kind(*kind, len, headers) {
            return Some(fault);
        }
    }
    None
}

// The fault of a kind at the first header that has it.
fn first_of_kind(kind: HeaderFault, len: u64, headers: &[Placed]) -> Option<ElfFault>
    ensures { result ≡ first_of (of_kind len headers.now kind) }
{
    for header in headers {
        if kind.holds(len, header) {
            return Some(kind.at(header.index));
        }
    }
    None
}

impl HeaderFault {
    // Whether a header of a file of `len` bytes has it.
    fn holds(self, len: u64, header: &Placed) -> bool
        ensures { result ≡ holds_for self len header.now }
    {
        let segment = &header.segment;
        match self {
            HeaderFault::Dynamic => segment.is_dynamic(),
            HeaderFault::StackCode => segment.is_stack_code(),
            HeaderFault::Flags => segment.has_other_flags(),
            HeaderFault::WritableCode => segment.is_writable_code(),
            HeaderFault::SizeOrder => segment.is_larger_in_file(),
            HeaderFault::FileRange => segment.leaves_file(len),
            HeaderFault::Align => segment.is_misaligned(),
            HeaderFault::Address => segment.is_far(),
            HeaderFault::Order => header.isnt_above(),
            HeaderFault::SharedPage => header.shares_page(),
        }
    }

    // The fault at the header of a number.
    fn at(self, index: u32) -> ElfFault
        ensures { result ≡ fault_at self index }
    {
        match self {
            HeaderFault::Dynamic => ElfFault::Dynamic(index),
            HeaderFault::StackCode => ElfFault::StackCode(index),
            HeaderFault::Flags => ElfFault::Flags(index),
            HeaderFault::WritableCode => ElfFault::WritableCode(index),
            HeaderFault::SizeOrder => ElfFault::SizeOrder(index),
            HeaderFault::FileRange => ElfFault::FileRange(index),
            HeaderFault::Align => ElfFault::Align(index),
            HeaderFault::Address => ElfFault::Address(index),
            HeaderFault::Order => ElfFault::Order(index),
            HeaderFault::SharedPage => ElfFault::SharedPage(index),
        }
    }
}
