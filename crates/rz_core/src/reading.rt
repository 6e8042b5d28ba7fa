//! Reads the files of a plan.

ghost use Rattle.std.specs.Prelude.{◌≡◌, ◌≤◌, None, Ok, Err, IfOk, IfErr, OnOk};
ghost use Rattle.std.specs.List.{All};
ghost use Rattle.rz_outside.specs.StoreAnswers.{SameFiles, ReadsFirst};
ghost use Rattle.rz_outside.specs.StoreCalls.{store_calls, Held};
ghost use Rattle.rz_elf.specs.Elf.{fault_of};
ghost use Rattle.rz_elf.specs.Loaded.{elf_of};
ghost use Rattle.rz_sys.specs.Input.{IsValid};
ghost use Rattle.rz_core.specs.Reading.{read_in, nothing, with_executable, taken, taken_as, IsTaken, AreTaken, ReadRefusal, FileRefusal, IsUnread};
ghost use Rattle.rz_core.specs.Calls.Taking.{IsRefusedFor, IsMisnamed, IsUnmapped, IsMapped, IsClassFile, Untaken, most_of, symbol_refusal as symbol_refusal_of, class_refusal as class_refusal_of, input_refusal as input_refusal_of, trace_refusal as trace_refusal_of};
ghost use Rattle.rz_core.specs.declared.plan.Demand.TheVariants.{Accepted, Named, Unmapped, ClassFile, Input, Trace};
ghost use Rattle.rz_core.specs.declared.status.Status.TheVariants.{OutOfMemory};
ghost use Rattle.rz_core.specs.Classes.{names_of_first};
ghost use Rattle.rz_syms.specs.Fault.{fault_of as symbol_fault_of};
ghost use Rattle.rz_syms.specs.Resolved.{resolved};

use crate::files::Files;
use crate::names::first_names;
use crate::plan::{Demand, Wanted};
use crate::status::Status;
use rz_classes::{ClassError, Classes};
use rz_elf::elf::Elf;
use rz_elf::fault::ElfError;
use rz_elf::read::read_elf;
use rz_elf::stamp::stamped;
use rz_input::InputError;
use rz_label::label::maps_header;
use rz_num::{Bytes, Text};
use rz_outside::{ReadErr, Store};
use rz_syms::{SymError, read_symbols, resolve};
use rz_trace::{TraceFault, read_trace};
use std::alloc::Global;

// How many bytes of an executable are asked for: one more than an accepted file has.
const EXECUTABLE_MAX: u64 = 67_108_865;

// How many bytes of another file are asked for: one more than a text may have.
const TEXT_MAX: u64 = 16_777_217;

// The first `max` bytes of the file of a name, or the refusal.
fn read<S: Store>(alloc: Global, store: &mut S, name: &Text, max: u64) -> Result<Bytes, Status>
    ensures telling { S.told store.new ≡ S.told store.old }
    ensures kept { SameFiles (S.files store.old) (S.files store.new) }
    ensures count { S.faults store.old ≤ S.faults store.new }
    ensures read { IfOk result (ReadsFirst (S.told store.old) (S.files store.old) name.now max) }
    ensures cause { IfErr result (ReadRefusal name.now (store_calls S.Store store.old store.new)) }
{
    let Ok(file) = Text::from_slice(alloc, name.as_slice()) else {
        return Err(Status::OutOfMemory);
    };
    match store.read_all(alloc, name, max) {
        Ok(bytes) => Ok(bytes),
        Err(ReadErr::OutOfMemory) => Err(Status::OutOfMemory),
        Err(ReadErr::Missing) | Err(ReadErr::Failed) => Err(Status::ReadFault { file }),
    }
}

// How many bytes of a file are asked for.
fn most(demand: Demand) -> u64
    ensures { result ≡ most_of demand }
{
    match demand {
        Demand::Accepted | Demand::Named | Demand::Unmapped => EXECUTABLE_MAX,
        Demand::ClassFile | Demand::Input | Demand::Trace => TEXT_MAX,
    }
}

// An accepted file of these bytes, or the refusal.
fn accept(alloc: Global, name: &Text, bytes: Bytes) -> Result<Elf, Status>
    ensures accepted { IfOk result (λ elf. (fault_of bytes ≡ None) × (elf ≡ elf_of bytes)) }
    ensures refused { IfErr result (IsRefusedFor name.now bytes) }
{
    let Ok(file) = Text::from_slice(alloc, name.as_slice()) else {
        return Err(Status::OutOfMemory);
    };
    match read_elf(alloc, bytes) {
        Ok(elf) => Ok(elf),
        Err(ElfError::Fault(fault)) => Err(Status::Refused { file, fault }),
        Err(ElfError::OutOfMemory) => Err(Status::OutOfMemory),
    }
}

fn take_accepted(alloc: Global, name: &Text, bytes: Bytes, files: &mut Files) -> Result<(), Status>
    ensures ok { OnOk result (taken_as Accepted name.now (read_in files.old) bytes ≡ Ok (read_in files.new)) }
    ensures valid { All IsValid files.old.inputs.items → All IsValid files.new.inputs.items }
    ensures err { IfErr result (Untaken (taken_as Accepted name.now (read_in files.old) bytes)) }
{
    let elf = accept(alloc, name, bytes)?;
    add_executable(elf, files)
}

// Adds what was read of an executable.
fn add_executable(elf: Elf, files: &mut Files) -> Result<(), Status>
    ensures ok { OnOk result (read_in files.new ≡ with_executable (read_in files.old) elf) }
    ensures inputs { files.new.inputs ≡ files.old.inputs }
    ensures err { IfErr result (λ st. st ≡ OutOfMemory) }
{
    match files.executables.push(elf) {
        Ok(()) => Ok(()),
        Err(_) => Err(Status::OutOfMemory),
    }
}

// How the symbols of an executable are refused.
fn symbol_refusal(error: SymError) -> Status
    ensures { result ≡ symbol_refusal_of error }
{
    match error {
        SymError::OutOfMemory => Status::OutOfMemory,
        SymError::Fault(fault) => Status::BadSymbols(fault),
    }
}

// Whether the symbol table of a file has no fault, or the refusal.
fn check_symbols(alloc: Global, elf: &Elf) -> Result<(), Status>
    ensures sound { OnOk result (symbol_fault_of elf.now.bytes ≡ None) }
    ensures refused { IfErr result (IsMisnamed elf.now.bytes) }
{
    match read_symbols(alloc, elf) {
        Ok(_) => Ok(()),
        Err(error) => Err(symbol_refusal(error)),
    }
}

fn take_named(alloc: Global, name: &Text, bytes: Bytes, files: &mut Files) -> Result<(), Status>
    ensures ok { OnOk result (taken_as Named name.now (read_in files.old) bytes ≡ Ok (read_in files.new)) }
    ensures valid { All IsValid files.old.inputs.items → All IsValid files.new.inputs.items }
    ensures err { IfErr result (Untaken (taken_as Named name.now (read_in files.old) bytes)) }
{
    let elf = accept(alloc, name, bytes)?;
    check_symbols(alloc, &elf)?;
    add_executable(elf, files)
}

// Whether a file is stamped and its header isn't mapped, or the refusal.
fn check_unmapped(alloc: Global, name: &Text, elf: &Elf) -> Result<(), Status>
    ensures unmapped { OnOk result (IsUnmapped name.now elf.now) }
    ensures refused { IfErr result (IsMapped name.now elf.now) }
{
    let Ok(file) = Text::from_slice(alloc, name.as_slice()) else {
        return Err(Status::OutOfMemory);
    };
    if stamped(elf).is_none() {
        return Err(Status::NotStamped { file });
    }
    if maps_header(elf) {
        return Err(Status::HeaderMapped { file });
    }
    Ok(())
}

fn take_unmapped(alloc: Global, name: &Text, bytes: Bytes, files: &mut Files) -> Result<(), Status>
    ensures ok { OnOk result (taken_as Unmapped name.now (read_in files.old) bytes ≡ Ok (read_in files.new)) }
    ensures valid { All IsValid files.old.inputs.items → All IsValid files.new.inputs.items }
    ensures err { IfErr result (Untaken (taken_as Unmapped name.now (read_in files.old) bytes)) }
{
    let elf = accept(alloc, name, bytes)?;
    check_unmapped(alloc, name, &elf)?;
    add_executable(elf, files)
}

// The functions that a class file lists, some of them by the names that the first of these files has for them.
fn read_classes(alloc: Global, executables: &[Elf], bytes: &Bytes) -> Result<Classes, ClassError>
    ensures { IsClassFile (resolved (names_of_first executables.now) bytes.now) result }
{
    let symbols = first_names(alloc, executables)?;
    let text = resolve(alloc, bytes, &symbols)?;
    rz_classes::read_classes(alloc, &text)
}

// How a class file is refused.
fn class_refusal(error: ClassError) -> Status
    ensures { result ≡ class_refusal_of error }
{
    match error {
        ClassError::OutOfMemory => Status::OutOfMemory,
        ClassError::BadLine(line) | ClassError::Overlap(line) => Status::BadClasses { line },
    }
}

fn take_classes(alloc: Global, name: &Text, bytes: Bytes, files: &mut Files) -> Result<(), Status>
    ensures ok { OnOk result
        (taken_as ClassFile name.now (read_in files.old) bytes ≡ Ok (read_in files.new)) }
    ensures valid { All IsValid files.old.inputs.items → All IsValid files.new.inputs.items }
    ensures err { IfErr result (Untaken (taken_as ClassFile name.now (read_in files.old) bytes)) }
{
    match read_classes(alloc, files.executables.as_slice(), &bytes) {
        Ok(classes) => {
            files.functions = classes;
            Ok(())
        }
        Err(error) => Err(class_refusal(error)),
    }
}

// How the input of a number is refused.
fn input_refusal(error: InputError, number: u64) -> Status
    ensures { result ≡ input_refusal_of number error }
{
    match error {
        InputError::OutOfMemory => Status::OutOfMemory,
        InputError::BadLine(line) | InputError::TooBig(line) => Status::BadInput {
            input: number,
            line,
        },
    }
}

fn take_input(alloc: Global, name: &Text, bytes: Bytes, files: &mut Files) -> Result<(), Status>
    ensures ok { OnOk result (taken_as Input name.now (read_in files.old) bytes ≡ Ok (read_in files.new)) }
    ensures valid { All IsValid files.old.inputs.items → All IsValid files.new.inputs.items }
    ensures err { IfErr result (Untaken (taken_as Input name.now (read_in files.old) bytes)) }
{
    match rz_input::read_input(alloc, &bytes) {
        Ok(input) => match files.inputs.push(input) {
            Ok(()) => Ok(()),
            Err(_) => Err(Status::OutOfMemory),
        },
        Err(error) => Err(input_refusal(error, files.inputs.len() as u64 + 1)),
    }
}

// How a trace file is refused.
fn trace_refusal(fault: TraceFault) -> Status
    ensures { result ≡ trace_refusal_of fault }
{
    match fault {
        TraceFault::OutOfMemory => Status::OutOfMemory,
        TraceFault::BadLine(line) => Status::BadTrace { line },
    }
}

fn take_trace(alloc: Global, name: &Text, bytes: Bytes, files: &mut Files) -> Result<(), Status>
    ensures ok { OnOk result (taken_as Trace name.now (read_in files.old) bytes ≡ Ok (read_in files.new)) }
    ensures valid { All IsValid files.old.inputs.items → All IsValid files.new.inputs.items }
    ensures err { IfErr result (Untaken (taken_as Trace name.now (read_in files.old) bytes)) }
{
    match read_trace(alloc, &bytes) {
        Ok(file) => {
            files.trace = file.rec;
            Ok(())
        }
        Err(fault) => Err(trace_refusal(fault)),
    }
}

// Takes the bytes of a file for what it has to be, or gives the refusal.
fn take(alloc: Global, wanted: &Wanted, bytes: Bytes, files: &mut Files) -> Result<(), Status>
    ensures ok { OnOk result (taken wanted.now (read_in files.old) bytes ≡ Ok (read_in files.new)) }
    ensures valid { All IsValid files.old.inputs.items → All IsValid files.new.inputs.items }
    ensures err { IfErr result (Untaken (taken wanted.now (read_in files.old) bytes)) }
{
    match wanted.demand {
        Demand::Accepted => take_accepted(alloc, &wanted.name, bytes, files),
        Demand::Named => take_named(alloc, &wanted.name, bytes, files),
        Demand::Unmapped => take_unmapped(alloc, &wanted.name, bytes, files),
        Demand::ClassFile => take_classes(alloc, &wanted.name, bytes, files),
        Demand::Input => take_input(alloc, &wanted.name, bytes, files),
        Demand::Trace => take_trace(alloc, &wanted.name, bytes, files),
    }
}

// Reads a file, and takes it for what it has to be, or gives the refusal.
fn read_one<S: Store>(
    alloc: Global,
    store: &mut S,
    wanted: &Wanted,
    files: &mut Files,
) -> Result<(), Status>
    ensures telling { S.told store.new ≡ S.told store.old }
    ensures kept { SameFiles (S.files store.old) (S.files store.new) }
    ensures count { S.faults store.old ≤ S.faults store.new }
    ensures valid { All IsValid files.old.inputs.items → All IsValid files.new.inputs.items }
    ensures read { OnOk result (IsTaken (Held (store_calls S.Store store.old store.new))
        wanted.now (read_in files.old) (read_in files.new)) }
    ensures cause { IfErr result
        (FileRefusal wanted.now (read_in files.old) (store_calls S.Store store.old store.new)) }
{
    let bytes = read(alloc, store, &wanted.name, most(wanted.demand))?;
    take(alloc, wanted, bytes, files)
}

/// Reads the files of a plan in order, or gives the refusal of the first that is refused.
pub fn read_files<S: Store>(alloc: Global, store: &mut S, reads: &[Wanted]) -> Result<Files, Status>
    ensures telling { S.told store.new ≡ S.told store.old }
    ensures kept { SameFiles (S.files store.old) (S.files store.new) }
    ensures count { S.faults store.old ≤ S.faults store.new }
    ensures valid { IfOk result (λ files. All IsValid files.inputs.items) }
    ensures read { IfOk result (λ files. AreTaken (Held (store_calls S.Store store.old store.new))
        reads.now nothing (read_in files)) }
    ensures cause { IfErr result
        (IsUnread reads.now nothing (store_calls S.Store store.old store.new)) }
{
    let mut files = Files::new(alloc);
    for wanted in reads.iter() {
        read_one(alloc, store, wanted, &mut files)?;
    }
    Ok(files)
}
