//! What was read.

use rz_aset::Record;
use rz_classes::Classes;
use rz_elf::elf::Elf;
use rz_sys::input::Input;
use std::alloc::Global;

/// What the files that were read so far hold, each kind in the order of the reads.
#[derive(Drop)]
pub struct Files {
    pub executables: Vec<Elf>,
    pub functions: Classes,
    pub inputs: Vec<Input>,
    pub trace: Record,
}

impl Files {
    ghost use Rattle.std.specs.Prelude.{◌≡◌, ◌<◌, length};
    ghost use Rattle.std.specs.List.{All};
    ghost use Rattle.rz_elf.specs.Loaded.{IsRead};
    ghost use Rattle.rz_sys.specs.Input.{IsValid};
    ghost use Rattle.rz_core.specs.Reading.{read_in, nothing, exe_of, new_file_of, input_in};

    /// Before the first read.
    pub fn new(alloc: Global) -> Files
        ensures { read_in result ≡ nothing }
    {
        Files {
            executables: Vec::new(alloc),
            functions: Classes::none(alloc),
            inputs: Vec::new(alloc),
            trace: Record::new(alloc),
        }
    }

    /// The first executable.
    pub fn exe(&self) -> &Elf
        requires read { All IsRead self.now.executables.items }
        requires some { 0 < length self.now.executables.items }
        ensures bytes { result.now.bytes ≡ exe_of (read_in self.now) }
        ensures read { IsRead result.now }
    {
        &self.executables[0]
    }

    /// The second executable.
    pub fn new_file(&self) -> &Elf
        requires read { All IsRead self.now.executables.items }
        requires some { 1 < length self.now.executables.items }
        ensures bytes { result.now.bytes ≡ new_file_of (read_in self.now) }
        ensures read { IsRead result.now }
    {
        &self.executables[1]
    }

    /// The first input.
    pub fn input(&self) -> &Input
        requires valid { All IsValid self.now.inputs.items }
        requires some { 0 < length self.now.inputs.items }
        ensures input { result.now ≡ input_in (read_in self.now) }
        ensures valid { IsValid result.now }
    {
        &self.inputs[0]
    }
}
