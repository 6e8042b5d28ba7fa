//! Comparing the runs of two files.

ghost use Rattle.std.specs.Prelude.{◌≡◌, ◌≤◌, IfOk};
ghost use Rattle.std.specs.List.{starts_with};
ghost use Rattle.std.specs.Cmp.Lexicographic.{pointwise};
ghost use Rattle.rz_isa.specs.Decoded.{decoded};
ghost use Rattle.rz_machine.specs.Start.{first_state};
ghost use Rattle.rz_machine.specs.State.{after};
ghost use Rattle.rz_sys.specs.Input.{IsValid};
ghost use Rattle.rz_replay.specs.Verdict.{agree as agree_of, first_difference as place_of, new_run, ran_of, same_end, same_event, verdict_at, verdict_of};

use rz_elf::elf::Elf;
use rz_elf::executable::executable_size;
use rz_isa::InsnTable;
use rz_machine::machine::{End, Machine};
use rz_machine::runs::Observer;
use rz_machine::start::start;
use rz_machine::stub::stub_word;
use rz_num::OutOfMemory;
use rz_sys::event::{Event, Events};
use rz_sys::input::Input;
use std::alloc::Global;

// How many steps a new file is given for each step of the old one, besides one for each byte of its code.
const STEPS: u64 = 64;

/// Whether a new file's run does what the old file's run does.
#[derive(Clone, Copy, PartialEq, Eq, Debug)]
pub enum Verdict {
    /// It does. This is the number of system calls of the old run.
    Same(u64),
    /// It doesn't. This is the first place, from 1, where the lists of system calls differ: one past the shorter, or one
    /// past both, where none does before.
    Differ(u64),
    /// The new run ended at a stub, whose word this is.
    Stub(u64),
}

// What a run came to: the system calls that it made, and how it ended, if it did.
#[derive(Drop)]
struct Ran {
    events: Events,
    end: Option<End>,
}

// The observer that stops a run that has ended or has made more than so many system calls.
#[derive(Clone, Copy)]
struct Decided {
    calls: usize,
}

impl Observer for Decided {
    ghost use Rattle.rz_replay.specs.Verdict.{is_decided};

    ghost stops_at = { λ o s. is_decided o.calls s };

    ghost Follows = { λ _ _ _ _ _. Unit {0} };

    ghost Misses = { λ _ _ _ _ _. ⊥ };

    fn stops(&self, machine: &Machine) -> bool {
        machine.end.is_some() || machine.world.events.as_slice().len() > self.calls
    }

    fn sees(&mut self, _alloc: Global, _at: u64, _machine: &Machine) -> Result<(), OutOfMemory> {
        Ok(())
    }
}

/// Runs an old and a new file on the same input, the old one for at most `limit` steps, and says whether they do the
/// same. The new one is run for as many steps where the old one still runs, and else until it has ended or has made more
/// system calls than the old one, for at most 64 steps, and one more for each byte of its code, for each step of `limit`.
/// An end at a stub outranks all else. It refuses for want of memory alone.
pub fn compare<T: InsnTable>(
    alloc: Global,
    old: &Elf,
    new: &Elf,
    limit: u64,
    input: &Input,
) -> Result<Verdict, OutOfMemory>
    requires input { IsValid input.now }
    requires limit { limit ≤ 1000000000 }
    ensures verdict { IfOk result
        (λ verdict. verdict ≡ verdict_of (decoded T.rows) old.now new.now limit input.now) }
{
    let wanted = came_to(run::<T>(alloc, old, limit, input)?);
    let machine = run_beside::<T>(alloc, new, limit, input, &wanted)?;
    let stub = stub_word(new, &machine);
    Ok(judge(stub, &wanted, &came_to(machine)))
}

// The verdict on what a new file's run came to, by the word of the stub at which it ended, if it ended at one.
fn judge(stub: Option<u64>, old: &Ran, new: &Ran) -> Verdict
    ensures { result ≡ verdict_at stub old.now new.now }
{
    if let Some(word) = stub {
        return Verdict::Stub(word);
    }
    let place = first_difference(old.events.as_slice(), new.events.as_slice());
    if agree(old, new, place) {
        Verdict::Same(old.events.as_slice().len() as u64)
    } else {
        Verdict::Differ(place)
    }
}

// Whether two runs did the same, by the first place where their system calls differ.
fn agree(old: &Ran, new: &Ran, place: u64) -> bool
    requires { place ≡ place_of old.now.events new.now.events }
    ensures { result ≡ agree_of old.now new.now }
{
    let made = old.events.as_slice();
    let found = new.events.as_slice();
    match (old.end, new.end) {
        (None, None) => is_prefix(made, found, place),
        (Some(wanted), Some(end)) => are_equal(made, found, place) && is_same_end(wanted, end),
        _ => false,
    }
}

// Whether the new list of system calls is a prefix of the old one: they differ past it.
fn is_prefix(old: &[Event], new: &[Event], place: u64) -> bool
    requires { place ≡ place_of old.now new.now }
    ensures { result ≡ starts_with same_event old.now new.now }
{
    place > new.len() as u64
}

// Whether two lists of system calls are equal: they differ past both.
fn are_equal(old: &[Event], new: &[Event], place: u64) -> bool
    requires { place ≡ place_of old.now new.now }
    ensures { result ≡ pointwise same_event old.now new.now }
{
    place > old.len() as u64 && place > new.len() as u64
}

// The first place, from 1, where two lists of system calls differ, or one past the shorter.
fn first_difference(old: &[Event], new: &[Event]) -> u64
    ensures { result ≡ place_of old.now new.now }
{
    let shorter = old.len().min(new.len());
    for i in 0..shorter {
        if !is_same_event(&old[i], &new[i]) {
            return i as u64 + 1;
        }
    }
    shorter as u64 + 1
}

// Whether two system calls are the same.
fn is_same_event(a: &Event, b: &Event) -> bool
    ensures { result ≡ same_event a.now b.now }
{
    a.number == b.number
        && a.args.as_slice() == b.args.as_slice()
        && a.answer == b.answer
        && a.bytes.as_slice() == b.bytes.as_slice()
}

// Whether two ends are the same, the addresses of instructions aside.
fn is_same_end(a: End, b: End) -> bool
    ensures { result ≡ same_end a b }
{
    match (a, b) {
        (End::Exit(a), End::Exit(b)) => a == b,
        (End::Memory(a), End::Memory(b)) => a == b,
        (End::Fetch(_), End::Fetch(_)) => true,
        (End::Unknown(_), End::Unknown(_)) => true,
        (End::Illegal(_), End::Illegal(_)) => true,
        (End::Divide, End::Divide) => true,
        (End::Halted, End::Halted) => true,
        (End::Break, End::Break) => true,
        (End::Popped, End::Popped) => true,
        _ => false,
    }
}

// Runs a file for at most `limit` steps.
fn run<T: InsnTable>(
    alloc: Global,
    elf: &Elf,
    limit: u64,
    input: &Input,
) -> Result<Machine, OutOfMemory>
    requires { IsValid input.now }
    ensures { IfOk result
        (λ machine. machine ≡ after (decoded T.rows) limit (first_state elf.now input.now)) }
{
    let mut machine = start(alloc, elf, input)?;
    machine.run::<T>(alloc, limit)?;
    Ok(machine)
}

// Runs a new file as far as it has to be run beside what the old one came to within `limit` steps.
fn run_beside<T: InsnTable>(
    alloc: Global,
    elf: &Elf,
    limit: u64,
    input: &Input,
    wanted: &Ran,
) -> Result<Machine, OutOfMemory>
    requires input { IsValid input.now }
    requires limit { limit ≤ 1000000000 }
    ensures { IfOk result (λ machine. machine
        ≡ new_run (decoded T.rows) limit elf.now wanted.now (first_state elf.now input.now)) }
{
    if wanted.end.is_none() {
        return run::<T>(alloc, elf, limit, input);
    }
    let mut machine = start(alloc, elf, input)?;
    let steps = limit * (STEPS + executable_size(elf));
    let mut decided = Decided {
        calls: wanted.events.as_slice().len(),
    };
    machine.observe::<T, Decided>(alloc, steps, &mut decided)?;
    Ok(machine)
}

// What a run came to. Its memory goes.
fn came_to(machine: Machine) -> Ran
    ensures { result ≡ ran_of machine }
{
    let end = machine.end;
    let world = machine.world;
    Ran {
        events: world.events,
        end,
    }
}
