//! Runs: many steps one after the other, with an observer or without.

ghost use Rattle.std.specs.Prelude.{◌≡◌};
ghost use Rattle.rz_machine.specs.Until.{has_ended};

use crate::cache::DecodeCache;
use crate::machine::{Machine, Outcome};
use rz_isa::InsnTable;
use rz_num::OutOfMemory;
use std::alloc::Global;

/// What looks on while a machine runs: at each state before the next step, and at what a step made of it.
pub trait Observer {
    ghost use Rattle.std.specs.Prelude.{◌≡◌, ℕ, Bool, OnOk, OnErr};
    ghost use Rattle.rz_isa.specs.Nodes.{Decoder};
    ghost use Rattle.rz_machine.specs.declared.machine.Machine.{Machine};
    ghost use Rattle.rz_machine.specs.Calls.Observed.{Turns};

    /// Whether it lets a run go no further than to a state.
    ghost stops_at: { Self → Machine → Bool };

    /// What holds of it after so many steps of a run from a state, by what it was before them.
    ghost Follows: { Self → Decoder → Machine → ℕ → Self → Type 0 };

    /// The same, where there was no memory for what it saw of the last of these steps.
    ghost Misses: { Self → Decoder → Machine → ℕ → Self → Type 0 };

    /// Whether the run goes no further. The machine stands before a step.
    fn stops(&self, machine: &Machine) -> bool
        ensures { result ≡ stops_at self.now machine.now };

    /// Sees a step that was made at an address: the machine stands after it. It refuses for want of memory alone.
    fn sees(&mut self, alloc: Global, at: u64, machine: &Machine) -> Result<(), OutOfMemory>
        ensures stops { stops_at self.new ≡ stops_at self.old }
        ensures ok { OnOk result (Turns stops_at Follows Follows at machine.now self.old self.new) }
        ensures err { OnErr result (Turns stops_at Follows Misses at machine.now self.old self.new) };
}

/// The observer that waits for the end.
#[derive(Clone, Copy)]
struct Ending;

impl Observer for Ending {
    ghost use Rattle.rz_machine.specs.Until.{has_ended};

    ghost stops_at = { λ _ s. has_ended s };

    ghost Follows = { λ _ _ _ _ _. Unit {0} };

    ghost Misses = { λ _ _ _ _ _. ⊥ };

    fn stops(&self, machine: &Machine) -> bool {
        machine.end.is_some()
    }

    fn sees(&mut self, _alloc: Global, _at: u64, _machine: &Machine) -> Result<(), OutOfMemory> {
        Ok(())
    }
}

impl Machine {
    ghost use Rattle.std.specs.Prelude.{◌≡◌, ◌<◌, ℕ, OnOk, OnErr, IfOk};
    ghost use Rattle.rz_isa.specs.Decoded.{decoded};
    ghost use Rattle.rz_machine.specs.State.{after};
    ghost use Rattle.rz_machine.specs.Ran.{outcome_of};
    ghost use Rattle.rz_machine.specs.Until.{steps_until, steps_made};
    ghost use Rattle.rz_machine.specs.Calls.Cache.{Serves};
    ghost use Rattle.rz_machine.specs.Calls.Observed.{IsLeft};

    /// At most `n` steps, until the observer stops the run, and how many these are.
    /// It refuses for want of memory alone, its own or the observer's.
    pub fn observe<T: InsnTable, O: Observer>(
        &mut self,
        alloc: Global,
        n: u64,
        observer: &mut O,
    ) -> Result<u64, OutOfMemory>
        requires { O.Follows observer.old (decoded T.rows) self.old 0 observer.old }
        ensures steps { IfOk result
            (λ steps. steps ≡ steps_until (O.stops_at observer.old) (decoded T.rows) n self.old) }
        ensures ran { IfOk result (λ steps. self.new ≡ after (decoded T.rows) steps self.old) }
        ensures follows { IfOk result
            (λ steps. O.Follows observer.old (decoded T.rows) self.old steps observer.new) }
        ensures err { OnErr result
            (IsLeft O.Follows O.Misses observer.old (decoded T.rows) n self.old self.new observer.new) }
    {
        let mut cache = DecodeCache::new::<T>(alloc, &self.mem);
        for made in 0..n {
            if observer.stops(self) {
                return Ok(made);
            }
            let at = self.cpu.rip;
            self.step_with::<T>(alloc, &mut cache)?;
            observer.sees(alloc, at, self)?;
        }
        Ok(n)
    }

    /// At most `n` steps, until the machine has ended, and how many these are.
    /// It refuses for want of memory alone, and then the machine stands after its last whole step.
    pub fn run_counting<T: InsnTable>(&mut self, alloc: Global, n: u64) -> Result<u64, OutOfMemory>
        ensures ran { OnOk result (self.new ≡ after (decoded T.rows) n self.old) }
        ensures steps { IfOk result (λ steps. steps ≡ steps_made (decoded T.rows) n self.old) }
        ensures err { OnErr result ((k : ℕ) × (k < n) × (self.new ≡ after (decoded T.rows) k self.old)) }
    {
        self.observe::<T, Ending>(alloc, n, &mut Ending)
    }

    /// At most `n` steps, over a table of instructions, until the machine has ended.
    /// It refuses for want of memory alone, and then the machine stands after its last whole step.
    pub fn run<T: InsnTable>(&mut self, alloc: Global, n: u64) -> Result<Outcome, OutOfMemory>
        ensures ok { OnOk result (self.new ≡ after (decoded T.rows) n self.old) }
        ensures outcome { IfOk result (λ outcome. outcome ≡ outcome_of self.new.end) }
        ensures err { OnErr result ((k : ℕ) × (k < n) × (self.new ≡ after (decoded T.rows) k self.old)) }
    {
        self.run_counting::<T>(alloc, n)?;
        Ok(self.outcome())
    }
}
