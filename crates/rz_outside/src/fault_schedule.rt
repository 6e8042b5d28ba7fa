// Which calls of a fake fail.

ghost use Rattle.std.specs.Prelude.{◌≡◌, ◌+◌, ◌-◌, ◌^◌, ◌↔◌, min, IsTrue, Contains};

/// The numbers of the calls that fail, and how many calls there were.
#[derive(Drop)]
pub struct FaultSchedule {
    pub failing: Vec<u64>,
    pub calls: u64,
}

impl FaultSchedule {
    /// Calls are numbered from 1.
    pub fn new(failing: Vec<u64>) -> FaultSchedule
        ensures failing { result.failing ≡ failing }
        ensures calls { result.calls ≡ 0 }
    {
        FaultSchedule { failing, calls: 0 }
    }

    /// Counts a call, and says whether it fails.
    pub fn next_fails(&mut self) -> bool
        ensures failing { self.new.failing ≡ self.old.failing }
        ensures calls { self.new.calls ≡ min (self.old.calls + 1) (2 ^ 64 - 1) }
        ensures fails { IsTrue result ↔ Contains self.old.failing.items self.new.calls }
    {
        self.calls = self.calls.saturating_add(1);
        self.failing.contains(&self.calls)
    }
}
