// Which calls of a form in memory fail.
ghost use Rattle.std.specs.Prelude.{◌≡◌, ◌≤◌, true};
ghost use Rattle.jl_text.specs.Counts.{Rose, Faults};
ghost use Rattle.jl_streams.specs.Memory.{is_to_fail, begun, failed};

use std::marker::Model;

#[derive(Drop)]
pub struct Calls {
    failing: Vec<u64>,
    made: u64,
    faults: u64,
}

impl Model for Calls {
    ghost use Rattle.jl_streams.specs.Memory.{CallsView};

    ghost Value = { CallsView };

    ghost view = { λ c. record { failing = c.failing.items; made = c.made; faults = c.faults } };
}

impl Calls {
    pub fn new(failing: Vec<u64>) -> Calls
        ensures { result ≡ record { failing = failing.items; made = 0; faults = 0 } }
    {
        Calls {
            failing,
            made: 0,
            faults: 0,
        }
    }

    // Begins a call. Says whether it is to fail.
    pub fn begin(&mut self) -> bool
        ensures answer { result ≡ is_to_fail self.old }
        ensures after { self.new ≡ begun self.old }
        ensures faults { Faults self.old.faults self.new.faults (result ≡ true) }
    {
        let is_to_fail = self.failing.contains(&self.made);
        self.made = self.made.saturating_add(1);
        if is_to_fail {
            self.faults = self.faults.saturating_add(1);
        }
        is_to_fail
    }

    // The call fails for a reason of its own.
    pub fn fail(&mut self)
        ensures after { self.new ≡ failed self.old }
        ensures later { self.old.faults ≤ self.new.faults }
        ensures rose { Rose self.old.faults self.new.faults }
    {
        self.faults = self.faults.saturating_add(1);
    }

    pub fn faults(&self) -> u64
        ensures { result ≡ self.now.faults }
    {
        self.faults
    }
}
