// The count of steps, which stays within its limit.
ghost use Rattle.std.specs.Prelude.{◌≡◌, ◌+◌};
ghost use Rattle.jl_operands.specs.Steps.{steps_within};

use jl_text::limits::MOST_STEPS;
use std::marker::Model;

/// How many steps an evaluation has taken.
#[derive(Drop, Clone, Copy)]
pub struct Steps {
    count: u64,
}

impl Model for Steps {
    ghost use Rattle.std.specs.Prelude.{◌≤◌, ℕ};
    ghost use Rattle.jl_text.specs.declared.limits.TheConstants.{MOST_STEPS};

    ghost Value = { ℕ };

    ghost view = { λ s. s.count };

    ghost inverse = { λ n. record { count = n } };

    ghost invariant = { λ s. s.count ≤ MOST_STEPS };
}

impl Steps {
    /// No step yet.
    pub fn none() -> Steps
        ensures { result ≡ 0 }
    {
        Steps { count: 0 }
    }

    /// The count with so many steps more, where that is within the limit.
    pub fn checked_add(self, more: u64) -> Option<Steps>
        ensures { result ≡ steps_within (self + more) }
    {
        if more > MOST_STEPS - self.count {
            return None;
        }
        Some(Steps {
            count: self.count + more,
        })
    }
}
