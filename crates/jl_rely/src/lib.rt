//! Claims on calls over a folder, whatever others do meanwhile, and how they compose.
#![tactic(auto)]

mod claim;
mod laws;

pub use claim::{AnswerClaim, AnyState, AnyStep, MoveClaim, StateClaim, StepClaim};
pub use laws::{
    calls_compose, lone_calls, look_ups_change_by_touches, runs_compose, throughout_is_by_prefixes,
};

#[cfg(test)]
mod tests;
