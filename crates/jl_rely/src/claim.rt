// Claims that a law takes: each type is one.
ghost use Rattle.std.specs.Prelude.{List, ℕ, Option, ⊤};
ghost use Rattle.jl_folder.specs.State.{State};
ghost use Rattle.jl_folder.specs.declared.moves.Move.{Move};

/// A claim on a move of a token, in the state where it is made.
pub trait StepClaim {
    /// Whether the move has it.
    ghost holds: { List ℕ → State → Move → Type 0 };
}

/// A claim on states.
pub trait StateClaim {
    /// Whether the state has it.
    ghost holds: { State → Type 0 };
}

/// A claim on moves, in whichever state.
pub trait MoveClaim {
    /// Whether the move has it.
    ghost holds: { Move → Type 0 };
}

/// A claim on a call's own move or on there being none, in the state where others left it.
pub trait AnswerClaim {
    /// Whether the move, or there being none, has it.
    ghost holds: { State → Option Move → Type 0 };
}

/// Nothing is claimed of a step.
pub struct AnyStep;

impl StepClaim for AnyStep {
    ghost holds = { λ token s change. ⊤ };
}

/// Nothing is claimed of a state.
pub struct AnyState;

impl StateClaim for AnyState {
    ghost holds = { λ s. ⊤ };
}
