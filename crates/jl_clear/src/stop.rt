// Why a walk stopped.
use std::alloc::AllocError;

/// Why a walk through the folders of a cache stopped before its end.
#[derive(Clone, Copy, Debug, PartialEq, Eq, Drop)]
pub enum Stop {
    Fault,
    NoMemory,
}

impl From<AllocError> for Stop {
    ghost use Rattle.jl_clear.specs.declared.stop.Stop.TheVariants.{NoMemory};
    ghost use Rattle.std.specs.Prelude.{◌≡◌};

    ghost from_gives = { λ _ e. e ≡ NoMemory };

    fn from(_refused: AllocError) -> Stop {
        Stop::NoMemory
    }
}
