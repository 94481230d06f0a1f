use jl_value::TaskError;
use std::alloc::{AllocError, AllocFailed};
use thiserror::Error;

/// Why there is no value.
#[derive(Debug, Drop, Clone, Copy, PartialEq, Eq, Error)]
pub enum CallFault {
    #[error("the call ends in an error")]
    Task(TaskError),
    #[error("out of memory")]
    NoMemory,
}

impl From<AllocError> for CallFault {
    ghost use Rattle.jl_operands.specs.declared.fault.CallFault.TheVariants.{NoMemory};
    ghost use Rattle.std.specs.Prelude.{◌≡◌};

    ghost from_gives = { λ _ e. e ≡ NoMemory };

    fn from(_refused: AllocError) -> CallFault {
        CallFault::NoMemory
    }
}

impl<T: Drop> From<AllocFailed<T>> for CallFault {
    ghost use Rattle.jl_operands.specs.declared.fault.CallFault.TheVariants.{NoMemory};
    ghost use Rattle.std.specs.Prelude.{◌≡◌};

    ghost from_gives = { λ _ e. e ≡ NoMemory };

    fn from(_refused: AllocFailed<T>) -> CallFault {
        CallFault::NoMemory
    }
}
