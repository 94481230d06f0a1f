// Why bytes are no value.
use std::alloc::{AllocError, AllocFailed};
use thiserror::Error;

/// Why bytes are no value.
#[derive(Debug, Drop, Clone, Copy, PartialEq, Eq, Error)]
pub enum ValueFault {
    #[error("not JSON")]
    NotJson,
    #[error("nested too deep")]
    TooDeep,
    #[error("bad array")]
    BadArray,
    #[error("not a whole number")]
    NotWhole,
    #[error("out of memory")]
    Memory,
}

impl From<AllocError> for ValueFault {
    ghost use Rattle.jl_value.specs.declared.fault.ValueFault.TheVariants.{Memory};
    ghost use Rattle.std.specs.Prelude.{◌≡◌};

    ghost from_gives = { λ _ e. e ≡ Memory };

    fn from(_refused: AllocError) -> ValueFault {
        ValueFault::Memory
    }
}

impl<T: Drop> From<AllocFailed<T>> for ValueFault {
    ghost use Rattle.jl_value.specs.declared.fault.ValueFault.TheVariants.{Memory};
    ghost use Rattle.std.specs.Prelude.{◌≡◌};

    ghost from_gives = { λ _ e. e ≡ Memory };

    fn from(_refused: AllocFailed<T>) -> ValueFault {
        ValueFault::Memory
    }
}
