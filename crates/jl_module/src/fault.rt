// Why a line is no definition.
use jl_value::ModuleFaultKind;
use std::alloc::{AllocError, AllocFailed};
use thiserror::Error;

/// Why a line is no definition.
#[derive(Debug, Drop, Clone, Copy, PartialEq, Eq, Error)]
pub enum LineFault {
    #[error("the line is no definition")]
    Faulty(ModuleFaultKind),
    #[error("out of memory")]
    Memory,
}

impl From<AllocError> for LineFault {
    ghost use Rattle.jl_module.specs.declared.fault.LineFault.TheVariants.{Memory};
    ghost use Rattle.std.specs.Prelude.{◌≡◌};

    ghost from_gives = { λ _ e. e ≡ Memory };

    fn from(_refused: AllocError) -> LineFault {
        LineFault::Memory
    }
}

impl<T: Drop> From<AllocFailed<T>> for LineFault {
    ghost use Rattle.jl_module.specs.declared.fault.LineFault.TheVariants.{Memory};
    ghost use Rattle.std.specs.Prelude.{◌≡◌};

    ghost from_gives = { λ _ e. e ≡ Memory };

    fn from(_refused: AllocFailed<T>) -> LineFault {
        LineFault::Memory
    }
}
