// The operators of an expression, in signed 64 bits.
ghost use Rattle.std.specs.Prelude.{◌≡◌};
ghost use Rattle.jl_batch.specs.Arithmetic.{operation_value, is_tight as is_tight_of};

use jl_numbers::{div_floor, rem_floor};

#[derive(Clone, Copy)]
pub(crate) enum Operator {
    Plus,
    Minus,
    Times,
    Over,
    Modulo,
}

/// Whether an operator binds before `+` and `-`.
pub(crate) fn is_tight(operator: Operator) -> bool
    ensures { result ≡ is_tight_of operator }
{
    match operator {
        Operator::Plus | Operator::Minus => false,
        Operator::Times | Operator::Over | Operator::Modulo => true,
    }
}

pub(crate) fn apply(operator: Operator, x: i64, y: i64) -> Option<i64>
    ensures { result ≡ operation_value operator x y }
{
    match operator {
        Operator::Plus => x.checked_add(y),
        Operator::Minus => x.checked_sub(y),
        Operator::Times => x.checked_mul(y),
        Operator::Over => div_floor(x, y),
        Operator::Modulo => rem_floor(x, y),
    }
}
