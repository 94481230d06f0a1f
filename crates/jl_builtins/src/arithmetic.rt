// Arithmetic on whole numbers, whose results are values.
ghost use Rattle.std.specs.Prelude.{◌≡◌, ◌+ℤ◌, ℤ};
ghost use lib.IntN.{◌-ℤ◌, ◌*ℤ◌, neg_ℤ};
ghost use Rattle.jl_value.specs.Form.{tree_of};
ghost use Rattle.jl_value.specs.Tree.{whole as whole_tree};
ghost use Rattle.jl_numbers.specs.Division.{floor_quotient, floor_rest};
ghost use Rattle.jl_builtins.specs.Arithmetic.{whole_if, whole_within, divided};
ghost use Rattle.jl_builtins.specs.Operations.{operation, number_made};
ghost use Rattle.jl_operands.specs.Outcomes.{Makes};

use jl_lexer::Operator;
use jl_numbers::{div_floor, rem_floor};
use jl_operands::CallFault;
use jl_value::{TaskError, Value};

fn whole(value: Option<i64>) -> Result<Value, CallFault>
    ensures { Makes result (whole_if value) }
{
    match value {
        Some(value) => Ok(Value::Whole(value)),
        None => Err(CallFault::Task(TaskError::Overflow)),
    }
}

pub(crate) fn whole_sum(left: i64, right: i64) -> Result<Value, CallFault>
    ensures { Makes result (whole_within (left +ℤ right)) }
{
    whole(left.checked_add(right))
}

pub(crate) fn difference(left: i64, right: i64) -> Result<Value, CallFault>
    ensures { Makes result (whole_within (left -ℤ right)) }
{
    whole(left.checked_sub(right))
}

pub(crate) fn product(left: i64, right: i64) -> Result<Value, CallFault>
    ensures { Makes result (whole_within (left *ℤ right)) }
{
    whole(left.checked_mul(right))
}

pub(crate) fn negative(value: i64) -> Result<Value, CallFault>
    ensures { Makes result (whole_within (neg_ℤ value)) }
{
    whole(value.checked_neg())
}

pub(crate) fn quotient(x: i64, y: i64) -> Result<Value, CallFault>
    ensures { Makes result (divided floor_quotient x y) }
{
    if y == 0 {
        return Err(CallFault::Task(TaskError::ZeroDivisor));
    }
    whole(div_floor(x, y))
}

pub(crate) fn remainder(x: i64, y: i64) -> Result<Value, CallFault>
    ensures { Makes result (divided floor_rest x y) }
{
    if y == 0 {
        return Err(CallFault::Task(TaskError::ZeroDivisor));
    }
    whole(rem_floor(x, y))
}

fn whole_quotient(left: i64, right: i64) -> Option<i64>
    ensures { result ≡ number_made (divided floor_quotient left right) }
{
    if right == 0 {
        return None;
    }
    div_floor(left, right)
}

fn whole_remainder(left: i64, right: i64) -> Option<i64>
    ensures { result ≡ number_made (divided floor_rest left right) }
{
    if right == 0 {
        return None;
    }
    rem_floor(left, right)
}

/// The whole number that an operator makes of two, where it makes one.
pub fn operate_wholes(operator: Operator, left: i64, right: i64) -> Option<i64>
    ensures { result ≡ number_made (operation operator (whole_tree left) (whole_tree right)) }
{
    match operator {
        Operator::Plus => left.checked_add(right),
        Operator::Minus => left.checked_sub(right),
        Operator::Times => left.checked_mul(right),
        Operator::Quotient => whole_quotient(left, right),
        Operator::Remainder => whole_remainder(left, right),
        _ => None,
    }
}
