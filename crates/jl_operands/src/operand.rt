// Values inside an evaluation, of which a list of whole numbers alone may be kept as such.
ghost use Rattle.std.specs.Prelude.{◌≡◌, ◌++◌, IfOk, IfSome};
ghost use Rattle.jl_value.specs.Tree.{whole};
ghost use Rattle.jl_value.specs.Form.{tree_of, trees_of};
ghost use Rattle.jl_operands.specs.Lists.{wholes as wholes_of};
ghost use Rattle.jl_operands.specs.Operands.{tree_of_operand, IsTruth};

use jl_value::{List, Value};
use std::alloc::{AllocError, Global};

/// A value inside an evaluation. A list of whole numbers alone may be kept as numbers of 8 bytes.
#[derive(Drop)]
pub enum Operand {
    Plain(Value),
    Wholes(Vec<i64>),
}

/// Some members, and behind them these numbers, each as a value.
pub fn wholes_onto(mut members: Vec<Value>, more: &[i64]) -> Result<Vec<Value>, AllocError>
    ensures { IfOk result (λ v. trees_of v.items ≡ trees_of members.items ++ wholes_of more.now) }
{
    for number in more {
        members.push(Value::Whole(*number))?;
    }
    Ok(members)
}

// These numbers, each as a value.
pub(crate) fn wholes(alloc: Global, numbers: &[i64]) -> Result<Vec<Value>, AllocError>
    ensures { IfOk result (λ v. trees_of v.items ≡ wholes_of numbers.now) }
{
    wholes_onto(Vec::with_capacity(alloc, numbers.len())?, numbers)
}

impl Operand {
    /// The value that it is where no list is kept as numbers.
    pub fn into_value(self, alloc: Global) -> Result<Value, AllocError>
        ensures { IfOk result (λ v. tree_of v ≡ tree_of_operand self) }
    {
        match self {
            Operand::Plain(value) => Ok(value),
            Operand::Wholes(numbers) => {
                Ok(Value::List(List::new(wholes(alloc, numbers.as_slice())?)))
            }
        }
    }

    /// The truth that it is, if it is one.
    pub fn as_truth(&self) -> Option<bool>
        ensures { IsTruth result (tree_of_operand self.now) }
    {
        match self {
            Operand::Plain(Value::Truth(truth)) => Some(*truth),
            _ => None,
        }
    }

    /// The whole number that it is, if it is one.
    pub(crate) fn as_whole(&self) -> Option<i64>
        ensures { IfSome result (λ z. tree_of_operand self.now ≡ whole z) }
    {
        match self {
            Operand::Plain(Value::Whole(number)) => Some(*number),
            _ => None,
        }
    }
}
