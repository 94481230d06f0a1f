// The members of a list, which are kept as whole numbers while there is no other member.
ghost use Rattle.std.specs.Prelude.{◌≡◌, ◌++◌, ◌∷◌, [], IfOk};
ghost use Rattle.jl_value.specs.Tree.{whole};
ghost use Rattle.jl_value.specs.Form.{trees_of};
ghost use Rattle.jl_operands.specs.Lists.{wholes as wholes_of};
ghost use Rattle.jl_operands.specs.Operands.{tree_of_operand, trees_gathered};

use crate::operand::{Operand, wholes};
use jl_value::Value;
use std::alloc::{AllocError, Global};

/// The members of a list: whole numbers alone, or any values.
#[derive(Drop)]
pub enum Gathered {
    Wholes(Vec<i64>),
    Values(Vec<Value>),
}

fn push_number(mut numbers: Vec<i64>, number: i64) -> Result<Gathered, AllocError>
    ensures { IfOk result (λ g. trees_gathered g ≡ wholes_of numbers.items ++ whole number ∷ []) }
{
    numbers.push(number)?;
    Ok(Gathered::Wholes(numbers))
}

fn push_value(
    alloc: Global,
    mut values: Vec<Value>,
    member: Operand,
) -> Result<Gathered, AllocError>
    ensures { IfOk result
        (λ g. trees_gathered g ≡ trees_of values.items ++ tree_of_operand member ∷ []) }
{
    values.push(member.into_value(alloc)?)?;
    Ok(Gathered::Values(values))
}

// Numbers and one more member, at which they become values if it is no whole number.
fn push_behind_numbers(
    alloc: Global,
    numbers: Vec<i64>,
    member: Operand,
) -> Result<Gathered, AllocError>
    ensures { IfOk result
        (λ g. trees_gathered g ≡ wholes_of numbers.items ++ tree_of_operand member ∷ []) }
{
    match member.as_whole() {
        Some(number) => push_number(numbers, number),
        None => push_value(alloc, wholes(alloc, numbers.as_slice())?, member),
    }
}

impl Gathered {
    /// No member yet.
    pub fn new(alloc: Global) -> Gathered
        ensures { trees_gathered result ≡ [] }
    {
        Gathered::Wholes(Vec::new(alloc))
    }

    /// The members and one more behind them.
    pub fn push(self, alloc: Global, member: Operand) -> Result<Gathered, AllocError>
        ensures { IfOk result
            (λ g. trees_gathered g ≡ trees_gathered self ++ tree_of_operand member ∷ []) }
    {
        match self {
            Gathered::Wholes(numbers) => push_behind_numbers(alloc, numbers, member),
            Gathered::Values(values) => push_value(alloc, values, member),
        }
    }
}
