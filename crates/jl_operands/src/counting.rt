// Values and the count of the steps that made them. What a value weighs is counted before it is
// made.
ghost use Rattle.std.specs.Prelude.{◌≡◌};
ghost use Rattle.jl_value.specs.Form.{tree_of, trees_of};
ghost use Rattle.jl_value.specs.Proper.{AreKeys, keys};
ghost use Rattle.jl_value.specs.Tree.{list, table, items_of, members_of};
ghost use Rattle.jl_operands.specs.Steps.{counted};
ghost use Rattle.jl_operands.specs.Operands.{list_of_wholes, tree_of_operand, trees_gathered};
ghost use Rattle.jl_operands.specs.Outcomes.{Evaluates, pairs_in};

use crate::fault::CallFault;
use crate::gathered::Gathered;
use crate::lists::{pairs, table_of};
use crate::operand::Operand;
use crate::steps::Steps;
use crate::weights::{items_weight, length_weight, members_weight, weight};
use jl_value::{List, TaskError, Value};
use std::alloc::Global;
use std::collections::BTreeMap;

/// A value and the count of steps so far.
#[derive(Drop)]
pub struct Counted {
    pub value: Operand,
    pub steps: Steps,
}

/// Counts a value that was moved here.
pub fn count_value(value: Value, steps: Steps) -> Result<Counted, CallFault>
    ensures { Evaluates result (counted steps (tree_of value)) }
{
    match steps.checked_add(weight(&value)) {
        Some(steps) => Ok(Counted {
            value: Operand::Plain(value),
            steps,
        }),
        None => Err(CallFault::Task(TaskError::TooLong)),
    }
}

/// Counts a value before it is copied.
pub fn count_copy(alloc: Global, value: &Value, steps: Steps) -> Result<Counted, CallFault>
    ensures { Evaluates result (counted steps (tree_of value.now)) }
{
    match steps.checked_add(weight(value)) {
        Some(steps) => Ok(Counted {
            value: Operand::Plain(value.copy(alloc)?),
            steps,
        }),
        None => Err(CallFault::Task(TaskError::TooLong)),
    }
}

/// Counts the list of some whole numbers before it is made.
pub(crate) fn count_wholes(numbers: Vec<i64>, steps: Steps) -> Result<Counted, CallFault>
    ensures { Evaluates result (counted steps (list_of_wholes numbers.items)) }
{
    match steps.checked_add(length_weight(numbers.as_slice().len())) {
        Some(steps) => Ok(Counted {
            value: Operand::Wholes(numbers),
            steps,
        }),
        None => Err(CallFault::Task(TaskError::TooLong)),
    }
}

/// Counts an operand that was moved here.
pub fn count_operand(operand: Operand, steps: Steps) -> Result<Counted, CallFault>
    ensures { Evaluates result (counted steps (tree_of_operand operand)) }
{
    match operand {
        Operand::Plain(value) => count_value(value, steps),
        Operand::Wholes(numbers) => count_wholes(numbers, steps),
    }
}

fn count_members(members: Vec<Value>, steps: Steps) -> Result<Counted, CallFault>
    ensures { Evaluates result (counted steps (list (items_of (trees_of members.items)))) }
{
    match steps.checked_add(items_weight(members.as_slice()).saturating_add(1)) {
        Some(steps) => Ok(Counted {
            value: Operand::Plain(Value::List(List::new(members))),
            steps,
        }),
        None => Err(CallFault::Task(TaskError::TooLong)),
    }
}

/// Counts the list of some members before it is made.
pub fn count_list(members: Gathered, steps: Steps) -> Result<Counted, CallFault>
    ensures { Evaluates result (counted steps (list (items_of (trees_gathered members)))) }
{
    match members {
        Gathered::Wholes(numbers) => count_wholes(numbers, steps),
        Gathered::Values(values) => count_members(values, steps),
    }
}

/// Counts the table of a map's keys and values before it is made.
pub fn count_table(
    alloc: Global,
    members: BTreeMap<String, Value>,
    steps: Steps,
) -> Result<Counted, CallFault>
    requires { AreKeys (keys (members_of (pairs_in members.entries))) }
    ensures { Evaluates result (counted steps (table (members_of (pairs_in members.entries)))) }
{
    let members = pairs(alloc, members)?;
    match steps.checked_add(members_weight(members.as_slice()).saturating_add(1)) {
        Some(steps) => Ok(Counted {
            value: Operand::Plain(table_of(members)),
            steps,
        }),
        None => Err(CallFault::Task(TaskError::TooLong)),
    }
}
