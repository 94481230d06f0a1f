// Two lists as one, each in either form.
ghost use Rattle.std.specs.Prelude.{◌≡◌, ◌-◌, ◌^◌, ◌++◌, IfOk, min};
ghost use Rattle.jl_value.specs.Tree.{list, items_of};
ghost use Rattle.jl_value.specs.Form.{tree_of, trees_of};
ghost use Rattle.jl_operands.specs.Lists.{wholes as wholes_of};
ghost use Rattle.jl_operands.specs.Operands.{list_of_wholes, tree_of_operand};
ghost use Rattle.jl_builtins.specs.Joined.{trees_listed};
ghost use Rattle.jl_builtins.specs.Operations.{sum_of};
ghost use Rattle.jl_operands.specs.Steps.{counted, operated, items_weight as items_weight_of};
ghost use Rattle.jl_operands.specs.Outcomes.{Evaluates};

use jl_operands::{CallFault, Counted, Operand, Steps, items_weight, wholes_onto};
use jl_value::{List, TaskError, Value};
use std::alloc::{AllocError, Global};

/// The members of a list that stands: whole numbers alone, or any values.
#[derive(Clone, Copy)]
pub(crate) enum Listed<'a> {
    Wholes(&'a [i64]),
    Values(&'a [Value]),
}

fn copy_onto(
    alloc: Global,
    mut members: Vec<Value>,
    more: &[Value],
) -> Result<Vec<Value>, AllocError>
    ensures { IfOk result (λ v. trees_of v.items ≡ trees_of members.items ++ trees_of more.now) }
{
    for member in more {
        members.push(member.copy(alloc)?)?;
    }
    Ok(members)
}

// Some members, and behind them those of a list.
fn copy_listed(alloc: Global, members: Vec<Value>, more: Listed) -> Result<Vec<Value>, AllocError>
    ensures { IfOk result
        (λ v. trees_of v.items ≡ trees_of members.items ++ trees_listed more.entry) }
{
    match more {
        Listed::Wholes(numbers) => wholes_onto(members, numbers),
        Listed::Values(values) => copy_onto(alloc, members, values),
    }
}

fn join_values(alloc: Global, left: Listed, right: Listed) -> Result<Operand, AllocError>
    ensures { IfOk result
        (λ o. tree_of_operand o ≡ list (items_of (trees_listed left.entry ++ trees_listed right.entry))) }
{
    let members = copy_listed(alloc, Vec::new(alloc), left)?;
    let both = copy_listed(alloc, members, right)?;
    Ok(Operand::Plain(Value::List(List::new(both))))
}

fn join_wholes(alloc: Global, left: &[i64], right: &[i64]) -> Result<Operand, AllocError>
    ensures { IfOk result
        (λ o. tree_of_operand o ≡ list (items_of (wholes_of left.now ++ wholes_of right.now))) }
{
    let mut numbers = Vec::with_capacity(alloc, left.len().saturating_add(right.len()))?;
    numbers.extend_from_slice(left)?;
    numbers.extend_from_slice(right)?;
    Ok(Operand::Wholes(numbers))
}

fn join_lists(alloc: Global, left: Listed, right: Listed) -> Result<Operand, AllocError>
    ensures { IfOk result
        (λ o. tree_of_operand o ≡ list (items_of (trees_listed left.entry ++ trees_listed right.entry))) }
{
    match left {
        Listed::Wholes(first) => match right {
            Listed::Wholes(second) => join_wholes(alloc, first, second),
            Listed::Values(_) => join_values(alloc, left, right),
        },
        Listed::Values(_) => join_values(alloc, left, right),
    }
}

// What the members of a list count, up to 2^64 - 1.
fn listed_weight(members: Listed) -> u64
    ensures { result
        ≡ min (items_weight_of (items_of (trees_listed members.entry))) (2 ^ 64 - 1) }
{
    match members {
        Listed::Wholes(numbers) => numbers.len() as u64,
        Listed::Values(values) => items_weight(values),
    }
}

// Two lists as one, which is counted before it is made.
fn add_lists(alloc: Global, left: Listed, right: Listed, steps: Steps) -> Result<Counted, CallFault>
    ensures { Evaluates result
        (counted steps (list (items_of (trees_listed left.entry ++ trees_listed right.entry)))) }
{
    let both = listed_weight(left).saturating_add(listed_weight(right));
    match steps.checked_add(both.saturating_add(1)) {
        Some(steps) => Ok(Counted {
            value: join_lists(alloc, left, right)?,
            steps,
        }),
        None => Err(CallFault::Task(TaskError::TooLong)),
    }
}

/// Two lists of values as one.
pub(crate) fn add_members(
    alloc: Global,
    left: &List,
    right: &List,
    steps: Steps,
) -> Result<Counted, CallFault>
    ensures { Evaluates result (counted steps (list (items_of (left.now ++ right.now)))) }
{
    let (left, right) = (left.as_slice(), right.as_slice());
    add_lists(alloc, Listed::Values(left), Listed::Values(right), steps)
}

/// Two lists of whole numbers as one.
pub(crate) fn add_wholes(
    alloc: Global,
    left: &[i64],
    right: &[i64],
    steps: Steps,
) -> Result<Counted, CallFault>
    ensures { Evaluates result
        (operated steps (sum_of (list_of_wholes left.now) (list_of_wholes right.now))) }
{
    add_lists(alloc, Listed::Wholes(left), Listed::Wholes(right), steps)
}

/// A list of values and one of whole numbers as one, if the first is a list.
pub(crate) fn add_behind(
    alloc: Global,
    left: &Value,
    right: &[i64],
    steps: Steps,
) -> Result<Counted, CallFault>
    ensures { Evaluates result
        (operated steps (sum_of (tree_of left.now) (list_of_wholes right.now))) }
{
    match left {
        Value::List(left) => {
            add_lists(
                alloc,
                Listed::Values(left.as_slice()),
                Listed::Wholes(right),
                steps,
            )
        }
        _ => Err(CallFault::Task(TaskError::BadKind)),
    }
}

/// A list of whole numbers and one of values as one, if the second is a list.
pub(crate) fn add_before(
    alloc: Global,
    left: &[i64],
    right: &Value,
    steps: Steps,
) -> Result<Counted, CallFault>
    ensures { Evaluates result
        (operated steps (sum_of (list_of_wholes left.now) (tree_of right.now))) }
{
    match right {
        Value::List(right) => {
            add_lists(
                alloc,
                Listed::Wholes(left),
                Listed::Values(right.as_slice()),
                steps,
            )
        }
        _ => Err(CallFault::Task(TaskError::BadKind)),
    }
}
