// What the functions that every module has make of values.
ghost use Rattle.std.specs.Prelude.{◌≡◌, ◌+ℤ◌, [], IfOk, Ok, true, false, pos, count_by};
ghost use lib.IntN.{◌-ℤ◌};
ghost use Rattle.jl_value.specs.Proper.{FitsI64};
ghost use Rattle.jl_value.specs.Form.{tree_of, trees_of};
ghost use Rattle.jl_value.specs.Tree.{whole, numbers as numbers_tree, items_of};
ghost use Rattle.jl_builtins.specs.Arithmetic.{whole_within};
ghost use Rattle.jl_operands.specs.Steps.{counted, operated};
ghost use Rattle.jl_operands.specs.Lists.{wholes as wholes_of};
ghost use Rattle.jl_operands.specs.Operands.{list_of_wholes, tree_of_operand};
ghost use Rattle.jl_builtins.specs.Calls.{begins_character as begins_character_of, length_of, numbers_sum as numbers_sum_of, IsNumber, items_sum as items_sum_of, sum_of_all, better as better_of, numbers_best as numbers_best_of, items_best as items_best_of, first_best, first_number, best_of, array_behind, array_of as array_value, is_whole_tree, are_whole as are_whole_of, items_from, members_to, range_of, call_value as value_of_call};
ghost use Rattle.jl_operands.specs.Outcomes.{Makes, Evaluates};

use jl_lexer::Function;
use jl_operands::{CallFault, Counted, Operand, Steps, count_copy, count_value, length_weight};
use jl_value::{Numbers, TaskError, Value};
use std::alloc::{AllocError, Global};

fn begins_character(byte: u8) -> bool
    ensures { result ≡ begins_character_of byte }
{
    byte < 128 || byte >= 192
}

fn characters(text: &[u8]) -> usize
    ensures { result ≡ count_by begins_character_of text.now }
{
    text.iter().filter(|b| begins_character(**b)).count()
}

fn count_of(count: usize) -> Result<Value, CallFault>
    ensures { Makes result (whole_within (pos count)) }
{
    if count > 9_223_372_036_854_775_807 {
        return Err(CallFault::Task(TaskError::Overflow));
    }
    Ok(Value::Whole(count as i64))
}

fn len(value: &Value) -> Result<Value, CallFault>
    ensures { Makes result (length_of (tree_of value.now)) }
{
    match value {
        Value::Text(text) => count_of(characters(text.as_str().as_bytes())),
        Value::List(list) => count_of(list.as_slice().len()),
        Value::Table(table) => count_of(table.members().len()),
        Value::Numbers(numbers) => count_of(numbers.as_slice().len()),
        Value::Null => Err(CallFault::Task(TaskError::BadKind)),
        Value::Truth(_) => Err(CallFault::Task(TaskError::BadKind)),
        Value::Whole(_) => Err(CallFault::Task(TaskError::BadKind)),
    }
}

fn numbers_sum(numbers: &[i64]) -> Result<Value, CallFault>
    ensures { Makes result (numbers_sum_of (pos 0) numbers.now) }
{
    let mut total: i64 = 0;
    for number in numbers {
        match total.checked_add(*number) {
            Some(sum) => total = sum,
            None => return Err(CallFault::Task(TaskError::Overflow)),
        }
    }
    Ok(Value::Whole(total))
}

fn whole_of(value: &Value) -> Option<i64>
    ensures { IsNumber result (tree_of value.now) }
{
    match value {
        Value::Whole(value) => Some(*value),
        Value::Null => None,
        Value::Truth(_) => None,
        Value::Text(_) => None,
        Value::List(_) => None,
        Value::Table(_) => None,
        Value::Numbers(_) => None,
    }
}

fn items_sum(items: &[Value]) -> Result<Value, CallFault>
    ensures { Makes result (items_sum_of (pos 0) (items_of (trees_of items.now))) }
{
    let mut total: i64 = 0;
    for item in items {
        let Some(number) = whole_of(item) else {
            return Err(CallFault::Task(TaskError::BadKind));
        };
        match total.checked_add(number) {
            Some(sum) => total = sum,
            None => return Err(CallFault::Task(TaskError::Overflow)),
        }
    }
    Ok(Value::Whole(total))
}

fn sum(value: &Value) -> Result<Value, CallFault>
    ensures { Makes result (sum_of_all (tree_of value.now)) }
{
    match value {
        Value::List(list) => items_sum(list.as_slice()),
        Value::Numbers(numbers) => numbers_sum(numbers.as_slice()),
        _ => Err(CallFault::Task(TaskError::BadKind)),
    }
}

fn better(least: bool, best: i64, number: i64) -> i64
    ensures { result ≡ better_of least best number }
{
    if least {
        if number < best { number } else { best }
    } else {
        if best < number { number } else { best }
    }
}

fn numbers_best(least: bool, numbers: &[i64]) -> Result<Value, CallFault>
    ensures { Makes result (first_number least numbers.now) }
{
    let [first, rest @ ..] = numbers else {
        return Err(CallFault::Task(TaskError::BadIndex));
    };
    Ok(Value::Whole(best_number(least, *first, rest)))
}

fn best_number(least: bool, first: i64, numbers: &[i64]) -> i64
    ensures { numbers_best_of least first numbers.now ≡ Ok (whole result) }
{
    let mut best = first;
    for number in numbers {
        best = better(least, best, *number);
    }
    best
}

fn best_item(least: bool, first: i64, items: &[Value]) -> Result<Value, CallFault>
    ensures { Makes result (items_best_of least first (items_of (trees_of items.now))) }
{
    let mut best = first;
    for item in items {
        let Some(number) = whole_of(item) else {
            return Err(CallFault::Task(TaskError::BadKind));
        };
        best = better(least, best, number);
    }
    Ok(Value::Whole(best))
}

fn items_best(least: bool, items: &[Value]) -> Result<Value, CallFault>
    ensures { Makes result (first_best least (items_of (trees_of items.now))) }
{
    let [first, rest @ ..] = items else {
        return Err(CallFault::Task(TaskError::BadIndex));
    };
    match whole_of(first) {
        Some(number) => best_item(least, number, rest),
        None => Err(CallFault::Task(TaskError::BadKind)),
    }
}

fn best(least: bool, value: &Value) -> Result<Value, CallFault>
    ensures { Makes result (best_of least (tree_of value.now)) }
{
    match value {
        Value::List(list) => items_best(least, list.as_slice()),
        Value::Numbers(numbers) => numbers_best(least, numbers.as_slice()),
        _ => Err(CallFault::Task(TaskError::BadKind)),
    }
}

fn is_whole(value: &Value) -> bool
    ensures { result ≡ is_whole_tree (tree_of value.now) }
{
    match value {
        Value::Whole(_) => true,
        _ => false,
    }
}

fn are_whole(items: &[Value]) -> bool
    ensures { result ≡ are_whole_of (items_of (trees_of items.now)) }
{
    for item in items {
        if !is_whole(item) {
            return false;
        }
    }
    true
}

fn numbers_of(alloc: Global, items: &[Value]) -> Result<Value, CallFault>
    ensures { Makes result (array_behind [] (items_of (trees_of items.now))) }
{
    let mut numbers = Vec::with_capacity(alloc, items.len())?;
    for item in items {
        let Some(number) = whole_of(item) else {
            return Err(CallFault::Task(TaskError::BadKind));
        };
        numbers.push(number)?;
    }
    Ok(Value::Numbers(Numbers::new(numbers)))
}

// The array of a list's numbers, which is counted before it is made.
fn array_of(alloc: Global, items: &[Value], steps: Steps) -> Result<Counted, CallFault>
    ensures { Evaluates result (operated steps (array_behind [] (items_of (trees_of items.now)))) }
{
    if !are_whole(items) {
        return Err(CallFault::Task(TaskError::BadKind));
    }
    match steps.checked_add(length_weight(items.len())) {
        Some(steps) => Ok(Counted {
            value: Operand::Plain(numbers_of(alloc, items)?),
            steps,
        }),
        None => Err(CallFault::Task(TaskError::TooLong)),
    }
}

fn array(alloc: Global, value: &Value, steps: Steps) -> Result<Counted, CallFault>
    ensures { Evaluates result (operated steps (array_value (tree_of value.now))) }
{
    match value {
        Value::List(list) => array_of(alloc, list.as_slice(), steps),
        Value::Numbers(_) => count_copy(alloc, value, steps),
        _ => Err(CallFault::Task(TaskError::BadKind)),
    }
}

// The whole numbers from one on, so many.
fn numbers_from(alloc: Global, first: i64, count: u64) -> Result<Vec<i64>, AllocError>
    requires { FitsI64 (first +ℤ pos count) }
    ensures { IfOk result (λ v. items_of (wholes_of v.items) ≡ items_from first count) }
{
    let mut members = Vec::with_capacity(alloc, count as usize)?;
    let mut next = first;
    let mut made: u64 = 0;
    'members: while made < count {
        members.push(next)?;
        next += 1;
        made += 1;
    }
    Ok(members)
}

// How many whole numbers there are from one to below another.
fn members_between(first: i64, end: i64) -> u64
    ensures { result ≡ members_to (end -ℤ first) }
{
    if end <= first {
        return 0;
    }
    end.abs_diff(first)
}

// The list of the whole numbers from one to below another, which is counted before it is made.
fn range(alloc: Global, first: i64, end: i64, steps: Steps) -> Result<Counted, CallFault>
    ensures { Evaluates result (operated steps (range_of (whole first) (whole end))) }
{
    let members = members_between(first, end);
    match steps.checked_add(members.saturating_add(1)) {
        Some(steps) => Ok(Counted {
            value: Operand::Wholes(numbers_from(alloc, first, members)?),
            steps,
        }),
        None => Err(CallFault::Task(TaskError::TooLong)),
    }
}

fn range_to(alloc: Global, end: &Value, steps: Steps) -> Result<Counted, CallFault>
    ensures { Evaluates result (operated steps (range_of (whole (pos 0)) (tree_of end.now))) }
{
    match end {
        Value::Whole(end) => range(alloc, 0, *end, steps),
        _ => Err(CallFault::Task(TaskError::BadKind)),
    }
}

fn span_values(
    alloc: Global,
    first: &Value,
    end: &Value,
    steps: Steps,
) -> Result<Counted, CallFault>
    ensures { Evaluates result (operated steps (range_of (tree_of first.now) (tree_of end.now))) }
{
    match first {
        Value::Whole(first) => match end {
            Value::Whole(end) => range(alloc, *first, *end, steps),
            _ => Err(CallFault::Task(TaskError::BadKind)),
        },
        _ => Err(CallFault::Task(TaskError::BadKind)),
    }
}

/// `range(first, end)`.
pub fn span(
    alloc: Global,
    first: &Operand,
    end: &Operand,
    steps: Steps,
) -> Result<Counted, CallFault>
    ensures { Evaluates result
        (operated steps (range_of (tree_of_operand first.now) (tree_of_operand end.now))) }
{
    match first {
        Operand::Plain(first) => match end {
            Operand::Plain(end) => span_values(alloc, first, end, steps),
            Operand::Wholes(_) => Err(CallFault::Task(TaskError::BadKind)),
        },
        Operand::Wholes(_) => Err(CallFault::Task(TaskError::BadKind)),
    }
}

fn call_value(
    alloc: Global,
    function: Function,
    member: &Value,
    steps: Steps,
) -> Result<Counted, CallFault>
    ensures { Evaluates result (operated steps (value_of_call function (tree_of member.now))) }
{
    match function {
        Function::Len => count_value(len(member)?, steps),
        Function::Sum => count_value(sum(member)?, steps),
        Function::Min => count_value(best(true, member)?, steps),
        Function::Max => count_value(best(false, member)?, steps),
        Function::Range => range_to(alloc, member, steps),
        Function::Array => array(alloc, member, steps),
    }
}

fn wholes_len(numbers: &[i64]) -> Result<Value, CallFault>
    ensures { Makes result (length_of (list_of_wholes numbers.now)) }
{
    count_of(numbers.len())
}

fn wholes_sum(numbers: &[i64]) -> Result<Value, CallFault>
    ensures { Makes result (sum_of_all (list_of_wholes numbers.now)) }
{
    numbers_sum(numbers)
}

fn wholes_best(least: bool, numbers: &[i64]) -> Result<Value, CallFault>
    ensures { Makes result (best_of least (list_of_wholes numbers.now)) }
{
    numbers_best(least, numbers)
}

// The array of whole numbers, which is counted before it is made.
fn wholes_array(alloc: Global, numbers: &[i64], steps: Steps) -> Result<Counted, CallFault>
    ensures { Evaluates result (counted steps (numbers_tree numbers.now)) }
{
    match steps.checked_add(length_weight(numbers.len())) {
        Some(steps) => {
            let copy = Numbers::new(Vec::from_slice(alloc, numbers)?);
            Ok(Counted {
                value: Operand::Plain(Value::Numbers(copy)),
                steps,
            })
        }
        None => Err(CallFault::Task(TaskError::TooLong)),
    }
}

#[tactic(auto, using(crate::proofs::WholeLemmas::wholes_array))]
fn call_wholes(
    alloc: Global,
    function: Function,
    numbers: &[i64],
    steps: Steps,
) -> Result<Counted, CallFault>
    ensures { Evaluates result (operated steps (value_of_call function (list_of_wholes numbers.now))) }
{
    match function {
        Function::Len => count_value(wholes_len(numbers)?, steps),
        Function::Sum => count_value(wholes_sum(numbers)?, steps),
        Function::Min => count_value(wholes_best(true, numbers)?, steps),
        Function::Max => count_value(wholes_best(false, numbers)?, steps),
        Function::Range => Err(CallFault::Task(TaskError::BadKind)),
        Function::Array => wholes_array(alloc, numbers, steps),
    }
}

/// What a function makes of its one member, which is counted.
pub fn call(
    alloc: Global,
    function: Function,
    member: &Operand,
    steps: Steps,
) -> Result<Counted, CallFault>
    ensures { Evaluates result (operated steps (value_of_call function (tree_of_operand member.now))) }
{
    match member {
        Operand::Plain(member) => call_value(alloc, function, member, steps),
        Operand::Wholes(numbers) => call_wholes(alloc, function, numbers.as_slice(), steps),
    }
}
