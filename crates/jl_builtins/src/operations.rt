// What operators, `not`, a minus and an index make of values.
ghost use Rattle.std.specs.Prelude.{◌≡◌, ◌++◌, IfOk, MatchOption, Ok, Err, length, true, false};
ghost use Rattle.jl_value.specs.Form.{tree_of, trees_of, entries_of};
ghost use Rattle.jl_value.specs.Tree.{whole, text, numbers, items_of, members_of};
ghost use Rattle.jl_value.specs.declared.library.TaskError.TheVariants.{BadIndex};
ghost use Rattle.jl_builtins.specs.Operations.{sum_of, compared as compared_of, holds, tested as tested_of, operation as operation_of, prefixed as prefixed_of, place_of, item_at, number_at, at_place, items_length, member_of, element_of, is_arithmetic, is_plus as is_plus_of, on_lists};
ghost use Rattle.jl_operands.specs.Lists.{wholes as wholes_of};
ghost use Rattle.jl_operands.specs.Operands.{list_of_wholes, tree_of_operand};
ghost use Rattle.jl_operands.specs.Steps.{counted, operated};
ghost use Rattle.jl_operands.specs.Outcomes.{Makes, Evaluates};

use crate::arithmetic::{difference, negative, product, quotient, remainder, whole_sum};
use crate::joined::{add_before, add_behind, add_members, add_wholes};
use crate::same::{are_same, is_list_of};
use jl_lexer::{Operator, Prefix};
use jl_operands::{CallFault, Counted, Operand, Steps, count_copy, count_value, length_weight};
use jl_text::Text;
use jl_value::{Numbers, TaskError, Value};
use std::alloc::{AllocError, Global};
use std::cmp::Ordering;

fn join_texts(alloc: Global, left: &Text, right: &Text) -> Result<Text, AllocError>
    ensures { IfOk result (λ t. t ≡ left.now ++ right.now) }
{
    let mut text = String::from_str(alloc, left.as_str())?;
    text.push_str(right.as_str())?;
    Ok(Text::new(text))
}

fn join_arrays(alloc: Global, left: &Numbers, right: &Numbers) -> Result<Numbers, AllocError>
    ensures { IfOk result (λ n. n ≡ left.now ++ right.now) }
{
    let mut numbers = Vec::from_slice(alloc, left.as_slice())?;
    numbers.extend_from_slice(right.as_slice())?;
    Ok(Numbers::new(numbers))
}

// Two texts as one, which is counted before it is made.
fn add_texts(alloc: Global, left: &Text, right: &Text, steps: Steps) -> Result<Counted, CallFault>
    ensures { Evaluates result (counted steps (text (left.now ++ right.now))) }
{
    let more = length_weight(left.as_str().len()).saturating_add(right.as_str().len() as u64);
    match steps.checked_add(more) {
        Some(steps) => Ok(Counted {
            value: Operand::Plain(Value::Text(join_texts(alloc, left, right)?)),
            steps,
        }),
        None => Err(CallFault::Task(TaskError::TooLong)),
    }
}

// Two arrays as one, which is counted before it is made.
fn add_arrays(
    alloc: Global,
    left: &Numbers,
    right: &Numbers,
    steps: Steps,
) -> Result<Counted, CallFault>
    ensures { Evaluates result (counted steps (numbers (left.now ++ right.now))) }
{
    let more = length_weight(left.as_slice().len()).saturating_add(right.as_slice().len() as u64);
    match steps.checked_add(more) {
        Some(steps) => Ok(Counted {
            value: Operand::Plain(Value::Numbers(join_arrays(alloc, left, right)?)),
            steps,
        }),
        None => Err(CallFault::Task(TaskError::TooLong)),
    }
}

// The sum of two whole numbers, or two texts, lists or arrays joined.
fn add_values(
    alloc: Global,
    left: &Value,
    right: &Value,
    steps: Steps,
) -> Result<Counted, CallFault>
    ensures { Evaluates result (operated steps (sum_of (tree_of left.now) (tree_of right.now))) }
{
    match left {
        Value::Whole(left) => match right {
            Value::Whole(right) => count_value(whole_sum(*left, *right)?, steps),
            _ => Err(CallFault::Task(TaskError::BadKind)),
        },
        Value::Text(left) => match right {
            Value::Text(right) => add_texts(alloc, left, right, steps),
            _ => Err(CallFault::Task(TaskError::BadKind)),
        },
        Value::List(left) => match right {
            Value::List(right) => add_members(alloc, left, right, steps),
            _ => Err(CallFault::Task(TaskError::BadKind)),
        },
        Value::Numbers(left) => match right {
            Value::Numbers(right) => add_arrays(alloc, left, right, steps),
            _ => Err(CallFault::Task(TaskError::BadKind)),
        },
        _ => Err(CallFault::Task(TaskError::BadKind)),
    }
}

/// The sum of two whole numbers, or two texts, lists or arrays joined.
fn add(alloc: Global, left: &Operand, right: &Operand, steps: Steps) -> Result<Counted, CallFault>
    ensures { Evaluates result
        (operated steps (sum_of (tree_of_operand left.now) (tree_of_operand right.now))) }
{
    match left {
        Operand::Plain(left) => match right {
            Operand::Plain(right) => add_values(alloc, left, right, steps),
            Operand::Wholes(right) => add_behind(alloc, left, right.as_slice(), steps),
        },
        Operand::Wholes(left) => match right {
            Operand::Plain(right) => add_before(alloc, left.as_slice(), right, steps),
            Operand::Wholes(right) => add_wholes(alloc, left.as_slice(), right.as_slice(), steps),
        },
    }
}

fn compare(left: &Value, right: &Value) -> Option<Ordering>
    ensures { result ≡ compared_of (tree_of left.now) (tree_of right.now) }
{
    match left {
        Value::Whole(left) => match right {
            Value::Whole(right) => Some(left.cmp(right)),
            _ => None,
        },
        Value::Text(left) => match right {
            Value::Text(right) => Some(left.as_str().as_bytes().cmp(&right.as_str().as_bytes())),
            _ => None,
        },
        _ => None,
    }
}

fn test_order(
    order: Option<Ordering>,
    below: bool,
    same: bool,
    above: bool,
) -> Result<Value, CallFault>
    ensures { Makes result (tested_of (holds below same above) order) }
{
    match order {
        Some(Ordering::Less) => Ok(Value::Truth(below)),
        Some(Ordering::Equal) => Ok(Value::Truth(same)),
        Some(Ordering::Greater) => Ok(Value::Truth(above)),
        None => Err(CallFault::Task(TaskError::BadKind)),
    }
}

fn arithmetic(operator: Operator, left: i64, right: i64) -> Result<Value, CallFault>
    requires { is_arithmetic operator ≡ true }
    ensures { Makes result (operation_of operator (whole left) (whole right)) }
{
    match operator {
        Operator::Minus => difference(left, right),
        Operator::Times => product(left, right),
        Operator::Quotient => quotient(left, right),
        Operator::Remainder => remainder(left, right),
        _ => Err(CallFault::Task(TaskError::BadKind)),
    }
}

fn on_wholes(operator: Operator, left: &Value, right: &Value) -> Result<Value, CallFault>
    requires { is_arithmetic operator ≡ true }
    ensures { Makes result (operation_of operator (tree_of left.now) (tree_of right.now)) }
{
    match left {
        Value::Whole(left) => match right {
            Value::Whole(right) => arithmetic(operator, *left, *right),
            _ => Err(CallFault::Task(TaskError::BadKind)),
        },
        _ => Err(CallFault::Task(TaskError::BadKind)),
    }
}

// What an operator but `+` makes of two values.
fn apply_values(operator: Operator, left: &Value, right: &Value) -> Result<Value, CallFault>
    requires { is_plus_of operator ≡ false }
    ensures { Makes result (operation_of operator (tree_of left.now) (tree_of right.now)) }
{
    match operator {
        Operator::Or => Err(CallFault::Task(TaskError::BadKind)),
        Operator::And => Err(CallFault::Task(TaskError::BadKind)),
        Operator::Equal => Ok(Value::Truth(*left == *right)),
        Operator::Unequal => Ok(Value::Truth(*left != *right)),
        Operator::Less => test_order(compare(left, right), true, false, false),
        Operator::AtMost => test_order(compare(left, right), true, true, false),
        Operator::Greater => test_order(compare(left, right), false, false, true),
        Operator::AtLeast => test_order(compare(left, right), false, true, true),
        Operator::Plus => Err(CallFault::Task(TaskError::BadKind)),
        Operator::Minus => on_wholes(operator, left, right),
        Operator::Times => on_wholes(operator, left, right),
        Operator::Quotient => on_wholes(operator, left, right),
        Operator::Remainder => on_wholes(operator, left, right),
    }
}

// What an operator but `+` makes of two values of which one is a list, by whether they are the same.
fn test_lists(operator: Operator, same: bool) -> Result<Value, CallFault>
    ensures { Makes result (on_lists operator same) }
{
    match operator {
        Operator::Equal => Ok(Value::Truth(same)),
        Operator::Unequal => Ok(Value::Truth(!same)),
        _ => Err(CallFault::Task(TaskError::BadKind)),
    }
}

// What an operator but `+` makes of two operands.
fn apply(operator: Operator, left: &Operand, right: &Operand) -> Result<Value, CallFault>
    requires { is_plus_of operator ≡ false }
    ensures { Makes result
        (operation_of operator (tree_of_operand left.now) (tree_of_operand right.now)) }
{
    match left {
        Operand::Plain(left) => match right {
            Operand::Plain(right) => apply_values(operator, left, right),
            Operand::Wholes(right) => test_lists(operator, is_list_of(left, right.as_slice())),
        },
        Operand::Wholes(left) => match right {
            Operand::Plain(right) => test_lists(operator, is_list_of(right, left.as_slice())),
            Operand::Wholes(right) => {
                test_lists(operator, are_same(left.as_slice(), right.as_slice()))
            }
        },
    }
}

fn is_plus(operator: Operator) -> bool
    ensures { result ≡ is_plus_of operator }
{
    match operator {
        Operator::Plus => true,
        _ => false,
    }
}

/// What an operator makes of two values, which is counted.
#[tactic(auto, using(crate::proofs::OperationLemmas::plus_sum))]
pub fn operate(
    alloc: Global,
    operator: Operator,
    left: &Operand,
    right: &Operand,
    steps: Steps,
) -> Result<Counted, CallFault>
    ensures { Evaluates result
        (operated steps
        (operation_of operator (tree_of_operand left.now) (tree_of_operand right.now))) }
{
    if is_plus(operator) {
        return add(alloc, left, right, steps);
    }
    count_value(apply(operator, left, right)?, steps)
}

// What `not` or a minus makes of a value.
fn apply_prefix(prefix: Prefix, value: &Value) -> Result<Value, CallFault>
    ensures { Makes result (prefixed_of prefix (tree_of value.now)) }
{
    match prefix {
        Prefix::Not => match value {
            Value::Truth(truth) => Ok(Value::Truth(!*truth)),
            _ => Err(CallFault::Task(TaskError::BadKind)),
        },
        Prefix::Negative => match value {
            Value::Whole(value) => negative(*value),
            _ => Err(CallFault::Task(TaskError::BadKind)),
        },
    }
}

/// What `not` or a minus makes of a value, which is counted.
#[tactic(auto, using(crate::proofs::OperationLemmas::no_prefix))]
pub fn operate_prefix(prefix: Prefix, value: &Operand, steps: Steps) -> Result<Counted, CallFault>
    ensures { Evaluates result (operated steps (prefixed_of prefix (tree_of_operand value.now))) }
{
    match value {
        Operand::Plain(value) => count_value(apply_prefix(prefix, value)?, steps),
        Operand::Wholes(_) => Err(CallFault::Task(TaskError::BadKind)),
    }
}

// A place in a list of this length, from 0, or from the end where it is negative.
fn place(length: usize, at: i64) -> Option<usize>
    ensures { result ≡ place_of length at }
{
    if at >= 0 {
        let place = at as u64 as usize;
        if place < length { Some(place) } else { None }
    } else {
        let back = (-(at + 1)) as u64 as usize;
        if back < length {
            Some(length - 1 - back)
        } else {
            None
        }
    }
}

fn item(alloc: Global, items: &[Value], at: i64, steps: Steps) -> Result<Counted, CallFault>
    ensures { Evaluates result (operated steps
        (at_place (item_at (items_of (trees_of items.now)))
        (place_of (items_length (items_of (trees_of items.now))) at))) }
{
    match place(items.len(), at) {
        Some(place) => count_copy(alloc, &items[place], steps),
        None => Err(CallFault::Task(TaskError::BadIndex)),
    }
}

fn number(numbers: &[i64], at: i64) -> Result<Value, CallFault>
    ensures { Makes result (at_place (number_at numbers.now) (place_of (length numbers.now) at)) }
{
    match place(numbers.len(), at) {
        Some(place) => Ok(Value::Whole(numbers[place])),
        None => Err(CallFault::Task(TaskError::BadIndex)),
    }
}

fn member<'a>(members: &'a [(Text, Value)], name: &Text) -> Option<&'a Value>
    ensures { MatchOption result
        (member_of name.now (members_of (entries_of members.now)) ≡ Err BadIndex)
        (λ v. member_of name.now (members_of (entries_of members.now)) ≡ Ok (tree_of v.now)) }
{
    for (key, value) in members {
        if name.as_str().as_bytes() == key.as_str().as_bytes() {
            return Some(value);
        }
    }
    None
}

fn named_member(
    alloc: Global,
    members: &[(Text, Value)],
    name: &Text,
    steps: Steps,
) -> Result<Counted, CallFault>
    ensures { Evaluates result
        (operated steps (member_of name.now (members_of (entries_of members.now)))) }
{
    match member(members, name) {
        Some(value) => count_copy(alloc, value, steps),
        None => Err(CallFault::Task(TaskError::BadIndex)),
    }
}

fn element_of_value(
    alloc: Global,
    whole: &Value,
    at: &Value,
    steps: Steps,
) -> Result<Counted, CallFault>
    ensures { Evaluates result (operated steps (element_of (tree_of whole.now) (tree_of at.now))) }
{
    match whole {
        Value::List(list) => match at {
            Value::Whole(at) => item(alloc, list.as_slice(), *at, steps),
            _ => Err(CallFault::Task(TaskError::BadKind)),
        },
        Value::Numbers(numbers) => match at {
            Value::Whole(at) => count_value(number(numbers.as_slice(), *at)?, steps),
            _ => Err(CallFault::Task(TaskError::BadKind)),
        },
        Value::Table(table) => match at {
            Value::Text(name) => named_member(alloc, table.members(), name, steps),
            _ => Err(CallFault::Task(TaskError::BadKind)),
        },
        _ => Err(CallFault::Task(TaskError::BadKind)),
    }
}

fn whole_at(numbers: &[i64], at: i64) -> Result<Value, CallFault>
    ensures { Makes result
        (at_place (item_at (items_of (wholes_of numbers.now)))
        (place_of (items_length (items_of (wholes_of numbers.now))) at)) }
{
    number(numbers, at)
}

fn element_of_wholes(numbers: &[i64], at: &Value, steps: Steps) -> Result<Counted, CallFault>
    ensures { Evaluates result
        (operated steps (element_of (list_of_wholes numbers.now) (tree_of at.now))) }
{
    match at {
        Value::Whole(at) => count_value(whole_at(numbers, *at)?, steps),
        _ => Err(CallFault::Task(TaskError::BadKind)),
    }
}

/// The element of a list, an array or a table at a place or a key, which is counted before it is
/// copied.
#[tactic(auto, using(crate::proofs::OperationLemmas::no_element))]
pub fn element(
    alloc: Global,
    whole: &Operand,
    at: &Operand,
    steps: Steps,
) -> Result<Counted, CallFault>
    ensures { Evaluates result
        (operated steps (element_of (tree_of_operand whole.now) (tree_of_operand at.now))) }
{
    match at {
        Operand::Plain(at) => match whole {
            Operand::Plain(whole) => element_of_value(alloc, whole, at, steps),
            Operand::Wholes(whole) => element_of_wholes(whole.as_slice(), at, steps),
        },
        Operand::Wholes(_) => Err(CallFault::Task(TaskError::BadKind)),
    }
}
