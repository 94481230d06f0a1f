// The value of an expression, and the count of the steps to it.
ghost use Rattle.std.specs.Prelude.{◌∷◌, [], Some, None, MatchResult};
ghost use Rattle.jl_value.specs.Form.{tree_of, trees_of};
ghost use Rattle.jl_value.specs.Tree.{whole};
ghost use Rattle.jl_lexer.specs.Words.{constant_of};
ghost use Rattle.jl_lexer.specs.Trees.{before as before_tree, between as between_tree, choice as choice_tree, index as index_tree, call as call_tree, span as span_tree, each as each_tree, filtered as filtered_tree, members_of, entries_of as entries_in};
ghost use Rattle.jl_builtins.specs.declared.left_side.Settled.TheVariants.{Both};
ghost use Rattle.jl_lang.specs.Meaning.{argument as argument_of, named as named_of, word_value as word_value_of, truth_counted as truth_counted_of, again, settled as settled_of, value_of, members_value, entries_value};
ghost use Rattle.jl_builtins.specs.Operations.{settle as settle_of};
ghost use Rattle.jl_lang.specs.Scopes.{scope_of};
ghost use Rattle.jl_operands.specs.Lists.{each_over as each_over_of, filtered_over as filtered_over_of, wholes};
ghost use Rattle.jl_operands.specs.Operands.{tree_of_operand, trees_gathered};
ghost use Rattle.jl_operands.specs.Outcomes.{Evaluates};
ghost use Rattle.jl_lang.specs.Outcomes.{IsTaken, IsLeft};

use crate::numbers::evaluate_number;
use crate::scope::Scope;
use jl_builtins::{Settled, call, element, operate, operate_prefix, settle, span};
use jl_lexer::{Entry, Function, Name, Node, Operator, Prefix, Tree, Word};
use jl_operands::{
    CallFault, Counted, Gathered, Operand, Steps, count_copy, count_list, count_operand,
    count_table, count_value, source,
};
use jl_value::{TaskError, Value};
use std::alloc::Global;
use std::collections::BTreeMap;

/// The members of a list so far, and the count of steps.
#[derive(Drop)]
pub(crate) struct Members {
    values: Gathered,
    steps: Steps,
}

fn argument_value(
    alloc: Global,
    scope: &Scope,
    name: &[u8],
    steps: Steps,
) -> Result<Counted, CallFault>
    ensures { Evaluates result (named_of steps (argument_of name.now (scope_of scope.now))) }
{
    match scope.value(name) {
        Some(value) => count_copy(alloc, value, steps),
        None => Err(CallFault::Task(TaskError::NoArgument)),
    }
}

fn word_value(alloc: Global, scope: &Scope, word: &Word, steps: Steps) -> Result<Counted, CallFault>
    ensures { Evaluates result
        (word_value_of (scope_of scope.now) word.now (constant_of word.now) steps) }
{
    match word.value() {
        Some(value) => count_copy(alloc, value, steps),
        None => argument_value(alloc, scope, word.bytes(), steps),
    }
}

fn count_truth(right: Counted) -> Result<Counted, CallFault>
    ensures { Evaluates result (truth_counted_of (tree_of_operand right.value) right.steps) }
{
    match right.value.as_truth() {
        Some(truth) => count_value(Value::Truth(truth), right.steps),
        None => Err(CallFault::Task(TaskError::BadKind)),
    }
}

#[cycle(evaluate)]
fn before(
    alloc: Global,
    scope: &Scope,
    prefix: Prefix,
    inner: &Tree,
    steps: Steps,
) -> Result<Counted, CallFault>
    ensures { Evaluates result (value_of (scope_of scope.now) (before_tree prefix inner.now) steps) }
{
    let value = evaluate(alloc, scope, inner, steps)?;
    operate_prefix(prefix, &value.value, value.steps)
}

#[cycle(evaluate)]
fn both(
    alloc: Global,
    scope: &Scope,
    operator: Operator,
    left: &Operand,
    right: &Tree,
    steps: Steps,
) -> Result<Counted, CallFault>
    ensures { Evaluates result
        (settled_of operator (tree_of_operand left.now) Both steps
        (value_of (scope_of scope.now) right.now)) }
{
    let right = evaluate(alloc, scope, right, steps)?;
    operate(alloc, operator, left, &right.value, right.steps)
}

#[cycle(evaluate)]
fn behind_left(
    alloc: Global,
    scope: &Scope,
    operator: Operator,
    left: &Operand,
    right: &Tree,
    steps: Steps,
) -> Result<Counted, CallFault>
    ensures { Evaluates result
        (settled_of operator (tree_of_operand left.now) (settle_of operator (tree_of_operand left.now)) steps
        (value_of (scope_of scope.now) right.now)) }
{
    match settle(operator, left) {
        Settled::Known(truth) => count_value(Value::Truth(truth), steps),
        Settled::Open => count_truth(evaluate(alloc, scope, right, steps)?),
        Settled::Wrong => Err(CallFault::Task(TaskError::BadKind)),
        Settled::Both => both(alloc, scope, operator, left, right, steps),
    }
}

#[cycle(evaluate)]
fn between(
    alloc: Global,
    scope: &Scope,
    operator: Operator,
    left: &Tree,
    right: &Tree,
    steps: Steps,
) -> Result<Counted, CallFault>
    ensures { Evaluates result
        (value_of (scope_of scope.now) (between_tree operator left.now right.now) steps) }
{
    let left = evaluate(alloc, scope, left, steps)?;
    behind_left(alloc, scope, operator, &left.value, right, left.steps)
}

#[cycle(evaluate)]
fn count_again(
    alloc: Global,
    scope: &Scope,
    tree: &Tree,
    steps: Steps,
) -> Result<Counted, CallFault>
    ensures { Evaluates result (again (value_of (scope_of scope.now) tree.now steps)) }
{
    let value = evaluate(alloc, scope, tree, steps)?;
    count_operand(value.value, value.steps)
}

#[cycle(evaluate)]
fn choice(
    alloc: Global,
    scope: &Scope,
    first: &Tree,
    condition: &Tree,
    last: &Tree,
    steps: Steps,
) -> Result<Counted, CallFault>
    ensures { Evaluates result
        (value_of (scope_of scope.now) (choice_tree first.now condition.now last.now) steps) }
{
    let condition = evaluate(alloc, scope, condition, steps)?;
    match condition.value.as_truth() {
        Some(true) => count_again(alloc, scope, first, condition.steps),
        Some(false) => count_again(alloc, scope, last, condition.steps),
        None => Err(CallFault::Task(TaskError::BadKind)),
    }
}

#[cycle(evaluate)]
fn index(
    alloc: Global,
    scope: &Scope,
    whole: &Tree,
    at: &Tree,
    steps: Steps,
) -> Result<Counted, CallFault>
    ensures { Evaluates result (value_of (scope_of scope.now) (index_tree whole.now at.now) steps) }
{
    let whole = evaluate(alloc, scope, whole, steps)?;
    let at = evaluate(alloc, scope, at, whole.steps)?;
    element(alloc, &whole.value, &at.value, at.steps)
}

#[cycle(evaluate)]
fn call_value(
    alloc: Global,
    scope: &Scope,
    function: Function,
    member: &Tree,
    steps: Steps,
) -> Result<Counted, CallFault>
    ensures { Evaluates result (value_of (scope_of scope.now) (call_tree function member.now) steps) }
{
    let member = evaluate(alloc, scope, member, steps)?;
    call(alloc, function, &member.value, member.steps)
}

#[cycle(evaluate)]
fn range_value(
    alloc: Global,
    scope: &Scope,
    first: &Tree,
    end: &Tree,
    steps: Steps,
) -> Result<Counted, CallFault>
    ensures { Evaluates result (value_of (scope_of scope.now) (span_tree first.now end.now) steps) }
{
    let first = evaluate(alloc, scope, first, steps)?;
    let end = evaluate(alloc, scope, end, first.steps)?;
    span(alloc, &first.value, &end.value, end.steps)
}

#[cycle(evaluate)]
fn list_value(
    alloc: Global,
    scope: &Scope,
    members: &[Tree],
    start: Steps,
) -> Result<Counted, CallFault>
    ensures { Evaluates result (members_value (scope_of scope.now) (members_of members.now) [] start) }
{
    let mut values = Gathered::new(alloc);
    let mut steps = start;
    for member in members {
        let value = evaluate(alloc, scope, member, steps)?;
        values = values.push(alloc, value.value)?;
        steps = value.steps;
    }
    count_list(values, steps)
}

#[cycle(evaluate)]
fn table_value(
    alloc: Global,
    scope: &Scope,
    entries: &[Entry],
    start: Steps,
) -> Result<Counted, CallFault>
    ensures { Evaluates result (entries_value (scope_of scope.now) (entries_in entries.now) [] start) }
{
    let mut members = BTreeMap::new(alloc);
    let mut steps = start;
    for entry in entries {
        let value = evaluate(alloc, scope, entry.member(), steps)?;
        let member = value.value.into_value(alloc)?;
        members.insert(entry.key().text().copy()?.into_string(), member)?;
        steps = value.steps;
    }
    count_table(alloc, members, steps)
}

#[cycle(evaluate)]
fn list_over_values<'a>(
    alloc: Global,
    scope: &'a Scope<'a>,
    member: &Tree,
    variable: &'a [u8],
    items: &'a [Value],
    start: Steps,
) -> Result<Counted, CallFault>
    ensures { Evaluates result
        (each_over_of (λ u k. value_of ((variable.now, u) ∷ scope_of scope.now) member.now k)
        (trees_of items.now) [] start) }
{
    let mut values = Gathered::new(alloc);
    let mut steps = start;
    for item in items {
        let inner = Scope::Variable(variable, item, scope);
        let value = evaluate(alloc, &inner, member, steps)?;
        values = values.push(alloc, value.value)?;
        steps = value.steps;
    }
    count_list(values, steps)
}

// The value of an expression where a variable stands for a whole number. Most such are arithmetic.
#[cycle(evaluate)]
fn at_number(
    alloc: Global,
    scope: &Scope,
    member: &Tree,
    variable: &[u8],
    number: i64,
    steps: Steps,
) -> Result<Counted, CallFault>
    ensures { Evaluates result
        (value_of ((variable.now, whole number) ∷ scope_of scope.now) member.now steps) }
{
    let item = Value::Whole(number);
    let inner = Scope::Variable(&*variable, &item, &*scope);
    match evaluate_number(&inner, member, steps) {
        Some(found) => Ok(Counted {
            value: Operand::Plain(Value::Whole(found.number)),
            steps: found.steps,
        }),
        None => evaluate(alloc, &inner, member, steps),
    }
}

#[cycle(evaluate)]
fn list_over_numbers(
    alloc: Global,
    scope: &Scope,
    member: &Tree,
    variable: &[u8],
    numbers: &[i64],
    start: Steps,
) -> Result<Counted, CallFault>
    ensures { Evaluates result
        (each_over_of (λ u k. value_of ((variable.now, u) ∷ scope_of scope.now) member.now k)
        (wholes numbers.now) [] start) }
{
    let mut values = Gathered::new(alloc);
    let mut steps = start;
    for number in numbers {
        let value = at_number(alloc, scope, member, variable, *number, steps)?;
        values = values.push(alloc, value.value)?;
        steps = value.steps;
    }
    count_list(values, steps)
}

#[cycle(evaluate)]
fn list_over(
    alloc: Global,
    scope: &Scope,
    member: &Tree,
    variable: &[u8],
    items: &Gathered,
    start: Steps,
) -> Result<Counted, CallFault>
    ensures { Evaluates result
        (each_over_of (λ u k. value_of ((variable.now, u) ∷ scope_of scope.now) member.now k)
        (trees_gathered items.now) [] start) }
{
    match items {
        Gathered::Wholes(numbers) => {
            list_over_numbers(alloc, scope, member, variable, numbers.as_slice(), start)
        }
        Gathered::Values(values) => {
            list_over_values(alloc, &*scope, member, variable, values.as_slice(), start)
        }
    }
}

#[cycle(evaluate)]
fn list_of_each(
    alloc: Global,
    scope: &Scope,
    member: &Tree,
    variable: &Name,
    over: &Tree,
    steps: Steps,
) -> Result<Counted, CallFault>
    ensures { Evaluates result
        (value_of (scope_of scope.now) (each_tree member.now variable.now over.now) steps) }
{
    let over = evaluate(alloc, scope, over, steps)?;
    let items = source(over.value)?;
    list_over(alloc, scope, member, variable.bytes(), &items, over.steps)
}

// The values so far and one more, if the condition lets it through.
#[cycle(evaluate)]
fn take_member(
    alloc: Global,
    inner: &Scope,
    member: &Tree,
    condition: &Tree,
    values: Gathered,
    steps: Steps,
) -> Result<Members, CallFault>
    ensures { MatchResult result
        (λ t. IsTaken t (value_of (scope_of inner.now) condition.now)
        (value_of (scope_of inner.now) member.now) (trees_gathered values) steps)
        (λ e. IsLeft e (value_of (scope_of inner.now) condition.now)
        (value_of (scope_of inner.now) member.now) (trees_gathered values) steps) }
{
    let condition = evaluate(alloc, inner, condition, steps)?;
    match condition.value.as_truth() {
        Some(true) => {
            let value = evaluate(alloc, inner, member, condition.steps)?;
            Ok(Members {
                values: values.push(alloc, value.value)?,
                steps: value.steps,
            })
        }
        Some(false) => Ok(Members {
            values,
            steps: condition.steps,
        }),
        None => Err(CallFault::Task(TaskError::BadKind)),
    }
}

#[cycle(evaluate)]
fn filter_over_values<'a>(
    alloc: Global,
    scope: &'a Scope<'a>,
    member: &Tree,
    variable: &'a [u8],
    items: &'a [Value],
    condition: &Tree,
    start: Steps,
) -> Result<Counted, CallFault>
    ensures { Evaluates result
        (filtered_over_of
        (λ u k. value_of ((variable.now, u) ∷ scope_of scope.now) condition.now k)
        (λ u k. value_of ((variable.now, u) ∷ scope_of scope.now) member.now k)
        (trees_of items.now) [] start) }
{
    let mut values = Gathered::new(alloc);
    let mut steps = start;
    for item in items {
        let inner = Scope::Variable(variable, item, scope);
        let more = take_member(alloc, &inner, member, condition, values, steps)?;
        values = more.values;
        steps = more.steps;
    }
    count_list(values, steps)
}

// The values so far and one more, where a variable stands for a whole number.
#[cycle(evaluate)]
fn take_number(
    alloc: Global,
    scope: &Scope,
    member: &Tree,
    variable: &[u8],
    number: i64,
    condition: &Tree,
    so_far: Members,
) -> Result<Members, CallFault>
    ensures { MatchResult result
        (λ t. IsTaken t (value_of ((variable.now, whole number) ∷ scope_of scope.now) condition.now)
        (value_of ((variable.now, whole number) ∷ scope_of scope.now) member.now)
        (trees_gathered so_far.values) so_far.steps)
        (λ e. IsLeft e (value_of ((variable.now, whole number) ∷ scope_of scope.now) condition.now)
        (value_of ((variable.now, whole number) ∷ scope_of scope.now) member.now)
        (trees_gathered so_far.values) so_far.steps) }
{
    let item = Value::Whole(number);
    let inner = Scope::Variable(&*variable, &item, &*scope);
    take_member(
        alloc,
        &inner,
        member,
        condition,
        so_far.values,
        so_far.steps,
    )
}

#[cycle(evaluate)]
fn filter_over_numbers(
    alloc: Global,
    scope: &Scope,
    member: &Tree,
    variable: &[u8],
    numbers: &[i64],
    condition: &Tree,
    start: Steps,
) -> Result<Counted, CallFault>
    ensures { Evaluates result
        (filtered_over_of
        (λ u k. value_of ((variable.now, u) ∷ scope_of scope.now) condition.now k)
        (λ u k. value_of ((variable.now, u) ∷ scope_of scope.now) member.now k)
        (wholes numbers.now) [] start) }
{
    let mut taken = Members {
        values: Gathered::new(alloc),
        steps: start,
    };
    for number in numbers {
        taken = take_number(alloc, scope, member, variable, *number, condition, taken)?;
    }
    count_list(taken.values, taken.steps)
}

#[cycle(evaluate)]
fn filter_over(
    alloc: Global,
    scope: &Scope,
    member: &Tree,
    variable: &[u8],
    items: &Gathered,
    condition: &Tree,
    start: Steps,
) -> Result<Counted, CallFault>
    ensures { Evaluates result
        (filtered_over_of
        (λ u k. value_of ((variable.now, u) ∷ scope_of scope.now) condition.now k)
        (λ u k. value_of ((variable.now, u) ∷ scope_of scope.now) member.now k)
        (trees_gathered items.now) [] start) }
{
    match items {
        Gathered::Wholes(numbers) => filter_over_numbers(
            alloc,
            scope,
            member,
            variable,
            numbers.as_slice(),
            condition,
            start,
        ),
        Gathered::Values(values) => filter_over_values(
            alloc,
            &*scope,
            member,
            variable,
            values.as_slice(),
            condition,
            start,
        ),
    }
}

#[cycle(evaluate)]
fn list_of_some(
    alloc: Global,
    scope: &Scope,
    member: &Tree,
    variable: &Name,
    over: &Tree,
    condition: &Tree,
    steps: Steps,
) -> Result<Counted, CallFault>
    ensures { Evaluates result
        (value_of (scope_of scope.now)
        (filtered_tree member.now variable.now over.now condition.now) steps) }
{
    let over = evaluate(alloc, scope, over, steps)?;
    let items = source(over.value)?;
    filter_over(
        alloc,
        scope,
        member,
        variable.bytes(),
        &items,
        condition,
        over.steps,
    )
}

/// The value of an expression on arguments behind a count of steps, or its first error.
#[cycle(evaluate)]
pub(crate) fn evaluate(
    alloc: Global,
    scope: &Scope,
    tree: &Tree,
    steps: Steps,
) -> Result<Counted, CallFault>
    ensures { Evaluates result (value_of (scope_of scope.now) tree.now steps) }
{
    match tree.node() {
        Node::Tall => Err(CallFault::Task(TaskError::BadKind)),
        Node::Leaf(word) => word_value(alloc, scope, word, steps),
        Node::Bracketed(inner) => evaluate(alloc, scope, inner, steps),
        Node::Before(prefix, inner) => before(alloc, scope, *prefix, inner, steps),
        Node::Between(operator, left, right) => {
            between(alloc, scope, *operator, left, right, steps)
        }
        Node::Choice(first, condition, last) => {
            choice(alloc, scope, first, condition, last, steps)
        }
        Node::Index(whole, at) => index(alloc, scope, whole, at, steps),
        Node::Call(function, member) => call_value(alloc, scope, *function, member, steps),
        Node::Span(first, end) => range_value(alloc, scope, first, end, steps),
        Node::Listed(members) => list_value(alloc, scope, members.as_slice(), steps),
        Node::Each(member, variable, over) => list_of_each(
            alloc, scope, member, variable, over, steps,
        ),
        Node::Filtered(member, variable, over, condition) => {
            list_of_some(alloc, scope, member, variable, over, condition, steps)
        }
        Node::Tabled(entries) => table_value(alloc, scope, entries.as_slice(), steps),
    }
}
