// What values weigh in the count of steps, and how deep they nest.
ghost use Rattle.std.specs.Prelude.{◌≡◌, ◌+◌, ◌-◌, ◌^◌, min, nat_le};
ghost use Rattle.jl_value.specs.Tree.{items_of, members_of};
ghost use Rattle.jl_value.specs.Form.{tree_of, trees_of, entries_of};
ghost use Rattle.jl_value.specs.Tree.{nesting, items_nesting, members_nesting};
ghost use Rattle.jl_operands.specs.Steps.{weight as weight_of, items_weight as items_weight_of, members_weight as members_weight_of};

use jl_text::Text;
use jl_value::Value;

/// What a text or an array of this length counts, up to 2^64 - 1.
pub fn length_weight(length: usize) -> u64
    ensures { result ≡ min (1 + length) (2 ^ 64 - 1) }
{
    (length as u64).saturating_add(1)
}

/// What a value counts, up to 2^64 - 1.
#[cycle(weight)]
pub(crate) fn weight(value: &Value) -> u64
    ensures { result ≡ min (weight_of (tree_of value.now)) (2 ^ 64 - 1) }
{
    match value {
        Value::Null => 1,
        Value::Truth(_) => 1,
        Value::Whole(_) => 1,
        Value::Text(text) => length_weight(text.as_str().len()),
        Value::List(list) => items_weight(list.as_slice()).saturating_add(1),
        Value::Table(table) => members_weight(table.members()).saturating_add(1),
        Value::Numbers(numbers) => length_weight(numbers.as_slice().len()),
    }
}

/// What the members of a list count, up to 2^64 - 1.
#[cycle(weight)]
pub fn items_weight(items: &[Value]) -> u64
    ensures { result ≡ min (items_weight_of (items_of (trees_of items.now))) (2 ^ 64 - 1) }
{
    let mut total: u64 = 0;
    for item in items {
        total = total.saturating_add(weight(item));
    }
    total
}

// What the keys and members of a table count, up to 2^64 - 1.
#[cycle(weight)]
pub(crate) fn members_weight(members: &[(Text, Value)]) -> u64
    ensures { result
        ≡ min (members_weight_of (members_of (entries_of members.now))) (2 ^ 64 - 1) }
{
    let mut total: u64 = 0;
    for (key, member) in members {
        let more = (key.as_str().len() as u64).saturating_add(weight(member));
        total = total.saturating_add(more);
    }
    total
}

/// Whether a value nests no deeper than this.
#[cycle(nests)]
pub fn nests_within(value: &Value, depth: u32) -> bool
    ensures { result ≡ nat_le (nesting (tree_of value.now)) depth }
{
    match value {
        Value::Null => true,
        Value::Truth(_) => true,
        Value::Whole(_) => true,
        Value::Text(_) => true,
        Value::List(list) => depth > 0 && items_nest_within(list.as_slice(), depth - 1),
        Value::Table(table) => depth > 0 && members_nest_within(table.members(), depth - 1),
        Value::Numbers(_) => depth > 1,
    }
}

#[cycle(nests)]
fn items_nest_within(items: &[Value], depth: u32) -> bool
    ensures { result ≡ nat_le (items_nesting (items_of (trees_of items.now))) depth }
{
    for item in items {
        if !nests_within(item, depth) {
            return false;
        }
    }
    true
}

#[cycle(nests)]
fn members_nest_within(members: &[(Text, Value)], depth: u32) -> bool
    ensures { result ≡ nat_le (members_nesting (members_of (entries_of members.now))) depth }
{
    for (_, member) in members {
        if !nests_within(member, depth) {
            return false;
        }
    }
    true
}
