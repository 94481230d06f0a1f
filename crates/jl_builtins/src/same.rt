// Whether lists of which one is kept as whole numbers are the same.
ghost use Rattle.std.specs.Prelude.{◌≡◌};
ghost use Rattle.jl_value.specs.Tree.{whole, items_of};
ghost use Rattle.jl_value.specs.Form.{tree_of, trees_of};
ghost use Rattle.jl_value.specs.Same.{tree_eq, items_eq, wholes_eq};
ghost use Rattle.jl_operands.specs.Lists.{wholes as wholes_of};
ghost use Rattle.jl_operands.specs.Operands.{list_of_wholes};

use jl_value::Value;

fn is_number(value: &Value, number: i64) -> bool
    ensures { result ≡ tree_eq (tree_of value.now) (whole number) }
{
    match value {
        Value::Whole(value) => *value == number,
        _ => false,
    }
}

fn are_numbers(items: &[Value], numbers: &[i64]) -> bool
    ensures { result ≡ items_eq (items_of (trees_of items.now)) (items_of (wholes_of numbers.now)) }
{
    if items.len() != numbers.len() {
        return false;
    }
    for place in 0..items.len() {
        if !is_number(&items[place], numbers[place]) {
            return false;
        }
    }
    true
}

/// Whether a value is the list of these whole numbers.
pub(crate) fn is_list_of(value: &Value, numbers: &[i64]) -> bool
    ensures { result ≡ tree_eq (tree_of value.now) (list_of_wholes numbers.now) }
{
    match value {
        Value::List(list) => are_numbers(list.as_slice(), numbers),
        _ => false,
    }
}

fn same_numbers(left: &[i64], right: &[i64]) -> bool
    ensures { result ≡ wholes_eq left.now right.now }
{
    left == right
}

/// Whether two lists of whole numbers are the same.
pub(crate) fn are_same(left: &[i64], right: &[i64]) -> bool
    ensures { result ≡ tree_eq (list_of_wholes left.now) (list_of_wholes right.now) }
{
    same_numbers(left, right)
}
