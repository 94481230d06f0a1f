// Equality of values, by their form and parts.
ghost use Rattle.std.specs.Prelude.{◌≡◌, ◌↔◌, IsTrue};
ghost use Rattle.jl_value.specs.Tree.{items_of, members_of};
ghost use Rattle.jl_value.specs.Form.{tree_of, trees_of, entries_of};
ghost use Rattle.jl_value.specs.Same.{wholes_eq, tree_eq, items_eq, members_eq};

use crate::value::{Numbers, Value};
use jl_text::Text;

#[cycle(same)]
fn same(a: &Value, b: &Value) -> bool
    ensures { result ≡ tree_eq (tree_of a.now) (tree_of b.now) }
{
    match (a, b) {
        (Value::Null, Value::Null) => true,
        (Value::Truth(x), Value::Truth(y)) => *x == *y,
        (Value::Whole(x), Value::Whole(y)) => *x == *y,
        (Value::Text(x), Value::Text(y)) => x.as_str() == y.as_str(),
        (Value::List(x), Value::List(y)) => same_list(x.as_slice(), y.as_slice()),
        (Value::Table(x), Value::Table(y)) => same_table(x.members(), y.members()),
        (Value::Numbers(x), Value::Numbers(y)) => same_numbers(x.as_slice(), y.as_slice()),
        _ => false,
    }
}

#[cycle(same)]
fn same_list(a: &[Value], b: &[Value]) -> bool
    ensures { result ≡ items_eq (items_of (trees_of a.now)) (items_of (trees_of b.now)) }
{
    if a.len() != b.len() {
        return false;
    }
    for i in 0..a.len() {
        if !same(&a[i], &b[i]) {
            return false;
        }
    }
    true
}

#[cycle(same)]
pub(crate) fn same_table(a: &[(Text, Value)], b: &[(Text, Value)]) -> bool
    ensures { result ≡ members_eq (members_of (entries_of a.now)) (members_of (entries_of b.now)) }
{
    if a.len() != b.len() {
        return false;
    }
    for i in 0..a.len() {
        if a[i].0.as_str() != b[i].0.as_str() || !same(&a[i].1, &b[i].1) {
            return false;
        }
    }
    true
}

fn same_numbers(a: &[i64], b: &[i64]) -> bool
    ensures { result ≡ wholes_eq a.now b.now }
{
    a == b
}

impl PartialEq for Value {
    ghost use Rattle.std.specs.Cmp.{on_per};
    ghost use Rattle.jl_value.specs.Form.{tree_of};
    ghost use Rattle.jl_value.specs.Same.{tree_eq};
    ghost use Rattle.jl_value.specs.Sameness.{tree_per};

    ghost eq = { λ a b. tree_eq (tree_of a) (tree_of b) };

    ghost laws = { on_per tree_of tree_per };

    fn eq(&self, other: &Value) -> bool {
        same(self, other)
    }
}

impl PartialEq for Numbers {
    ghost use Rattle.std.specs.Cmp.{on_per};
    ghost use Rattle.jl_value.specs.Tree.{numbers as numbers_tree};
    ghost use Rattle.jl_value.specs.Same.{tree_eq};
    ghost use Rattle.jl_value.specs.Sameness.{tree_per};

    ghost eq = { λ a b. tree_eq (numbers_tree a) (numbers_tree b) };

    ghost laws = { on_per numbers_tree tree_per };

    fn eq(&self, other: &Numbers) -> bool {
        same_numbers(self.as_slice(), other.as_slice())
    }
}

/// Whether two values are equal, as `==` tells.
pub fn are_equal(a: &Value, b: &Value) -> bool
    ensures { IsTrue result ↔ (tree_of a.now ≡ tree_of b.now) }
{
    *a == *b
}
