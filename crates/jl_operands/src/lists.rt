// The values that lists are made of, and tables.
ghost use Rattle.std.specs.Prelude.{◌≡◌, IfOk, MatchResult, Some};
ghost use Rattle.jl_value.specs.Form.{tree_of, entries_of, keys_in};
ghost use Rattle.jl_value.specs.Proper.{AreKeys};
ghost use Rattle.jl_value.specs.Tree.{table as table_tree, members_of};
ghost use Rattle.jl_operands.specs.Lists.{source_of};
ghost use Rattle.jl_operands.specs.Operands.{tree_of_operand, trees_gathered};
ghost use Rattle.jl_operands.specs.Outcomes.{NoSource, pairs_in};

use crate::fault::CallFault;
use crate::gathered::Gathered;
use crate::operand::Operand;
use jl_text::Text;
use jl_value::{Table, TaskError, Value};
use std::alloc::{AllocError, Global};
use std::collections::BTreeMap;

fn source_in(value: Value) -> Result<Gathered, CallFault>
    ensures { MatchResult result
        (λ g. source_of (tree_of value) ≡ Some (trees_gathered g))
        (λ e. NoSource e (source_of (tree_of value))) }
{
    match value {
        Value::List(list) => Ok(Gathered::Values(list.into_vec())),
        Value::Numbers(numbers) => Ok(Gathered::Wholes(numbers.into_vec())),
        other => {
            drop(other);
            Err(CallFault::Task(TaskError::BadKind))
        }
    }
}

/// The members that a list goes over: those of a list or an array.
pub fn source(operand: Operand) -> Result<Gathered, CallFault>
    ensures { MatchResult result
        (λ g. source_of (tree_of_operand operand) ≡ Some (trees_gathered g))
        (λ e. NoSource e (source_of (tree_of_operand operand))) }
{
    match operand {
        Operand::Plain(value) => source_in(value),
        Operand::Wholes(numbers) => Ok(Gathered::Wholes(numbers)),
    }
}

pub(crate) fn pairs(
    alloc: Global,
    members: BTreeMap<String, Value>,
) -> Result<Vec<(Text, Value)>, AllocError>
    ensures { IfOk result (λ v. entries_of v.items ≡ pairs_in members.entries) }
{
    let mut found = Vec::new(alloc);
    for (key, member) in members {
        found.push((Text::new(key), member))?;
    }
    Ok(found)
}

// The table of keys and values that are in order.
pub(crate) fn table_of(members: Vec<(Text, Value)>) -> Value
    requires { AreKeys (keys_in members.items) }
    ensures { tree_of result ≡ table_tree (members_of (entries_of members.items)) }
{
    match Table::new(members) {
        Ok(table) => Value::Table(table),
        Err(_) => unreachable!(),
    }
}
