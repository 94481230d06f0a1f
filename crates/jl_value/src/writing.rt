// The canonical text of values.
ghost use Rattle.std.specs.Prelude.{◌≡◌, ◌≤◌, ℕ, [], ◌++◌, IfOk, OnOk};
ghost use Rattle.jl_value.specs.Walked.{read_bytes};
ghost use Rattle.json.specs.Print.{print};
ghost use Rattle.jl_value.specs.Key.{args_tree};
ghost use Rattle.jl_value.specs.Tree.{Tree, items_of, members_of, nesting};
ghost use Rattle.jl_value.specs.Form.{tree_of, trees_of, entries_of, keys_in};
ghost use Rattle.jl_value.specs.Canonical.{text_of};
ghost use Rattle.jl_value.specs.Tokens.{tokens_of, list_tokens, table_tokens, numbers_tokens};
ghost use Rattle.jl_value.specs.Proper.{IsProper, AreProper, HasProper, AllFitI64, AreKeys};

use crate::value::{Table, Value};
use jl_text::Text;
use json::Writer;
use std::alloc::{AllocError, Global};

/// The canonical text of a value: compact JSON, an array as `{"$i64":[1,2]}`.
pub fn canonical(alloc: Global, value: &Value) -> Result<Text, AllocError>
    ensures text { IfOk result (λ t. t ≡ text_of (tree_of value.now)) }
    ensures proper { OnOk result (IsProper (tree_of value.now)) }
    ensures reads_back { IfOk result (λ t. (depth : ℕ) → nesting (tree_of value.now) ≤ depth
        → depth ≤ 127 → read_bytes depth t ≡ Ok (tree_of value.now)) }
    ensures alone { IfOk result (λ t. (other : Tree) → IsProper other → text_of other ≡ t
        → other ≡ tree_of value.now) }
{
    let mut writer = Writer::new(Vec::new(alloc));
    write(value, &mut writer)?;
    text(writer)
}

/// The canonical text of a table.
pub fn canonical_table(alloc: Global, table: &Table) -> Result<Text, AllocError>
    ensures text { IfOk result (λ t. t ≡ text_of (args_tree table.now)) }
    ensures proper { OnOk result (IsProper (args_tree table.now)) }
{
    let mut writer = Writer::new(Vec::new(alloc));
    writer.begin_object()?;
    write_table(table.members(), &mut writer)?;
    text(writer)
}

fn text(writer: Writer) -> Result<Text, AllocError>
    requires { writer.before ≡ [] }
    ensures { IfOk result (λ t. t ≡ print writer.tokens) }
{
    let bytes = writer.into_inner();
    match String::from_utf8(bytes) {
        Ok(text) => Ok(Text::new(text)),
        Err(_) => Err(AllocError),
    }
}

#[cycle(write)]
fn write(value: &Value, writer: &mut Writer) -> Result<(), AllocError>
    ensures tokens { OnOk result (writer.new.tokens
        ≡ writer.old.tokens ++ tokens_of (tree_of value.now)) }
    ensures before { OnOk result (writer.new.before ≡ writer.old.before) }
    ensures proper { OnOk result (IsProper (tree_of value.now)) }
{
    match value {
        Value::Null => writer.null(),
        Value::Truth(b) => writer.boolean(*b),
        Value::Whole(n) => writer.i64(*n),
        Value::Text(text) => writer.string(text.as_str()),
        Value::List(list) => {
            writer.begin_array()?;
            write_list(list.as_slice(), writer)
        }
        Value::Table(table) => {
            writer.begin_object()?;
            write_table(table.members(), writer)
        }
        Value::Numbers(numbers) => {
            writer.begin_object()?;
            writer.key("$i64")?;
            writer.begin_array()?;
            write_numbers(numbers.as_slice(), writer)?;
            writer.end_object()
        }
    }
}

#[cycle(write)]
fn write_list(members: &[Value], writer: &mut Writer) -> Result<(), AllocError>
    ensures tokens { OnOk result (writer.new.tokens
        ≡ writer.old.tokens ++ list_tokens members.now) }
    ensures before { OnOk result (writer.new.before ≡ writer.old.before) }
    ensures proper { OnOk result (AreProper (items_of (trees_of members.now))) }
{
    for member in members {
        write(member, writer)?;
    }
    writer.end_array()
}

#[cycle(write)]
fn write_table(members: &[(Text, Value)], writer: &mut Writer) -> Result<(), AllocError>
    ensures tokens { OnOk result (writer.new.tokens
        ≡ writer.old.tokens ++ table_tokens members.now) }
    ensures before { OnOk result (writer.new.before ≡ writer.old.before) }
    ensures proper { OnOk result (HasProper (members_of (entries_of members.now))) }
{
    for (key, member) in members {
        writer.key(key.as_str())?;
        write(member, writer)?;
    }
    writer.end_object()
}

fn write_numbers(numbers: &[i64], writer: &mut Writer) -> Result<(), AllocError>
    ensures tokens { OnOk result (writer.new.tokens
        ≡ writer.old.tokens ++ numbers_tokens numbers.now) }
    ensures before { OnOk result (writer.new.before ≡ writer.old.before) }
    ensures proper { OnOk result (AllFitI64 numbers.now) }
{
    for n in numbers {
        writer.i64(*n)?;
    }
    writer.end_array()
}
