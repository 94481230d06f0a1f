// Values read from JSON text.
ghost use Rattle.std.specs.Prelude.{◌≡◌, ◌≢◌, ◌⊎◌, ◌≤◌, ◌∷◌, [], Some, None, true, false, IfOk, OnOk, IfErr, MatchResult, option_map, IfSome};
ghost use Rattle.jl_value.specs.declared.fault.ValueFault.TheVariants.{Memory};
ghost use Rattle.serde_json.specs.View.{view, items_view, members_view};
ghost use Rattle.jl_value.specs.Tree.{items_of, members_of, nesting};
ghost use Rattle.jl_value.specs.Form.{tree_of, trees_of, entries_of, keys_in};
ghost use Rattle.jl_value.specs.Reading.{walk as walk_of, walk_items as walk_items_of, walk_members as walk_members_of, array_in, array_within, has_array_key};
ghost use Rattle.jl_value.specs.Walked.{read_bytes, array_among};
ghost use Rattle.jl_value.specs.Proper.{IsProper, AreProper, HasProper, AllFitI64, AreKeys};

use crate::fault::ValueFault;
use crate::value::{List, Numbers, Table, Value};
use jl_text::Text;
use serde_json::error::Category;
use serde_json::{Map, Value as Json};
use std::alloc::{AllocError, Global};

/// The value that JSON text is, with lists and tables nested no deeper than `depth`.
///
/// The first fault in the order of the text's canonical form is answered, a node's before its
/// members'. Of two members with one name the later stands. An array counts as two levels.
pub fn read_value(alloc: Global, bytes: &[u8], depth: u32) -> Result<Value, ValueFault>
    requires { depth ≤ 100 }
    ensures ok { IfOk result (λ v. read_bytes depth bytes.now ≡ Ok (tree_of v)) }
    ensures fault { IfErr result (λ e. e ≢ Memory → read_bytes depth bytes.now ≡ Err e) }
    ensures proper { IfOk result (λ v. IsProper (tree_of v)) }
    ensures nests { IfOk result (λ v. nesting (tree_of v) ≤ depth) }
{
    match Json::from_slice(alloc, bytes) {
        Ok(json) => walk(alloc, &json, depth),
        Err(error) => match error.classify() {
            Category::Memory => Err(ValueFault::Memory),
            _ => Err(ValueFault::NotJson),
        },
    }
}

#[cycle(walk)]
fn walk(alloc: Global, json: &Json, depth: u32) -> Result<Value, ValueFault>
    ensures ok { IfOk result (λ v. walk_of depth (view json.now) ≡ Ok (tree_of v)) }
    ensures fault { IfErr result (λ e. e ≢ Memory → walk_of depth (view json.now) ≡ Err e) }
    ensures proper { IfOk result (λ v. IsProper (tree_of v)) }
{
    match json {
        Json::Null => Ok(Value::Null),
        Json::Bool(b) => Ok(Value::Truth(*b)),
        Json::Number(n) => match n.as_i64() {
            Some(n) => Ok(Value::Whole(n)),
            None => Err(ValueFault::NotWhole),
        },
        Json::String(text) => Ok(Value::Text(Text::new(String::from_str(alloc, text.as_str())?))),
        Json::Array(items) => {
            if depth == 0 {
                return Err(ValueFault::TooDeep);
            }
            Ok(Value::List(List::new(walk_items(alloc, items, depth - 1)?)))
        }
        Json::Object(members) => {
            if depth == 0 {
                return Err(ValueFault::TooDeep);
            }
            match json.get("$i64") {
                None => {
                    let found = walk_members(alloc, members, depth - 1)?;
                    Ok(Value::Table(Table::from_sorted(found)))
                }
                Some(array) => walk_array(alloc, array, members.len(), depth - 1),
            }
        }
    }
}

#[cycle(walk)]
fn walk_items(alloc: Global, items: &Vec<Json>, depth: u32) -> Result<Vec<Value>, ValueFault>
    ensures ok { IfOk result
        (λ v. walk_items_of depth (items_view items.now.items) ≡ Ok (items_of (trees_of v.items))) }
    ensures fault { IfErr result
        (λ e. e ≢ Memory → walk_items_of depth (items_view items.now.items) ≡ Err e) }
    ensures proper { IfOk result (λ v. AreProper (items_of (trees_of v.items))) }
{
    let mut found = Vec::new(alloc);
    for item in items {
        found.push(walk(alloc, item, depth)?)?;
    }
    Ok(found)
}

#[cycle(walk)]
fn walk_members(
    alloc: Global,
    members: &Map<String, Json>,
    depth: u32,
) -> Result<Vec<(Text, Value)>, ValueFault>
    ensures ok { IfOk result
        (λ v. walk_members_of depth (members_view members.now.entries)
        ≡ Ok (members_of (entries_of v.items))) }
    ensures fault { IfErr result
        (λ e. e ≢ Memory → walk_members_of depth (members_view members.now.entries) ≡ Err e) }
    ensures proper { IfOk result (λ v. HasProper (members_of (entries_of v.items))) }
    ensures keys { has_array_key (members_view members.now.entries) ≡ false
        → IfOk result (λ v. AreKeys (keys_in v.items)) }
{
    let mut found = Vec::new(alloc);
    for (key, member) in members.iter() {
        let name = Text::new(String::from_str(alloc, key.as_str())?);
        let value = walk(alloc, member, depth)?;
        found.push((name, value))?;
    }
    Ok(found)
}

// The array that an object is, which has this many members and `array` at the array key.
fn walk_array(alloc: Global, array: &Json, len: usize, depth: u32) -> Result<Value, ValueFault>
    ensures ok { IfOk result
        (λ v. array_within depth (array_among len (view array.now)) ≡ Ok (tree_of v)) }
    ensures fault { IfErr result
        (λ e. e ≢ Memory → array_within depth (array_among len (view array.now)) ≡ Err e) }
    ensures proper { IfOk result (λ v. IsProper (tree_of v)) }
{
    if len != 1 {
        return Err(ValueFault::BadArray);
    }
    let Some(numbers) = wholes(alloc, array)? else {
        return Err(ValueFault::BadArray);
    };
    if depth == 0 {
        return Err(ValueFault::TooDeep);
    }
    Ok(Value::Numbers(Numbers::new(numbers)))
}

// The numbers of a list of whole numbers.
fn wholes(alloc: Global, array: &Json) -> Result<Option<Vec<i64>>, AllocError>
    ensures value { IfOk result (λ o. option_map (λ v. v.items) o ≡ array_in (view array.now)) }
    ensures whole { IfOk result (λ o. IfSome o (λ v. AllFitI64 v.items)) }
{
    let Json::Array(items) = array else {
        return Ok(None);
    };
    let mut found = Vec::new(alloc);
    for item in items {
        let Some(n) = item.as_i64() else {
            return Ok(None);
        };
        found.push(n)?;
    }
    Ok(Some(found))
}
