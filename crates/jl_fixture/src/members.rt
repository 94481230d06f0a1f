// What a row gives under names: the members of a table.

use jl_script::given::{self, RowFault};
use jl_text::{Text, Token};
use jl_value::Value;
use std::alloc::Global;
use std::slice;

/// The members of a list: none, if the value is no list.
pub fn members_of(value: &Value) -> &[Value] {
    match value {
        Value::List(list) => list.as_slice(),
        _ => &[],
    }
}

/// What a table has under a name.
pub fn member<'a>(table: &'a Value, name: &str) -> Option<&'a Value> {
    let Value::Table(table) = table else {
        return None;
    };
    for (key, value) in table.members() {
        if key.as_str() == name {
            return Some(value);
        }
    }
    None
}

/// The members of the list under a name.
pub fn list<'a>(table: &'a Value, name: &str) -> &'a [Value] {
    match member(table, name) {
        Some(value) => members_of(value),
        None => &[],
    }
}

/// The bytes under a name: none, if there is no such name.
pub fn bytes(alloc: Global, table: &Value, name: &str) -> Result<Vec<u8>, RowFault> {
    match member(table, name) {
        Some(value) => given::bytes(alloc, slice::from_ref(value), 0),
        None => Ok(Vec::new(alloc)),
    }
}

/// The number under a name.
pub fn number(table: &Value, name: &str) -> Result<Option<u64>, RowFault> {
    match member(table, name) {
        Some(value) => Ok(Some(given::number(slice::from_ref(value), 0)?)),
        None => Ok(None),
    }
}

/// The numbers of the list under a name, each raised by so much.
pub fn numbers(alloc: Global, table: &Value, name: &str, by: u64) -> Result<Vec<u64>, RowFault> {
    let members = list(table, name);
    let mut numbers = Vec::new(alloc);
    for place in 0..members.len() {
        numbers.push(given::number(members, place)?.saturating_add(by))?;
    }
    Ok(numbers)
}

/// The text under a name, or another one, if there is no such name.
pub fn text(alloc: Global, table: &Value, name: &str, other: &str) -> Result<Text, RowFault> {
    match member(table, name) {
        Some(value) => given::text(alloc, slice::from_ref(value), 0),
        None => Ok(Text::new(String::from_str(alloc, other)?)),
    }
}

/// The token under a name, or `a`, if there is no such name.
pub fn token(alloc: Global, table: &Value, name: &str) -> Result<Token, RowFault> {
    let text = text(alloc, table, name, "a")?;
    Token::read(alloc, text.as_str()).ok().ok_or(RowFault::Bad)
}
