// What a row gives: its arguments, and the forms of bytes that are long or no text.

ghost use Rattle.std.specs.Prelude.{◌≤◌, IfOk};
ghost use Rattle.jl_value.specs.Tree.{nesting};
ghost use Rattle.jl_value.specs.Form.{tree_of};
ghost use Rattle.jl_value.specs.Key.{args_tree};

use jl_text::{Path, Text, Token};
use jl_value::{Args, Value, ValueFault, read_value};
use std::alloc::{AllocError, AllocFailed, Global};

/// Why nothing comes of a row.
#[derive(Clone, Copy, Debug, PartialEq, Eq, Drop)]
pub enum RowFault {
    /// A row of no case, or with other arguments than its case takes.
    Bad,
    Memory,
}

impl From<AllocError> for RowFault {
    fn from(_refused: AllocError) -> RowFault {
        RowFault::Memory
    }
}

impl<T: Drop> From<AllocFailed<T>> for RowFault {
    fn from(_refused: AllocFailed<T>) -> RowFault {
        RowFault::Memory
    }
}

fn value_of(alloc: Global, json: &str) -> Result<Value, RowFault>
    ensures { IfOk result (λ v. nesting (tree_of v) ≤ 64) }
{
    match read_value(alloc, json.as_bytes(), 64) {
        Ok(value) => Ok(value),
        Err(ValueFault::Memory) => Err(RowFault::Memory),
        Err(_) => Err(RowFault::Bad),
    }
}

/// The arguments of a row: the members of the list that a text spells, or the one value that is no
/// list.
pub fn arguments(alloc: Global, json: &str) -> Result<Vec<Value>, RowFault> {
    match value_of(alloc, json)? {
        Value::List(list) => Ok(list.into_vec()),
        other => {
            let mut alone = Vec::new(alloc);
            alone.push(other)?;
            Ok(alone)
        }
    }
}

pub fn argument(given: &[Value], place: usize) -> Result<&Value, RowFault> {
    given.get(place).ok_or(RowFault::Bad)
}

/// A number from 0: a whole number, or its digits in a text.
pub fn number(given: &[Value], place: usize) -> Result<u64, RowFault> {
    match argument(given, place)? {
        Value::Whole(whole) => u64::try_from(*whole).ok().ok_or(RowFault::Bad),
        Value::Text(text) => text.as_str().parse::<u64>().ok().ok_or(RowFault::Bad),
        _ => Err(RowFault::Bad),
    }
}

/// A number of 32 bits.
pub fn small_number(given: &[Value], place: usize) -> Result<u32, RowFault> {
    u32::try_from(number(given, place)?)
        .ok()
        .ok_or(RowFault::Bad)
}

pub fn whole(given: &[Value], place: usize) -> Result<i64, RowFault> {
    match argument(given, place)? {
        Value::Whole(whole) => Ok(*whole),
        _ => Err(RowFault::Bad),
    }
}

/// Bytes: a text, `{"hex": DIGITS}`, `{"repeat": [TEXT, COUNT]}`, or `{"join": [..]}` of these.
pub fn bytes(alloc: Global, given: &[Value], place: usize) -> Result<Vec<u8>, RowFault> {
    let value = argument(given, place)?;
    let mut out = Vec::new(alloc);
    match list_at(value, "join") {
        Some(parts) => {
            for part in parts {
                add_part(alloc, &mut out, part)?;
            }
        }
        None => add_part(alloc, &mut out, value)?,
    }
    Ok(out)
}

/// A text in the forms of bytes.
pub fn text(alloc: Global, given: &[Value], place: usize) -> Result<Text, RowFault> {
    let bytes = bytes(alloc, given, place)?;
    match String::from_utf8(bytes) {
        Ok(text) => Ok(Text::new(text)),
        Err(_) => Err(RowFault::Bad),
    }
}

pub fn path(alloc: Global, given: &[Value], place: usize) -> Result<Path, RowFault> {
    let text = text(alloc, given, place)?;
    Path::read(alloc, text.as_str()).ok().ok_or(RowFault::Bad)
}

pub fn token(alloc: Global, given: &[Value], place: usize) -> Result<Token, RowFault> {
    let text = text(alloc, given, place)?;
    Token::read(alloc, text.as_str()).ok().ok_or(RowFault::Bad)
}

/// The value that a text spells.
pub fn value(alloc: Global, given: &[Value], place: usize) -> Result<Value, RowFault>
    ensures { IfOk result (λ v. nesting (tree_of v) ≤ 64) }
{
    let text = text(alloc, given, place)?;
    value_of(alloc, text.as_str())
}

/// The arguments that a text spells.
pub fn args(alloc: Global, given: &[Value], place: usize) -> Result<Args, RowFault>
    ensures { IfOk result (λ a. nesting (args_tree a) ≤ 64) }
{
    match Args::from_value(value(alloc, given, place)?) {
        Ok(args) => Ok(args),
        Err(_) => Err(RowFault::Bad),
    }
}

// What a table has under the one key that it has.
fn alone_at<'a>(value: &'a Value, name: &str) -> Option<&'a Value> {
    let Value::Table(table) = value else {
        return None;
    };
    match table.members() {
        [(key, member)] if key.as_str() == name => Some(member),
        _ => None,
    }
}

fn list_at<'a>(value: &'a Value, name: &str) -> Option<&'a [Value]> {
    match alone_at(value, name)? {
        Value::List(list) => Some(list.as_slice()),
        _ => None,
    }
}

fn add_part(alloc: Global, out: &mut Vec<u8>, part: &Value) -> Result<(), RowFault> {
    match list_at(part, "repeat") {
        Some([text, Value::Whole(count)]) => {
            for _ in 0..*count {
                add_alone(alloc, out, text)?;
            }
            Ok(())
        }
        Some(_) => Err(RowFault::Bad),
        None => add_alone(alloc, out, part),
    }
}

fn add_alone(alloc: Global, out: &mut Vec<u8>, part: &Value) -> Result<(), RowFault> {
    if let Value::Text(text) = part {
        out.extend_from_slice(text.as_str().as_bytes())?;
        return Ok(());
    }
    let Some(Value::Text(digits)) = alone_at(part, "hex") else {
        return Err(RowFault::Bad);
    };
    let bytes = hex::decode(alloc, digits.as_str())
        .ok()
        .ok_or(RowFault::Bad)?;
    out.extend_from_slice(bytes.as_slice())?;
    Ok(())
}
