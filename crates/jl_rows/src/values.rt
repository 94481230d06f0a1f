// Rows over values, their canonical text and their keys.

use jl_script::given::{self, RowFault};
use jl_script::told::{self, Told};
use jl_value::{
    ModuleFaultKind, Numbers, Outcome, Table, TaskError, Value, are_equal, canonical_table, digest,
    read_value,
};
use std::alloc::Global;

pub fn row(alloc: Global, case: &str, given: &[Value]) -> Told {
    match case {
        "read" => read(alloc, given),
        "equal" => equal(alloc, given),
        "outcome" => outcome(alloc, given),
        "numbers" => numbers(alloc, given),
        "args" => args(alloc, given),
        "table" => table(alloc, given),
        "names" => names(alloc),
        _ => Err(RowFault::Bad),
    }
}

// The canonical text of the value that bytes spell, or why they spell none. Lists nest 64 deep.
fn read(alloc: Global, given: &[Value]) -> Told {
    let bytes = given::bytes(alloc, given, 0)?;
    match read_value(alloc, bytes.as_slice(), 64) {
        Ok(value) => told::value(alloc, &value),
        Err(fault) => Ok(format!(in alloc; "{fault:?}")?),
    }
}

// Whether two values are equal, and a value and its copy, by the function and by the operator.
fn equal(alloc: Global, given: &[Value]) -> Told {
    let left = given::value(alloc, given, 0)?;
    let right = given::value(alloc, given, 1)?;
    let copy = left.copy(alloc)?;
    let (function, operator) = (are_equal(&left, &right), left == right);
    let (copied, same) = (are_equal(&left, &copy), left == copy);
    Ok(format!(in alloc; "{function} {operator} copy: {copied} {same}")?)
}

// Whether an outcome equals its copy and an error.
fn outcome(alloc: Global, given: &[Value]) -> Told {
    let outcome = Outcome::Value(given::value(alloc, given, 0)?);
    let copy = outcome.copy(alloc)? == outcome;
    let error = outcome == Outcome::Error(TaskError::Overflow);
    Ok(format!(in alloc; "copy: {copy}, error: {error}")?)
}

fn numbers(alloc: Global, given: &[Value]) -> Told {
    let Some(Value::Numbers(given)) = given.first() else {
        return Err(RowFault::Bad);
    };
    let copy = given.copy(alloc)?;
    let same = copy == *given;
    let again = Value::Numbers(Numbers::new(copy.into_vec()));
    let shown = told::value(alloc, &again)?;
    Ok(format!(in alloc; "{} copy: {same}", shown.as_str())?)
}

// The canonical text of arguments and their key, and whether their copy and other arguments equal
// them.
fn args(alloc: Global, given: &[Value]) -> Told {
    let args = given::args(alloc, given, 0)?;
    let text = canonical_table(alloc, args.value())?;
    let key = told::key(alloc, &digest(alloc, &args)?)?;
    let copy = args.copy(alloc)? == args;
    let other = given::args(alloc, given, 1)? == args;
    let (text, key) = (text.as_str(), key.as_str());
    Ok(format!(in alloc; "{text} key: {key}, copy: {copy}, other: {other}")?)
}

// How many members a table of two names has, or how many are handed back.
fn table(alloc: Global, given: &[Value]) -> Told {
    let mut members = Vec::new(alloc);
    for place in 0..given.len() {
        let name = given::text(alloc, given, place)?;
        members.push((name, Value::Null))?;
    }
    match Table::new(members) {
        Ok(table) => Ok(format!(in alloc; "table of {}", table.members().len())?),
        Err(back) => Ok(format!(in alloc; "back: {}", back.len())?),
    }
}

fn names(alloc: Global) -> Told {
    Ok(format!(in alloc;
        "{} {} {} {}",
        TaskError::BadKind,
        ModuleFaultKind::Twice,
        TaskError::Overflow.name(),
        ModuleFaultKind::TooLarge.name()
    )?)
}
