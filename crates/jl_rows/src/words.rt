// Rows over the words of a command line.

use jl_script::given::{self, RowFault};
use jl_script::told::{self, Told};
use jl_value::Value;
use jl_words::{module_name, settings};
use std::alloc::Global;

pub fn row(alloc: Global, case: &str, given: &[Value]) -> Told {
    match case {
        "settings" => set(alloc, given),
        "module" => module(alloc, given),
        _ => Err(RowFault::Bad),
    }
}

// The words of a line, one blank between two; none where no line is given.
fn split_words(alloc: Global, given: &[Value]) -> Result<Vec<String>, RowFault> {
    let mut words = Vec::new(alloc);
    if let Some(Value::Null) = given.first() {
        return Ok(words);
    }
    let line = given::text(alloc, given, 0)?;
    for word in line.as_str().split(' ') {
        words.push(String::from_str(alloc, word)?)?;
    }
    Ok(words)
}

// What words set on a machine with 8 processors, or with as many as are given.
fn set(alloc: Global, given: &[Value]) -> Told {
    let words = split_words(alloc, given)?;
    let processors = match given.len() {
        1 => 8,
        _ => given::small_number(given, 1)?,
    };
    if processors == 0 {
        return Err(RowFault::Bad);
    }
    if processors > 1024 {
        return Err(RowFault::Bad);
    }
    match settings(alloc, words.as_slice(), processors) {
        Ok(settings) => Ok(format!(in alloc; "{settings:?}")?),
        Err(fault) => Ok(format!(in alloc; "{fault:?}")?),
    }
}

// The name of the module that a path ends with.
fn module(alloc: Global, given: &[Value]) -> Told {
    let path = given::path(alloc, given, 0)?;
    match module_name(&path) {
        Some(name) => told::text(alloc, name),
        None => told::word(alloc, "none"),
    }
}
