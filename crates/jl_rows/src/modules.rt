// Rows over the lines of the definition language.

use jl_lexer::Node;
use jl_module::{Definition, LineFault, find, module_fault, read_definition};
use jl_script::given::{self, RowFault};
use jl_script::told::{self, Told};
use jl_value::Value;
use std::alloc::Global;

pub fn row(alloc: Global, case: &str, given: &[Value]) -> Told {
    match case {
        "line" => line(alloc, given),
        "fault" => fault(alloc, given),
        "find" => found(alloc, given),
        _ => Err(RowFault::Bad),
    }
}

// What a line defines, or why it is no definition.
fn line(alloc: Global, given: &[Value]) -> Told {
    let line = given::bytes(alloc, given, 0)?;
    match read_definition(alloc, line.as_slice()) {
        Ok(definition) => told_definition(alloc, &definition),
        Err(LineFault::Faulty(kind)) => told::word(alloc, kind.name()),
        Err(LineFault::Memory) => Err(RowFault::Memory),
    }
}

// A definition's name and parameters, the height of its tree, and what its list or table has.
fn told_definition(alloc: Global, definition: &Definition) -> Told {
    let mut told = told::bytes(alloc, definition.name)?;
    for parameter in definition.parameters.as_slice() {
        told.push_str(" ")?;
        told.push_str(told::bytes(alloc, parameter)?.as_str())?;
    }
    let height = definition.body.height();
    write!(told, " height: {height}")?;
    told.push_str(told_members(alloc, definition.body.node())?.as_str())?;
    Ok(told)
}

// How many members a list or a table has, a table's first key, and the variable of the list by
// `for` there.
fn told_members(alloc: Global, node: &Node) -> Told {
    match node {
        Node::Listed(members) => {
            let count = members.as_slice().len();
            Ok(format!(in alloc; ", members: {count}")?)
        }
        Node::Tabled(entries) => match entries.as_slice() {
            [] => told::word(alloc, ", members: 0"),
            [entry, ..] => {
                let count = entries.as_slice().len();
                let mut told = format!(in alloc; ", members: {count}, ")?;
                told.push_str(told::text(alloc, entry.key().text().as_str())?.as_str())?;
                if let Node::Each(_, variable, _) = entry.member().node() {
                    told.push_str(" by ")?;
                    told.push_str(told::bytes(alloc, variable.bytes())?.as_str())?;
                }
                Ok(told)
            }
        },
        _ => Ok(String::new(alloc)),
    }
}

// The first fault of a module.
fn fault(alloc: Global, given: &[Value]) -> Told {
    let module = given::bytes(alloc, given, 0)?;
    match module_fault(alloc, module.as_slice())? {
        Some(fault) => told::module_fault(alloc, fault),
        None => told::word(alloc, "none"),
    }
}

// The code of a name in a module.
fn found(alloc: Global, given: &[Value]) -> Told {
    let module = given::bytes(alloc, given, 0)?;
    let name = given::bytes(alloc, given, 1)?;
    match find(module.as_slice(), name.as_slice()) {
        Some((code, line)) => told::code(alloc, code, line),
        None => told::word(alloc, "none"),
    }
}
