// Rows over the libraries: modules, their codes and their calls, by the trait alone.

use jl_script::given::{self, RowFault};
use jl_script::told::{self, Told};
use jl_value::{Args, Called, CodeRef, Library, Outcome, ReadModule, Value};
use std::alloc::Global;

pub fn row<L: Library + Drop>(alloc: Global, library: &mut L, case: &str, given: &[Value]) -> Told {
    match case {
        "read" => read(alloc, library, given),
        "call" => call(alloc, library, given),
        "code" => code(alloc, library, given),
        _ => Err(RowFault::Bad),
    }
}

fn told_module(alloc: Global, read: ReadModule) -> Told {
    match read {
        ReadModule::Read => told::word(alloc, "Read"),
        ReadModule::Fault(fault) => told::module_fault(alloc, fault),
        ReadModule::NoMemory => Err(RowFault::Memory),
    }
}

// What comes of the modules, read one after another.
fn read<L: Library>(alloc: Global, library: &mut L, modules: &[Value]) -> Told {
    let mut told = String::new(alloc);
    for place in 0..modules.len() {
        let bytes = given::bytes(alloc, modules, place)?;
        let line = told_module(alloc, library.read_module(alloc, bytes.as_slice()))?;
        if place > 0 {
            told.push_str("\n")?;
        }
        told.push_str(line.as_str())?;
    }
    Ok(told)
}

// A name's code after all modules were read, and what a twin says of it.
fn code<L: Library + Drop>(alloc: Global, library: &mut L, given: &[Value]) -> Told {
    let [_, modules @ ..] = given else {
        return Err(RowFault::Bad);
    };
    let _read = read(alloc, library, modules)?;
    let name = given::text(alloc, given, 0)?;
    let own = told_code(alloc, library, name.as_str())?;
    let twin = told_code(alloc, &library.twin(alloc)?, name.as_str())?;
    Ok(format!(in alloc; "{}\n{}", own.as_str(), twin.as_str())?)
}

fn told_code<L: Library>(alloc: Global, library: &L, name: &str) -> Told {
    match library.code_of(name) {
        Some(CodeRef { code, line }) => told::code(alloc, code, line),
        None => told::word(alloc, "no code"),
    }
}

// What a name answers on arguments after all modules were read.
fn call<L: Library>(alloc: Global, library: &mut L, given: &[Value]) -> Told {
    let [_, table, modules @ ..] = given else {
        return Err(RowFault::Bad);
    };
    let _read = read(alloc, library, modules)?;
    let name = given::text(alloc, given, 0)?;
    match Args::from_value(table.copy(alloc)?) {
        Ok(args) => told_call(alloc, library, name.as_str(), &args),
        Err(_) => Err(RowFault::Bad),
    }
}

fn told_call<L: Library>(alloc: Global, library: &mut L, name: &str, args: &Args) -> Told {
    if library.code_of(name).is_none() {
        return told::word(alloc, "no code");
    }
    match library.call(alloc, name, args) {
        Called::Done(Outcome::Value(value)) => told::value(alloc, &value),
        Called::Done(Outcome::Error(error)) => told::word(alloc, error.name()),
        Called::NoMemory => Err(RowFault::Memory),
    }
}
