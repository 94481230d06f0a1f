// The rows of a script, and what is printed of them.

use crate::names::Names;
use jl_script::Cases;
use jl_script::given::{RowFault, arguments};
use jl_script::told::Told;
use std::alloc::Global;
use std::io;

/// Prints a line of a script, and below it what comes of it.
pub fn print_row<R: Print + AllocGlobal, C: Cases>(
    rt: &R,
    names: &mut Names,
    cases: &mut C,
    line: &str,
) -> io::Result<()> {
    println!(rt; "{line}")?;
    if line.is_empty() || line.starts_with('#') {
        return Ok(());
    }
    match tell_line(rt.alloc(), names, cases, line) {
        Ok(told) => print_told(rt, told.as_str()),
        Err(RowFault::Bad) => println!(rt; "  bad row"),
        Err(RowFault::Memory) => println!(rt; "  out of memory"),
    }
}

fn print_told<R: Print + AllocGlobal>(rt: &R, told: &str) -> io::Result<()> {
    if told.is_empty() {
        return Ok(());
    }
    for line in told.split('\n') {
        println!(rt; "  {line}")?;
    }
    Ok(())
}

// Nothing is told of a line that gives a name.
fn tell_line<C: Cases>(alloc: Global, names: &mut Names, cases: &mut C, line: &str) -> Told {
    if names.define(alloc, line)? {
        return Ok(String::new(alloc));
    }
    let row = names.expand(alloc, line)?;
    let told = tell_row(alloc, cases, row.as_str())?;
    Ok(names.shorten(alloc, told.as_str())?)
}

fn tell_row<C: Cases>(alloc: Global, cases: &mut C, row: &str) -> Told {
    let Some((word, json)) = row.split_once(' ') else {
        return Err(RowFault::Bad);
    };
    let Some((layer, case)) = word.split_once('.') else {
        return Err(RowFault::Bad);
    };
    let given = arguments(alloc, json)?;
    cases.tell(alloc, layer, case, given.as_slice())
}
