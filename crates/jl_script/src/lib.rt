//! Scripts of cases: a row's arguments, what is told of a result, and the printing of both.
//!
//! A blank line or one that begins with `#` is printed as it is. Any other line is a row,
//! `LAYER.CASE JSON`: the case's
//! arguments are the members of the list, or the one value that is no list. What comes is printed
//! below it, behind two
//! blanks. A row of no case, or with other arguments than its case takes, is told as a bad row.
#![tactic(auto)]

pub mod given;
pub mod told;

use given::{RowFault, arguments};
use jl_value::Value;
use std::alloc::Global;
use std::io;
use told::Told;

/// The cases that the rows of a script name.
pub trait Cases {
    /// What comes of a case on these arguments.
    fn tell(&mut self, alloc: Global, layer: &str, case: &str, given: &[Value]) -> Told;
}

/// Prints a line of a script, and below it what comes of it.
pub fn print_row<R: Print + AllocGlobal, C: Cases>(
    rt: &R,
    cases: &mut C,
    line: &str,
) -> io::Result<()> {
    println!(rt; "{line}")?;
    if line.is_empty() || line.starts_with('#') {
        return Ok(());
    }
    match tell_row(rt.alloc(), cases, line) {
        Ok(told) => print_told(rt, told.as_str()),
        Err(RowFault::Bad) => println!(rt; "  bad row"),
        Err(RowFault::Memory) => println!(rt; "  out of memory"),
    }
}

fn print_told<R: Print + AllocGlobal>(rt: &R, told: &str) -> io::Result<()> {
    for line in told.split('\n') {
        println!(rt; "  {line}")?;
    }
    Ok(())
}

fn tell_row<C: Cases>(alloc: Global, cases: &mut C, line: &str) -> Told {
    let Some((word, json)) = line.split_once(' ') else {
        return Err(RowFault::Bad);
    };
    let Some((layer, case)) = word.split_once('.') else {
        return Err(RowFault::Bad);
    };
    let given = arguments(alloc, json)?;
    cases.tell(alloc, layer, case, given.as_slice())
}
