//! Runs a script of cases over the streams and the host in memory, and lines, and prints what
//! comes.
#![tactic(auto)]

mod lines;
mod streams;

use jl_fixture::{Names, print_row};
use jl_script::Cases;
use jl_script::given::RowFault;
use jl_script::told::Told;
use jl_value::Value;
use std::alloc::Global;
use std::io;
use std::io::{BufRead, BufReader};

/// The cases of these layers, each in its file.
#[derive(Drop)]
struct Layers;

impl Cases for Layers {
    fn tell(&mut self, alloc: Global, layer: &str, case: &str, given: &[Value]) -> Told {
        match layer {
            "streams" => streams::row(alloc, case, given),
            "lines" => lines::row(alloc, case, given),
            _ => Err(RowFault::Bad),
        }
    }
}

fn main(rt: HostRuntime) -> io::Result<()> {
    let mut names = Names::new(rt.alloc());
    let mut layers = Layers;
    for line in BufReader::new(rt.alloc(), rt.reader())?.lines(rt.alloc()) {
        print_row(&rt, &mut names, &mut layers, line?.as_str())?;
    }
    Ok(())
}
