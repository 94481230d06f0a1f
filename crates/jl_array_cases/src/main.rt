//! Runs a script of cases over dump files in the folder in memory, and prints what comes.
#![tactic(auto)]

mod arrays;

use jl_fixture::{Names, Stage, print_row};
use jl_script::Cases;
use jl_script::given::RowFault;
use jl_script::told::Told;
use jl_value::Value;
use std::alloc::Global;
use std::io;
use std::io::{BufRead, BufReader};

/// The folder that all rows use.
#[derive(Drop)]
struct Layers {
    stage: Stage,
}

impl Cases for Layers {
    fn tell(&mut self, alloc: Global, layer: &str, case: &str, given: &[Value]) -> Told {
        match layer {
            "folder" => self.stage.row(alloc, case, given),
            "array" => arrays::row(alloc, &mut self.stage, case, given),
            _ => Err(RowFault::Bad),
        }
    }
}

fn main(rt: HostRuntime) -> io::Result<()> {
    let mut names = Names::new(rt.alloc());
    let mut layers = Layers {
        stage: Stage::new(),
    };
    for line in BufReader::new(rt.alloc(), rt.reader())?.lines(rt.alloc()) {
        print_row(&rt, &mut names, &mut layers, line?.as_str())?;
    }
    Ok(())
}
