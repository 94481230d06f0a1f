//! Runs a script of cases over the crates of values, the language, the words and the store's texts,
//! and prints what comes.
#![tactic(auto)]

mod batches;
mod entries;
mod libraries;
mod modules;
mod quotas;
mod texts;
mod values;
mod words;

use jl_lang::Lang;
use jl_script::given::RowFault;
use jl_script::told::Told;
use jl_script::{Cases, print_row};
use jl_value::{TinyLibrary, Value};
use std::alloc::Global;
use std::io;
use std::io::{BufRead, BufReader};

/// The cases of these layers, each in its file.
#[derive(Drop)]
struct Layers;

impl Cases for Layers {
    fn tell(&mut self, alloc: Global, layer: &str, case: &str, given: &[Value]) -> Told {
        match layer {
            "texts" => texts::row(alloc, case, given),
            "values" => values::row(alloc, case, given),
            "tiny" => libraries::row(alloc, &mut TinyLibrary::new(alloc), case, given),
            "language" => libraries::row(alloc, &mut Lang::new(alloc), case, given),
            "modules" => modules::row(alloc, case, given),
            "batches" => batches::row(alloc, case, given),
            "quotas" => quotas::row(alloc, case, given),
            "words" => words::row(alloc, case, given),
            "entries" => entries::row(alloc, case, given),
            _ => Err(RowFault::Bad),
        }
    }
}

fn main(rt: HostRuntime) -> io::Result<()> {
    let mut layers = Layers;
    for line in BufReader::new(rt.alloc(), rt.reader())?.lines(rt.alloc()) {
        print_row(&rt, &mut layers, line?.as_str())?;
    }
    Ok(())
}
