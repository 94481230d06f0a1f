//! The program, over the system's own files, streams and clock.
#![tactic(auto)]

mod real_folder;
mod real_host;
mod real_streams;
mod start;
mod token;

use real_host::count_processors;
use real_streams::{RealSink, RealSource};
use start::start;
use std::process::ExitCode;
use std::thread;

#[cfg(test)]
mod tests;

fn main(rt: HostRuntime) -> ExitCode {
    let processors = count_processors(thread::available_parallelism(&rt));
    let mut input = RealSource::new(rt.stdin());
    let mut out = RealSink::new(rt.stdout());
    let mut err = RealSink::new(rt.stderr());
    ExitCode::from(start(rt, processors, &mut input, &mut out, &mut err))
}
