//! The commands: what a run reads, writes and answers.
#![tactic(auto)]

mod arguments;
mod call;
mod clear;
mod compute;
mod computed;
mod ended;
mod hash;
mod reduce;
mod texts;
mod top;
mod tracker;
mod warn;

pub use arguments::{ArgumentsFault, read_arguments};
pub use top::{run, run_plain};
