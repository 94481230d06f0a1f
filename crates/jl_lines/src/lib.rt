//! The lines of a source, with their numbers.
#![tactic(auto)]

mod block;
mod reader;

pub use reader::{LineReader, NextLine};
