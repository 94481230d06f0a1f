//! The reader that makes the tree of an expression of the definition language of its signs.
#![tactic(auto)]

mod ends;
mod lists;
mod reader;

pub use reader::{Stop, read_expression};
