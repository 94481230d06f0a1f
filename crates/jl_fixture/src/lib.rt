//! Scripts of cases over a folder, streams and a host in memory: what the rows give, the folder that they use one after
//! another, and what is told of it.
//!
//! A blank line or one that begins with `#` is printed as it is. `@NAME = TEXT` names a text: in the rows below it the name
//! stands for the text, and what is told has the name for the text. Any other line is a row, `LAYER.CASE JSON`: the case's
//! arguments are the members of the list, or the one value that is no list. What comes is printed below it, behind two
//! blanks. A row of no case, or with other arguments than its case takes, is told as a bad row.
#![tactic(auto)]

mod calls;
mod making;
pub mod members;
mod names;
mod places;
mod rows;
mod script;
mod stage;
pub mod streams;
mod watched;

pub use names::Names;
pub use rows::print_row;
pub use script::{Script, start};
pub use stage::{Stage, made_folder, with_counts};
pub use watched::{Watched, WatchedSource};
