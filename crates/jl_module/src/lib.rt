//! The definition language's lines and modules: definitions, the names that they may use, and
//! faults.
#![tactic(auto)]

mod fault;
mod known;
mod laws;
mod module;
mod names;
mod reader;

pub use fault::LineFault;
pub use laws::{
    a_bad_line_breaks_off, a_code_defines_its_name, a_code_is_one_line,
    a_line_is_judged_by_its_tree, a_line_is_too_deep_for_its_brackets_or_its_tree,
};
pub use module::{find, module_fault};
pub use names::Names;
pub use reader::{Definition, read_definition};
