//! Values, their canonical text and their keys.
#![tactic(auto)]

mod equal;
mod fault;
mod key;
mod library;
mod reading;
mod testing;
mod value;
mod writing;

pub use equal::are_equal;
pub use fault::ValueFault;
pub use jl_text::Text;
pub use key::{Args, Key, digest};
pub use library::{
    Called, CodeRef, Library, ModuleFault, ModuleFaultKind, Outcome, ReadModule, TaskError, is_line,
};
pub use reading::read_value;
pub use testing::TinyLibrary;
pub use value::{List, Numbers, Table, Value};
pub use writing::{canonical, canonical_table};
