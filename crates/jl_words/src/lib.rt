//! The command line: the words of a command, and what they set.
#![tactic(auto)]

mod command;
mod commands;
mod laws;
mod module;
mod parallel;
mod parser;
mod parts;
mod reader;
mod types;
mod values;
mod words;

pub use laws::{modules_have_names, targets_have_names};
pub use module::module_name;
pub use types::{Backend, Mode, Settings, SettingsFault};
pub use words::settings;
