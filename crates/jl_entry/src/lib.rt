//! Names and texts of the cache folder: where its files stand, and what bytes stand in them.
#![tactic(auto)]

mod codes;
mod laws;
mod moments;
mod names;
mod numbers;
mod output;
mod parts;
mod temp;

pub use codes::{same_code, write_code};
pub use laws::{folders_are_of_the_store, names_are_told_apart, texts_have_one_meaning};
pub use moments::{Metadata, read_access, read_metadata, write_access, write_metadata};
pub use names::{
    EntryFile, code_file, entry_file, entry_folder, function_folder, module_folder, root,
};
pub use output::{ReadOutput, entry_head, read_entry, read_output, write_output};
pub use parts::{is_code_name, is_entry_name, is_key_name};
pub use temp::temp_name;
