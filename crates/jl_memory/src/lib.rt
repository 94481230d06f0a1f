//! A folder in memory, in which others move between the calls.
#![tactic(auto)]

mod acts;
mod calls;
mod children;
mod copying;
mod disk;
mod memory;
mod script;
mod tables;
mod tree;

pub use memory::MemFolder;
pub use script::{OtherMoves, Stop, are_foreign};
pub use tree::{FileList, NodeList, PathList, Tree};
