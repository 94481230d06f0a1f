//! A folder of files as one run sees it beside others: its states, moves and calls, and the reading
//! of a file.
#![tactic(auto)]

mod folder;
mod law;
mod listing;
mod moves;
mod open_table;
mod read;

pub use folder::{
    Appended, Created, FileNo, Folder, MadeDir, Opened, ReadAt, Removed, RemovedDir, Renamed,
    SizeOf,
};
pub use jl_text::{Bytes, Path, PathFault, Text, Token, TokenFault};
pub use law::moves_keep_states;
pub use listing::{Listed, Name, NameList};
pub use moves::{Move, Node, OpenFile, Place};
pub use open_table::{close_at, file_at, open_next};
pub use read::{FileRead, OpenRead, read_file, read_open};
