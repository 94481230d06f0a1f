// What checking a function's code comes to.
use jl_folder::Path;

/// The answer of checking a function's code.
#[derive(Clone, Copy, Debug, PartialEq, Eq, Drop)]
pub enum CodeCheck {
    Same,
    Written,
    Cleared,
    Skipped,
    LoadFault,
    StoreFault,
    NoMemory,
}

// What a code's file holds.
#[derive(Clone, Copy)]
pub(crate) enum Held {
    Same,
    Absent,
    Other,
    Fault,
    NoMemory,
}

// Where a function's code stands: its folder, its final and its temporary name.
#[derive(Drop)]
pub(crate) struct CodeFiles {
    pub(crate) folder: Path,
    pub(crate) last: Path,
    pub(crate) temp: Path,
}
