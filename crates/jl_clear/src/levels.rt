// What of a cache stands in which of its folders.
ghost use Rattle.std.specs.Prelude.{◌↔◌, IsTrue};
ghost use Rattle.jl_clear.specs.Levels.{IsLevelName, IsKindName};

use jl_entry::{is_code_name, is_entry_name, is_key_name};
use jl_text::is_name;

/// A folder of a cache below its root: a module's stands in the root, a function's in a module's,
/// and an entry's in a function's.
#[derive(Clone, Copy, Debug, PartialEq, Eq, Drop)]
pub enum Level {
    Module,
    Function,
    Entry,
}

impl Level {
    /// Whether a folder of this level can have this name.
    pub fn is_name(self, part: &str) -> bool
        ensures { IsTrue result ↔ IsLevelName self part.now }
    {
        match self {
            Level::Module => is_name(part),
            Level::Function => is_name(part),
            Level::Entry => is_key_name(part),
        }
    }
}

/// What of a cache can stand at a name: a folder, the file of a function's code,
/// or one of an entry's files.
#[derive(Clone, Copy)]
pub(crate) enum Kind {
    Folder(Level),
    Code,
    EntryFile,
}

impl Kind {
    /// Whether such a thing can have this name.
    pub(crate) fn is_name(self, part: &str) -> bool
        ensures { IsTrue result ↔ IsKindName self part.now }
    {
        match self {
            Kind::Folder(level) => level.is_name(part),
            Kind::Code => is_code_name(part),
            Kind::EntryFile => is_entry_name(part),
        }
    }
}
