// What a listing answers.
ghost use Rattle.std.specs.Prelude.{◌≡◌, IfOk};

use jl_text::Text;
use std::alloc::AllocError;
use std::marker::Model;

/// The last part of a path that stands in a folder, and whether it names a folder.
#[derive(Debug, Drop, PartialEq)]
pub struct Name {
    pub part: Text,
    pub folder: bool,
}

impl Name {
    /// A second name that is the same.
    pub fn copy(&self) -> Result<Name, AllocError>
        ensures { IfOk result (λ n. n ≡ self.now) }
    {
        Ok(Name {
            part: self.part.copy()?,
            folder: self.folder,
        })
    }
}

/// A list of names.
#[derive(Debug, Drop)]
pub struct NameList {
    names: Vec<Name>,
}

impl Model for NameList {
    ghost use Rattle.std.specs.Prelude.{List};
    ghost use Rattle.jl_folder.specs.declared.listing.Name.{Name};

    ghost Value = { List Name };

    ghost view = { λ n. n.names.items };
}

impl NameList {
    /// The names of a vector.
    pub fn new(names: Vec<Name>) -> NameList
        ensures { result ≡ names.items }
    {
        NameList { names }
    }

    /// The names.
    pub fn as_slice(&self) -> &[Name]
        ensures { result.now ≡ self.now }
    {
        self.names.as_slice()
    }

    /// The vector of the names.
    pub fn into_vec(self) -> Vec<Name>
        ensures { result.items ≡ self }
    {
        self.names
    }
}

/// The answer of `Folder::list`. The names are in no order.
#[derive(Debug, Drop)]
pub enum Listed {
    Names(NameList),
    NoDir,
    Failed,
    NoMemory,
}
