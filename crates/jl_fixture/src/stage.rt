// The folder in memory that the rows use one after another.

use crate::calls::call;
use crate::making::make;
use crate::places::{standing, tree_of};
use crate::script::{Script, start};
use crate::watched::Watched;
use jl_folder::{Path, Token};
use jl_memory::{MemFolder, Tree};
use jl_script::given::{self, RowFault};
use jl_script::told::Told;
use jl_value::Value;
use std::alloc::Global;

/// The folder that the rows before have left, and how the next run in it goes.
#[derive(Drop)]
pub struct Stage {
    folder: Option<MemFolder>,
    next: Option<Script>,
    noting: bool,
}

// A folder in which nothing stands.
fn new_folder(alloc: Global) -> Result<MemFolder, RowFault> {
    let token = Token::read(alloc, "w").ok().ok_or(RowFault::Bad)?;
    let none = Vec::new(alloc);
    Ok(MemFolder::new(
        alloc,
        token,
        Tree::empty(alloc),
        none,
        Vec::new(alloc),
        None,
    )?)
}

/// How many moves the run has made, and how many faults and calls it had.
pub fn counts(alloc: Global, watched: &Watched<'_>) -> Told {
    let moves = watched.inner.moves();
    let faults = watched.inner.faults();
    let calls = watched.calls();
    Ok(format!(in alloc; "{moves} moves, {faults} faults, {calls} calls")?)
}

/// An answer, and behind it what was counted and noted of the calls.
pub fn with_counts(alloc: Global, answer: &str, watched: &Watched<'_>) -> Told {
    let counts = counts(alloc, watched)?;
    let (counts, notes) = (counts.as_str(), watched.notes());
    Ok(format!(in alloc; "{answer} ({counts}){notes}")?)
}

/// The folder in which the rows of a list were made, by a run of token `w`.
pub fn made_folder(alloc: Global, rows: &[Value]) -> Result<MemFolder, RowFault> {
    let mut folder = new_folder(alloc)?;
    make(alloc, &mut folder, rows)?;
    Ok(folder)
}

impl Stage {
    pub fn new() -> Stage {
        Stage {
            folder: None,
            next: None,
            noting: false,
        }
    }

    /// Whether rows tell each call of the folder.
    pub fn is_noting(&self) -> bool {
        self.noting
    }

    /// The folder, until it is put back.
    pub fn take(&mut self) -> Result<MemFolder, RowFault> {
        self.folder.take().ok_or(RowFault::Bad)
    }

    pub fn put(&mut self, folder: MemFolder) {
        self.folder = Some(folder);
    }

    /// How the next run goes: as the row before said, or alone and of token `a`.
    pub fn next_script(&mut self, alloc: Global) -> Result<Script, RowFault> {
        match self.next.take() {
            Some(script) => Ok(script),
            None => Script::read(alloc, &Value::Null, 0),
        }
    }

    // The folder, in a further run, if a row before said how that goes.
    fn begun(&mut self) -> Result<MemFolder, RowFault> {
        let folder = self.take()?;
        match self.next.take() {
            Some(script) => start(folder, script),
            None => Ok(folder),
        }
    }

    // What stands below a path, or everywhere. This ends the run.
    fn tell_tree(&mut self, alloc: Global, given: &[Value]) -> Told {
        let top = match given.first() {
            Some(_) => given::path(alloc, given, 0)?,
            None => Path::current(alloc),
        };
        let script = self.next_script(alloc)?;
        let mut folder = start(self.take()?, script)?;
        let told = tree_of(alloc, &mut folder, top);
        self.folder = Some(folder);
        told
    }

    fn tell_standing(&mut self, alloc: Global, given: &[Value]) -> Told {
        let folder = self.take()?;
        let told = standing(alloc, &folder, given);
        self.folder = Some(folder);
        told
    }

    fn tell_counts(&mut self, alloc: Global) -> Told {
        let folder = self.take()?;
        let told = format!(in alloc; "{} moves, {} faults", folder.moves(), folder.faults());
        self.folder = Some(folder);
        Ok(told?)
    }

    fn make_all(&mut self, alloc: Global, given: &[Value]) -> Told {
        let mut folder = self.begun()?;
        let made = make(alloc, &mut folder, given);
        self.folder = Some(folder);
        made?;
        self.tell_counts(alloc)
    }

    // One call, in the run that stands or in the next.
    fn make_call(&mut self, alloc: Global, word: &str, given: &[Value]) -> Told {
        let mut folder = self.begun()?;
        let told = call(alloc, &mut folder, word, given);
        self.folder = Some(folder);
        told
    }

    // A new folder, in which a run of token `w` makes what is given.
    fn begin(&mut self, alloc: Global, given: &[Value]) -> Told {
        self.next = None;
        self.folder = Some(made_folder(alloc, given)?);
        Ok(String::new(alloc))
    }

    // Says how the next run goes, or whether rows tell each call.
    fn set(&mut self, alloc: Global, word: &str, given: &[Value]) -> Told {
        match word {
            "next" => self.next = Some(Script::read(alloc, given::argument(given, 0)?, 0)?),
            _ => self.noting = matches!(given.first(), Some(Value::Truth(true))),
        }
        Ok(String::new(alloc))
    }

    /// What a row over the folder itself tells.
    pub fn row(&mut self, alloc: Global, word: &str, given: &[Value]) -> Told {
        match word {
            "new" => self.begin(alloc, given),
            "next" | "noted" => self.set(alloc, word, given),
            "make" => self.make_all(alloc, given),
            "tree" => self.tell_tree(alloc, given),
            "there" => self.tell_standing(alloc, given),
            "counts" => self.tell_counts(alloc),
            _ => self.make_call(alloc, word, given),
        }
    }
}
