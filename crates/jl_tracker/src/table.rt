// The resources of one kind.
ghost use Rattle.std.specs.Prelude.{◌≡◌, [], ◌∷◌, ℕ, Some, None, OnOk, OnErr, IsSome, MatchOption, option_map};
ghost use Rattle.jl_tracker.specs.Entries.{Registers, count_of, put, without, more_of, registered, released, release_answer, drop_answer};

use indexmap::IndexMap;
use jl_text::Text;
use std::alloc::{AllocError, Global};
use std::marker::Model;

/// What a line of the tracker did.
#[derive(Clone, Copy, Debug, PartialEq, Eq)]
pub enum Step {
    /// The resource has now so many references.
    Counted(u64),
    /// The resource is no longer counted, and stays.
    Dropped,
    /// The last reference went: the resource is no longer counted, and is to be removed.
    Remove,
    /// The resource isn't counted.
    Unknown,
    Nothing,
    NoMemory,
}

#[derive(Drop)]
pub struct Table {
    entries: IndexMap<String, u64>,
}

impl Model for Table {
    ghost use Rattle.jl_tracker.specs.Views.{view_entries};
    ghost use Rattle.jl_tracker.specs.Entries.{Entries};

    ghost Value = { Entries };

    ghost view = { λ t. view_entries t.entries.entries };
}

impl Table {
    pub fn new(alloc: Global) -> Table
        ensures { result ≡ [] }
    {
        Table {
            entries: IndexMap::new(alloc),
        }
    }

    fn count(&self, name: &str) -> Option<u64>
        ensures { result ≡ count_of name.now self.now }
    {
        self.entries.get(name).copied()
    }

    // Sets the count of a name that is there.
    fn set(&mut self, name: &str, count: u64)
        requires { IsSome (count_of name.now self.old) }
        ensures { self.new ≡ put name.now count self.old }
    {
        if let Some(index) = self.entries.get_index_of(name) {
            self.entries[index] = count;
        }
    }

    fn add(&mut self, alloc: Global, name: &str) -> Result<(), AllocError>
        requires { count_of name.now self.old ≡ None }
        ensures ok { OnOk result (self.new ≡ put name.now 1 self.old) }
        ensures err { OnErr result (self.new ≡ self.old) }
    {
        self.entries.insert(String::from_str(alloc, name)?, 1)?;
        Ok(())
    }

    fn remove(&mut self, name: &str)
        ensures { self.new ≡ without name.now self.old }
    {
        self.entries.shift_remove(name);
    }

    /// Takes out the entry that was registered first.
    pub fn take_first(&mut self) -> Option<Text>
        ensures { MatchOption result ((self.old ≡ []) × (self.new ≡ []))
            (λ name. (count : ℕ) × (self.old ≡ (name, count) ∷ self.new)) }
    {
        match self.entries.shift_remove_index(0) {
            Some((name, _count)) => Some(Text::new(name)),
            None => None,
        }
    }

    /// One reference more.
    pub fn register(&mut self, alloc: Global, name: &str) -> Step
        ensures { Registers name.now self.old self.new result }
    {
        match self.count(name) {
            Some(count) => {
                let more = count.saturating_add(1);
                self.set(name, more);
                Step::Counted(more)
            }
            None => match self.add(alloc, name) {
                Ok(()) => Step::Counted(1),
                Err(_) => Step::NoMemory,
            },
        }
    }

    /// No reference any more, and the resource stays.
    pub fn unregister(&mut self, name: &str) -> Step
        ensures answer { result ≡ drop_answer (count_of name.now self.old) }
        ensures after { self.new ≡ without name.now self.old }
    {
        if self.count(name).is_none() {
            return Step::Unknown;
        }
        self.remove(name);
        Step::Dropped
    }

    /// One reference fewer.
    pub fn may_unlink(&mut self, name: &str) -> Step
        ensures answer { result ≡ release_answer (count_of name.now self.old) }
        ensures after { self.new ≡ released name.now self.old }
    {
        let Some(count) = self.count(name) else {
            return Step::Unknown;
        };
        if count > 1 {
            self.set(name, count - 1);
            return Step::Counted(count - 1);
        }
        self.remove(name);
        Step::Remove
    }
}
