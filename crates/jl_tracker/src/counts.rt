// The counts of all resources.
ghost use Rattle.std.specs.Prelude.{◌≡◌};
ghost use Rattle.jl_tracker.specs.TrackerLines.{view_of, registers, unregisters, may_unlink};
ghost use Rattle.jl_tracker.specs.Counting.{no_counts, Applies, TakesLeaked};

use crate::line::{Kind, Line};
use crate::table::{Step, Table};
use jl_text::Text;
use std::alloc::Global;
use std::marker::Model;

/// A resource that was still counted at the end.
#[derive(Debug, Drop)]
pub struct Leaked {
    pub kind: Kind,
    pub name: Text,
}

/// How many references there are to each resource, of each kind in order of registration. A count
/// stands still at its last value.
#[derive(Drop)]
pub struct Counts {
    files: Table,
    semlocks: Table,
    folders: Table,
}

impl Model for Counts {
    ghost use Rattle.jl_tracker.specs.Counting.{CountsView};

    ghost Value = { CountsView };

    ghost view = { λ c. record { files = c.files; semlocks = c.semlocks; folders = c.folders } };
}

impl Counts {
    pub fn new(alloc: Global) -> Counts
        ensures { result ≡ no_counts }
    {
        Counts {
            files: Table::new(alloc),
            semlocks: Table::new(alloc),
            folders: Table::new(alloc),
        }
    }

    fn register(&mut self, alloc: Global, kind: Kind, name: &str) -> Step
        ensures { Applies (registers kind name.now) self.old self.new result }
    {
        match kind {
            Kind::File => self.files.register(alloc, name),
            Kind::Folder => self.folders.register(alloc, name),
            Kind::Semlock => self.semlocks.register(alloc, name),
        }
    }

    fn unregister(&mut self, kind: Kind, name: &str) -> Step
        ensures { Applies (unregisters kind name.now) self.old self.new result }
    {
        match kind {
            Kind::File => self.files.unregister(name),
            Kind::Folder => self.folders.unregister(name),
            Kind::Semlock => self.semlocks.unregister(name),
        }
    }

    fn may_unlink(&mut self, kind: Kind, name: &str) -> Step
        ensures { Applies (may_unlink kind name.now) self.old self.new result }
    {
        match kind {
            Kind::File => self.files.may_unlink(name),
            Kind::Folder => self.folders.may_unlink(name),
            Kind::Semlock => self.semlocks.may_unlink(name),
        }
    }

    /// Counts what the line says. Only a new resource takes memory.
    pub fn apply(&mut self, alloc: Global, line: &Line<'_>) -> Step
        ensures { Applies (view_of line.now) self.old self.new result }
    {
        match *line {
            Line::Register(kind, name) => self.register(alloc, kind, name),
            Line::Unregister(kind, name) => self.unregister(kind, name),
            Line::MaybeUnlink(kind, name) => self.may_unlink(kind, name),
            Line::Probe => Step::Nothing,
        }
    }

    /// Takes out the next resource that is left: files first, then semaphores, then folders, each
    /// kind in order of registration.
    pub fn finish(&mut self) -> Option<Leaked>
        ensures { TakesLeaked self.old self.new result }
    {
        if let Some(name) = self.files.take_first() {
            return Some(Leaked {
                kind: Kind::File,
                name,
            });
        }
        if let Some(name) = self.semlocks.take_first() {
            return Some(Leaked {
                kind: Kind::Semlock,
                name,
            });
        }
        match self.folders.take_first() {
            Some(name) => Some(Leaked {
                kind: Kind::Folder,
                name,
            }),
            None => None,
        }
    }
}
