// What the calls of a folder in memory do once they have begun.
ghost use Rattle.std.specs.Prelude.{◌≡◌, ◌≢◌, ◌<◌, length};
ghost use Rattle.jl_folder.specs.Calls.{MakesDir, CreatesFile, AppendsBytes, RenamesFile, RemovesFile, RemovesFolder, OpensFile, ReadsBytes, ReadsWithin, SizesFile, IsMade, IsOpen, CreatedOpens, OpenedOpens};
ghost use Rattle.jl_folder.specs.Listing.{ListsParts};
ghost use Rattle.jl_folder.specs.OpenTable.{opens_of};
ghost use Rattle.jl_memory.specs.Memory.{mem_state, IsTold};
ghost use Rattle.jl_memory.specs.Scripts.{AppendsAll, ReadsAll, TakesLeast};
ghost use Rattle.jl_memory.specs.Children.{ListsHere};
ghost use Rattle.jl_memory.specs.Steps.{Acts};

use crate::children::children;
use crate::copying::copy_out;
use crate::memory::MemFolder;
use crate::script::fresh_number;
use crate::tables::{has_child, node_of};
use jl_folder::{
    Appended, Created, FileNo, Listed, MadeDir, Move, NameList, OpenFile, Opened, ReadAt, Removed,
    RemovedDir, Renamed, SizeOf, file_at, open_next,
};
use jl_text::Path;

impl MemFolder {
    pub(crate) fn put_dir(&mut self, path: &Path) -> MadeDir
        ensures acts { Acts (result ≡ MadeDir.Failed) (MakesDir path.now result) self.old self.new }
        ensures opens { self.new.opens.items ≡ self.old.opens.items }
        ensures fine { result ≢ MadeDir.Failed }
    {
        if self.disk.place(path.parts()).is_some() {
            return MadeDir::Exists;
        }
        if !self.disk.has_parent(path) {
            return MadeDir::NoParent;
        }
        let Ok(copy) = path.copy() else {
            return MadeDir::NoMemory;
        };
        match self.make(Move::MakeDir(copy)) {
            Ok(()) => MadeDir::Made,
            Err(_) => MadeDir::NoMemory,
        }
    }

    pub(crate) fn put_file(&mut self, path: &Path) -> Created
        ensures acts { Acts (result ≡ Created.Failed)
            (CreatesFile path.now (opens_of self.new.opens.items) result) self.old self.new }
        ensures opens { CreatedOpens result (opens_of self.old.opens.items)
            (opens_of self.new.opens.items) }
        ensures least { IsTold self.old → TakesLeast self.new result }
        ensures fine { result ≢ Created.Failed }
    {
        if self.disk.place(path.parts()).is_some() {
            return Created::Exists;
        }
        if !self.disk.has_parent(path) {
            return Created::NoParent;
        }
        let Ok(copy) = path.copy() else {
            return Created::NoMemory;
        };
        let Some(node) = fresh_number(self.disk.nodes.as_slice(), self.named.as_slice()) else {
            return Created::NoMemory;
        };
        match self.make(Move::Create(copy, node)) {
            Ok(()) => {}
            Err(_) => return Created::NoMemory,
        }
        match open_next(&mut self.opens, OpenFile { node, made: true }) {
            Ok(number) => Created::Made(number),
            Err(_) => Created::NoMemory,
        }
    }

    pub(crate) fn add_bytes(&mut self, number: FileNo, bytes: &[u8]) -> Appended
        requires { IsMade (opens_of self.old.opens.items) number.0 }
        ensures acts { Acts (result ≡ Appended.Failed)
            (AppendsBytes number.0 bytes.now (opens_of self.old.opens.items) result) self.old
            self.new }
        ensures opens { self.new.opens.items ≡ self.old.opens.items }
        ensures whole { AppendsAll (length bytes.now) result }
        ensures fine { result ≢ Appended.Failed }
    {
        if self.add_piece(number, bytes) {
            Appended::Wrote(bytes.len())
        } else {
            Appended::NoMemory
        }
    }

    pub(crate) fn move_file(&mut self, from: &Path, to: &Path) -> Renamed
        requires { from.now ≢ to.now }
        ensures acts { Acts (result ≡ Renamed.Failed) (RenamesFile from.now to.now result) self.old
            self.new }
        ensures opens { self.new.opens.items ≡ self.old.opens.items }
        ensures fine { result ≢ Renamed.Failed }
    {
        if !self.disk.is_file(from.parts()) {
            return Renamed::NoFile;
        }
        if !self.disk.has_parent(to) {
            return Renamed::NoParent;
        }
        if self.disk.is_folder(to.parts()) {
            return Renamed::Blocked;
        }
        let Ok(old) = from.copy() else {
            return Renamed::NoMemory;
        };
        let Ok(new) = to.copy() else {
            return Renamed::NoMemory;
        };
        match self.make(Move::Rename(old, new)) {
            Ok(()) => Renamed::Done,
            Err(_) => Renamed::NoMemory,
        }
    }

    pub(crate) fn drop_file(&mut self, path: &Path) -> Removed
        ensures acts { Acts (result ≡ Removed.Failed) (RemovesFile path.now result) self.old
            self.new }
        ensures opens { self.new.opens.items ≡ self.old.opens.items }
        ensures fine { result ≢ Removed.Failed }
    {
        if !self.disk.is_file(path.parts()) {
            return Removed::NoFile;
        }
        let Ok(copy) = path.copy() else {
            return Removed::NoMemory;
        };
        match self.make(Move::Remove(copy)) {
            Ok(()) => Removed::Done,
            Err(_) => Removed::NoMemory,
        }
    }

    pub(crate) fn drop_dir(&mut self, path: &Path) -> RemovedDir
        ensures acts { Acts (result ≡ RemovedDir.Failed) (RemovesFolder path.now result) self.old
            self.new }
        ensures opens { self.new.opens.items ≡ self.old.opens.items }
        ensures fine { result ≢ RemovedDir.Failed }
    {
        if !self.disk.is_folder(path.parts()) {
            return RemovedDir::NoDir;
        }
        if path.is_fixed() {
            return RemovedDir::NotEmpty;
        }
        if has_child(self.disk.places.as_slice(), path.parts()) {
            return RemovedDir::NotEmpty;
        }
        let Ok(copy) = path.copy() else {
            return RemovedDir::NoMemory;
        };
        match self.make(Move::RemoveDir(copy)) {
            Ok(()) => RemovedDir::Done,
            Err(_) => RemovedDir::NoMemory,
        }
    }

    pub(crate) fn open_named(&mut self, path: &Path) -> Opened
        ensures acts { Acts (result ≡ Opened.Failed)
            (OpensFile path.now (opens_of self.new.opens.items) result) self.old self.new }
        ensures opens { OpenedOpens result (opens_of self.old.opens.items)
            (opens_of self.new.opens.items) }
        ensures fine { result ≢ Opened.Failed }
    {
        let Some(node) = self.disk.file_at(path.parts()) else {
            return Opened::NoFile;
        };
        match open_next(&mut self.opens, OpenFile { node, made: false }) {
            Ok(number) => Opened::Opened(number),
            Err(_) => Opened::NoMemory,
        }
    }

    pub(crate) fn read_out(&mut self, number: FileNo, at: u64, buf: &mut [u8]) -> ReadAt
        requires is_open { IsOpen (opens_of self.old.opens.items) number.0 }
        requires room { 0 < length buf.old }
        ensures acts { Acts (result ≡ ReadAt.Failed)
            (ReadsBytes number.0 at buf.old buf.new (opens_of self.old.opens.items) result) self.old
            self.new }
        ensures opens { self.new.opens.items ≡ self.old.opens.items }
        ensures within { ReadsWithin (length buf.old) result }
        ensures whole { IsTold self.old → ReadsAll self.new number.0 at (length buf.old) result }
        ensures fine { IsTold self.old → result ≢ ReadAt.Failed }
    {
        let Some(file) = file_at(self.opens.as_slice(), number) else {
            unreachable!();
        };
        let Some(node) = node_of(self.disk.nodes.as_slice(), file.node) else {
            self.faults = self.faults.saturating_add(1);
            return ReadAt::Failed;
        };
        ReadAt::Read(copy_out(node.bytes.as_slice(), at as usize, buf))
    }

    pub(crate) fn count_bytes(&mut self, path: &Path) -> SizeOf
        ensures acts { Acts (result ≡ SizeOf.Failed) (SizesFile path.now result) self.old self.new }
        ensures opens { self.new.opens.items ≡ self.old.opens.items }
        ensures fine { IsTold self.old → result ≢ SizeOf.Failed }
    {
        let Some(number) = self.disk.file_at(path.parts()) else {
            return SizeOf::NoFile;
        };
        let Some(node) = node_of(self.disk.nodes.as_slice(), number) else {
            self.faults = self.faults.saturating_add(1);
            return SizeOf::Failed;
        };
        SizeOf::Size(node.bytes.as_slice().len() as u64)
    }

    pub(crate) fn names_below(&self, path: &Path) -> Listed
        ensures here { IsTold self.now → ListsHere path.now result (mem_state self.now) }
        ensures parts { ListsParts result }
        ensures fine { result ≢ Listed.Failed }
    {
        if !self.disk.is_folder(path.parts()) {
            return Listed::NoDir;
        }
        match children(self.alloc, self.disk.places.as_slice(), path) {
            Ok(names) => Listed::Names(NameList::new(names)),
            Err(_) => Listed::NoMemory,
        }
    }
}
