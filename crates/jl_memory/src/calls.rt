// The calls of a folder in memory.
ghost use Rattle.std.specs.Prelude.{◌≡◌, ◌≢◌, ◌<◌, length};
ghost use Rattle.jl_folder.specs.State.{closed};
ghost use Rattle.jl_folder.specs.Views.{FolderAnswers, FolderTurns, state, moved};
ghost use Rattle.jl_folder.specs.Listing.{ListsFolder, ListsParts};
ghost use Rattle.jl_folder.specs.Calls.{Call, Waits, MakesDir, CreatesFile, AppendsBytes, AppendsSome, RenamesFile, RemovesFile, RemovesFolder, OpensFile, ReadsBytes, ReadsWithin, SizesFile, NoMove, IsMade, IsOpen, CreatedOpens, OpenedOpens};
ghost use Rattle.jl_memory.specs.Memory.{IsTold, folder_view};
ghost use Rattle.jl_memory.specs.Scripts.{PlaysScript, Obeys, ObeysAppend, AppendsAll, ReadsAll, TakesLeast};

use crate::memory::MemFolder;
use jl_folder::{
    Appended, Created, FileNo, Folder, Listed, MadeDir, Opened, ReadAt, Removed, RemovedDir,
    Renamed, SizeOf, close_at,
};
use jl_text::Path;

impl Folder for MemFolder {
    ghost use Rattle.jl_memory.specs.Memory.{folder_view, told_history};

    ghost view = { λ m. folder_view m };

    ghost lawful = { λ m told. told_history m told };

    fn make_dir(&mut self, path: &Path) -> MadeDir
        ensures call { IsTold self.old
            → Call (folder_view self.old) (folder_view self.new) (MakesDir path.now result) }
        ensures frame { FolderAnswers (result ≡ MadeDir.Failed) (folder_view self.old)
            (folder_view self.new) }
        ensures plays { PlaysScript self.old self.new }
        ensures obeys { IsTold self.old → Obeys (result ≡ MadeDir.Failed) self.old self.new }
    {
        if self.begin() {
            return MadeDir::Failed;
        }
        self.put_dir(path)
    }

    fn create(&mut self, path: &Path) -> Created
        ensures call { IsTold self.old
            → Call (folder_view self.old) (folder_view self.new)
            (CreatesFile path.now (folder_view self.new).opens result) }
        ensures opens { CreatedOpens result (folder_view self.old).opens
            (folder_view self.new).opens }
        ensures frame { FolderTurns (result ≡ Created.Failed) (folder_view self.old)
            (folder_view self.new) }
        ensures plays { PlaysScript self.old self.new }
        ensures obeys { IsTold self.old → Obeys (result ≡ Created.Failed) self.old self.new }
        ensures least { IsTold self.old → TakesLeast self.new result }
    {
        if self.begin() {
            return Created::Failed;
        }
        self.put_file(path)
    }

    fn append(&mut self, number: FileNo, bytes: &[u8]) -> Appended
        requires { IsMade (folder_view self.old).opens number.0 }
        ensures call { IsTold self.old
            → Call (folder_view self.old) (folder_view self.new)
            (AppendsBytes number.0 bytes.now (folder_view self.old).opens result) }
        ensures some { AppendsSome (length bytes.now) result }
        ensures frame { FolderAnswers (result ≡ Appended.Failed) (folder_view self.old)
            (folder_view self.new) }
        ensures plays { PlaysScript self.old self.new }
        ensures obeys { IsTold self.old → ObeysAppend number.0 bytes.now result self.old self.new }
        ensures whole { AppendsAll (length bytes.now) result }
    {
        if self.start_append() {
            return Appended::Failed;
        }
        if self.is_stopped() {
            return self.tear(number, bytes);
        }
        self.add_bytes(number, bytes)
    }

    fn rename(&mut self, from: &Path, to: &Path) -> Renamed
        requires { from.now ≢ to.now }
        ensures call { IsTold self.old
            → Call (folder_view self.old) (folder_view self.new)
            (RenamesFile from.now to.now result) }
        ensures frame { FolderAnswers (result ≡ Renamed.Failed) (folder_view self.old)
            (folder_view self.new) }
        ensures plays { PlaysScript self.old self.new }
        ensures obeys { IsTold self.old → Obeys (result ≡ Renamed.Failed) self.old self.new }
    {
        if self.begin() {
            return Renamed::Failed;
        }
        self.move_file(from, to)
    }

    fn remove(&mut self, path: &Path) -> Removed
        ensures call { IsTold self.old
            → Call (folder_view self.old) (folder_view self.new) (RemovesFile path.now result) }
        ensures frame { FolderAnswers (result ≡ Removed.Failed) (folder_view self.old)
            (folder_view self.new) }
        ensures plays { PlaysScript self.old self.new }
        ensures obeys { IsTold self.old → Obeys (result ≡ Removed.Failed) self.old self.new }
    {
        if self.begin() {
            return Removed::Failed;
        }
        self.drop_file(path)
    }

    fn remove_dir(&mut self, path: &Path) -> RemovedDir
        ensures call { IsTold self.old
            → Call (folder_view self.old) (folder_view self.new) (RemovesFolder path.now result) }
        ensures frame { FolderAnswers (result ≡ RemovedDir.Failed) (folder_view self.old)
            (folder_view self.new) }
        ensures plays { PlaysScript self.old self.new }
        ensures obeys { IsTold self.old → Obeys (result ≡ RemovedDir.Failed) self.old self.new }
    {
        if self.begin() {
            return RemovedDir::Failed;
        }
        self.drop_dir(path)
    }

    fn open_file(&mut self, path: &Path) -> Opened
        ensures call { IsTold self.old
            → Call (folder_view self.old) (folder_view self.new)
            (OpensFile path.now (folder_view self.new).opens result) }
        ensures opens { OpenedOpens result (folder_view self.old).opens
            (folder_view self.new).opens }
        ensures frame { FolderTurns (result ≡ Opened.Failed) (folder_view self.old)
            (folder_view self.new) }
        ensures plays { PlaysScript self.old self.new }
        ensures obeys { IsTold self.old → Obeys (result ≡ Opened.Failed) self.old self.new }
    {
        if self.begin() {
            return Opened::Failed;
        }
        self.open_named(path)
    }

    fn read_at(&mut self, number: FileNo, at: u64, buf: &mut [u8]) -> ReadAt
        requires is_open { IsOpen (folder_view self.old).opens number.0 }
        requires room { 0 < length buf.old }
        ensures call { IsTold self.old
            → Call (folder_view self.old) (folder_view self.new)
            (ReadsBytes number.0 at buf.old buf.new (folder_view self.old).opens result) }
        ensures within { ReadsWithin (length buf.old) result }
        ensures frame { FolderAnswers (result ≡ ReadAt.Failed) (folder_view self.old)
            (folder_view self.new) }
        ensures plays { PlaysScript self.old self.new }
        ensures obeys { IsTold self.old → Obeys (result ≡ ReadAt.Failed) self.old self.new }
        ensures whole { IsTold self.old → ReadsAll self.new number.0 at (length buf.old) result }
    {
        if self.begin() {
            return ReadAt::Failed;
        }
        self.read_out(number, at, buf)
    }

    fn size(&mut self, path: &Path) -> SizeOf
        ensures call { IsTold self.old
            → Call (folder_view self.old) (folder_view self.new) (SizesFile path.now result) }
        ensures frame { FolderAnswers (result ≡ SizeOf.Failed) (folder_view self.old)
            (folder_view self.new) }
        ensures plays { PlaysScript self.old self.new }
        ensures obeys { IsTold self.old → Obeys (result ≡ SizeOf.Failed) self.old self.new }
    {
        if self.begin() {
            return SizeOf::Failed;
        }
        self.count_bytes(path)
    }

    fn list(&mut self, path: &Path) -> Listed
        ensures waits { IsTold self.old → Waits (folder_view self.old) (folder_view self.new) }
        ensures names { IsTold self.old
            → ListsFolder path.now result (state (folder_view self.old))
            (moved (folder_view self.old) (folder_view self.new)) }
        ensures parts { ListsParts result }
        ensures frame { FolderAnswers (result ≡ Listed.Failed) (folder_view self.old)
            (folder_view self.new) }
        ensures plays { PlaysScript self.old self.new }
        ensures obeys { IsTold self.old → Obeys (result ≡ Listed.Failed) self.old self.new }
    {
        if self.begin() {
            return Listed::Failed;
        }
        self.names_below(path)
    }

    fn close(&mut self, number: FileNo)
        ensures call { IsTold self.old
            → Call (folder_view self.old) (folder_view self.new) (NoMove) }
        ensures opens { (folder_view self.new).opens ≡ closed (folder_view self.old).opens
            number.0 }
        ensures frame { FolderTurns (⊥) (folder_view self.old) (folder_view self.new) }
        ensures plays { PlaysScript self.old self.new }
    {
        let _fails = self.take_number();
        close_at(&mut self.opens, number);
    }
}
