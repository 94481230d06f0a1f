// The folder, as a run sees it beside others.
ghost use Rattle.std.specs.Prelude.{◌≡◌, ◌≢◌, ◌<◌, length};
ghost use Rattle.jl_folder.specs.State.{IsHistory, closed};
ghost use Rattle.jl_folder.specs.Views.{FolderView, FolderAnswers, FolderTurns, state, moved};
ghost use Rattle.jl_folder.specs.Listing.{ListsFolder, ListsParts};
ghost use Rattle.jl_folder.specs.Calls.{Call, Waits, MakesDir, CreatesFile, AppendsBytes, AppendsSome, RenamesFile, RemovesFile, RemovesFolder, OpensFile, ReadsBytes, ReadsWithin, SizesFile, NoMove, IsMade, IsOpen, CreatedOpens, OpenedOpens};

use crate::listing::Listed;
use jl_text::Path;

/// The number of an open file, which it keeps until it is closed.
#[derive(Clone, Copy, Debug, PartialEq, Eq)]
pub struct FileNo(pub u64);

/// The answer of `Folder::make_dir`.
#[derive(Clone, Copy, Debug, PartialEq, Eq)]
pub enum MadeDir {
    Made,
    Exists,
    NoParent,
    Failed,
    NoMemory,
}

/// The answer of `Folder::create`.
#[derive(Clone, Copy, Debug, PartialEq, Eq)]
pub enum Created {
    Made(FileNo),
    Exists,
    NoParent,
    Failed,
    NoMemory,
}

/// The answer of `Folder::append`: how many bytes were added.
#[derive(Clone, Copy, Debug, PartialEq, Eq)]
pub enum Appended {
    Wrote(usize),
    Failed,
    NoMemory,
}

/// The answer of `Folder::rename`.
#[derive(Clone, Copy, Debug, PartialEq, Eq)]
pub enum Renamed {
    Done,
    NoFile,
    NoParent,
    Blocked,
    Failed,
    NoMemory,
}

/// The answer of `Folder::remove`.
#[derive(Clone, Copy, Debug, PartialEq, Eq)]
pub enum Removed {
    Done,
    NoFile,
    Failed,
    NoMemory,
}

/// The answer of `Folder::remove_dir`.
#[derive(Clone, Copy, Debug, PartialEq, Eq)]
pub enum RemovedDir {
    Done,
    NoDir,
    NotEmpty,
    Failed,
    NoMemory,
}

/// The answer of `Folder::size`, in bytes.
#[derive(Clone, Copy, Debug, PartialEq, Eq)]
pub enum SizeOf {
    Size(u64),
    NoFile,
    Failed,
    NoMemory,
}

/// The answer of `Folder::open_file`.
#[derive(Clone, Copy, Debug, PartialEq, Eq)]
pub enum Opened {
    Opened(FileNo),
    NoFile,
    Failed,
    NoMemory,
}

/// The answer of `Folder::read_at`: how many bytes stand at the front of the buffer, 0 at the end
/// of the file.
#[derive(Clone, Copy, Debug, PartialEq, Eq)]
pub enum ReadAt {
    Read(usize),
    Failed,
}

/// A folder of files, as one run sees it beside others that change it too. During each call others
/// may make moves, and then the call makes at most one of its own and answers as things then stand.
/// `Failed` comes from a fault, which is counted; `NoMemory` from want of memory. After either the
/// call's own move was made or was not made.
pub trait Folder {
    /// What contracts see.
    ghost view: { Self → FolderView };

    /// Makes a folder whose parent is there.
    fn make_dir(&mut self, path: &Path) -> MadeDir
        ensures call { (view self.old).told
            → Call (view self.old) (view self.new) (MakesDir path.now result) }
        ensures frame { FolderAnswers (result ≡ MadeDir.Failed) (view self.old) (view self.new) };

    /// Makes a new empty file, and opens it.
    fn create(&mut self, path: &Path) -> Created
        ensures call { (view self.old).told
            → Call (view self.old) (view self.new)
            (CreatesFile path.now (view self.new).opens result) }
        ensures opens { CreatedOpens result (view self.old).opens (view self.new).opens }
        ensures frame { FolderTurns (result ≡ Created.Failed) (view self.old) (view self.new) };

    /// Adds a first part of the bytes to a file that `create` opened.
    fn append(&mut self, number: FileNo, bytes: &[u8]) -> Appended
        requires { IsMade (view self.old).opens number.0 }
        ensures call { (view self.old).told
            → Call (view self.old) (view self.new)
            (AppendsBytes number.0 bytes.now (view self.old).opens result) }
        ensures some { AppendsSome (length bytes.now) result }
        ensures frame { FolderAnswers (result ≡ Appended.Failed) (view self.old) (view self.new) };

    /// Gives a file another name, which it takes from the file that had it.
    fn rename(&mut self, from: &Path, to: &Path) -> Renamed
        requires { from.now ≢ to.now }
        ensures call { (view self.old).told
            → Call (view self.old) (view self.new) (RenamesFile from.now to.now result) }
        ensures frame { FolderAnswers (result ≡ Renamed.Failed) (view self.old) (view self.new) };

    /// Takes away a file's name. Open numbers keep the file.
    fn remove(&mut self, path: &Path) -> Removed
        ensures call { (view self.old).told
            → Call (view self.old) (view self.new) (RemovesFile path.now result) }
        ensures frame { FolderAnswers (result ≡ Removed.Failed) (view self.old) (view self.new) };

    /// Removes a folder in which nothing stands.
    fn remove_dir(&mut self, path: &Path) -> RemovedDir
        ensures call { (view self.old).told
            → Call (view self.old) (view self.new) (RemovesFolder path.now result) }
        ensures frame { FolderAnswers (result ≡ RemovedDir.Failed) (view self.old)
            (view self.new) };

    /// Opens the file that the path names now, whatever it names later.
    fn open_file(&mut self, path: &Path) -> Opened
        ensures call { (view self.old).told
            → Call (view self.old) (view self.new)
            (OpensFile path.now (view self.new).opens result) }
        ensures opens { OpenedOpens result (view self.old).opens (view self.new).opens }
        ensures frame { FolderTurns (result ≡ Opened.Failed) (view self.old) (view self.new) };

    /// Reads a part of an open file from an offset on.
    fn read_at(&mut self, number: FileNo, at: u64, buf: &mut [u8]) -> ReadAt
        requires is_open { IsOpen (view self.old).opens number.0 }
        requires room { 0 < length buf.old }
        ensures call { (view self.old).told
            → Call (view self.old) (view self.new)
            (ReadsBytes number.0 at buf.old buf.new (view self.old).opens result) }
        ensures within { ReadsWithin (length buf.old) result }
        ensures frame { FolderAnswers (result ≡ ReadAt.Failed) (view self.old) (view self.new) };

    /// How many bytes the file has.
    fn size(&mut self, path: &Path) -> SizeOf
        ensures call { (view self.old).told
            → Call (view self.old) (view self.new) (SizesFile path.now result) }
        ensures frame { FolderAnswers (result ≡ SizeOf.Failed) (view self.old) (view self.new) };

    /// What stands right in a folder: each name that is there throughout the call, and no name that
    /// never is.
    fn list(&mut self, path: &Path) -> Listed
        ensures waits { (view self.old).told → Waits (view self.old) (view self.new) }
        ensures names { (view self.old).told
            → ListsFolder path.now result (state (view self.old))
            (moved (view self.old) (view self.new)) }
        ensures parts { ListsParts result }
        ensures frame { FolderAnswers (result ≡ Listed.Failed) (view self.old) (view self.new) };

    /// Closes a number, if it is open.
    fn close(&mut self, number: FileNo)
        ensures call { (view self.old).told → Call (view self.old) (view self.new) (NoMove) }
        ensures opens { (view self.new).opens ≡ closed (view self.old).opens number.0 }
        ensures frame { FolderTurns (⊥) (view self.old) (view self.new) };

    /// What it tells began as a state and went on by moves that are allowed.
    ghost lawful: { (folder : Self) → (view folder).told
        → IsHistory (view folder).history (view folder).opens };
}
