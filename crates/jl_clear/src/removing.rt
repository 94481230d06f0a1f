// Taking away one file or one folder.
ghost use Rattle.std.specs.Prelude.{◌≡◌};
ghost use Rattle.jl_text.specs.Paths.{PathView};
ghost use Rattle.jl_entry.specs.Names.{IsBelow, IsStoreName};
ghost use Rattle.jl_clear.specs.Removing.{answer_of, clear_of, clear_of_folder};
ghost use Rattle.jl_clear.specs.Clearing.{Clears, ClearsBelow, IsPlace, IsEmptied, NoPath};

use crate::stop::Stop;
use jl_folder::{Folder, Path, Removed, RemovedDir};

/// Whether what was to be cleared is gone.
#[derive(Clone, Copy, Debug, PartialEq, Eq, Drop)]
pub enum Clear {
    Cleared,
    Fault,
    NoMemory,
}

/// The answer of a clearing that ended or stopped.
pub(crate) fn as_clear(cleared: Result<(), Stop>) -> Clear
    ensures { result ≡ answer_of cleared }
{
    match cleared {
        Ok(()) => Clear::Cleared,
        Err(Stop::Fault) => Clear::Fault,
        Err(Stop::NoMemory) => Clear::NoMemory,
    }
}

// A file that is gone is cleared.
fn file_cleared(removed: Removed) -> Result<(), Stop>
    ensures { answer_of result ≡ clear_of removed }
{
    match removed {
        Removed::Done => Ok(()),
        Removed::NoFile => Ok(()),
        Removed::Failed => Err(Stop::Fault),
        Removed::NoMemory => Err(Stop::NoMemory),
    }
}

// So is a folder, and one in which something else stands.
fn folder_cleared(removed: RemovedDir) -> Result<(), Stop>
    ensures { answer_of result ≡ clear_of_folder removed }
{
    match removed {
        RemovedDir::Done => Ok(()),
        RemovedDir::NoDir => Ok(()),
        RemovedDir::NotEmpty => Ok(()),
        RemovedDir::Failed => Err(Stop::Fault),
        RemovedDir::NoMemory => Err(Stop::NoMemory),
    }
}

/// Takes away a file, if it is there.
pub(crate) fn clear_file<F: Folder>(folder: &mut F, path: &Path) -> Result<(), Stop>
    ensures { (root : PathView) → IsStoreName root path.now
        → ClearsBelow root path.now (answer_of result) (F.view folder.old) (F.view folder.new) }
{
    let removed = folder.remove(path);
    file_cleared(removed)
}

/// Takes away a folder, if it is there and nothing stands in it.
pub(crate) fn clear_folder<F: Folder>(folder: &mut F, path: &Path) -> Result<(), Stop>
    ensures { (root : PathView) → IsPlace root path.now
        → Clears root (IsEmptied path.now) (IsBelow path.now) NoPath (IsBelow path.now)
        (answer_of result) (F.view folder.old) (F.view folder.new) }
{
    let removed = folder.remove_dir(path);
    folder_cleared(removed)
}
