// Removes files and folders.
ghost use Rattle.std.specs.Prelude.{◌≡◌, ◌++◌, ◌∷◌, [], true, false, IsTrue, All, Ok, IfOk};
ghost use Rattle.jl_text.specs.Paths.{is_part, is_bad, path_of};
ghost use Rattle.jl_folder.specs.Views.{FolderKeeps};
ghost use Rattle.jl_rely.specs.Claims.{Moves};
ghost use Rattle.jl_tracker.specs.Stages.{folder_point};
ghost use Rattle.jl_tracker.specs.Taking.{TakesResource};
ghost use Rattle.jl_tracker.specs.Tries.{FileTry, FolderTry, NameTry, NamesTry, ListedTry, RemovesTry, RemovalTry, IsRemovable};

use crate::line::Kind;
use jl_folder::{Folder, Listed, Name, Path, PathFault, Removed, RemovedDir};
use std::alloc::{AllocError, Global};

/// How a removal went.
#[derive(Clone, Copy, Debug, PartialEq, Eq)]
pub enum Tried {
    Gone,
    Kept,
}

fn try_file<F: Folder>(folder: &mut F, path: &Path) -> Result<Tried, AllocError>
    ensures tries { (F.view folder.old).told
        → FileTry path.now result (folder_point (F.view folder.old))
        (folder_point (F.view folder.new)) }
    ensures frame { FolderKeeps (F.view folder.old) (F.view folder.new) }
{
    match folder.remove(path) {
        Removed::Done => Ok(Tried::Gone),
        Removed::NoFile => Ok(Tried::Kept),
        Removed::Failed => Ok(Tried::Kept),
        Removed::NoMemory => Err(AllocError),
    }
}

fn try_folder<F: Folder>(folder: &mut F, path: &Path) -> Result<Tried, AllocError>
    ensures tries { (F.view folder.old).told
        → FolderTry path.now result (folder_point (F.view folder.old))
        (folder_point (F.view folder.new)) }
    ensures frame { FolderKeeps (F.view folder.old) (F.view folder.new) }
{
    match folder.remove_dir(path) {
        RemovedDir::Done => Ok(Tried::Gone),
        RemovedDir::NoDir => Ok(Tried::Kept),
        RemovedDir::NotEmpty => Ok(Tried::Kept),
        RemovedDir::Failed => Ok(Tried::Kept),
        RemovedDir::NoMemory => Err(AllocError),
    }
}

// Tries to take a file away, whether it can be or not.
fn try_there<F: Folder>(folder: &mut F, path: &Path) -> Result<(), AllocError>
    ensures tries { (F.view folder.old).told
        → NameTry false path.now result (folder_point (F.view folder.old))
        (folder_point (F.view folder.new)) }
    ensures frame { FolderKeeps (F.view folder.old) (F.view folder.new) }
{
    try_file(folder, path)?;
    Ok(())
}

// The same of a file of a folder.
fn try_part<F: Folder>(
    alloc: Global,
    folder: &mut F,
    path: &Path,
    part: &str,
) -> Result<(), AllocError>
    requires { IsTrue (is_part part.now) }
    ensures tries { (F.view folder.old).told
        → NameTry false (path.now ++ part.now ∷ []) result (folder_point (F.view folder.old))
        (folder_point (F.view folder.new)) }
    ensures frame { FolderKeeps (F.view folder.old) (F.view folder.new) }
{
    let file = path.join(alloc, part)?;
    try_there(folder, &file)
}

// The same of a name; a folder is left alone.
fn try_name<F: Folder>(
    alloc: Global,
    folder: &mut F,
    path: &Path,
    name: &Name,
) -> Result<(), AllocError>
    requires { IsTrue (is_part name.now.part) }
    ensures tries { (F.view folder.old).told
        → NameTry name.now.folder (path.now ++ name.now.part ∷ []) result
        (folder_point (F.view folder.old)) (folder_point (F.view folder.new)) }
    ensures frame { FolderKeeps (F.view folder.old) (F.view folder.new) }
{
    if name.folder {
        return Ok(());
    }
    try_part(alloc, folder, path, name.part.as_str())
}

// Tries to take away each file of a list.
fn try_names<F: Folder>(
    alloc: Global,
    folder: &mut F,
    path: &Path,
    names: &[Name],
) -> Result<(), AllocError>
    requires { All (λ n. IsTrue (is_part n.part)) names.now }
    ensures tries { (F.view folder.old).told
        → NamesTry path.now names.now result (folder_point (F.view folder.old))
        (folder_point (F.view folder.new)) }
    ensures frame { FolderKeeps (F.view folder.old) (F.view folder.new) }
{
    'names: for name in names {
        try_name(alloc, folder, path, name)?;
    }
    Ok(())
}

// Tries to take away each file of a list, and then the folder.
fn try_listed<F: Folder>(
    alloc: Global,
    folder: &mut F,
    path: &Path,
    names: &[Name],
) -> Result<Tried, AllocError>
    requires { All (λ n. IsTrue (is_part n.part)) names.now }
    ensures tries { (F.view folder.old).told
        → ListedTry path.now names.now result (folder_point (F.view folder.old))
        (folder_point (F.view folder.new)) }
    ensures frame { FolderKeeps (F.view folder.old) (F.view folder.new) }
{
    try_names(alloc, folder, path, names)?;
    try_folder(folder, path)
}

// Removes the files of a folder, and then the folder.
fn remove_folder<F: Folder>(alloc: Global, folder: &mut F, path: &Path) -> Result<Tried, AllocError>
    ensures tries { (F.view folder.old).told
        → RemovesTry path.now result (folder_point (F.view folder.old))
        (folder_point (F.view folder.new)) }
    ensures frame { FolderKeeps (F.view folder.old) (F.view folder.new) }
{
    match folder.list(path) {
        Listed::Names(names) => try_listed(alloc, folder, path, names.as_slice()),
        Listed::NoDir => Ok(Tried::Kept),
        Listed::Failed => Ok(Tried::Kept),
        Listed::NoMemory => Err(AllocError),
    }
}

fn read_path(alloc: Global, name: &str) -> Result<Path, AllocError>
    requires { is_bad name.now ≡ false }
    ensures { IfOk result (λ path. path ≡ path_of name.now) }
{
    match Path::read(alloc, name) {
        Ok(path) => Ok(path),
        Err(PathFault::BadPath) => unreachable!(),
        Err(PathFault::Memory) => Err(AllocError),
    }
}

fn remove_named_file<F: Folder>(
    alloc: Global,
    folder: &mut F,
    name: &str,
) -> Result<Tried, AllocError>
    requires { is_bad name.now ≡ false }
    ensures tries { (F.view folder.old).told
        → RemovalTry Kind.File name.now result (folder_point (F.view folder.old))
        (folder_point (F.view folder.new)) }
    ensures frame { FolderKeeps (F.view folder.old) (F.view folder.new) }
{
    let path = read_path(alloc, name)?;
    try_file(folder, &path)
}

fn remove_named_folder<F: Folder>(
    alloc: Global,
    folder: &mut F,
    name: &str,
) -> Result<Tried, AllocError>
    requires { is_bad name.now ≡ false }
    ensures tries { (F.view folder.old).told
        → RemovalTry Kind.Folder name.now result (folder_point (F.view folder.old))
        (folder_point (F.view folder.new)) }
    ensures frame { FolderKeeps (F.view folder.old) (F.view folder.new) }
{
    let path = read_path(alloc, name)?;
    remove_folder(alloc, folder, &path)
}

/// Removes a resource. A semaphore is left alone.
pub fn remove<F: Folder>(
    alloc: Global,
    folder: &mut F,
    kind: Kind,
    name: &str,
) -> Result<Tried, AllocError>
    requires { IsRemovable kind name.now }
    ensures tries { (F.view folder.old).told
        → RemovalTry kind name.now result (folder_point (F.view folder.old))
        (folder_point (F.view folder.new)) }
    ensures moves { (F.view folder.old).told
        → Moves (TakesResource kind name.now) (F.view folder.old) (F.view folder.new) }
    ensures frame { FolderKeeps (F.view folder.old) (F.view folder.new) }
    ensures semlock { kind ≡ Kind.Semlock → result ≡ Ok Tried.Kept }
{
    match kind {
        Kind::File => remove_named_file(alloc, folder, name),
        Kind::Folder => remove_named_folder(alloc, folder, name),
        Kind::Semlock => Ok(Tried::Kept),
    }
}
