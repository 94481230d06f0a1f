// The walk through the folders of a cache that takes away what is of the store.
ghost use Rattle.std.specs.Prelude.{All, IsTrue};
ghost use Rattle.jl_text.specs.Paths.{PathView, is_part};
ghost use Rattle.jl_entry.specs.Names.{IsBelow};
ghost use Rattle.jl_rely.specs.Claims.{Anywhere};
ghost use Rattle.jl_clear.specs.Levels.{IsKindName, HoldsKind, IsKind, IsLevel, IsInnerName};
ghost use Rattle.jl_clear.specs.Removing.{answer_of};
ghost use Rattle.jl_clear.specs.Clearing.{Clears, ClearsBelow, ClearsPart, Handled, Reached};
ghost use Rattle.jl_clear.specs.Clearing.{HasAll};

use crate::levels::{Kind, Level};
use crate::listing::names_in;
use crate::removing::{clear_file, clear_folder};
use crate::stop::Stop;
use jl_folder::{Folder, Name, NameList, Path};
use std::alloc::Global;

// Takes away what stands at these names of a folder, of those that are of a kind.
#[cycle(clearing)]
fn clear_names<F: Folder>(
    alloc: Global,
    folder: &mut F,
    home: &Path,
    kind: Kind,
    names: &[Name],
) -> Result<(), Stop>
    requires { All (λ n. IsTrue (is_part n.part)) names.now }
    ensures { (root : PathView) → HoldsKind kind root home.now
        → Clears root Anywhere (Reached (IsKindName kind) home.now)
        (Handled (IsKindName kind) home.now names.now)
        (Handled (IsKindName kind) home.now names.now)
        (answer_of result) (F.view folder.old) (F.view folder.new) }
{
    for name in names {
        clear_name(alloc, folder, home, kind, name.part.as_str())?;
    }
    Ok(())
}

// Takes away what stands at a name of a folder, if it is of a kind.
#[cycle(clearing)]
fn clear_name<F: Folder>(
    alloc: Global,
    folder: &mut F,
    home: &Path,
    kind: Kind,
    part: &str,
) -> Result<(), Stop>
    requires { IsTrue (is_part part.now) }
    ensures { (root : PathView) → HoldsKind kind root home.now
        → Clears root Anywhere (Reached (IsKindName kind) home.now)
        (ClearsPart (IsKindName kind) home.now part.now)
        (ClearsPart (IsKindName kind) home.now part.now)
        (answer_of result) (F.view folder.old) (F.view folder.new) }
{
    if !kind.is_name(part) {
        return Ok(());
    }
    let path = home.join(alloc, part)?;
    clear_path(alloc, folder, kind, &path)
}

// Takes away a folder or a file.
#[cycle(clearing)]
fn clear_path<F: Folder>(alloc: Global, folder: &mut F, kind: Kind, path: &Path) -> Result<(), Stop>
    ensures { (root : PathView) → IsKind kind root path.now
        → ClearsBelow root path.now (answer_of result) (F.view folder.old) (F.view folder.new) }
{
    match kind {
        Kind::Folder(level) => clear_level(alloc, folder, level, path),
        Kind::Code => clear_file(folder, path),
        Kind::EntryFile => clear_file(folder, path),
    }
}

/// Takes away what is of the store in a folder, and the folder, unless something else stands in it.
#[cycle(clearing)]
pub(crate) fn clear_level<F: Folder>(
    alloc: Global,
    folder: &mut F,
    level: Level,
    path: &Path,
) -> Result<(), Stop>
    ensures { (root : PathView) → IsLevel level root path.now
        → ClearsBelow root path.now (answer_of result) (F.view folder.old) (F.view folder.new) }
{
    match names_in(folder, path)? {
        Some(names) => clear_listed(alloc, folder, level, path, &names),
        None => Ok(()),
    }
}

// Takes away what was listed in a folder, and the folder.
#[cycle(clearing)]
fn clear_listed<F: Folder>(
    alloc: Global,
    folder: &mut F,
    level: Level,
    path: &Path,
    names: &NameList,
) -> Result<(), Stop>
    requires { All (λ n. IsTrue (is_part n.part)) names.now }
    ensures { (root : PathView) → IsLevel level root path.now
        → Clears root (HasAll path.now names.now) (IsBelow path.now)
        (Handled (IsInnerName level) path.now names.now) (IsBelow path.now)
        (answer_of result) (F.view folder.old) (F.view folder.new) }
{
    clear_inner(alloc, folder, level, path, names.as_slice())?;
    clear_folder(folder, path)
}

// Takes away what was listed in a folder: the folders in it before its files.
#[cycle(clearing)]
fn clear_inner<F: Folder>(
    alloc: Global,
    folder: &mut F,
    level: Level,
    path: &Path,
    names: &[Name],
) -> Result<(), Stop>
    requires { All (λ n. IsTrue (is_part n.part)) names.now }
    ensures { (root : PathView) → IsLevel level root path.now
        → Clears root Anywhere (IsBelow path.now)
        (Handled (IsInnerName level) path.now names.now)
        (Handled (IsInnerName level) path.now names.now)
        (answer_of result) (F.view folder.old) (F.view folder.new) }
{
    match level {
        Level::Module => { clear_names(alloc, folder, path, Kind::Folder(Level::Function), names) }
        Level::Function => {
            clear_names(alloc, folder, path, Kind::Folder(Level::Entry), names)?;
            clear_names(alloc, folder, path, Kind::Code, names)
        }
        Level::Entry => clear_names(alloc, folder, path, Kind::EntryFile, names),
    }
}

/// Takes away the folders of a level that stand in a folder, and nothing else.
pub(crate) fn clear_folders<F: Folder>(
    alloc: Global,
    folder: &mut F,
    home: &Path,
    level: Level,
) -> Result<(), Stop>
    ensures { (root : PathView) → HoldsKind (Kind.Folder level) root home.now
        → Clears root Anywhere (Reached (IsKindName (Kind.Folder level)) home.now)
        (Reached (IsKindName (Kind.Folder level)) home.now)
        (Reached (IsKindName (Kind.Folder level)) home.now)
        (answer_of result) (F.view folder.old) (F.view folder.new) }
{
    match names_in(folder, home)? {
        Some(names) => { clear_names(alloc, folder, home, Kind::Folder(level), names.as_slice()) }
        None => Ok(()),
    }
}
