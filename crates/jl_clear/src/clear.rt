// The calls that clear a cache folder.
ghost use Rattle.std.specs.Prelude.{◌≡◌, ◌∷◌, [], IsTrue};
ghost use Rattle.hex.specs.Hex.{encode_lower};
ghost use Rattle.jl_text.specs.Texts.{is_name};
ghost use Rattle.jl_text.specs.Paths.{PathView};
ghost use Rattle.jl_folder.specs.Views.{FolderAnswers};
ghost use Rattle.jl_entry.specs.Names.{IsBelow, IsEntryFolder, IsFunctionFolder, below, root_of};
ghost use Rattle.jl_rely.specs.Claims.{Anywhere};
ghost use Rattle.jl_clear.specs.Levels.{IsLevel};
ghost use Rattle.jl_clear.specs.Taking.{IsInside};
ghost use Rattle.jl_clear.specs.Clearing.{Clears, ClearsBelow, IsOfEntries};
ghost use Rattle.jl_clear.specs.Cleared.{ClearsPaths};

use crate::levels::Level;
use crate::removing::{Clear, as_clear};
use crate::walk::{clear_folders, clear_level};
use jl_entry::{entry_folder, function_folder, module_folder, root};
use jl_folder::{Folder, Path};
use jl_value::Key;
use std::alloc::Global;

// Takes away what is of the store in a folder, and the folder.
fn clear_at<F: Folder>(alloc: Global, folder: &mut F, level: Level, path: &Path) -> Clear
    ensures { (root : PathView) → IsLevel level root path.now
        → ClearsBelow root path.now result (F.view folder.old) (F.view folder.new) }
{
    as_clear(clear_level(alloc, folder, level, path))
}

/// Takes away the files of an entry's folder, and the folder.
/// What is gone is cleared, and a name that isn't of the store stays.
pub fn clear_entry<F: Folder>(alloc: Global, folder: &mut F, entry: &Path) -> Clear
    requires { (root : PathView) × IsEntryFolder root entry.now }
    ensures { (root : PathView) → IsEntryFolder root entry.now
        → Clears root Anywhere (IsBelow entry.now) (IsBelow entry.now) (IsBelow entry.now)
        result (F.view folder.old) (F.view folder.new) }
{
    clear_at(alloc, folder, Level::Entry, entry)
}

/// Takes away each entry of a function's folder, and nothing else.
/// A folder that is absent is cleared.
pub fn clear_entries<F: Folder>(alloc: Global, folder: &mut F, function: &Path) -> Clear
    requires { (root : PathView) × IsFunctionFolder root function.now }
    ensures { (root : PathView) → IsFunctionFolder root function.now
        → Clears root Anywhere (IsOfEntries function.now) (IsOfEntries function.now)
        (IsOfEntries function.now) result (F.view folder.old) (F.view folder.new) }
{
    as_clear(clear_folders(alloc, folder, function, Level::Entry))
}

/// Takes away the entry of some arguments: its files and its folder.
/// An entry that is absent is cleared.
pub fn clear_item<F: Folder>(
    alloc: Global,
    location: &Path,
    folder: &mut F,
    module: &str,
    name: &str,
    key: &Key,
) -> Clear
    requires module_name { IsTrue (is_name «module».now) }
    requires function_name { IsTrue (is_name name.now) }
    ensures frame { FolderAnswers (result ≡ Clear.Fault) (F.view folder.old) (F.view folder.new) }
    ensures clears { (F.view folder.old).told
        → ClearsPaths (root_of location.now)
        (IsBelow (below (root_of location.now)
        («module».now ∷ name.now ∷ encode_lower key.now.0 ∷ [])))
        result (F.view folder.old) (F.view folder.new) }
{
    let Ok(entry) = entry_folder(alloc, location, module, name, key) else {
        return Clear::NoMemory;
    };
    clear_at(alloc, folder, Level::Entry, &entry)
}

/// Takes away a function's entries, its files and its folder. A folder that is absent is cleared.
pub fn clear_function<F: Folder>(
    alloc: Global,
    location: &Path,
    folder: &mut F,
    module: &str,
    name: &str,
) -> Clear
    requires module_name { IsTrue (is_name «module».now) }
    requires function_name { IsTrue (is_name name.now) }
    ensures frame { FolderAnswers (result ≡ Clear.Fault) (F.view folder.old) (F.view folder.new) }
    ensures clears { (F.view folder.old).told
        → ClearsPaths (root_of location.now)
        (IsBelow (below (root_of location.now) («module».now ∷ name.now ∷ [])))
        result (F.view folder.old) (F.view folder.new) }
{
    let Ok(function) = function_folder(alloc, location, module, name) else {
        return Clear::NoMemory;
    };
    clear_at(alloc, folder, Level::Function, &function)
}

/// Takes away a module's functions and its folder. A folder that is absent is cleared.
pub fn clear_module<F: Folder>(
    alloc: Global,
    location: &Path,
    folder: &mut F,
    module: &str,
) -> Clear
    requires module_name { IsTrue (is_name «module».now) }
    ensures frame { FolderAnswers (result ≡ Clear.Fault) (F.view folder.old) (F.view folder.new) }
    ensures clears { (F.view folder.old).told
        → ClearsPaths (root_of location.now)
        (IsBelow (below (root_of location.now) («module».now ∷ [])))
        result (F.view folder.old) (F.view folder.new) }
{
    let Ok(path) = module_folder(alloc, location, module) else {
        return Clear::NoMemory;
    };
    clear_at(alloc, folder, Level::Module, &path)
}

/// Takes away all modules. The root stays.
pub fn clear_all<F: Folder>(alloc: Global, location: &Path, folder: &mut F) -> Clear
    ensures frame { FolderAnswers (result ≡ Clear.Fault) (F.view folder.old) (F.view folder.new) }
    ensures clears { (F.view folder.old).told
        → ClearsPaths (root_of location.now) (IsInside (root_of location.now))
        result (F.view folder.old) (F.view folder.new) }
{
    let Ok(path) = root(alloc, location) else {
        return Clear::NoMemory;
    };
    as_clear(clear_folders(alloc, folder, &path, Level::Module))
}
