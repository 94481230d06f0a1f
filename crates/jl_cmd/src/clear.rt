// The command `clear`.
ghost use Rattle.std.specs.Prelude.{◌≡◌};
ghost use Rattle.jl_folder.specs.Views.{FolderAnswers};
ghost use Rattle.jl_entry.specs.Names.{root_of};
ghost use Rattle.jl_clear.specs.Cleared.{ClearsPaths};
ghost use Rattle.jl_words.specs.Targets.{IsTarget};
ghost use Rattle.jl_cmd.specs.of.Clear.{IsCleared, EndsClearing, ClearsAsked};

use crate::ended::Ended;
use jl_clear::{Clear, clear_all, clear_function, clear_item, clear_module};
use jl_folder::{Folder, Path};
use jl_text::Text;
use jl_value::Key;
use std::alloc::Global;

// Clears all, or a module, or a function, or an entry.
fn cleared<F: Folder>(
    alloc: Global,
    folder: &mut F,
    location: &Path,
    module: &Option<Text>,
    func: &Option<Text>,
    key: &Option<Key>,
) -> Clear
    requires target { IsTarget «module».now func.now key.now }
    ensures clears { (F.view folder.old).told → ClearsPaths (root_of location.now) (IsCleared location.now «module».now func.now key.now) result
        (F.view folder.old) (F.view folder.new) }
    ensures frame { FolderAnswers (result ≡ Clear.Fault) (F.view folder.old) (F.view folder.new) }
{
    let Some(module) = module else {
        return clear_all(alloc, location, folder);
    };
    let Some(func) = func else {
        return clear_module(alloc, location, folder, module.as_str());
    };
    let Some(key) = key else {
        return clear_function(alloc, location, folder, module.as_str(), func.as_str());
    };
    clear_item(alloc, location, folder, module.as_str(), func.as_str(), key)
}

/// Takes away all of a cache, or a module of it, a function or an entry. Prints nothing.
pub fn clear<F: Folder>(
    alloc: Global,
    folder: &mut F,
    location: &Path,
    module: &Option<Text>,
    func: &Option<Text>,
    key: &Option<Key>,
) -> Ended
    requires target { IsTarget «module».now func.now key.now }
    ensures ends { EndsClearing result (F.view folder.old) (F.view folder.new) }
    ensures clears { (F.view folder.old).told
        → ClearsAsked location.now «module».now func.now key.now result (F.view folder.old)
        (F.view folder.new) }
    ensures frame { FolderAnswers (result ≡ Ended.FolderFault) (F.view folder.old)
        (F.view folder.new) }
{
    match cleared(alloc, folder, location, module, func, key) {
        Clear::Cleared => Ended::Done,
        Clear::Fault => Ended::FolderFault,
        Clear::NoMemory => Ended::NoMemory,
    }
}
