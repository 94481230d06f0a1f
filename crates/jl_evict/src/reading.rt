// Reading what a cache holds.
ghost use Rattle.std.specs.Prelude.{◌≡◌, [], IfOk};
ghost use Rattle.jl_folder.specs.Views.{FolderAnswers, state, moved};
ghost use Rattle.jl_folder.specs.Calls.{Waits};
ghost use Rattle.jl_entry.specs.Names.{root_of};
ghost use Rattle.jl_rely.specs.Steps.{IsLone};
ghost use Rattle.jl_evict.specs.Reducing.{HavePaths, AreRead, WereRead};
ghost use Rattle.jl_evict.specs.Walks.{IsAt, IsRootParts};

use crate::item::Item;
use crate::walk::{Place, add_folders};
use jl_clear::{Level, Stop};
use jl_entry::root;
use jl_folder::{Folder, Path};
use std::alloc::{AllocError, Global};

/// The answer of `items`.
#[derive(Drop)]
pub enum ItemsRead {
    Items(Vec<Item>),
    FolderFault,
    NoMemory,
}

fn root_place(alloc: Global, location: &Path) -> Result<Place, AllocError>
    ensures { IfOk result (IsAt (root_of location.now) IsRootParts) }
{
    let folder = root(alloc, location)?;
    let name = Path::current(alloc);
    Ok(Place { folder, name })
}

/// The items of a cache, in no order.
pub fn items<F: Folder>(alloc: Global, folder: &mut F, location: &Path) -> ItemsRead
    ensures frame { FolderAnswers (result ≡ ItemsRead.FolderFault)
        (F.view folder.old) (F.view folder.new) }
    ensures waits { (F.view folder.old).told → Waits (F.view folder.old) (F.view folder.new) }
    ensures paths { HavePaths result }
    // Each stood at some state of the call, and what stands throughout is one of them.
    ensures seen { (F.view folder.old).told
        → WereRead (root_of location.now) result (state (F.view folder.old))
        (moved (F.view folder.old) (F.view folder.new)) }
    // Alone, they are those of the state.
    ensures alone { (F.view folder.old).told
        → IsLone (F.view folder.old).token (moved (F.view folder.old) (F.view folder.new))
        → AreRead (root_of location.now) (state (F.view folder.old)) result }
{
    let Ok(place) = root_place(alloc, location) else {
        return ItemsRead::NoMemory;
    };
    let mut items = Vec::new(alloc);
    match add_folders(alloc, folder, &place, Level::Module, &mut items) {
        Ok(()) => ItemsRead::Items(items),
        Err(Stop::Fault) => ItemsRead::FolderFault,
        Err(Stop::NoMemory) => ItemsRead::NoMemory,
    }
}
