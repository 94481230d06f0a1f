// A walk through the folders of a cache.
ghost use Rattle.std.specs.Prelude.{◌≡◌, ◌++◌, ◌∷◌, [], All, IsTrue, IfOk, ⊤};
ghost use Rattle.jl_text.specs.Paths.{PathView, is_part};
ghost use Rattle.jl_entry.specs.Names.{IsBelow};
ghost use Rattle.jl_evict.specs.Items.{IsEntryParts};
ghost use Rattle.jl_evict.specs.Walks.{Adds, AddsOne, HasSized, HasListed, Pushes, IsAt, Under};
ghost use Rattle.jl_evict.specs.Walks.{AreDistinct, HoldsParts, LevelParts};

use crate::item::Item;
use crate::measure::{Measure, entry_access, entry_bytes};
use jl_clear::{Level, Stop, names_in};
use jl_folder::{Folder, Name, Path};
use std::alloc::{AllocError, Global};

// A folder of a cache, and its path below the root.
#[derive(Drop)]
pub(crate) struct Place {
    pub(crate) folder: Path,
    pub(crate) name: Path,
}

fn step_into(alloc: Global, place: &Place, part: &str) -> Result<Place, AllocError>
    requires { IsTrue (is_part part.now) }
    ensures folder { IfOk result (λ p. p.folder ≡ place.now.folder ++ part.now ∷ []) }
    ensures name { IfOk result (λ p. p.name ≡ place.now.name ++ part.now ∷ []) }
{
    let folder = place.folder.join(alloc, part)?;
    let name = place.name.join(alloc, part)?;
    Ok(Place { folder, name })
}

// Adds the item of an entry, of which this is known.
fn push_item(
    alloc: Global,
    place: &Place,
    bytes: u64,
    access: u64,
    items: &mut Vec<Item>,
) -> Result<(), Stop>
    ensures { Pushes result place.now bytes access items.old.items items.new.items }
{
    let Ok(path) = place.name.text(alloc) else {
        return Err(Stop::NoMemory);
    };
    match items.push(Item {
        path,
        bytes,
        access,
    }) {
        Ok(()) => Ok(()),
        Err(_) => Err(Stop::NoMemory),
    }
}

// Adds the item of an entry whose bytes are known.
fn add_sized<F: Folder>(
    alloc: Global,
    folder: &mut F,
    place: &Place,
    bytes: u64,
    items: &mut Vec<Item>,
) -> Result<(), Stop>
    ensures { AddsOne place.now (HasSized place.now bytes) result items.old.items items.new.items
        (F.view folder.old) (F.view folder.new) }
{
    match entry_access(alloc, folder, &place.folder) {
        Measure::Number(access) => push_item(alloc, place, bytes, access, items),
        Measure::Fault => Err(Stop::Fault),
        Measure::NoMemory => Err(Stop::NoMemory),
    }
}

// Adds the item of an entry whose names were listed.
fn add_listed<F: Folder>(
    alloc: Global,
    folder: &mut F,
    place: &Place,
    names: &[Name],
    items: &mut Vec<Item>,
) -> Result<(), Stop>
    requires { All (λ n. IsTrue (is_part n.part)) names.now }
    ensures { AddsOne place.now (HasListed place.now names.now) result
        items.old.items items.new.items (F.view folder.old) (F.view folder.new) }
{
    match entry_bytes(alloc, folder, &place.folder, names) {
        Measure::Number(bytes) => add_sized(alloc, folder, place, bytes, items),
        Measure::Fault => Err(Stop::Fault),
        Measure::NoMemory => Err(Stop::NoMemory),
    }
}

// Adds the item of an entry, if its folder is there.
fn add_entry<F: Folder>(
    alloc: Global,
    folder: &mut F,
    place: &Place,
    items: &mut Vec<Item>,
) -> Result<(), Stop>
    ensures { (root : PathView) → IsAt root IsEntryParts place.now
        → Adds root ⊤ (IsBelow place.now.name) result items.old.items items.new.items
        (F.view folder.old) (F.view folder.new) }
{
    match names_in(folder, &place.folder)? {
        Some(names) => add_listed(alloc, folder, place, names.as_slice(), items),
        None => Ok(()),
    }
}

// Adds the items at these names of a folder, of those that are of a level.
#[cycle(adding)]
fn add_names<F: Folder>(
    alloc: Global,
    folder: &mut F,
    place: &Place,
    level: Level,
    names: &[Name],
    items: &mut Vec<Item>,
) -> Result<(), Stop>
    requires { All (λ n. IsTrue (is_part n.part)) names.now }
    ensures { (root : PathView) → IsAt root (HoldsParts level) place.now
        → Adds root (AreDistinct names.now) (Under place.now.name names.now) result
        items.old.items items.new.items (F.view folder.old) (F.view folder.new) }
{
    for name in names {
        add_name(alloc, folder, place, level, name.part.as_str(), items)?;
    }
    Ok(())
}

// Adds the items at a name of a folder, if it is that of a folder of a level.
#[cycle(adding)]
fn add_name<F: Folder>(
    alloc: Global,
    folder: &mut F,
    place: &Place,
    level: Level,
    part: &str,
    items: &mut Vec<Item>,
) -> Result<(), Stop>
    requires { IsTrue (is_part part.now) }
    ensures { (root : PathView) → IsAt root (HoldsParts level) place.now
        → Adds root ⊤ (IsBelow (place.now.name ++ part.now ∷ [])) result
        items.old.items items.new.items (F.view folder.old) (F.view folder.new) }
{
    if !level.is_name(part) {
        return Ok(());
    }
    let child = step_into(alloc, place, part)?;
    add_level(alloc, folder, level, &child, items)
}

// Adds the items of a folder of a level.
#[cycle(adding)]
fn add_level<F: Folder>(
    alloc: Global,
    folder: &mut F,
    level: Level,
    place: &Place,
    items: &mut Vec<Item>,
) -> Result<(), Stop>
    ensures { (root : PathView) → IsAt root (LevelParts level) place.now
        → Adds root ⊤ (IsBelow place.now.name) result items.old.items items.new.items
        (F.view folder.old) (F.view folder.new) }
{
    match level {
        Level::Module => add_folders(alloc, folder, place, Level::Function, items),
        Level::Function => add_folders(alloc, folder, place, Level::Entry, items),
        Level::Entry => add_entry(alloc, folder, place, items),
    }
}

/// Adds the items of the folders of a level that stand in a folder.
#[cycle(adding)]
pub(crate) fn add_folders<F: Folder>(
    alloc: Global,
    folder: &mut F,
    place: &Place,
    level: Level,
    items: &mut Vec<Item>,
) -> Result<(), Stop>
    ensures { (root : PathView) → IsAt root (HoldsParts level) place.now
        → Adds root ⊤ (IsBelow place.now.name) result items.old.items items.new.items
        (F.view folder.old) (F.view folder.new) }
{
    match names_in(folder, &place.folder)? {
        Some(names) => add_names(alloc, folder, place, level, names.as_slice(), items),
        None => Ok(()),
    }
}
