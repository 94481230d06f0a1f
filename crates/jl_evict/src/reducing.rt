// Taking away what a cache holds beyond its limits.
ghost use Rattle.std.specs.Prelude.{◌≡◌, ℕ, List, Contains, IfOk, IfSome, IsTrue};
ghost use Rattle.jl_text.specs.Paths.{path_of, is_part};
ghost use Rattle.jl_folder.specs.Views.{FolderAnswers};
ghost use Rattle.jl_entry.specs.Names.{below, root_of};
ghost use Rattle.jl_rely.specs.Claims.{Anywhere};
ghost use Rattle.jl_clear.specs.Clearing.{Clears};
ghost use Rattle.jl_evict.specs.Choosing.{bytes_of};
ghost use Rattle.jl_evict.specs.Items.{IsItemPath, held};
ghost use Rattle.jl_evict.specs.Reducing.{ArePaths, IsOf, Chosen, clear_of_reduced, IsReportOf};
ghost use Rattle.jl_evict.specs.Reducing.{TakesFrom, Reduces};

use crate::choosing::choose;
use crate::item::Item;
use crate::reading::{ItemsRead, items};
use jl_clear::{Clear, clear_entry};
use jl_entry::root;
use jl_folder::{Folder, Path, PathFault, Text};
use jl_quota::Limits;
use std::alloc::{AllocError, Global};

/// The answer of `reduce_size`: how many items were chosen, and how many bytes they had.
#[derive(Clone, Copy, Debug, PartialEq, Eq, Drop)]
pub enum Reduced {
    Report { deleted: u64, bytes: u64 },
    FolderFault,
    NoMemory,
}

fn join_all(alloc: Global, root: &Path, parts: &[Text]) -> Result<Path, AllocError>
    requires { (p : List ℕ) → Contains parts.now p → IsTrue (is_part p) }
    ensures { IfOk result (λ p. p ≡ below root.now parts.now) }
{
    let mut path = root.copy()?;
    for part in parts {
        path = path.join(alloc, part.as_str())?;
    }
    Ok(path)
}

// An item's path.
fn read_path(alloc: Global, item: &Item) -> Option<Path>
    requires { IsItemPath item.now.path }
    ensures { IfSome result (λ p. p ≡ path_of item.now.path) }
{
    match Path::read(alloc, item.path.as_str()) {
        Ok(path) => Some(path),
        Err(PathFault::BadPath) => unreachable!(),
        Err(PathFault::Memory) => None,
    }
}

// Takes away an item: the files of its entry, and the folder.
fn clear_one<F: Folder>(alloc: Global, folder: &mut F, root: &Path, item: &Item) -> Clear
    requires { IsItemPath item.now.path }
    ensures { Clears root.now Anywhere (IsOf root.now item.now) (IsOf root.now item.now)
        (IsOf root.now item.now) result (F.view folder.old) (F.view folder.new) }
{
    let Some(name) = read_path(alloc, item) else {
        return Clear::NoMemory;
    };
    let Ok(entry) = join_all(alloc, root, name.parts()) else {
        return Clear::NoMemory;
    };
    clear_entry(alloc, folder, &entry)
}

fn clear_chosen<F: Folder>(alloc: Global, folder: &mut F, root: &Path, chosen: &[Item]) -> Clear
    requires { ArePaths chosen.now }
    ensures { Clears root.now Anywhere (Chosen root.now chosen.now) (Chosen root.now chosen.now)
        (Chosen root.now chosen.now) result (F.view folder.old) (F.view folder.new) }
{
    for item in chosen {
        match clear_one(alloc, folder, root, item) {
            Clear::Cleared => {}
            other => return other,
        }
    }
    Clear::Cleared
}

// How many bytes items have; the sum stands still at its last value.
fn held_bytes(items: &[Item]) -> u64
    ensures { result ≡ held (bytes_of items.now) }
{
    let mut sum: u64 = 0;
    for item in items {
        sum = sum.saturating_add(item.bytes);
    }
    sum
}

// Takes away the chosen items, and reports them.
fn report<F: Folder>(alloc: Global, folder: &mut F, root: &Path, chosen: &[Item]) -> Reduced
    requires { ArePaths chosen.now }
    ensures clears { Clears root.now Anywhere (Chosen root.now chosen.now)
        (Chosen root.now chosen.now) (Chosen root.now chosen.now) (clear_of_reduced result)
        (F.view folder.old) (F.view folder.new) }
    ensures reports { IsReportOf chosen.now result }
{
    match clear_chosen(alloc, folder, root, chosen) {
        Clear::Cleared => Reduced::Report {
            deleted: chosen.len() as u64,
            bytes: held_bytes(chosen),
        },
        Clear::Fault => Reduced::FolderFault,
        Clear::NoMemory => Reduced::NoMemory,
    }
}

// Chooses from items that were read, and takes away what was chosen.
fn reduce<F: Folder>(
    alloc: Global,
    folder: &mut F,
    root: &Path,
    items: Vec<Item>,
    limits: &Limits,
    now: u64,
) -> Reduced
    requires { ArePaths items.items }
    ensures { TakesFrom root.now items.items limits.now now result
        (F.view folder.old) (F.view folder.new) }
{
    let mut items = items;
    let count = choose(&mut items, limits, now);
    report(alloc, folder, root, &items.as_slice()[..count])
}

/// Takes away the items that a cache holds beyond its limits, those first that were used
/// least lately.
pub fn reduce_size<F: Folder>(
    alloc: Global,
    folder: &mut F,
    location: &Path,
    limits: &Limits,
    now: u64,
) -> Reduced
    ensures frame { FolderAnswers (result ≡ Reduced.FolderFault)
        (F.view folder.old) (F.view folder.new) }
    ensures reduces { (F.view folder.old).told
        → Reduces (root_of location.now) limits.now now result
        (F.view folder.old) (F.view folder.new) }
{
    let Ok(path) = root(alloc, location) else {
        return Reduced::NoMemory;
    };
    match items(alloc, folder, location) {
        ItemsRead::Items(items) => reduce(alloc, folder, &path, items, limits, now),
        ItemsRead::FolderFault => Reduced::FolderFault,
        ItemsRead::NoMemory => Reduced::NoMemory,
    }
}
