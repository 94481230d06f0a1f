// Making the folders of the store.
ghost use Rattle.std.specs.Prelude.{◌≡◌, ◌⊎◌, ◌++◌, ◌∷◌, ◌≤◌, [], false, IsTrue, IfOk, take, length};
ghost use Rattle.jl_text.specs.Paths.{PathView, is_part, is_fixed};
ghost use Rattle.jl_folder.specs.Views.{FolderAnswers, state, moved};
ghost use Rattle.jl_entry.specs.Names.{IsStoreFolder, IsFunctionFolder};
ghost use Rattle.jl_rely.specs.Steps.{AllSteps, IsLone};
ghost use Rattle.jl_rely.specs.Claims.{Moves};
ghost use Rattle.jl_protocol.specs.Proper.{IsProper};
ghost use Rattle.jl_protocol.specs.Tidy.{IsTidy};
ghost use Rattle.jl_store.specs.Alone.{HasFolders};
ghost use Rattle.jl_store.specs.Doing.{IsMaking};
ghost use Rattle.jl_store.specs.Storing.{folders_of, StepOr, FoldersOr};

use jl_folder::{Folder, MadeDir, Path};
use std::alloc::{AllocError, Global};

// Whether folders are there now.
#[derive(Clone, Copy)]
pub(crate) enum MadeFolders {
    Made,
    Skipped,
    Fault,
    NoMemory,
}

fn as_folders(made: MadeDir) -> MadeFolders
    ensures { result ≡ folders_of made }
{
    match made {
        MadeDir::Made => MadeFolders::Made,
        MadeDir::Exists => MadeFolders::Made,
        MadeDir::NoParent => MadeFolders::Skipped,
        MadeDir::Failed => MadeFolders::Fault,
        MadeDir::NoMemory => MadeFolders::NoMemory,
    }
}

// Makes one folder, where none is there.
fn make_one<F: Folder>(folder: &mut F, path: &Path) -> MadeFolders
    requires { is_fixed path.now ≡ false }
    ensures frame { FolderAnswers (result ≡ MadeFolders.Fault) (F.view folder.old)
        (F.view folder.new) }
    ensures moves { (F.view folder.old).told
        → Moves (IsMaking path.now) (F.view folder.old) (F.view folder.new) }
    ensures step { (F.view folder.old).told → (root : PathView) → IsStoreFolder root path.now → IsTidy root (state (F.view folder.old)) →
        AllSteps (IsProper root) (state (F.view folder.old)) (moved (F.view folder.old) (F.view folder.new)) →
        StepOr result path.now (F.view folder.old) (F.view folder.new) }
{
    let made = folder.make_dir(path);
    as_folders(made)
}

// The same of a path that may be the current folder or the topmost, which are always there.
fn make_step<F: Folder>(folder: &mut F, path: &Path) -> MadeFolders
    ensures frame { FolderAnswers (result ≡ MadeFolders.Fault) (F.view folder.old)
        (F.view folder.new) }
    ensures moves { (F.view folder.old).told
        → Moves (IsMaking path.now) (F.view folder.old) (F.view folder.new) }
    ensures step { (F.view folder.old).told → (root : PathView) → IsTidy root (state (F.view folder.old)) →
        AllSteps (IsProper root) (state (F.view folder.old)) (moved (F.view folder.old) (F.view folder.new)) →
        (is_fixed path.now ≡ false → IsStoreFolder root path.now) → StepOr result path.now (F.view folder.old) (F.view folder.new) }
{
    if path.is_fixed() {
        return MadeFolders::Made;
    }
    make_one(folder, path)
}

// A part of a path at its place: an empty one stands only at the front.
fn add_part(alloc: Global, folder: &Path, part: &str) -> Result<Path, AllocError>
    requires { ((folder.now ≡ []) × (part.now ≡ [])) ⊎ IsTrue (is_part part.now) }
    ensures { IfOk result (λ p. p ≡ folder.now ++ part.now ∷ []) }
{
    if part.is_empty() {
        return Path::top(alloc);
    }
    folder.join(alloc, part)
}

// The first parts of a path.
fn prefix(alloc: Global, path: &Path, count: usize) -> Result<Path, AllocError>
    requires { count ≤ length path.now }
    ensures { IfOk result (λ p. p ≡ take count path.now) }
{
    let parts = path.parts();
    let mut folder = Path::current(alloc);
    for i in 0..count {
        folder = add_part(alloc, &folder, parts[i].as_str())?;
    }
    Ok(folder)
}

/// Makes a folder and those on the way to it, where they aren't there.
pub(crate) fn make_folders<F: Folder>(alloc: Global, folder: &mut F, path: &Path) -> MadeFolders
    ensures frame { FolderAnswers (result ≡ MadeFolders.Fault) (F.view folder.old)
        (F.view folder.new) }
    ensures moves { (F.view folder.old).told
        → Moves (IsMaking path.now) (F.view folder.old) (F.view folder.new) }
    ensures folders { (F.view folder.old).told → (root : PathView) → IsFunctionFolder root path.now → IsTidy root (state (F.view folder.old)) →
        AllSteps (IsProper root) (state (F.view folder.old)) (moved (F.view folder.old) (F.view folder.new)) →
        FoldersOr result path.now (F.view folder.old) (F.view folder.new) }
    ensures alone { (F.view folder.old).told → result ≡ MadeFolders.Made → IsLone (F.view folder.old).token (moved (F.view folder.old) (F.view folder.new)) →
        (root : PathView) → IsFunctionFolder root path.now → IsTidy root (state (F.view folder.old)) →
        HasFolders path.now (state (F.view folder.old)) (state (F.view folder.new)) }
{
    let count = path.parts().len();
    for i in 0..count {
        let Ok(at) = prefix(alloc, path, i + 1) else {
            return MadeFolders::NoMemory;
        };
        match make_step(folder, &at) {
            MadeFolders::Made => {}
            other => return other,
        }
    }
    MadeFolders::Made
}
