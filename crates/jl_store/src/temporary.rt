// The temporary file, before it has its final name.
ghost use Rattle.std.specs.Prelude.{◌≡◌, true, false};
ghost use Rattle.jl_folder.specs.State.{is_folder, has_parent};
ghost use Rattle.jl_folder.specs.Views.{FolderAnswers, FolderTurns, FolderKeeps, state, moved};
ghost use Rattle.jl_folder.specs.Calls.{Call};
ghost use Rattle.jl_rely.specs.Steps.{IsLone};
ghost use Rattle.jl_rely.specs.Claims.{Anywhere, GoesOn};
ghost use Rattle.jl_rely.specs.Touches.{TouchedByOther};
ghost use Rattle.jl_protocol.specs.Tidy.{IsTidy};
ghost use Rattle.jl_store.specs.Kinds.{IsOnName, UsesFile};
ghost use Rattle.jl_store.specs.Publishing.{CallsOn, MakesFile, TakesAway, TempOpens, TempLeft, TempNamed, TempAlone};

use jl_folder::{Created, FileNo, Folder, Path, Removed};

// A temporary file that was made, and is open.
#[derive(Clone, Copy)]
pub(crate) enum TempFile {
    File(FileNo),
    Skipped,
    Fault,
    NoMemory,
}

// A name that was taken away, if it named a file.
#[derive(Clone, Copy)]
pub(crate) enum Taken {
    Away,
    Fault,
    NoMemory,
}

// One attempt.
fn make_file<F: Folder>(folder: &mut F, temp: &Path) -> TempFile
    ensures opens { TempOpens result (F.view folder.old) (F.view folder.new) }
    ensures frame { FolderTurns (result ≡ TempFile.Fault) (F.view folder.old) (F.view folder.new) }
    ensures call { (F.view folder.old).told
        → Call (F.view folder.old) (F.view folder.new)
        (MakesFile temp.now (F.view folder.new).opens result) }
{
    match folder.create(temp) {
        Created::Made(number) => TempFile::File(number),
        Created::Exists => TempFile::Skipped,
        Created::NoParent => TempFile::Skipped,
        Created::Failed => TempFile::Fault,
        Created::NoMemory => TempFile::NoMemory,
    }
}

// Takes the name away from a file.
fn take_away<F: Folder>(folder: &mut F, temp: &Path) -> Taken
    ensures frame { FolderAnswers (result ≡ Taken.Fault) (F.view folder.old) (F.view folder.new) }
    ensures call { (F.view folder.old).told
        → Call (F.view folder.old) (F.view folder.new) (TakesAway temp.now result) }
{
    match folder.remove(temp) {
        Removed::Done => Taken::Away,
        Removed::NoFile => Taken::Away,
        Removed::Failed => Taken::Fault,
        Removed::NoMemory => Taken::NoMemory,
    }
}

// Makes the file where its name was taken, as by a dead run of the same token: the name is taken
// away once.
fn replace_file<F: Folder>(folder: &mut F, temp: &Path) -> TempFile
    ensures goes { (F.view folder.old).told → GoesOn (F.view folder.old) (F.view folder.new) }
    ensures opens { TempOpens result (F.view folder.old) (F.view folder.new) }
    ensures frame { FolderTurns (result ≡ TempFile.Fault) (F.view folder.old) (F.view folder.new) }
    ensures called { (F.view folder.old).told
        → CallsOn temp.now (IsOnName temp.now) IsTidy
        (λ root. TempLeft temp.now result (F.view folder.new)) (F.view folder.old)
        (F.view folder.new) }
    ensures named { (F.view folder.old).told → TempNamed temp.now result (F.view folder.new) }
    ensures skipped { (F.view folder.old).told → result ≡ TempFile.Skipped → is_folder (state (F.view folder.old)) temp.now ≡ false → has_parent (state (F.view folder.old)) temp.now ≡ true →
        TouchedByOther (F.view folder.old).token (UsesFile temp.now) (moved (F.view folder.old) (F.view folder.new)) }
    ensures alone { (F.view folder.old).told → IsLone (F.view folder.old).token (moved (F.view folder.old) (F.view folder.new)) →
        TempAlone temp.now result (state (F.view folder.old)) (F.view folder.new) }
{
    match take_away(folder, temp) {
        Taken::Away => make_file(folder, temp),
        Taken::Fault => TempFile::Fault,
        Taken::NoMemory => TempFile::NoMemory,
    }
}

// Makes the temporary file anew, also where one of a dead run with this token stands.
pub(crate) fn create_temp<F: Folder>(folder: &mut F, temp: &Path) -> TempFile
    ensures goes { (F.view folder.old).told → GoesOn (F.view folder.old) (F.view folder.new) }
    ensures opens { TempOpens result (F.view folder.old) (F.view folder.new) }
    ensures frame { FolderTurns (result ≡ TempFile.Fault) (F.view folder.old) (F.view folder.new) }
    ensures called { (F.view folder.old).told
        → CallsOn temp.now (IsOnName temp.now) IsTidy
        (λ root. TempLeft temp.now result (F.view folder.new)) (F.view folder.old)
        (F.view folder.new) }
    ensures named { (F.view folder.old).told → TempNamed temp.now result (F.view folder.new) }
    ensures skipped { (F.view folder.old).told → result ≡ TempFile.Skipped → is_folder (state (F.view folder.old)) temp.now ≡ false → has_parent (state (F.view folder.old)) temp.now ≡ true →
        TouchedByOther (F.view folder.old).token (UsesFile temp.now) (moved (F.view folder.old) (F.view folder.new)) }
    ensures alone { (F.view folder.old).told → IsLone (F.view folder.old).token (moved (F.view folder.old) (F.view folder.new)) →
        TempAlone temp.now result (state (F.view folder.old)) (F.view folder.new) }
{
    match folder.create(temp) {
        Created::Made(number) => TempFile::File(number),
        Created::Exists => replace_file(folder, temp),
        Created::NoParent => TempFile::Skipped,
        Created::Failed => TempFile::Fault,
        Created::NoMemory => TempFile::NoMemory,
    }
}

// One attempt to take the temporary name away.
pub(crate) fn abandon<F: Folder>(folder: &mut F, temp: &Path)
    ensures goes { (F.view folder.old).told → GoesOn (F.view folder.old) (F.view folder.new) }
    ensures frame { FolderKeeps (F.view folder.old) (F.view folder.new) }
    ensures called { (F.view folder.old).told
        → CallsOn temp.now (IsOnName temp.now) (λ root. Anywhere) (λ root. Anywhere)
        (F.view folder.old) (F.view folder.new) }
{
    let _ = take_away(folder, temp);
}
