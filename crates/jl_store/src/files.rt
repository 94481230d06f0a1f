// Publishing a final file.
ghost use Rattle.std.specs.Prelude.{◌≡◌, ◌≢◌, ◌++◌, [], ℕ, List, true, false, Some, ◌∷◌};
ghost use Rattle.jl_text.specs.Paths.{PathView};
ghost use Rattle.jl_folder.specs.State.{State, closed, is_folder, has_parent, place_at};
ghost use Rattle.jl_folder.specs.Views.{FolderAnswers, FolderTurns, state, moved};
ghost use Rattle.jl_folder.specs.Calls.{IsMade};
ghost use Rattle.jl_folder.specs.declared.moves.OpenFile.{OpenFile};
ghost use Rattle.jl_folder.specs.declared.moves.Place.{Place};
ghost use Rattle.jl_folder.specs.declared.moves.Move.{Move};
ghost use Rattle.jl_entry.specs.Names.{Final, IsFinal, IsTemp};
ghost use Rattle.jl_rely.specs.Steps.{IsLone};
ghost use Rattle.jl_rely.specs.Claims.{Called, Anywhere, GoesOn};
ghost use Rattle.jl_rely.specs.Touches.{TouchedByOther};
ghost use Rattle.jl_protocol.specs.Whole.{IsWhole};
ghost use Rattle.jl_protocol.specs.Proper.{IsProper};
ghost use Rattle.jl_protocol.specs.Owned.{IsOwnFile};
ghost use Rattle.jl_store.specs.Kinds.{IsAppend, IsFor, PutsThis, UsesNames};
ghost use Rattle.jl_store.specs.Renames.{PutsInTurn};
ghost use Rattle.jl_store.specs.Publishing.{CallsOn, BytesLeft, EndsIn, Publishes, IsOfFile, IsDraft, IsPublished, BytesAlone};

use crate::temporary::{TempFile, abandon, create_temp};
use jl_folder::{Appended, FileNo, Folder, Path, Renamed};
use jl_text::limits::PIECE_BYTES;

// The answer of an appending.
#[derive(Clone, Copy)]
pub(crate) enum Wrote {
    All,
    Fault,
    NoMemory,
}

/// The answer of `publish`.
#[derive(Clone, Copy, Debug, PartialEq, Eq, Drop)]
pub enum Published {
    Done,
    Skipped,
    Fault,
    NoMemory,
}

// Appends all bytes, in pieces.
fn append_all<F: Folder>(folder: &mut F, number: FileNo, bytes: &[u8]) -> Wrote
    requires { IsMade (F.view folder.old).opens number.0 }
    ensures goes { (F.view folder.old).told → GoesOn (F.view folder.old) (F.view folder.new) }
    ensures frame { FolderAnswers (result ≡ Wrote.Fault) (F.view folder.old) (F.view folder.new) }
    ensures called { (F.view folder.old).told → (file : OpenFile)
        → (F.view folder.old).opens number.0 ≡ Some file → (temp : PathView) (start : List ℕ)
        → CallsOn temp IsAppend (λ root. IsOwnFile (F.view folder.old).token temp file.node start)
        (λ root. BytesLeft (F.view folder.old).token temp file.node (start ++ bytes.now) result)
        (F.view folder.old) (F.view folder.new) }
    ensures alone { (F.view folder.old).told → (file : OpenFile)
        → (F.view folder.old).opens number.0 ≡ Some file
        → (temp : PathView) (start : List ℕ) (before : State)
        → IsLone (F.view folder.old).token (moved (F.view folder.old) (F.view folder.new))
        → IsDraft (F.view folder.old).token temp file.node start before (state (F.view folder.old))
        → BytesAlone (F.view folder.old).token temp file.node (start ++ bytes.now) result before
        (state (F.view folder.new)) }
{
    let mut at = 0;
    while at < bytes.len() {
        let end = bytes.len().min(at + PIECE_BYTES);
        match folder.append(number, &bytes[at..end]) {
            Appended::Wrote(count) => at += count,
            Appended::Failed => return Wrote::Fault,
            Appended::NoMemory => return Wrote::NoMemory,
        }
    }
    Wrote::All
}

// Appends all bytes, and closes the file whatever came of it.
fn fill<F: Folder>(folder: &mut F, number: FileNo, bytes: &[u8]) -> Wrote
    requires { IsMade (F.view folder.old).opens number.0 }
    ensures goes { (F.view folder.old).told → GoesOn (F.view folder.old) (F.view folder.new) }
    ensures opens { (F.view folder.new).opens ≡ closed (F.view folder.old).opens number.0 }
    ensures frame { FolderTurns (result ≡ Wrote.Fault) (F.view folder.old) (F.view folder.new) }
    ensures called { (F.view folder.old).told → (file : OpenFile)
        → (F.view folder.old).opens number.0 ≡ Some file → (temp : PathView) (start : List ℕ)
        → CallsOn temp IsAppend (λ root. IsOwnFile (F.view folder.old).token temp file.node start)
        (λ root. BytesLeft (F.view folder.old).token temp file.node (start ++ bytes.now) result)
        (F.view folder.old) (F.view folder.new) }
    ensures alone { (F.view folder.old).told → (file : OpenFile)
        → (F.view folder.old).opens number.0 ≡ Some file
        → (temp : PathView) (start : List ℕ) (before : State)
        → IsLone (F.view folder.old).token (moved (F.view folder.old) (F.view folder.new))
        → IsDraft (F.view folder.old).token temp file.node start before (state (F.view folder.old))
        → BytesAlone (F.view folder.old).token temp file.node (start ++ bytes.now) result before
        (state (F.view folder.new)) }
{
    let wrote = append_all(folder, number, bytes);
    folder.close(number);
    wrote
}

// Gives the temporary file its final name.
fn put_in_place<F: Folder>(folder: &mut F, last: &Path, temp: &Path) -> Published
    requires { temp.now ≢ last.now }
    ensures goes { (F.view folder.old).told → GoesOn (F.view folder.old) (F.view folder.new) }
    ensures frame { FolderAnswers (result ≡ Published.Fault) (F.view folder.old)
        (F.view folder.new) }
    ensures called { (F.view folder.old).told
        → (root : PathView) (x : Final) (n : ℕ) (bytes : List ℕ)
        → IsTemp root x (F.view folder.old).token temp.now → IsFinal root x last.now
        → IsWhole x bytes
        → Called (IsProper root) (PutsThis root last.now bytes) (IsFor last.now temp.now)
        (IsOwnFile (F.view folder.old).token temp.now n bytes) Anywhere (F.view folder.old)
        (F.view folder.new) }
    ensures once { (F.view folder.old).told → (root : PathView) (x : Final)
        → IsTemp root x (F.view folder.old).token temp.now
        → PutsInTurn (last.now ∷ []) (F.view folder.old).token
        (moved (F.view folder.old) (F.view folder.new)) }
    ensures done { (F.view folder.old).told → result ≡ Published.Done
        → EndsIn ((F.view folder.old).token, Move.Rename temp.now last.now)
        (moved (F.view folder.old) (F.view folder.new)) }
    ensures skipped { (F.view folder.old).told → result ≡ Published.Skipped → (n : ℕ)
        → place_at (state (F.view folder.old)) temp.now ≡ Some (Place.File n)
        → is_folder (state (F.view folder.old)) last.now ≡ false
        → has_parent (state (F.view folder.old)) last.now ≡ true
        → TouchedByOther (F.view folder.old).token (UsesNames last.now temp.now)
        (moved (F.view folder.old) (F.view folder.new)) }
    ensures alone { (F.view folder.old).told → result ≡ Published.Done
        → (n : ℕ) (bytes : List ℕ) (before : State)
        → IsLone (F.view folder.old).token (moved (F.view folder.old) (F.view folder.new))
        → IsDraft (F.view folder.old).token temp.now n bytes before (state (F.view folder.old))
        → IsPublished last.now temp.now bytes before (state (F.view folder.new)) }
{
    match folder.rename(temp, last) {
        Renamed::Done => Published::Done,
        Renamed::NoFile => Published::Skipped,
        Renamed::NoParent => Published::Skipped,
        Renamed::Blocked => Published::Skipped,
        Renamed::Failed => {
            abandon(folder, temp);
            Published::Fault
        }
        Renamed::NoMemory => Published::NoMemory,
    }
}

// Publishes from a temporary file that is open and empty.
fn publish_open<F: Folder>(
    folder: &mut F,
    number: FileNo,
    last: &Path,
    temp: &Path,
    bytes: &[u8],
) -> Published
    requires made { IsMade (F.view folder.old).opens number.0 }
    requires apart { temp.now ≢ last.now }
    ensures goes { (F.view folder.old).told → GoesOn (F.view folder.old) (F.view folder.new) }
    ensures opens { (F.view folder.new).opens ≡ closed (F.view folder.old).opens number.0 }
    ensures frame { FolderTurns (result ≡ Published.Fault) (F.view folder.old) (F.view folder.new) }
    ensures called { (F.view folder.old).told → (file : OpenFile)
        → (F.view folder.old).opens number.0 ≡ Some file → (root : PathView) (x : Final)
        → IsTemp root x (F.view folder.old).token temp.now → IsFinal root x last.now
        → IsWhole x bytes.now
        → Called (IsProper root) (PutsThis root last.now bytes.now) (IsFor last.now temp.now)
        (IsOwnFile (F.view folder.old).token temp.now file.node []) Anywhere (F.view folder.old)
        (F.view folder.new) }
    ensures once { (F.view folder.old).told → (file : OpenFile)
        → (F.view folder.old).opens number.0 ≡ Some file → (root : PathView) (x : Final)
        → IsTemp root x (F.view folder.old).token temp.now
        → PutsInTurn (last.now ∷ []) (F.view folder.old).token
        (moved (F.view folder.old) (F.view folder.new)) }
    ensures done { (F.view folder.old).told → result ≡ Published.Done
        → EndsIn ((F.view folder.old).token, Move.Rename temp.now last.now)
        (moved (F.view folder.old) (F.view folder.new)) }
    ensures skipped { (F.view folder.old).told → result ≡ Published.Skipped
        → (root : PathView) (x : Final) → IsTemp root x (F.view folder.old).token temp.now
        → IsFinal root x last.now → (file : OpenFile)
        → (F.view folder.old).opens number.0 ≡ Some file → (n : ℕ)
        → place_at (state (F.view folder.old)) temp.now ≡ Some (Place.File n)
        → is_folder (state (F.view folder.old)) last.now ≡ false
        → has_parent (state (F.view folder.old)) last.now ≡ true
        → TouchedByOther (F.view folder.old).token (UsesNames last.now temp.now)
        (moved (F.view folder.old) (F.view folder.new)) }
    ensures alone { (F.view folder.old).told → result ≡ Published.Done → (file : OpenFile)
        → (F.view folder.old).opens number.0 ≡ Some file → (before : State)
        → IsLone (F.view folder.old).token (moved (F.view folder.old) (F.view folder.new))
        → IsDraft (F.view folder.old).token temp.now file.node [] before (state (F.view folder.old))
        → IsPublished last.now temp.now bytes.now before (state (F.view folder.new)) }
{
    match fill(folder, number, bytes) {
        Wrote::All => put_in_place(folder, last, temp),
        Wrote::Fault => {
            abandon(folder, temp);
            Published::Fault
        }
        Wrote::NoMemory => Published::NoMemory,
    }
}

/// Publishes a final file: all bytes stand under the temporary name before the one rename that
/// gives them the final name.
/// Where another run takes a name or the folder away meanwhile it is skipped; after a fault the
/// temporary name is taken away, if that can be.
pub fn publish<F: Folder>(folder: &mut F, last: &Path, temp: &Path, bytes: &[u8]) -> Published
    requires { IsOfFile (F.view folder.old).token last.now temp.now bytes.now }
    ensures goes { (F.view folder.old).told → GoesOn (F.view folder.old) (F.view folder.new) }
    ensures frame { FolderAnswers (result ≡ Published.Fault) (F.view folder.old)
        (F.view folder.new) }
    ensures called { (F.view folder.old).told → (root : PathView) (x : Final)
        → IsTemp root x (F.view folder.old).token temp.now → IsFinal root x last.now
        → IsWhole x bytes.now
        → Publishes root last.now temp.now bytes.now result (F.view folder.old)
        (F.view folder.new) }
    ensures done { (F.view folder.old).told → result ≡ Published.Done
        → EndsIn ((F.view folder.old).token, Move.Rename temp.now last.now)
        (moved (F.view folder.old) (F.view folder.new)) }
    ensures alone { (F.view folder.old).told → result ≡ Published.Done
        → IsLone (F.view folder.old).token (moved (F.view folder.old) (F.view folder.new))
        → IsPublished last.now temp.now bytes.now (state (F.view folder.old))
        (state (F.view folder.new)) }
{
    match create_temp(folder, temp) {
        TempFile::File(number) => publish_open(folder, number, last, temp, bytes),
        TempFile::Skipped => Published::Skipped,
        TempFile::Fault => {
            abandon(folder, temp);
            Published::Fault
        }
        TempFile::NoMemory => Published::NoMemory,
    }
}
