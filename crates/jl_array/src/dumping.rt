// Dumping a list into a file of its own.
ghost use Rattle.std.specs.Prelude.{◌≡◌, ℕ, List, Some};
ghost use Rattle.jl_text.specs.Paths.{PathView};
ghost use Rattle.jl_folder.specs.State.{closed};
ghost use Rattle.jl_folder.specs.Views.{FolderAnswers, FolderTurns};
ghost use Rattle.jl_folder.specs.Calls.{IsMade};
ghost use Rattle.jl_folder.specs.declared.moves.OpenFile.{OpenFile};
ghost use Rattle.jl_array.specs.Dumps.{dump_text};
ghost use Rattle.jl_array.specs.Dumping.{Dumping, Filling, Holding, IsWritten, Written, Dumps};
ghost use Rattle.jl_rely.specs.Claims.{Anywhere};

use crate::appending::{Wrote, append_bytes, append_numbers};
use crate::blocks::{head_of, new_block};
use jl_folder::{Created, FileNo, Folder, Path};
use jl_value::Numbers;

/// The answer of `dump`.
#[derive(Clone, Copy, Debug, PartialEq, Eq)]
pub enum Dumped {
    Done,
    Exists,
    NoParent,
    FolderFault,
    NoMemory,
}

// Writes the text of a list to a file that is open and empty.
fn write_text<F: Folder>(folder: &mut F, number: FileNo, numbers: &[i64]) -> Wrote
    requires { IsMade (F.view folder.old).opens number.0 }
    ensures called { (F.view folder.old).told → (file : OpenFile)
        → (F.view folder.old).opens number.0 ≡ Some file → (path : PathView) (start : List ℕ)
        → Dumping path (F.view folder.old).token
        (IsWritten (F.view folder.old).token path file.node start)
        (Written (F.view folder.old).token path file.node start (dump_text numbers.now) result)
        (F.view folder.old) (F.view folder.new) }
    ensures holds { Holding (F.view folder.old) (F.view folder.new) number.0 }
    ensures frame { FolderAnswers (result ≡ Wrote.Fault) (F.view folder.old) (F.view folder.new) }
{
    let head = head_of(numbers.len() as u64);
    match append_bytes(folder, number, &head) {
        Wrote::All => {
            let mut buf = new_block();
            append_numbers(folder, number, numbers, &mut buf)
        }
        Wrote::Fault => Wrote::Fault,
        Wrote::NoMemory => Wrote::NoMemory,
    }
}

// Writes the text, and closes the file whatever came of it.
fn write_file<F: Folder>(folder: &mut F, number: FileNo, numbers: &[i64]) -> Wrote
    requires { IsMade (F.view folder.old).opens number.0 }
    ensures called { (F.view folder.old).told → (file : OpenFile)
        → (F.view folder.old).opens number.0 ≡ Some file → (path : PathView) (start : List ℕ)
        → Dumping path (F.view folder.old).token
        (IsWritten (F.view folder.old).token path file.node start)
        (Written (F.view folder.old).token path file.node start (dump_text numbers.now) result)
        (F.view folder.old) (F.view folder.new) }
    ensures holds { Holding (F.view folder.old) (F.view folder.new) number.0 }
    ensures opens { (F.view folder.new).opens ≡ closed (F.view folder.old).opens number.0 }
    ensures frame { FolderTurns (result ≡ Wrote.Fault) (F.view folder.old) (F.view folder.new) }
{
    let wrote = write_text(folder, number, numbers);
    folder.close(number);
    wrote
}

/// Makes the file of a list. A name that is taken is left as it is. After a fault, and where there
/// is no memory, the file may be there with a front of the text, which is no array.
pub fn dump<F: Folder>(folder: &mut F, path: &Path, numbers: &Numbers) -> Dumped
    ensures dumps { (F.view folder.old).told
        → Dumps path.now numbers.now result (F.view folder.old) (F.view folder.new) }
    ensures owned { (F.view folder.old).told
        → Filling path.now (F.view folder.old).token Anywhere Anywhere (F.view folder.old)
        (F.view folder.new) }
    ensures frame { FolderAnswers (result ≡ Dumped.FolderFault) (F.view folder.old)
        (F.view folder.new) }
{
    match folder.create(path) {
        Created::Made(number) => match write_file(folder, number, numbers.as_slice()) {
            Wrote::All => Dumped::Done,
            Wrote::Fault => Dumped::FolderFault,
            Wrote::NoMemory => Dumped::NoMemory,
        },
        Created::Exists => Dumped::Exists,
        Created::NoParent => Dumped::NoParent,
        Created::Failed => Dumped::FolderFault,
        Created::NoMemory => Dumped::NoMemory,
    }
}
