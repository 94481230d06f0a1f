// Appending bytes and numbers to an open file.
ghost use Rattle.std.specs.Prelude.{◌≡◌, ℕ, List, Some, length};
ghost use Rattle.jl_text.specs.Paths.{PathView};
ghost use Rattle.jl_text.specs.declared.limits.TheConstants.{PIECE_BYTES};
ghost use Rattle.jl_folder.specs.Views.{FolderAnswers};
ghost use Rattle.jl_folder.specs.Calls.{IsMade};
ghost use Rattle.jl_folder.specs.declared.moves.OpenFile.{OpenFile};
ghost use Rattle.jl_array.specs.Dumps.{numbers_bytes};
ghost use Rattle.jl_array.specs.Dumping.{Dumping, Holding, IsWritten, Written};

use crate::blocks::{BLOCK_NUMBERS, put_numbers};
use jl_folder::{Appended, FileNo, Folder};
use jl_text::limits::PIECE_BYTES;

// The answer of an appending.
#[derive(Clone, Copy)]
pub(crate) enum Wrote {
    All,
    Fault,
    NoMemory,
}

// Appends all bytes, in pieces.
pub(crate) fn append_bytes<F: Folder>(folder: &mut F, number: FileNo, bytes: &[u8]) -> Wrote
    requires { IsMade (F.view folder.old).opens number.0 }
    ensures called { (F.view folder.old).told → (file : OpenFile)
        → (F.view folder.old).opens number.0 ≡ Some file → (path : PathView) (start : List ℕ)
        → Dumping path (F.view folder.old).token
        (IsWritten (F.view folder.old).token path file.node start)
        (Written (F.view folder.old).token path file.node start bytes.now result)
        (F.view folder.old) (F.view folder.new) }
    ensures holds { Holding (F.view folder.old) (F.view folder.new) number.0 }
    ensures frame { FolderAnswers (result ≡ Wrote.Fault) (F.view folder.old) (F.view folder.new) }
{
    let mut at = 0;
    while at < bytes.len() {
        let end = bytes.len().min(at + PIECE_BYTES);
        match folder.append(number, &bytes[at..end]) {
            Appended::Wrote(count) => at += count,
            Appended::Failed => return Wrote::Fault,
            Appended::NoMemory => return Wrote::NoMemory,
        }
    }
    Wrote::All
}

// Appends all numbers, a block at a time.
pub(crate) fn append_numbers<F: Folder>(
    folder: &mut F,
    number: FileNo,
    numbers: &[i64],
    buf: &mut [u8],
) -> Wrote
    requires made { IsMade (F.view folder.old).opens number.0 }
    requires room { length buf.old ≡ PIECE_BYTES }
    ensures called { (F.view folder.old).told → (file : OpenFile)
        → (F.view folder.old).opens number.0 ≡ Some file → (path : PathView) (start : List ℕ)
        → Dumping path (F.view folder.old).token
        (IsWritten (F.view folder.old).token path file.node start)
        (Written (F.view folder.old).token path file.node start (numbers_bytes numbers.now) result)
        (F.view folder.old) (F.view folder.new) }
    ensures holds { Holding (F.view folder.old) (F.view folder.new) number.0 }
    ensures frame { FolderAnswers (result ≡ Wrote.Fault) (F.view folder.old) (F.view folder.new) }
{
    let mut have = 0;
    while have < numbers.len() {
        let end = numbers.len().min(have + BLOCK_NUMBERS);
        let piece = &mut buf[..8 * (end - have)];
        put_numbers(&numbers[have..end], piece);
        match append_bytes(folder, number, piece) {
            Wrote::All => have = end,
            Wrote::Fault => return Wrote::Fault,
            Wrote::NoMemory => return Wrote::NoMemory,
        }
    }
    Wrote::All
}
