// Reading numbers from a dump file.
ghost use Rattle.std.specs.Prelude.{◌≡◌, ◌<◌, ◌≤◌, ◌+◌, ◌*◌, ◌^◌, ℤ, List, length};
ghost use Rattle.jl_text.specs.declared.limits.TheConstants.{PIECE_BYTES};
ghost use Rattle.jl_folder.specs.Views.{FolderAnswers};
ghost use Rattle.jl_folder.specs.Calls.{IsOpen, Waits};
ghost use Rattle.jl_array.specs.Dumps.{dump_length, AreSigned};
ghost use Rattle.jl_array.specs.Answers.{FillsNumbers, HoldsArray};
ghost use Rattle.jl_array.specs.Answers.{RangeFills, RangesFile, RangesList};

use crate::blocks::{BLOCK_NUMBERS, HEAD_BYTES, new_block, take_numbers};
use crate::filling::{PartRead, fill};
use crate::opening::ArrayFile;
use jl_folder::{FileNo, Folder};

/// The answer of `range`: how many numbers stand at the front of `out`.
#[derive(Clone, Copy, Debug, PartialEq, Eq)]
pub enum Ranged {
    Filled(usize),
    Short,
    FolderFault,
}

// Fills `out` with the file's numbers from an offset on, a block at a time.
fn fill_numbers<F: Folder>(
    folder: &mut F,
    number: FileNo,
    at: u64,
    buf: &mut [u8],
    out: &mut [i64],
) -> PartRead
    requires is_open { IsOpen (F.view folder.old).opens number.0 }
    requires room { length buf.old ≡ PIECE_BYTES }
    requires fits { at + 8 * length out.old ≤ 2 ^ 64 }
    ensures waits { (F.view folder.old).told → Waits (F.view folder.old) (F.view folder.new) }
    ensures fills { (F.view folder.old).told
        → FillsNumbers number.0 at out.new result (F.view folder.new) }
    ensures signed { result ≡ PartRead.Whole → AreSigned out.new }
    ensures frame { FolderAnswers (result ≡ PartRead.Fault) (F.view folder.old)
        (F.view folder.new) }
{
    let mut have = 0;
    while have < out.len() {
        let end = out.len().min(have + BLOCK_NUMBERS);
        let piece = &mut buf[..8 * (end - have)];
        match fill(folder, number, at + 8 * have as u64, piece) {
            PartRead::Whole => take_numbers(piece, &mut out[have..end]),
            PartRead::Short => return PartRead::Short,
            PartRead::Fault => return PartRead::Fault,
        }
        have = end;
    }
    PartRead::Whole
}

/// Reads the numbers from one place on, as many as there are and as `out` holds. After a refusal
/// the front of `out` holds any numbers.
pub fn range<F: Folder>(folder: &mut F, array: &ArrayFile, from: u64, out: &mut [i64]) -> Ranged
    requires is_open { IsOpen (F.view folder.old).opens array.now.no.0 }
    requires countable { dump_length array.now.count < 2 ^ 64 }
    requires within { from ≤ array.now.count }
    ensures waits { (F.view folder.old).told → Waits (F.view folder.old) (F.view folder.new) }
    ensures fills { RangeFills array.now from out.old out.new result }
    ensures file { (F.view folder.old).told
        → RangesFile array.now from out.new result (F.view folder.new) }
    ensures list { (F.view folder.old).told → (list : List ℤ)
        → HoldsArray array.now list (F.view folder.old) → RangesList list from out.new result }
    ensures frame { FolderAnswers (result ≡ Ranged.FolderFault) (F.view folder.old)
        (F.view folder.new) }
{
    let left = array.count - from;
    let count = (out.len() as u64).min(left) as usize;
    let at = HEAD_BYTES as u64 + 8 * from;
    let mut buf = new_block();
    match fill_numbers(folder, array.no, at, &mut buf, &mut out[..count]) {
        PartRead::Whole => Ranged::Filled(count),
        PartRead::Short => Ranged::Short,
        PartRead::Fault => Ranged::FolderFault,
    }
}
