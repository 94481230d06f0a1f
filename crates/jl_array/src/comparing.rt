// Comparing numbers with a dump file.
ghost use Rattle.std.specs.Prelude.{◌≡◌, ◌<◌, ◌+◌, ◌^◌, ℕ, ℤ, List, ◌++◌, length};
ghost use Rattle.jl_text.specs.declared.limits.TheConstants.{PIECE_BYTES};
ghost use Rattle.jl_folder.specs.Views.{FolderAnswers};
ghost use Rattle.jl_folder.specs.Calls.{IsOpen, Waits};
ghost use Rattle.jl_array.specs.Dumps.{dump_length, numbers_bytes, AreSigned, HasPart};
ghost use Rattle.jl_array.specs.Nodes.{OpenHas};
ghost use Rattle.jl_array.specs.Answers.{HoldsArray, ComparesBytes, ComparesFile, ComparesList};

use crate::blocks::{BLOCK_NUMBERS, HEAD_BYTES, new_block, put_numbers};
use crate::opening::ArrayFile;
use jl_folder::{FileNo, Folder, ReadAt};
use jl_value::Numbers;

/// The answer of `same`.
#[derive(Clone, Copy, Debug, PartialEq, Eq)]
pub enum SameArray {
    Yes,
    No,
    Short,
    FolderFault,
}

// Compares the file from an offset behind its head on with bytes, in as many calls as that takes.
// What stands before the offset was compared and was the same.
fn compare_bytes<F: Folder>(
    folder: &mut F,
    number: FileNo,
    done: u64,
    wanted: &[u8],
    buf: &mut [u8],
) -> SameArray
    requires is_open { IsOpen (F.view folder.old).opens number.0 }
    requires room { length buf.old ≡ length wanted.now }
    requires fits { 15 + done + length wanted.now < 2 ^ 64 }
    ensures waits { (F.view folder.old).told → Waits (F.view folder.old) (F.view folder.new) }
    ensures compares { (F.view folder.old).told → (before : List ℕ) → length before ≡ done
        → OpenHas number.0 (HasPart 15 before) (F.view folder.old)
        → ComparesBytes number.0 (before ++ wanted.now) result (F.view folder.new) }
    ensures frame { FolderAnswers (result ≡ SameArray.FolderFault) (F.view folder.old)
        (F.view folder.new) }
{
    let start = HEAD_BYTES as u64 + done;
    let mut have = 0;
    while have < wanted.len() {
        match folder.read_at(number, start + have as u64, &mut buf[have..]) {
            ReadAt::Read(0) => return SameArray::Short,
            ReadAt::Read(k) => {
                if &buf[have..have + k] != &wanted[have..have + k] {
                    return SameArray::No;
                }
                have += k;
            }
            ReadAt::Failed => return SameArray::FolderFault,
        }
    }
    SameArray::Yes
}

// Compares the numbers of the file with these, a block at a time.
fn compare_numbers<F: Folder>(
    folder: &mut F,
    number: FileNo,
    numbers: &[i64],
    wanted: &mut [u8],
    buf: &mut [u8],
) -> SameArray
    requires is_open { IsOpen (F.view folder.old).opens number.0 }
    requires wanted_room { length wanted.old ≡ PIECE_BYTES }
    requires room { length buf.old ≡ PIECE_BYTES }
    requires fits { dump_length (length numbers.now) < 2 ^ 64 }
    ensures waits { (F.view folder.old).told → Waits (F.view folder.old) (F.view folder.new) }
    ensures compares { (F.view folder.old).told
        → ComparesBytes number.0 (numbers_bytes numbers.now) result (F.view folder.new) }
    ensures signed { result ≡ SameArray.Yes → AreSigned numbers.now }
    ensures frame { FolderAnswers (result ≡ SameArray.FolderFault) (F.view folder.old)
        (F.view folder.new) }
{
    let mut have = 0;
    while have < numbers.len() {
        let end = numbers.len().min(have + BLOCK_NUMBERS);
        let size = 8 * (end - have);
        put_numbers(&numbers[have..end], &mut wanted[..size]);
        let done = 8 * have as u64;
        match compare_bytes(folder, number, done, &wanted[..size], &mut buf[..size]) {
            SameArray::Yes => have = end,
            other => return other,
        }
    }
    SameArray::Yes
}

/// Whether the array's file holds exactly these numbers. It is `Short` where the file ends before
/// them and what it has is their front.
pub fn same<F: Folder>(folder: &mut F, array: &ArrayFile, numbers: &Numbers) -> SameArray
    requires is_open { IsOpen (F.view folder.old).opens array.now.no.0 }
    requires countable { dump_length array.now.count < 2 ^ 64 }
    ensures waits { (F.view folder.old).told → Waits (F.view folder.old) (F.view folder.new) }
    ensures file { (F.view folder.old).told
        → ComparesFile array.now numbers.now result (F.view folder.new) }
    ensures list { (F.view folder.old).told → (list : List ℤ)
        → HoldsArray array.now list (F.view folder.old) → ComparesList list numbers.now result }
    ensures frame { FolderAnswers (result ≡ SameArray.FolderFault) (F.view folder.old)
        (F.view folder.new) }
{
    let numbers = numbers.as_slice();
    if numbers.len() as u64 != array.count {
        return SameArray::No;
    }
    let mut wanted = new_block();
    let mut buf = new_block();
    compare_numbers(folder, array.no, numbers, &mut wanted, &mut buf)
}
