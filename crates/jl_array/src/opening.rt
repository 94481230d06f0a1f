// Opening and closing a dump file.
ghost use Rattle.std.specs.Prelude.{◌≡◌, ◌<◌, ◌≤◌, ◌^◌, IfNone, IfSome, Err};
ghost use Rattle.jl_folder.specs.State.{closed};
ghost use Rattle.jl_folder.specs.Views.{FolderAnswers, FolderTurns};
ghost use Rattle.jl_folder.specs.Calls.{IsOpen, Waits};
ghost use Rattle.jl_array.specs.Dumps.{dump_length, SaysCount};
ghost use Rattle.jl_array.specs.Nodes.{OpenHas};
ghost use Rattle.jl_array.specs.Answers.{JudgesFile, IsCountable, answer_to};
ghost use Rattle.jl_array.specs.Answers.{OpensArray, ArrayOpens};

use crate::blocks::{HEAD_BYTES, count_of};
use crate::filling::{PartRead, fill};
use jl_folder::{FileNo, Folder, Opened, Path};

/// An array that is open: the number of its file, and how many numbers that has.
#[derive(Debug, Drop, PartialEq, Eq)]
pub struct ArrayFile {
    pub no: FileNo,
    pub count: u64,
}

/// The answer of `open_array`.
#[derive(Debug, Drop, PartialEq, Eq)]
pub enum ArrayOpened {
    Array(ArrayFile),
    Short,
    NotArray,
    NoFile,
    FolderFault,
    NoMemory,
}

// Why an open file is no array.
#[derive(Clone, Copy)]
enum Refused {
    Short,
    NotArray,
    Fault,
}

// How long a file of so many numbers is, if that has 64 bits.
fn length_of(count: u64) -> Option<u64>
    ensures some { IfSome result (λ end. end ≡ dump_length count) }
    ensures none { IfNone result (2 ^ 64 ≤ dump_length count) }
{
    count.checked_mul(8)?.checked_add(HEAD_BYTES as u64)
}

// Whether an open file, whose head says this count, ends there.
fn judge_end<F: Folder>(folder: &mut F, number: FileNo, count: u64) -> Result<u64, Refused>
    requires { IsOpen (F.view folder.old).opens number.0 }
    ensures waits { (F.view folder.old).told → Waits (F.view folder.old) (F.view folder.new) }
    ensures judges { (F.view folder.old).told
        → OpenHas number.0 (SaysCount count) (F.view folder.old)
        → JudgesFile number.0 result (F.view folder.new) }
    ensures countable { IsCountable result }
    ensures frame { FolderAnswers (result ≡ Err Refused.Fault) (F.view folder.old)
        (F.view folder.new) }
{
    let Some(end) = length_of(count) else {
        return Err(Refused::Short);
    };
    let mut byte = [0u8; 1];
    match fill(folder, number, end - 1, &mut byte) {
        PartRead::Whole => {}
        PartRead::Short => return Err(Refused::Short),
        PartRead::Fault => return Err(Refused::Fault),
    }
    match fill(folder, number, end, &mut byte) {
        PartRead::Whole => Err(Refused::NotArray),
        PartRead::Short => Ok(count),
        PartRead::Fault => Err(Refused::Fault),
    }
}

// Reads the head of an open file, and looks whether it ends where that says.
fn judge<F: Folder>(folder: &mut F, number: FileNo) -> Result<u64, Refused>
    requires { IsOpen (F.view folder.old).opens number.0 }
    ensures waits { (F.view folder.old).told → Waits (F.view folder.old) (F.view folder.new) }
    ensures judges { (F.view folder.old).told
        → JudgesFile number.0 result (F.view folder.new) }
    ensures countable { IsCountable result }
    ensures frame { FolderAnswers (result ≡ Err Refused.Fault) (F.view folder.old)
        (F.view folder.new) }
{
    let mut head = [0u8; HEAD_BYTES];
    match fill(folder, number, 0, &mut head) {
        PartRead::Whole => {}
        PartRead::Short => return Err(Refused::Short),
        PartRead::Fault => return Err(Refused::Fault),
    }
    match count_of(&head) {
        Some(count) => judge_end(folder, number, count),
        None => Err(Refused::NotArray),
    }
}

fn answer(why: Refused) -> ArrayOpened
    ensures { result ≡ answer_to why }
{
    match why {
        Refused::Short => ArrayOpened::Short,
        Refused::NotArray => ArrayOpened::NotArray,
        Refused::Fault => ArrayOpened::FolderFault,
    }
}

/// Opens a dump file and looks at its head and its length. A file that is none is closed again.
pub fn open_array<F: Folder>(folder: &mut F, path: &Path) -> ArrayOpened
    ensures waits { (F.view folder.old).told → Waits (F.view folder.old) (F.view folder.new) }
    ensures array { (F.view folder.old).told
        → OpensArray path.now result (F.view folder.old) (F.view folder.new) }
    ensures opens { ArrayOpens result (F.view folder.old).opens (F.view folder.new).opens }
    ensures frame { FolderTurns (result ≡ ArrayOpened.FolderFault) (F.view folder.old)
        (F.view folder.new) }
{
    match folder.open_file(path) {
        Opened::Opened(no) => match judge(folder, no) {
            Ok(count) => ArrayOpened::Array(ArrayFile { no, count }),
            Err(why) => {
                folder.close(no);
                answer(why)
            }
        },
        Opened::NoFile => ArrayOpened::NoFile,
        Opened::Failed => ArrayOpened::FolderFault,
        Opened::NoMemory => ArrayOpened::NoMemory,
    }
}

/// Closes an array's file.
pub fn close_array<F: Folder>(folder: &mut F, array: ArrayFile)
    ensures waits { (F.view folder.old).told → Waits (F.view folder.old) (F.view folder.new) }
    ensures opens { (F.view folder.new).opens ≡ closed (F.view folder.old).opens array.no.0 }
    ensures frame { FolderTurns (⊥) (F.view folder.old) (F.view folder.new) }
{
    folder.close(array.no);
}
