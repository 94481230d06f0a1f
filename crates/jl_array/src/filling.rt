// Reading a part of an open file, whole or not at all.
ghost use Rattle.std.specs.Prelude.{◌≡◌, ◌≤◌, ◌+◌, ◌^◌, length};
ghost use Rattle.jl_folder.specs.Views.{FolderAnswers};
ghost use Rattle.jl_folder.specs.Calls.{IsOpen, Waits};
ghost use Rattle.jl_array.specs.Answers.{FillsFrom};

use jl_folder::{FileNo, Folder, ReadAt};

// Whether a buffer was filled; it wasn't where the file ends first.
#[derive(Clone, Copy)]
pub(crate) enum PartRead {
    Whole,
    Short,
    Fault,
}

// Fills the buffer with the file's bytes from an offset on, in as many calls as that takes.
pub(crate) fn fill<F: Folder>(folder: &mut F, number: FileNo, at: u64, buf: &mut [u8]) -> PartRead
    requires is_open { IsOpen (F.view folder.old).opens number.0 }
    requires fits { at + length buf.old ≤ 2 ^ 64 }
    ensures waits { (F.view folder.old).told → Waits (F.view folder.old) (F.view folder.new) }
    ensures fills { (F.view folder.old).told
        → FillsFrom number.0 at buf.new result (F.view folder.new) }
    ensures frame { FolderAnswers (result ≡ PartRead.Fault) (F.view folder.old)
        (F.view folder.new) }
{
    let mut have = 0;
    while have < buf.len() {
        match folder.read_at(number, at + have as u64, &mut buf[have..]) {
            ReadAt::Read(0) => return PartRead::Short,
            ReadAt::Read(k) => have += k,
            ReadAt::Failed => return PartRead::Fault,
        }
    }
    PartRead::Whole
}
