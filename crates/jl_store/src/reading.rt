// Reading a final file.
ghost use Rattle.std.specs.Prelude.{◌≡◌, ◌+◌};
ghost use Rattle.jl_text.specs.declared.limits.TheConstants.{MOST_ENTRY_BYTES};
ghost use Rattle.jl_text.specs.Paths.{PathView};
ghost use Rattle.jl_folder.specs.Views.{FolderAnswers, state, moved};
ghost use Rattle.jl_folder.specs.Calls.{Waits};
ghost use Rattle.jl_folder.specs.Reading.{ReadsFile, FileWithin};
ghost use Rattle.jl_entry.specs.Names.{Final, IsFinal};
ghost use Rattle.jl_store.specs.Reading.{FindsFinal};

use jl_folder::{FileRead, Folder, Path, read_file};
use jl_text::limits::MOST_ENTRY_BYTES;
use std::alloc::Global;

// One byte more than the longest text of the store has, so that a longer file is told from a whole
// one.
const MOST_READ: usize = MOST_ENTRY_BYTES + 1;

/// Opens a final file and reads that one node to its end, or to one byte more than a text of the
/// store can have.
pub fn read_final<F: Folder>(alloc: Global, folder: &mut F, last: &Path) -> FileRead
    ensures frame { FolderAnswers (result ≡ FileRead.Failed) (F.view folder.old)
        (F.view folder.new) }
    ensures waits { (F.view folder.old).told → Waits (F.view folder.old) (F.view folder.new) }
    ensures reads { (F.view folder.old).told
        → ReadsFile last.now (MOST_ENTRY_BYTES + 1) result (state (F.view folder.old))
        (moved (F.view folder.old) (F.view folder.new)) }
    ensures within { FileWithin (MOST_ENTRY_BYTES + 1) result }
    ensures finds { (F.view folder.old).told → (root : PathView) (x : Final) → IsFinal root x last.now →
        FindsFinal root x last.now result (state (F.view folder.old)) (moved (F.view folder.old) (F.view folder.new)) }
{
    read_file(alloc, folder, last, MOST_READ)
}
