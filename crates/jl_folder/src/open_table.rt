// The open files of a folder, by the places of a table: a number never stands for another file.
ghost use Rattle.std.specs.Prelude.{◌≡◌, IfOk, OnErr, None};
ghost use Rattle.jl_folder.specs.State.{put_open, closed};
ghost use Rattle.jl_folder.specs.OpenTable.{opens_of};

use crate::folder::FileNo;
use crate::moves::OpenFile;
use std::alloc::AllocError;

/// The file that is open under a number.
pub fn file_at(opens: &[Option<OpenFile>], number: FileNo) -> Option<OpenFile>
    ensures { result ≡ opens_of opens.now number.0 }
{
    match opens.get(number.0 as usize) {
        Some(file) => *file,
        None => None,
    }
}

/// Opens a file under a number that never was open.
pub fn open_next(opens: &mut Vec<Option<OpenFile>>, file: OpenFile) -> Result<FileNo, AllocError>
    ensures ok { IfOk result (λ number. (opens_of opens.old.items number.0 ≡ None)
        × (opens_of opens.new.items ≡ put_open (opens_of opens.old.items) number.0 file)) }
    ensures err { OnErr result (opens.new.items ≡ opens.old.items) }
{
    let number = FileNo(opens.len() as u64);
    opens.push(Some(file))?;
    Ok(number)
}

/// Whatever this number was, it is open no longer.
pub fn close_at(opens: &mut Vec<Option<OpenFile>>, number: FileNo)
    ensures { opens_of opens.new.items ≡ closed (opens_of opens.old.items) number.0 }
{
    let place = number.0 as usize;
    if place < opens.len() {
        opens[place] = None;
    }
}
