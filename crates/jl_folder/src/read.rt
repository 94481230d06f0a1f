// Reads a file through one open number.
ghost use Rattle.std.specs.Prelude.{◌≡◌, ◌≤◌, ◌<◌, ◌++◌, true, length, take};
ghost use Rattle.jl_folder.specs.Views.{FolderAnswers, state, moved};
ghost use Rattle.jl_folder.specs.Calls.{IsOpen, Waits};
ghost use Rattle.jl_folder.specs.Reading.{ReadsOpen, ReadsFile, file_of, FileWithin, OpenWithin};

use crate::folder::{FileNo, Folder, Opened, ReadAt};
use jl_text::limits::PIECE_BYTES;
use jl_text::{Bytes, Path};
use std::alloc::Global;

/// The answer of `read_file`.
#[derive(Debug, Drop)]
pub enum FileRead {
    Bytes(Bytes),
    NoFile,
    Failed,
    NoMemory,
}

/// The answer of `read_open`.
#[derive(Debug, Drop)]
pub enum OpenRead {
    Bytes(Bytes),
    Failed,
    NoMemory,
}

// Adds the first k bytes of the buffer, if there is memory.
fn push_front(bytes: &mut Vec<u8>, buf: &[u8], k: usize) -> bool
    requires { k ≤ length buf.now }
    ensures { result ≡ true → bytes.new.items ≡ bytes.old.items ++ take k buf.now }
{
    bytes.extend_from_slice(&buf[..k]).is_ok()
}

// Reads pieces of at most the buffer's length to the end, or until as many bytes are read as are
// wanted.
fn read_pieces<F: Folder>(
    alloc: Global,
    folder: &mut F,
    number: FileNo,
    most: usize,
    buf: &mut [u8],
) -> OpenRead
    requires is_open { IsOpen (F.view folder.old).opens number.0 }
    requires room { 0 < most → 0 < length buf.old }
    ensures waits { (F.view folder.old).told → Waits (F.view folder.old) (F.view folder.new) }
    ensures reads { (F.view folder.old).told
        → ReadsOpen number.0 most result (F.view folder.old) (F.view folder.new) }
    ensures within { OpenWithin most result }
    ensures frame { FolderAnswers (result ≡ OpenRead.Failed) (F.view folder.old)
        (F.view folder.new) }
{
    let mut bytes = Vec::new(alloc);
    'pieces: while bytes.len() < most {
        let left = most - bytes.len();
        let size = if left < buf.len() { left } else { buf.len() };
        let piece = &mut buf[..size];
        match folder.read_at(number, bytes.len() as u64, piece) {
            ReadAt::Read(0) => return OpenRead::Bytes(Bytes::new(bytes)),
            ReadAt::Read(k) => {
                if !push_front(&mut bytes, piece, k) {
                    return OpenRead::NoMemory;
                }
            }
            ReadAt::Failed => return OpenRead::Failed,
        }
    }
    OpenRead::Bytes(Bytes::new(bytes))
}

/// The same as `read_file` through a number that is open already, and stays open.
pub fn read_open<F: Folder>(alloc: Global, folder: &mut F, number: FileNo, most: usize) -> OpenRead
    requires { IsOpen (F.view folder.old).opens number.0 }
    ensures waits { (F.view folder.old).told → Waits (F.view folder.old) (F.view folder.new) }
    ensures reads { (F.view folder.old).told
        → ReadsOpen number.0 most result (F.view folder.old) (F.view folder.new) }
    ensures within { OpenWithin most result }
    ensures frame { FolderAnswers (result ≡ OpenRead.Failed) (F.view folder.old)
        (F.view folder.new) }
{
    let size = most.min(PIECE_BYTES);
    match vec![in alloc; 0u8; size] {
        Ok(mut buf) => read_pieces(alloc, folder, number, most, buf.as_mut_slice()),
        Err(_) => OpenRead::NoMemory,
    }
}

fn as_file(answer: OpenRead) -> FileRead
    ensures { result ≡ file_of answer }
{
    match answer {
        OpenRead::Bytes(bytes) => FileRead::Bytes(bytes),
        OpenRead::Failed => FileRead::Failed,
        OpenRead::NoMemory => FileRead::NoMemory,
    }
}

/// All bytes, or the first `most`, that the node which the path names at one state of the call has
/// at that state or a later one; read through one open number.
pub fn read_file<F: Folder>(alloc: Global, folder: &mut F, path: &Path, most: usize) -> FileRead
    ensures waits { (F.view folder.old).told → Waits (F.view folder.old) (F.view folder.new) }
    ensures reads { (F.view folder.old).told
        → ReadsFile path.now most result (state (F.view folder.old))
        (moved (F.view folder.old) (F.view folder.new)) }
    ensures within { FileWithin most result }
    ensures frame { FolderAnswers (result ≡ FileRead.Failed) (F.view folder.old)
        (F.view folder.new) }
{
    match folder.open_file(path) {
        Opened::Opened(number) => {
            let answer = read_open(alloc, folder, number, most);
            folder.close(number);
            as_file(answer)
        }
        Opened::NoFile => FileRead::NoFile,
        Opened::Failed => FileRead::Failed,
        Opened::NoMemory => FileRead::NoMemory,
    }
}
