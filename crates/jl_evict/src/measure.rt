// How large an item is, and when it was last used.
ghost use Rattle.std.specs.Prelude.{◌≡◌, ◌++◌, ◌∷◌, [], All, IsTrue};
ghost use Rattle.jl_text.specs.Paths.{is_part};
ghost use Rattle.jl_entry.specs.Names.{entry_part};
ghost use Rattle.jl_entry.specs.declared.names.EntryFile.{EntryFile};
ghost use Rattle.jl_evict.specs.Items.{IsAccessOf, HadBytes, HadAccess};
ghost use Rattle.jl_evict.specs.Walks.{Measures, measure_of, HadSize};

use jl_entry::read_access;
use jl_folder::{FileRead, Folder, Name, Path, SizeOf, read_file};
use std::alloc::Global;

// A number that was found out.
#[derive(Clone, Copy)]
pub(crate) enum Measure {
    Number(u64),
    Fault,
    NoMemory,
}

// More bytes than the text of a moment has.
const MOST_ACCESS: usize = 22;

fn as_measure(size: SizeOf) -> Measure
    ensures { result ≡ measure_of size }
{
    match size {
        SizeOf::Size(size) => Measure::Number(size),
        SizeOf::NoFile => Measure::Number(0),
        SizeOf::Failed => Measure::Fault,
        SizeOf::NoMemory => Measure::NoMemory,
    }
}

// How many bytes a path's file has; none if it names no file.
fn file_size<F: Folder>(folder: &mut F, path: &Path) -> Measure
    ensures { Measures (HadSize path.now) result (F.view folder.old) (F.view folder.new) }
{
    let size = folder.size(path);
    as_measure(size)
}

fn name_size<F: Folder>(alloc: Global, folder: &mut F, entry: &Path, part: &str) -> Measure
    requires { IsTrue (is_part part.now) }
    ensures { Measures (HadSize (entry.now ++ part.now ∷ [])) result
        (F.view folder.old) (F.view folder.new) }
{
    match entry.join(alloc, part) {
        Ok(path) => file_size(folder, &path),
        Err(_) => Measure::NoMemory,
    }
}

/// How many bytes the files of an entry have, which were listed.
pub(crate) fn entry_bytes<F: Folder>(
    alloc: Global,
    folder: &mut F,
    entry: &Path,
    names: &[Name],
) -> Measure
    requires { All (λ n. IsTrue (is_part n.part)) names.now }
    ensures { Measures (HadBytes entry.now names.now) result
        (F.view folder.old) (F.view folder.new) }
{
    let mut sum: u64 = 0;
    for name in names {
        match name_size(alloc, folder, entry, name.part.as_str()) {
            Measure::Number(size) => sum = sum.saturating_add(size),
            other => return other,
        }
    }
    Measure::Number(sum)
}

// The number in a file's bytes, or 0.
fn access_in(bytes: &[u8]) -> u64
    ensures { IsAccessOf bytes.now result }
{
    match read_access(bytes) {
        Some(access) => access,
        None => 0,
    }
}

fn read_moment<F: Folder>(alloc: Global, folder: &mut F, path: &Path) -> Measure
    ensures { Measures (HadAccess path.now) result (F.view folder.old) (F.view folder.new) }
{
    match read_file(alloc, folder, path, MOST_ACCESS) {
        FileRead::Bytes(bytes) => Measure::Number(access_in(bytes.as_slice())),
        FileRead::NoFile => Measure::Number(0),
        FileRead::Failed => Measure::Fault,
        FileRead::NoMemory => Measure::NoMemory,
    }
}

/// When an entry was last used; 0 where its file doesn't tell.
pub(crate) fn entry_access<F: Folder>(alloc: Global, folder: &mut F, entry: &Path) -> Measure
    ensures { Measures (HadAccess (entry.now ++ entry_part EntryFile.Access ∷ [])) result
        (F.view folder.old) (F.view folder.new) }
{
    match entry.join(alloc, "last_access") {
        Ok(path) => read_moment(alloc, folder, &path),
        Err(_) => Measure::NoMemory,
    }
}
