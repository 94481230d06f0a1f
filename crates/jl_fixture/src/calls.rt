// Single calls of a folder, each told by its answer.

use jl_folder::{
    Created, FileRead, Folder, Listed, NameList, OpenRead, Opened, Path, read_file, read_open,
};
use jl_script::given::{self, RowFault};
use jl_script::told::{self, Told};
use jl_value::Value;
use std::alloc::Global;
use std::fmt::Debug;

fn told_answer<T: Debug>(alloc: Global, answer: &T) -> Told {
    Ok(format!(in alloc; "{answer:?}")?)
}

/// Makes a file of these bytes, and closes it.
pub fn write<F: Folder>(alloc: Global, folder: &mut F, path: &Path, bytes: &[u8]) -> Told {
    match folder.create(path) {
        Created::Made(number) => {
            let appended = folder.append(number, bytes);
            folder.close(number);
            told_answer(alloc, &appended)
        }
        refused => told_answer(alloc, &refused),
    }
}

/// Makes a file in which nothing stands, and closes it.
pub fn create<F: Folder>(alloc: Global, folder: &mut F, path: &Path) -> Told {
    let created = folder.create(path);
    if let Created::Made(number) = created {
        folder.close(number);
    }
    told_answer(alloc, &created)
}

// Gives a file another name, if that is another one.
fn rename<F: Folder>(alloc: Global, folder: &mut F, from: &Path, to: &Path) -> Told {
    if *from == *to {
        return Err(RowFault::Bad);
    }
    told_answer(alloc, &folder.rename(from, to))
}

// The first bytes of a file, as many as are wanted.
fn read<F: Folder>(alloc: Global, folder: &mut F, path: &Path, most: usize) -> Told {
    match read_file(alloc, folder, path, most) {
        FileRead::Bytes(bytes) => told::bytes(alloc, bytes.as_slice()),
        FileRead::NoFile => told::word(alloc, "NoFile"),
        FileRead::Failed => told::word(alloc, "Failed"),
        FileRead::NoMemory => told::word(alloc, "NoMemory"),
    }
}

// The same, through a number that stays open.
fn read_opened<F: Folder>(alloc: Global, folder: &mut F, path: &Path, most: usize) -> Told {
    let opened = folder.open_file(path);
    let Opened::Opened(number) = opened else {
        return told_answer(alloc, &opened);
    };
    match read_open(alloc, folder, number, most) {
        OpenRead::Bytes(bytes) => told::bytes(alloc, bytes.as_slice()),
        OpenRead::Failed => told::word(alloc, "Failed"),
        OpenRead::NoMemory => told::word(alloc, "NoMemory"),
    }
}

// The names in a folder in order, each folder with a slash.
fn spell_names(alloc: Global, names: &NameList) -> Told {
    let mut all = Vec::new(alloc);
    for name in names.as_slice() {
        let slash = if name.folder { "/" } else { "" };
        all.push(format!(in alloc; "{}{slash}", name.part.as_str())?)?;
    }
    all.sort()?;
    let mut told = String::from_str(alloc, "names:")?;
    for name in all.iter() {
        told.push_str(" ")?;
        told.push_str(name.as_str())?;
    }
    Ok(told)
}

fn list<F: Folder>(alloc: Global, folder: &mut F, path: &Path) -> Told {
    match folder.list(path) {
        Listed::Names(names) => spell_names(alloc, &names),
        Listed::NoDir => told::word(alloc, "NoDir"),
        Listed::Failed => told::word(alloc, "Failed"),
        Listed::NoMemory => told::word(alloc, "NoMemory"),
    }
}

/// What a call tells that the row gives by its word and its arguments, of which the first is a path.
pub fn call<F: Folder>(alloc: Global, folder: &mut F, word: &str, given: &[Value]) -> Told {
    let path = given::path(alloc, given, 0)?;
    match word {
        "make_dir" => told_answer(alloc, &folder.make_dir(&path)),
        "create" => create(alloc, folder, &path),
        "remove" => told_answer(alloc, &folder.remove(&path)),
        "remove_dir" => told_answer(alloc, &folder.remove_dir(&path)),
        "size" => told_answer(alloc, &folder.size(&path)),
        "list" => list(alloc, folder, &path),
        _ => call_more(alloc, folder, word, &path, given),
    }
}

// A call that takes more than a path.
fn call_more<F: Folder>(
    alloc: Global,
    folder: &mut F,
    word: &str,
    path: &Path,
    given: &[Value],
) -> Told {
    match word {
        "write" => {
            let bytes = given::bytes(alloc, given, 1)?;
            write(alloc, folder, path, bytes.as_slice())
        }
        "rename" => rename(alloc, folder, path, &given::path(alloc, given, 1)?),
        "read" => read(alloc, folder, path, given::number(given, 1)? as usize),
        "read_opened" => read_opened(alloc, folder, path, given::number(given, 1)? as usize),
        _ => Err(RowFault::Bad),
    }
}
