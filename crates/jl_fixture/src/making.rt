// Making what stands in a folder before a case: folders and files, with the folders above them.

use crate::calls::{create, write};
use jl_folder::{Folder, Path};
use jl_script::given::{self, RowFault};
use jl_script::told::Told;
use jl_text::is_part;
use jl_value::Value;
use std::alloc::Global;

// Makes a folder and those above it, as `a/b/c`.
fn make_folders<F: Folder>(alloc: Global, folder: &mut F, text: &str) -> Result<Path, RowFault> {
    let mut path = Path::current(alloc);
    for part in text.split('/') {
        if part.is_empty() {
            continue;
        }
        if !is_part(part) {
            return Err(RowFault::Bad);
        }
        let next = path.join(alloc, part)?;
        let _made = folder.make_dir(&next);
        path = next;
    }
    Ok(path)
}

// Makes a file and the folders above it.
fn make_file<F: Folder>(alloc: Global, folder: &mut F, text: &str, bytes: &[u8]) -> Told {
    if let Some((above, _last)) = text.rsplit_once('/') {
        let _path = make_folders(alloc, folder, above)?;
    }
    let path = Path::read(alloc, text).ok().ok_or(RowFault::Bad)?;
    if bytes.is_empty() {
        return create(alloc, folder, &path);
    }
    write(alloc, folder, &path, bytes)
}

// A folder as `"a/b/"`, or a file as `["a/b", BYTES]`.
fn make_one<F: Folder>(alloc: Global, folder: &mut F, row: &Value) -> Result<(), RowFault> {
    match row {
        Value::List(list) => {
            let given = list.as_slice();
            let text = given::text(alloc, given, 0)?;
            let bytes = given::bytes(alloc, given, 1)?;
            let _told = make_file(alloc, folder, text.as_str(), bytes.as_slice())?;
            Ok(())
        }
        Value::Text(text) => {
            let _path = make_folders(alloc, folder, text.as_str())?;
            Ok(())
        }
        _ => Err(RowFault::Bad),
    }
}

/// Makes each folder `"a/b/"` and each file `["a/b", BYTES]` of the rows, with the folders above them.
pub fn make<F: Folder>(alloc: Global, folder: &mut F, rows: &[Value]) -> Result<(), RowFault> {
    for row in rows {
        make_one(alloc, folder, row)?;
    }
    Ok(())
}
