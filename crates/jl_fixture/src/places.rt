// What stands in a folder in memory.

use jl_folder::{Folder, Listed, NameList, Path};
use jl_memory::MemFolder;
use jl_script::given::{self, RowFault};
use jl_script::told::{self, Told};
use jl_value::Value;
use std::alloc::{AllocError, Global};

// Adds what has these names in a folder: a line of each, and the folders among them to those that are still to be told.
fn add_names(
    alloc: Global,
    folder: &MemFolder,
    path: &Path,
    names: &NameList,
    lines: &mut Vec<String>,
    waiting: &mut Vec<Path>,
) -> Result<(), RowFault> {
    for name in names.as_slice() {
        let spelled = format!(in alloc; "{}/{}", path.text(alloc)?.as_str(), name.part.as_str())?;
        let place = Path::read(alloc, spelled.as_str())
            .ok()
            .ok_or(RowFault::Bad)?;
        let text = place.text(alloc)?;
        match folder.bytes_at(&place) {
            Some(bytes) => {
                let bytes = told::bytes(alloc, bytes)?;
                lines.push(format!(in alloc; "{} {bytes}", text.as_str())?)?;
            }
            None => {
                lines.push(format!(in alloc; "{}/", text.as_str())?)?;
                waiting.push(place)?;
            }
        }
    }
    Ok(())
}

fn names_in<F: Folder>(alloc: Global, folder: &mut F, path: &Path) -> NameList {
    match folder.list(path) {
        Listed::Names(names) => names,
        Listed::NoDir => NameList::new(Vec::new(alloc)),
        Listed::Failed => NameList::new(Vec::new(alloc)),
        Listed::NoMemory => NameList::new(Vec::new(alloc)),
    }
}

fn joined(alloc: Global, lines: &[String]) -> Result<String, AllocError> {
    let mut text = String::new(alloc);
    for line in lines {
        if !text.is_empty() {
            text.push_str("\n")?;
        }
        text.push_str(line.as_str())?;
    }
    Ok(text)
}

/// All that stands below a folder, in order: a line of each folder, and of each file with its bytes.
pub fn tree_of(alloc: Global, folder: &mut MemFolder, top: Path) -> Told {
    let mut lines = Vec::new(alloc);
    let mut waiting = vec![in alloc; top]?;
    for _ in 0..u64::MAX {
        let Some(path) = waiting.pop() else {
            break;
        };
        let names = names_in(alloc, folder, &path);
        add_names(alloc, folder, &path, &names, &mut lines, &mut waiting)?;
    }
    if lines.is_empty() {
        return told::word(alloc, "nothing");
    }
    lines.sort()?;
    Ok(joined(alloc, lines.as_slice())?)
}

/// Which of the paths name a file or a folder.
pub fn standing(alloc: Global, folder: &MemFolder, given: &[Value]) -> Told {
    let mut told = String::from_str(alloc, "there:")?;
    for place in 0..given.len() {
        let path = given::path(alloc, given, place)?;
        if folder.bytes_at(&path).is_some() || folder.is_folder(&path) {
            told.push_str(" ")?;
            told.push_str(path.text(alloc)?.as_str())?;
        }
    }
    Ok(told)
}
