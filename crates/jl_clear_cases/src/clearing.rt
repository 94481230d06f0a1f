// Rows over clearing the cache in the folder `c`. Each is a run of its own.
ghost use Rattle.std.specs.Prelude.{IsTrue};
ghost use Rattle.jl_text.specs.Texts.{is_name};

use hex::FromHex;
use jl_clear::{Clear, clear_all, clear_entries, clear_function, clear_item, clear_module};
use jl_entry::function_folder;
use jl_fixture::{Stage, Watched, start, with_counts};
use jl_folder::{Folder, Path};
use jl_script::given::{self, RowFault};
use jl_script::told::Told;
use jl_text::is_name;
use jl_value::{Key, Value};
use std::alloc::Global;
use std::cell::Cell;

// The entry of a key: `[MODULE, FUNCTION, DIGITS]`.
fn item<F: Folder>(
    alloc: Global,
    location: &Path,
    folder: &mut F,
    module: &str,
    name: &str,
    given: &[Value],
) -> Result<Clear, RowFault>
    requires module_name { IsTrue (is_name «module».now) }
    requires function_name { IsTrue (is_name name.now) }
{
    let digits = given::text(alloc, given, 2)?;
    let bytes = <[u8; 16] as FromHex>::from_hex(digits.as_str())
        .ok()
        .ok_or(RowFault::Bad)?;
    Ok(clear_item(alloc, location, folder, module, name, &Key(bytes)))
}

// The entries of a function: `[MODULE, FUNCTION]`.
fn entries<F: Folder>(
    alloc: Global,
    location: &Path,
    folder: &mut F,
    module: &str,
    name: &str,
) -> Clear
    requires module_name { IsTrue (is_name «module».now) }
    requires function_name { IsTrue (is_name name.now) }
{
    match function_folder(alloc, location, module, name) {
        Ok(function) => clear_entries(alloc, folder, &function),
        Err(_) => Clear::NoMemory,
    }
}

// What is cleared of a function of a module.
fn of_function<F: Folder>(
    alloc: Global,
    location: &Path,
    folder: &mut F,
    module: &str,
    case: &str,
    given: &[Value],
) -> Result<Clear, RowFault>
    requires { IsTrue (is_name «module».now) }
{
    let text = given::text(alloc, given, 1)?;
    let name = text.as_str();
    if !is_name(name) {
        return Err(RowFault::Bad);
    }
    match case {
        "item" => item(alloc, location, folder, module, name, given),
        "entries" => Ok(entries(alloc, location, folder, module, name)),
        "function" => Ok(clear_function(alloc, location, folder, module, name)),
        _ => Err(RowFault::Bad),
    }
}

fn clear<F: Folder>(
    alloc: Global,
    location: &Path,
    folder: &mut F,
    case: &str,
    given: &[Value],
) -> Result<Clear, RowFault> {
    if case == "all" {
        return Ok(clear_all(alloc, location, folder));
    }
    let text = given::text(alloc, given, 0)?;
    let module = text.as_str();
    if !is_name(module) {
        return Err(RowFault::Bad);
    }
    if case == "module" {
        return Ok(clear_module(alloc, location, folder, module));
    }
    of_function(alloc, location, folder, module, case, given)
}

fn tell<F: Folder>(alloc: Global, folder: &mut F, case: &str, given: &[Value]) -> Told {
    let location = Path::read(alloc, "c").ok().ok_or(RowFault::Bad)?;
    let cleared = clear(alloc, &location, folder, case, given)?;
    Ok(format!(in alloc; "{cleared:?}")?)
}

pub fn row(alloc: Global, stage: &mut Stage, case: &str, given: &[Value]) -> Told {
    let script = stage.next_script(alloc)?;
    let folder = start(stage.take()?, script)?;
    let calls = Cell::new(0);
    let mut watched = Watched::new(alloc, folder, &calls, stage.is_noting());
    let told = match tell(alloc, &mut watched, case, given) {
        Ok(answer) => with_counts(alloc, answer.as_str(), &watched),
        Err(fault) => Err(fault),
    };
    stage.put(watched.inner);
    told
}
