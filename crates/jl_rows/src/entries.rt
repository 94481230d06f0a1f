// Rows over the names and texts of the cache folder.

ghost use Rattle.std.specs.Prelude.{◌≤◌, IfOk, IsTrue};
ghost use Rattle.jl_text.specs.Texts.{is_name};

use jl_entry::{
    EntryFile, ReadOutput, code_file, entry_file, entry_folder, function_folder, module_folder,
    read_access, read_metadata, read_output, root, same_code, temp_name, write_access, write_code,
    write_metadata, write_output,
};
use jl_script::given::{self, RowFault};
use jl_script::told::{self, Told};
use jl_text::limits::LAST_MOMENT;
use jl_text::{Path, is_name};
use jl_value::{Key, Value, digest};
use std::alloc::{AllocError, Global};

pub fn row(alloc: Global, case: &str, given: &[Value]) -> Told {
    match case {
        "write" => write(alloc, given),
        "read" => read(alloc, given),
        "write_moments" => moments(alloc, given),
        "read_moments" => read_moments(alloc, given),
        "write_code" => code(alloc, given),
        "same_code" => is_same_code(alloc, given),
        "names" => names(alloc, given),
        "temporary" => temporary(alloc, given),
        _ => Err(RowFault::Bad),
    }
}

// The entry of a code, arguments and a value.
fn write(alloc: Global, given: &[Value]) -> Told {
    let code = given::text(alloc, given, 0)?;
    let args = given::args(alloc, given, 1)?;
    let value = given::value(alloc, given, 2)?;
    told::bytes(
        alloc,
        write_output(alloc, code.as_str(), &args, &value)?.as_slice(),
    )
}

// The value of the entry of a code and arguments that bytes are, or why they are none.
fn read(alloc: Global, given: &[Value]) -> Told {
    let code = given::text(alloc, given, 0)?;
    let args = given::args(alloc, given, 1)?;
    let bytes = given::bytes(alloc, given, 2)?;
    match read_output(alloc, code.as_str(), &args, bytes.as_slice()) {
        ReadOutput::Value(value) => told::value(alloc, &value),
        ReadOutput::NotMine => told::word(alloc, "NotMine"),
        ReadOutput::Damaged => told::word(alloc, "Damaged"),
        ReadOutput::NoMemory => Err(RowFault::Memory),
    }
}

fn moment(given: &[Value], place: usize) -> Result<u64, RowFault>
    ensures { IfOk result (λ moment. moment ≤ 4611686018427387904) }
{
    let moment = given::number(given, place)?;
    if moment > LAST_MOMENT {
        return Err(RowFault::Bad);
    }
    Ok(moment)
}

// The texts of a latest use and of metadata, for a duration and a moment.
fn moments(alloc: Global, given: &[Value]) -> Told {
    let duration = moment(given, 0)?;
    let time = moment(given, 1)?;
    let access = told::bytes(alloc, write_access(alloc, time)?.as_slice())?;
    let metadata = told::bytes(alloc, write_metadata(alloc, duration, time)?.as_slice())?;
    Ok(format!(in alloc; "{}\n{}", access.as_str(), metadata.as_str())?)
}

// The moment and the metadata that bytes are for.
fn read_moments(alloc: Global, given: &[Value]) -> Told {
    let bytes = given::bytes(alloc, given, 0)?;
    let access = read_access(bytes.as_slice());
    let metadata = read_metadata(bytes.as_slice());
    Ok(format!(in alloc; "{access:?} {metadata:?}")?)
}

fn code(alloc: Global, given: &[Value]) -> Told {
    let code = given::text(alloc, given, 0)?;
    let line = given::number(given, 1)?;
    if line == 0 {
        return Err(RowFault::Bad);
    }
    told::bytes(alloc, write_code(alloc, code.as_str(), line)?.as_slice())
}

fn is_same_code(alloc: Global, given: &[Value]) -> Told {
    let code = given::text(alloc, given, 0)?;
    let bytes = given::bytes(alloc, given, 1)?;
    told::truth(alloc, same_code(code.as_str(), bytes.as_slice()))
}

fn add_path(
    alloc: Global,
    told: &mut String,
    made: Result<Path, AllocError>,
) -> Result<(), RowFault> {
    if !told.is_empty() {
        told.push_str("\n")?;
    }
    told.push_str(made?.text(alloc)?.as_str())?;
    Ok(())
}

// The folders of a location, a module, a function and an entry, and the files of a function and an
// entry.
fn names(alloc: Global, given: &[Value]) -> Told {
    let location = given::path(alloc, given, 0)?;
    let module = given::text(alloc, given, 1)?;
    let function = given::text(alloc, given, 2)?;
    let key = digest(alloc, &given::args(alloc, given, 3)?)?;
    if !is_name(module.as_str()) {
        return Err(RowFault::Bad);
    }
    if !is_name(function.as_str()) {
        return Err(RowFault::Bad);
    }
    let folders = folders(alloc, &location, module.as_str(), function.as_str(), &key)?;
    let files = files(alloc, &location, module.as_str(), function.as_str(), &key)?;
    Ok(format!(in alloc; "{}\n{}", folders.as_str(), files.as_str())?)
}

fn folders(alloc: Global, location: &Path, module: &str, function: &str, key: &Key) -> Told
    requires module_name { IsTrue (is_name «module».now) }
    requires function_name { IsTrue (is_name function.now) }
{
    let mut told = String::new(alloc);
    add_path(alloc, &mut told, root(alloc, location))?;
    add_path(alloc, &mut told, module_folder(alloc, location, module))?;
    add_path(
        alloc,
        &mut told,
        function_folder(alloc, location, module, function),
    )?;
    add_path(
        alloc,
        &mut told,
        entry_folder(alloc, location, module, function, key),
    )?;
    Ok(told)
}

fn files(alloc: Global, location: &Path, module: &str, function: &str, key: &Key) -> Told
    requires module_name { IsTrue (is_name «module».now) }
    requires function_name { IsTrue (is_name function.now) }
{
    let mut told = String::new(alloc);
    add_path(
        alloc,
        &mut told,
        code_file(alloc, location, module, function),
    )?;
    for file in [EntryFile::Output, EntryFile::Metadata, EntryFile::Access] {
        add_path(
            alloc,
            &mut told,
            entry_file(alloc, file, location, module, function, key),
        )?;
    }
    Ok(told)
}

// The temporary name of a path for a token.
fn temporary(alloc: Global, given: &[Value]) -> Told {
    let path = given::path(alloc, given, 0)?;
    let token = given::token(alloc, given, 1)?;
    let temporary = temp_name(alloc, &path, &token)?.text(alloc)?;
    told::word(alloc, temporary.as_str())
}
