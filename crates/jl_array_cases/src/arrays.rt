// Rows over dump files. Each is a run of its own.
ghost use Rattle.std.specs.Prelude.{◌<◌, ◌^◌, IfOk};
ghost use Rattle.std.specs.Option.{ForSome};
ghost use Rattle.jl_folder.specs.Calls.{IsOpen};
ghost use Rattle.jl_array.specs.Dumps.{dump_length};

use jl_array::{ArrayFile, ArrayOpened, close_array, dump, open_array, range, same};
use jl_fixture::{Stage, Watched, start, with_counts};
use jl_folder::{Folder, Opened};
use jl_memory::MemFolder;
use jl_script::given::{self, RowFault};
use jl_script::told::{self, Told};
use jl_value::{Numbers, Value};
use std::alloc::Global;
use std::cell::Cell;

// So many numbers, each one more than the one before; the one in a place, if that is given, is one
// more than it would be: `[FIRST, COUNT]` or `[FIRST, COUNT, PLACE]`.
fn rising(alloc: Global, given: &[Value]) -> Result<Numbers, RowFault> {
    let first = given::whole(given, 0)?;
    let count = given::small_number(given, 1)?;
    let place = match given.get(2) {
        Some(_) => given::small_number(given, 2)?,
        None => count,
    };
    let mut numbers = Vec::new(alloc);
    for i in 0..count {
        let number = first.wrapping_add(i64::from(i));
        let raised = if i == place { 1 } else { 0 };
        numbers.push(number.wrapping_add(raised))?;
    }
    Ok(Numbers::new(numbers))
}

// An array as it is, or numbers that rise.
fn numbers_of(alloc: Global, given: &[Value], place: usize) -> Result<Numbers, RowFault> {
    match given::argument(given, place)? {
        Value::Numbers(numbers) => Ok(numbers.copy(alloc)?),
        Value::List(list) => rising(alloc, list.as_slice()),
        _ => Err(RowFault::Bad),
    }
}

// Dumps a list: `[PATH, NUMBERS]`.
fn dump_list<F: Folder>(alloc: Global, folder: &mut F, given: &[Value]) -> Told {
    let path = given::path(alloc, given, 0)?;
    let numbers = numbers_of(alloc, given, 1)?;
    let answer = dump(folder, &path, &numbers);
    Ok(format!(in alloc; "{answer:?}")?)
}

// Opens an array and closes it: `[PATH]`.
fn look<F: Folder>(alloc: Global, folder: &mut F, given: &[Value]) -> Told {
    let path = given::path(alloc, given, 0)?;
    match open_array(folder, &path) {
        ArrayOpened::Array(array) => {
            let count = array.count;
            close_array(folder, array);
            Ok(format!(in alloc; "Array of {count}")?)
        }
        other => Ok(format!(in alloc; "{other:?}")?),
    }
}

// Reads numbers of an open array, and closes it.
fn take_range<F: Folder>(
    alloc: Global,
    folder: &mut F,
    array: ArrayFile,
    from: u64,
    mut out: Vec<i64>,
) -> Told
    requires is_open { IsOpen (F.view folder.old).opens array.no.0 }
    requires countable { dump_length array.count < 2 ^ 64 }
{
    if from > array.count {
        close_array(folder, array);
        return Err(RowFault::Bad);
    }
    let answer = range(folder, &array, from, out.as_mut_slice());
    close_array(folder, array);
    let numbers = told::value(alloc, &Value::Numbers(Numbers::new(out)))?;
    Ok(format!(in alloc; "{answer:?} {}", numbers.as_str())?)
}

// Opens an array and reads numbers into so much room, in which there are sevens:
// `[PATH, FROM, ROOM]`.
fn read_range<F: Folder>(alloc: Global, folder: &mut F, given: &[Value]) -> Told {
    let path = given::path(alloc, given, 0)?;
    let from = given::number(given, 1)?;
    let room = given::small_number(given, 2)?;
    let out = vec![in alloc; 7i64; room as usize]?;
    match open_array(folder, &path) {
        ArrayOpened::Array(array) => take_range(alloc, folder, array, from, out),
        other => Ok(format!(in alloc; "{other:?}")?),
    }
}

// Compares an open array, and closes it.
fn compare_array<F: Folder>(
    alloc: Global,
    folder: &mut F,
    array: ArrayFile,
    numbers: &Numbers,
) -> Told
    requires is_open { IsOpen (F.view folder.old).opens array.no.0 }
    requires countable { dump_length array.count < 2 ^ 64 }
{
    let answer = same(folder, &array, numbers);
    close_array(folder, array);
    Ok(format!(in alloc; "{answer:?}")?)
}

// Opens an array and compares it: `[PATH, NUMBERS]`.
fn compare<F: Folder>(alloc: Global, folder: &mut F, given: &[Value]) -> Told {
    let path = given::path(alloc, given, 0)?;
    let numbers = numbers_of(alloc, given, 1)?;
    match open_array(folder, &path) {
        ArrayOpened::Array(array) => compare_array(alloc, folder, array, &numbers),
        other => Ok(format!(in alloc; "{other:?}")?),
    }
}

// Opens a file and takes it for an array of so many numbers.
fn taken<F: Folder>(
    alloc: Global,
    folder: &mut F,
    given: &[Value],
) -> Result<Option<ArrayFile>, RowFault>
    ensures is_open { IfOk result
        (λ o. ForSome o (λ array. IsOpen (F.view folder.new).opens array.no.0)) }
    ensures countable { IfOk result (λ o. ForSome o (λ array. dump_length array.count < 2 ^ 64)) }
{
    let path = given::path(alloc, given, 0)?;
    let count = u64::from(given::small_number(given, 1)?);
    match folder.open_file(&path) {
        Opened::Opened(no) => Ok(Some(ArrayFile { no, count })),
        _ => Ok(None),
    }
}

// Reads numbers of a file that may end before: `[PATH, COUNT, FROM, ROOM]`.
fn range_of<F: Folder>(alloc: Global, folder: &mut F, given: &[Value]) -> Told {
    let from = given::number(given, 2)?;
    let room = given::small_number(given, 3)?;
    let out = vec![in alloc; 7i64; room as usize]?;
    match taken(alloc, folder, given)? {
        Some(array) => take_range(alloc, folder, array, from, out),
        None => told::word(alloc, "not open"),
    }
}

// Compares a file that may end before: `[PATH, COUNT, NUMBERS]`.
fn compare_of<F: Folder>(alloc: Global, folder: &mut F, given: &[Value]) -> Told {
    let numbers = numbers_of(alloc, given, 2)?;
    match taken(alloc, folder, given)? {
        Some(array) => compare_array(alloc, folder, array, &numbers),
        None => told::word(alloc, "not open"),
    }
}

fn call<F: Folder>(alloc: Global, folder: &mut F, case: &str, given: &[Value]) -> Told {
    match case {
        "dump" => dump_list(alloc, folder, given),
        "open" => look(alloc, folder, given),
        "range" => read_range(alloc, folder, given),
        "range_of" => range_of(alloc, folder, given),
        "same" => compare(alloc, folder, given),
        "same_of" => compare_of(alloc, folder, given),
        _ => Err(RowFault::Bad),
    }
}

// Makes a call in a folder. Gives back the folder.
fn call_in(
    alloc: Global,
    folder: MemFolder,
    noting: bool,
    case: &str,
    given: &[Value],
) -> (MemFolder, Told) {
    let calls = Cell::new(0);
    let mut watched = Watched::new(alloc, folder, &calls, noting);
    let told = match call(alloc, &mut watched, case, given) {
        Ok(answer) => with_counts(alloc, answer.as_str(), &watched),
        Err(fault) => Err(fault),
    };
    (watched.inner, told)
}

pub fn row(alloc: Global, stage: &mut Stage, case: &str, given: &[Value]) -> Told {
    let script = stage.next_script(alloc)?;
    let folder = start(stage.take()?, script)?;
    let (folder, told) = call_in(alloc, folder, stage.is_noting(), case, given);
    stage.put(folder);
    told
}
