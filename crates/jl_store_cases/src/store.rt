// Rows over what the cached call does with the files of the cache in the folder `c`, for the module
// `m`. Each is a run of its own.
ghost use Rattle.std.specs.Prelude.{◌≡◌, ◌≤◌, length, IfOk, IsTrue};
ghost use Rattle.jl_text.specs.Texts.{is_name};
ghost use Rattle.jl_text.specs.declared.limits.TheConstants.{MOST_TEXT_BYTES};
ghost use Rattle.jl_entry.specs.Moments.{IsMoment};
ghost use Rattle.jl_value.specs.Tree.{nesting};
ghost use Rattle.jl_value.specs.Key.{args_tree};
ghost use Rattle.jl_value.specs.Canonical.{text_of};

use jl_fixture::{Stage, Watched, start, with_counts};
use jl_folder::{Folder, Path, Token};
use jl_memory::MemFolder;
use jl_script::given::{self, RowFault};
use jl_script::told::{self, Told};
use jl_store::{Look, Memory, WarnKind, Warning, check_code, keep, look, touch, warning_text};
use jl_text::limits::{LAST_MOMENT, MOST_TEXT_BYTES};
use jl_text::{Text, is_name};
use jl_value::{Args, Value, canonical, canonical_table, digest, is_line};
use std::alloc::Global;
use std::cell::Cell;
use std::slice;

// The arguments that a row gives as a table.
fn args_of(alloc: Global, given: &[Value], place: usize) -> Result<Args, RowFault>
    ensures depth { IfOk result (λ a. nesting (args_tree a) ≤ 64) }
    ensures size { IfOk result (λ a. length (text_of (args_tree a)) ≤ MOST_TEXT_BYTES) }
{
    let value = Value::Text(canonical(alloc, given::argument(given, place)?)?);
    let args = given::args(alloc, slice::from_ref(&value), 0)?;
    if canonical_table(alloc, args.value())?.as_str().len() > MOST_TEXT_BYTES {
        return Err(RowFault::Bad);
    }
    Ok(args)
}

// The moment of a call, at most 2^62.
fn moment_of(given: &[Value], place: usize) -> Result<u64, RowFault>
    ensures { IfOk result (λ t. IsMoment t) }
{
    let moment = given::number(given, place)?;
    if moment > LAST_MOMENT {
        return Err(RowFault::Bad);
    }
    Ok(moment)
}

// A code, no longer than codes are.
fn code_of(alloc: Global, given: &[Value], place: usize) -> Result<Text, RowFault>
    ensures { IfOk result (λ t. length t ≤ MOST_TEXT_BYTES) }
{
    let code = given::text(alloc, given, place)?;
    if code.as_str().len() > MOST_TEXT_BYTES {
        return Err(RowFault::Bad);
    }
    Ok(code)
}

// Checks a function's code: `[NAME, CODE, LINE]`.
fn check<F: Folder>(
    alloc: Global,
    memory: &Memory,
    folder: &mut F,
    name: &str,
    given: &[Value],
) -> Told
    requires token { (F.view folder.old).token ≡ memory.now.token }
    requires module_name { IsTrue (is_name memory.now.«module») }
    requires function_name { IsTrue (is_name name.now) }
{
    let code = code_of(alloc, given, 1)?;
    let line = given::number(given, 2)?;
    if line == 0 || !is_line(code.as_str()) {
        return Err(RowFault::Bad);
    }
    let checked = check_code(alloc, memory, folder, name, code.as_str(), line);
    Ok(format!(in alloc; "{checked:?}")?)
}

// Keeps a number as an answer: `[NAME, CODE, ARGS, NUMBER, DURATION, MOMENT]`.
fn keep_value<F: Folder>(
    alloc: Global,
    memory: &Memory,
    folder: &mut F,
    name: &str,
    given: &[Value],
) -> Told
    requires token { (F.view folder.old).token ≡ memory.now.token }
    requires module_name { IsTrue (is_name memory.now.«module») }
    requires function_name { IsTrue (is_name name.now) }
{
    let code = code_of(alloc, given, 1)?;
    let args = args_of(alloc, given, 2)?;
    let value = Value::Whole(given::whole(given, 3)?);
    let duration = moment_of(given, 4)?;
    let moment = moment_of(given, 5)?;
    if canonical(alloc, &value)?.as_str().len() > MOST_TEXT_BYTES {
        return Err(RowFault::Bad);
    }
    let kept = keep(
        alloc,
        memory,
        folder,
        name,
        code.as_str(),
        &args,
        &value,
        duration,
        moment,
    );
    Ok(format!(in alloc; "{kept:?}")?)
}

// Notes a use of an answer: `[NAME, ARGS, MOMENT]`.
fn touch_entry<F: Folder>(
    alloc: Global,
    memory: &Memory,
    folder: &mut F,
    name: &str,
    given: &[Value],
) -> Told
    requires token { (F.view folder.old).token ≡ memory.now.token }
    requires module_name { IsTrue (is_name memory.now.«module») }
    requires function_name { IsTrue (is_name name.now) }
{
    let key = digest(alloc, &args_of(alloc, given, 1)?)?;
    let moment = moment_of(given, 2)?;
    let kept = touch(alloc, memory, folder, name, &key, moment);
    Ok(format!(in alloc; "{kept:?}")?)
}

fn tell_look(alloc: Global, found: Look) -> Told {
    match found {
        Look::Hit(value) => told::value(alloc, &value),
        Look::Miss => told::word(alloc, "Miss"),
        Look::NoMemory => told::word(alloc, "NoMemory"),
    }
}

// Looks an answer up: `[NAME, CODE, ARGS]`. Tells what was found, and the warnings.
fn look_up<F: Folder>(
    alloc: Global,
    memory: &Memory,
    folder: &mut F,
    name: &str,
    given: &[Value],
) -> Told
    requires module_name { IsTrue (is_name memory.now.«module») }
    requires function_name { IsTrue (is_name name.now) }
{
    let code = given::text(alloc, given, 1)?;
    let args = args_of(alloc, given, 2)?;
    let mut warnings = Vec::new(alloc);
    let found = look(
        alloc,
        memory,
        folder,
        name,
        code.as_str(),
        &args,
        &mut warnings,
    );
    let mut told = tell_look(alloc, found)?;
    for warning in warnings.iter() {
        told.push_str(", ")?;
        told.push_str(warning_text(alloc, memory, warning)?.as_str())?;
    }
    Ok(told)
}

// A call of the name of a function.
fn call<F: Folder>(
    alloc: Global,
    memory: &Memory,
    folder: &mut F,
    case: &str,
    given: &[Value],
) -> Told
    requires { (F.view folder.old).token ≡ memory.now.token }
{
    let text = given::text(alloc, given, 0)?;
    let name = text.as_str();
    if !is_name(name) || !is_name(memory.module.as_str()) {
        return Err(RowFault::Bad);
    }
    match case {
        "check_code" => check(alloc, memory, folder, name, given),
        "keep" => keep_value(alloc, memory, folder, name, given),
        "touch" => touch_entry(alloc, memory, folder, name, given),
        "look" => look_up(alloc, memory, folder, name, given),
        _ => Err(RowFault::Bad),
    }
}

fn memory_of(alloc: Global, token: Token) -> Result<Memory, RowFault>
    ensures { IfOk result (λ m. m.token ≡ token) }
{
    let location = Path::read(alloc, "c").ok().ok_or(RowFault::Bad)?;
    let module = Text::new(String::from_str(alloc, "m")?);
    Ok(Memory {
        location,
        module,
        token,
    })
}

// Makes a call in a folder of the token of the memory. Gives back the folder.
fn call_in(
    alloc: Global,
    folder: MemFolder,
    memory: &Memory,
    noting: bool,
    case: &str,
    given: &[Value],
) -> (MemFolder, Told)
    requires { (⟦<MemFolder as Folder>⟧.view folder).token ≡ memory.now.token }
{
    let calls = Cell::new(0);
    let mut watched = Watched::new(alloc, folder, &calls, noting);
    let told = match call(alloc, memory, &mut watched, case, given) {
        Ok(answer) => with_counts(alloc, answer.as_str(), &watched),
        Err(fault) => Err(fault),
    };
    (watched.inner, told)
}

// The text of a warning of each kind, of a function's name and arguments.
fn tell_warning(alloc: Global, given: &[Value]) -> Told {
    let token = Token::read(alloc, "a").ok().ok_or(RowFault::Bad)?;
    let memory = memory_of(alloc, token)?;
    let key = digest(alloc, &args_of(alloc, given, 1)?)?;
    let mut told = String::new(alloc);
    for kind in [
        WarnKind::LoadFault,
        WarnKind::StoreFault,
        WarnKind::NotMine,
        WarnKind::Damaged,
        WarnKind::Skipped,
    ] {
        let name = given::text(alloc, given, 0)?;
        let text = warning_text(alloc, &memory, &Warning { kind, name, key })?;
        if !told.is_empty() {
            told.push_str("\n")?;
        }
        told.push_str(text.as_str())?;
    }
    Ok(told)
}

pub fn row(alloc: Global, stage: &mut Stage, case: &str, given: &[Value]) -> Told {
    if case == "warnings" {
        return tell_warning(alloc, given);
    }
    let script = stage.next_script(alloc)?;
    let memory = memory_of(alloc, script.token.copy()?)?;
    let folder = start(stage.take()?, script)?;
    let (folder, told) = call_in(alloc, folder, &memory, stage.is_noting(), case, given);
    stage.put(folder);
    told
}
