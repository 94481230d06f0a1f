// Whole runs of the program, of the language that it has: `[WORDS, TABLE]`, where the table says how the run goes.
ghost use Rattle.std.specs.Prelude.{◌≡◌};

use jl_cmd::run;
use jl_fixture::members::{members_of, number};
use jl_fixture::streams::{host, sink, source};
use jl_fixture::{Script, Stage, Watched, start, with_counts};
use jl_folder::Folder;
use jl_lang::Lang;
use jl_memory::MemFolder;
use jl_script::given::{self, RowFault};
use jl_script::told::{self, Told};
use jl_streams::{Host, MemHost, MemSink, MemSource};
use jl_value::{Value, canonical};
use std::alloc::Global;
use std::cell::Cell;
use std::slice;

// A word: a text in the forms of bytes, or else the JSON of a value.
fn word_of(alloc: Global, value: &Value) -> Result<String, RowFault> {
    match given::text(alloc, slice::from_ref(value), 0) {
        Ok(text) => Ok(text.into_string()),
        Err(RowFault::Bad) => Ok(canonical(alloc, value)?.into_string()),
        Err(RowFault::Memory) => Err(RowFault::Memory),
    }
}

fn words_of(alloc: Global, row: &Value) -> Result<Vec<String>, RowFault> {
    let mut words = Vec::new(alloc);
    for value in members_of(row) {
        words.push(word_of(alloc, value)?)?;
    }
    Ok(words)
}

// What a run reads and writes.
#[derive(Drop)]
struct Streams {
    input: MemSource,
    out: MemSink,
    err: MemSink,
}

fn streams_of(alloc: Global, row: &Value) -> Result<Streams, RowFault> {
    let piece = number(row, "piece")?.unwrap_or(7);
    Ok(Streams {
        input: source(alloc, row, "input", "reads_failing", piece)?,
        out: sink(alloc, row, "room", "writes_failing", 200_000)?,
        err: sink(alloc, row, "error_room", "errors_failing", 1000)?,
    })
}

// What a run of these words told: its status, what it wrote, and what was counted.
fn tell(alloc: Global, status: u8, watched: &Watched<'_>, out: &MemSink, err: &MemSink) -> Told {
    let output = told::bytes(alloc, out.written())?;
    let answer = format!(in alloc; "status {status}, output {output}")?;
    let mut told = with_counts(alloc, answer.as_str(), watched)?;
    if !err.written().is_empty() {
        told.push_str("\nerrors ")?;
        told.push_str(told::bytes(alloc, err.written())?.as_str())?;
    }
    Ok(told)
}

// One run in a folder of the token of the host. Gives back the folder.
fn play(
    alloc: Global,
    folder: MemFolder,
    host: MemHost,
    streams: Streams,
    noting: bool,
    words: &[String],
) -> (MemFolder, Told)
    requires { (⟦<MemHost as Host>⟧.view host).token ≡ (⟦<MemFolder as Folder>⟧.view folder).token }
{
    let Streams { input, out, err } = streams;
    let (mut input, mut out, mut err, mut host) = (input, out, err, host);
    let calls = Cell::new(0);
    let mut folder = Watched::new(alloc, folder, &calls, noting);
    let mut lib = Lang::new(alloc);
    let status = run(
        alloc,
        words,
        &mut lib,
        &mut folder,
        &mut input,
        &mut out,
        &mut err,
        &mut host,
    );
    let told = tell(alloc, status, &folder, &out, &err);
    (folder.inner, told)
}

/// Runs the words of a row in a folder, with the numbers of its script raised by so much. Gives back the folder.
pub fn run_row(
    alloc: Global,
    folder: MemFolder,
    given: &[Value],
    by: u64,
    noting: bool,
) -> Result<(MemFolder, Told), RowFault> {
    let words = words_of(alloc, given::argument(given, 0)?)?;
    let alone = Value::Null;
    let row = given.get(1).unwrap_or(&alone);
    let script = Script::read(alloc, row, by)?;
    let host = host(alloc, row, script.token.copy()?)?;
    let streams = streams_of(alloc, row)?;
    let folder = start(folder, script)?;
    Ok(play(alloc, folder, host, streams, noting, words.as_slice()))
}

pub fn row(alloc: Global, stage: &mut Stage, case: &str, given: &[Value]) -> Told {
    match case {
        "words" => {
            let folder = stage.take()?;
            let (folder, told) = run_row(alloc, folder, given, 0, stage.is_noting())?;
            stage.put(folder);
            told
        }
        _ => Err(RowFault::Bad),
    }
}
