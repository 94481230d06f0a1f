// Rows over the lines and counts of the tracker, and over what it removes.

use jl_fixture::members::number;
use jl_fixture::streams::{sink, source};
use jl_fixture::{Stage, Watched, WatchedSource, start, with_counts};
use jl_memory::MemFolder;
use jl_script::given::{self, RowFault};
use jl_script::told::{self, Told};
use jl_streams::MemSink;
use jl_tracker::{
    BadLine, Counts, Kind, Leaked, Line, Tracked, folders_stay_for_a_cause, read_line,
    removals_fail_by_counted_faults, track,
};
use jl_value::Value;
use std::alloc::Global;
use std::cell::Cell;

fn kind_of(kind: Kind) -> &'static str {
    match kind {
        Kind::File => "file",
        Kind::Folder => "folder",
        Kind::Semlock => "semlock",
    }
}

fn spell_resource(alloc: Global, word: &str, kind: Kind, name: &str) -> Told {
    Ok(format!(in alloc; "{word} {} {name}", kind_of(kind))?)
}

fn spell_line(alloc: Global, line: Result<Line<'_>, BadLine>) -> Told {
    match line {
        Ok(Line::Register(kind, name)) => spell_resource(alloc, "register", kind, name),
        Ok(Line::Unregister(kind, name)) => spell_resource(alloc, "unregister", kind, name),
        Ok(Line::MaybeUnlink(kind, name)) => spell_resource(alloc, "may unlink", kind, name),
        Ok(Line::Probe) => told::word(alloc, "probe"),
        Err(BadLine) => told::word(alloc, "bad"),
    }
}

// What a line is.
fn read_one(alloc: Global, given: &[Value]) -> Told {
    let bytes = given::bytes(alloc, given, 0)?;
    spell_line(alloc, read_line(bytes.as_slice()))
}

fn spell_leaked(alloc: Global, left: &Leaked) -> Told {
    let kind = kind_of(left.kind);
    Ok(format!(in alloc; " {kind} {}", left.name.as_str())?)
}

// What is left when all lines were counted, in order.
fn spell_left(alloc: Global, counts: &mut Counts) -> Told {
    let mut told = String::from_str(alloc, "left:")?;
    for _ in 0..u64::MAX {
        let Some(left) = counts.finish() else {
            break;
        };
        let leaked = spell_leaked(alloc, &left)?;
        told.push_str(leaked.as_str())?;
    }
    Ok(told)
}

// What counting a line answers.
fn count_one(alloc: Global, counts: &mut Counts, given: &[Value], place: usize) -> Told {
    let bytes = given::bytes(alloc, given, place)?;
    let line = read_line(bytes.as_slice()).ok().ok_or(RowFault::Bad)?;
    let step = counts.apply(alloc, &line);
    Ok(format!(in alloc; "{step:?}\n")?)
}

// What counting the lines answers, a line for each, and what is left.
fn count(alloc: Global, given: &[Value]) -> Told {
    let mut counts = Counts::new(alloc);
    let mut told = String::new(alloc);
    for place in 0..given.len() {
        let step = count_one(alloc, &mut counts, given, place)?;
        told.push_str(step.as_str())?;
    }
    let left = spell_left(alloc, &mut counts)?;
    told.push_str(left.as_str())?;
    Ok(told)
}

// Tracks the lines of a source, in a run over the folder of the rows before.
fn follow(alloc: Global, stage: &mut Stage, row: &Value) -> Told {
    let piece = number(row, "piece")?.unwrap_or(7);
    let lines = source(alloc, row, "lines", "reads_failing", piece)?;
    let mut err = sink(alloc, row, "room", "writes_failing", 1000)?;
    let script = stage.next_script(alloc)?;
    let folder = start(stage.take()?, script)?;
    let calls = Cell::new(0);
    let mut source = WatchedSource::new(alloc, lines, &calls);
    let mut watched = Watched::new(alloc, folder, &calls, stage.is_noting());
    let tracked = track(alloc, &mut source, &mut watched, &mut err);
    let told = tell_tracked(alloc, tracked, &watched, &source, &err);
    stage.put(watched.inner);
    told
}

// What of the input is left, how often it failed, and what was written.
fn tell_streams(alloc: Global, source: &WatchedSource<'_>, err: &MemSink) -> Told {
    let left = source.inner.left().len();
    let faults = source.inner.faults();
    let texts = told::bytes(alloc, err.written())?;
    Ok(format!(in alloc; "\n{left} bytes left, {faults} faults of the input\ntexts {texts}")?)
}

// How the tracker ended, what was counted, and what the streams tell.
fn tell_tracked(
    alloc: Global,
    tracked: Tracked,
    watched: &Watched<'_>,
    source: &WatchedSource<'_>,
    err: &MemSink,
) -> Told {
    let answer = format!(in alloc; "{tracked:?}")?;
    let mut told = with_counts(alloc, answer.as_str(), watched)?;
    if !watched.notes().is_empty() {
        told.push_str(source.notes())?;
    }
    let streams = tell_streams(alloc, source, err)?;
    told.push_str(streams.as_str())?;
    Ok(told)
}

// Laws, which are proved of all forms, at those in memory.
fn hold_laws(alloc: Global) -> Told {
    folders_stay_for_a_cause();
    removals_fail_by_counted_faults::<MemFolder, MemSink>();
    told::word(alloc, "hold")
}

pub fn row(alloc: Global, stage: &mut Stage, case: &str, given: &[Value]) -> Told {
    match case {
        "line" => read_one(alloc, given),
        "counts" => count(alloc, given),
        "laws" => hold_laws(alloc),
        "track" => follow(alloc, stage, given::argument(given, 0)?),
        _ => Err(RowFault::Bad),
    }
}
