// Rows over the lines of a source.
use jl_fixture::members::{number, numbers};
use jl_fixture::streams::source;
use jl_lines::{LineReader, NextLine};
use jl_script::given::{self, RowFault};
use jl_script::told::{self, Told};
use jl_streams::MemSource;
use jl_value::Value;
use std::alloc::Global;

// What an answer says: `1 3.` is line 1 of three bytes, `2!` a line that is too long.
fn spell_answer(alloc: Global, answer: NextLine) -> Told {
    match answer {
        NextLine::Line { no, bytes } => {
            let count = bytes.as_slice().len();
            Ok(format!(in alloc; " {no} {count}.")?)
        }
        NextLine::TooLong { no } => Ok(format!(in alloc; " {no}!")?),
        NextLine::End => told::word(alloc, " end"),
        NextLine::TooMuch => told::word(alloc, " much"),
        NextLine::ReadFault => told::word(alloc, " fault"),
        NextLine::NoMemory => told::word(alloc, " memory"),
    }
}

// What a reader answers at so many calls.
fn spell_answers(alloc: Global, reader: LineReader, source: &mut MemSource, calls: u64) -> Told {
    let mut reader = reader;
    let mut said = String::new(alloc);
    for _ in 0..calls {
        let answer = spell_answer(alloc, reader.next(alloc, source))?;
        said.push_str(answer.as_str())?;
    }
    Ok(said)
}

// What a reader of lines answers over a source of these pieces, and how many bytes the source has
// left.
fn read_pieces(alloc: Global, row: &Value, piece: u64) -> Told {
    let limit = number(row, "limit")?.unwrap_or(512);
    let calls = number(row, "calls")?.unwrap_or(4);
    let mut source = source(alloc, row, "bytes", "failing", piece)?;
    let reader = LineReader::new(alloc, limit);
    let said = spell_answers(alloc, reader, &mut source, calls)?;
    let left = source.left().len();
    Ok(format!(in alloc; "{}, {left} bytes left", said.as_str())?)
}

// The same for each of the pieces in which a source gives its bytes. What is as that before isn't
// told.
fn read_lines(alloc: Global, row: &Value) -> Told {
    let pieces = numbers(alloc, row, "pieces", 0)?;
    let mut told = String::new(alloc);
    let mut last = String::new(alloc);
    for piece in pieces.iter() {
        let said = read_pieces(alloc, row, *piece)?;
        if said.as_str() != last.as_str() {
            let line = format!(in alloc; "from {piece} on:{}\n", said.as_str())?;
            told.push_str(line.as_str())?;
        }
        last = said;
    }
    let count = format!(in alloc; "{} pieces", pieces.len())?;
    told.push_str(count.as_str())?;
    Ok(told)
}

pub fn row(alloc: Global, case: &str, given: &[Value]) -> Told {
    let row = given::argument(given, 0)?;
    match case {
        "read" => read_lines(alloc, row),
        _ => Err(RowFault::Bad),
    }
}
