// Rows over the streams and the host in memory.
ghost use Rattle.std.specs.Prelude.{◌<◌, length};

use jl_fixture::members::{bytes, list, members_of, number, token};
use jl_fixture::streams::{host, sink, source};
use jl_script::given::{self, RowFault};
use jl_script::told::{self, Told};
use jl_streams::{Host, MemHost, MemSink, MemSource, Sink, Source, write_all};
use jl_value::Value;
use std::alloc::Global;

// A read into a buffer: the answer, the buffer behind it, and what is left.
fn read_once(alloc: Global, source: &mut MemSource, buf: &mut [u8]) -> Told
    requires { 0 < length buf.old }
{
    let got = source.read(buf);
    let buffer = told::bytes(alloc, buf)?;
    let left = told::bytes(alloc, source.left())?;
    Ok(format!(in alloc; "{got:?} {buffer}, left {left}\n")?)
}

// Reads into a buffer again and again, and tells the faults.
fn read_again(alloc: Global, source: &mut MemSource, buf: Vec<u8>, reads: u64) -> Told {
    let mut buf = buf;
    let mut told = String::new(alloc);
    for _ in 0..reads {
        if buf.is_empty() {
            return Err(RowFault::Bad);
        }
        let read = read_once(alloc, source, buf.as_mut_slice())?;
        told.push_str(read.as_str())?;
    }
    let faults = format!(in alloc; "{} faults", source.faults())?;
    told.push_str(faults.as_str())?;
    Ok(told)
}

fn read_source(alloc: Global, row: &Value) -> Told {
    let piece = number(row, "piece")?.unwrap_or(1);
    let mut source = source(alloc, row, "bytes", "failing", piece)?;
    let buf = bytes(alloc, row, "buffer")?;
    let reads = number(row, "reads")?.unwrap_or(1);
    read_again(alloc, &mut source, buf, reads)
}

// What a write answers, `["write", BYTES]` or `["write_all", BYTES]`.
fn put(alloc: Global, sink: &mut MemSink, given: &[Value]) -> Told {
    let bytes = given::bytes(alloc, given, 1)?;
    let word = given::text(alloc, given, 0)?;
    match word.as_str() {
        "write" => {
            let put = sink.write(bytes.as_slice());
            Ok(format!(in alloc; "{put:?}")?)
        }
        "write_all" => {
            let wrote = write_all(sink, bytes.as_slice());
            Ok(format!(in alloc; "{wrote:?}")?)
        }
        _ => Err(RowFault::Bad),
    }
}

// The same, and what is written.
fn put_once(alloc: Global, sink: &mut MemSink, given: &[Value]) -> Told {
    let put = put(alloc, sink, given)?;
    let written = told::bytes(alloc, sink.written())?;
    Ok(format!(in alloc; "{} {written}\n", put.as_str())?)
}

// Writes again and again, and tells the faults.
fn write_sink(alloc: Global, row: &Value) -> Told {
    let mut sink = sink(alloc, row, "room", "failing", 0)?;
    let mut told = String::new(alloc);
    for write in list(row, "writes") {
        let put = put_once(alloc, &mut sink, members_of(write))?;
        told.push_str(put.as_str())?;
    }
    let faults = format!(in alloc; "{} faults", sink.faults())?;
    told.push_str(faults.as_str())?;
    Ok(told)
}

// The moments that a host tells, asked so often.
fn ask_again(alloc: Global, host: &mut MemHost, asks: u64) -> Told {
    let mut told = String::from_str(alloc, "moments:")?;
    for _ in 0..asks {
        let moment = format!(in alloc; " {}", host.now())?;
        told.push_str(moment.as_str())?;
    }
    Ok(told)
}

// Asks a host for the moment again and again, and tells what it has.
fn ask_host(alloc: Global, row: &Value) -> Told {
    let mut host = host(alloc, row, token(alloc, row, "token")?)?;
    let asks = number(row, "asks")?.unwrap_or(1);
    let told = ask_again(alloc, &mut host, asks)?;
    let left = host.moments();
    let processors = host.processors();
    let token = host.token().as_str();
    Ok(format!(in alloc;
        "{}, left {left:?}, {processors} processors, token {token}",
        told.as_str()
    )?)
}

pub fn row(alloc: Global, case: &str, given: &[Value]) -> Told {
    let row = given::argument(given, 0)?;
    match case {
        "source" => read_source(alloc, row),
        "sink" => write_sink(alloc, row),
        "host" => ask_host(alloc, row),
        _ => Err(RowFault::Bad),
    }
}
