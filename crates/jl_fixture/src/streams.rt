// Sources, sinks and hosts that rows give.
ghost use Rattle.std.specs.Prelude.{◌≡◌, ◌≤◌, ◌^◌, IfOk, All};

use crate::members::{bytes, number, numbers};
use jl_folder::{Bytes, Token};
use jl_script::given::RowFault;
use jl_streams::{MemHost, MemSink, MemSource};
use jl_text::limits::LAST_MOMENT;
use jl_value::Value;
use std::alloc::Global;

/// A source of the bytes under a name, which gives at most `piece` of them at a read; the reads that the row names under `failing` fail.
pub fn source(
    alloc: Global,
    row: &Value,
    name: &str,
    failing: &str,
    piece: u64,
) -> Result<MemSource, RowFault> {
    if piece == 0 {
        return Err(RowFault::Bad);
    }
    let given = Bytes::new(bytes(alloc, row, name)?);
    let failing = numbers(alloc, row, failing, 0)?;
    Ok(MemSource::new(given, piece as usize, failing))
}

/// A sink with the room that the row names, or else with this much; the writes that the row names under `failing` fail.
pub fn sink(
    alloc: Global,
    row: &Value,
    room: &str,
    failing: &str,
    other: u64,
) -> Result<MemSink, RowFault> {
    let room = number(row, room)?.unwrap_or(other) as usize;
    let failing = numbers(alloc, row, failing, 0)?;
    Ok(MemSink::new(alloc, room, failing)?)
}

/// The moments under `times`, each at most 2^62.
pub fn moments(alloc: Global, row: &Value) -> Result<Vec<u64>, RowFault>
    ensures { IfOk result (λ v. All (λ t. t ≤ 2 ^ 62) v.items) }
{
    let mut moments = Vec::new(alloc);
    for moment in numbers(alloc, row, "times", 0)? {
        if moment > LAST_MOMENT {
            return Err(RowFault::Bad);
        }
        moments.push(moment)?;
    }
    Ok(moments)
}

/// A host of the moments under `times`, with three processors.
pub fn host(alloc: Global, row: &Value, token: Token) -> Result<MemHost, RowFault>
    ensures { IfOk result (λ h. h.token ≡ token) }
{
    Ok(MemHost::new(moments(alloc, row)?, 3, token))
}
