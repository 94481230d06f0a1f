// The bytes of `last_access` and `metadata.json`.
ghost use Rattle.std.specs.Prelude.{◌≡◌, ℕ, IfOk, MatchOption};
ghost use Rattle.jl_entry.specs.Moments.{IsMoment, IsAccess, IsMetadata};

use crate::numbers::{number_before, number_behind};
use itoa::Buffer;
use jl_text::Bytes;
use std::alloc::{AllocError, Global};

/// How long a call took and when it ended, in microseconds.
#[derive(Clone, Copy, Debug, PartialEq, Eq, Drop)]
pub struct Metadata {
    pub duration: u64,
    pub time: u64,
}

/// The bytes of `last_access`: the moment in decimal, and a newline.
pub fn write_access(alloc: Global, moment: u64) -> Result<Bytes, AllocError>
    requires { IsMoment moment }
    ensures { IfOk result (λ b. IsAccess b moment) }
{
    let mut buffer = Buffer::new();
    let mut out = Vec::from_slice(alloc, buffer.format(moment).as_bytes())?;
    out.push(b'\n')?;
    Ok(Bytes::new(out))
}

/// The moment that the bytes of `last_access` are for.
pub fn read_access(bytes: &[u8]) -> Option<u64>
    ensures { MatchOption result ((n : ℕ) → IsAccess bytes.now n → ⊥) (λ n. IsAccess bytes.now n) }
{
    let Some(moment) = number_before(bytes, b'\n') else {
        return None;
    };
    if moment.rest.len() > 0 {
        return None;
    }
    Some(moment.number)
}

/// The bytes of `metadata.json`: `{"duration":D,"time":T}`.
pub fn write_metadata(alloc: Global, duration: u64, time: u64) -> Result<Bytes, AllocError>
    requires duration { IsMoment duration }
    requires time { IsMoment time }
    ensures { IfOk result (λ b. IsMetadata b duration time) }
{
    let mut buffer = Buffer::new();
    let mut out = Vec::from_slice(alloc, b"{\"duration\":")?;
    out.extend_from_slice(buffer.format(duration).as_bytes())?;
    out.extend_from_slice(b",\"time\":")?;
    out.extend_from_slice(buffer.format(time).as_bytes())?;
    out.push(b'}')?;
    Ok(Bytes::new(out))
}

/// The duration and the moment that the bytes of `metadata.json` are for.
pub fn read_metadata(bytes: &[u8]) -> Option<Metadata>
    ensures { MatchOption result ((d t : ℕ) → IsMetadata bytes.now d t → ⊥)
        (λ m. IsMetadata bytes.now m.duration m.time) }
{
    let Some(duration) = number_behind(bytes, b"{\"duration\":", b',') else {
        return None;
    };
    let Some(time) = number_behind(duration.rest, b"\"time\":", b'}') else {
        return None;
    };
    if time.rest.len() > 0 {
        return None;
    }
    Some(Metadata {
        duration: duration.number,
        time: time.number,
    })
}
