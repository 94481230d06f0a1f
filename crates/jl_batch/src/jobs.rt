// How many jobs a number asks for.
ghost use Rattle.std.specs.Prelude.{◌≡◌, ◌↔◌, pos, IsErr, IfOk};
ghost use Rattle.jl_batch.specs.Jobs.{jobs_of};

use jl_text::limits::MOST_JOBS;
use thiserror::Error;

/// No jobs were asked for.
#[derive(Debug, Drop, Clone, Copy, PartialEq, Eq, Error)]
#[error("no jobs")]
pub struct ZeroJobs;

/// How many jobs `n` asks for on a machine with `cpus` processors: a negative number counts down
/// from all of them, so -1 is all and -2 is all but one.
pub fn effective_jobs(n: i64, cpus: u32) -> Result<u32, ZeroJobs>
    ensures zero { IsErr result ↔ (n ≡ pos 0) }
    ensures jobs { IfOk result (λ jobs. pos jobs ≡ jobs_of n cpus) }
{
    if n == 0 {
        return Err(ZeroJobs);
    }
    if n > 0 {
        return Ok(n.min(i64::from(MOST_JOBS)) as u32);
    }
    let asked = i64::from(cpus) + 1 + n;
    Ok(asked.clamp(1, i64::from(MOST_JOBS)) as u32)
}
