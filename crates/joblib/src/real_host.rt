// The machine that the program runs on.
ghost use Rattle.std.specs.Prelude.{◌≡◌, ◌≤◌, IfSome, MatchOption, MatchResult, min, []};
ghost use Rattle.std.specs.Int.NonZero.{non_zero_usize_get};
ghost use Rattle.jl_text.specs.declared.limits.TheConstants.{LAST_MOMENT, MOST_PROCESSORS};

use jl_streams::Host;
use jl_text::Token;
use jl_text::limits::{LAST_MOMENT, MOST_PROCESSORS};
use std::io;
use std::num::NonZeroUsize;
use std::time::{Clock, SystemTime, UNIX_EPOCH};

/// The system's clock, and what was asked at the start. It tells nothing of its moments.
#[derive(Drop)]
pub struct RealHost<R: Clock + Drop> {
    rt: R,
    last: u64,
    processors: u32,
    token: Token,
    ghost last_in_range: { last ≤ LAST_MOMENT },
    ghost some_processors: { 1 ≤ processors },
    ghost few_processors: { processors ≤ MOST_PROCESSORS },
}

/// A number of processors: 1 where the system doesn't say, and at most 1,024.
pub fn count_processors(count: io::Result<NonZeroUsize>) -> u32
    ensures least { 1 ≤ result }
    ensures most { result ≤ MOST_PROCESSORS }
    ensures exact { MatchResult count (λ n. result ≡ min (non_zero_usize_get n) MOST_PROCESSORS)
        (λ e. result ≡ 1) }
{
    match count {
        Ok(count) => count.get().min(MOST_PROCESSORS) as u32,
        Err(_) => 1,
    }
}

/// Microseconds since 1970 began, where the clock tells.
pub fn moment_of<R: Clock>(rt: &R) -> Option<u64>
    ensures { IfSome result (λ t. t ≤ LAST_MOMENT) }
{
    let now = SystemTime::now(rt).ok()?;
    let since = now.duration_since(UNIX_EPOCH).ok()?;
    let micros = u64::try_from(since.as_micros()).ok()?;
    Some(micros.min(LAST_MOMENT))
}

// The moment that the clock tells, or the last one that it told where it fails.
fn next_moment(last: u64, moment: Option<u64>) -> u64
    ensures { MatchOption moment (result ≡ last) (λ m. result ≡ m) }
{
    match moment {
        Some(moment) => moment,
        None => last,
    }
}

impl<R: Clock + Drop> RealHost<R> {
    pub fn new(rt: R, processors: u32, token: Token) -> RealHost<R>
        requires least { 1 ≤ processors }
        requires most { processors ≤ MOST_PROCESSORS }
        ensures processors { result.processors ≡ processors }
        ensures token { result.token ≡ token }
    {
        RealHost {
            rt,
            last: 0,
            processors,
            token,
        }
    }

    /// The token that it told.
    pub fn into_token(self) -> Token
        ensures { result ≡ self.token }
    {
        self.token
    }
}

impl<R: Clock + Drop> Host for RealHost<R> {
    ghost view = { λ h.
        record { told = ⊥; token = h.token; processors = h.processors; moments = [] } };

    fn now(&mut self) -> u64 {
        let moment = moment_of(&self.rt);
        self.last = next_moment(self.last, moment);
        self.last
    }

    fn processors(&self) -> u32 {
        self.processors
    }

    fn token(&self) -> &Token {
        // Its text tells its form.
        let _text = self.token.as_str();
        &self.token
    }
}
