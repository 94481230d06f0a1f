// Limits, and the texts that set them.
ghost use Rattle.std.specs.Prelude.{◌≡◌};
ghost use Rattle.std.specs.Result.{result_ok};
ghost use Rattle.jl_quota.specs.Limits.{count_of, size_of, age_of, unit_of, scaled as scaled_of};

use jl_numbers::read_decimal;
use thiserror::Error;

/// The most digits of a limit.
pub const MOST_DIGITS: usize = 20;

/// The longest age, in seconds.
pub const MOST_SECONDS: u64 = 1_000_000_000_000;

/// How many microseconds a second has.
pub const MICROSECONDS: u64 = 1_000_000;

/// How much may stay: bytes, items, and how long ago an item may have been used, in microseconds.
/// `None` is no limit.
#[derive(Clone, Copy, Debug, Drop, PartialEq, Eq)]
pub struct Limits {
    pub bytes: Option<u64>,
    pub items: Option<u64>,
    pub age: Option<u64>,
}

/// A text that sets no limit.
#[derive(Clone, Copy, Debug, Drop, PartialEq, Eq, Error)]
#[error("no limit")]
pub struct BadLimit;

fn count(bytes: &[u8]) -> Option<u64>
    ensures { result ≡ count_of bytes.now }
{
    if bytes.len() > MOST_DIGITS {
        return None;
    }
    read_decimal(bytes, u64::MAX)
}

fn unit(last: u8) -> u64
    ensures { result ≡ unit_of last }
{
    match last {
        b'K' => 1024,
        b'M' => 1_048_576,
        b'G' => 1_073_741_824,
        _ => 1,
    }
}

fn scaled(digits: &[u8], unit: u64) -> Option<u64>
    ensures { result ≡ scaled_of digits.now unit }
{
    count(digits)?.checked_mul(unit)
}

fn size(bytes: &[u8]) -> Option<u64>
    ensures { result ≡ size_of bytes.now }
{
    match bytes {
        [] => None,
        [digits @ .., last] => {
            let unit = unit(*last);
            if unit == 1 {
                return count(bytes);
            }
            scaled(digits, unit)
        }
    }
}

/// Reads a number of bytes: 1 to 20 digits and an optional `K`, `M` or `G`, powers of 1024.
pub fn read_size(text: &str) -> Result<u64, BadLimit>
    ensures { result_ok result ≡ size_of text.now }
{
    size(text.as_bytes()).ok_or(BadLimit)
}

/// Reads a number of items: 1 to 20 digits.
pub fn read_count(text: &str) -> Result<u64, BadLimit>
    ensures { result_ok result ≡ count_of text.now }
{
    count(text.as_bytes()).ok_or(BadLimit)
}

fn age(bytes: &[u8]) -> Option<u64>
    ensures { result ≡ age_of bytes.now }
{
    let seconds = count(bytes)?;
    if seconds > MOST_SECONDS {
        return None;
    }
    Some(seconds * MICROSECONDS)
}

/// Reads an age, 1 to 20 digits of seconds up to 10^12, and gives it in microseconds.
pub fn read_age(text: &str) -> Result<u64, BadLimit>
    ensures { result_ok result ≡ age_of text.now }
{
    age(text.as_bytes()).ok_or(BadLimit)
}
