// Decimal numbers among other bytes.
ghost use Rattle.std.specs.Prelude.{◌≡◌, ◌≢◌, ◌≤◌, ◌<◌, ◌==◌, ℕ, List, ◌∷◌, ◌++◌, length, decimal, position, MatchOption, IfSome};
ghost use Rattle.std.specs.List.{before_first, after_first, position_or_len};
ghost use Rattle.jl_entry.specs.Moments.{IsMoment};

use itoa::Buffer;
use jl_text::limits::LAST_MOMENT;

/// What stands before a byte, and what stands behind it.
#[derive(Clone, Copy, Drop)]
pub(crate) struct Cut<'a> {
    pub(crate) front: &'a [u8],
    pub(crate) rest: &'a [u8],
}

/// A number, and what stands behind it and the byte that ends it.
#[derive(Clone, Copy, Drop)]
pub(crate) struct Counted<'a> {
    pub(crate) number: u64,
    pub(crate) rest: &'a [u8],
}

fn first_at(bytes: &[u8], stop: u8) -> Option<usize>
    ensures first { result ≡ position (λ b. b == stop) bytes.now }
    ensures within { IfSome result (λ i. i < length bytes.now) }
{
    bytes.iter().position(|b| *b == stop)
}

// The bytes round the first such byte.
pub(crate) fn split_first(bytes: &[u8], stop: u8) -> Option<Cut<'_>>
    ensures { MatchOption result (position_or_len (λ b. b == stop) bytes.now ≡ length bytes.now)
        (λ r. (position_or_len (λ b. b == stop) bytes.now < length bytes.now)
        × (r.front.now ≡ before_first (λ b. b == stop) bytes.now)
        × (r.rest.now ≡ after_first (λ b. b == stop) bytes.now)) }
{
    let Some(at) = first_at(bytes, stop) else {
        return None;
    };
    Some(Cut {
        front: &bytes[..at],
        rest: &bytes[at + 1..],
    })
}

// The moment whose decimal the bytes are.
fn read_number(digits: &[u8]) -> Option<u64>
    ensures { MatchOption result ((n : ℕ) → IsMoment n → digits.now ≢ decimal n)
        (λ n. IsMoment n × (digits.now ≡ decimal n)) }
{
    let Ok(text) = std::str::from_utf8(digits) else {
        return None;
    };
    let Ok(number) = text.parse::<u64>() else {
        return None;
    };
    if number > LAST_MOMENT {
        return None;
    }
    let mut buffer = Buffer::new();
    if buffer.format(number).as_bytes() != digits {
        return None;
    }
    Some(number)
}

// The moment whose decimal stands at the front, before this byte.
pub(crate) fn number_before(bytes: &[u8], stop: u8) -> Option<Counted<'_>>
    requires { 48 ≤ stop → 57 < stop }
    ensures { MatchOption result
        ((n : ℕ) (rest : List ℕ) → IsMoment n → bytes.now ≢ decimal n ++ stop ∷ rest)
        (λ r. IsMoment r.number × (bytes.now ≡ decimal r.number ++ stop ∷ r.rest.now)) }
{
    let Some(cut) = split_first(bytes, stop) else {
        return None;
    };
    let Some(number) = read_number(cut.front) else {
        return None;
    };
    Some(Counted {
        number,
        rest: cut.rest,
    })
}

// The moment whose decimal stands behind these words, before this byte.
pub(crate) fn number_behind<'a>(bytes: &'a [u8], words: &[u8], stop: u8) -> Option<Counted<'a>>
    requires { 48 ≤ stop → 57 < stop }
    ensures { MatchOption result
        ((n : ℕ) (rest : List ℕ) → IsMoment n
        → bytes.now ≢ words.now ++ (decimal n ++ stop ∷ rest))
        (λ r. IsMoment r.number
        × (bytes.now ≡ words.now ++ (decimal r.number ++ stop ∷ r.rest.now))) }
{
    let Some(after) = bytes.strip_prefix(words) else {
        return None;
    };
    let Some(counted) = number_before(after, stop) else {
        return None;
    };
    Some(counted)
}
