ghost use Rattle.std.specs.Prelude.{◌≡◌, ◌∷◌, [], ◌<◌, ◌≤◌, ℕ, length, MatchOption, IsTrue, slice_index, true, false, not};
ghost use Rattle.std.specs.Str.{bytes_eq};
ghost use Rattle.jl_lexer.specs.Signs.{signs, begins_word as begins_word_of, is_gap as is_gap_of, is_digit as is_digit_of, is_word_byte as is_word_byte_of, word_run as word_run_of, text_run as text_run_of, is_pair as is_pair_of, mark_run as mark_run_of, sign_run as sign_run_of};
ghost use Rattle.jl_lexer.specs.Marks.{is_mark as is_mark_of};

/// Whether a byte is a space or a tab.
pub fn is_gap(b: u8) -> bool
    ensures { result ≡ is_gap_of b }
{
    b == b' ' || b == b'\t'
}

pub(crate) fn is_digit(b: u8) -> bool
    ensures { result ≡ is_digit_of b }
{
    b >= b'0' && b <= b'9'
}

pub(crate) fn is_word_byte(b: u8) -> bool
    ensures { result ≡ is_word_byte_of b }
{
    (b >= b'A' && b <= b'Z') || (b >= b'a' && b <= b'z') || (b >= b'0' && b <= b'9') || b == b'_'
}

/// Whether a text begins with a word.
pub fn begins_word(bytes: &[u8]) -> bool
    ensures { result ≡ begins_word_of bytes.now }
{
    match bytes {
        [] => false,
        [first, ..] => is_word_byte(*first),
    }
}

/// Whether a sign is this one byte.
pub fn is_mark(sign: &[u8], mark: u8) -> bool
    ensures { result ≡ is_mark_of mark sign.now }
{
    match sign {
        [byte] => *byte == mark,
        _ => false,
    }
}

fn without_gaps(bytes: &[u8]) -> &[u8]
    ensures same { signs result.now ≡ signs bytes.now }
    ensures shorter { length result.now ≤ length bytes.now }
    ensures first { 0 < length result.now → is_gap_of (slice_index result.now 0) ≡ false }
{
    for (i, b) in bytes.iter().enumerate() {
        if !is_gap(*b) {
            return &bytes[i..];
        }
    }
    &bytes[bytes.len()..]
}

fn word_run(bytes: &[u8]) -> usize
    ensures same { result ≡ word_run_of bytes.now }
    ensures bound { result ≤ length bytes.now }
{
    for (i, b) in bytes.iter().enumerate() {
        if !is_word_byte(*b) {
            return i;
        }
    }
    bytes.len()
}

fn text_run(bytes: &[u8]) -> usize
    ensures same { result ≡ text_run_of false bytes.now }
    ensures bound { result ≤ length bytes.now }
{
    let mut escaped = false;
    for (i, b) in bytes.iter().enumerate() {
        if *b == b'"' && !escaped {
            return i + 1;
        }
        escaped = *b == b'\\' && !escaped;
    }
    bytes.len()
}

fn is_pair(first: u8, second: u8) -> bool
    ensures { result ≡ is_pair_of first second }
{
    (second == b'=' && (first == b'=' || first == b'!' || first == b'<' || first == b'>'))
        || (first == b'/' && second == b'/')
}

fn mark_run(first: u8, bytes: &[u8]) -> usize
    ensures same { result ≡ mark_run_of first bytes.now }
    ensures bound { result ≤ length bytes.now }
{
    match bytes {
        [second, ..] => { if is_pair(first, *second) { 1 } else { 0 } }
        [] => 0,
    }
}

// How many bytes behind its first one a sign goes on.
fn sign_run(first: u8, bytes: &[u8]) -> usize
    ensures same { result ≡ sign_run_of first bytes.now }
    ensures bound { result ≤ length bytes.now }
{
    if is_word_byte(first) {
        return word_run(bytes);
    }
    if first == b'"' {
        return text_run(bytes);
    }
    mark_run(first, bytes)
}

// The sign that bytes begin with, and what is behind it.
fn split_sign(bytes: &[u8]) -> (&[u8], &[u8])
    requires some { 0 < length bytes.now }
    requires first { is_gap_of (slice_index bytes.now 0) ≡ false }
    ensures signs { signs bytes.now ≡ result.0.now ∷ signs result.1.now }
    ensures shorter { length result.1.now < length bytes.now }
{
    let run = sign_run(bytes[0], &bytes[1..]);
    bytes.split_at(run + 1)
}

/// The first sign of a text, and the text behind it.
pub fn next_sign(bytes: &[u8]) -> Option<(&[u8], &[u8])>
    ensures { MatchOption result (signs bytes.now ≡ [])
        (λ r. (signs bytes.now ≡ r.0.now ∷ signs r.1.now) × (length r.1.now < length bytes.now)) }
{
    let rest = without_gaps(bytes);
    if rest.is_empty() {
        return None;
    }
    Some(split_sign(rest))
}
