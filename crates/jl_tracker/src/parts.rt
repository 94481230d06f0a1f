// The parts of a line, between its colons.
ghost use Rattle.std.specs.Prelude.{◌≡◌, ◌&&◌, false, MatchOption, position};
ghost use Rattle.jl_tracker.specs.Parts as parts;
ghost use Rattle.jl_tracker.specs.Parts.{is_blank, is_colon, has_colon, body_of, has_parts, CutsFirst, CutsLast, Splits};

/// What stands before the first colon of a line, between that and the last one, and behind the
/// last one.
#[derive(Clone, Copy)]
pub struct Parts<'a> {
    pub command: &'a [u8],
    pub name: &'a [u8],
    pub kind: &'a [u8],
}

fn is_blank(b: u8) -> bool
    ensures { result ≡ is_blank b }
{
    b == b' ' || (b == b'\t' || b == b'\r')
}

fn strip_front(mut bytes: &[u8]) -> &[u8]
    ensures { result.now ≡ parts.strip_front bytes.entry.now }
{
    'front: while let [first, rest @ ..] = bytes {
        if !is_blank(*first) {
            return bytes;
        }
        bytes = rest;
    }
    bytes
}

fn strip_end(mut bytes: &[u8]) -> &[u8]
    ensures { result.now ≡ parts.strip_end bytes.entry.now }
{
    'back: while let [rest @ .., last] = bytes {
        if !is_blank(*last) {
            return bytes;
        }
        bytes = rest;
    }
    bytes
}

fn colon_in(bytes: &[u8]) -> Option<usize>
    ensures { result ≡ position is_colon bytes.now }
{
    bytes.iter().position(|b| *b == b':')
}

// What stands before the first colon and behind it.
fn cut_first(bytes: &[u8]) -> Option<(&[u8], &[u8])>
    ensures { MatchOption result (has_colon bytes.now ≡ false)
        (λ p. CutsFirst bytes.now p.0.now p.1.now) }
{
    match colon_in(bytes) {
        Some(at) => Some((&bytes[..at], &bytes[at + 1..])),
        None => None,
    }
}

// What stands before the last colon and behind it.
fn cut_last(bytes: &[u8]) -> Option<(&[u8], &[u8])>
    ensures { MatchOption result (has_colon bytes.now ≡ false)
        (λ p. CutsLast bytes.now p.0.now p.1.now) }
{
    let mut at = bytes.len();
    'back: while at > 0 {
        at -= 1;
        if bytes[at] == b':' {
            return Some((&bytes[..at], &bytes[at + 1..]));
        }
    }
    None
}

fn split_rest<'a>(command: &'a [u8], rest: &'a [u8]) -> Option<Parts<'a>>
    ensures { MatchOption result (has_colon rest.now ≡ false)
        (λ p. (p.command.now ≡ command.now) × CutsLast rest.now p.name.now p.kind.now) }
{
    match cut_last(rest) {
        Some((name, kind)) => Some(Parts {
            command,
            name,
            kind,
        }),
        None => None,
    }
}

// The parts of bytes that have two colons.
fn split(body: &[u8]) -> Option<Parts<'_>>
    ensures { MatchOption result (has_parts body.now ≡ false)
        (λ p. Splits body.now p.command.now p.name.now p.kind.now) }
{
    match cut_first(body) {
        Some((command, rest)) => split_rest(command, rest),
        None => None,
    }
}

/// The parts of a line without the blanks at both its ends, if it has two colons.
pub fn parts_of(line: &[u8]) -> Option<Parts<'_>>
    ensures { MatchOption result (has_parts (body_of line.now) ≡ false)
        (λ p. Splits (body_of line.now) p.command.now p.name.now p.kind.now) }
{
    split(strip_end(strip_front(line)))
}
