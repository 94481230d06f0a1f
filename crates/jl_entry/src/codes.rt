// The bytes of `func_code.py`.
ghost use Rattle.std.specs.Prelude.{◌≡◌, ◌≤◌, ◌↔◌, ◌∷◌, ◌++◌, [], if◌then◌else◌, IsTrue, IfOk};
ghost use Rattle.std.specs.Char.{is_ascii_digit};
ghost use Rattle.std.specs.List.{list_all};
ghost use Rattle.jl_entry.specs.Codes.{IsSameCode, code_text, is_number_line, without_number_line};

use crate::numbers::split_first;
use itoa::Buffer;
use jl_text::Bytes;
use std::alloc::{AllocError, Global};

fn code_lines(alloc: Global, code: &str, line: u64) -> Result<Bytes, AllocError>
    ensures { IfOk result (λ b. b ≡ code_text code.now line) }
{
    let mut buffer = Buffer::new();
    let mut out = Vec::from_slice(alloc, b"# first line: ")?;
    out.extend_from_slice(buffer.format(line).as_bytes())?;
    out.push(b'\n')?;
    out.extend_from_slice(code.as_bytes())?;
    out.push(b'\n')?;
    Ok(Bytes::new(out))
}

/// The bytes of `func_code.py`: `# first line: N`, where N is the line's number, then the code,
/// each with a newline.
pub fn write_code(alloc: Global, code: &str, line: u64) -> Result<Bytes, AllocError>
    requires { 1 ≤ line }
    ensures text { IfOk result (λ b. b ≡ code_text code.now line) }
    ensures same { IfOk result (λ b. IsSameCode code.now b) }
{
    code_lines(alloc, code, line)
}

fn are_digits(bytes: &[u8]) -> bool
    ensures { result ≡ list_all is_ascii_digit bytes.now }
{
    bytes.iter().all(|b| b.is_ascii_digit())
}

// Whether a line is `# first line: ` and 1 to 20 digits.
fn is_number_line(line: &[u8]) -> bool
    ensures { result ≡ is_number_line line.now }
{
    let Some(digits) = line.strip_prefix(b"# first line: ") else {
        return false;
    };
    if digits.is_empty() || digits.len() > 20 {
        return false;
    }
    are_digits(digits)
}

// What stands behind such a line, or all of the bytes.
fn behind_line<'a>(line: &[u8], rest: &'a [u8], all: &'a [u8]) -> &'a [u8]
    ensures { result.now ≡ (if is_number_line line.now then rest.now else all.now) }
{
    if is_number_line(line) {
        return rest;
    }
    all
}

fn without_number_line(bytes: &[u8]) -> &[u8]
    ensures { result.now ≡ without_number_line bytes.now }
{
    match split_first(bytes, b'\n') {
        Some(cut) => behind_line(cut.front, cut.rest, bytes),
        None => behind_line(bytes, b"", bytes),
    }
}

// Whether the bytes are this text and a newline.
fn is_line_of(bytes: &[u8], text: &[u8]) -> bool
    ensures { IsTrue result ↔ (bytes.now ≡ text.now ++ 10 ∷ []) }
{
    match bytes.strip_suffix(b"\n") {
        Some(found) => found == text,
        None => false,
    }
}

/// Whether the bytes of `func_code.py` are of this code: a first line `# first line: ` and 1 to 20
/// digits is passed over where it is there, and the rest is the code and a newline.
pub fn same_code(code: &str, bytes: &[u8]) -> bool
    ensures { IsTrue result ↔ (IsSameCode code.now bytes.now) }
{
    is_line_of(without_number_line(bytes), code.as_bytes())
}
