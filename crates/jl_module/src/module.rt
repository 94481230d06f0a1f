// The lines of a module: the first fault of them, and the definition of a name.
ghost use Rattle.std.specs.Prelude.{◌≡◌, ◌≤◌, ◌<◌, ◌∷◌, [], ℕ, length, Some, None, IfOk, MatchOption, MatchResult, true, false};
ghost use Rattle.std.specs.Str.{is_utf8};
ghost use Rattle.jl_text.specs.declared.limits.TheConstants.{MOST_TEXT_BYTES};
ghost use Rattle.jl_module.specs.Modules.{lines, is_trailing as is_trailing_of, trimmed as trimmed_of, is_remark as is_remark_of, read_line as read_line_of, faulty, broken_kind as broken_kind_of, broken_line as broken_line_of, first_fault, fault_of, defines_in as defines_in_of, begins_definition, find as find_of, find_from};
ghost use Rattle.jl_lexer.specs.Signs.{signs};
ghost use Rattle.jl_module.specs.Headings.{definition_in};
ghost use Rattle.jl_module.specs.Checks.{line_with, IsFaultOf, IsChecked};

use crate::fault::LineFault;
use crate::names::Names;
use crate::reader::read_definition;
use jl_lexer::{begins_word, is_def, is_gap, is_identifier, next_sign};
use jl_text::limits::MOST_TEXT_BYTES;
use jl_value::{ModuleFault, ModuleFaultKind};
use std::alloc::{AllocError, Global};
use std::str::from_utf8;

/// What a line adds to a check: a fault, or the names defined so far.
#[derive(Drop)]
pub(crate) enum Checked<'a> {
    Fault(ModuleFault),
    Named(Names<'a>),
}

// The first line, and what is behind its newline.
fn split_line(text: &[u8]) -> (&[u8], Option<&[u8]>)
    ensures { MatchOption result.1 (lines text.now ≡ result.0.now ∷ [])
        (λ r. (lines text.now ≡ result.0.now ∷ lines r.now) × (length r.now < length text.now)) }
{
    for (i, b) in text.iter().enumerate() {
        if *b == b'\n' {
            return (&text[..i], Some(&text[i + 1..]));
        }
    }
    (text, None)
}

fn is_trailing(b: u8) -> bool
    ensures { result ≡ is_trailing_of b }
{
    is_gap(b) || b == b'\r'
}

fn trim_end(line: &[u8]) -> &[u8]
    ensures { result.now ≡ trimmed_of line.now }
{
    let mut end = line.len();
    while end > 0 {
        if !is_trailing(line[end - 1]) {
            return &line[..end];
        }
        end -= 1;
    }
    &line[..0]
}

fn is_remark(line: &[u8]) -> bool
    ensures { result ≡ is_remark_of line.now }
{
    match line {
        [] => true,
        [first, ..] => *first == b'#',
    }
}

fn is_text(bytes: &[u8]) -> bool
    ensures { result ≡ is_utf8 bytes.now }
{
    match from_utf8(bytes) {
        Ok(_) => true,
        Err(_) => false,
    }
}

fn broken_kind(kind: ModuleFaultKind) -> ModuleFaultKind
    ensures { result ≡ broken_kind_of kind }
{
    match kind {
        ModuleFaultKind::TooDeep => ModuleFaultKind::TooDeep,
        _ => ModuleFaultKind::BadLine,
    }
}

// What is wrong with a line that is not UTF-8. Its signs are read up to the fault, since brackets
// that nest too deep before it are told first.
fn broken_line(alloc: Global, code: &[u8]) -> LineFault
    ensures { IsFaultOf result (faulty (broken_line_of (definition_in code.now))) }
{
    match read_definition(alloc, code) {
        Err(LineFault::Faulty(kind)) => LineFault::Faulty(broken_kind(kind)),
        Err(LineFault::Memory) => LineFault::Memory,
        Ok(definition) => {
            drop(definition);
            LineFault::Faulty(ModuleFaultKind::BadLine)
        }
    }
}

// The name that a line defines, where it is no blank line or comment.
fn read_line<'a>(alloc: Global, line: &'a [u8]) -> Result<Option<&'a [u8]>, LineFault>
    ensures { MatchResult result
        (λ o. read_line_of line.now ≡ line_with o)
        (λ e. IsFaultOf e (read_line_of line.now)) }
{
    let code = trim_end(line);
    if !is_text(line) {
        return Err(broken_line(alloc, code));
    }
    if is_remark(code) {
        return Ok(None);
    }
    let head = read_definition(alloc, code)?;
    Ok(Some(head.name))
}

fn check_line<'a>(
    alloc: Global,
    number: u64,
    names: Names<'a>,
    line: &'a [u8],
) -> Result<Checked<'a>, AllocError>
    ensures { IfOk result (λ k. IsChecked k number names.entry line.now) }
{
    match read_line(alloc, line) {
        Ok(None) => Ok(Checked::Named(names)),
        Ok(Some(name)) => {
            if names.contains(name) {
                Ok(Checked::Fault(ModuleFault {
                    line: number,
                    kind: ModuleFaultKind::Twice,
                }))
            } else {
                Ok(Checked::Named(names.with(name)?))
            }
        }
        Err(LineFault::Faulty(kind)) => Ok(Checked::Fault(ModuleFault { line: number, kind })),
        Err(LineFault::Memory) => Err(AllocError),
    }
}

fn lines_fault(alloc: Global, bytes: &[u8]) -> Result<Option<ModuleFault>, AllocError>
    requires { length bytes.now ≤ MOST_TEXT_BYTES }
    ensures { IfOk result (λ o. o ≡ first_fault 1 [] (lines bytes.now)) }
{
    let mut names = Names::new(alloc);
    let mut left = bytes;
    let mut number: u64 = 1;
    'lines: loop {
        let (line, rest) = split_line(left);
        match check_line(alloc, number, names, line)? {
            Checked::Fault(fault) => return Ok(Some(fault)),
            Checked::Named(more) => names = more,
        }
        match rest {
            Some(behind) => {
                left = behind;
                number += 1;
            }
            None => return Ok(None),
        }
    }
}

/// Why bytes are no module.
pub fn module_fault(alloc: Global, bytes: &[u8]) -> Result<Option<ModuleFault>, AllocError>
    ensures { IfOk result (λ o. o ≡ fault_of bytes.now) }
{
    if bytes.len() > MOST_TEXT_BYTES {
        return Ok(Some(ModuleFault {
            line: 1,
            kind: ModuleFaultKind::TooLarge,
        }));
    }
    lines_fault(alloc, bytes)
}

fn defines(code: &[u8], name: &[u8]) -> bool
    ensures { result ≡ defines_in_of name.now (signs code.now) }
{
    let Some((word, rest)) = next_sign(code) else {
        return false;
    };
    let Some((found, _)) = next_sign(rest) else {
        return false;
    };
    is_def(word) && found == name
}

// The text of a line that begins the definition of a name.
fn definition_text<'a>(code: &'a [u8], name: &[u8]) -> Option<&'a str>
    ensures { MatchOption result (begins_definition name.now code.now ≡ false)
        (λ s. (s.now ≡ code.now) × (begins_definition name.now code.now ≡ true)) }
{
    match from_utf8(code) {
        Ok(text) => {
            if !begins_word(code) {
                return None;
            }
            if defines(code, name) {
                Some(text)
            } else {
                None
            }
        }
        Err(_) => None,
    }
}

fn find_line<'a>(bytes: &'a [u8], name: &[u8]) -> Option<(&'a str, u64)>
    ensures { MatchOption result (find_from 1 name.now (lines bytes.now) ≡ None)
        (λ r. find_from 1 name.now (lines bytes.now)
        ≡ Some (record { code = r.0.now; line = r.1 })) }
{
    let mut left = bytes;
    let mut number: u64 = 1;
    'lines: loop {
        let (line, rest) = split_line(left);
        if let Some(text) = definition_text(trim_end(line), name) {
            return Some((text, number));
        }
        match rest {
            Some(behind) => {
                left = behind;
                number += 1;
            }
            None => return None,
        }
    }
}

/// The definition of a name, and the number of its line.
pub fn find<'a>(bytes: &'a [u8], name: &[u8]) -> Option<(&'a str, u64)>
    ensures { MatchOption result (find_of bytes.now name.now ≡ None)
        (λ r. find_of bytes.now name.now ≡ Some (record { code = r.0.now; line = r.1 })) }
{
    if is_identifier(name) {
        find_line(bytes, name)
    } else {
        None
    }
}
