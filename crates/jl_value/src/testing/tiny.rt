// A library of sums, for tests.
ghost use Rattle.std.specs.Prelude.{◌≡◌, ◌≢◌, ◌+◌, ◌++◌, ◌∷◌, [], Some, None, true, false, IfOk, MatchOption, IsSome, ℤ, pos, ◌+ℤ◌, ◌==◌, map, length};
ghost use Rattle.std.specs.List.{slice_split, list_all};
ghost use Rattle.std.specs.Char.{is_ascii_digit};
ghost use Rattle.jl_value.specs.Library.{outcome_of};
ghost use Rattle.jl_value.specs.Tiny.{is_positive, is_decimal, number_of, definition_of, defines, tiny_lines, without_empty_last, code_in, line_in, line_fault, fault_in, sum_answer, tiny_answer, tiny_code, tiny_line, tiny_fault, as_text};

use crate::key::Args;
use crate::library::{
    Called, CodeRef, Library, ModuleFault, ModuleFaultKind, Outcome, ReadModule, TaskError,
};
use crate::value::Value;
use jl_text::{Bytes, Text, is_name};
use std::alloc::{AllocError, Global};

// A module's bytes and its lines.
#[derive(Drop)]
struct Module {
    bytes: Bytes,
    lines: Vec<Text>,
    ghost cut: { lines.items ≡ map as_text (tiny_lines bytes) },
}

/// A library for tests: each line of a module is `NAME K`, and a call answers K plus the number of
/// arguments.
#[derive(Drop)]
pub struct TinyLibrary {
    module: Module,
    count: u64,
}

// ---- a line

fn are_digits(bytes: &[u8]) -> bool
    ensures { result ≡ list_all is_ascii_digit bytes.now }
{
    bytes.iter().all(|b| b.is_ascii_digit())
}

fn is_positive(digits: &[u8]) -> bool
    ensures { result ≡ is_positive digits.now }
{
    match digits {
        [] => false,
        [b'0', ..] => false,
        _ => are_digits(digits),
    }
}

fn is_decimal(text: &[u8]) -> bool
    ensures { result ≡ is_decimal text.now }
{
    match text {
        [] => false,
        [b'0', rest @ ..] => rest.is_empty(),
        [b'-', rest @ ..] => is_positive(rest),
        _ => is_positive(text),
    }
}

// The number that a text spells.
fn number_of(text: &str) -> Option<i64>
    ensures { result ≡ number_of text.now }
{
    if !is_decimal(text.as_bytes()) {
        return None;
    }
    text.parse::<i64>().ok()
}

// The name and the number of a line.
fn read_line(line: &str) -> Option<(&str, i64)>
    ensures { MatchOption result (definition_of line.now ≡ None)
        (λ d. definition_of line.now ≡ Some (d.0.now, d.1)) }
{
    let (name, digits) = line.split_once(' ')?;
    if !is_name(name) {
        return None;
    }
    let number = number_of(digits)?;
    Some((name, number))
}

fn defines(line: &str, name: &str) -> bool
    ensures { result ≡ defines line.now name.now }
{
    match read_line(line) {
        None => false,
        Some((defined, _)) => defined == name,
    }
}

// ---- a module

// The line that defines a name, and its number.
fn find_line<'a>(lines: &'a [Text], name: &str) -> Option<CodeRef<'a>>
    ensures { MatchOption result (code_in lines.now name.now ≡ None)
        (λ r. (code_in lines.now name.now ≡ Some r.code.now)
        × (line_in 1 lines.now name.now ≡ r.line)) }
{
    for i in 0..lines.len() {
        let code = lines[i].as_str();
        if defines(code, name) {
            return Some(CodeRef {
                code,
                line: i as u64 + 1,
            });
        }
    }
    None
}

// Why a line can't follow the lines before it.
fn fault_behind(before: &[Text], line: &str) -> Option<ModuleFaultKind>
    ensures { result ≡ line_fault before.now line.now }
{
    match read_line(line) {
        None => Some(ModuleFaultKind::BadLine),
        Some((name, _)) => match find_line(before, name) {
            None => None,
            Some(_) => Some(ModuleFaultKind::Twice),
        },
    }
}

fn first_fault(lines: &[Text]) -> Option<ModuleFault>
    ensures { result ≡ fault_in [] 1 lines.now }
{
    for i in 0..lines.len() {
        if let Some(kind) = fault_behind(&lines[..i], lines[i].as_str()) {
            return Some(ModuleFault {
                line: i as u64 + 1,
                kind,
            });
        }
    }
    None
}

fn split_pieces(alloc: Global, bytes: &[u8]) -> Result<Vec<&[u8]>, AllocError>
    ensures { IfOk result (λ v. map (λ x. x.now) v.items ≡ slice_split (λ b. b == 10) bytes.now) }
{
    bytes.split(|b| *b == b'\n').collect(alloc)
}

// The text that bytes are, or else an empty one, which defines nothing either.
fn as_text(bytes: &[u8]) -> &str
    ensures { result.now ≡ as_text bytes.now }
{
    match std::str::from_utf8(bytes) {
        Ok(text) => text,
        Err(_) => "",
    }
}

fn copy_pieces(alloc: Global, pieces: &[&[u8]]) -> Result<Vec<Text>, AllocError>
    ensures { IfOk result (λ v. v.items ≡ map (λ x. as_text x.now) pieces.now) }
{
    let mut texts = Vec::new(alloc);
    for piece in pieces {
        texts.push(Text::new(String::from_str(alloc, as_text(piece))?))?;
    }
    Ok(texts)
}

// All pieces but an empty last one.
fn without_end<'a, 'b>(pieces: &'b [&'a [u8]]) -> &'b [&'a [u8]]
    ensures { map (λ x. x.now) result.now ≡ without_empty_last (map (λ x. x.now) pieces.now) }
{
    if pieces.is_empty() {
        return pieces;
    }
    let last = pieces.len() - 1;
    if pieces[last].is_empty() {
        return &pieces[..last];
    }
    pieces
}

fn split_lines(alloc: Global, bytes: &[u8]) -> Result<Vec<Text>, AllocError>
    ensures { IfOk result (λ v. v.items ≡ map as_text (tiny_lines bytes.now)) }
{
    let pieces = split_pieces(alloc, bytes)?;
    copy_pieces(alloc, without_end(pieces.as_slice()))
}

impl Module {
    fn new(alloc: Global, bytes: &[u8]) -> Result<Module, AllocError>
        ensures { IfOk result (λ m. m.bytes ≡ bytes.now) }
    {
        let lines = split_lines(alloc, bytes)?;
        let bytes = Bytes::new(Vec::from_slice(alloc, bytes)?);
        Ok(Module { bytes, lines })
    }

    fn fault(&self) -> Option<ModuleFault>
        ensures { result ≡ tiny_fault self.now.bytes }
    {
        first_fault(self.lines.as_slice())
    }

    fn find(&self, name: &str) -> Option<CodeRef<'_>>
        ensures { MatchOption result (tiny_code self.now.bytes name.now ≡ None)
            (λ r. (tiny_code self.now.bytes name.now ≡ Some r.code.now)
            × (tiny_line self.now.bytes name.now ≡ r.line)) }
    {
        find_line(self.lines.as_slice(), name)
    }
}

// ---- a call

fn sum(number: i64, count: usize) -> Outcome
    ensures { outcome_of result ≡ sum_answer (number +ℤ pos count) }
{
    match number.checked_add_unsigned(count as u64) {
        Some(total) => Outcome::Value(Value::Whole(total)),
        None => Outcome::Error(TaskError::Overflow),
    }
}

fn answer(code: &str, args: &Args) -> Outcome
    ensures { outcome_of result ≡ tiny_answer code.now args.now }
{
    match read_line(code) {
        Some((_, number)) => sum(number, args.value().members().len()),
        None => Outcome::Error(TaskError::BadKind),
    }
}

impl TinyLibrary {
    /// A library that defines no name.
    pub fn new(alloc: Global) -> TinyLibrary
        ensures module { ⟦<TinyLibrary as Library>⟧.loaded result ≡ [] }
        ensures calls { ⟦<TinyLibrary as Library>⟧.calls result ≡ 0 }
    {
        TinyLibrary {
            module: Module {
                bytes: Bytes::new(Vec::new(alloc)),
                lines: Vec::new(alloc),
            },
            count: 0,
        }
    }
}

impl Library for TinyLibrary {
    ghost use Rattle.jl_value.specs.Tiny.{tiny_code, tiny_line, tiny_answer, tiny_fault};
    ghost use Rattle.jl_value.specs.TinyLaws.{tiny_named, tiny_lines_within, tiny_short, tiny_one_line, tiny_utf8, tiny_within};

    ghost code = { tiny_code };

    ghost line = { tiny_line };

    ghost answer = { tiny_answer };

    ghost fault = { tiny_fault };

    ghost loaded = { λ s. s.module.bytes };

    ghost calls = { λ s. s.count };

    fn read_module(&mut self, alloc: Global, bytes: &[u8]) -> ReadModule {
        let Ok(module) = Module::new(alloc, bytes) else {
            return ReadModule::NoMemory;
        };
        match module.fault() {
            Some(fault) => ReadModule::Fault(fault),
            None => {
                self.module = module;
                ReadModule::Read
            }
        }
    }

    fn code_of(&self, name: &str) -> Option<CodeRef<'_>> {
        self.module.find(name)
    }

    fn call(&mut self, _alloc: Global, name: &str, args: &Args) -> Called {
        let found = self.module.find(name).unwrap();
        let outcome = answer(found.code, args);
        self.count = self.count.saturating_add(1);
        Called::Done(outcome)
    }

    fn twin(&self, alloc: Global) -> Result<TinyLibrary, AllocError> {
        Ok(TinyLibrary {
            module: Module::new(alloc, self.module.bytes.as_slice())?,
            count: 0,
        })
    }

    ghost named = { tiny_named };

    ghost lines = { tiny_lines_within };

    ghost short = { tiny_short };

    ghost one_line = { tiny_one_line };

    ghost utf8 = { tiny_utf8 };

    ghost within = { tiny_within };
}
