// A definition: its head and the tree of its expression.
ghost use Rattle.std.specs.Prelude.{◌≡◌, ◌∷◌, [], Some, None, MatchResult, MatchOption};
ghost use Rattle.jl_lexer.specs.Signs.{signs};
ghost use Rattle.jl_module.specs.Headings.{more_parameters as more_parameters_of, parameters_in, heading_of, definition_in};
ghost use Rattle.jl_module.specs.Lines.{IsReadingFault, IsFault, IsNext, IsNameless, HasHeadingName, heading_read, IsDefinition, IsBody, IsNoBody};

use crate::fault::LineFault;
use crate::known::are_known;
use crate::names::{Names, has_repeat};
use jl_lexer::{Tree, begins_word, is_def, is_identifier, is_mark, next_sign};
use jl_syntax::{Stop, read_expression};
use jl_text::limits::MOST_BRACKETS;
use jl_value::ModuleFaultKind;
use std::alloc::Global;

/// How parameters go on.
#[derive(Clone, Copy)]
pub(crate) enum Next<'a> {
    Closed(&'a [u8]),
    Parameter(&'a [u8], &'a [u8]),
    Bad,
}

/// A definition's name and parameters, and the text of its expression.
#[derive(Drop)]
pub(crate) struct Head<'a> {
    pub(crate) name: &'a [u8],
    pub(crate) parameters: Names<'a>,
    pub(crate) body: &'a [u8],
}

/// A definition: what stands before the colon, and the tree of the expression behind it.
#[derive(Drop)]
pub struct Definition<'a> {
    pub name: &'a [u8],
    pub parameters: Names<'a>,
    pub body: Tree<'a>,
}

fn next_parameter(bytes: &[u8]) -> Next<'_>
    ensures { IsNext result bytes.now }
{
    let Some((sign, rest)) = next_sign(bytes) else {
        return Next::Bad;
    };
    if is_mark(sign, b')') {
        return Next::Closed(rest);
    }
    if !is_mark(sign, b',') {
        return Next::Bad;
    }
    match next_sign(rest) {
        Some((name, behind)) => {
            if is_identifier(name) {
                Next::Parameter(name, behind)
            } else {
                Next::Bad
            }
        }
        None => Next::Bad,
    }
}

fn more_parameters<'a>(
    first: Names<'a>,
    bytes: &'a [u8],
) -> Result<(Names<'a>, &'a [u8]), LineFault>
    ensures { MatchResult result
        (λ r. more_parameters_of first.entry (signs bytes.now) ≡ Some (r.0, signs r.1.now))
        (λ e. IsReadingFault e (more_parameters_of first.entry (signs bytes.now))) }
{
    let mut names = first;
    let mut left = bytes;
    'parameters: loop {
        match next_parameter(left) {
            Next::Closed(rest) => return Ok((names, rest)),
            Next::Parameter(name, rest) => {
                names = names.with(name)?;
                left = rest;
            }
            Next::Bad => return Err(LineFault::Faulty(ModuleFaultKind::BadLine)),
        }
    }
}

fn read_parameters<'a>(alloc: Global, bytes: &'a [u8]) -> Result<(Names<'a>, &'a [u8]), LineFault>
    ensures { MatchResult result
        (λ r. parameters_in (signs bytes.now) ≡ Some (r.0, signs r.1.now))
        (λ e. IsReadingFault e (parameters_in (signs bytes.now))) }
{
    let Some((sign, rest)) = next_sign(bytes) else {
        return Err(LineFault::Faulty(ModuleFaultKind::BadLine));
    };
    if is_mark(sign, b')') {
        return Ok((Names::new(alloc), rest));
    }
    if !is_identifier(sign) {
        return Err(LineFault::Faulty(ModuleFaultKind::BadLine));
    }
    more_parameters(Names::new(alloc).with(sign)?, rest)
}

// The name and the text behind the bracket that follows it.
fn read_name(bytes: &[u8]) -> Option<(&[u8], &[u8])>
    ensures { MatchOption result
        (IsNameless (signs bytes.now))
        (λ r. HasHeadingName r.0.now (signs bytes.now) (signs r.1.now)) }
{
    let (word, rest) = next_sign(bytes)?;
    if !is_def(word) {
        return None;
    }
    let (name, behind) = next_sign(rest)?;
    if !is_identifier(name) {
        return None;
    }
    let (sign, behind) = next_sign(behind)?;
    if is_mark(sign, b'(') {
        Some((name, behind))
    } else {
        None
    }
}

fn read_head<'a>(alloc: Global, line: &'a [u8]) -> Result<Head<'a>, LineFault>
    ensures { MatchResult result
        (λ h. heading_of line.now ≡ Some (heading_read h))
        (λ e. IsReadingFault e (heading_of line.now)) }
{
    if !begins_word(line) {
        return Err(LineFault::Faulty(ModuleFaultKind::BadLine));
    }
    let Some((name, rest)) = read_name(line) else {
        return Err(LineFault::Faulty(ModuleFaultKind::BadLine));
    };
    let (parameters, behind) = read_parameters(alloc, rest)?;
    match next_sign(behind) {
        Some((sign, body)) => {
            if is_mark(sign, b':') {
                Ok(Head {
                    name,
                    parameters,
                    body,
                })
            } else {
                Err(LineFault::Faulty(ModuleFaultKind::BadLine))
            }
        }
        None => Err(LineFault::Faulty(ModuleFaultKind::BadLine)),
    }
}

fn read_body<'a>(alloc: Global, bytes: &'a [u8]) -> Result<Tree<'a>, LineFault>
    ensures { MatchResult result
        (λ t. IsBody t (signs bytes.now))
        (λ e. IsNoBody e (signs bytes.now)) }
{
    match read_expression(alloc, bytes) {
        Ok(tree) => {
            if tree.height() > MOST_BRACKETS {
                Err(LineFault::Faulty(ModuleFaultKind::TooDeep))
            } else {
                Ok(tree)
            }
        }
        Err(Stop::Bad) => Err(LineFault::Faulty(ModuleFaultKind::BadLine)),
        Err(Stop::Deep) => Err(LineFault::Faulty(ModuleFaultKind::TooDeep)),
        Err(Stop::NoMemory) => Err(LineFault::Memory),
    }
}

/// The definition that a line is, or its first fault.
pub fn read_definition<'a>(alloc: Global, line: &'a [u8]) -> Result<Definition<'a>, LineFault>
    ensures { MatchResult result
        (λ d. IsDefinition d (definition_in line.now))
        (λ e. IsFault e (definition_in line.now)) }
{
    let head = read_head(alloc, line)?;
    let body = read_body(alloc, head.body)?;
    if has_repeat(alloc, head.parameters.as_slice())? {
        return Err(LineFault::Faulty(ModuleFaultKind::BadName));
    }
    if !are_known(alloc, &head.parameters, &[], &body)? {
        return Err(LineFault::Faulty(ModuleFaultKind::BadName));
    }
    Ok(Definition {
        name: head.name,
        parameters: head.parameters,
        body,
    })
}
