// Whether the names of an expression are known.
ghost use Rattle.std.specs.Prelude.{◌≡◌, ◌∷◌, ◌&&◌, IfOk, map};
ghost use Rattle.std.specs.List.{list_any};
ghost use Rattle.std.specs.Str.{bytes_eq};
ghost use Rattle.jl_lexer.specs.Trees.{members_of, entries_of, choice, each, filtered};
ghost use Rattle.jl_module.specs.Headings.{are_known as are_known_of, members_known as members_known_of, entries_known as entries_known_of, is_known as is_known_of};
ghost use Rattle.jl_module.specs.Scopes.{names_among};

use crate::names::Names;
use jl_lexer::{Entry, Name, Node, Tree, Word, is_identifier};
use std::alloc::{AllocError, Global};

fn is_variable(variables: &[&[u8]], name: &[u8]) -> bool
    ensures { result ≡ list_any (bytes_eq name.now) (map (λ x. x.now) variables.now) }
{
    for variable in variables {
        if name == *variable {
            return true;
        }
    }
    false
}

#[tactic(auto, using(crate::proofs::ScopeLemmas::known_among))]
fn is_known(names: &Names, variables: &[&[u8]], word: &Word) -> bool
    ensures { result ≡ is_known_of (names_among variables.now names.now) word.now }
{
    let word = word.bytes();
    if !is_identifier(word) {
        return true;
    }
    is_variable(variables, word) || names.contains(word)
}

// The variables of the lists round an expression, with one more before them.
fn with_variable<'a>(
    alloc: Global,
    variable: &Name<'a>,
    variables: &[&'a [u8]],
) -> Result<Vec<&'a [u8]>, AllocError>
    ensures { IfOk result
        (λ v. map (λ x. x.now) v.items ≡ variable.now ∷ map (λ x. x.now) variables.now) }
{
    let mut inner = Vec::new(alloc);
    inner.push(variable.bytes())?;
    inner.extend_from_slice(variables)?;
    Ok(inner)
}

#[cycle(known)]
fn both_known<'a>(
    alloc: Global,
    names: &Names,
    variables: &[&'a [u8]],
    first: &Tree<'a>,
    last: &Tree<'a>,
) -> Result<bool, AllocError>
    ensures { IfOk result
        (λ b. b ≡ (are_known_of (names_among variables.now names.now) first.now
        && are_known_of (names_among variables.now names.now) last.now)) }
{
    if !are_known(alloc, names, variables, first)? {
        return Ok(false);
    }
    are_known(alloc, names, variables, last)
}

#[cycle(known)]
fn choice_known<'a>(
    alloc: Global,
    names: &Names,
    variables: &[&'a [u8]],
    first: &Tree<'a>,
    condition: &Tree<'a>,
    last: &Tree<'a>,
) -> Result<bool, AllocError>
    ensures { IfOk result
        (λ b. b ≡ are_known_of (names_among variables.now names.now)
        (choice first.now condition.now last.now)) }
{
    if !are_known(alloc, names, variables, first)? {
        return Ok(false);
    }
    both_known(alloc, names, variables, condition, last)
}

#[cycle(known)]
fn each_known<'a>(
    alloc: Global,
    names: &Names,
    variables: &[&'a [u8]],
    member: &Tree<'a>,
    variable: &Name<'a>,
    source: &Tree<'a>,
) -> Result<bool, AllocError>
    ensures { IfOk result
        (λ b. b ≡ are_known_of (names_among variables.now names.now)
        (each member.now variable.now source.now)) }
{
    if !are_known(alloc, names, variables, source)? {
        return Ok(false);
    }
    let inner = with_variable(alloc, variable, variables)?;
    are_known(alloc, names, inner.as_slice(), member)
}

#[cycle(known)]
fn filtered_known<'a>(
    alloc: Global,
    names: &Names,
    variables: &[&'a [u8]],
    member: &Tree<'a>,
    variable: &Name<'a>,
    source: &Tree<'a>,
    condition: &Tree<'a>,
) -> Result<bool, AllocError>
    ensures { IfOk result
        (λ b. b ≡ are_known_of (names_among variables.now names.now)
        (filtered member.now variable.now source.now condition.now)) }
{
    if !are_known(alloc, names, variables, source)? {
        return Ok(false);
    }
    let inner = with_variable(alloc, variable, variables)?;
    both_known(alloc, names, inner.as_slice(), condition, member)
}

#[cycle(known)]
fn members_known<'a>(
    alloc: Global,
    names: &Names,
    variables: &[&'a [u8]],
    members: &[Tree<'a>],
) -> Result<bool, AllocError>
    ensures { IfOk result
        (λ b. b ≡ members_known_of (names_among variables.now names.now) (members_of members.now)) }
{
    for member in members {
        if !are_known(alloc, names, variables, member)? {
            return Ok(false);
        }
    }
    Ok(true)
}

#[cycle(known)]
fn entries_known<'a>(
    alloc: Global,
    names: &Names,
    variables: &[&'a [u8]],
    entries: &[Entry<'a>],
) -> Result<bool, AllocError>
    ensures { IfOk result
        (λ b. b ≡ entries_known_of (names_among variables.now names.now) (entries_of entries.now)) }
{
    for entry in entries {
        if !are_known(alloc, names, variables, entry.member())? {
            return Ok(false);
        }
    }
    Ok(true)
}

/// Whether each name of an expression is a parameter, or the variable of a list that it stands in.
#[cycle(known)]
pub(crate) fn are_known<'a>(
    alloc: Global,
    names: &Names,
    variables: &[&'a [u8]],
    tree: &Tree<'a>,
) -> Result<bool, AllocError>
    ensures { IfOk result (λ b. b ≡ are_known_of (names_among variables.now names.now) tree.now) }
{
    match tree.node() {
        Node::Tall => Ok(true),
        Node::Leaf(word) => Ok(is_known(names, variables, word)),
        Node::Bracketed(inner) => are_known(alloc, names, variables, inner),
        Node::Before(_, inner) => are_known(alloc, names, variables, inner),
        Node::Between(_, left, right) => both_known(alloc, names, variables, left, right),
        Node::Choice(first, condition, last) => {
            choice_known(alloc, names, variables, first, condition, last)
        }
        Node::Index(whole, at) => both_known(alloc, names, variables, whole, at),
        Node::Call(_, member) => are_known(alloc, names, variables, member),
        Node::Span(first, end) => both_known(alloc, names, variables, first, end),
        Node::Listed(members) => members_known(alloc, names, variables, members.as_slice()),
        Node::Each(member, variable, source) => {
            each_known(alloc, names, variables, member, variable, source)
        }
        Node::Filtered(member, variable, source, condition) => filtered_known(
            alloc, names, variables, member, variable, source, condition,
        ),
        Node::Tabled(entries) => entries_known(alloc, names, variables, entries.as_slice()),
    }
}
