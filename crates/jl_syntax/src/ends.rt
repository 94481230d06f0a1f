// What ends at a bracket that closes: the operand that is made of what waited, behind what still
// waits.
ghost use Rattle.std.specs.Prelude.{◌∷◌, [], ◌++◌};
ghost use Rattle.jl_lexer.specs.Trees.{bracketed, call, span, index, list, each, filtered, table, members_of, entries_of, kept};
ghost use Rattle.jl_grammar.specs.Parser.{going};
ghost use Rattle.jl_grammar.specs.declared.mode.Mode.TheVariants.{HasOperand};
ghost use Rattle.jl_syntax.specs.Steps.{IsStep};

use crate::reader::{Reader, Stop};
use jl_grammar::{Mode, Stack};
use jl_lexer::{Entries, Function, Key, Members, Name, Tree};
use std::alloc::Global;

pub(crate) fn end_brackets<'a>(
    alloc: Global,
    stack: Stack<'a>,
    inner: Tree<'a>,
) -> Result<Reader<'a>, Stop>
    ensures { IsStep result (going stack.entry (HasOperand (kept (bracketed inner.entry)))) }
{
    let tree = Tree::bracketed(alloc, inner)?;
    Ok(Reader {
        stack,
        mode: Mode::HasOperand(tree),
    })
}

pub(crate) fn end_call<'a>(
    alloc: Global,
    stack: Stack<'a>,
    function: Function,
    member: Tree<'a>,
) -> Result<Reader<'a>, Stop>
    ensures { IsStep result (going stack.entry (HasOperand (kept (call function member.entry)))) }
{
    let tree = Tree::call(alloc, function, member)?;
    Ok(Reader {
        stack,
        mode: Mode::HasOperand(tree),
    })
}

pub(crate) fn end_span<'a>(
    alloc: Global,
    stack: Stack<'a>,
    first: Tree<'a>,
    end: Tree<'a>,
) -> Result<Reader<'a>, Stop>
    ensures { IsStep result (going stack.entry (HasOperand (kept (span first.entry end.entry)))) }
{
    let tree = Tree::span(alloc, first, end)?;
    Ok(Reader {
        stack,
        mode: Mode::HasOperand(tree),
    })
}

pub(crate) fn end_index<'a>(
    alloc: Global,
    stack: Stack<'a>,
    list: Tree<'a>,
    at: Tree<'a>,
) -> Result<Reader<'a>, Stop>
    ensures { IsStep result (going stack.entry (HasOperand (kept (index list.entry at.entry)))) }
{
    let tree = Tree::index(alloc, list, at)?;
    Ok(Reader {
        stack,
        mode: Mode::HasOperand(tree),
    })
}

pub(crate) fn end_list<'a>(
    stack: Stack<'a>,
    members: Members<'a>,
    last: Tree<'a>,
) -> Result<Reader<'a>, Stop>
    ensures { IsStep result (going stack.entry
        (HasOperand (kept (list (members_of (members.entry ++ last.entry ∷ [])))))) }
{
    let members = members.with(last)?;
    Ok(Reader {
        stack,
        mode: Mode::HasOperand(Tree::listed(members)),
    })
}

pub(crate) fn end_each<'a>(
    alloc: Global,
    stack: Stack<'a>,
    member: Tree<'a>,
    variable: &'a [u8],
    source: Tree<'a>,
) -> Result<Reader<'a>, Stop>
    ensures { IsStep result (going stack.entry
        (HasOperand (kept (each member.entry variable.now source.entry)))) }
{
    let tree = Tree::each(alloc, member, Name::new(variable), source)?;
    Ok(Reader {
        stack,
        mode: Mode::HasOperand(tree),
    })
}

pub(crate) fn end_filtered<'a>(
    alloc: Global,
    stack: Stack<'a>,
    member: Tree<'a>,
    variable: &'a [u8],
    source: Tree<'a>,
    condition: Tree<'a>,
) -> Result<Reader<'a>, Stop>
    ensures { IsStep result (going stack.entry
        (HasOperand (kept (filtered member.entry variable.now source.entry condition.entry)))) }
{
    let tree = Tree::filtered(alloc, member, Name::new(variable), source, condition)?;
    Ok(Reader {
        stack,
        mode: Mode::HasOperand(tree),
    })
}

pub(crate) fn end_table<'a>(
    stack: Stack<'a>,
    entries: Entries<'a>,
    key: Key<'a>,
    member: Tree<'a>,
) -> Result<Reader<'a>, Stop>
    ensures { IsStep result (going stack.entry
        (HasOperand (kept (table (entries_of (entries.entry ++ (key.entry, member.entry) ∷ [])))))) }
{
    let entries = entries.with(key, member)?;
    Ok(Reader {
        stack,
        mode: Mode::HasOperand(Tree::tabled(entries)),
    })
}
