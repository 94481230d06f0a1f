// Lists and tables, sign by sign.
ghost use Rattle.std.specs.Prelude.{◌≡◌, ◌∷◌};
ghost use Rattle.jl_text.specs.declared.limits.TheConstants.{MOST_BRACKETS};
ghost use Rattle.jl_grammar.specs.Parser.{at_empty_close, at_table, at_for, at_curly_close, at_key, at_empty_table, at_colon, at_variable, at_in};
ghost use Rattle.jl_lexer.specs.Trees.{kept};
ghost use Rattle.jl_syntax.specs.Steps.{IsStep};
ghost use Rattle.jl_grammar.specs.Frames.{Listed};

use crate::ends::end_table;
use crate::reader::{Reader, Stop, open_bracket};
use jl_grammar::{Frame, Mode, Operands, Single, Stack, Waiting};
use jl_lexer::{Entries, Key, Members, Name, Tree, is_identifier, is_mark};
use jl_text::limits::MOST_BRACKETS;
use std::alloc::Global;

// A `]` behind the members of a list.
#[tactic(auto, using(crate::proofs::EmptyLemmas::empty_laws))]
fn end_empty_list<'a>(members: Members<'a>, stack: Stack<'a>) -> Result<Reader<'a>, Stop>
    ensures { IsStep result (at_empty_close (Listed members.entry ∷ stack.entry)) }
{
    if members.as_slice().is_empty() {
        Ok(Reader {
            stack,
            mode: Mode::HasOperand(Tree::listed(members)),
        })
    } else {
        Err(Stop::Bad)
    }
}

// A `]` where a member of a list is wanted, behind what waits on top.
fn on_empty_close_at<'a>(frame: Frame<'a>, stack: Stack<'a>) -> Result<Reader<'a>, Stop>
    ensures { IsStep result (at_empty_close (frame.entry ∷ stack.entry)) }
{
    match frame.waiting {
        Waiting::Members(members) => end_empty_list(members, stack),
        other => {
            drop(other);
            Err(Stop::Bad)
        }
    }
}

/// A `]` where a member of a list is wanted.
pub(crate) fn on_empty_close(stack: Stack<'_>) -> Result<Reader<'_>, Stop>
    ensures { IsStep result (at_empty_close stack.entry) }
{
    match stack.pop() {
        Some(top) => on_empty_close_at(top.frame, top.stack),
        None => Err(Stop::Bad),
    }
}

/// A `{` where an operand is wanted.
pub(crate) fn begin_table(alloc: Global, stack: Stack<'_>) -> Result<Reader<'_>, Stop>
    ensures { IsStep result (at_table MOST_BRACKETS stack.entry) }
{
    if stack.depth() >= MOST_BRACKETS {
        return Err(Stop::Deep);
    }
    Ok(Reader {
        stack,
        mode: Mode::WantsKey(Entries::new(alloc)),
    })
}

// A `for` behind an operand and the members of a list.
#[tactic(auto, using(crate::proofs::EmptyLemmas::empty_laws))]
fn begin_source<'a>(
    members: Members<'a>,
    stack: Stack<'a>,
    tree: Tree<'a>,
) -> Result<Reader<'a>, Stop>
    ensures { IsStep result (at_for (Listed members.entry ∷ stack.entry) tree.entry) }
{
    let none = members.as_slice().is_empty();
    drop(members);
    if !none {
        return Err(Stop::Bad);
    }
    Ok(Reader {
        stack,
        mode: Mode::WantsVariable(tree),
    })
}

// A `for` behind an operand and what waits on top.
fn on_for_at<'a>(frame: Frame<'a>, stack: Stack<'a>, tree: Tree<'a>) -> Result<Reader<'a>, Stop>
    ensures { IsStep result (at_for (frame.entry ∷ stack.entry) tree.entry) }
{
    match frame.waiting {
        Waiting::Members(members) => begin_source(members, stack, tree),
        other => {
            drop(other);
            drop(tree);
            drop(stack);
            Err(Stop::Bad)
        }
    }
}

/// A `for` behind an operand.
pub(crate) fn on_for(operands: Operands<'_>) -> Result<Reader<'_>, Stop>
    ensures { IsStep result (at_for operands.entry.stack operands.entry.tree) }
{
    let Operands { stack, tree } = operands;
    match stack.pop() {
        Some(top) => on_for_at(top.frame, top.stack, tree),
        None => Err(Stop::Bad),
    }
}

// A `}` behind an operand and what waits on top.
fn on_curly_close_at<'a>(
    frame: Frame<'a>,
    stack: Stack<'a>,
    tree: Tree<'a>,
) -> Result<Reader<'a>, Stop>
    ensures { IsStep result (at_curly_close kept (frame.entry ∷ stack.entry) tree.entry) }
{
    match frame.waiting {
        Waiting::Entries(entries, key) => end_table(stack, entries, key, tree),
        other => {
            drop(other);
            drop(tree);
            drop(stack);
            Err(Stop::Bad)
        }
    }
}

/// A `}` behind an operand.
pub(crate) fn on_curly_close(operands: Operands<'_>) -> Result<Reader<'_>, Stop>
    ensures { IsStep result (at_curly_close kept operands.entry.stack operands.entry.tree) }
{
    let Operands { stack, tree } = operands;
    match stack.pop() {
        Some(top) => on_curly_close_at(top.frame, top.stack, tree),
        None => Err(Stop::Bad),
    }
}

// A `}` where a key of a table is wanted.
#[tactic(auto, using(crate::proofs::EmptyLemmas::empty_laws))]
fn end_empty_table<'a>(
    stack: Stack<'a>,
    entries: Entries<'a>,
    sign: &[u8],
) -> Result<Reader<'a>, Stop>
    ensures { IsStep result (at_empty_table stack.entry entries.entry sign.now) }
{
    if !entries.as_slice().is_empty() {
        return Err(Stop::Bad);
    }
    if !is_mark(sign, b'}') {
        return Err(Stop::Bad);
    }
    Ok(Reader {
        stack,
        mode: Mode::HasOperand(Tree::tabled(entries)),
    })
}

/// A sign where a key of a table is wanted.
pub(crate) fn on_key<'a>(
    alloc: Global,
    stack: Stack<'a>,
    entries: Entries<'a>,
    sign: &'a [u8],
) -> Result<Reader<'a>, Stop>
    ensures { IsStep result (at_key stack.entry entries.entry sign.now) }
{
    match Key::read(alloc, sign)? {
        Some(key) => Ok(Reader {
            stack,
            mode: Mode::WantsColon(entries, key),
        }),
        None => end_empty_table(stack, entries, sign),
    }
}

/// A sign behind a key of a table.
pub(crate) fn on_colon<'a>(
    stack: Stack<'a>,
    entries: Entries<'a>,
    key: Key<'a>,
    sign: &[u8],
) -> Result<Reader<'a>, Stop>
    ensures { IsStep result (at_colon MOST_BRACKETS stack.entry entries.entry key.entry sign.now) }
{
    if is_mark(sign, b':') {
        open_bracket(Frame::keyed(entries, key), stack)
    } else {
        Err(Stop::Bad)
    }
}

/// A sign where the variable of a list is wanted.
pub(crate) fn on_variable<'a>(
    stack: Stack<'a>,
    member: Tree<'a>,
    sign: &'a [u8],
) -> Result<Reader<'a>, Stop>
    ensures { IsStep result (at_variable stack.entry member.entry sign.now) }
{
    if is_identifier(sign) {
        Ok(Reader {
            stack,
            mode: Mode::WantsIn(member, Name::new(sign)),
        })
    } else {
        Err(Stop::Bad)
    }
}

/// A sign behind the variable of a list.
pub(crate) fn on_in<'a>(
    stack: Stack<'a>,
    member: Tree<'a>,
    variable: Name<'a>,
    sign: &[u8],
) -> Result<Reader<'a>, Stop>
    ensures { IsStep result (at_in MOST_BRACKETS stack.entry member.entry variable.entry sign.now) }
{
    if sign == b"in".as_slice() {
        open_bracket(
            Frame::single(Single::Source(variable.bytes()), member),
            stack,
        )
    } else {
        Err(Stop::Bad)
    }
}
