// A shift-reduce reader of expressions, sign by sign.
ghost use Rattle.std.specs.Prelude.{◌≡◌, ◌∷◌, [], ◌<◌, true, false};
ghost use Rattle.jl_text.specs.declared.limits.TheConstants.{MOST_BRACKETS};
ghost use Rattle.jl_grammar.specs.Parser.{is_bracket, depth, with_bracket, at_prefix, at_operand, at_operator, at_condition, at_filter, at_if, at_opening, at_else, at_round_close, at_square_close, at_bound, at_comma, at_call, at_joint, step as step_of, finished, whole_tree_of, run};
ghost use Rattle.jl_lexer.specs.Trees.{kept};
ghost use Rattle.jl_syntax.specs.Steps.{IsStep, IsRead, with_frame};
ghost use Rattle.jl_grammar.specs.declared.mode.Mode.TheVariants.{WantsOperand};
ghost use Rattle.jl_lexer.specs.Signs.{signs};

use crate::ends::{end_brackets, end_call, end_each, end_filtered, end_index, end_list, end_span};
use crate::lists::{
    begin_table, on_colon, on_curly_close, on_empty_close, on_for, on_in, on_key, on_variable,
};
use jl_grammar::{
    Bare, Double, Frame, Joint, Mode, Operands, Single, Stack, Waiting, read_joint, reduce,
};
use jl_lexer::{
    Function, Members, Operator, Prefix, Tree, Word, function, is_mark, left_level, next_sign,
    own_level, prefix, prefix_level,
};
use jl_text::limits::MOST_BRACKETS;
use std::alloc::{AllocError, Global};

/// What was read of an expression so far.
#[derive(Drop)]
pub(crate) struct Reader<'a> {
    pub(crate) stack: Stack<'a>,
    pub(crate) mode: Mode<'a>,
}

/// Why there is no expression.
#[derive(Clone, Copy, Drop)]
pub enum Stop {
    Bad,
    Deep,
    NoMemory,
}

impl From<AllocError> for Stop {
    ghost use Rattle.jl_syntax.specs.declared.reader.Stop.TheVariants.{NoMemory};
    ghost use Rattle.std.specs.Prelude.{◌≡◌};

    ghost from_gives = { λ _ e. e ≡ NoMemory };

    fn from(_refused: AllocError) -> Stop {
        Stop::NoMemory
    }
}

pub(crate) fn open_bracket<'a>(frame: Frame<'a>, stack: Stack<'a>) -> Result<Reader<'a>, Stop>
    requires { is_bracket frame ≡ true }
    ensures { IsStep result (with_bracket MOST_BRACKETS frame.entry stack.entry) }
{
    if stack.depth() >= MOST_BRACKETS {
        drop(frame);
        return Err(Stop::Deep);
    }
    Ok(Reader {
        stack: stack.open(frame)?,
        mode: Mode::WantsOperand,
    })
}

// What waits for one operand more, which binds as tight as this level. Where what waits already
// wants a tighter one, nothing of this level stands.
fn push_frame<'a>(level: u32, frame: Frame<'a>, stack: Stack<'a>) -> Result<Reader<'a>, Stop>
    requires { is_bracket frame ≡ false }
    ensures { IsStep result (with_frame level frame.entry stack.entry) }
{
    if stack.wanted() > level {
        drop(frame);
        drop(stack);
        return Err(Stop::Bad);
    }
    Ok(Reader {
        stack: stack.push(frame)?,
        mode: Mode::WantsOperand,
    })
}

fn on_prefix<'a>(stack: Stack<'a>, prefix: Option<Prefix>) -> Result<Reader<'a>, Stop>
    ensures { IsStep result (at_prefix stack.entry prefix) }
{
    match prefix {
        Some(prefix) => push_frame(
            prefix_level(prefix),
            Frame::bare(Bare::Behind(prefix)),
            stack,
        ),
        None => Err(Stop::Bad),
    }
}

// A bracket where an operand begins, a function's name, or what may stand before an operand.
fn on_opening<'a>(alloc: Global, stack: Stack<'a>, sign: &'a [u8]) -> Result<Reader<'a>, Stop>
    ensures { IsStep result (at_opening MOST_BRACKETS stack.entry sign.now) }
{
    if is_mark(sign, b'(') {
        return open_bracket(Frame::bare(Bare::Bracket), stack);
    }
    if is_mark(sign, b'[') {
        return open_bracket(Frame::listed(Members::new(alloc)), stack);
    }
    if is_mark(sign, b']') {
        return on_empty_close(stack);
    }
    if is_mark(sign, b'{') {
        return begin_table(alloc, stack);
    }
    if let Some(function) = function(sign) {
        return Ok(Reader {
            stack,
            mode: Mode::AfterFunction(function),
        });
    }
    on_prefix(stack, prefix(sign))
}

fn on_operand<'a>(alloc: Global, stack: Stack<'a>, sign: &'a [u8]) -> Result<Reader<'a>, Stop>
    ensures { IsStep result (at_operand MOST_BRACKETS stack.entry sign.now) }
{
    match Word::read(alloc, sign)? {
        Some(word) => Ok(Reader {
            stack,
            mode: Mode::HasOperand(Tree::leaf(word)),
        }),
        None => on_opening(alloc, stack, sign),
    }
}

fn on_call<'a>(function: Function, stack: Stack<'a>, sign: &[u8]) -> Result<Reader<'a>, Stop>
    ensures { IsStep result (at_call MOST_BRACKETS function stack.entry sign.now) }
{
    if is_mark(sign, b'(') {
        open_bracket(Frame::bare(Bare::Member(function)), stack)
    } else {
        Err(Stop::Bad)
    }
}

fn on_operator<'a>(operator: Operator, operands: Operands<'a>) -> Result<Reader<'a>, Stop>
    ensures { IsStep result (at_operator operator
        (record { frames = operands.entry.stack; tree = operands.entry.tree })) }
{
    let Operands { stack, tree } = operands;
    let frame = Frame::single(Single::Operand(operator), tree);
    push_frame(own_level(operator), frame, stack)
}

// An `if` where a condition of a choice may follow.
fn begin_condition<'a>(stack: Stack<'a>, tree: Tree<'a>) -> Result<Reader<'a>, Stop>
    ensures { IsStep result (at_condition stack.entry tree.entry) }
{
    push_frame(0, Frame::single(Single::Condition, tree), stack)
}

// An `if` behind the list that a list goes over, which waits on top.
fn begin_filter_at<'a>(
    frame: Frame<'a>,
    stack: Stack<'a>,
    tree: Tree<'a>,
) -> Result<Reader<'a>, Stop>
    requires { is_bracket frame ≡ true → depth stack < MOST_BRACKETS }
    ensures { IsStep result (at_filter (frame.entry ∷ stack.entry) tree.entry) }
{
    match frame.waiting {
        Waiting::OneOperand(Single::Source(variable), member) => Ok(Reader {
            stack: stack.open(Frame::double(Double::Filter(variable), member, tree))?,
            mode: Mode::WantsOperand,
        }),
        other => {
            drop(other);
            drop(tree);
            drop(stack);
            Err(Stop::Bad)
        }
    }
}

fn begin_filter<'a>(stack: Stack<'a>, tree: Tree<'a>) -> Result<Reader<'a>, Stop>
    ensures { IsStep result (at_filter stack.entry tree.entry) }
{
    match stack.pop() {
        Some(top) => begin_filter_at(top.frame, top.stack, tree),
        None => Err(Stop::Bad),
    }
}

fn on_if(operands: Operands<'_>) -> Result<Reader<'_>, Stop>
    ensures { IsStep result (at_if operands.entry.stack operands.entry.tree) }
{
    let Operands { stack, tree } = operands;
    if stack.top_is_source() {
        begin_filter(stack, tree)
    } else {
        begin_condition(stack, tree)
    }
}

// An `else` behind what waits on top.
fn on_else_at<'a>(frame: Frame<'a>, stack: Stack<'a>, tree: Tree<'a>) -> Result<Reader<'a>, Stop>
    ensures { IsStep result (at_else (frame.entry ∷ stack.entry) tree.entry) }
{
    match frame.waiting {
        Waiting::OneOperand(Single::Condition, first) => Ok(Reader {
            stack: stack.push(Frame::double(Double::Otherwise, first, tree))?,
            mode: Mode::WantsOperand,
        }),
        other => {
            drop(other);
            drop(tree);
            drop(stack);
            Err(Stop::Bad)
        }
    }
}

fn on_else(operands: Operands<'_>) -> Result<Reader<'_>, Stop>
    ensures { IsStep result (at_else operands.entry.stack operands.entry.tree) }
{
    let Operands { stack, tree } = operands;
    match stack.pop() {
        Some(top) => on_else_at(top.frame, top.stack, tree),
        None => Err(Stop::Bad),
    }
}

// A `)` behind what waits on top.
fn on_round_close_at<'a>(
    alloc: Global,
    frame: Frame<'a>,
    stack: Stack<'a>,
    tree: Tree<'a>,
) -> Result<Reader<'a>, Stop>
    ensures { IsStep result (at_round_close kept (frame.entry ∷ stack.entry) tree.entry) }
{
    match frame.waiting {
        Waiting::NoOperand(Bare::Bracket) => end_brackets(alloc, stack, tree),
        Waiting::NoOperand(Bare::Member(function)) => end_call(alloc, stack, function, tree),
        Waiting::OneOperand(Single::Bound, first) => end_span(alloc, stack, first, tree),
        other => {
            drop(other);
            drop(tree);
            drop(stack);
            Err(Stop::Bad)
        }
    }
}

fn on_round_close<'a>(alloc: Global, operands: Operands<'a>) -> Result<Reader<'a>, Stop>
    ensures { IsStep result (at_round_close kept operands.entry.stack operands.entry.tree) }
{
    let Operands { stack, tree } = operands;
    match stack.pop() {
        Some(top) => on_round_close_at(alloc, top.frame, top.stack, tree),
        None => Err(Stop::Bad),
    }
}

// A `]` behind what waits on top.
fn on_square_close_at<'a>(
    alloc: Global,
    frame: Frame<'a>,
    stack: Stack<'a>,
    tree: Tree<'a>,
) -> Result<Reader<'a>, Stop>
    ensures { IsStep result (at_square_close kept (frame.entry ∷ stack.entry) tree.entry) }
{
    match frame.waiting {
        Waiting::OneOperand(Single::Element, list) => end_index(alloc, stack, list, tree),
        Waiting::Members(members) => end_list(stack, members, tree),
        Waiting::OneOperand(Single::Source(variable), member) => {
            end_each(alloc, stack, member, variable, tree)
        }
        Waiting::TwoOperands(Double::Filter(variable), member, source) => {
            end_filtered(alloc, stack, member, variable, source, tree)
        }
        other => {
            drop(other);
            drop(tree);
            drop(stack);
            Err(Stop::Bad)
        }
    }
}

fn on_square_close<'a>(alloc: Global, operands: Operands<'a>) -> Result<Reader<'a>, Stop>
    ensures { IsStep result (at_square_close kept operands.entry.stack operands.entry.tree) }
{
    let Operands { stack, tree } = operands;
    match stack.pop() {
        Some(top) => on_square_close_at(alloc, top.frame, top.stack, tree),
        None => Err(Stop::Bad),
    }
}

// A `,` behind the first member of a function.
fn begin_bound<'a>(function: Function, stack: Stack<'a>, tree: Tree<'a>) -> Result<Reader<'a>, Stop>
    requires { depth stack < MOST_BRACKETS }
    ensures { IsStep result (at_bound function stack.entry tree.entry) }
{
    match function {
        Function::Range => Ok(Reader {
            stack: stack.open(Frame::single(Single::Bound, tree))?,
            mode: Mode::WantsOperand,
        }),
        _ => {
            drop(tree);
            drop(stack);
            Err(Stop::Bad)
        }
    }
}

// A `,` behind what waits on top.
fn on_comma_at<'a>(frame: Frame<'a>, stack: Stack<'a>, tree: Tree<'a>) -> Result<Reader<'a>, Stop>
    requires { is_bracket frame ≡ true → depth stack < MOST_BRACKETS }
    ensures { IsStep result (at_comma (frame.entry ∷ stack.entry) tree.entry) }
{
    match frame.waiting {
        Waiting::NoOperand(Bare::Member(function)) => begin_bound(function, stack, tree),
        Waiting::Members(members) => Ok(Reader {
            stack: stack.open(Frame::listed(members.with(tree)?))?,
            mode: Mode::WantsOperand,
        }),
        Waiting::Entries(entries, key) => Ok(Reader {
            stack,
            mode: Mode::WantsKey(entries.with(key, tree)?),
        }),
        other => {
            drop(other);
            drop(tree);
            drop(stack);
            Err(Stop::Bad)
        }
    }
}

fn on_comma(operands: Operands<'_>) -> Result<Reader<'_>, Stop>
    ensures { IsStep result (at_comma operands.entry.stack operands.entry.tree) }
{
    let Operands { stack, tree } = operands;
    match stack.pop() {
        Some(top) => on_comma_at(top.frame, top.stack, tree),
        None => Err(Stop::Bad),
    }
}

fn on_joint<'a>(
    alloc: Global,
    stack: Stack<'a>,
    tree: Tree<'a>,
    joint: Joint,
) -> Result<Reader<'a>, Stop>
    ensures { IsStep result (at_joint kept MOST_BRACKETS stack.entry tree.entry joint) }
{
    match joint {
        Joint::Infix(operator) => on_operator(
            operator,
            reduce(alloc, left_level(operator), stack, tree)?,
        ),
        Joint::Opening => open_bracket(Frame::single(Single::Element, tree), stack),
        Joint::If => on_if(reduce(alloc, 1, stack, tree)?),
        Joint::Else => on_else(reduce(alloc, 1, stack, tree)?),
        Joint::For => on_for(reduce(alloc, 0, stack, tree)?),
        Joint::Closing => on_round_close(alloc, reduce(alloc, 0, stack, tree)?),
        Joint::Ending => on_square_close(alloc, reduce(alloc, 0, stack, tree)?),
        Joint::Braced => on_curly_close(reduce(alloc, 0, stack, tree)?),
        Joint::Comma => on_comma(reduce(alloc, 0, stack, tree)?),
        Joint::Other => Err(Stop::Bad),
    }
}

fn whole_tree(operands: Operands<'_>) -> Result<Tree<'_>, Stop>
    ensures { IsRead result (whole_tree_of operands.entry.stack operands.entry.tree) }
{
    let Operands { stack, tree } = operands;
    match stack.pop() {
        Some(top) => {
            drop(top);
            drop(tree);
            Err(Stop::Bad)
        }
        None => Ok(tree),
    }
}

impl<'a> Reader<'a> {
    pub(crate) fn new(alloc: Global) -> Reader<'a>
        ensures stack { result.stack ≡ [] }
        ensures mode { result.mode ≡ WantsOperand }
    {
        Reader {
            stack: Stack::new(alloc),
            mode: Mode::WantsOperand,
        }
    }

    /// After one more sign.
    pub(crate) fn step(self, alloc: Global, sign: &'a [u8]) -> Result<Reader<'a>, Stop>
        ensures { IsStep result (step_of kept MOST_BRACKETS self.entry.stack self.entry.mode sign.now) }
    {
        let Reader { stack, mode } = self;
        match mode {
            Mode::WantsOperand => on_operand(alloc, stack, sign),
            Mode::HasOperand(tree) => on_joint(alloc, stack, tree, read_joint(sign)),
            Mode::AfterFunction(function) => on_call(function, stack, sign),
            Mode::WantsKey(entries) => on_key(alloc, stack, entries, sign),
            Mode::WantsColon(entries, key) => on_colon(stack, entries, key, sign),
            Mode::WantsVariable(member) => on_variable(stack, member, sign),
            Mode::WantsIn(member, variable) => on_in(stack, member, variable, sign),
        }
    }

    /// The tree of what was read, if it is whole.
    pub(crate) fn finish(self, alloc: Global) -> Result<Tree<'a>, Stop>
        ensures { IsRead result (finished kept self.entry.stack self.entry.mode) }
    {
        let Reader { stack, mode } = self;
        match mode {
            Mode::HasOperand(tree) => whole_tree(reduce(alloc, 0, stack, tree)?),
            other => {
                drop(other);
                Err(Stop::Bad)
            }
        }
    }
}

/// The tree that the signs of a text write; of one higher than the limit only its height is kept.
pub fn read_expression<'a>(alloc: Global, bytes: &'a [u8]) -> Result<Tree<'a>, Stop>
    ensures { IsRead result (run kept MOST_BRACKETS [] WantsOperand (signs bytes.now)) }
{
    let mut reader = Reader::new(alloc);
    let mut left = bytes;
    'signs: loop {
        match next_sign(left) {
            Some((sign, rest)) => {
                reader = reader.step(alloc, sign)?;
                left = rest;
            }
            None => return reader.finish(alloc),
        }
    }
}
