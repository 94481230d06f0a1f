// What waits while signs are read, the topmost first, and the operations that are done with it.
ghost use Rattle.std.specs.Prelude.{◌≡◌, ◌∷◌, [], ◌<◌, ◌≤◌, IfOk, IfSome, MatchOption, MatchResult, true, false};
ghost use Rattle.jl_text.specs.declared.limits.TheConstants.{MOST_BRACKETS};
ghost use Rattle.jl_lexer.specs.Trees.{kept};
ghost use Rattle.jl_grammar.specs.Parser.{wanted as wanted_of, is_bracket as is_bracket_of, depth as depth_of, binds as binds_of, top_binds as top_binds_of, with_last, reduced, top_is_source as top_is_source_of};
ghost use Rattle.jl_grammar.specs.FrameForm.{bare_frame, single_frame, double_frame};

use crate::frames::{
    Bare, Double, Frame, Single, Waiting, binds, is_bracket, is_source, wanted_by,
};
use jl_lexer::Tree;
use std::alloc::{AllocError, Global};
use std::marker::Model;

/// The frames that wait, and how many brackets among them are open.
#[derive(Drop)]
pub struct Stack<'a> {
    frames: Vec<Frame<'a>>,
    depth: u32,
}

impl<'a> Model for Stack<'a> {
    ghost use Rattle.std.specs.Prelude.{◌≡◌, ◌≤◌, List, reverse};
    ghost use Rattle.jl_grammar.specs.Frames.{Frame as Frames};
    ghost use Rattle.jl_grammar.specs.Parser.{depth as depth_of};
    ghost use Rattle.jl_grammar.specs.FrameCodes.{coded_frames};
    ghost use Rattle.jl_text.specs.declared.limits.TheConstants.{MOST_BRACKETS};

    ghost Value = { List Frames };

    ghost coded = { coded_frames };

    ghost view = { λ s. reverse s.frames.items };

    ghost invariant = { λ s. (s.depth ≡ depth_of (reverse s.frames.items)) × (s.depth ≤ MOST_BRACKETS) };
}

fn operate_bare(alloc: Global, bare: Bare, last: Tree<'_>) -> Result<Tree<'_>, AllocError>
    ensures { IfOk result (λ t. t ≡ with_last kept (bare_frame bare) last.entry) }
{
    match bare {
        Bare::Behind(prefix) => Tree::before(alloc, prefix, last),
        Bare::Bracket => Ok(last),
        Bare::Member(_) => Ok(last),
    }
}

fn operate_single<'a>(
    alloc: Global,
    single: Single<'a>,
    first: Tree<'a>,
    last: Tree<'a>,
) -> Result<Tree<'a>, AllocError>
    ensures { IfOk result (λ t. t ≡ with_last kept (single_frame single.entry first.entry) last.entry) }
{
    match single {
        Single::Operand(operator) => Tree::between(alloc, operator, first, last),
        Single::Condition => Ok(last),
        Single::Element => Ok(last),
        Single::Bound => Ok(last),
        Single::Source(_) => Ok(last),
    }
}

fn operate_double<'a>(
    alloc: Global,
    double: Double<'a>,
    first: Tree<'a>,
    second: Tree<'a>,
    last: Tree<'a>,
) -> Result<Tree<'a>, AllocError>
    ensures { IfOk result (λ t. t ≡ with_last kept (double_frame double.entry first.entry second.entry) last.entry) }
{
    match double {
        Double::Otherwise => Tree::choice(alloc, first, second, last),
        Double::Filter(_) => Ok(last),
    }
}

fn operate<'a>(alloc: Global, frame: Frame<'a>, last: Tree<'a>) -> Result<Tree<'a>, AllocError>
    ensures { IfOk result (λ t. t ≡ with_last kept frame.entry last.entry) }
{
    match frame.waiting {
        Waiting::NoOperand(bare) => operate_bare(alloc, bare, last),
        Waiting::OneOperand(single, first) => operate_single(alloc, single, first, last),
        Waiting::TwoOperands(double, first, second) => {
            operate_double(alloc, double, first, second, last)
        }
        Waiting::Members(members) => {
            drop(members);
            Ok(last)
        }
        Waiting::Entries(entries, key) => {
            drop(key);
            drop(entries);
            Ok(last)
        }
    }
}

impl<'a> Stack<'a> {
    pub fn new(alloc: Global) -> Stack<'a>
        ensures { result ≡ [] }
    {
        Stack {
            frames: Vec::new(alloc),
            depth: 0,
        }
    }

    /// How many brackets are open.
    pub fn depth(&self) -> u32
        ensures same { result ≡ depth_of self.now }
        ensures low { result ≤ MOST_BRACKETS }
    {
        self.depth
    }

    /// The lowest level of the operand that is waited for.
    pub fn wanted(&self) -> u32
        ensures { result ≡ wanted_of self.now }
    {
        match self.frames.last() {
            Some(frame) => wanted_by(frame.kind()),
            None => 0,
        }
    }

    fn top_binds(&self, level: u32) -> bool
        ensures { result ≡ top_binds_of level self.now }
    {
        match self.frames.last() {
            Some(frame) => binds(level, frame.kind()),
            None => false,
        }
    }

    pub fn top_is_source(&self) -> bool
        ensures { result ≡ top_is_source_of self.now }
    {
        match self.frames.last() {
            Some(frame) => is_source(frame.kind()),
            None => false,
        }
    }

    /// One frame more, which is no bracket.
    pub fn push(self, frame: Frame<'a>) -> Result<Stack<'a>, AllocError>
        requires { is_bracket_of frame ≡ false }
        ensures { IfOk result (λ s. s ≡ frame.entry ∷ self.entry) }
    {
        let Stack { mut frames, depth } = self;
        frames.push(frame)?;
        Ok(Stack { frames, depth })
    }

    /// One bracket more.
    pub fn open(self, frame: Frame<'a>) -> Result<Stack<'a>, AllocError>
        requires bracket { is_bracket_of frame ≡ true }
        requires room { depth_of self < MOST_BRACKETS }
        ensures { IfOk result (λ s. s ≡ frame.entry ∷ self.entry) }
    {
        let Stack { mut frames, depth } = self;
        frames.push(frame)?;
        Ok(Stack {
            frames,
            depth: depth + 1,
        })
    }

    /// The topmost frame and the others, where it binds before an operator.
    fn pop_bound(self, level: u32) -> Result<Top<'a>, Stack<'a>>
        ensures { MatchResult result
            (λ r. (self.entry ≡ r.frame ∷ r.stack) × (binds_of level r.frame ≡ true))
            (λ s. (s ≡ self.entry) × (top_binds_of level s ≡ false)) }
    {
        if !self.top_binds(level) {
            return Err(self);
        }
        let Stack { mut frames, depth } = self;
        match frames.pop() {
            Some(frame) => Ok(Top {
                frame,
                stack: Stack { frames, depth },
            }),
            None => Err(Stack { frames, depth }),
        }
    }

    /// The topmost frame, and the others.
    pub fn pop(self) -> Option<Top<'a>>
        ensures parts { MatchOption result (self.entry ≡ []) (λ r. self.entry ≡ r.frame ∷ r.stack) }
        ensures room { IfSome result (λ r. is_bracket_of r.frame ≡ true → depth_of r.stack < MOST_BRACKETS) }
    {
        let Stack { mut frames, depth } = self;
        match frames.pop() {
            Some(frame) => {
                let open = if is_bracket(frame.kind()) {
                    depth - 1
                } else {
                    depth
                };
                let stack = Stack {
                    frames,
                    depth: open,
                };
                Some(Top { frame, stack })
            }
            None => None,
        }
    }
}

/// The topmost frame, and those below it.
#[derive(Drop)]
pub struct Top<'a> {
    pub frame: Frame<'a>,
    pub stack: Stack<'a>,
}

/// The frames that are left, and the operand.
#[derive(Drop)]
pub struct Operands<'a> {
    pub stack: Stack<'a>,
    pub tree: Tree<'a>,
}

/// Does the operations that bind before an operator whose left operand has this level.
pub fn reduce<'a>(
    alloc: Global,
    level: u32,
    start: Stack<'a>,
    last: Tree<'a>,
) -> Result<Operands<'a>, AllocError>
    ensures { IfOk result (λ r. reduced kept level start.entry last.entry ≡ record { frames = r.stack; tree = r.tree }) }
{
    let mut stack = start;
    let mut tree = last;
    'operations: loop {
        match stack.pop_bound(level) {
            Ok(top) => {
                tree = operate(alloc, top.frame, tree)?;
                stack = top.stack;
            }
            Err(stack) => return Ok(Operands { stack, tree }),
        }
    }
}
