// What waits for an operand, by how many operands stand before it.
ghost use Rattle.std.specs.Prelude.{◌≡◌};
ghost use Rattle.jl_lexer.specs.Trees.{Expression};
ghost use Rattle.jl_grammar.specs.Frames.{Listed, Keyed};
ghost use Rattle.jl_grammar.specs.FrameForm.{bare_frame, single_frame, double_frame};
ghost use Rattle.jl_grammar.specs.Parser.{kind_of, kind_wanted, kind_is_bracket, kind_binds, kind_is_source};

use jl_lexer::{Entries, Function, Key, Members, Operator, Prefix, Tree, own_level, prefix_level};
use std::marker::Model;

/// What waits with no operand before it.
#[derive(Clone, Copy)]
pub enum Bare {
    Bracket,
    Behind(Prefix),
    Member(Function),
}

/// What waits behind one operand.
#[derive(Clone, Copy)]
pub enum Single<'a> {
    Operand(Operator),
    Condition,
    Element,
    Bound,
    Source(&'a [u8]),
}

/// What waits behind two operands.
#[derive(Clone, Copy)]
pub enum Double<'a> {
    Otherwise,
    Filter(&'a [u8]),
}

/// What waits, with what was read of it.
#[derive(Drop)]
pub enum Waiting<'a> {
    NoOperand(Bare),
    OneOperand(Single<'a>, Tree<'a>),
    TwoOperands(Double<'a>, Tree<'a>, Tree<'a>),
    Members(Members<'a>),
    Entries(Entries<'a>, Key<'a>),
}

/// What waits for an operand.
#[derive(Drop)]
pub struct Frame<'a> {
    pub waiting: Waiting<'a>,
}

impl<'a> Model for Frame<'a> {
    ghost use Rattle.jl_grammar.specs.Frames.{Frame as Frames};
    ghost use Rattle.jl_grammar.specs.FrameForm.{frame_of};
    ghost use Rattle.jl_grammar.specs.FrameCodes.{coded_frame};

    ghost Value = { Frames };

    ghost coded = { coded_frame };

    ghost view = { λ f. frame_of f.waiting };
}

/// What kind of frame waits.
#[derive(Clone, Copy)]
pub enum Kind {
    Inside,
    Behind(Prefix),
    Operand(Operator),
    Condition,
    Otherwise,
    Source,
    Filter,
}

fn bare_kind(bare: Bare) -> Kind
    ensures { result ≡ kind_of (bare_frame bare) }
{
    match bare {
        Bare::Bracket => Kind::Inside,
        Bare::Behind(prefix) => Kind::Behind(prefix),
        Bare::Member(_) => Kind::Inside,
    }
}

fn single_kind(single: Single<'_>) -> Kind
    ensures { (a : Expression) → result ≡ kind_of (single_frame single.entry a) }
{
    match single {
        Single::Operand(operator) => Kind::Operand(operator),
        Single::Condition => Kind::Condition,
        Single::Element => Kind::Inside,
        Single::Bound => Kind::Inside,
        Single::Source(_) => Kind::Source,
    }
}

fn double_kind(double: Double<'_>) -> Kind
    ensures { (a b : Expression) → result ≡ kind_of (double_frame double.entry a b) }
{
    match double {
        Double::Otherwise => Kind::Otherwise,
        Double::Filter(_) => Kind::Filter,
    }
}

impl<'a> Frame<'a> {
    pub fn bare(bare: Bare) -> Frame<'a>
        ensures { result ≡ bare_frame bare }
    {
        Frame {
            waiting: Waiting::NoOperand(bare),
        }
    }

    pub fn single(single: Single<'a>, operand: Tree<'a>) -> Frame<'a>
        ensures { result ≡ single_frame single.entry operand.entry }
    {
        Frame {
            waiting: Waiting::OneOperand(single, operand),
        }
    }

    pub fn double(double: Double<'a>, first: Tree<'a>, second: Tree<'a>) -> Frame<'a>
        ensures { result ≡ double_frame double.entry first.entry second.entry }
    {
        Frame {
            waiting: Waiting::TwoOperands(double, first, second),
        }
    }

    pub fn listed(members: Members<'a>) -> Frame<'a>
        ensures { result ≡ Listed members.entry }
    {
        Frame {
            waiting: Waiting::Members(members),
        }
    }

    pub fn keyed(entries: Entries<'a>, key: Key<'a>) -> Frame<'a>
        ensures { result ≡ Keyed entries.entry key.entry }
    {
        Frame {
            waiting: Waiting::Entries(entries, key),
        }
    }

    pub fn kind(&self) -> Kind
        ensures { result ≡ kind_of self.now }
    {
        match &self.waiting {
            Waiting::NoOperand(bare) => bare_kind(*bare),
            Waiting::OneOperand(single, _) => single_kind(*single),
            Waiting::TwoOperands(double, _, _) => double_kind(*double),
            Waiting::Members(_) => Kind::Inside,
            Waiting::Entries(_, _) => Kind::Inside,
        }
    }
}

/// The lowest level of the operand that is waited for.
pub fn wanted_by(kind: Kind) -> u32
    ensures { result ≡ kind_wanted kind }
{
    match kind {
        Kind::Inside => 0,
        Kind::Behind(prefix) => prefix_level(prefix),
        Kind::Operand(operator) => own_level(operator) + 1,
        Kind::Condition => 1,
        Kind::Otherwise => 0,
        Kind::Source => 1,
        Kind::Filter => 1,
    }
}

pub fn is_bracket(kind: Kind) -> bool
    ensures { result ≡ kind_is_bracket kind }
{
    match kind {
        Kind::Inside => true,
        Kind::Behind(_) => false,
        Kind::Operand(_) => false,
        Kind::Condition => false,
        Kind::Otherwise => false,
        Kind::Source => true,
        Kind::Filter => true,
    }
}

/// Whether it is the list that a list goes over.
pub fn is_source(kind: Kind) -> bool
    ensures { result ≡ kind_is_source kind }
{
    match kind {
        Kind::Inside => false,
        Kind::Behind(_) => false,
        Kind::Operand(_) => false,
        Kind::Condition => false,
        Kind::Otherwise => false,
        Kind::Source => true,
        Kind::Filter => false,
    }
}

/// Whether an operation is done before an operator whose left operand has this level at least.
pub fn binds(level: u32, kind: Kind) -> bool
    ensures { result ≡ kind_binds level kind }
{
    match kind {
        Kind::Inside => false,
        Kind::Behind(prefix) => level <= prefix_level(prefix),
        Kind::Operand(operator) => level <= own_level(operator),
        Kind::Condition => false,
        Kind::Otherwise => level == 0,
        Kind::Source => false,
        Kind::Filter => false,
    }
}
