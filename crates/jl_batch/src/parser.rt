// The parser of expressions, which reads lexeme by lexeme (shift and reduce), with the brackets
// that
// are open on a stack of their own.
ghost use Rattle.std.specs.Prelude.{◌≡◌, ◌∷◌, [], ◌==◌, pos, MatchOption, nat_lt, length, if◌then◌else◌};
ghost use Rattle.jl_batch.specs.Expressions.{negated as negated_of};
ghost use Rattle.jl_batch.specs.declared.lexer.Lexeme.TheVariants.{Infix, Closing};
ghost use Rattle.jl_batch.specs.Parser.{fresh as fresh_of, joined as joined_of, total as total_of, with_operand as with_operand_of, with_minus as with_minus_of, opened as opened_of, expecting as expecting_of, behind as behind_of, step as step_of, value_at_end, started};

use crate::arithmetic::{Operator, apply, is_tight};
use crate::lexer::Lexeme;
use std::marker::Model;

/// How deep brackets and minus signs nest at most.
pub(crate) const MOST_DEPTH: u32 = 32;

// As many levels.
const LEVELS: usize = 32;

/// A value and the operator behind it.
#[derive(Clone, Copy)]
pub(crate) struct Pending {
    pub(crate) value: i64,
    pub(crate) operator: Operator,
}

/// What was read between two brackets: a sum and a term that wait for more, the minus signs before
/// the next factor, and how many brackets and minus signs may nest here.
#[derive(Clone, Copy)]
pub(crate) struct Level {
    pub(crate) sum: Option<Pending>,
    pub(crate) term: Option<Pending>,
    pub(crate) minuses: u32,
    pub(crate) room: u32,
}

/// The levels around the innermost one, which contracts see from within.
#[derive(Drop)]
pub(crate) struct Outer {
    levels: [Level; LEVELS],
    count: usize,
}

impl Model for Outer {
    ghost use Rattle.std.specs.Prelude.{List, ◌≤◌};
    ghost use Rattle.jl_batch.specs.declared.parser.Level.{Level};
    ghost use Rattle.jl_batch.specs.Levels.{levels_below};
    ghost use Rattle.jl_batch.specs.declared.parser.TheConstants.{LEVELS};

    ghost Value = { List Level };

    ghost view = { λ o. levels_below o.count o.levels };

    ghost invariant = { λ o. o.count ≤ LEVELS };
}

/// What was read so far: a factor's value where an operator may follow it.
#[derive(Drop)]
pub(crate) struct Reader {
    pub(crate) level: Level,
    pub(crate) outer: Outer,
    pub(crate) value: Option<i64>,
}

fn fresh(room: u32) -> Level
    ensures { result ≡ fresh_of room }
{
    Level {
        sum: None,
        term: None,
        minuses: 0,
        room,
    }
}

impl Outer {
    fn new() -> Outer
        ensures { result ≡ [] }
    {
        Outer {
            levels: [fresh(0); LEVELS],
            count: 0,
        }
    }

    /// Whether there was room for a level.
    #[tactic(auto, using(crate::proofs::LevelLemmas::stack_laws))]
    fn push(&mut self, level: Level) -> bool
        ensures pushed { result ≡ nat_lt (length self.old) LEVELS }
        ensures after { self.new
            ≡ (if nat_lt (length self.old) LEVELS then level ∷ self.old else self.old) }
    {
        if self.count >= LEVELS {
            return false;
        }
        self.levels[self.count] = level;
        self.count += 1;
        true
    }

    fn pop(&mut self) -> Option<Level>
        ensures { MatchOption result (self.old ≡ []) (λ level. self.old ≡ level ∷ self.new) }
    {
        if self.count == 0 {
            return None;
        }
        self.count -= 1;
        Some(self.levels[self.count])
    }

    fn is_empty(&self) -> bool
        ensures { result ≡ (length self.now == 0) }
    {
        self.count == 0
    }
}

fn join(pending: Option<Pending>, x: i64) -> Option<i64>
    ensures { result ≡ joined_of pending x }
{
    match pending {
        None => Some(x),
        Some(before) => apply(before.operator, before.value, x),
    }
}

fn total(level: Level, x: i64) -> Option<i64>
    ensures { result ≡ total_of level x }
{
    let term = join(level.term, x)?;
    join(level.sum, term)
}

#[tactic(auto, using(crate::proofs::NegationLemmas::minus_laws))]
fn negate(minuses: u32, x: i64) -> Option<i64>
    ensures { result ≡ negated_of minuses x }
{
    let mut value = x;
    let mut left = minuses;
    while left > 0 {
        value = value.checked_neg()?;
        left -= 1;
    }
    Some(value)
}

fn with_operand(level: Level, outer: Outer, x: i64) -> Option<Reader>
    ensures { result ≡ with_operand_of level outer x }
{
    let value = negate(level.minuses, x)?;
    Some(Reader {
        level: Level {
            minuses: 0,
            ..level
        },
        outer,
        value: Some(value),
    })
}

fn with_minus(level: Level, outer: Outer) -> Option<Reader>
    ensures { result ≡ with_minus_of level outer }
{
    if level.minuses >= level.room {
        return None;
    }
    Some(Reader {
        level: Level {
            minuses: level.minuses + 1,
            ..level
        },
        outer,
        value: None,
    })
}

fn open_bracket(level: Level, mut outer: Outer) -> Option<Reader>
    ensures { result ≡ opened_of level outer }
{
    if level.minuses >= level.room {
        return None;
    }
    if !outer.push(level) {
        return None;
    }
    Some(Reader {
        level: fresh(level.room - level.minuses - 1),
        outer,
        value: None,
    })
}

fn step_at_operand(jobs: u32, level: Level, outer: Outer, lexeme: Lexeme) -> Option<Reader>
    ensures { result ≡ expecting_of (pos jobs) level outer lexeme }
{
    match lexeme {
        Lexeme::Whole(n) => with_operand(level, outer, n),
        Lexeme::Jobs => with_operand(level, outer, i64::from(jobs)),
        Lexeme::Infix(Operator::Minus) => with_minus(level, outer),
        Lexeme::Opening => open_bracket(level, outer),
        Lexeme::Infix(_) | Lexeme::Closing => None,
    }
}

fn with_infix(level: Level, outer: Outer, x: i64, operator: Operator) -> Option<Reader>
    ensures { result ≡ behind_of level outer x (Infix operator) }
{
    if is_tight(operator) {
        let value = join(level.term, x)?;
        return Some(Reader {
            level: Level {
                term: Some(Pending { value, operator }),
                minuses: 0,
                ..level
            },
            outer,
            value: None,
        });
    }
    let value = total(level, x)?;
    Some(Reader {
        level: Level {
            sum: Some(Pending { value, operator }),
            term: None,
            minuses: 0,
            ..level
        },
        outer,
        value: None,
    })
}

fn close_bracket(level: Level, mut outer: Outer, x: i64) -> Option<Reader>
    ensures { result ≡ behind_of level outer x Closing }
{
    let value = total(level, x)?;
    let around = outer.pop()?;
    with_operand(around, outer, value)
}

fn step_at_operator(level: Level, outer: Outer, x: i64, lexeme: Lexeme) -> Option<Reader>
    ensures { result ≡ behind_of level outer x lexeme }
{
    match lexeme {
        Lexeme::Infix(operator) => with_infix(level, outer, x, operator),
        Lexeme::Closing => close_bracket(level, outer, x),
        Lexeme::Whole(_) | Lexeme::Jobs | Lexeme::Opening => None,
    }
}

impl Reader {
    pub(crate) fn new() -> Reader
        ensures { result ≡ started }
    {
        Reader {
            level: fresh(MOST_DEPTH),
            outer: Outer::new(),
            value: None,
        }
    }

    /// After one more lexeme, if it may stand there.
    pub(crate) fn step(self, jobs: u32, lexeme: Lexeme) -> Option<Reader>
        ensures { result ≡ step_of (pos jobs) self lexeme }
    {
        match self.value {
            None => step_at_operand(jobs, self.level, self.outer, lexeme),
            Some(x) => step_at_operator(self.level, self.outer, x, lexeme),
        }
    }

    /// The value of what was read, if it is whole.
    pub(crate) fn finish(self) -> Option<i64>
        ensures { result ≡ value_at_end self }
    {
        let x = self.value?;
        if !self.outer.is_empty() {
            return None;
        }
        total(self.level, x)
    }
}
