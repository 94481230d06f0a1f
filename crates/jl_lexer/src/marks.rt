// The signs that write operators and functions, and how tightly operators bind.
ghost use Rattle.std.specs.Prelude.{◌≡◌, ◌∷◌, []};
ghost use Rattle.jl_lexer.specs.Marks.{operator_of, operator_among, prefix_of, function_of, own_level as own_level_of, left_level as left_level_of, prefix_level as prefix_level_of};
ghost use Rattle.jl_lexer.specs.declared.operators.Operator.TheVariants.{Less, AtMost, Greater, AtLeast, Plus, Minus, Times, Quotient, Remainder};

use crate::operators::{Function, Operator, Prefix};

fn arithmetic(sign: &[u8]) -> Option<Operator>
    ensures { result ≡ operator_among (Plus ∷ Minus ∷ Times ∷ Quotient ∷ Remainder ∷ []) sign.now }
{
    if sign == b"+".as_slice() {
        return Some(Operator::Plus);
    }
    if sign == b"-".as_slice() {
        return Some(Operator::Minus);
    }
    if sign == b"*".as_slice() {
        return Some(Operator::Times);
    }
    if sign == b"//".as_slice() {
        return Some(Operator::Quotient);
    }
    if sign == b"%".as_slice() {
        return Some(Operator::Remainder);
    }
    None
}

fn ordering(sign: &[u8]) -> Option<Operator>
    ensures { result
        ≡ operator_among
        (Less ∷ AtMost ∷ Greater ∷ AtLeast ∷ Plus ∷ Minus ∷ Times ∷ Quotient ∷ Remainder
        ∷ []) sign.now }
{
    if sign == b"<".as_slice() {
        return Some(Operator::Less);
    }
    if sign == b"<=".as_slice() {
        return Some(Operator::AtMost);
    }
    if sign == b">".as_slice() {
        return Some(Operator::Greater);
    }
    if sign == b">=".as_slice() {
        return Some(Operator::AtLeast);
    }
    arithmetic(sign)
}

/// The operator that a sign writes.
pub fn operator(sign: &[u8]) -> Option<Operator>
    ensures { result ≡ operator_of sign.now }
{
    if sign == b"or".as_slice() {
        return Some(Operator::Or);
    }
    if sign == b"and".as_slice() {
        return Some(Operator::And);
    }
    if sign == b"==".as_slice() {
        return Some(Operator::Equal);
    }
    if sign == b"!=".as_slice() {
        return Some(Operator::Unequal);
    }
    ordering(sign)
}

/// The operator before an operand that a sign writes.
pub fn prefix(sign: &[u8]) -> Option<Prefix>
    ensures { result ≡ prefix_of sign.now }
{
    if sign == b"not".as_slice() {
        return Some(Prefix::Not);
    }
    if sign == b"-".as_slice() {
        return Some(Prefix::Negative);
    }
    None
}

/// The function that a sign writes.
pub fn function(sign: &[u8]) -> Option<Function>
    ensures { result ≡ function_of sign.now }
{
    if sign == b"len".as_slice() {
        return Some(Function::Len);
    }
    if sign == b"sum".as_slice() {
        return Some(Function::Sum);
    }
    if sign == b"min".as_slice() {
        return Some(Function::Min);
    }
    if sign == b"max".as_slice() {
        return Some(Function::Max);
    }
    if sign == b"range".as_slice() {
        return Some(Function::Range);
    }
    if sign == b"array".as_slice() {
        return Some(Function::Array);
    }
    None
}

/// The level of an operation.
pub fn own_level(operator: Operator) -> u32
    ensures { result ≡ own_level_of operator }
{
    match operator {
        Operator::Or => 1,
        Operator::And => 2,
        Operator::Equal
        | Operator::Unequal
        | Operator::Less
        | Operator::AtMost
        | Operator::Greater
        | Operator::AtLeast => 4,
        Operator::Plus | Operator::Minus => 5,
        Operator::Times | Operator::Quotient | Operator::Remainder => 6,
    }
}

/// The lowest level of the left operand.
pub fn left_level(operator: Operator) -> u32
    ensures { result ≡ left_level_of operator }
{
    match operator {
        Operator::Or => 1,
        Operator::And => 2,
        Operator::Equal
        | Operator::Unequal
        | Operator::Less
        | Operator::AtMost
        | Operator::Greater
        | Operator::AtLeast
        | Operator::Plus
        | Operator::Minus => 5,
        Operator::Times | Operator::Quotient | Operator::Remainder => 6,
    }
}

/// The level of an operation with one operand, and the lowest one of the operand.
pub fn prefix_level(prefix: Prefix) -> u32
    ensures { result ≡ prefix_level_of prefix }
{
    match prefix {
        Prefix::Not => 3,
        Prefix::Negative => 7,
    }
}
