ghost use Rattle.std.specs.Prelude.{◌≡◌};
ghost use Rattle.jl_grammar.specs.Parser.{loop_joint as loop_joint_of, mark_joint as mark_joint_of, joint_of};

use jl_lexer::{Operator, is_mark, operator};

/// What a sign is behind an operand.
#[derive(Clone, Copy)]
pub enum Joint {
    Infix(Operator),
    Opening,
    If,
    Else,
    For,
    Closing,
    Ending,
    Braced,
    Comma,
    Other,
}

fn loop_joint(sign: &[u8]) -> Joint
    ensures { result ≡ loop_joint_of sign.now }
{
    if sign == b"for".as_slice() {
        return Joint::For;
    }
    if is_mark(sign, b'}') {
        return Joint::Braced;
    }
    if is_mark(sign, b',') {
        return Joint::Comma;
    }
    Joint::Other
}

fn mark_joint(sign: &[u8]) -> Joint
    ensures { result ≡ mark_joint_of sign.now }
{
    if is_mark(sign, b'[') {
        return Joint::Opening;
    }
    if is_mark(sign, b')') {
        return Joint::Closing;
    }
    if is_mark(sign, b']') {
        return Joint::Ending;
    }
    if sign == b"if".as_slice() {
        return Joint::If;
    }
    if sign == b"else".as_slice() {
        return Joint::Else;
    }
    loop_joint(sign)
}

pub fn read_joint(sign: &[u8]) -> Joint
    ensures { result ≡ joint_of sign.now }
{
    match operator(sign) {
        Some(operator) => Joint::Infix(operator),
        None => mark_joint(sign),
    }
}
