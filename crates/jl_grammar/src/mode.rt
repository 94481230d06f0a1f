// Where in an expression a reader is.
use jl_lexer::{Entries, Function, Key, Name, Tree};

/// What is wanted, or that an operand was just read.
#[derive(Drop)]
pub enum Mode<'a> {
    WantsOperand,
    HasOperand(Tree<'a>),
    AfterFunction(Function),
    WantsKey(Entries<'a>),
    WantsColon(Entries<'a>, Key<'a>),
    WantsVariable(Tree<'a>),
    WantsIn(Tree<'a>, Name<'a>),
}
