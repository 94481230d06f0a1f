//! The signs of a line of the definition language, what its words are (names, values, operators and
//! functions), and the trees that stand for its expressions.
#![tactic(auto)]

mod lexer;
mod marks;
mod operators;
mod tree;
mod word;
mod words;

pub use lexer::{begins_word, is_gap, is_mark, next_sign};
pub use marks::{function, left_level, operator, own_level, prefix, prefix_level};
pub use operators::{Function, Operator, Prefix};
pub use tree::{Entries, Entry, Members, Node, Tree};
pub use word::{Key, Name, Word};
pub use words::{is_def, is_identifier};
