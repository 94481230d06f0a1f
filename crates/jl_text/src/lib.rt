//! Texts, bytes, tokens, names and paths, and the limits of the program.
#![tactic(auto)]

pub mod limits;
mod name;
mod path;
mod text;

pub use name::is_name;
pub use path::{Path, PathFault, is_part};
pub use text::{Bytes, Text, Token, TokenFault, is_token};
