// What a path names, the six moves, and an open file.
ghost use Rattle.std.specs.Prelude.{◌≡◌, IfOk};

use jl_text::{Bytes, Path, Token};
use std::alloc::AllocError;

/// What a path names: a folder, or a file by its node's number.
#[derive(Clone, Copy, Debug, PartialEq, Eq)]
pub enum Place {
    Folder,
    File(u64),
}

/// One change of the folder. An append is to a node, whatever names it.
#[derive(Debug, Drop, PartialEq)]
pub enum Move {
    MakeDir(Path),
    Create(Path, u64),
    Append(u64, Bytes),
    Rename(Path, Path),
    Remove(Path),
    RemoveDir(Path),
}

impl Move {
    /// A second move that is the same.
    pub fn copy(&self) -> Result<Move, AllocError>
        ensures { IfOk result (λ m. m ≡ self.now) }
    {
        match self {
            Move::MakeDir(path) => Ok(Move::MakeDir(path.copy()?)),
            Move::Create(path, node) => Ok(Move::Create(path.copy()?, *node)),
            Move::Append(node, bytes) => Ok(Move::Append(*node, bytes.copy()?)),
            Move::Rename(from, to) => Ok(Move::Rename(from.copy()?, to.copy()?)),
            Move::Remove(path) => Ok(Move::Remove(path.copy()?)),
            Move::RemoveDir(path) => Ok(Move::RemoveDir(path.copy()?)),
        }
    }
}

/// A file's bytes, the token of the run that made it, and whether it was renamed.
#[derive(Debug, Drop)]
pub struct Node {
    pub bytes: Bytes,
    pub maker: Token,
    pub frozen: bool,
}

impl PartialEq for Node {
    ghost use Rattle.std.specs.Cmp.{partial_equiv_from_equiv, and_per, on_per, bool_eq_equiv};
    ghost use Rattle.std.specs.Cmp.Lexicographic.{nat_list_eq_equiv};
    ghost use Rattle.jl_folder.specs.Same.{node_eq};

    ghost eq = { node_eq };

    ghost laws = { and_per (on_per (λ v. v.bytes) (partial_equiv_from_equiv nat_list_eq_equiv))
        (and_per (on_per (λ v. v.maker) (partial_equiv_from_equiv nat_list_eq_equiv))
        (on_per (λ v. v.frozen) (partial_equiv_from_equiv bool_eq_equiv))) };

    fn eq(&self, other: &Self) -> bool {
        self.bytes == other.bytes && (self.maker == other.maker && self.frozen == other.frozen)
    }
}

impl Node {
    /// A second node that is the same.
    pub fn copy(&self) -> Result<Node, AllocError>
        ensures { IfOk result (λ n. n ≡ self.now) }
    {
        Ok(Node {
            bytes: self.bytes.copy()?,
            maker: self.maker.copy()?,
            frozen: self.frozen,
        })
    }
}

/// An open file: its node, and whether `create` made it.
#[derive(Clone, Copy, Debug, PartialEq, Eq)]
pub struct OpenFile {
    pub node: u64,
    pub made: bool,
}
