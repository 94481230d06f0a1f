// The script of a run: the moves of others, and what is asked of them.
ghost use Rattle.std.specs.Prelude.{◌≡◌, ◌++◌, ◌<◌, true, false, length, nat_eq, OnOk, IfOk, IfSome, None, All};
ghost use Rattle.std.specs.List.{flat_map, position};
ghost use Rattle.jl_folder.specs.State.{IsForeign, own_moves};
ghost use Rattle.jl_memory.specs.Tables.{found_node};
ghost use Rattle.jl_memory.specs.Scripts.{named_by, named_in, is_taken, IsLeastFree};

use crate::tables::{NodeEntry, node_of};
use jl_folder::{Move, Token};
use std::alloc::{AllocError, Global};

/// Where a run is cut off: once it made `moves` moves of its own, an append that would come next
/// adds only its first `torn` bytes, and every call from there fails.
#[derive(Clone, Copy, Debug, PartialEq, Eq)]
pub struct Stop {
    pub moves: u64,
    pub torn: u64,
}

/// The moves of others before the call of this number, each with its token.
pub type OtherMoves = (u64, Vec<(Token, Move)>);

// The place of the first moves that come before this call.
pub fn next_others(others: &[OtherMoves], call: u64) -> Option<usize>
    ensures first { result ≡ position (λ o. nat_eq o.0 call) others.now }
    ensures within { IfSome result (λ i. i < length others.now) }
{
    others.iter().position(|group| group.0 == call)
}

// The number that a move names, put behind others.
fn add_number(named: &mut Vec<u64>, change: &Move) -> Result<(), AllocError>
    ensures { OnOk result (named.new.items ≡ named.old.items ++ named_by change.now) }
{
    match change {
        Move::MakeDir(_) => Ok(()),
        Move::Create(_, node) => {
            named.push(*node)?;
            Ok(())
        }
        Move::Append(node, _) => {
            named.push(*node)?;
            Ok(())
        }
        Move::Rename(_, _) => Ok(()),
        Move::Remove(_) => Ok(()),
        Move::RemoveDir(_) => Ok(()),
    }
}

// The numbers that moves name, put behind others.
fn add_named(named: &mut Vec<u64>, moves: &[(Token, Move)]) -> Result<(), AllocError>
    ensures { OnOk result (named.new.items ≡ named.old.items ++ named_in moves.now) }
{
    for entry in moves {
        add_number(named, &entry.1)?;
    }
    Ok(())
}

pub fn numbers_named(alloc: Global, others: &[OtherMoves]) -> Result<Vec<u64>, AllocError>
    ensures { IfOk result (λ v. v.items ≡ flat_map (λ o. named_in o.1.items) others.now) }
{
    let mut named = Vec::new(alloc);
    for group in others {
        add_named(&mut named, group.1.as_slice())?;
    }
    Ok(named)
}

fn has_number(nodes: &[NodeEntry], named: &[u64], number: u64) -> bool
    ensures exact { result ≡ is_taken nodes.now named.now number }
    ensures free { result ≡ false → found_node nodes.now number ≡ None }
{
    match node_of(nodes, number) {
        Some(_) => true,
        None => named.contains(&number),
    }
}

// The least number that no node has and that others don't name.
pub fn fresh_number(nodes: &[NodeEntry], named: &[u64]) -> Option<u64>
    ensures free { IfSome result (λ n. found_node nodes.now n ≡ None) }
    ensures least { IfSome result (λ n. IsLeastFree nodes.now named.now n) }
{
    for n in 0..u64::MAX {
        if !has_number(nodes, named, n) {
            return Some(n);
        }
    }
    None
}

fn has_own_move(token: &Token, moves: &[(Token, Move)]) -> bool
    ensures none { result ≡ false → IsForeign token.now moves.now }
    ensures some { result ≡ true → IsForeign token.now moves.now → ⊥ }
{
    for entry in moves {
        if entry.0 == *token {
            return true;
        }
    }
    false
}

pub fn count_own(token: &Token, trace: &[(Token, Move)]) -> u64
    ensures { result ≡ own_moves token.now trace.now }
{
    trace.iter().filter(|e| e.0 == *token).count() as u64
}

/// Whether no move of others has this token, as `MemFolder::new` wants it.
pub fn are_foreign(token: &Token, others: &[OtherMoves]) -> bool
    ensures yes { result ≡ true → All (λ o. IsForeign token.now o.1.items) others.now }
    ensures no { result ≡ false → All (λ o. IsForeign token.now o.1.items) others.now → ⊥ }
{
    for group in others {
        if has_own_move(token, group.1.as_slice()) {
            return false;
        }
    }
    true
}
