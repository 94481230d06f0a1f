// How a run in the folder goes: its token, what others do meanwhile, which calls fail, and where it is cut off.
ghost use Rattle.std.specs.Prelude.{◌≡◌, IfOk};

use crate::members::{list, member, members_of, numbers, token};
use jl_folder::{Bytes, Folder, Move, Token};
use jl_memory::{MemFolder, OtherMoves, Stop, are_foreign};
use jl_script::given::{self, RowFault};
use jl_value::Value;
use std::alloc::Global;
use std::slice;

#[derive(Drop)]
pub struct Script {
    pub token: Token,
    pub others: Vec<OtherMoves>,
    pub failing: Vec<u64>,
    pub stop: Option<Stop>,
}

// A move, as `["create", PATH, NUMBER]`.
fn read_move(alloc: Global, given: &[Value]) -> Result<Move, RowFault> {
    let kind = given::text(alloc, given, 0)?;
    match kind.as_str() {
        "make_dir" => Ok(Move::MakeDir(given::path(alloc, given, 1)?)),
        "create" => read_create(alloc, given),
        "append" => read_append(alloc, given),
        "rename" => read_rename(alloc, given),
        "remove" => Ok(Move::Remove(given::path(alloc, given, 1)?)),
        "remove_dir" => Ok(Move::RemoveDir(given::path(alloc, given, 1)?)),
        _ => Err(RowFault::Bad),
    }
}

fn read_create(alloc: Global, given: &[Value]) -> Result<Move, RowFault> {
    let number = given::number(given, 2)?;
    Ok(Move::Create(given::path(alloc, given, 1)?, number))
}

fn read_append(alloc: Global, given: &[Value]) -> Result<Move, RowFault> {
    let bytes = Bytes::new(given::bytes(alloc, given, 2)?);
    Ok(Move::Append(given::number(given, 1)?, bytes))
}

fn read_rename(alloc: Global, given: &[Value]) -> Result<Move, RowFault> {
    let from = given::path(alloc, given, 1)?;
    Ok(Move::Rename(from, given::path(alloc, given, 2)?))
}

// Moves of others, `[CALL, TOKEN, MOVE, MOVE ..]`: before the call of that number, raised by so much.
fn read_group(alloc: Global, row: &Value, by: u64) -> Result<OtherMoves, RowFault> {
    let [call, token, rows @ ..] = members_of(row) else {
        return Err(RowFault::Bad);
    };
    let call = given::number(slice::from_ref(call), 0)?.saturating_add(by);
    let token = given::token(alloc, slice::from_ref(token), 0)?;
    let mut moves = Vec::new(alloc);
    for row in rows {
        moves.push((token.copy()?, read_move(alloc, members_of(row))?))?;
    }
    Ok((call, moves))
}

fn read_others(alloc: Global, rows: &[Value], by: u64) -> Result<Vec<OtherMoves>, RowFault> {
    let mut others = Vec::new(alloc);
    for row in rows {
        others.push(read_group(alloc, row, by)?)?;
    }
    Ok(others)
}

// `[MOVES, TORN]`, of which the moves are raised by so much.
fn read_stop(row: &Value, by: u64) -> Result<Option<Stop>, RowFault> {
    let Some(stop) = member(row, "stop") else {
        return Ok(None);
    };
    let given = members_of(stop);
    let moves = given::number(given, 0)?.saturating_add(by);
    let torn = given::number(given, 1)?;
    Ok(Some(Stop { moves, torn }))
}

impl Script {
    /// The script that a row gives, of token `a`, if it names none, and with the numbers of calls and moves raised by so much.
    pub fn read(alloc: Global, row: &Value, by: u64) -> Result<Script, RowFault> {
        Ok(Script {
            token: token(alloc, row, "token")?,
            others: read_others(alloc, list(row, "others"), by)?,
            failing: numbers(alloc, row, "failing", by)?,
            stop: read_stop(row, by)?,
        })
    }
}

/// A further run in the folder. No move of others has its token.
pub fn start(folder: MemFolder, script: Script) -> Result<MemFolder, RowFault>
    ensures { IfOk result (λ f. (⟦<MemFolder as Folder>⟧.view f).token ≡ script.token) }
{
    let Script {
        token,
        others,
        failing,
        stop,
    } = script;
    if are_foreign(&token, others.as_slice()) {
        Ok(folder.next_run(token, others, failing, stop)?)
    } else {
        Err(RowFault::Bad)
    }
}
