// The text of a cache entry.
ghost use Rattle.std.specs.Prelude.{◌≡◌, ◌≤◌, ℕ, List, [], ◌∷◌, ◌++◌, IfOk, OnOk, MatchOption, IfSome, ◌<◌, string_bytes, bytes_eq};
ghost use Rattle.json.specs.Print.{quoted as quoted_of};
ghost use Rattle.jl_value.specs.Tree.{Tree, nesting};
ghost use Rattle.jl_value.specs.Form.{tree_of};
ghost use Rattle.jl_value.specs.Proper.{IsProper};
ghost use Rattle.jl_value.specs.Key.{args_tree};
ghost use Rattle.jl_entry.specs.Entry.{IsEntryOf, entry_tree, FindsParts, entry_text, head_text, IsHeadOf, Members, KeyValue, IsOutput};
ghost use Rattle.jl_value.specs.Canonical.{text_of};

use jl_text::{Bytes, Text};
use jl_value::{Args, Table, Value, ValueFault, canonical, canonical_table, read_value};
use std::alloc::{AllocError, Global};

/// What the bytes of `output.json` are for one code and arguments.
#[derive(Drop)]
pub enum ReadOutput {
    /// The entry of this code and these arguments, with its value.
    Value(Value),
    /// An entry of another code or of other arguments.
    NotMine,
    /// No entry.
    Damaged,
    NoMemory,
}

/// The bytes of the entry of a code, arguments and a value.
pub fn write_output(
    alloc: Global,
    code: &str,
    args: &Args,
    value: &Value,
) -> Result<Bytes, AllocError>
    requires args { nesting (args_tree args.now) ≤ 64 }
    requires value { nesting (tree_of value.now) ≤ 64 }
    ensures entry { IfOk result (λ b. IsEntryOf b code.now args.now (tree_of value.now)) }
{
    let text = entry(alloc, code, args.value(), value)?;
    Ok(Bytes::new(text.into_bytes()))
}

fn entry(alloc: Global, code: &str, args: &Table, value: &Value) -> Result<String, AllocError>
    ensures text { IfOk result (λ s. string_bytes s
        ≡ entry_text code.now args.now (tree_of value.now)) }
    ensures proper { OnOk result (IsProper (entry_tree code.now args.now (tree_of value.now))) }
{
    let args_text = canonical_table(alloc, args)?;
    let head = entry_head(alloc, code, args_text.as_str())?;
    let value_text = canonical(alloc, value)?;
    closed(alloc, head.as_str(), value_text.as_str())
}

/// What each entry of a code and of arguments with this canonical text begins with, up to its
/// value.
pub fn entry_head(alloc: Global, code: &str, args_text: &str) -> Result<Text, AllocError>
    ensures { IfOk result (λ t. t ≡ head_text code.now args_text.now) }
{
    let code_text = quoted(alloc, code)?;
    let mut out = String::new(alloc);
    put(&mut out, "{\"args\":")?;
    put(&mut out, args_text)?;
    put(&mut out, ",\"code\":")?;
    put(&mut out, code_text.as_str())?;
    put(&mut out, ",\"format\":1,\"value\":")?;
    Ok(Text::new(out))
}

// An entry's text, from its head and the text of its value.
fn closed(alloc: Global, head: &str, value: &str) -> Result<String, AllocError>
    ensures { IfOk result (λ s. string_bytes s ≡ (head.now ++ value.now) ++ 125 ∷ []) }
{
    let mut out = String::new(alloc);
    put(&mut out, head)?;
    put(&mut out, value)?;
    put(&mut out, "}")?;
    Ok(out)
}

fn put(out: &mut String, piece: &str) -> Result<(), AllocError>
    ensures { OnOk result (string_bytes out.new ≡ string_bytes out.old ++ piece.now) }
{
    out.push_str(piece)?;
    Ok(())
}

fn quoted(alloc: Global, code: &str) -> Result<Text, AllocError>
    ensures { IfOk result (λ t. t ≡ quoted_of code.now) }
{
    let text = Value::Text(Text::new(String::from_str(alloc, code)?));
    canonical(alloc, &text)
}

/// What stands in the bytes of `output.json`, for this code and these arguments. An entry has one
/// spelling: the canonical text of a table with the members `args`, `code`, `format` (1) and
/// `value` and no others, nested at most 70 deep.
pub fn read_output(alloc: Global, code: &str, args: &Args, bytes: &[u8]) -> ReadOutput
    ensures { IsOutput result bytes.now code.now args.now }
{
    let Ok(args_text) = canonical_table(alloc, args.value()) else {
        return ReadOutput::NoMemory;
    };
    let Ok(head) = entry_head(alloc, code, args_text.as_str()) else {
        return ReadOutput::NoMemory;
    };
    read_entry(alloc, head.as_str(), bytes)
}

/// The same for the code and the arguments whose entries begin with this head.
pub fn read_entry(alloc: Global, head: &str, bytes: &[u8]) -> ReadOutput
    ensures { (code : List ℕ) (ps : Members) → IsHeadOf head.now code ps
        → IsOutput result bytes.now code ps }
{
    let whole = match read_value(alloc, bytes, 70) {
        Ok(whole) => whole,
        Err(fault) => match fault {
            ValueFault::Memory => return ReadOutput::NoMemory,
            _ => return ReadOutput::Damaged,
        },
    };
    let Some(found) = find_parts(&whole) else {
        return ReadOutput::Damaged;
    };
    let Ok(text) = entry(alloc, found.code.as_str(), found.args, found.value) else {
        return ReadOutput::NoMemory;
    };
    if text.as_bytes() != bytes {
        return ReadOutput::Damaged;
    }
    match is_mine(alloc, head, found.value, bytes) {
        Ok(true) => {}
        Ok(false) => return ReadOutput::NotMine,
        Err(_) => return ReadOutput::NoMemory,
    }
    match last_value(whole) {
        Some(value) => ReadOutput::Value(value),
        None => ReadOutput::Damaged,
    }
}

// Whether the bytes are this head with the value behind it.
fn is_mine(alloc: Global, head: &str, value: &Value, bytes: &[u8]) -> Result<bool, AllocError>
    ensures same { IfOk result
        (λ b. b ≡ bytes_eq ((head.now ++ text_of (tree_of value.now)) ++ 125 ∷ []) bytes.now) }
    ensures proper { OnOk result (IsProper (tree_of value.now)) }
{
    let value_text = canonical(alloc, value)?;
    let mine = closed(alloc, head, value_text.as_str())?;
    Ok(mine.as_bytes() == bytes)
}

// The value of an entry, which is its last member.
fn last_value(whole: Value) -> Option<Value>
    ensures { (code : List ℕ) (ps : Members) (t : Tree) → tree_of whole ≡ entry_tree code ps t
        → MatchOption result ⊥ (λ v. tree_of v ≡ t) }
{
    match whole {
        Value::Table(table) => last_member(table.into_vec()),
        other => {
            drop(other);
            None
        }
    }
}

// The value of the last member.
fn last_member(members: Vec<(Text, Value)>) -> Option<Value>
    ensures { (before : List KeyValue) (last : KeyValue) (t : Tree) → members.items ≡ before ++ last ∷ []
        → tree_of last.1 ≡ t → MatchOption result ⊥ (λ v. tree_of v ≡ t) }
{
    let mut members = members;
    match members.pop() {
        Some((_, value)) => Some(value),
        None => None,
    }
}

/// Where the arguments, the code and the value of an entry stand.
#[derive(Clone, Copy, Drop)]
pub struct Parts<'a> {
    args: &'a Table,
    code: &'a Text,
    value: &'a Value,
}

fn find_parts(whole: &Value) -> Option<Parts<'_>>
    ensures found { FindsParts result (tree_of whole.now) }
    ensures shallow { IfSome result
        (λ p. (nesting (args_tree p.args.now) < nesting (tree_of whole.now))
        × (nesting (tree_of p.value.now) < nesting (tree_of whole.now))) }
{
    let Value::Table(table) = whole else {
        return None;
    };
    let members = table.members();
    if members.len() < 4 {
        return None;
    }
    let Value::Table(args) = &members[0].1 else {
        return None;
    };
    let Value::Text(code) = &members[1].1 else {
        return None;
    };
    Some(Parts {
        args,
        code,
        value: &members[3].1,
    })
}
