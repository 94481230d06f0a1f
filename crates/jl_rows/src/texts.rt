// Rows over texts, bytes, names, paths and tokens.

use jl_script::given::{self, RowFault};
use jl_script::told::{self, Told};
use jl_text::{Bytes, Path, Token, is_name, is_part};
use jl_value::Value;
use std::alloc::Global;

pub fn row(alloc: Global, case: &str, given: &[Value]) -> Told {
    match case {
        "path" => read_path(alloc, given),
        "current" => ends(alloc, &Path::current(alloc)),
        "top" => ends(alloc, &Path::top(alloc)?),
        "join" => join(alloc, given),
        "is_part" => told::truth(alloc, is_part(given::text(alloc, given, 0)?.as_str())),
        "is_name" => told::truth(alloc, is_name(given::text(alloc, given, 0)?.as_str())),
        "token" => read_token(alloc, given),
        "copy" => copy(alloc, given),
        "extend" => extend(alloc, given),
        _ => Err(RowFault::Bad),
    }
}

// The spelling of a path, its parts, and whether the spelling reads as the same path.
fn read_path(alloc: Global, given: &[Value]) -> Told {
    let text = given::text(alloc, given, 0)?;
    let path = match Path::read(alloc, text.as_str()) {
        Ok(path) => path,
        Err(fault) => return Ok(format!(in alloc; "{fault:?}")?),
    };
    let spelled = path.text(alloc)?;
    let shown = told::text(alloc, spelled.as_str())?;
    let parts = path.parts().len();
    let again = match Path::read(alloc, spelled.as_str()) {
        Ok(again) => again == path,
        Err(_) => false,
    };
    let copy = path.copy()? == path;
    Ok(format!(in alloc;
        "{} parts: {parts}, again: {again}, copy: {copy}",
        shown.as_str()
    )?)
}

// A path's spelling, its last part, and whether it has neither a last part nor a parent.
fn ends(alloc: Global, path: &Path) -> Told {
    let spelled = path.text(alloc)?;
    let last = path.last().unwrap_or("none");
    let fixed = path.is_fixed();
    Ok(format!(in alloc; "{} last: {last}, fixed: {fixed}", spelled.as_str())?)
}

// A path joined with a part, and whether what stands before its last part is the path.
fn join(alloc: Global, given: &[Value]) -> Told {
    let path = given::path(alloc, given, 0)?;
    let part = given::text(alloc, given, 1)?;
    if !is_part(part.as_str()) {
        return told::word(alloc, "no part");
    }
    let joined = path.join(alloc, part.as_str())?;
    let shown = ends(alloc, &joined)?;
    let back = path.is(joined.parent_parts());
    Ok(format!(in alloc; "{}, parent: {back}", shown.as_str())?)
}

fn read_token(alloc: Global, given: &[Value]) -> Told {
    let text = given::text(alloc, given, 0)?;
    match Token::read(alloc, text.as_str()) {
        Ok(token) => {
            let shown = told::text(alloc, token.as_str())?;
            let copy = token.copy()? == token;
            Ok(format!(in alloc; "{} copy: {copy}", shown.as_str())?)
        }
        Err(fault) => Ok(format!(in alloc; "{fault:?}")?),
    }
}

// The text of a copy, and whether it equals its source.
fn copy(alloc: Global, given: &[Value]) -> Told {
    let text = given::text(alloc, given, 0)?;
    let copy = text.copy()?;
    let same = copy == text;
    let shown = told::text(alloc, copy.into_string().as_str())?;
    Ok(format!(in alloc; "{} copy: {same}", shown.as_str())?)
}

// Bytes made longer, and whether a copy equals them, before and after.
fn extend(alloc: Global, given: &[Value]) -> Told {
    let mut bytes = Bytes::new(given::bytes(alloc, given, 0)?);
    let more = given::bytes(alloc, given, 1)?;
    let copy = bytes.copy()?;
    let before = copy == bytes;
    bytes.extend(more.as_slice())?;
    let after = copy == bytes;
    let shown = told::bytes(alloc, bytes.as_slice())?;
    let length = bytes.into_vec().len();
    Ok(format!(in alloc;
        "{} length: {length}, copy: {before} {after}",
        shown.as_str()
    )?)
}
