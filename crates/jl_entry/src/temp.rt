// Where a path's temporary names stand.
ghost use Rattle.std.specs.Prelude.{◌≡◌, ◌⊎◌, ◌++◌, ℕ, List, [], ◌∷◌, IsTrue, IfOk, string_bytes, unwrap_or};
ghost use Rattle.jl_text.specs.Paths.{PathView, is_part, last_part};
ghost use Rattle.jl_text.specs.Texts.{is_token};
ghost use Rattle.jl_entry.specs.Names.{Final, IsFinal, IsTemp, folder_of, temp_of, suffix};

use jl_text::{Path, Token};
use std::alloc::{AllocError, Global};

// A part of a path at its place: an empty one stands only at the front.
fn add_part(alloc: Global, folder: &Path, part: &str) -> Result<Path, AllocError>
    requires { ((folder.now ≡ []) × (part.now ≡ [])) ⊎ IsTrue (is_part part.now) }
    ensures { IfOk result (λ p. p ≡ folder.now ++ part.now ∷ []) }
{
    if part.is_empty() {
        return Path::top(alloc);
    }
    folder.join(alloc, part)
}

// The folder that a path stands in; the current folder and the topmost are their own.
fn folder_of(alloc: Global, path: &Path) -> Result<Path, AllocError>
    ensures { IfOk result (λ p. p ≡ folder_of path.now) }
{
    if path.is_fixed() {
        return path.copy();
    }
    let parts = path.parts();
    let count = parts.len().saturating_sub(1);
    let mut folder = Path::current(alloc);
    for i in 0..count {
        folder = add_part(alloc, &folder, parts[i].as_str())?;
    }
    Ok(folder)
}

fn last_text(path: &Path) -> &str
    ensures last { result.now ≡ unwrap_or (last_part path.now) [] }
    ensures part { (result.now ≡ []) ⊎ IsTrue (is_part result.now) }
{
    let _all = path.parts();
    match path.last() {
        Some(part) => part,
        None => "",
    }
}

fn three_texts(alloc: Global, first: &str, second: &str, third: &str) -> Result<String, AllocError>
    ensures { IfOk result (λ t. string_bytes t ≡ (first.now ++ second.now) ++ third.now) }
{
    let mut out = String::from_str(alloc, first)?;
    out.push_str(second)?;
    out.push_str(third)?;
    Ok(out)
}

fn temp_part(alloc: Global, part: &str, token: &str) -> Result<String, AllocError>
    ensures { IfOk result (λ t. string_bytes t ≡ part.now ++ suffix token.now) }
{
    three_texts(alloc, part, ".tmp-", token)
}

fn join_temp(alloc: Global, folder: &Path, part: &str, token: &Token) -> Result<Path, AllocError>
    requires { (part.now ≡ []) ⊎ IsTrue (is_part part.now) }
    ensures path { IfOk result (λ p. p ≡ folder.now ++ (part.now ++ suffix token.now) ∷ []) }
    ensures of_token { IsTrue (is_token token.now) }
{
    let token = token.as_str();
    let text = temp_part(alloc, part, token)?;
    folder.join(alloc, text.as_str())
}

/// The temporary name of a path for a token: its last part with `.tmp-` and the token behind it.
/// (The current folder and the topmost have no last part; their temporary names stand in them.)
pub fn temp_name(alloc: Global, last: &Path, token: &Token) -> Result<Path, AllocError>
    ensures path { IfOk result (λ p. p ≡ temp_of last.now token.now) }
    ensures temporary { (root : PathView) (x : Final) → IsFinal root x last.now
        → IfOk result (IsTemp root x token.now) }
{
    let folder = folder_of(alloc, last)?;
    join_temp(alloc, &folder, last_text(last), token)
}
