// Paths, as contracts see them lists of parts.
ghost use Rattle.std.specs.Prelude.{string_bytes, ◌≡◌, ◌≤◌, ◌-◌, ◌++◌, [], ◌∷◌, IsTrue, IfOk, OnOk, map, filter, cond, length, nat_eq, nat_lt, ◌||◌, true, false, option_map};
ghost use Rattle.std.specs.Str.{bytes_eq};
ghost use Rattle.std.specs.List.{list_any, slice_get};
ghost use Rattle.jl_text.specs.Paths.{path_eq, is_fixed, parent, path_of, is_bad, is_kept, is_part, IsPath, last_part, pieces, begins_at_top, behind_slashes, text_of};

use crate::limits::MOST_PATH_BYTES;
use crate::text::Text;
use std::alloc::{AllocError, AllocFailed, Global};
use std::marker::Model;
use thiserror::Error;

/// Why a text is not taken as a path.
#[derive(Clone, Copy, Debug, PartialEq, Eq, Error)]
pub enum PathFault {
    #[error("not a path")]
    BadPath,
    #[error("out of memory")]
    Memory,
}

impl From<AllocError> for PathFault {
    ghost use Rattle.jl_text.specs.declared.path.PathFault.TheVariants.{Memory};
    ghost use Rattle.std.specs.Prelude.{◌≡◌};

    ghost from_gives = { λ _ e. e ≡ Memory };

    fn from(_refused: AllocError) -> PathFault {
        PathFault::Memory
    }
}

impl<T: Drop> From<AllocFailed<T>> for PathFault {
    ghost use Rattle.jl_text.specs.declared.path.PathFault.TheVariants.{Memory};
    ghost use Rattle.std.specs.Prelude.{◌≡◌};

    ghost from_gives = { λ _ e. e ≡ Memory };

    fn from(_refused: AllocFailed<T>) -> PathFault {
        PathFault::Memory
    }
}

/// A path as its parts. One from the topmost folder begins with an empty part.
#[derive(Debug, Drop)]
pub struct Path {
    parts: Vec<Text>,
}

impl Model for Path {
    ghost use Rattle.std.specs.Prelude.{List, ℕ};
    ghost use Rattle.jl_text.specs.Paths.{IsPath};

    ghost Value = { List (List ℕ) };

    ghost view = { λ p. p.parts.items };

    ghost invariant = { λ p. IsPath p.parts.items };
}

impl PartialEq for Path {
    ghost eq = { path_eq };

    ghost use Rattle.std.specs.Cmp.{partial_equiv_from_equiv};
    ghost use Rattle.std.specs.Cmp.Lexicographic.{nat_list_eq_equiv, lists_per};

    ghost laws = { lists_per (partial_equiv_from_equiv nat_list_eq_equiv) };

    fn eq(&self, other: &Self) -> bool {
        self.parts == other.parts
    }
}

fn copy_parts(alloc: Global, parts: &[Text]) -> Result<Vec<Text>, AllocError>
    ensures { IfOk result (λ v. v.items ≡ parts.now) }
{
    let mut copies = Vec::new(alloc);
    for part in parts {
        copies.push(part.copy()?)?;
    }
    Ok(copies)
}

fn split_pieces<'a>(alloc: Global, text: &'a str) -> Result<Vec<&'a str>, AllocError>
    ensures { IfOk result (λ v. map (λ x. x.now) v.items ≡ pieces text.now) }
{
    text.split('/').collect(alloc)
}

fn has_dots(text: &str) -> bool
    ensures { result ≡ list_any (λ p. bytes_eq p (46 ∷ 46 ∷ [])) (pieces text.now) }
{
    text.split('/').any(|part| part == "..")
}

fn kept_parts(alloc: Global, top: bool, parts: &[&str]) -> Result<Vec<Text>, AllocError>
    ensures { IfOk result (λ v. v.items
        ≡ cond top ([] ∷ []) [] ++ filter is_kept (map (λ x. x.now) parts.now)) }
{
    let mut kept = Vec::new(alloc);
    if top {
        kept.push(Text::new(String::new(alloc)))?;
    }
    for part in parts {
        if *part != "" && *part != "." {
            kept.push(Text::new(String::from_str(alloc, part)?))?;
        }
    }
    Ok(kept)
}

fn begins_with_slash(text: &str) -> bool
    ensures { result ≡ begins_at_top text.now }
{
    match text.as_bytes() {
        [] => false,
        [first, ..] => *first == b'/',
    }
}

// The tests that look at no piece.
fn is_bad_shape(text: &str) -> bool
    ensures { result ≡ (nat_eq (length text.now) 0
        || (nat_lt MOST_PATH_BYTES (length text.now) || list_any (λ b. nat_eq b 0) text.now)) }
{
    let bytes = text.as_bytes();
    if bytes.is_empty() {
        return true;
    }
    if bytes.len() > MOST_PATH_BYTES {
        return true;
    }
    bytes.contains(&0)
}

// Whether no path is spelled so.
fn is_bad_text(text: &str) -> bool
    ensures { result ≡ is_bad text.now }
{
    if is_bad_shape(text) {
        return true;
    }
    has_dots(text)
}

/// Whether a path can be joined with this part.
pub fn is_part(text: &str) -> bool
    ensures { result ≡ is_part text.now }
{
    if text == "" || text == "." || text == ".." {
        return false;
    }
    let bytes = text.as_bytes();
    if bytes.contains(&b'/') {
        return false;
    }
    !bytes.contains(&0)
}

fn joined(alloc: Global, first: &str, rest: &[Text]) -> Result<String, AllocError>
    ensures { IfOk result (λ t. string_bytes t ≡ first.now ++ behind_slashes rest.now) }
{
    let mut out = String::from_str(alloc, first)?;
    'parts: for part in rest {
        out.push_str("/")?;
        out.push_str(part.as_str())?;
    }
    Ok(out)
}

fn read_parts(alloc: Global, text: &str) -> Result<Vec<Text>, AllocError>
    ensures { IfOk result (λ v. v.items ≡ path_of text.now) }
{
    let parts = split_pieces(alloc, text)?;
    kept_parts(alloc, begins_with_slash(text), parts.as_slice())
}

fn spelled(alloc: Global, parts: &[Text]) -> Result<String, AllocError>
    ensures { IfOk result (λ t. string_bytes t ≡ text_of parts.now) }
{
    match parts {
        [] => String::from_str(alloc, "."),
        [first, rest @ ..] => {
            if first.as_str().is_empty() && rest.is_empty() {
                return String::from_str(alloc, "/");
            }
            joined(alloc, first.as_str(), rest)
        }
    }
}

fn last_text(parts: &[Text]) -> Option<&str>
    ensures { option_map (λ part. part.now) result ≡ slice_get parts.now (length parts.now - 1) }
{
    match parts.last() {
        Some(part) => Some(part.as_str()),
        None => None,
    }
}

impl Path {
    /// The path that a text spells: parts that are empty or `.` are dropped. A text is a path if it
    /// is not empty, at most 4,096 bytes long and without a zero byte, and no part of it is `..`.
    pub fn read(alloc: Global, text: &str) -> Result<Path, PathFault>
        ensures read { IfOk result (λ p. (p ≡ path_of text.now) × (is_bad text.now ≡ false)) }
        ensures bad { result ≡ Err PathFault.BadPath → is_bad text.now ≡ true }
        ensures refused { is_bad text.now ≡ true → result ≡ Err PathFault.BadPath }
    {
        if is_bad_text(text) {
            return Err(PathFault::BadPath);
        }
        let parts = read_parts(alloc, text)?;
        Ok(Path { parts })
    }

    /// The text that spells the path, with one slash between two parts.
    pub fn text(&self, alloc: Global) -> Result<Text, AllocError>
        ensures text { IfOk result (λ t. t ≡ text_of self.now) }
        ensures spells { IfOk result (λ t. path_of t ≡ self.now) }
        ensures good { IfOk result (λ t. length t ≤ MOST_PATH_BYTES → is_bad t ≡ false) }
    {
        Ok(Text::new(spelled(alloc, self.parts.as_slice())?))
    }

    pub fn copy(&self) -> Result<Path, AllocError>
        ensures { IfOk result (λ p. p ≡ self.now) }
    {
        let parts = copy_parts(self.parts.allocator().clone()?, self.parts.as_slice())?;
        Ok(Path { parts })
    }

    /// The current folder.
    pub fn current(alloc: Global) -> Path
        ensures { result ≡ [] }
    {
        Path {
            parts: Vec::new(alloc),
        }
    }

    /// The topmost folder.
    pub fn top(alloc: Global) -> Result<Path, AllocError>
        ensures { IfOk result (λ p. p ≡ [] ∷ []) }
    {
        let mut parts = Vec::new(alloc);
        parts.push(Text::new(String::new(alloc)))?;
        Ok(Path { parts })
    }

    pub fn parts(&self) -> &[Text]
        ensures same { result.now ≡ self.now }
        ensures path { IsPath self.now }
    {
        self.parts.as_slice()
    }

    /// The last part. The current folder and the topmost have none.
    pub fn last(&self) -> Option<&str>
        ensures { option_map (λ part. part.now) result ≡ last_part self.now }
    {
        if self.is_fixed() {
            return None;
        }
        last_text(self.parts.as_slice())
    }

    /// The current folder or the topmost, which have no parent.
    pub fn is_fixed(&self) -> bool
        ensures { result ≡ is_fixed self.now }
    {
        match self.parts.as_slice() {
            [] => true,
            [first, rest @ ..] => {
                if first.as_str().is_empty() {
                    rest.is_empty()
                } else {
                    false
                }
            }
        }
    }

    pub fn parent_parts(&self) -> &[Text]
        ensures { result.now ≡ parent self.now }
    {
        let parts = self.parts.as_slice();
        if parts.is_empty() {
            return parts;
        }
        &parts[..parts.len() - 1]
    }

    pub fn is(&self, parts: &[Text]) -> bool
        ensures { result ≡ path_eq parts.now self.now }
    {
        parts == self.parts.as_slice()
    }

    /// The path with one more part; `is_part` tests whether a text is one.
    pub fn join(&self, alloc: Global, part: &str) -> Result<Path, AllocError>
        requires { IsTrue (is_part part.now) }
        ensures { IfOk result (λ p. p ≡ self.now ++ part.now ∷ []) }
    {
        let mut parts = copy_parts(alloc, self.parts.as_slice())?;
        parts.push(Text::new(String::from_str(alloc, part)?))?;
        Ok(Path { parts })
    }
}
