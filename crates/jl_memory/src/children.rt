// The names below a folder, by the table of what each path names.
ghost use Rattle.std.specs.Prelude.{◌≡◌, ℕ, List, map, Contains, All, IsTrue, IfOk, IfSome, IfNone};
ghost use Rattle.jl_text.specs.Paths.{is_part};
ghost use Rattle.std.specs.List.{IsDistinct, list_any};
ghost use Rattle.std.specs.Str.{bytes_eq};
ghost use Rattle.jl_folder.specs.State.{is_folder_place};
ghost use Rattle.jl_memory.specs.Children.{IsChild, StandsIn};
ghost use Rattle.jl_folder.specs.declared.listing.Name.{Name};

use crate::tables::{PlaceEntry, place_of};
use jl_folder::{Name, Place};
use jl_text::{Path, Text};
use std::alloc::{AllocError, Global};

// The last part of a path that stands below the other.
fn child_part<'a>(child: &'a Path, path: &Path) -> Option<&'a Text>
    ensures part { IfSome result (λ part. IsTrue (is_part part.now)) }
    ensures below { IfSome result (λ part. IsChild child.now path.now part.now) }
    ensures apart { IfNone result ((part : List ℕ) → IsChild child.now path.now part → ⊥) }
{
    let (part, parents) = child.parts().split_last()?;
    if part.as_str().is_empty() {
        return None;
    }
    if !path.is(parents) {
        return None;
    }
    Some(part)
}

fn has_name(names: &[Name], part: &Text) -> bool
    ensures { result ≡ list_any (λ name. bytes_eq part.now name.part) names.now }
{
    names.iter().any(|name| *part == name.part)
}

fn is_folder(place: Place) -> bool
    ensures { result ≡ is_folder_place place }
{
    match place {
        Place::Folder => true,
        Place::File(_) => false,
    }
}

/// The names below a folder, each once.
pub fn children(alloc: Global, places: &[PlaceEntry], path: &Path) -> Result<Vec<Name>, AllocError>
    ensures each { IfOk result
        (λ v. (name : Name) → Contains v.items name → StandsIn places.now path.now name) }
    ensures every { IfOk result
        (λ v. (name : Name) → StandsIn places.now path.now name → Contains v.items name) }
    ensures parts { IfOk result (λ v. All (λ n. IsTrue (is_part n.part)) v.items) }
    ensures once { IfOk result (λ v. IsDistinct bytes_eq (map (λ n. n.part) v.items)) }
{
    let mut names = Vec::new(alloc);
    for entry in places {
        if let Some(part) = child_part(&entry.0, path) {
            if !has_name(names.as_slice(), part) {
                if let Some(place) = place_of(places, entry.0.parts()) {
                    let folder = is_folder(place);
                    let part = part.copy()?;
                    names.push(Name { part, folder })?;
                }
            }
        }
    }
    Ok(names)
}
