// The tables of a folder in memory: what each path names, and the nodes by their numbers.
ghost use Rattle.std.specs.Prelude.{◌≡◌, ℕ, cond, nat_eq, option_map, true, false, [], ◌∷◌, None, Some, OnOk, OnErr, IsSome, ◌++◌};
ghost use Rattle.std.specs.Option.{option_copied};
ghost use Rattle.jl_text.specs.Paths.{PathView, path_eq, is_fixed, parent};
ghost use Rattle.jl_folder.specs.State.{appended, frozen_node};
ghost use Rattle.jl_memory.specs.Tables.{found, found_node, with_place, with_node};

use jl_folder::{Node, Place};
use jl_text::{Path, Text};
use std::alloc::AllocError;

pub type PlaceEntry = (Path, Option<Place>);

pub type NodeEntry = (u64, Node);

pub fn place_of(places: &[PlaceEntry], parts: &[Text]) -> Option<Place>
    ensures { result ≡ found places.now parts.now }
{
    for entry in places {
        if entry.0.is(parts) {
            return entry.1;
        }
    }
    None
}

// Says it in the first entry with this path, if there is one.
fn set_first(places: &mut Vec<PlaceEntry>, path: &Path, what: Option<Place>) -> bool
    ensures set { result ≡ true → places.new.items ≡ with_place places.old.items path.now what }
    ensures none { result ≡ false
        → (places.new.items ≡ places.old.items)
        × (with_place places.old.items path.now what ≡ places.old.items ++ (path.now, what) ∷ []) }
{
    for i in 0..places.len() {
        if places[i].0 == *path {
            places[i].1 = what;
            return true;
        }
    }
    false
}

pub fn set_place(
    places: &mut Vec<PlaceEntry>,
    path: &Path,
    what: Option<Place>,
) -> Result<(), AllocError>
    ensures ok { OnOk result ((q : PathView) → found places.new.items q ≡ cond (path_eq q path.now)
        what (found places.old.items q)) }
    ensures err { OnErr result (places.new.items ≡ places.old.items) }
{
    let copy = path.copy()?;
    if !set_first(places, path, what) {
        places.push((copy, what))?;
    }
    Ok(())
}

pub fn clear_place(places: &mut Vec<PlaceEntry>, path: &Path)
    ensures { (q : PathView)
        → found places.new.items q ≡ cond (path_eq q path.now) None (found places.old.items q) }
{
    let _set = set_first(places, path, None);
}

pub fn node_of(nodes: &[NodeEntry], number: u64) -> Option<&Node>
    ensures { option_copied result ≡ found_node nodes.now number }
{
    for entry in nodes {
        if entry.0 == number {
            return Some(&entry.1);
        }
    }
    None
}

pub fn freeze_node(nodes: &mut Vec<NodeEntry>, number: u64)
    ensures { (k : ℕ)
        → found_node nodes.new.items k ≡ cond (nat_eq k number)
        (option_map frozen_node (found_node nodes.old.items k)) (found_node nodes.old.items k) }
{
    for i in 0..nodes.len() {
        if nodes[i].0 == number {
            nodes[i].1.frozen = true;
            return;
        }
    }
}

pub fn append_node(nodes: &mut Vec<NodeEntry>, number: u64, bytes: &[u8]) -> Result<(), AllocError>
    ensures ok { OnOk result ((k : ℕ) → found_node nodes.new.items k ≡ cond (nat_eq k number)
        (option_map (appended bytes.now) (found_node nodes.old.items k))
        (found_node nodes.old.items k)) }
    ensures err { OnErr result (nodes.new.items ≡ nodes.old.items) }
{
    for i in 0..nodes.len() {
        if nodes[i].0 == number {
            nodes[i].1.bytes.extend(bytes)?;
            return Ok(());
        }
    }
    Ok(())
}

// Some path has this one as its parent.
pub fn has_child(places: &[PlaceEntry], parts: &[Text]) -> bool
    ensures yes { result ≡ true
        → (q : PathView) × (is_fixed q ≡ false) × (parent q ≡ parts.now) × IsSome
        (found places.now q) }
    ensures no { result ≡ false → (q : PathView) → is_fixed q ≡ false → parent q ≡ parts.now
        → found places.now q ≡ None }
{
    for entry in places {
        if !entry.0.is_fixed() {
            if entry.0.parent_parts() == parts {
                if place_of(places, entry.0.parts()).is_some() {
                    return true;
                }
            }
        }
    }
    false
}
