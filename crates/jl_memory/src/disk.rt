// A folder in memory: how it began, the moves made, and tables that answer for the state they
// leave.
ghost use Rattle.std.specs.Prelude.{◌≡◌, ◌++◌, [], ◌∷◌, List, ℕ, true, false, OnOk, OnErr, IfSome, IfNone, IfOk, map, Some};
ghost use Rattle.jl_folder.specs.State.{State, Allowed, after, place_at, has_parent, is_file, is_folder, IsState};
ghost use Rattle.std.specs.List.{enumerate_from};
ghost use Rattle.jl_memory.specs.Tables.{Agrees, found, found_node, start_places, state_of};

use crate::tables::{
    NodeEntry, PlaceEntry, append_node, clear_place, freeze_node, has_child, node_of, place_of,
    set_place,
};
use crate::tree::Tree;
use jl_folder::{Move, Node, Place};
use jl_text::{Bytes, Path, Text, Token};
use std::alloc::{AllocError, Global};

#[derive(Drop)]
pub struct Disk {
    pub alloc: Global,
    pub start: Tree,
    pub trace: Vec<(Token, Move)>,
    pub places: Vec<PlaceEntry>,
    pub nodes: Vec<NodeEntry>,
    pub unmade: u64,
}

fn apply_create(
    alloc: Global,
    places: &mut Vec<PlaceEntry>,
    nodes: &mut Vec<NodeEntry>,
    token: &Token,
    path: &Path,
    number: u64,
) -> Result<(), AllocError>
    ensures ok { OnOk result ((s : State) → Agrees s places.old.items nodes.old.items → Allowed s
        (Move.Create path.now number) → Agrees (after s (token.now, Move.Create path.now number))
        places.new.items nodes.new.items) }
    ensures err { OnErr result ((s : State) → Agrees s places.old.items nodes.old.items → Agrees s
        places.new.items nodes.new.items) }
{
    let node = Node {
        bytes: Bytes::new(Vec::new(alloc)),
        maker: token.copy()?,
        frozen: false,
    };
    nodes.reserve(1)?;
    set_place(places, path, Some(Place::File(number)))?;
    match nodes.push((number, node)) {
        Ok(()) => Ok(()),
        Err(_) => unreachable!(),
    }
}

fn apply_rename(
    places: &mut Vec<PlaceEntry>,
    nodes: &mut Vec<NodeEntry>,
    from: &Path,
    to: &Path,
) -> Result<(), AllocError>
    ensures ok { OnOk result ((s : State) (t : List ℕ) → Agrees s places.old.items nodes.old.items →
        Allowed s (Move.Rename from.now to.now) → Agrees (after s (t, Move.Rename from.now to.now))
        places.new.items nodes.new.items) }
    ensures err { OnErr result ((s : State) → Agrees s places.old.items nodes.old.items → Agrees s
        places.new.items nodes.new.items) }
{
    if let Some(Place::File(number)) = place_of(places, from.parts()) {
        set_place(places, to, Some(Place::File(number)))?;
        clear_place(places, from);
        freeze_node(nodes, number);
    }
    Ok(())
}

// Brings the tables up to date with a move.
fn apply(
    alloc: Global,
    places: &mut Vec<PlaceEntry>,
    nodes: &mut Vec<NodeEntry>,
    token: &Token,
    change: &Move,
) -> Result<(), AllocError>
    ensures ok { OnOk result ((s : State) → Agrees s places.old.items nodes.old.items → Allowed s
        change.now → Agrees (after s (token.now, change.now)) places.new.items nodes.new.items) }
    ensures err { OnErr result ((s : State) → Agrees s places.old.items nodes.old.items → Agrees s
        places.new.items nodes.new.items) }
{
    match change {
        Move::MakeDir(path) => {
            set_place(places, path, Some(Place::Folder))?;
            Ok(())
        }
        Move::Create(path, number) => {
            apply_create(alloc, places, nodes, token, path, *number)?;
            Ok(())
        }
        Move::Append(number, bytes) => {
            append_node(nodes, *number, bytes.as_slice())?;
            Ok(())
        }
        Move::Rename(from, to) => {
            apply_rename(places, nodes, from, to)?;
            Ok(())
        }
        Move::Remove(path) => {
            clear_place(places, path);
            Ok(())
        }
        Move::RemoveDir(path) => {
            clear_place(places, path);
            Ok(())
        }
    }
}

// What each path of a tree names, with the two folders that are always there.
fn places_of(alloc: Global, start: &Tree) -> Result<Vec<PlaceEntry>, AllocError>
    ensures { IfOk result (λ v. v.items ≡ map (λ e. (e.0, Some e.1)) (start_places start.now)) }
{
    let mut places = Vec::new(alloc);
    places.push((Path::current(alloc), Some(Place::Folder)))?;
    places.push((Path::top(alloc)?, Some(Place::Folder)))?;
    'folders: for path in start.folders.as_slice() {
        places.push((path.copy()?, Some(Place::Folder)))?;
    }
    'names: for name in start.names.as_slice() {
        places.push((name.0.copy()?, Some(Place::File(name.1))))?;
    }
    Ok(places)
}

fn nodes_of(alloc: Global, start: &[Node]) -> Result<Vec<NodeEntry>, AllocError>
    ensures { IfOk result (λ v. v.items ≡ enumerate_from 0 start.now) }
{
    let mut nodes = Vec::new(alloc);
    let mut number: u64 = 0;
    for node in start {
        nodes.push((number, node.copy()?))?;
        number += 1;
    }
    Ok(nodes)
}

impl Disk {
    ghost use Rattle.jl_memory.specs.Disk.{disk_state, IsConsistent, LetMoves};

    pub fn new(alloc: Global, start: Tree) -> Result<Disk, AllocError>
        requires { IsState (state_of start) }
        ensures sound { IfOk result IsConsistent }
        ensures start { IfOk result (λ d. d.start ≡ start) }
        ensures trace { IfOk result (λ d. d.trace.items ≡ []) }
        ensures unmade { IfOk result (λ d. d.unmade ≡ 0) }
    {
        let places = places_of(alloc, &start)?;
        let nodes = nodes_of(alloc, start.nodes.as_slice())?;
        Ok(Disk {
            alloc,
            start,
            trace: Vec::new(alloc),
            places,
            nodes,
            unmade: 0,
        })
    }

    pub fn place(&self, parts: &[Text]) -> Option<Place>
        ensures { IsConsistent self.now → result ≡ place_at (disk_state self.now) parts.now }
    {
        place_of(&self.places, parts)
    }

    pub fn file_at(&self, parts: &[Text]) -> Option<u64>
        ensures some { IfSome result (λ n. IsConsistent self.now → place_at (disk_state self.now)
            parts.now ≡ Some (Place.File n)) }
        ensures none { IfNone result
            (IsConsistent self.now → is_file (disk_state self.now) parts.now ≡ false) }
    {
        match self.place(parts) {
            Some(Place::File(n)) => Some(n),
            Some(Place::Folder) => None,
            None => None,
        }
    }

    pub fn is_folder(&self, parts: &[Text]) -> bool
        ensures { IsConsistent self.now → result ≡ is_folder (disk_state self.now) parts.now }
    {
        match self.place(parts) {
            Some(Place::Folder) => true,
            _ => false,
        }
    }

    pub fn is_file(&self, parts: &[Text]) -> bool
        ensures { IsConsistent self.now → result ≡ is_file (disk_state self.now) parts.now }
    {
        match self.place(parts) {
            Some(Place::File(_)) => true,
            _ => false,
        }
    }

    pub fn has_parent(&self, path: &Path) -> bool
        ensures { IsConsistent self.now → result ≡ has_parent (disk_state self.now) path.now }
    {
        if path.is_fixed() {
            return false;
        }
        self.is_folder(path.parent_parts())
    }

    fn allows_rename(&self, from: &Path, to: &Path) -> bool
        ensures yes { result ≡ true → IsConsistent self.now
            → Allowed (disk_state self.now) (Move.Rename from.now to.now) }
        ensures no { result ≡ false → IsConsistent self.now
            → Allowed (disk_state self.now) (Move.Rename from.now to.now) → ⊥ }
    {
        if *from == *to {
            return false;
        }
        if !self.is_file(from.parts()) {
            return false;
        }
        if !self.has_parent(to) {
            return false;
        }
        if self.is_folder(to.parts()) {
            return false;
        }
        true
    }

    fn allows_remove_dir(&self, path: &Path) -> bool
        ensures yes { result ≡ true → IsConsistent self.now
            → Allowed (disk_state self.now) (Move.RemoveDir path.now) }
        ensures no { result ≡ false → IsConsistent self.now
            → Allowed (disk_state self.now) (Move.RemoveDir path.now) → ⊥ }
    {
        if !self.is_folder(path.parts()) {
            return false;
        }
        if path.is_fixed() {
            return false;
        }
        if has_child(&self.places, path.parts()) {
            return false;
        }
        true
    }

    /// Whether the move may be made.
    pub fn allows(&self, change: &Move) -> bool
        ensures yes { result ≡ true → IsConsistent self.now
            → Allowed (disk_state self.now) change.now }
        ensures no { result ≡ false → IsConsistent self.now
            → Allowed (disk_state self.now) change.now → ⊥ }
    {
        match change {
            Move::MakeDir(path) => self.place(path.parts()).is_none() && self.has_parent(path),
            Move::Create(path, number) => {
                self.place(path.parts()).is_none()
                    && self.has_parent(path)
                    && node_of(&self.nodes, *number).is_none()
            }
            Move::Append(number, _) => node_of(&self.nodes, *number).is_some(),
            Move::Rename(from, to) => self.allows_rename(from, to),
            Move::Remove(path) => self.is_file(path.parts()),
            Move::RemoveDir(path) => self.allows_remove_dir(path),
        }
    }

    /// Makes a move that is allowed, or leaves all as it is.
    pub fn make(&mut self, token: Token, change: Move) -> Result<(), AllocError>
        ensures ok { OnOk result
            (IsConsistent self.old → Allowed (disk_state self.old) change → IsConsistent self.new) }
        ensures err { OnErr result (IsConsistent self.old → IsConsistent self.new) }
        ensures made { OnOk result
            (self.new.trace.items ≡ self.old.trace.items ++ (token, change) ∷ []) }
        ensures kept { OnErr result (self.new.trace.items ≡ self.old.trace.items) }
        ensures start { self.new.start ≡ self.old.start }
        ensures unmade { self.new.unmade ≡ self.old.unmade }
    {
        self.trace.reserve(1)?;
        apply(
            self.alloc,
            &mut self.places,
            &mut self.nodes,
            &token,
            &change,
        )?;
        match self.trace.push((token, change)) {
            Ok(()) => Ok(()),
            Err(_) => unreachable!(),
        }
    }

    /// Makes a move if it may be made, and counts it where there is no memory for it.
    pub fn let_move(&mut self, token: Token, change: Move)
        ensures sound { IsConsistent self.old → IsConsistent self.new }
        ensures moved { IsConsistent self.old → LetMoves self.old self.new ((token, change) ∷ []) }
        ensures start { self.new.start ≡ self.old.start }
    {
        if !self.allows(&change) {
            return;
        }
        match self.make(token, change) {
            Ok(()) => {}
            Err(_) => self.unmade = self.unmade.saturating_add(1),
        }
    }

    /// Makes those of the moves that may be made, one after another.
    pub fn let_moves(&mut self, moves: Vec<(Token, Move)>)
        ensures sound { IsConsistent self.old → IsConsistent self.new }
        ensures moved { IsConsistent self.old → LetMoves self.old self.new moves.items }
        ensures start { self.new.start ≡ self.old.start }
    {
        for (token, change) in moves {
            self.let_move(token, change);
        }
    }
}
