// A folder as it begins.
ghost use Rattle.std.specs.Prelude.{◌≡◌, IfOk, IfSome, IfNone, Some, map, true, false, All};
ghost use Rattle.std.specs.List.{list_any};
ghost use Rattle.jl_text.specs.Paths.{path_eq, is_fixed};
ghost use Rattle.jl_folder.specs.State.{IsState, place_at, is_folder, is_file};
ghost use Rattle.jl_folder.specs.declared.moves.Place.TheVariants.{File};
ghost use Rattle.jl_memory.specs.Tables.{found, state_of};
ghost use Rattle.jl_memory.specs.Trees.{empty_tree, StandsWell};

use jl_folder::{Node, Path, Place, Text};
use std::alloc::{AllocError, Global};
use std::marker::Model;

fn copy_paths(alloc: Global, paths: &[Path]) -> Result<Vec<Path>, AllocError>
    ensures { IfOk result (λ v. v.items ≡ paths.now) }
{
    let mut copies = Vec::new(alloc);
    for path in paths {
        copies.push(path.copy()?)?;
    }
    Ok(copies)
}

fn copy_files(alloc: Global, files: &[(Path, u64)]) -> Result<Vec<(Path, u64)>, AllocError>
    ensures { IfOk result (λ v. v.items ≡ files.now) }
{
    let mut copies = Vec::new(alloc);
    for (path, place) in files {
        copies.push((path.copy()?, *place))?;
    }
    Ok(copies)
}

fn copy_nodes(alloc: Global, nodes: &[Node]) -> Result<Vec<Node>, AllocError>
    ensures { IfOk result (λ v. v.items ≡ nodes.now) }
{
    let mut copies = Vec::new(alloc);
    for node in nodes {
        copies.push(node.copy()?)?;
    }
    Ok(copies)
}

/// A list of paths.
#[derive(Debug, Drop)]
pub struct PathList {
    paths: Vec<Path>,
}

impl Model for PathList {
    ghost use Rattle.std.specs.Prelude.{List, ℕ};

    ghost Value = { List (List (List ℕ)) };

    ghost view = { λ p. p.paths.items };
}

impl PartialEq for PathList {
    ghost use Rattle.std.specs.Cmp.{partial_equiv_from_equiv};
    ghost use Rattle.std.specs.Cmp.Lexicographic.{nat_list_eq_equiv, lists_per};
    ghost use Rattle.jl_memory.specs.Same.{paths_eq};

    ghost eq = { paths_eq };

    ghost laws = { lists_per (lists_per (partial_equiv_from_equiv nat_list_eq_equiv)) };

    fn eq(&self, other: &Self) -> bool {
        self.paths == other.paths
    }
}

impl PathList {
    /// The paths of a vector.
    pub fn new(paths: Vec<Path>) -> PathList
        ensures { result ≡ paths.items }
    {
        PathList { paths }
    }

    /// A second list of the same paths.
    pub fn copy(&self) -> Result<PathList, AllocError>
        ensures { IfOk result (λ p. p ≡ self.now) }
    {
        let alloc = self.paths.allocator().clone()?;
        Ok(PathList {
            paths: copy_paths(alloc, self.paths.as_slice())?,
        })
    }

    /// The paths.
    pub fn as_slice(&self) -> &[Path]
        ensures { result.now ≡ self.now }
    {
        self.paths.as_slice()
    }

    /// The vector of the paths.
    pub fn into_vec(self) -> Vec<Path>
        ensures { result.items ≡ self }
    {
        self.paths
    }
}

/// A list of names, each with the place of its node in a list of nodes.
#[derive(Debug, Drop)]
pub struct FileList {
    files: Vec<(Path, u64)>,
}

impl Model for FileList {
    ghost use Rattle.std.specs.Prelude.{List, ℕ};

    ghost Value = { List (List (List ℕ) × ℕ) };

    ghost view = { λ f. f.files.items };
}

impl PartialEq for FileList {
    ghost use Rattle.std.specs.Cmp.{partial_equiv_from_equiv, and_per, on_per, nat_eq_equiv};
    ghost use Rattle.std.specs.Cmp.Lexicographic.{nat_list_eq_equiv, lists_per};
    ghost use Rattle.jl_memory.specs.Same.{files_eq};

    ghost eq = { files_eq };

    ghost laws = { lists_per (and_per
        (on_per (λ t. t.0) (lists_per (partial_equiv_from_equiv nat_list_eq_equiv)))
        (on_per (λ t. t.1) (partial_equiv_from_equiv nat_eq_equiv))) };

    fn eq(&self, other: &Self) -> bool {
        self.files == other.files
    }
}

impl FileList {
    /// The names of a vector.
    pub fn new(files: Vec<(Path, u64)>) -> FileList
        ensures { result ≡ files.items }
    {
        FileList { files }
    }

    /// A second list of the same names.
    pub fn copy(&self) -> Result<FileList, AllocError>
        ensures { IfOk result (λ f. f ≡ self.now) }
    {
        let alloc = self.files.allocator().clone()?;
        Ok(FileList {
            files: copy_files(alloc, self.files.as_slice())?,
        })
    }

    /// The names.
    pub fn as_slice(&self) -> &[(Path, u64)]
        ensures { result.now ≡ self.now }
    {
        self.files.as_slice()
    }

    /// The vector of the names.
    pub fn into_vec(self) -> Vec<(Path, u64)>
        ensures { result.items ≡ self }
    {
        self.files
    }
}

/// A list of nodes; a node's number is its place.
#[derive(Debug, Drop)]
pub struct NodeList {
    nodes: Vec<Node>,
}

impl Model for NodeList {
    ghost use Rattle.std.specs.Prelude.{List};
    ghost use Rattle.jl_folder.specs.declared.moves.Node.{Node};

    ghost Value = { List Node };

    ghost view = { λ n. n.nodes.items };
}

impl PartialEq for NodeList {
    ghost use Rattle.std.specs.Cmp.{partial_equiv_from_equiv, and_per, on_per, bool_eq_equiv};
    ghost use Rattle.std.specs.Cmp.Lexicographic.{nat_list_eq_equiv, lists_per};
    ghost use Rattle.jl_memory.specs.Same.{nodes_eq};

    ghost eq = { nodes_eq };

    ghost laws = { lists_per (and_per
        (on_per (λ v. v.bytes) (partial_equiv_from_equiv nat_list_eq_equiv)) (and_per
        (on_per (λ v. v.maker) (partial_equiv_from_equiv nat_list_eq_equiv))
        (on_per (λ v. v.frozen) (partial_equiv_from_equiv bool_eq_equiv)))) };

    fn eq(&self, other: &Self) -> bool {
        self.nodes == other.nodes
    }
}

impl NodeList {
    /// The nodes of a vector.
    pub fn new(nodes: Vec<Node>) -> NodeList
        ensures { result ≡ nodes.items }
    {
        NodeList { nodes }
    }

    /// A second list of the same nodes.
    pub fn copy(&self) -> Result<NodeList, AllocError>
        ensures { IfOk result (λ n. n ≡ self.now) }
    {
        let alloc = self.nodes.allocator().clone()?;
        Ok(NodeList {
            nodes: copy_nodes(alloc, self.nodes.as_slice())?,
        })
    }

    /// The nodes.
    pub fn as_slice(&self) -> &[Node]
        ensures { result.now ≡ self.now }
    {
        self.nodes.as_slice()
    }

    /// The vector of the nodes.
    pub fn into_vec(self) -> Vec<Node>
        ensures { result.items ≡ self }
    {
        self.nodes
    }
}

/// A folder as it begins: `names` gives each file's place in `nodes`. The current folder and the
/// topmost are always there, and need not be listed.
#[derive(Debug, Drop, PartialEq)]
pub struct Tree {
    pub folders: PathList,
    pub names: FileList,
    pub nodes: NodeList,
}

fn bare_tree(alloc: Global) -> Tree
    ensures { result ≡ empty_tree }
{
    Tree {
        folders: PathList::new(Vec::new(alloc)),
        names: FileList::new(Vec::new(alloc)),
        nodes: NodeList::new(Vec::new(alloc)),
    }
}

// Whether these are the parts of the current folder or the topmost.
fn are_fixed(parts: &[Text]) -> bool
    ensures { result ≡ is_fixed parts.now }
{
    match parts {
        [] => true,
        [first, rest @ ..] => {
            if first.as_str().is_empty() {
                rest.is_empty()
            } else {
                false
            }
        }
    }
}

fn has_path(paths: &[Path], parts: &[Text]) -> bool
    ensures { result ≡ list_any (λ p. path_eq parts.now p) paths.now }
{
    paths.iter().any(|path| path.is(parts))
}

// The file of the first name with these parts.
fn file_named(names: &[(Path, u64)], parts: &[Text]) -> Option<Place>
    ensures { result ≡ found (map (λ e. (e.0, Some (File e.1))) names.now) parts.now }
{
    for name in names {
        if name.0.is(parts) {
            return Some(Place::File(name.1));
        }
    }
    None
}

impl Tree {
    /// A folder with nothing in it.
    pub fn empty(alloc: Global) -> Tree
        ensures empty { result ≡ empty_tree }
        ensures state { IsState (state_of result) }
    {
        bare_tree(alloc)
    }

    // What the path of these parts names.
    fn place(&self, parts: &[Text]) -> Option<Place>
        ensures { result ≡ place_at (state_of self.now) parts.now }
    {
        if are_fixed(parts) {
            return Some(Place::Folder);
        }
        if has_path(self.folders.as_slice(), parts) {
            return Some(Place::Folder);
        }
        file_named(self.names.as_slice(), parts)
    }

    fn is_folder(&self, parts: &[Text]) -> bool
        ensures { result ≡ is_folder (state_of self.now) parts.now }
    {
        match self.place(parts) {
            Some(Place::Folder) => true,
            _ => false,
        }
    }

    fn file_at(&self, parts: &[Text]) -> Option<u64>
        ensures some { IfSome result
            (λ n. place_at (state_of self.now) parts.now ≡ Some (Place.File n)) }
        ensures none { IfNone result (is_file (state_of self.now) parts.now ≡ false) }
    {
        match self.place(parts) {
            Some(Place::File(n)) => Some(n),
            Some(Place::Folder) => None,
            None => None,
        }
    }

    fn stands_well(&self, path: &Path) -> bool
        ensures yes { result ≡ true → StandsWell self.now path.now }
        ensures no { result ≡ false → StandsWell self.now path.now → ⊥ }
    {
        if path.is_fixed() {
            return true;
        }
        if !self.is_folder(path.parent_parts()) {
            return false;
        }
        let Some(number) = self.file_at(path.parts()) else {
            return true;
        };
        let count = self.nodes.as_slice().len();
        if number as usize >= count {
            return false;
        }
        true
    }

    fn folders_stand_well(&self) -> bool
        ensures yes { result ≡ true → All (StandsWell self.now) self.now.folders }
        ensures no { result ≡ false → All (StandsWell self.now) self.now.folders → ⊥ }
    {
        for path in self.folders.as_slice() {
            if !self.stands_well(path) {
                return false;
            }
        }
        true
    }

    fn names_stand_well(&self) -> bool
        ensures yes { result ≡ true → All (λ e. StandsWell self.now e.0) self.now.names }
        ensures no { result ≡ false → All (λ e. StandsWell self.now e.0) self.now.names → ⊥ }
    {
        for name in self.names.as_slice() {
            if !self.stands_well(&name.0) {
                return false;
            }
        }
        true
    }

    /// Whether a folder may begin as this tree: whatever it lists stands in a folder, and each name
    /// has its node.
    pub fn is_state(&self) -> bool
        ensures yes { result ≡ true → IsState (state_of self.now) }
        ensures no { result ≡ false → IsState (state_of self.now) → ⊥ }
    {
        if !self.folders_stand_well() {
            return false;
        }
        self.names_stand_well()
    }

    /// A second tree that is the same.
    pub fn copy(&self) -> Result<Tree, AllocError>
        ensures { IfOk result (λ t. t ≡ self.now) }
    {
        Ok(Tree {
            folders: self.folders.copy()?,
            names: self.names.copy()?,
            nodes: self.nodes.copy()?,
        })
    }
}
