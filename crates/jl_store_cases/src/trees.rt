// Rows over trees, from which a folder in memory begins.

use jl_folder::{Bytes, Node, Path, Token};
use jl_memory::{FileList, NodeList, PathList, Tree};
use jl_script::given::{self, RowFault};
use jl_script::told::Told;
use jl_value::Value;
use std::alloc::Global;

fn named(alloc: Global, text: &str) -> Result<Path, RowFault> {
    Path::read(alloc, text).ok().ok_or(RowFault::Bad)
}

fn node(alloc: Global, text: &[u8]) -> Result<Node, RowFault> {
    Ok(Node {
        bytes: Bytes::new(Vec::from_slice(alloc, text)?),
        maker: Token::read(alloc, "t").ok().ok_or(RowFault::Bad)?,
        frozen: true,
    })
}

// The folder `a` and the file `f` of these bytes.
fn tree(alloc: Global, text: &[u8]) -> Result<Tree, RowFault> {
    Ok(Tree {
        folders: PathList::new(vec![in alloc; named(alloc, "a")?]?),
        names: FileList::new(vec![in alloc; (named(alloc, "f")?, 0u64)]?),
        nodes: NodeList::new(vec![in alloc; node(alloc, text)?]?),
    })
}

// Whether a tree equals its copy, one of other bytes and an empty one, and how much its lists hold.
fn compare(alloc: Global, given: &[Value]) -> Told {
    let first = tree(alloc, given::bytes(alloc, given, 0)?.as_slice())?;
    let second = tree(alloc, given::bytes(alloc, given, 1)?.as_slice())?;
    let copied = first.copy()? == first;
    let other = first == second;
    let empty = first == Tree::empty(alloc);
    let folders = first.folders.into_vec().len();
    let names = first.names.into_vec().len();
    let nodes = first.nodes.into_vec().len();
    Ok(format!(in alloc;
        "copy {copied}, other {other}, empty {empty}: {folders} folders, {names} names, {nodes} nodes"
    )?)
}

pub fn row(alloc: Global, case: &str, given: &[Value]) -> Told {
    match case {
        "compare" => compare(alloc, given),
        _ => Err(RowFault::Bad),
    }
}
