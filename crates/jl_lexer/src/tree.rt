ghost use Rattle.std.specs.Prelude.{◌≡◌, ◌≤◌, IfOk, max, suc, [], ◌∷◌, ◌++◌};
ghost use Rattle.jl_lexer.specs.Trees.{leaf, bracketed, before, between, choice, index, call, span, list, each, filtered, table, height as height_of, members_of, members_height, entries_of, entries_height, kept as kept_of};
ghost use Rattle.jl_lexer.specs.Form.{expression_of};
ghost use Rattle.jl_text.specs.declared.limits.TheConstants.{MOST_BRACKETS};

use crate::operators::{Function, Operator, Prefix};
use crate::word::{Key, Name, Word};
use jl_text::limits::MOST_BRACKETS;
use std::alloc::{AllocError, Global};
use std::marker::Model;

/// The tree of an expression, over the bytes that it was read of.
#[cycle(tree)]
#[derive(Drop)]
pub struct Tree<'a> {
    height: u32,
    node: Node<'a>,
}

/// One level of a tree.
#[cycle(tree)]
#[derive(Drop)]
pub enum Node<'a> {
    Tall,
    Leaf(Word<'a>),
    Bracketed(Box<Tree<'a>>),
    Before(Prefix, Box<Tree<'a>>),
    Between(Operator, Box<Tree<'a>>, Box<Tree<'a>>),
    Choice(Box<Tree<'a>>, Box<Tree<'a>>, Box<Tree<'a>>),
    Index(Box<Tree<'a>>, Box<Tree<'a>>),
    Call(Function, Box<Tree<'a>>),
    Span(Box<Tree<'a>>, Box<Tree<'a>>),
    Listed(Members<'a>),
    Each(Box<Tree<'a>>, Name<'a>, Box<Tree<'a>>),
    Filtered(Box<Tree<'a>>, Name<'a>, Box<Tree<'a>>, Box<Tree<'a>>),
    Tabled(Entries<'a>),
}

/// The members of a list.
#[cycle(tree)]
#[derive(Drop)]
pub struct Members<'a> {
    list: Vec<Tree<'a>>,
    height: u32,
}

/// A key and a member of a table.
#[cycle(tree)]
#[derive(Drop)]
pub struct Entry<'a> {
    key: Key<'a>,
    member: Tree<'a>,
}

/// The keys and members of a table.
#[cycle(tree)]
#[derive(Drop)]
pub struct Entries<'a> {
    list: Vec<Entry<'a>>,
    height: u32,
}

impl<'a> Model for Tree<'a> {
    ghost use Rattle.std.specs.Prelude.{◌≡◌, ◌≤◌, suc, ◌*◌};
    ghost use Rattle.jl_text.specs.declared.limits.TheConstants.{MOST_BRACKETS};
    ghost use Rattle.jl_lexer.specs.Trees.{Expression, height as height_of};
    ghost use Rattle.jl_lexer.specs.Codes.{coded_expression};

    ghost Value = { Expression };

    ghost coded = { coded_expression };

    ghost use Rattle.jl_lexer.specs.Form.{expression_of};

    ghost view = { λ t. expression_of t.node };

    ghost invariant = { λ t. (t.height ≡ height_of (expression_of t.node)) × (t.height ≤ suc MOST_BRACKETS) };

    ghost size = { λ e. 3 * height_of e };

    ghost use Rattle.std.proofs.Common.{arith};
    ghost use Rattle.jl_lexer.specs.Falls.{deep_height};

    ghost size_decreases = { λ a h. omega (arith, deep_height a.node) };
}

impl<'a> Model for Members<'a> {
    ghost use Rattle.std.specs.Prelude.{◌≡◌, ◌≤◌, suc, ◌+◌, ◌*◌, List};
    ghost use Rattle.jl_text.specs.declared.limits.TheConstants.{MOST_BRACKETS};
    ghost use Rattle.jl_lexer.specs.Trees.{Expression, members_of, members_height};
    ghost use Rattle.jl_lexer.specs.Codes.{coded_expressions};

    ghost Value = { List Expression };

    ghost coded = { coded_expressions };

    ghost view = { λ m. m.list.items };

    ghost invariant = { λ m. (m.height ≡ members_height (members_of m.list.items)) × (m.height ≤ suc MOST_BRACKETS) };

    ghost size = { λ es. 3 * members_height (members_of es) + 1 };

    ghost use Rattle.std.proofs.Common.{arith};
    ghost use Rattle.jl_lexer.specs.Falls.{most_members};

    ghost size_decreases = { λ a h. omega (arith, most_members a.list.items) };
}

impl<'a> Model for Entry<'a> {
    ghost use Rattle.std.specs.Prelude.{◌≡◌, ◌+◌, ◌*◌, ℕ, List};
    ghost use Rattle.jl_lexer.specs.Trees.{Expression, height as height_of};
    ghost use Rattle.jl_lexer.specs.Codes.{coded_entry};

    ghost Value = { List ℕ × Expression };

    ghost coded = { coded_entry };

    ghost view = { λ e. (e.key, e.member) };

    ghost size = { λ e. 3 * height_of e.1 + 1 };

    ghost use Rattle.std.proofs.Common.{arith};

    ghost size_decreases = { λ a h. omega arith };
}

impl<'a> Model for Entries<'a> {
    ghost use Rattle.std.specs.Prelude.{◌≡◌, ◌≤◌, suc, ◌+◌, ◌*◌, ℕ, List};
    ghost use Rattle.jl_text.specs.declared.limits.TheConstants.{MOST_BRACKETS};
    ghost use Rattle.jl_lexer.specs.Trees.{Expression, entries_of, entries_height};
    ghost use Rattle.jl_lexer.specs.Codes.{coded_entries};

    ghost Value = { List (List ℕ × Expression) };

    ghost coded = { coded_entries };

    ghost view = { λ m. m.list.items };

    ghost invariant = { λ m. (m.height ≡ entries_height (entries_of m.list.items)) × (m.height ≤ suc MOST_BRACKETS) };

    ghost size = { λ es. 3 * entries_height (entries_of es) + 2 };

    ghost use Rattle.std.proofs.Common.{arith};
    ghost use Rattle.jl_lexer.specs.Falls.{most_entries};

    ghost size_decreases = { λ a h. omega (arith, most_entries a.list.items) };
}

impl<'a> Members<'a> {
    pub fn new(alloc: Global) -> Members<'a>
        ensures { result ≡ [] }
    {
        Members {
            list: Vec::new(alloc),
            height: 0,
        }
    }

    pub fn as_slice(&self) -> &[Tree<'a>]
        ensures { result.now ≡ self.now }
    {
        self.list.as_slice()
    }

    pub fn with(self, member: Tree<'a>) -> Result<Members<'a>, AllocError>
        ensures { IfOk result (λ m. m ≡ self.entry ++ member.entry ∷ []) }
    {
        let Members { mut list, height } = self;
        let height = height.max(member.height());
        list.push(member)?;
        Ok(Members { list, height })
    }
}

impl<'a> Entry<'a> {
    pub fn key(&self) -> &Key<'a>
        ensures { result.now ≡ self.now.0 }
    {
        &self.key
    }

    pub fn member(&self) -> &Tree<'a>
        ensures { result.now ≡ self.now.1 }
    {
        &self.member
    }
}

impl<'a> Entries<'a> {
    pub fn new(alloc: Global) -> Entries<'a>
        ensures { result ≡ [] }
    {
        Entries {
            list: Vec::new(alloc),
            height: 0,
        }
    }

    pub fn as_slice(&self) -> &[Entry<'a>]
        ensures { result.now ≡ self.now }
    {
        self.list.as_slice()
    }

    pub fn with(self, key: Key<'a>, member: Tree<'a>) -> Result<Entries<'a>, AllocError>
        ensures { IfOk result (λ m. m ≡ self.entry ++ (key.entry, member.entry) ∷ []) }
    {
        let Entries { mut list, height } = self;
        let height = height.max(member.height());
        list.push(Entry { key, member })?;
        Ok(Entries { list, height })
    }
}

// What is kept of a node that is this high.
fn kept(node: Node<'_>, height: u32) -> Tree<'_>
    requires { height ≡ height_of (expression_of node) }
    ensures { result ≡ kept_of (expression_of node.entry) }
{
    if height > MOST_BRACKETS {
        return Tree {
            height: MOST_BRACKETS + 1,
            node: Node::Tall,
        };
    }
    Tree { height, node }
}

fn boxed(alloc: Global, tree: Tree<'_>) -> Result<Box<Tree<'_>>, AllocError>
    ensures { IfOk result (λ b. b.value ≡ tree.entry) }
{
    Ok(Box::new(alloc, tree)?)
}

impl<'a> Tree<'a> {
    /// How high the tree is, up to one more than the limit.
    pub fn height(&self) -> u32
        ensures same { result ≡ height_of self.now }
        ensures low { result ≤ suc MOST_BRACKETS }
    {
        self.height
    }

    /// What stands at the top.
    pub fn node(&self) -> &Node<'a>
        ensures { expression_of result.now ≡ self.now }
    {
        &self.node
    }

    pub fn leaf(word: Word<'a>) -> Tree<'a>
        ensures { result ≡ leaf word.entry }
    {
        Tree {
            height: 0,
            node: Node::Leaf(word),
        }
    }

    pub fn bracketed(alloc: Global, inner: Tree<'a>) -> Result<Tree<'a>, AllocError>
        ensures { IfOk result (λ t. t ≡ kept_of (bracketed inner.entry)) }
    {
        let height = inner.height() + 1;
        Ok(kept(Node::Bracketed(boxed(alloc, inner)?), height))
    }

    pub fn before(alloc: Global, prefix: Prefix, inner: Tree<'a>) -> Result<Tree<'a>, AllocError>
        ensures { IfOk result (λ t. t ≡ kept_of (before prefix inner.entry)) }
    {
        let height = inner.height() + 1;
        Ok(kept(Node::Before(prefix, boxed(alloc, inner)?), height))
    }

    pub fn between(
        alloc: Global,
        operator: Operator,
        left: Tree<'a>,
        right: Tree<'a>,
    ) -> Result<Tree<'a>, AllocError>
        ensures { IfOk result (λ t. t ≡ kept_of (between operator left.entry right.entry)) }
    {
        let height = left.height().max(right.height()) + 1;
        let left = boxed(alloc, left)?;
        let right = boxed(alloc, right)?;
        Ok(kept(Node::Between(operator, left, right), height))
    }

    pub fn choice(
        alloc: Global,
        first: Tree<'a>,
        condition: Tree<'a>,
        last: Tree<'a>,
    ) -> Result<Tree<'a>, AllocError>
        ensures { IfOk result (λ t. t ≡ kept_of (choice first.entry condition.entry last.entry)) }
    {
        let height = first.height().max(condition.height().max(last.height())) + 1;
        let first = boxed(alloc, first)?;
        let condition = boxed(alloc, condition)?;
        let last = boxed(alloc, last)?;
        Ok(kept(Node::Choice(first, condition, last), height))
    }

    pub fn index(alloc: Global, whole: Tree<'a>, at: Tree<'a>) -> Result<Tree<'a>, AllocError>
        ensures { IfOk result (λ t. t ≡ kept_of (index whole.entry at.entry)) }
    {
        let height = whole.height().max(at.height()) + 1;
        let whole = boxed(alloc, whole)?;
        let at = boxed(alloc, at)?;
        Ok(kept(Node::Index(whole, at), height))
    }

    pub fn call(alloc: Global, function: Function, member: Tree<'a>) -> Result<Tree<'a>, AllocError>
        ensures { IfOk result (λ t. t ≡ kept_of (call function member.entry)) }
    {
        let height = member.height() + 1;
        Ok(kept(Node::Call(function, boxed(alloc, member)?), height))
    }

    pub fn span(alloc: Global, first: Tree<'a>, end: Tree<'a>) -> Result<Tree<'a>, AllocError>
        ensures { IfOk result (λ t. t ≡ kept_of (span first.entry end.entry)) }
    {
        let height = first.height().max(end.height()) + 1;
        let first = boxed(alloc, first)?;
        let end = boxed(alloc, end)?;
        Ok(kept(Node::Span(first, end), height))
    }

    pub fn listed(members: Members<'a>) -> Tree<'a>
        ensures { result ≡ kept_of (list (members_of members.entry)) }
    {
        let height = members.height + 1;
        kept(Node::Listed(members), height)
    }

    pub fn tabled(entries: Entries<'a>) -> Tree<'a>
        ensures { result ≡ kept_of (table (entries_of entries.entry)) }
    {
        let height = entries.height + 1;
        kept(Node::Tabled(entries), height)
    }

    pub fn each(
        alloc: Global,
        member: Tree<'a>,
        variable: Name<'a>,
        source: Tree<'a>,
    ) -> Result<Tree<'a>, AllocError>
        ensures { IfOk result (λ t. t ≡ kept_of (each member.entry variable.entry source.entry)) }
    {
        let height = member.height().max(source.height()) + 1;
        let member = boxed(alloc, member)?;
        let source = boxed(alloc, source)?;
        Ok(kept(Node::Each(member, variable, source), height))
    }

    pub fn filtered(
        alloc: Global,
        member: Tree<'a>,
        variable: Name<'a>,
        source: Tree<'a>,
        condition: Tree<'a>,
    ) -> Result<Tree<'a>, AllocError>
        ensures { IfOk result (λ t. t ≡ kept_of (filtered member.entry variable.entry source.entry condition.entry)) }
    {
        let height = member.height().max(source.height().max(condition.height())) + 1;
        let member = boxed(alloc, member)?;
        let source = boxed(alloc, source)?;
        let condition = boxed(alloc, condition)?;
        Ok(kept(Node::Filtered(member, variable, source, condition), height))
    }
}
