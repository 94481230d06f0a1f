// Names in the order in which they stand, and whether one stands among them.
ghost use Rattle.std.specs.Prelude.{◌≡◌, ◌++◌, ◌∷◌, [], IfOk, map};
ghost use Rattle.std.specs.List.{list_any};
ghost use Rattle.std.specs.Str.{bytes_eq};
ghost use Rattle.jl_module.specs.Headings.{has_repeat as has_repeat_of};

use std::alloc::{AllocError, Global};
use std::collections::BTreeSet;
use std::marker::Model;

/// Names, in the order in which they came.
#[derive(Drop)]
pub struct Names<'a> {
    list: Vec<&'a [u8]>,
    set: BTreeSet<&'a [u8]>,
}

impl<'a> Model for Names<'a> {
    ghost use Rattle.std.specs.Prelude.{◌≡◌, List, ℕ, map};
    ghost use Rattle.std.specs.List.{list_any};
    ghost use Rattle.std.specs.Str.{bytes_eq};
    ghost use Rattle.std.specs.Ordering.{nat_cmp};
    ghost use Rattle.std.specs.Cmp.Lexicographic.{slice_cmp};
    ghost use Rattle.std.specs.BTreeSet.{contains_by};

    ghost Value = { List (List ℕ) };

    ghost view = { λ n. map (λ x. x.now) n.list.items };

    ghost invariant = { λ n. (q : List ℕ) → contains_by (λ k. slice_cmp nat_cmp q k.now) n.set
        ≡ list_any (bytes_eq q) (map (λ x. x.now) n.list.items) };
}

impl<'a> Names<'a> {
    pub(crate) fn new(alloc: Global) -> Names<'a>
        ensures { result ≡ [] }
    {
        Names {
            list: Vec::new(alloc),
            set: BTreeSet::new(alloc),
        }
    }

    pub fn as_slice(&self) -> &[&'a [u8]]
        ensures { map (λ x. x.now) result.now ≡ self.now }
    {
        self.list.as_slice()
    }

    pub fn contains(&self, name: &[u8]) -> bool
        ensures { result ≡ list_any (bytes_eq name.now) self.now }
    {
        self.set.contains(name)
    }

    pub(crate) fn with(self, name: &'a [u8]) -> Result<Names<'a>, AllocError>
        ensures { IfOk result (λ n. n ≡ self.entry ++ name.now ∷ []) }
    {
        let Names { mut list, mut set } = self;
        list.push(name)?;
        set.insert(name)?;
        Ok(Names { list, set })
    }
}

/// Whether a name stands twice.
pub(crate) fn has_repeat(alloc: Global, names: &[&[u8]]) -> Result<bool, AllocError>
    ensures { IfOk result (λ b. b ≡ has_repeat_of [] (map (λ x. x.now) names.now)) }
{
    let mut before = Names::new(alloc);
    for name in names {
        if before.contains(name) {
            return Ok(true);
        }
        before = before.with(name)?;
    }
    Ok(false)
}
