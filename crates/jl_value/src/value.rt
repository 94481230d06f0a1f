// Values, their lists, tables and arrays.
ghost use Rattle.std.specs.Prelude.{◌≡◌, ◌↔◌, IsTrue, IfOk, MatchResult, map};
ghost use Rattle.jl_value.specs.Form.{trees_of, entries_of, keys_in};
ghost use Rattle.jl_value.specs.Proper.{AreKeys};

use jl_text::Text;
use std::alloc::{AllocError, Global};
use std::marker::Model;

/// A value: JSON whose numbers are signed 64-bit whole numbers, and arrays of such numbers beside
/// it.
#[cycle(value)]
#[derive(Drop)]
pub enum Value {
    Null,
    Truth(bool),
    Whole(i64),
    Text(Text),
    List(List),
    Table(Table),
    Numbers(Numbers),
}

/// An array of whole numbers, whose text is `{"$i64":[..]}`.
#[derive(Drop)]
pub struct Numbers {
    inner: Vec<i64>,
}

impl Model for Numbers {
    ghost use Rattle.std.specs.Prelude.{ℤ, List as Seq};

    ghost Value = { Seq ℤ };

    ghost view = { λ n. n.inner.items };
}

/// A list of values.
#[cycle(value)]
#[derive(Drop)]
pub struct List {
    inner: Vec<Value>,
}

impl Model for List {
    ghost use Rattle.std.specs.Prelude.{List as Seq};
    ghost use Rattle.jl_value.specs.Tree.{Tree, items_height, items_of};
    ghost use Rattle.jl_value.specs.Codes.{coded_trees};

    ghost Value = { Seq Tree };

    ghost coded = { coded_trees };

    ghost use Rattle.jl_value.specs.Form.{trees_of};

    ghost view = { λ l. trees_of l.inner.items };

    ghost size = { λ ts. items_height (items_of ts) };

    ghost use Rattle.std.proofs.Common.{arith};
    ghost use Rattle.jl_value.specs.Falls.{most_trees};

    ghost size_decreases = { λ a h. omega (arith, most_trees a.inner.items) };
}

/// Keys and values: the keys stand in strict byte order, and none is `$i64`.
#[cycle(value)]
#[derive(Drop)]
pub struct Table {
    inner: Vec<(Text, Value)>,
}

impl Model for Table {
    ghost use Rattle.std.specs.Prelude.{ℕ, List as Seq};
    ghost use Rattle.jl_value.specs.Tree.{Tree, members_height, members_of};
    ghost use Rattle.jl_value.specs.Codes.{coded_pairs};

    ghost Value = { Seq (Seq ℕ × Tree) };

    ghost coded = { coded_pairs };

    ghost use Rattle.jl_value.specs.Form.{entries_of};

    ghost view = { λ t. entries_of t.inner.items };

    ghost use Rattle.jl_value.specs.Form.{keys_in};
    ghost use Rattle.jl_value.specs.Proper.{AreKeys};

    ghost invariant = { λ t. AreKeys (keys_in t.inner.items) };

    ghost size = { λ ms. members_height (members_of ms) };

    ghost use Rattle.std.proofs.Common.{arith};
    ghost use Rattle.jl_value.specs.Falls.{most_entries};

    ghost size_decreases = { λ a h. omega (arith, most_entries a.inner.items) };
}

impl List {
    pub fn new(members: Vec<Value>) -> List
        ensures { result ≡ trees_of members.items }
    {
        List { inner: members }
    }

    pub fn as_slice(&self) -> &[Value]
        ensures { trees_of result.now ≡ self.now }
    {
        self.inner.as_slice()
    }

    pub fn into_vec(self) -> Vec<Value>
        ensures { trees_of result.items ≡ self }
    {
        self.inner
    }

    #[cycle(copy)]
    pub fn copy(&self, alloc: Global) -> Result<List, AllocError>
        ensures { IfOk result (λ l. l ≡ self.now) }
    {
        let mut copies = Vec::new(alloc);
        for member in &self.inner {
            copies.push(member.copy(alloc)?)?;
        }
        Ok(List { inner: copies })
    }
}

impl Value {
    #[cycle(copy)]
    pub fn copy(&self, alloc: Global) -> Result<Value, AllocError>
        ensures { IfOk result (λ v. v ≡ self.now) }
    {
        match self {
            Value::Null => Ok(Value::Null),
            Value::Truth(b) => Ok(Value::Truth(*b)),
            Value::Whole(n) => Ok(Value::Whole(*n)),
            Value::Text(text) => Ok(Value::Text(text.copy()?)),
            Value::List(list) => Ok(Value::List(list.copy(alloc)?)),
            Value::Table(table) => Ok(Value::Table(table.copy(alloc)?)),
            Value::Numbers(numbers) => Ok(Value::Numbers(numbers.copy(alloc)?)),
        }
    }
}

impl Numbers {
    pub fn new(inner: Vec<i64>) -> Numbers
        ensures { result ≡ inner.items }
    {
        Numbers { inner }
    }

    pub fn as_slice(&self) -> &[i64]
        ensures { result.now ≡ self.now }
    {
        self.inner.as_slice()
    }

    pub fn into_vec(self) -> Vec<i64>
        ensures { result.items ≡ self }
    {
        self.inner
    }

    pub fn copy(&self, alloc: Global) -> Result<Numbers, AllocError>
        ensures { IfOk result (λ n. n ≡ self.now) }
    {
        Ok(Numbers {
            inner: Vec::from_slice(alloc, self.inner.as_slice())?,
        })
    }
}

// Whether the keys are in strict byte order and none is `$i64`.
fn are_keys(members: &[(Text, Value)]) -> bool
    ensures { IsTrue result ↔ AreKeys (keys_in members.now) }
{
    let mut i = members.len();
    while i > 0 {
        i -= 1;
        let key = members[i].0.as_str();
        if key == "$i64" {
            return false;
        }
        if i + 1 < members.len() {
            let next = members[i + 1].0.as_str();
            if key >= next {
                return false;
            }
        }
    }
    true
}

impl Table {
    /// The members are handed back where their keys aren't those of a table.
    pub fn new(members: Vec<(Text, Value)>) -> Result<Table, Vec<(Text, Value)>>
        ensures { MatchResult result
            (λ t. (t ≡ entries_of members.items) × AreKeys (keys_in members.items))
            (λ back. (back ≡ members) × (¬ AreKeys (keys_in members.items))) }
    {
        if are_keys(members.as_slice()) {
            Ok(Table { inner: members })
        } else {
            Err(members)
        }
    }

    pub(crate) fn from_sorted(members: Vec<(Text, Value)>) -> Table
        requires { AreKeys (keys_in members.items) }
        ensures { result ≡ entries_of members.items }
    {
        Table { inner: members }
    }

    pub fn members(&self) -> &[(Text, Value)]
        ensures members { entries_of result.now ≡ self.now }
        ensures keys { AreKeys (keys_in result.now) }
    {
        self.inner.as_slice()
    }

    pub fn into_vec(self) -> Vec<(Text, Value)>
        ensures { entries_of result.items ≡ self }
    {
        self.inner
    }

    #[cycle(copy)]
    pub fn copy(&self, alloc: Global) -> Result<Table, AllocError>
        ensures { IfOk result (λ t. t ≡ self.now) }
    {
        let mut copies = Vec::new(alloc);
        for (key, member) in &self.inner {
            copies.push((key.copy()?, member.copy(alloc)?))?;
        }
        Ok(Table { inner: copies })
    }
}
