// Arguments, and the digest that names them.
ghost use Rattle.std.specs.Prelude.{◌≡◌, IfOk, OnOk, MatchResult};
ghost use Rattle.hex.specs.Hex.{encode_lower};
ghost use Rattle.md5.specs.Md5.{md5};
ghost use Rattle.jl_value.specs.Tree.{members_of};
ghost use Rattle.jl_value.specs.Form.{tree_of};
ghost use Rattle.jl_value.specs.Key.{args_tree, key_of};
ghost use Rattle.jl_value.specs.Proper.{IsProper};
ghost use Rattle.jl_value.specs.declared.value.Value.TheVariants.{Table as IsTable};

use crate::equal::same_table;
use crate::value::{Table, Value};
use crate::writing::canonical_table;
use md5::{Digest, Md5};
use std::alloc::{AllocError, Global};
use std::marker::Model;

/// Arguments: a table, whose members contracts see.
#[derive(Drop)]
pub struct Args {
    table: Table,
}

impl Model for Args {
    ghost use Rattle.std.specs.Prelude.{ℕ, List as Seq};
    ghost use Rattle.jl_value.specs.Tree.{Tree};
    ghost use Rattle.jl_value.specs.Codes.{coded_pairs};

    ghost Value = { Seq (Seq ℕ × Tree) };

    ghost coded = { coded_pairs };

    ghost view = { λ a. a.table };
}

impl Args {
    /// The arguments that a table is; another value is handed back.
    pub fn from_value(value: Value) -> Result<Args, Value>
        ensures { MatchResult result (λ a. value ≡ IsTable a)
            (λ back. (back ≡ value) × ((ps : _) → value ≡ IsTable ps → ⊥)) }
    {
        match value {
            Value::Table(table) => Ok(Args { table }),
            other => Err(other),
        }
    }

    pub fn value(&self) -> &Table
        ensures { result.now ≡ self.now }
    {
        &self.table
    }

    pub fn copy(&self, alloc: Global) -> Result<Args, AllocError>
        ensures { IfOk result (λ a. a ≡ self.now) }
    {
        Ok(Args {
            table: self.table.copy(alloc)?,
        })
    }
}

impl PartialEq for Args {
    ghost use Rattle.std.specs.Cmp.{on_per};
    ghost use Rattle.jl_value.specs.Key.{args_tree};
    ghost use Rattle.jl_value.specs.Same.{tree_eq};
    ghost use Rattle.jl_value.specs.Sameness.{tree_per};

    ghost eq = { λ a b. tree_eq (args_tree a) (args_tree b) };

    ghost laws = { on_per args_tree tree_per };

    fn eq(&self, other: &Args) -> bool {
        same_table(self.table.members(), other.table.members())
    }
}

/// The MD5 (RFC 1321) of the canonical text of arguments.
#[derive(Clone, Copy, Debug, PartialEq, Eq, Drop)]
pub struct Key(pub [u8; 16]);

/// The key of arguments.
pub fn digest(alloc: Global, args: &Args) -> Result<Key, AllocError>
    ensures key { IfOk result (λ k. k.0 ≡ key_of args.now) }
    ensures proper { OnOk result (IsProper (args_tree args.now)) }
{
    let text = canonical_table(alloc, args.value())?;
    Ok(Key::of_text(text.as_str()))
}

impl Key {
    /// The key of arguments whose canonical text this is.
    pub fn of_text(text: &str) -> Key
        ensures { result.0 ≡ md5 text.now }
    {
        let mut hasher = Md5::new();
        hasher.update(text.as_bytes());
        Key(hasher.finalize())
    }

    /// The hexadecimal digits of the key, in lower case.
    pub fn hex(&self, out: &mut [u8; 32])
        ensures { out.new ≡ encode_lower self.now.0 }
    {
        drop(hex::encode_to_slice(self.0.as_slice(), out));
    }
}
