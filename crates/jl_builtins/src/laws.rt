// Laws of the operations on values.
ghost use Rattle.std.specs.Prelude.{◌≡◌, ◌≢◌, ℕ, List, Some, Ok};
ghost use Rattle.jl_value.specs.Tree.{Tree, members_of};
ghost use Rattle.jl_operands.specs.Lists.{with_entry};
ghost use Rattle.jl_builtins.specs.Operations.{member_of};

/// Of two equal keys of a table the later stands, and the others keep their values.
pub fn the_later_key_stands()
    ensures stands { (k : List ℕ) (v : Tree) (kvs : List (List ℕ × Tree))
        → member_of k (members_of (with_entry (Some k) v kvs)) ≡ Ok v }
    ensures others { (k l : List ℕ) (v : Tree) (kvs : List (List ℕ × Tree)) → l ≢ k
        → member_of l (members_of (with_entry (Some k) v kvs)) ≡ member_of l (members_of kvs) }
{}
