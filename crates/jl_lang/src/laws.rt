// Laws of what expressions and codes answer.
ghost use Rattle.std.specs.Prelude.{◌≡◌, ◌≤◌, ◌∷◌, ℕ, List, length, Some};
ghost use Rattle.jl_text.specs.declared.limits.TheConstants.{MOST_STEPS};
ghost use Rattle.jl_value.specs.Tree.{Tree, Items, list};
ghost use Rattle.jl_lexer.specs.Trees.{Expression, each, filtered};
ghost use Rattle.jl_operands.specs.Steps.{done};
ghost use Rattle.jl_builtins.specs.Operations.{items_length};
ghost use Rattle.jl_operands.specs.Lists.{source_of, LetsThrough};
ghost use Rattle.jl_value.specs.Key.{args_tree};
ghost use Rattle.jl_value.specs.Proper.{IsProper};
ghost use Rattle.jl_value.specs.Library.{IsWithin};
ghost use Rattle.jl_lang.specs.Meaning.{value_of, answer_of};

/// The count of steps never passes 16,777,216 at a value.
pub fn the_count_keeps_its_limit()
    ensures { (ps : List (List ℕ × Tree)) (e : Expression) (n m : ℕ) (v : Tree)
        → value_of ps e n ≡ done v m → m ≤ MOST_STEPS }
{}

/// A list by `for` has one member for each member that it goes over.
pub fn a_list_has_a_member_for_each()
    ensures { (ps : List (List ℕ × Tree)) (e a : Expression) (x : List ℕ) (n k m : ℕ) (v : Tree)
        (us : List Tree) (ts : Items)
        → value_of ps a n ≡ done v k → source_of v ≡ Some us
        → value_of ps (each e x a) n ≡ done (list ts) m → items_length ts ≡ length us }
{}

/// A list by `for` with a condition has as many members as its condition lets through.
pub fn a_list_has_what_its_condition_lets_through()
    ensures { (ps : List (List ℕ × Tree)) (e a c : Expression) (x : List ℕ) (n k m : ℕ) (v : Tree)
        (us : List Tree) (ts : Items)
        → value_of ps a n ≡ done v k → source_of v ≡ Some us
        → value_of ps (filtered e x a c) n ≡ done (list ts) m
        → LetsThrough (λ u j. value_of ((x, u) ∷ ps) c j) us (items_length ts) }
{}

/// A value that a code answers is within the limits.
pub fn answers_keep_the_limits()
    ensures { (c : List ℕ) (ps : List (List ℕ × Tree)) → IsProper (args_tree ps)
        → IsWithin (answer_of c ps) }
{}
