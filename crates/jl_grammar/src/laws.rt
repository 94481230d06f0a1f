ghost use Rattle.std.specs.Prelude.{◌≡◌, ◌≢◌, ◌≤◌, List, ℕ};
ghost use Rattle.jl_text.specs.declared.limits.TheConstants.{MOST_BRACKETS};
ghost use Rattle.jl_lexer.specs.Trees.{Expression};
ghost use Rattle.jl_grammar.specs.Grammar.{Writes, brackets};
ghost use Rattle.jl_grammar.specs.Parser.{read_signs, read, broken, nested_deep};
ghost use Rattle.jl_grammar.specs.Fronts.{Deepens, Breaks};

/// Signs write one expression at most.
pub fn signs_write_one_expression()
    ensures { (ws : List (List ℕ)) (a b : Expression) → Writes ws a → Writes ws b → a ≡ b }
{}

/// What is read from signs is an expression that they write.
pub fn what_is_read_is_written()
    ensures { (ws : List (List ℕ)) (e : Expression) → read_signs ws ≡ read e → Writes ws e }
{}

/// An expression that signs write, with at most 128 brackets nested, is read from them.
pub fn what_is_written_is_read()
    ensures { (ws : List (List ℕ)) (e : Expression) → Writes ws e → brackets e ≤ MOST_BRACKETS → read_signs ws ≡ read e }
{}

/// Only signs that no expression writes are broken.
pub fn what_is_written_is_not_broken()
    ensures { (ws : List (List ℕ)) (e : Expression) → Writes ws e → read_signs ws ≢ broken }
{}

/// Signs are told to nest too deep only where more than 128 brackets are open among them.
pub fn what_is_too_deep_opens_too_many()
    ensures { (ws : List (List ℕ)) → read_signs ws ≡ nested_deep → Deepens ws }
{}

/// Signs are told to be broken only where they break off, with never more than 128 brackets open
/// before that.
pub fn what_is_broken_breaks_off()
    ensures { (ws : List (List ℕ)) → read_signs ws ≡ broken → Breaks ws }
{}
