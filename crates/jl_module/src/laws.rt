// Laws of the lines of a module.
ghost use Rattle.std.specs.Prelude.{◌≡◌, ℕ, List, Some, None};
ghost use Rattle.jl_lexer.specs.Trees.{Expression};
ghost use Rattle.jl_value.specs.declared.library.ModuleFaultKind.TheVariants.{BadLine, TooDeep};
ghost use Rattle.jl_value.specs.Lines.{IsLine};
ghost use Rattle.jl_module.specs.Headings.{Heading, with_body, judged, bad, definition_in};
ghost use Rattle.jl_module.specs.Refusals.{IsDeepLine, IsBadLine};
ghost use Rattle.jl_module.specs.Modules.{fault_of, code_in, Defines};
ghost use Rattle.jl_grammar.specs.Grammar.{Writes};
ghost use Rattle.jl_grammar.specs.Parser.{read_signs};

/// A line of the grammar is judged by its tree.
pub fn a_line_is_judged_by_its_tree()
    ensures { (h : Heading) (e : Expression) → Writes h.body e
        → with_body h (read_signs h.body) ≡ judged h e }
{}

/// In a module without a fault the code of a name is a definition of that name, whatever stands on
/// the other lines: what is read of the code alone is what the module defines.
pub fn a_code_defines_its_name()
    ensures { (module_bytes name code : List ℕ) → fault_of module_bytes ≡ None
        → code_in module_bytes name ≡ Some code → Defines code name }
{}

/// The code of a name is one line, since a module is cut at its newlines.
pub fn a_code_is_one_line()
    ensures { (module_bytes name code : List ℕ) → code_in module_bytes name ≡ Some code
        → IsLine code }
{}

/// A line is too deep only where its expression opens more than 128 brackets or its tree is higher
/// than 128.
pub fn a_line_is_too_deep_for_its_brackets_or_its_tree()
    ensures { (line : List ℕ) → definition_in line ≡ bad TooDeep → IsDeepLine line }
{}

/// A line is bad only where it has no heading, or where its expression breaks off, with never more
/// than 128 brackets open before that.
pub fn a_bad_line_breaks_off()
    ensures { (line : List ℕ) → definition_in line ≡ bad BadLine → IsBadLine line }
{}
