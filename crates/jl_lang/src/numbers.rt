// Arithmetic on whole numbers alone, whose results are kept as numbers.
ghost use Rattle.std.specs.Prelude.{◌≡◌, IfSome};
ghost use Rattle.jl_value.specs.Tree.{whole};
ghost use Rattle.jl_lexer.specs.Words.{constant_of};
ghost use Rattle.jl_lexer.specs.Trees.{between as between_tree};
ghost use Rattle.jl_operands.specs.Steps.{done, counted};
ghost use Rattle.jl_lang.specs.Meaning.{argument as argument_of, named as named_of, word_value as word_value_of, value_of};
ghost use Rattle.jl_lang.specs.Scopes.{scope_of};

use crate::scope::Scope;
use jl_builtins::operate_wholes;
use jl_lexer::{Node, Operator, Tree, Word};
use jl_operands::Steps;
use jl_value::Value;

/// A whole number and the count of steps so far.
#[derive(Drop, Clone, Copy)]
pub(crate) struct Numbered {
    pub(crate) number: i64,
    pub(crate) steps: Steps,
}

fn count_number(number: i64, steps: Steps) -> Option<Numbered>
    ensures { IfSome result (λ n. counted steps (whole number) ≡ done (whole n.number) n.steps) }
{
    match steps.checked_add(1) {
        Some(steps) => Some(Numbered { number, steps }),
        None => None,
    }
}

fn argument_number(scope: &Scope, name: &[u8], steps: Steps) -> Option<Numbered>
    ensures { IfSome result (λ n. named_of steps (argument_of name.now (scope_of scope.now))
        ≡ done (whole n.number) n.steps) }
{
    match scope.value(name) {
        Some(Value::Whole(number)) => count_number(*number, steps),
        _ => None,
    }
}

fn word_number(scope: &Scope, word: &Word, steps: Steps) -> Option<Numbered>
    ensures { IfSome result
        (λ n. word_value_of (scope_of scope.now) word.now (constant_of word.now) steps
        ≡ done (whole n.number) n.steps) }
{
    match word.value() {
        Some(Value::Whole(number)) => count_number(*number, steps),
        Some(_) => None,
        None => argument_number(scope, word.bytes(), steps),
    }
}

#[cycle(evaluate_number)]
fn number_between(
    scope: &Scope,
    operator: Operator,
    left: &Tree,
    right: &Tree,
    steps: Steps,
) -> Option<Numbered>
    ensures { IfSome result
        (λ n. value_of (scope_of scope.now) (between_tree operator left.now right.now) steps
        ≡ done (whole n.number) n.steps) }
{
    let Some(left) = evaluate_number(scope, left, steps) else {
        return None;
    };
    let Some(right) = evaluate_number(scope, right, left.steps) else {
        return None;
    };
    match operate_wholes(operator, left.number, right.number) {
        Some(number) => count_number(number, right.steps),
        None => None,
    }
}

/// The whole number that an expression of words and operators comes to behind a count of steps. Tells
/// nothing of any other expression, and nothing where there is an error.
#[cycle(evaluate_number)]
pub(crate) fn evaluate_number(scope: &Scope, tree: &Tree, steps: Steps) -> Option<Numbered>
    ensures { IfSome result
        (λ n. value_of (scope_of scope.now) tree.now steps ≡ done (whole n.number) n.steps) }
{
    match tree.node() {
        Node::Leaf(word) => word_number(scope, word, steps),
        Node::Bracketed(inner) => evaluate_number(scope, inner, steps),
        Node::Between(operator, left, right) => {
            number_between(scope, *operator, left, right, steps)
        }
        _ => None,
    }
}
