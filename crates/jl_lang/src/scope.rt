// The values of names: the arguments, and the variables of lists inside.
ghost use Rattle.std.specs.Prelude.{◌≡◌, Some, None, MatchOption};
ghost use Rattle.jl_value.specs.Form.{tree_of, entries_of};
ghost use Rattle.jl_lang.specs.Meaning.{argument as argument_of};
ghost use Rattle.jl_lang.specs.Scopes.{scope_of};

use jl_text::Text;
use jl_value::{Args, Value};

/// What names stand for.
#[derive(Drop)]
pub(crate) enum Scope<'a> {
    Arguments(&'a Args),
    Variable(&'a [u8], &'a Value, &'a Scope<'a>),
}

fn argument<'a>(members: &'a [(Text, Value)], name: &[u8]) -> Option<&'a Value>
    ensures { MatchOption result (argument_of name.now (entries_of members.now) ≡ None)
        (λ v. argument_of name.now (entries_of members.now) ≡ Some (tree_of v.now)) }
{
    for (key, value) in members {
        if name == key.as_str().as_bytes() {
            return Some(value);
        }
    }
    None
}

impl<'a> Scope<'a> {
    /// The value of a name.
    pub(crate) fn value(&self, name: &[u8]) -> Option<&Value>
        ensures { MatchOption result (argument_of name.now (scope_of self.now) ≡ None)
            (λ v. argument_of name.now (scope_of self.now) ≡ Some (tree_of v.now)) }
    {
        match self {
            Scope::Arguments(args) => argument(args.value().members(), name),
            Scope::Variable(variable, value, others) => {
                if name == *variable {
                    Some(value)
                } else {
                    others.value(name)
                }
            }
        }
    }
}
