// Command line: what the words of a command say.
ghost use Rattle.std.specs.Prelude.{◌≡◌, option_map};
ghost use Rattle.jl_words.specs.Reading.{value_among};
ghost use Rattle.jl_words.specs.Parts.{uses_of, said_in};

/// An option and its value.
#[derive(Clone, Copy, Drop)]
pub(crate) struct Given<'a> {
    pub(crate) name: &'a str,
    pub(crate) value: &'a str,
}

/// The options of a command with their values, and its plain words.
#[derive(Drop)]
pub(crate) struct Parts<'a> {
    pub(crate) given: Vec<Given<'a>>,
    pub(crate) plain: Vec<&'a str>,
}

fn value_among<'a>(given: &[Given<'a>], name: &str) -> Option<&'a str>
    ensures { option_map (λ v. v.now) result ≡ value_among (uses_of given.now) name.now }
{
    let mut rest = given;
    while let [option, after @ ..] = rest {
        if option.name == name {
            return Some(option.value);
        }
        rest = after;
    }
    None
}

impl<'a> Parts<'a> {
    /// The value that an option is given.
    pub(crate) fn value(&self, name: &str) -> Option<&'a str>
        ensures { option_map (λ v. v.now) result ≡ (said_in self.now).value name.now }
    {
        value_among(self.given.as_slice(), name)
    }
}
