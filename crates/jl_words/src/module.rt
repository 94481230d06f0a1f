// Command line: the name of a module's file.
ghost use Rattle.std.specs.Prelude.{◌≡◌, option_map};
ghost use Rattle.jl_words.specs.ModuleNames.{stem_of, name_of, module_name_of};

use jl_text::{Path, is_name};

fn stem(part: &str) -> Option<&str>
    ensures { option_map (λ text. text.now) result ≡ stem_of part.now }
{
    part.strip_suffix(".def")
}

fn named(text: &str) -> Option<&str>
    ensures { option_map (λ name. name.now) result ≡ name_of text.now }
{
    if is_name(text) { Some(text) } else { None }
}

/// The name of the module whose file has this path: the last part without `.def`. None where the
/// part does not end so, or what is left is no name.
pub fn module_name(path: &Path) -> Option<&str>
    ensures { option_map (λ name. name.now) result ≡ module_name_of path.now }
{
    named(stem(path.last()?)?)
}
