// Command line: what holds of all settings.
ghost use Rattle.jl_words.specs.Laws.{ModulesHaveNames, TargetsHaveNames};

/// The module that a command takes has a name, which its file's path ends with.
pub fn modules_have_names()
    ensures { ModulesHaveNames }
{}

/// What the command `clear` takes away is named by names: a function with its module, and an entry
/// with its function.
pub fn targets_have_names()
    ensures { TargetsHaveNames }
{}
