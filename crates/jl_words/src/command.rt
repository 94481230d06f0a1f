// Command line: the commands and their options.
ghost use Rattle.std.specs.Prelude.{◌≡◌, [], ◌∷◌, map};
ghost use Rattle.jl_words.specs.declared.command.Command.TheVariants.{ReduceSize, Worker, Tracker, Gen};
ghost use Rattle.jl_words.specs.Commands.{command_by_word, command_among, options_of};

/// What the first word asks for.
#[derive(Clone, Copy, Drop)]
pub(crate) enum Command {
    Call,
    Hash,
    Parallel,
    Session,
    Clear,
    ReduceSize,
    Worker,
    Tracker,
    Gen,
}

fn later_command(word: &str) -> Option<Command>
    ensures { result ≡ command_among (ReduceSize ∷ Worker ∷ Tracker ∷ Gen ∷ []) word.now }
{
    if word == "reduce-size" {
        return Some(Command::ReduceSize);
    }
    if word == "worker" {
        return Some(Command::Worker);
    }
    if word == "tracker" {
        return Some(Command::Tracker);
    }
    if word == "gen" {
        return Some(Command::Gen);
    }
    None
}

/// The command of a word.
pub(crate) fn find_command(word: &str) -> Option<Command>
    ensures { result ≡ command_by_word word.now }
{
    if word == "call" {
        return Some(Command::Call);
    }
    if word == "hash" {
        return Some(Command::Hash);
    }
    if word == "parallel" {
        return Some(Command::Parallel);
    }
    if word == "session" {
        return Some(Command::Session);
    }
    if word == "clear" {
        return Some(Command::Clear);
    }
    later_command(word)
}

/// The names of a command's options.
pub(crate) fn options(command: Command) -> &'static [&'static str]
    ensures { map (λ n. n.now) result.now ≡ options_of command }
{
    match command {
        Command::Call | Command::Session => &["module", "location"],
        Command::Hash | Command::Worker | Command::Tracker => &[],
        Command::Parallel => &[
            "module",
            "location",
            "n-jobs",
            "backend",
            "pre-dispatch",
            "batch-size",
            "return-as",
            "max-nbytes",
            "temp-folder",
        ],
        Command::Clear => &["location"],
        Command::ReduceSize => &["location", "bytes-limit", "items-limit", "age-limit"],
        Command::Gen => &["location", "from", "count"],
    }
}
