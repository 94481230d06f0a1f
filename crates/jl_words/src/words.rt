// Command line: its words as a whole.
ghost use Rattle.std.specs.Prelude.{◌≡◌, ◌<◌, ◌≤◌, Some, None, Ok, Err, map, IfOk, string_bytes, option_and_then};
ghost use Rattle.jl_words.specs.Parts.{said_in};
ghost use Rattle.jl_words.specs.Reading.{said_by_words};
ghost use Rattle.jl_words.specs.Commands.{set_alone_by, set_by, options_of};
ghost use Rattle.jl_words.specs.Settings.{settings_of};

use crate::command::{Command, find_command, options};
use crate::commands::{call, clear, generate, hash, reduce_size, session};
use crate::parallel::parallel;
use crate::parts::Parts;
use crate::reader::read;
use crate::types::{Settings, SettingsFault};
use std::alloc::Global;

// A command that takes no plain words.
fn set_alone(
    alloc: Global,
    command: Command,
    parts: &Parts<'_>,
    cpus: u32,
) -> Result<Settings, SettingsFault>
    ensures given { IfOk result (λ s. set_alone_by command cpus (said_in parts.now) ≡ Some s) }
    ensures usage { result ≡ Err SettingsFault.Usage
        → set_alone_by command cpus (said_in parts.now) ≡ None }
{
    match command {
        Command::Parallel => parallel(alloc, parts, cpus),
        Command::Session => session(alloc, parts),
        Command::ReduceSize => reduce_size(alloc, parts),
        Command::Gen => generate(alloc, parts),
        Command::Worker => Ok(Settings::Worker),
        Command::Tracker => Ok(Settings::Tracker),
        Command::Call | Command::Hash | Command::Clear => Err(SettingsFault::Usage),
    }
}

fn set(
    alloc: Global,
    command: Command,
    parts: &Parts<'_>,
    cpus: u32,
) -> Result<Settings, SettingsFault>
    ensures given { IfOk result (λ s. set_by command cpus (said_in parts.now) ≡ Some s) }
    ensures usage { result ≡ Err SettingsFault.Usage
        → set_by command cpus (said_in parts.now) ≡ None }
{
    match command {
        Command::Call => call(alloc, parts),
        Command::Hash => hash(alloc, parts.plain.as_slice()),
        Command::Clear => clear(alloc, parts),
        Command::Parallel
        | Command::Session
        | Command::ReduceSize
        | Command::Gen
        | Command::Worker
        | Command::Tracker => {
            if !parts.plain.is_empty() {
                return Err(SettingsFault::Usage);
            }
            set_alone(alloc, command, parts, cpus)
        }
    }
}

fn command_settings(
    alloc: Global,
    command: Command,
    words: &[String],
    cpus: u32,
) -> Result<Settings, SettingsFault>
    ensures given { IfOk result (λ s. option_and_then (set_by command cpus)
        (said_by_words (options_of command) (map string_bytes words.now)) ≡ Some s) }
    ensures usage { result ≡ Err SettingsFault.Usage → option_and_then (set_by command cpus)
        (said_by_words (options_of command) (map string_bytes words.now)) ≡ None }
{
    let names = options(command);
    let parts = read(alloc, names, words)?;
    set(alloc, command, &parts, cpus)
}

/// Reads the words of a command line, without the program's own name, on a machine with `cpus`
/// processors.
pub fn settings(alloc: Global, words: &[String], cpus: u32) -> Result<Settings, SettingsFault>
    requires some_cpus { 0 < cpus }
    requires few_cpus { cpus ≤ 1024 }
    ensures given { IfOk result (λ s. settings_of (map string_bytes words.now) cpus ≡ Some s) }
    ensures usage { result ≡ Err SettingsFault.Usage
        → settings_of (map string_bytes words.now) cpus ≡ None }
{
    match words {
        [] => Err(SettingsFault::Usage),
        [first, rest @ ..] => match find_command(first.as_str()) {
            Some(command) => command_settings(alloc, command, rest, cpus),
            None => Err(SettingsFault::Usage),
        },
    }
}
