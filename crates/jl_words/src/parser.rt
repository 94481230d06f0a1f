// Command line: reading words with clap.
ghost use Rattle.std.specs.Prelude.{◌≡◌, ℕ, List, [], ◌++◌, cond, unwrap_or, OnOk, Some, None, Ok, Err, map, option_map, IfOk, IfErr, string_bytes, false};
ghost use Rattle.clap.specs.Words.{app_of, rule_of, kind_of, with_rule, first_value, found_of};
ghost use Rattle.clap.specs.declared.error.kind.ErrorKind.TheVariants as kind;
ghost use Rattle.jl_words.specs.declared.types.SettingsFault.TheVariants.{Memory};
ghost use Rattle.jl_words.specs.Parts.{uses_of, said_in};
ghost use Rattle.jl_words.specs.Reading.{Said, said_by_words, value_among};
ghost use Rattle.jl_words.specs.Parsing.{plain_rule, option_rule, app_with, has_option, IsFree, FoundAsSaid, HasOnlyOptions, plain_found, use_from};

use crate::parts::{Given, Parts};
use crate::types::SettingsFault;
use clap::error::ErrorKind;
use clap::{Arg, ArgAction, ArgMatches, Command, Error};
use std::alloc::{AllocError, Global};

fn option_argument<'a>(alloc: Global, name: &'a str) -> Arg<'a>
    ensures rule { rule_of result ≡ option_rule name.entry.now }
    ensures local { result.global ≡ false }
{
    Arg::new(alloc, name).long(name).action(ArgAction::Set)
}

fn plain_argument<'a>(alloc: Global) -> Arg<'a>
    ensures rule { rule_of result ≡ plain_rule }
    ensures local { result.global ≡ false }
{
    Arg::new(alloc, "WORDS").action(ArgAction::Append)
}

fn bare_command<'a>(alloc: Global) -> Result<Command<'a>, AllocError>
    ensures { IfOk result (λ c. app_of c ≡ app_with []) }
{
    Command::new(alloc, "joblib")
        .no_binary_name(true)
        .disable_help_flag(true)
        .arg(plain_argument(alloc))
}

fn with_option<'a>(
    alloc: Global,
    command: Command<'a>,
    name: &'a str,
) -> Result<Command<'a>, AllocError>
    ensures { IfOk result
        (λ c. app_of c ≡ with_rule (app_of command.entry) (option_rule name.entry.now)) }
{
    command.arg(option_argument(alloc, name))
}

// The command with options of these names.
fn command<'a>(alloc: Global, names: &'a [&'a str]) -> Result<Command<'a>, AllocError>
    ensures { IfOk result (λ c. app_of c ≡ app_with (map (λ n. n.now) names.entry.now)) }
{
    let mut command = bare_command(alloc)?;
    for name in names {
        command = with_option(alloc, command, name)?;
    }
    Ok(command)
}

fn fault(error: &Error) -> SettingsFault
    ensures { kind_of error.now ≡ kind.OutOfMemory → result ≡ Memory }
{
    match error.kind() {
        ErrorKind::OutOfMemory => SettingsFault::Memory,
        _ => SettingsFault::Usage,
    }
}

/// What clap finds in words that the walk takes.
pub(crate) fn matches<'a>(
    alloc: Global,
    names: &'a [&'a str],
    words: &'a [String],
) -> Result<ArgMatches<'a>, SettingsFault>
    requires free { IsFree (map (λ n. n.now) names.now) }
    ensures found { IfOk result
        (λ m. (s : Said)
        → said_by_words (map (λ n. n.now) names.entry.now) (map string_bytes words.entry.now) ≡ Some s
        → FoundAsSaid (map (λ n. n.now) names.entry.now) m s) }
    ensures fault { IfErr result (λ e. (s : Said) → said_by_words (map (λ n. n.now) names.entry.now)
        (map string_bytes words.entry.now) ≡ Some s → e ≡ Memory) }
{
    let command = match command(alloc, names) {
        Ok(command) => command,
        Err(_) => return Err(SettingsFault::Memory),
    };
    match command.try_get_matches_from(words) {
        Ok(matches) => Ok(matches),
        Err(error) => Err(fault(&error)),
    }
}

fn give_found<'a>(
    given: &mut Vec<Given<'a>>,
    name: &'a str,
    matches: &ArgMatches<'a>,
) -> Result<(), AllocError>
    ensures { OnOk result (uses_of given.new.items ≡ uses_of given.old.items
        ++ use_from name.entry.now (first_value (found_of matches.now) name.entry.now)) }
{
    match matches.get_str(name) {
        Some(value) => {
            given.push(Given { name, value })?;
            Ok(())
        }
        None => Ok(()),
    }
}

// The options that clap found, each with its value.
fn given<'a>(
    alloc: Global,
    names: &[&'a str],
    matches: &ArgMatches<'a>,
) -> Result<Vec<Given<'a>>, AllocError>
    ensures { IfOk result
        (λ v. (n : List ℕ)
        → value_among (uses_of v.items) n
        ≡ cond (has_option n (map (λ m. m.now) names.now))
        (first_value (found_of matches.now) n) None) }
{
    let mut given = Vec::new(alloc);
    for name in names {
        give_found(&mut given, name, matches)?;
    }
    Ok(given)
}

// The plain words that clap found.
fn plain<'a>(alloc: Global, matches: &ArgMatches<'a>) -> Result<Vec<&'a str>, AllocError>
    ensures { IfOk result (λ v. map (λ w. w.now) v.items ≡ unwrap_or (plain_found matches.now) []) }
{
    match matches.get_strs("WORDS") {
        Some(words) => Vec::from_slice(alloc, words),
        None => Ok(Vec::new(alloc)),
    }
}

/// What clap found.
pub(crate) fn gathered<'a>(
    alloc: Global,
    names: &[&'a str],
    matches: &ArgMatches<'a>,
) -> Result<Parts<'a>, AllocError>
    ensures { IfOk result (λ p. (s : Said) → FoundAsSaid (map (λ n. n.now) names.now) matches.now s
        → HasOnlyOptions (map (λ n. n.now) names.now) s → said_in p ≡ s) }
{
    let given = given(alloc.clone()?, names, matches)?;
    let plain = plain(alloc, matches)?;
    Ok(Parts { given, plain })
}
