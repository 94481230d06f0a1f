// From the words and the environment to a run.
ghost use Rattle.std.specs.Prelude.{◌≡◌, ◌≤◌, IfOk, IfErr, map, string_bytes};
ghost use Rattle.jl_text.specs.declared.limits.TheConstants.{MOST_PROCESSORS};
ghost use Rattle.joblib.specs.Tokens.{FirstGives, IsTokenOf};
ghost use Rattle.jl_cmd.specs.Promises.{IsSilent};
ghost use Rattle.joblib.specs.Starts.{PutsOutput, RunsOwn, RunsWords, TellsStatus, fault_status, fault_text};

use crate::real_folder::RealFolder;
use crate::real_host::{RealHost, moment_of};
use crate::token::{choose_token, given_token, own_words};
use jl_cmd::run;
use jl_lang::Lang;
use jl_streams::{Sink, Source, write_all};
use jl_text::Token;
use std::alloc::AllocError;
use std::env;
use std::env::{Env, VarError};
use std::fs::File;
use std::io::ErrorKind;
use std::rt::Files;
use std::time::Clock;

// Why nothing is run.
#[derive(Clone, Copy, Debug, PartialEq, Eq)]
enum StartFault {
    Usage,
    Memory,
}

impl StartFault {
    // The line on the standard error.
    #[tactic(auto, unfolding(jl_cmd::specs::Texts::error_line))]
    fn text(&self) -> &'static str
        ensures { result.now ≡ fault_text self.now }
    {
        match self {
            StartFault::Usage => "error: usage\n",
            StartFault::Memory => "error: out of memory\n",
        }
    }

    // The exit status.
    fn status(&self) -> u8
        ensures silent { IsSilent result }
        ensures exact { result ≡ fault_status self.now }
    {
        match self {
            StartFault::Usage => 2,
            StartFault::Memory => 8,
        }
    }
}

// The words behind the program's name. One that is not UTF-8 is wrong usage.
fn words_of<R: Env + AllocGlobal>(rt: &R) -> Result<Vec<String>, StartFault> {
    let mut args = match env::args(rt) {
        Ok(args) => args,
        Err(e) if e.kind() == ErrorKind::OutOfMemory => return Err(StartFault::Memory),
        Err(_) => return Err(StartFault::Usage),
    };
    let _name = args.next();
    let mut words = Vec::new(rt.alloc());
    for word in args {
        if words.push(word).is_err() {
            return Err(StartFault::Memory);
        }
    }
    Ok(words)
}

// What the environment gives as a token.
fn variable_of<R: Env + AllocGlobal>(rt: &R) -> Result<Option<String>, AllocError> {
    match env::var(rt, "JOBLIB_TOKEN") {
        Ok(text) => Ok(Some(text)),
        Err(VarError::OutOfMemory) => Err(AllocError),
        Err(_) => Ok(None),
    }
}

// The token that the first word gives.
fn first_token<R: AllocGlobal>(rt: &R, words: &[String]) -> Result<Option<Token>, AllocError>
    ensures { IfOk result (λ token. FirstGives (map string_bytes words.now) token) }
{
    match words.first() {
        Some(word) => given_token(rt.alloc(), word.as_str()),
        None => Ok(None),
    }
}

// The token of this run.
fn token_of<R: Env + Clock + AllocGlobal>(rt: &R, given: Option<Token>) -> Result<Token, AllocError>
    ensures { IfOk result (λ t. IsTokenOf given t) }
{
    let variable = variable_of(rt)?;
    let text = match &variable {
        Some(text) => Some(text.as_str()),
        None => None,
    };
    choose_token(rt.alloc(), given, text, moment_of(rt).unwrap_or(0))
}

// How a run ended, and the token that it had.
#[derive(Drop)]
struct Ending {
    status: u8,
    token: Token,
}

// Runs a run's own words over the system's files, with this token.
fn run_as<R, S, O, E>(
    rt: R,
    processors: u32,
    token: Token,
    words: &[String],
    input: &mut S,
    out: &mut O,
    err: &mut E,
) -> Result<Ending, AllocError>
where
    R: Files<File = File> + Env + Clock + AllocGlobal + Copy + Drop,
    S: Source,
    O: Sink,
    E: Sink,
    requires least { 1 ≤ processors }
    requires most { processors ≤ MOST_PROCESSORS }
    ensures token { IfOk result (λ r. r.token ≡ token) }
    ensures words { IfOk result (λ r. RunsOwn (map string_bytes words.now) processors
        (PutsOutput r.status (O.view out.old) (O.view out.new) (E.view err.old) (E.view err.new)) r.status) }
    ensures tells { IfOk result
        (λ r. TellsStatus r.status (O.view out.old) (O.view out.new) (E.view err.old) (E.view err.new)) }
    ensures not_run { IfErr result (λ e. (out.new ≡ out.old) × (err.new ≡ err.old)) }
{
    let twin = token.copy()?;
    let mut lib = Lang::new(rt.alloc());
    let mut folder = RealFolder::new(rt, twin);
    let mut host = RealHost::new(rt, processors, token);
    let status = run(
        rt.alloc(),
        words,
        &mut lib,
        &mut folder,
        input,
        out,
        err,
        &mut host,
    );
    let token = host.into_token();
    Ok(Ending { status, token })
}

// Chooses the token, and runs the words without the one that gave it.
fn run_words<R, S, O, E>(
    rt: R,
    processors: u32,
    words: &[String],
    input: &mut S,
    out: &mut O,
    err: &mut E,
) -> Result<Ending, AllocError>
where
    R: Files<File = File> + Env + Clock + AllocGlobal + Copy + Drop,
    S: Source,
    O: Sink,
    E: Sink,
    requires least { 1 ≤ processors }
    requires most { processors ≤ MOST_PROCESSORS }
    ensures words { IfOk result (λ r. RunsWords (map string_bytes words.now) processors r.token
        (PutsOutput r.status (O.view out.old) (O.view out.new) (E.view err.old) (E.view err.new)) r.status) }
    ensures tells { IfOk result
        (λ r. TellsStatus r.status (O.view out.old) (O.view out.new) (E.view err.old) (E.view err.new)) }
    ensures not_run { IfErr result (λ e. (out.new ≡ out.old) × (err.new ≡ err.old)) }
{
    let given = first_token(&rt, words)?;
    let own = own_words(words, given.is_some());
    let token = token_of(&rt, given)?;
    run_as(rt, processors, token, own, input, out, err)
}

/// Runs the program's own words. Answers the exit status.
pub fn start<R, S, O, E>(rt: R, processors: u32, input: &mut S, out: &mut O, err: &mut E) -> u8
where
    R: Files<File = File> + Env + Clock + AllocGlobal + Copy + Drop,
    S: Source,
    O: Sink,
    E: Sink,
    requires least { 1 ≤ processors }
    requires most { processors ≤ MOST_PROCESSORS }
    ensures { TellsStatus result (O.view out.old) (O.view out.new) (E.view err.old) (E.view err.new) }
{
    let fault = match words_of(&rt) {
        Ok(words) => match run_words(rt, processors, words.as_slice(), input, out, err) {
            Ok(ending) => return ending.status,
            Err(_) => StartFault::Memory,
        },
        Err(fault) => fault,
    };
    let _told = write_all(err, fault.text().as_bytes());
    fault.status()
}
