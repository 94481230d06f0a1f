// The lines that the tracker is sent.
ghost use Rattle.std.specs.Prelude.{◌≡◌, ◌≢◌, MatchOption, MatchResult, IfOk, codes};
ghost use Rattle.std.specs.Str.{bytes_eq};
ghost use Rattle.jl_tracker.specs.TrackerLines.{LineView, IsTrackerLine, IsNameOfKind, Says, command_word, is_named, said_of, view_of, word_of};

use crate::parts::{Parts, parts_of};
use crate::paths::is_path_text;
use std::str;
use thiserror::Error;

/// What a resource is.
#[derive(Clone, Copy, Debug, PartialEq, Eq)]
pub enum Kind {
    File,
    Folder,
    Semlock,
}

/// A line of the tracker, after loky's resource tracker.
#[derive(Clone, Copy, Debug)]
pub enum Line<'a> {
    /// One reference more.
    Register(Kind, &'a str),
    /// No reference is left, and the resource stays.
    Unregister(Kind, &'a str),
    /// One reference fewer; at none the resource is to be removed.
    MaybeUnlink(Kind, &'a str),
    /// Asks whether the tracker is there.
    Probe,
}

/// Bytes that are no line of the tracker.
#[derive(Clone, Copy, Debug, PartialEq, Eq, Error)]
#[error("not a tracker line")]
pub struct BadLine;

// A command that speaks of a resource.
#[derive(Clone, Copy)]
pub enum Command {
    Register,
    Unregister,
    MaybeUnlink,
}

// A resource by its kind and its name.
#[derive(Clone, Copy)]
struct Resource<'a> {
    kind: Kind,
    name: &'a str,
}

fn is_probe(word: &[u8]) -> bool
    ensures { result ≡ bytes_eq word.now (codes "PROBE") }
{
    word == b"PROBE".as_slice()
}

fn command_of(word: &[u8]) -> Option<Command>
    ensures { MatchOption result ((command : Command) → word.now ≢ command_word command)
        (λ command. word.now ≡ command_word command) }
{
    if word == b"REGISTER".as_slice() {
        return Some(Command::Register);
    }
    if word == b"UNREGISTER".as_slice() {
        return Some(Command::Unregister);
    }
    if word == b"MAYBE_UNLINK".as_slice() {
        return Some(Command::MaybeUnlink);
    }
    None
}

fn kind_of(word: &[u8]) -> Option<Kind>
    ensures { MatchOption result ((kind : Kind) → word.now ≢ word_of kind)
        (λ kind. word.now ≡ word_of kind) }
{
    if word == b"file".as_slice() {
        return Some(Kind::File);
    }
    if word == b"folder".as_slice() {
        return Some(Kind::Folder);
    }
    if word == b"semlock".as_slice() {
        return Some(Kind::Semlock);
    }
    None
}

fn is_named(kind: Kind, name: &str) -> bool
    ensures { result ≡ is_named kind name.now }
{
    match kind {
        Kind::File => is_path_text(name),
        Kind::Folder => is_path_text(name),
        Kind::Semlock => !name.is_empty(),
    }
}

fn name_of(kind: Kind, name: &[u8]) -> Option<&str>
    ensures { MatchOption result (¬ (IsNameOfKind kind name.now))
        (λ text. (text.now ≡ name.now) × IsNameOfKind kind name.now) }
{
    match str::from_utf8(name) {
        Ok(text) => {
            if is_named(kind, text) {
                Some(text)
            } else {
                None
            }
        }
        Err(_) => None,
    }
}

fn resource_of<'a>(word: &[u8], name: &'a [u8]) -> Option<Resource<'a>>
    ensures { MatchOption result
        ((kind : Kind) → word.now ≡ word_of kind → ¬ (IsNameOfKind kind name.now))
        (λ n. (word.now ≡ word_of n.kind) × (n.name.now ≡ name.now) × IsNameOfKind n.kind name.now) }
{
    let Some(kind) = kind_of(word) else {
        return None;
    };
    match name_of(kind, name) {
        Some(name) => Some(Resource { kind, name }),
        None => None,
    }
}

fn line_of<'a>(command: Command, resource: Resource<'a>) -> Line<'a>
    ensures { view_of result ≡ said_of command resource.entry.kind resource.entry.name.now }
{
    match command {
        Command::Register => Line::Register(resource.kind, resource.name),
        Command::Unregister => Line::Unregister(resource.kind, resource.name),
        Command::MaybeUnlink => Line::MaybeUnlink(resource.kind, resource.name),
    }
}

fn read_parts(parts: Parts<'_>) -> Result<Line<'_>, BadLine>
    ensures { let command = parts.entry.command.now in
        let name = parts.entry.name.now in
        let kind = parts.entry.kind.now in
        MatchResult result (λ line. Says command name kind (view_of line))
        (λ e. (said : LineView) → ¬ (Says command name kind said)) }
{
    if is_probe(parts.command) {
        return Ok(Line::Probe);
    }
    let Some(command) = command_of(parts.command) else {
        return Err(BadLine);
    };
    match resource_of(parts.kind, parts.name) {
        Some(resource) => Ok(line_of(command, resource)),
        None => Err(BadLine),
    }
}

/// The line that the bytes are. Blanks at both ends are dropped. Takes no memory.
pub fn read_line(bytes: &[u8]) -> Result<Line<'_>, BadLine>
    ensures read { MatchResult result (λ line. IsTrackerLine bytes.now (view_of line))
        (λ e. (said : LineView) → ¬ (IsTrackerLine bytes.now said)) }
    ensures only { (said : LineView)
        → IsTrackerLine bytes.now said
        → IfOk result (λ line. view_of line ≡ said) }
{
    match parts_of(bytes) {
        Some(parts) => read_parts(parts),
        None => Err(BadLine),
    }
}
