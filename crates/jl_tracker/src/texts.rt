// What the tracker writes.
ghost use Rattle.std.specs.Prelude.{◌≡◌, ◌∷◌, [], IfOk, string_bytes, codes, MatchResult};
ghost use Rattle.jl_streams.specs.Views.{SinkKeeps};
ghost use Rattle.jl_tracker.specs.TrackerLines.{word_of};
ghost use Rattle.jl_tracker.specs.Effects.{about as about_lem, bad_text};
ghost use Rattle.jl_tracker.specs.Plays.{Wrote};
ghost use Rattle.jl_tracker.specs.Stages.{sink_point};

use crate::line::Kind;
use jl_streams::{Sink, WroteAll, write_all};
use std::alloc::{AllocError, Global};

fn word_of(kind: Kind) -> &'static str
    ensures { result.now ≡ word_of kind }
{
    match kind {
        Kind::File => "file",
        Kind::Folder => "folder",
        Kind::Semlock => "semlock",
    }
}

fn about(alloc: Global, what: &str, kind: Kind, name: &str) -> Result<String, AllocError>
    ensures { IfOk result (λ t. string_bytes t ≡ about_lem what.now kind name.now) }
{
    let kind = word_of(kind);
    format!(in alloc; "tracker: {what} {kind} {name}\n")
}

fn about_bad(alloc: Global, number: u64) -> Result<String, AllocError>
    ensures { IfOk result (λ t. string_bytes t ≡ bad_text number) }
{
    format!(in alloc; "tracker: bad line {number}\n")
}

// Writes a text. A write that fails is not told.
fn put<E: Sink>(err: &mut E, text: &str)
    ensures wrote { (E.view err.old).told
        → Wrote text.now (sink_point (E.view err.old)) (sink_point (E.view err.new)) }
    ensures frame { SinkKeeps (E.view err.old) (E.view err.new) }
{
    match write_all(err, text.as_bytes()) {
        WroteAll::Done => {}
        WroteAll::Fault => {}
    }
}

/// Writes a text about a resource.
pub fn say<E: Sink>(
    alloc: Global,
    err: &mut E,
    what: &str,
    kind: Kind,
    name: &str,
) -> Result<(), AllocError>
    ensures wrote { MatchResult result (λ done. (E.view err.old).told
        → Wrote (about_lem what.now kind name.now) (sink_point (E.view err.old))
        (sink_point (E.view err.new))) (λ e. err.new ≡ err.old) }
    ensures frame { SinkKeeps (E.view err.old) (E.view err.new) }
{
    let text = about(alloc, what, kind, name)?;
    put(err, text.as_str());
    Ok(())
}

/// Writes the text about a bad line.
pub fn say_bad<E: Sink>(alloc: Global, err: &mut E, number: u64) -> Result<(), AllocError>
    ensures wrote { MatchResult result (λ done. (E.view err.old).told
        → Wrote (bad_text number) (sink_point (E.view err.old)) (sink_point (E.view err.new)))
        (λ e. err.new ≡ err.old) }
    ensures frame { SinkKeeps (E.view err.old) (E.view err.new) }
{
    let text = about_bad(alloc, number)?;
    put(err, text.as_str());
    Ok(())
}
