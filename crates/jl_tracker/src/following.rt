// Follows the lines of a source to its end.
ghost use Rattle.std.specs.Prelude.{◌≡◌, ◌∷◌, [], MatchOption, MatchResult};
ghost use Rattle.jl_streams.specs.Views.{SourceAnswers};
ghost use Rattle.jl_tracker.specs.Counting.{left_of};
ghost use Rattle.jl_tracker.specs.Effects.{reports_leaked, removes, left_effects, end_effects};
ghost use Rattle.jl_tracker.specs.Plays.{PlaysOrStops};
ghost use Rattle.jl_tracker.specs.Stages.{StageKeeps, stage};
ghost use Rattle.jl_tracker.specs.Taking.{MovesAsked};
ghost use Rattle.jl_tracker.specs.Tracking.{Tracks};
ghost use Rattle.jl_tracker.specs.Tries.{IsRemovable};
ghost use Rattle.jl_tracker.specs.Turns.{AreRemovable, HasPaths, Handles, HandlesSome, Concludes};

use crate::counts::{Counts, Leaked};
use crate::effects::{remove_reported, take_line};
use crate::texts::{say, say_bad};
use jl_folder::Folder;
use jl_lines::{LineReader, NextLine};
use jl_streams::{Sink, Source};
use jl_text::limits::MOST_LINE_BYTES;
use std::alloc::{AllocError, Global};

/// How the tracker ended.
#[derive(Clone, Copy, Debug, PartialEq, Eq)]
pub enum Tracked {
    /// The input ended, and nothing is left.
    Ended,
    ReadFault,
    /// So much was taken as may be, and the input goes on; the number of the line that was being
    /// read.
    TooMuch { line: u64 },
    NoMemory,
}

// Reports a resource that was left, and removes it.
fn finish_one<F: Folder, E: Sink>(
    alloc: Global,
    folder: &mut F,
    err: &mut E,
    leaked: &Leaked,
) -> Result<(), AllocError>
    requires { IsRemovable leaked.now.kind leaked.now.name }
    ensures plays { PlaysOrStops result (reports_leaked leaked.now.kind leaked.now.name ∷
        (removes leaked.now.kind leaked.now.name ∷ [])) (stage (F.view folder.old) (E.view err.old))
        (stage (F.view folder.new) (E.view err.new)) }
    ensures frame { StageKeeps (stage (F.view folder.old) (E.view err.old))
        (stage (F.view folder.new) (E.view err.new)) }
{
    say(alloc, err, "leaked", leaked.kind, leaked.name.as_str())?;
    remove_reported(alloc, folder, err, leaked.kind, leaked.name.as_str())
}

// Reports and removes what is left.
fn finish_all<F: Folder, E: Sink>(
    alloc: Global,
    counts: &mut Counts,
    folder: &mut F,
    err: &mut E,
) -> Result<(), AllocError>
    requires { AreRemovable (left_of counts.old) }
    ensures plays { PlaysOrStops result (end_effects counts.old)
        (stage (F.view folder.old) (E.view err.old)) (stage (F.view folder.new) (E.view err.new)) }
    ensures frame { StageKeeps (stage (F.view folder.old) (E.view err.old))
        (stage (F.view folder.new) (E.view err.new)) }
{
    'left: while let Some(leaked) = counts.finish() {
        finish_one(alloc, folder, err, &leaked)?;
    }
    Ok(())
}

// Does what follows on an answer of the reader, with the number of the line that it reads next.
// Says how the tracker ends, if it does.
fn take_answer<F: Folder, E: Sink>(
    alloc: Global,
    counts: &mut Counts,
    folder: &mut F,
    err: &mut E,
    answer: NextLine,
    number: u64,
) -> Result<Option<Tracked>, AllocError>
    requires { AreRemovable (left_of counts.old) }
    ensures cases { let before = stage (F.view folder.old) (E.view err.old) in
        let after = stage (F.view folder.new) (E.view err.new) in
        MatchResult result (λ next.
        MatchOption next (Handles answer counts.old counts.new before after)
        (λ end. Concludes end number answer counts.old before after))
        (λ e. HandlesSome answer counts.old before after) }
    ensures frame { StageKeeps (stage (F.view folder.old) (E.view err.old))
        (stage (F.view folder.new) (E.view err.new)) }
{
    match answer {
        NextLine::Line { no, bytes } => {
            take_line(alloc, counts, folder, err, no, bytes.as_slice())?;
            Ok(None)
        }
        NextLine::TooLong { no } => {
            say_bad(alloc, err, no)?;
            Ok(None)
        }
        NextLine::End => {
            finish_all(alloc, counts, folder, err)?;
            Ok(Some(Tracked::Ended))
        }
        NextLine::TooMuch => Ok(Some(Tracked::TooMuch { line: number })),
        NextLine::ReadFault => Ok(Some(Tracked::ReadFault)),
        NextLine::NoMemory => Err(AllocError),
    }
}

// The same, where want of memory is one of the ends.
fn handle<F: Folder, E: Sink>(
    alloc: Global,
    counts: &mut Counts,
    folder: &mut F,
    err: &mut E,
    answer: NextLine,
    number: u64,
) -> Option<Tracked>
    requires { AreRemovable (left_of counts.old) }
    ensures cases { let before = stage (F.view folder.old) (E.view err.old) in
        let after = stage (F.view folder.new) (E.view err.new) in
        MatchOption result (Handles answer counts.old counts.new before after)
        (λ end. Concludes end number answer counts.old before after) }
    ensures frame { StageKeeps (stage (F.view folder.old) (E.view err.old))
        (stage (F.view folder.new) (E.view err.new)) }
{
    match take_answer(alloc, counts, folder, err, answer, number) {
        Ok(next) => next,
        Err(_) => Some(Tracked::NoMemory),
    }
}

/// Follows the lines of a source to its end: what is referred to no longer is removed at once, and
/// what is left at the end is reported and removed. Once the end was met the source isn't read
/// again. A write that fails is not told.
pub fn track<S: Source, F: Folder, E: Sink>(
    alloc: Global,
    source: &mut S,
    folder: &mut F,
    err: &mut E,
) -> Tracked
    ensures tracks { Tracks (S.view source.old) (S.view source.new)
        (stage (F.view folder.old) (E.view err.old)) (stage (F.view folder.new) (E.view err.new))
        result }
    ensures moves { (F.view folder.old).told
        → MovesAsked (S.view source.old) (F.view folder.old) (F.view folder.new) }
    ensures source { SourceAnswers (result ≡ Tracked.ReadFault) (S.view source.old)
        (S.view source.new) }
    ensures frame { StageKeeps (stage (F.view folder.old) (E.view err.old))
        (stage (F.view folder.new) (E.view err.new)) }
{
    let mut reader = LineReader::new(alloc, MOST_LINE_BYTES);
    let mut counts = Counts::new(alloc);
    'lines: loop {
        let answer = reader.next(alloc, source);
        let number = reader.number();
        if let Some(end) = handle(alloc, &mut counts, folder, err, answer, number) {
            return end;
        }
    }
}
