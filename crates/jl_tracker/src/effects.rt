// Brings about what the lines ask for.
ghost use Rattle.std.specs.Prelude.{◌≡◌, ◌∷◌, [], false, IsErr, MatchResult};
ghost use Rattle.jl_tracker.specs.TrackerLines.{view_of};
ghost use Rattle.jl_tracker.specs.Counting.{after_line, counts_answer};
ghost use Rattle.jl_tracker.specs.Effects.{removes, removal_text, step_effects, effects_of};
ghost use Rattle.jl_streams.specs.Views.{SinkKeeps};
ghost use Rattle.jl_tracker.specs.Plays.{Plays, Stops, PlaysOrStops, Wrote};
ghost use Rattle.jl_tracker.specs.Stages.{StageKeeps, sink_point, stage};
ghost use Rattle.jl_tracker.specs.Tries.{IsRemovable};
ghost use Rattle.jl_tracker.specs.Turns.{IsSaidRemovable, LinePlays, LineStops};

use crate::counts::Counts;
use crate::line::{BadLine, Kind, Line, read_line};
use crate::removing::{Tried, remove};
use crate::table::Step;
use crate::texts::{say, say_bad};
use jl_folder::Folder;
use jl_streams::Sink;
use std::alloc::{AllocError, Global};

// Writes the text about a resource that isn't removed.
fn say_kept<E: Sink>(alloc: Global, err: &mut E, kind: Kind, name: &str) -> Result<(), AllocError>
    ensures wrote { MatchResult result (λ done. (E.view err.old).told
        → Wrote (removal_text kind name.now false) (sink_point (E.view err.old))
        (sink_point (E.view err.new))) (λ e. err.new ≡ err.old) }
    ensures frame { SinkKeeps (E.view err.old) (E.view err.new) }
{
    match kind {
        Kind::File => say(alloc, err, "cannot remove", kind, name),
        Kind::Folder => say(alloc, err, "cannot remove", kind, name),
        Kind::Semlock => say(alloc, err, "not removed", kind, name),
    }
}

// Removes a resource, and says where it can't be.
pub fn remove_reported<F: Folder, E: Sink>(
    alloc: Global,
    folder: &mut F,
    err: &mut E,
    kind: Kind,
    name: &str,
) -> Result<(), AllocError>
    requires { IsRemovable kind name.now }
    ensures plays { PlaysOrStops result (removes kind name.now ∷ [])
        (stage (F.view folder.old) (E.view err.old)) (stage (F.view folder.new) (E.view err.new)) }
    ensures frame { StageKeeps (stage (F.view folder.old) (E.view err.old))
        (stage (F.view folder.new) (E.view err.new)) }
{
    match remove(alloc, folder, kind, name)? {
        Tried::Gone => Ok(()),
        Tried::Kept => say_kept(alloc, err, kind, name),
    }
}

// What the counting of a line that may drop a resource asks for.
fn finish_step<F: Folder, E: Sink>(
    alloc: Global,
    folder: &mut F,
    err: &mut E,
    kind: Kind,
    name: &str,
    step: Step,
) -> Result<(), AllocError>
    requires { IsRemovable kind name.now }
    ensures plays { PlaysOrStops result (step_effects kind name.now step)
        (stage (F.view folder.old) (E.view err.old)) (stage (F.view folder.new) (E.view err.new)) }
    ensures there { step ≡ Step.NoMemory → IsErr result }
    ensures frame { StageKeeps (stage (F.view folder.old) (E.view err.old))
        (stage (F.view folder.new) (E.view err.new)) }
{
    match step {
        Step::Remove => remove_reported(alloc, folder, err, kind, name),
        Step::Unknown => say(alloc, err, "unknown", kind, name),
        Step::NoMemory => Err(AllocError),
        Step::Counted(_) => Ok(()),
        Step::Dropped => Ok(()),
        Step::Nothing => Ok(()),
    }
}

// Fails where there was no memory to count a line.
fn counted(step: Step) -> Result<(), AllocError>
    ensures { step ≡ Step.NoMemory → IsErr result }
{
    if step == Step::NoMemory {
        return Err(AllocError);
    }
    Ok(())
}

// What the counting of a line asks for.
fn finish_line<F: Folder, E: Sink>(
    alloc: Global,
    folder: &mut F,
    err: &mut E,
    line: &Line<'_>,
    step: Step,
) -> Result<(), AllocError>
    requires { IsSaidRemovable (view_of line.now) }
    ensures plays { PlaysOrStops result (effects_of (view_of line.now) step)
        (stage (F.view folder.old) (E.view err.old)) (stage (F.view folder.new) (E.view err.new)) }
    ensures there { step ≡ Step.NoMemory → IsErr result }
    ensures frame { StageKeeps (stage (F.view folder.old) (E.view err.old))
        (stage (F.view folder.new) (E.view err.new)) }
{
    match *line {
        Line::Register(_, _) => counted(step),
        Line::Unregister(kind, name) => finish_step(alloc, folder, err, kind, name, step),
        Line::MaybeUnlink(kind, name) => finish_step(alloc, folder, err, kind, name, step),
        Line::Probe => counted(step),
    }
}

// Counts a line, and brings about what it asks for.
fn take_good<F: Folder, E: Sink>(
    alloc: Global,
    counts: &mut Counts,
    folder: &mut F,
    err: &mut E,
    line: &Line<'_>,
) -> Result<(), AllocError>
    requires { IsSaidRemovable (view_of line.now) }
    ensures plays { let said = view_of line.now in
        let before = stage (F.view folder.old) (E.view err.old) in
        let after = stage (F.view folder.new) (E.view err.new) in
        let effects = effects_of said (counts_answer said counts.old) in
        MatchResult result
        (λ done. (counts.new ≡ after_line said counts.old) × Plays effects before after)
        (λ e. Stops effects before after) }
    ensures frame { StageKeeps (stage (F.view folder.old) (E.view err.old))
        (stage (F.view folder.new) (E.view err.new)) }
{
    let step = counts.apply(alloc, line);
    finish_line(alloc, folder, err, line, step)
}

/// Takes the bytes of a line, without its newline: a line of the tracker, or a bad one.
pub fn take_line<F: Folder, E: Sink>(
    alloc: Global,
    counts: &mut Counts,
    folder: &mut F,
    err: &mut E,
    number: u64,
    bytes: &[u8],
) -> Result<(), AllocError>
    ensures plays { let before = stage (F.view folder.old) (E.view err.old) in
        let after = stage (F.view folder.new) (E.view err.new) in
        MatchResult result (λ done. LinePlays number bytes.now counts.old counts.new before after)
        (λ e. LineStops number bytes.now counts.old before after) }
    ensures frame { StageKeeps (stage (F.view folder.old) (E.view err.old))
        (stage (F.view folder.new) (E.view err.new)) }
{
    match read_line(bytes) {
        Ok(line) => take_good(alloc, counts, folder, err, &line),
        Err(BadLine) => say_bad(alloc, err, number),
    }
}
