// The laws of removals.
ghost use Rattle.std.specs.Prelude.{ℕ, List, false};
ghost use Rattle.jl_text.specs.Paths.{PathView};
ghost use Rattle.jl_tracker.specs.Causes.{HasCause};
ghost use Rattle.jl_tracker.specs.Effects.{Effect};
ghost use Rattle.jl_tracker.specs.Failures.{PlaysBut, RoseBy};
ghost use Rattle.jl_tracker.specs.Plays.{PlaysAt};
ghost use Rattle.jl_tracker.specs.Removing.{RemovesListed};
ghost use Rattle.jl_tracker.specs.Stages.{FolderPoint, StagePoint, stage};

use jl_folder::Folder;
use jl_streams::Sink;

/// A folder that couldn't be removed has one of three causes: its path named no folder, it still
/// held something once each file that stood in it at first had been away, or the count of faults
/// rose.
pub fn folders_stay_for_a_cause()
    ensures { (path : PathView) (a b : FolderPoint)
        → RemovesListed path false a b
        → HasCause path a b }
{}

/// The removals that failed only by a fault of the folder are at most as many as its count of
/// faults rose by, unless that stands at its last value; each other one that failed did so for what
/// was found in the folder.
pub fn removals_fail_by_counted_faults<F: Folder, E: Sink>()
    ensures { (folder : F) (err : E) (effects : List Effect) (a b : StagePoint)
        → PlaysAt (stage (F.view folder) (E.view err)) effects a b
        → (F.view folder).told
        → (n : ℕ) × PlaysBut (stage (F.view folder) (E.view err)) n effects a b × RoseBy n
        a.folder.faults b.folder.faults }
{}
