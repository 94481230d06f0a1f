// The command `tracker`.
ghost use Rattle.std.specs.Prelude.{◌≡◌};
ghost use Rattle.jl_folder.specs.Views.{FolderKeeps};
ghost use Rattle.jl_streams.specs.Views.{SourceAnswers, SinkKeeps};
ghost use Rattle.jl_cmd.specs.of.Track.{EndsTracked, FollowsLines};

use crate::ended::Ended;
use crate::texts::too_much_line;
use jl_folder::Folder;
use jl_streams::{Sink, Source};
use jl_tracker::{Tracked, track};
use std::alloc::Global;

// How the run ends.
fn end_of(alloc: Global, tracked: Tracked) -> Ended
    ensures { EndsTracked tracked result }
{
    match tracked {
        Tracked::Ended => Ended::Done,
        Tracked::ReadFault => Ended::ReadFault,
        Tracked::TooMuch { line } => match too_much_line(alloc, line) {
            Ok(text) => Ended::Refused(text),
            Err(_) => Ended::NoMemory,
        },
        Tracked::NoMemory => Ended::NoMemory,
    }
}

/// Follows the tracker's lines on the input to its end. Its own texts go to the error stream at
/// once, before the last one.
pub fn follow<S: Source, F: Folder, E: Sink>(
    alloc: Global,
    input: &mut S,
    folder: &mut F,
    err: &mut E,
) -> Ended
    ensures follows { FollowsLines (S.view input.old) (S.view input.new) (F.view folder.old)
        (F.view folder.new) (E.view err.old) (E.view err.new) result }
    ensures frame { FolderKeeps (F.view folder.old) (F.view folder.new) }
    ensures input { SourceAnswers (result ≡ Ended.ReadFault) (S.view input.old) (S.view input.new) }
    ensures err { SinkKeeps (E.view err.old) (E.view err.new) }
{
    let tracked = track(alloc, input, folder, err);
    end_of(alloc, tracked)
}
