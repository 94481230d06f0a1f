// The command `reduce-size`.
ghost use Rattle.std.specs.Prelude.{◌≡◌, IfOk};
ghost use Rattle.jl_folder.specs.Views.{FolderAnswers};
ghost use Rattle.jl_streams.specs.Moments.{moments_after};
ghost use Rattle.jl_streams.specs.Views.{SinkAnswers, HostKeeps};
ghost use Rattle.jl_entry.specs.Names.{root_of};
ghost use Rattle.jl_rely.specs.Claims.{Called as CallsFolder, AnyMove, Anywhere};
ghost use Rattle.jl_protocol.specs.Whole.{CodeAnswers};
ghost use Rattle.jl_protocol.specs.Proper.{IsProper};
ghost use Rattle.jl_clear.specs.Taking.{IsTaking};
ghost use Rattle.jl_evict.specs.Reducing.{IsOfEntry};
ghost use Rattle.jl_cmd.specs.declared.computed.Computed.TheVariants as computed;
ghost use Rattle.jl_cmd.specs.Caches.{CallsLawfully};
ghost use Rattle.jl_cmd.specs.Computing.{WritesWarned};
ghost use Rattle.jl_cmd.specs.of.Reduce.{report_of, IsReported, EndsReducing};

use crate::call::finish;
use crate::computed::Computed;
use crate::ended::Ended;
use jl_evict::{Reduced, reduce_size};
use jl_folder::{Folder, Path};
use jl_quota::Limits;
use jl_streams::{Host, Sink};
use jl_text::Text;
use std::alloc::{AllocError, Global};

// The line that tells how many items went, and how many bytes they had.
#[tactic(auto, unfolding(crate::specs::of::Reduce::report_of))]
fn report_line(alloc: Global, count: u64, bytes: u64) -> Result<Text, AllocError>
    ensures { IfOk result (λ t. t ≡ report_of count bytes) }
{
    let line = format!(in alloc; "deleted {count} items {bytes} bytes\n")?;
    Ok(Text::new(line))
}

// Prints that line, unless memory wants for it.
fn print_report<O: Sink>(alloc: Global, out: &mut O, count: u64, bytes: u64) -> Ended
    ensures writes { WritesWarned (computed.Printed (report_of count bytes)) result (O.view out.old)
        (O.view out.new) }
    ensures frame { SinkAnswers (result ≡ Ended.WriteFault) (O.view out.old) (O.view out.new) }
{
    match report_line(alloc, count, bytes) {
        Ok(line) => finish(out, Computed::Printed(line)),
        Err(_) => Ended::NoMemory,
    }
}

/// Takes away what a cache holds beyond its limits, and prints how much that was.
pub fn reduce<F: Folder, O: Sink, H: Host>(
    alloc: Global,
    folder: &mut F,
    out: &mut O,
    host: &mut H,
    location: &Path,
    limits: &Limits,
) -> Ended
    ensures ends { EndsReducing result (IsReported location.now limits.now (H.view host.old) (F.view folder.old) (F.view folder.new))
        (F.view folder.old) (F.view folder.new) (O.view out.old) (O.view out.new) }
    // Names of entries go, and their folders, and nothing else, whatever others do.
    ensures called { (F.view folder.old).told → CallsFolder (IsProper (root_of location.now)) (IsProper (root_of location.now))
        (IsTaking (root_of location.now) (IsOfEntry (root_of location.now))) Anywhere Anywhere (F.view folder.old) (F.view folder.new) }
    ensures lawful { (F.view folder.old).told → (answer : CodeAnswers)
        → CallsLawfully location.now answer AnyMove (F.view folder.old) (F.view folder.new) }
    ensures frame { FolderAnswers (result ≡ Ended.FolderFault) (F.view folder.old)
        (F.view folder.new) }
    ensures out { SinkAnswers (result ≡ Ended.WriteFault) (O.view out.old) (O.view out.new) }
    ensures host { HostKeeps (H.view host.old) (H.view host.new) }
    ensures clock { (H.view host.old).told
        → (H.view host.new).moments ≡ moments_after (H.view host.old).moments }
{
    let moment = host.now();
    match reduce_size(alloc, folder, location, limits, moment) {
        Reduced::Report { deleted, bytes } => print_report(alloc, out, deleted, bytes),
        Reduced::FolderFault => Ended::FolderFault,
        Reduced::NoMemory => Ended::NoMemory,
    }
}
