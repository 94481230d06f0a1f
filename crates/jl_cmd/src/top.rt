// The top call.
ghost use Rattle.std.specs.Prelude.{◌≡◌, ◌⊎◌, ◌++◌};
ghost use Rattle.jl_streams.specs.Views.{SinkKeeps};
ghost use Rattle.jl_tracker.specs.Stages.{sink_point};
ghost use Rattle.jl_cmd.specs.Commands.{command_of, given_by};
ghost use Rattle.jl_cmd.specs.Course.{meanings, course, IsClear};
ghost use Rattle.jl_cmd.specs.declared.ended.Ended.TheVariants.{NoModule, FolderFault};
ghost use Rattle.jl_cmd.specs.Needs.{GivenHasModule};
ghost use Rattle.jl_cmd.specs.Endings.{last_text};
ghost use Rattle.jl_cmd.specs.Reporting.{WroteBoth};
ghost use Rattle.jl_cmd.specs.Ran.{Ran, RanTo, Runs, LeavesUnused};

use crate::call::{Warned, call, ended, finish};
use crate::clear::clear;
use crate::ended::Ended;
use crate::hash::compute_hash;
use crate::reduce::reduce;
use crate::tracker::follow;
use jl_folder::Folder;
use jl_streams::{Host, Sink, Source, write_all};
use jl_value::Library;
use jl_words::{Settings, SettingsFault, settings};
use std::alloc::Global;

// Runs the command of these settings. One that the program doesn't have yet is usage.
fn given<L: Library, F: Folder, S: Source, O: Sink, E: Sink, H: Host>(
    alloc: Global,
    settings: &Settings,
    lib: &mut L,
    folder: &mut F,
    input: &mut S,
    out: &mut O,
    err: &mut E,
    host: &mut H,
) -> Warned
    requires token { (H.view host.old).token ≡ (F.view folder.old).token }
    requires file { GivenHasModule (command_of settings.now) }
    ensures ran { Ran (command_of settings.now)
        (course (meanings L.code L.line L.fault L.answer) (L.calls lib.old) (L.calls lib.new)
        (F.view folder.old) (F.view folder.new) (H.view host.old) (H.view host.new)
        (S.view input.old) (S.view input.new) (O.view out.old) (O.view out.new))
        (E.view err.old) (sink_point (E.view err.new)) result.ended result.lines }
    ensures err { SinkKeeps (E.view err.old) (E.view err.new) }
    // What it has no use for it leaves alone.
    ensures unused { LeavesUnused (command_of settings.now)
        ((result.ended ≡ NoModule) ⊎ (result.ended ≡ FolderFault))
        lib.old lib.new folder.old folder.new host.old host.new input.old input.new }
{
    match settings {
        Settings::Call {
            module,
            location,
            func,
            args,
        } => call(
            alloc,
            lib,
            folder,
            out,
            host,
            module,
            location,
            func.as_str(),
            args.as_str(),
        ),
        Settings::Hash { args } => {
            let computed = compute_hash(alloc, args.as_str());
            ended(alloc, finish(out, computed))
        }
        Settings::Parallel { .. } => ended(alloc, Ended::Usage),
        Settings::Session { .. } => ended(alloc, Ended::Usage),
        Settings::Clear {
            location,
            module,
            func,
            key,
        } => ended(alloc, clear(alloc, folder, location, module, func, key)),
        Settings::ReduceSize { location, limits } => {
            ended(alloc, reduce(alloc, folder, out, host, location, limits))
        }
        Settings::Worker => ended(alloc, Ended::Usage),
        Settings::Tracker => ended(alloc, follow(alloc, input, folder, err)),
        Settings::Gen { .. } => ended(alloc, Ended::Usage),
    }
}

// Runs the command that the words give.
fn command<L: Library, F: Folder, S: Source, O: Sink, E: Sink, H: Host>(
    alloc: Global,
    words: &[String],
    lib: &mut L,
    folder: &mut F,
    input: &mut S,
    out: &mut O,
    err: &mut E,
    host: &mut H,
) -> Warned
    requires token { (H.view host.old).token ≡ (F.view folder.old).token }
    ensures ran { Ran (given_by words.now (H.view host.old).processors)
        (course (meanings L.code L.line L.fault L.answer) (L.calls lib.old) (L.calls lib.new)
        (F.view folder.old) (F.view folder.new) (H.view host.old) (H.view host.new)
        (S.view input.old) (S.view input.new) (O.view out.old) (O.view out.new))
        (E.view err.old) (sink_point (E.view err.new)) result.ended result.lines }
    ensures err { SinkKeeps (E.view err.old) (E.view err.new) }
    ensures unused { LeavesUnused (given_by words.now (H.view host.old).processors)
        ((result.ended ≡ NoModule) ⊎ (result.ended ≡ FolderFault))
        lib.old lib.new folder.old folder.new host.old host.new input.old input.new }
{
    match settings(alloc, words, host.processors()) {
        Ok(settings) => given(alloc, &settings, lib, folder, input, out, err, host),
        Err(SettingsFault::Usage) => ended(alloc, Ended::Usage),
        Err(SettingsFault::Memory) => ended(alloc, Ended::NoMemory),
    }
}

// Writes the texts of the error stream: the lines of the warnings, and the last text.
// A fault of that stream drops its own text and changes nothing else.
fn report<E: Sink>(err: &mut E, warned: &Warned)
    ensures text { IsClear (E.view err.old) (E.view err.new)
        → (E.view err.new).written
        ≡ (E.view err.old).written ++ (warned.now.lines ++ last_text warned.now.ended) }
    ensures each { (E.view err.old).told
        → WroteBoth warned.now.lines (last_text warned.now.ended) (E.view err.old) (E.view err.new) }
    ensures frame { SinkKeeps (E.view err.old) (E.view err.new) }
{
    let _wrote = write_all(err, warned.lines.as_str().as_bytes());
    let _told = write_all(err, warned.ended.text().as_bytes());
}

/// Runs a command that needs no workers. Answers the exit status.
///
/// It waits for nobody but the input and the streams that it writes to.
pub fn run_plain<L: Library, F: Folder, S: Source, O: Sink, E: Sink, H: Host>(
    alloc: Global,
    words: &[String],
    lib: &mut L,
    folder: &mut F,
    input: &mut S,
    out: &mut O,
    err: &mut E,
    host: &mut H,
) -> u8
    requires token { (H.view host.old).token ≡ (F.view folder.old).token }
    ensures ran { RanTo (given_by words.now (H.view host.old).processors)
        (course (meanings L.code L.line L.fault L.answer) (L.calls lib.old) (L.calls lib.new)
        (F.view folder.old) (F.view folder.new) (H.view host.old) (H.view host.new)
        (S.view input.old) (S.view input.new) (O.view out.old) (O.view out.new))
        (E.view err.old) (E.view err.new) result }
    // What the command has no use for it leaves alone.
    ensures unused { LeavesUnused (given_by words.now (H.view host.old).processors)
        ((result ≡ 9) ⊎ (result ≡ 10))
        lib.old lib.new folder.old folder.new host.old host.new input.old input.new }
{
    let warned = command(alloc, words, lib, folder, input, out, err, host);
    report(err, &warned);
    warned.ended.status()
}

/// Runs the command that the words give, over a library, a folder, streams and a host. Answers the
/// exit status.
///
/// The words hold neither the program's own name nor a word that gives its token.
pub fn run<L: Library, F: Folder, S: Source, O: Sink, E: Sink, H: Host>(
    alloc: Global,
    words: &[String],
    lib: &mut L,
    folder: &mut F,
    input: &mut S,
    out: &mut O,
    err: &mut E,
    host: &mut H,
) -> u8
    requires token { (H.view host.old).token ≡ (F.view folder.old).token }
    ensures ran { RanTo (given_by words.now (H.view host.old).processors)
        (course (meanings L.code L.line L.fault L.answer) (L.calls lib.old) (L.calls lib.new)
        (F.view folder.old) (F.view folder.new) (H.view host.old) (H.view host.new)
        (S.view input.old) (S.view input.new) (O.view out.old) (O.view out.new))
        (E.view err.old) (E.view err.new) result }
    // What that says of the status.
    ensures runs { Runs (given_by words.now (H.view host.old).processors)
        (course (meanings L.code L.line L.fault L.answer) (L.calls lib.old) (L.calls lib.new)
        (F.view folder.old) (F.view folder.new) (H.view host.old) (H.view host.new)
        (S.view input.old) (S.view input.new) (O.view out.old) (O.view out.new))
        (E.view err.old) (E.view err.new) result }
    // What the command has no use for it leaves alone.
    ensures unused { LeavesUnused (given_by words.now (H.view host.old).processors)
        ((result ≡ 9) ⊎ (result ≡ 10))
        lib.old lib.new folder.old folder.new host.old host.new input.old input.new }
{
    run_plain(alloc, words, lib, folder, input, out, err, host)
}
