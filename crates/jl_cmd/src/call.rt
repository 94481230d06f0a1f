// The command `call`.
ghost use Rattle.std.specs.Prelude.{◌≡◌, ◌⊎◌, ℕ, [], Some, IsSome, IfOk, IsTrue};
ghost use Rattle.jl_text.specs.Texts.{is_name};
ghost use Rattle.jl_folder.specs.Views.{FolderKeeps};
ghost use Rattle.jl_streams.specs.Views.{SinkAnswers, HostKeeps};
ghost use Rattle.jl_words.specs.ModuleNames.{module_name_of};
ghost use Rattle.jl_cmd.specs.Texts.{warning_lines};
ghost use Rattle.jl_cmd.specs.Course.{meanings, stretch};
ghost use Rattle.jl_cmd.specs.Computing.{WritesComputed, WritesWarned, Counts, Calls};
ghost use Rattle.jl_cmd.specs.of.Call.{CallEnded};

use crate::compute::compute;
use crate::computed::Computed;
use crate::ended::Ended;
use crate::warn::lines_of;
use jl_folder::{FileRead, Folder, Path, read_file};
use jl_store::{Memory, Warning};
use jl_streams::{Host, Sink, WroteAll, write_all};
use jl_text::limits::MOST_TEXT_BYTES;
use jl_text::{Text, Token};
use jl_value::Library;
use jl_words::module_name;
use std::alloc::{AllocError, Global};

// A module is read up to the first byte past its limit.
const MOST_READ: usize = MOST_TEXT_BYTES + 1;

/// How a command ended, and the lines of its warnings.
#[derive(Drop)]
pub struct Warned {
    pub ended: Ended,
    pub lines: Text,
}

/// Writes what was computed.
pub fn finish<O: Sink>(out: &mut O, computed: Computed) -> Ended
    ensures writes { WritesComputed computed result (O.view out.old) (O.view out.new) }
    ensures calls { (old new : ℕ) → Counts computed old new → Calls result old new }
    ensures frame { SinkAnswers (result ≡ Ended.WriteFault) (O.view out.old) (O.view out.new) }
{
    match computed {
        Computed::Printed(text) => match write_all(out, text.as_str().as_bytes()) {
            WroteAll::Done => Ended::Done,
            WroteAll::Fault => Ended::WriteFault,
        },
        Computed::Failed(text) => Ended::Failed(text),
        Computed::Refused(text) => Ended::Refused(text),
        Computed::NoMemory => Ended::NoMemory,
    }
}

// The cache of the functions of a module file.
fn memory_of(
    alloc: Global,
    file: &Path,
    location: &Path,
    token: &Token,
) -> Result<Memory, AllocError>
    requires { IsSome (module_name_of file.now) }
    ensures location { IfOk result (λ m. m.location ≡ location.now) }
    ensures module_name { IfOk result (λ m. module_name_of file.now ≡ Some m.«module») }
    ensures name { IfOk result (λ m. IsTrue (is_name m.«module»)) }
    ensures token { IfOk result (λ m. m.token ≡ token.now) }
{
    let name = module_name(file).unwrap();
    Ok(Memory {
        location: location.copy()?,
        module: Text::new(String::from_str(alloc, name)?),
        token: token.copy()?,
    })
}

/// Without warnings.
pub fn ended(alloc: Global, ended: Ended) -> Warned
    ensures ended { result.ended ≡ ended }
    ensures lines { result.lines ≡ [] }
{
    Warned {
        ended,
        lines: Text::new(String::new(alloc)),
    }
}

// Writes what was computed, unless memory wants for the lines of its warnings.
fn written<O: Sink>(
    alloc: Global,
    out: &mut O,
    memory: &Memory,
    computed: Computed,
    warnings: &[Warning],
) -> Warned
    ensures writes { WritesWarned computed result.ended (O.view out.old) (O.view out.new) }
    ensures lines { (result.lines ≡ warning_lines memory.now.«module» warnings.now)
        ⊎ ((result.lines ≡ []) × (result.ended ≡ Ended.NoMemory)) }
    ensures calls { (old new : ℕ) → Counts computed old new → Calls result.ended old new }
    ensures frame { SinkAnswers (result.ended ≡ Ended.WriteFault) (O.view out.old)
        (O.view out.new) }
{
    match lines_of(alloc, memory, warnings) {
        Ok(lines) => {
            let ended = finish(out, computed);
            Warned { ended, lines }
        }
        Err(_) => ended(alloc, Ended::NoMemory),
    }
}

/// Calls the function of this name of the module in a file, on the arguments that a text gives,
/// with the cache below a location.
pub fn call<L: Library, F: Folder, O: Sink, H: Host>(
    alloc: Global,
    lib: &mut L,
    folder: &mut F,
    out: &mut O,
    host: &mut H,
    file: &Path,
    location: &Path,
    name: &str,
    args: &str,
) -> Warned
    requires token { (H.view host.old).token ≡ (F.view folder.old).token }
    requires file { IsSome (module_name_of file.now) }
    ensures ended { CallEnded file.now location.now name.now args.now (stretch (meanings L.code L.line L.fault L.answer) (L.calls lib.old) (L.calls lib.new)
        (F.view folder.old) (F.view folder.new) (H.view host.old) (H.view host.new)) (O.view out.old) (O.view out.new) result.ended result.lines }
    // Where the module was not read nothing else was used.
    ensures unused { (result.ended ≡ Ended.NoModule) ⊎ (result.ended ≡ Ended.FolderFault)
        → (lib.new ≡ lib.old) × (host.new ≡ host.old) }
    ensures frame { FolderKeeps (F.view folder.old) (F.view folder.new) }
    ensures out { SinkAnswers (result.ended ≡ Ended.WriteFault) (O.view out.old) (O.view out.new) }
    ensures host { HostKeeps (H.view host.old) (H.view host.new) }
{
    let Ok(memory) = memory_of(alloc, file, location, host.token()) else {
        return ended(alloc, Ended::NoMemory);
    };
    match read_file(alloc, folder, file, MOST_READ) {
        FileRead::Bytes(bytes) => {
            let mut warnings = Vec::new(alloc);
            let computed = compute(
                alloc,
                &memory,
                lib,
                folder,
                host,
                bytes.as_slice(),
                name,
                args,
                &mut warnings,
            );
            written(alloc, out, &memory, computed, warnings.as_slice())
        }
        FileRead::NoFile => ended(alloc, Ended::NoModule),
        FileRead::Failed => ended(alloc, Ended::FolderFault),
        FileRead::NoMemory => ended(alloc, Ended::NoMemory),
    }
}
