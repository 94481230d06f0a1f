// Computes what a call comes to, over the cache folder.
ghost use Rattle.std.specs.Prelude.{◌≡◌, ◌≤◌, ℕ, List, None, Some, IsSome, IsTrue, length};
ghost use Rattle.jl_text.specs.Texts.{is_name};
ghost use Rattle.jl_text.specs.Counts.{Rose};
ghost use Rattle.jl_text.specs.declared.limits.TheConstants.{MOST_TEXT_BYTES};
ghost use Rattle.jl_value.specs.Tree.{nesting};
ghost use Rattle.jl_value.specs.Canonical.{text_of};
ghost use Rattle.jl_value.specs.Key.{args_tree};
ghost use Rattle.jl_value.specs.Proper.{IsProper as IsProperTree};
ghost use Rattle.jl_folder.specs.Views.{FolderKeeps, state, moved};
ghost use Rattle.jl_streams.specs.Views.{HostKeeps};
ghost use Rattle.jl_rely.specs.Steps.{IsLone};
ghost use Rattle.jl_entry.specs.Names.{root_of};
ghost use Rattle.jl_protocol.specs.Tidy.{IsSound};
ghost use Rattle.jl_store.specs.Asked.{asked};
ghost use Rattle.jl_store.specs.Warned.{Warns};
ghost use Rattle.jl_store.specs.Stretch.{point};
ghost use Rattle.jl_store.specs.Trust.{IsTrusted};
ghost use Rattle.jl_cmd.specs.Course.{meanings, stretch};
ghost use Rattle.jl_cmd.specs.Output.{call_output, called as called_of, answers, module_fault_of};
ghost use Rattle.jl_cmd.specs.Caches.{CallsLawfully, IsOfCall};
ghost use Rattle.jl_cmd.specs.Calling.{LeavesAsked, ComputedAt};
ghost use Rattle.jl_cmd.specs.Coming.{ComesAsked, ComputedWith};
ghost use Rattle.jl_cmd.specs.Computing.{Computes, Counts, IsRefusal};
ghost use Rattle.jl_cmd.specs.Tasks.{ComputesTask};
ghost use Rattle.jl_cmd.specs.of.Call.{ComputesCall};

use crate::arguments::{ArgumentsFault, read_arguments};
use crate::computed::{Computed, failed, printed, refused_arguments, refused_module};
use jl_folder::Folder;
use jl_store::{Cached, Memory, Warning, call_cached};
use jl_streams::Host;
use jl_text::limits::MOST_TEXT_BYTES;
use jl_value::{Args, Library, ModuleFault, ModuleFaultKind, ReadModule};
use std::alloc::Global;

// Calls a function that is defined.
fn answered<L: Library, F: Folder, H: Host>(
    alloc: Global,
    memory: &Memory,
    lib: &mut L,
    folder: &mut F,
    host: &mut H,
    name: &str,
    args: &Args,
    warnings: &mut Vec<Warning>,
) -> Computed
    requires token { (F.view folder.old).token ≡ memory.now.token }
    requires module_name { IsTrue (is_name memory.now.module) }
    requires defined { IsSome (L.code (L.loaded lib.old) name.now) }
    requires module_size { length (L.loaded lib.old) ≤ MOST_TEXT_BYTES }
    requires proper { IsProperTree (args_tree args.now) }
    requires depth { nesting (args_tree args.now) ≤ 64 }
    requires size { length (text_of (args_tree args.now)) ≤ MOST_TEXT_BYTES }
    ensures lawful { (F.view folder.old).told → CallsLawfully memory.now.location L.answer
        (IsOfCall (root_of memory.now.location) memory.now.module name.now (F.view folder.old).token) (F.view folder.old) (F.view folder.new) }
    ensures computes { (c : List ℕ) → L.code (L.loaded lib.old) name.now ≡ Some c
        → Computes (answers (L.answer c args.now))
        (IsTrusted (root_of memory.now.location) L.answer (F.view folder.old) (F.view folder.new)) result }
    ensures calls { Counts result (L.calls lib.old) (L.calls lib.new) }
    ensures warns { (c : List ℕ) (n : ℕ) → L.code (L.loaded lib.old) name.now ≡ Some c → L.line (L.loaded lib.old) name.now ≡ n
        → Warns (asked memory.now name.now c n args.now) warnings.old.items warnings.new.items
        (F.view folder.old) (F.view folder.new) }
    ensures alone { (F.view folder.old).told → (c : List ℕ) (n : ℕ) → L.code (L.loaded lib.old) name.now ≡ Some c
        → L.line (L.loaded lib.old) name.now ≡ n
        → IsLone (F.view folder.old).token (moved (F.view folder.old) (F.view folder.new))
        → IsSound (root_of memory.now.location) L.answer (state (F.view folder.old))
        → (Rose (F.view folder.old).faults (F.view folder.new).faults → ⊥)
        → ComputedAt result (LeavesAsked (asked memory.now name.now c n args.now) (stretch (meanings L.code L.line L.fault L.answer) (L.calls lib.old) (L.calls lib.new)
        (F.view folder.old) (F.view folder.new) (H.view host.old) (H.view host.new))) }
    ensures comes { (c : List ℕ) (n : ℕ) → L.code (L.loaded lib.old) name.now ≡ Some c → L.line (L.loaded lib.old) name.now ≡ n
        → ComputedAt result (ComesAsked (asked memory.now name.now c n args.now) (stretch (meanings L.code L.line L.fault L.answer) (L.calls lib.old) (L.calls lib.new)
        (F.view folder.old) (F.view folder.new) (H.view host.old) (H.view host.new))
        (ComputedWith result warnings.old.items warnings.new.items)) }
    // What was computed is of the answer of one task, which did its parts from before to after.
    ensures task { (c : List ℕ) (n : ℕ) → L.code (L.loaded lib.old) name.now ≡ Some c
        → L.line (L.loaded lib.old) name.now ≡ n → (F.view folder.old).told
        → ComputesTask L.answer (asked memory.now name.now c n args.now) result
        (point (F.view folder.old) (H.view host.old) (L.calls lib.old) warnings.old.items)
        (point (F.view folder.new) (H.view host.new) (L.calls lib.new) warnings.new.items) }
    ensures idle { IsRefusal result → (folder.new ≡ folder.old) × (host.new ≡ host.old) }
    ensures frame { FolderKeeps (F.view folder.old) (F.view folder.new) }
    ensures host { HostKeeps (H.view host.old) (H.view host.new) }
{
    match call_cached(alloc, memory, lib, folder, host, name, args, warnings) {
        Cached::Hit(value) => printed(alloc, &value),
        Cached::Computed(value) => printed(alloc, &value),
        Cached::Error(error) => failed(alloc, error),
        Cached::NoMemory => Computed::NoMemory,
    }
}

// Calls a function of the module that the library has read.
fn called<L: Library, F: Folder, H: Host>(
    alloc: Global,
    memory: &Memory,
    lib: &mut L,
    folder: &mut F,
    host: &mut H,
    name: &str,
    args: &str,
    warnings: &mut Vec<Warning>,
) -> Computed
    requires token { (F.view folder.old).token ≡ memory.now.token }
    requires module_name { IsTrue (is_name memory.now.module) }
    requires module_size { length (L.loaded lib.old) ≤ MOST_TEXT_BYTES }
    requires faultless { module_fault_of L.fault (L.loaded lib.old) ≡ None }
    ensures computes { Computes (called_of L.answer (L.code (L.loaded lib.old) name.now) args.now)
        (IsTrusted (root_of memory.now.location) L.answer (F.view folder.old) (F.view folder.new)) result }
    ensures computed { ComputesCall memory.now (L.loaded lib.old) name.now args.now
        (stretch (meanings L.code L.line L.fault L.answer) (L.calls lib.old) (L.calls lib.new)
        (F.view folder.old) (F.view folder.new) (H.view host.old) (H.view host.new))
        result warnings.old.items warnings.new.items }
    ensures idle { IsRefusal result → (folder.new ≡ folder.old) × (host.new ≡ host.old) }
    ensures frame { FolderKeeps (F.view folder.old) (F.view folder.new) }
    ensures host { HostKeeps (H.view host.old) (H.view host.new) }
{
    if lib.code_of(name).is_none() {
        return refused_arguments(alloc, ArgumentsFault::UnknownFunction);
    }
    match read_arguments(alloc, args) {
        Ok(args) => answered(alloc, memory, lib, folder, host, name, &args, warnings),
        Err(ArgumentsFault::Memory) => Computed::NoMemory,
        Err(fault) => refused_arguments(alloc, fault),
    }
}

/// What a call of `name` comes to, over a module's bytes and the cache of its module.
pub fn compute<L: Library, F: Folder, H: Host>(
    alloc: Global,
    memory: &Memory,
    lib: &mut L,
    folder: &mut F,
    host: &mut H,
    bytes: &[u8],
    name: &str,
    args: &str,
    warnings: &mut Vec<Warning>,
) -> Computed
    requires token { (F.view folder.old).token ≡ memory.now.token }
    requires module_name { IsTrue (is_name memory.now.module) }
    ensures computes { Computes (call_output (meanings L.code L.line L.fault L.answer) bytes.now name.now args.now)
        (IsTrusted (root_of memory.now.location) L.answer (F.view folder.old) (F.view folder.new)) result }
    ensures computed { ComputesCall memory.now bytes.now name.now args.now
        (stretch (meanings L.code L.line L.fault L.answer) (L.calls lib.old) (L.calls lib.new)
        (F.view folder.old) (F.view folder.new) (H.view host.old) (H.view host.new))
        result warnings.old.items warnings.new.items }
    ensures idle { IsRefusal result → (folder.new ≡ folder.old) × (host.new ≡ host.old) }
    ensures frame { FolderKeeps (F.view folder.old) (F.view folder.new) }
    ensures host { HostKeeps (H.view host.old) (H.view host.new) }
{
    if bytes.len() > MOST_TEXT_BYTES {
        return refused_module(
            alloc,
            ModuleFault {
                line: 1,
                kind: ModuleFaultKind::TooLarge,
            },
        );
    }
    match lib.read_module(alloc, bytes) {
        ReadModule::Read => called(alloc, memory, lib, folder, host, name, args, warnings),
        ReadModule::Fault(fault) => refused_module(alloc, fault),
        ReadModule::NoMemory => Computed::NoMemory,
    }
}
