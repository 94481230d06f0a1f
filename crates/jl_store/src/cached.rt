// One cached call.
ghost use Rattle.std.specs.Prelude.{◌≡◌, ◌≢◌, ◌≤◌, ◌⊎◌, ◌++◌, ℕ, List, Some, IsSome, IfOk, OnOk, OnErr, IsTrue, length};
ghost use Rattle.jl_text.specs.Texts.{is_name};
ghost use Rattle.jl_text.specs.Counts.{Rose};
ghost use Rattle.jl_text.specs.declared.limits.TheConstants.{MOST_TEXT_BYTES};
ghost use Rattle.jl_folder.specs.Views.{FolderKeeps, state, moved};
ghost use Rattle.jl_streams.specs.Moments.{moment_of};
ghost use Rattle.jl_streams.specs.Views.{HostKeeps};
ghost use Rattle.jl_value.specs.Tree.{nesting};
ghost use Rattle.jl_value.specs.Form.{tree_of};
ghost use Rattle.jl_value.specs.Canonical.{text_of};
ghost use Rattle.jl_value.specs.Key.{args_tree, key_of};
ghost use Rattle.jl_value.specs.Proper.{IsProper as IsProperTree};
ghost use Rattle.jl_value.specs.Library.{value as value_is};
ghost use Rattle.jl_entry.specs.Entry.{IsHeadOf, Members};
ghost use Rattle.jl_entry.specs.Moments.{IsMoment, access_text};
ghost use Rattle.jl_entry.specs.Names.{root_of};
ghost use Rattle.jl_entry.specs.declared.names.EntryFile.{EntryFile};
ghost use Rattle.jl_protocol.specs.Whole.{CodeAnswers};
ghost use Rattle.jl_protocol.specs.Tidy.{IsTidy, IsSound};
ghost use Rattle.jl_protocol.specs.Proper.{IsProper, IsLawful};
ghost use Rattle.jl_rely.specs.Claims.{Called as CallsFolder, Anywhere};
ghost use Rattle.jl_rely.specs.Steps.{IsLone};
ghost use Rattle.jl_store.specs.Asked.{asked, output_path};
ghost use Rattle.jl_store.specs.Publishing.{IsPublished};
ghost use Rattle.jl_store.specs.Keeping.{HasPut, HasPutAll, IsMakingEntry, InOrder, PutsEntry, IsKeepable, IsReadyToKeep, IsReadyToTouch, HasEntry, entry_in, last_of, temp_of, texts as texts_of};
ghost use Rattle.jl_store.specs.Looking.{HasEntryOf};
ghost use Rattle.jl_store.specs.Cached.{IsAnswer, CountsCall, IsMissed, ComesBy, ComesTidy};
ghost use Rattle.jl_store.specs.Calling.{IsAnswering, IsCalling, ClearsOnlyAnothers, IsBeforeOutput, IsOrdered, PutsAnswer, PutsFiles};
ghost use Rattle.jl_store.specs.Next.{AnswersAlone, LeavesNext, AreTimed, LeftAfter};
ghost use Rattle.jl_store.specs.Warned.{IsOrderly, Warns, WarnsOfOthers};
ghost use Rattle.jl_store.specs.Done.{OfKeeping, PartDone, KeepsOrWarns, AnswersOrWarns, DoesOrWarns};
ghost use Rattle.jl_store.specs.Parts.{WarnsFrom, HasFunction, HasFolder, keep_warns, check_warns};
ghost use Rattle.jl_store.specs.Trust.{IsTrusted};
ghost use Rattle.jl_store.specs.Renames.{PutsInTurn};
ghost use Rattle.jl_store.specs.Stretch.{point};
ghost use Rattle.jl_store.specs.Task.{HasFound, HasKept, HasAnswered, AnswerDid, IfAnswered, TaskDid, lasts_asked};

use crate::answer::Keep;
use crate::checking::check_code;
use crate::checks::CodeCheck;
use crate::found::Look;
use crate::keeping::{keep_as, touch};
use crate::looking::{Sought, look_for, wanted, warn};
use crate::memory::{Memory, WarnKind, Warning};
use jl_folder::{Folder, Text};
use jl_streams::Host;
use jl_value::{Args, Called, Key, Library, Outcome, TaskError, Value};
use std::alloc::{AllocError, Global};

/// What a cached call answers.
#[derive(Drop)]
pub enum Cached {
    Hit(Value),
    Computed(Value),
    Error(TaskError),
    NoMemory,
}

// A function's code, and the number of its line in the module.
#[derive(Drop)]
struct Code {
    text: Text,
    line: u64,
}

fn code_in<L: Library>(alloc: Global, lib: &L, name: &str) -> Result<Code, AllocError>
    requires { IsSome (L.code (L.loaded lib.now) name.now) }
    ensures code { IfOk result (λ c. L.code (L.loaded lib.now) name.now ≡ Some c.text) }
    ensures line { IfOk result (λ c. L.line (L.loaded lib.now) name.now ≡ c.line) }
{
    let found = lib.code_of(name).unwrap();
    let text = Text::new(String::from_str(alloc, found.code)?);
    Ok(Code {
        text,
        line: found.line,
    })
}

// Warns of what kept an entry from being stored.
fn warn_of(
    alloc: Global,
    warnings: &mut Vec<Warning>,
    keep: Keep,
    name: &str,
    key: &Key,
) -> Result<(), AllocError>
    ensures ok { OnOk result
        (warnings.new.items ≡ warnings.old.items ++ keep_warns keep name.now key.now) }
    ensures err { OnErr result (warnings.new.items ≡ warnings.old.items) }
    ensures memory { OnOk result (keep ≢ Keep.NoMemory) }
{
    match keep {
        Keep::Kept => Ok(()),
        Keep::Skipped => warn(alloc, warnings, WarnKind::Skipped, name, Key(key.0)),
        Keep::Fault => warn(alloc, warnings, WarnKind::StoreFault, name, Key(key.0)),
        Keep::NoMemory => Err(AllocError),
    }
}

// Warns of what kept the code's file from being checked.
fn warn_of_check(
    alloc: Global,
    warnings: &mut Vec<Warning>,
    check: CodeCheck,
    name: &str,
    key: &Key,
) -> Result<(), AllocError>
    ensures ok { OnOk result
        (warnings.new.items ≡ warnings.old.items ++ check_warns check name.now key.now) }
    ensures err { OnErr result (warnings.new.items ≡ warnings.old.items) }
    ensures memory { OnOk result (check ≢ CodeCheck.NoMemory) }
{
    match check {
        CodeCheck::Same => Ok(()),
        CodeCheck::Written => Ok(()),
        CodeCheck::Cleared => Ok(()),
        CodeCheck::Skipped => warn(alloc, warnings, WarnKind::Skipped, name, Key(key.0)),
        CodeCheck::LoadFault => warn(alloc, warnings, WarnKind::LoadFault, name, Key(key.0)),
        CodeCheck::StoreFault => warn(alloc, warnings, WarnKind::StoreFault, name, Key(key.0)),
        CodeCheck::NoMemory => Err(AllocError),
    }
}

// A value that was found, with the moment of this access kept.
fn found<F: Folder, H: Host>(
    alloc: Global,
    memory: &Memory,
    folder: &mut F,
    host: &mut H,
    name: &str,
    key: &Key,
    value: Value,
    warnings: &mut Vec<Warning>,
) -> Cached
    requires token { (F.view folder.old).token ≡ memory.now.token }
    requires module_name { IsTrue (is_name memory.now.«module») }
    requires function_name { IsTrue (is_name name.now) }
    ensures lawful { (F.view folder.old).told → (answer : CodeAnswers)
        → CallsFolder (IsLawful (root_of memory.now.location) answer)
        (IsLawful (root_of memory.now.location) answer)
        (IsAnswering result (entry_in memory.now name.now key.now.0) (F.view folder.old).token)
        (IsSound (root_of memory.now.location) answer)
        (IsSound (root_of memory.now.location) answer) (F.view folder.old) (F.view folder.new) }
    ensures found { (result ≡ Cached.Hit value) ⊎ (result ≡ Cached.NoMemory) }
    ensures puts { (F.view folder.old).told → (c : List ℕ) (n : ℕ) (ps : Members)
        → key.now.0 ≡ key_of ps
        → PutsAnswer result (asked memory.now name.now c n ps) (H.view host.old) (F.view folder.old)
        (F.view folder.new) }
    ensures warns { (c : List ℕ) (n : ℕ) (ps : Members) → key.now.0 ≡ key_of ps
        → WarnsFrom (HasFolder (asked memory.now name.now c n ps))
        (asked memory.now name.now c n ps) warnings.old.items warnings.new.items (F.view folder.old)
        (F.view folder.new) }
    ensures done { (F.view folder.old).told → result ≡ Cached.Hit value
        → PartDone OfKeeping (HasPut (entry_in memory.now name.now key.now.0)
        (F.view folder.old).token EntryFile.Access (moved (F.view folder.old) (F.view folder.new)))
        warnings.old.items warnings.new.items }
    ensures alone { (F.view folder.old).told
        → IsLone (F.view folder.old).token (moved (F.view folder.old) (F.view folder.new))
        → IsReadyToTouch (entry_in memory.now name.now key.now.0) (state (F.view folder.old))
        → (Rose (F.view folder.old).faults (F.view folder.new).faults → ⊥)
        → result ≡ Cached.Hit value
        → (moment : ℕ) × IsPublished
        (last_of (entry_in memory.now name.now key.now.0) EntryFile.Access) (temp_of
        (entry_in memory.now name.now key.now.0) (F.view folder.old).token EntryFile.Access)
        (access_text moment) (state (F.view folder.old)) (state (F.view folder.new)) ×
        ((H.view host.old).told → moment ≡ moment_of (H.view host.old).moments) }
    ensures did { (F.view folder.old).told → result ≡ Cached.Hit value
        → (c : List ℕ) (n : ℕ) (ps : Members) (calls : ℕ) → key.now.0 ≡ key_of ps
        → HasFound (asked memory.now name.now c n ps)
        (point (F.view folder.old) (H.view host.old) calls warnings.old.items)
        (point (F.view folder.new) (H.view host.new) calls warnings.new.items) }
    ensures frame { FolderKeeps (F.view folder.old) (F.view folder.new) }
    ensures host { HostKeeps (H.view host.old) (H.view host.new) }
    ensures clock { (H.view host.old).told → LeftAfter result (H.view host.old) (H.view host.new) }
{
    let moment = host.now();
    let kept = touch(alloc, memory, folder, name, key, moment);
    match warn_of(alloc, warnings, kept, name, key) {
        Ok(()) => Cached::Hit(value),
        Err(_) => Cached::NoMemory,
    }
}

// A value that was computed, kept.
fn computed<F: Folder>(
    alloc: Global,
    memory: &Memory,
    folder: &mut F,
    name: &str,
    key: &Key,
    code: &str,
    args: &Args,
    value: Value,
    duration: u64,
    moment: u64,
    warnings: &mut Vec<Warning>,
) -> Cached
    requires token { (F.view folder.old).token ≡ memory.now.token }
    requires module_name { IsTrue (is_name memory.now.«module») }
    requires function_name { IsTrue (is_name name.now) }
    requires key { key.now.0 ≡ key_of args.now }
    requires keepable { IsKeepable code.now args.now (tree_of value) }
    requires args_proper { IsProperTree (args_tree args.now) }
    requires value_proper { IsProperTree (tree_of value) }
    requires duration { IsMoment duration }
    requires moment { IsMoment moment }
    ensures lawful { (F.view folder.old).told → (answer : CodeAnswers)
        → answer code.now args.now ≡ value_is (tree_of value)
        → CallsFolder (IsLawful (root_of memory.now.location) answer)
        (IsLawful (root_of memory.now.location) answer) (IsAnswering result
        (entry_in memory.now name.now (key_of args.now)) (F.view folder.old).token)
        (IsSound (root_of memory.now.location) answer)
        (IsSound (root_of memory.now.location) answer) (F.view folder.old) (F.view folder.new) }
    ensures computed { (result ≡ Cached.Computed value) ⊎ (result ≡ Cached.NoMemory) }
    ensures puts { (F.view folder.old).told
        → CallsFolder (IsProper (root_of memory.now.location)) (PutsEntry
        (entry_in memory.now name.now (key_of args.now))
        (texts_of code.now args.now (tree_of value) duration moment)) (IsAnswering result
        (entry_in memory.now name.now (key_of args.now)) (F.view folder.old).token)
        (IsTidy (root_of memory.now.location)) Anywhere (F.view folder.old) (F.view folder.new) }
    ensures order { (F.view folder.old).told
        → InOrder (IsMakingEntry (entry_in memory.now name.now (key_of args.now)))
        (entry_in memory.now name.now (key_of args.now)) (F.view folder.old).token
        (moved (F.view folder.old) (F.view folder.new)) }
    ensures warns { (n : ℕ)
        → WarnsFrom (HasFunction (asked memory.now name.now code.now n args.now))
        (asked memory.now name.now code.now n args.now) warnings.old.items warnings.new.items
        (F.view folder.old) (F.view folder.new) }
    ensures done { (F.view folder.old).told → result ≡ Cached.Computed value
        → PartDone OfKeeping (HasPutAll (entry_in memory.now name.now (key_of args.now))
        (F.view folder.old).token (moved (F.view folder.old) (F.view folder.new)))
        warnings.old.items warnings.new.items }
    ensures alone { (F.view folder.old).told
        → IsLone (F.view folder.old).token (moved (F.view folder.old) (F.view folder.new))
        → IsReadyToKeep (entry_in memory.now name.now (key_of args.now)) (state (F.view folder.old))
        → (Rose (F.view folder.old).faults (F.view folder.new).faults → ⊥)
        → result ≡ Cached.Computed value
        → HasEntry (entry_in memory.now name.now (key_of args.now)) (F.view folder.old).token
        (texts_of code.now args.now (tree_of value) duration moment) (state (F.view folder.old))
        (state (F.view folder.new)) }
    ensures did { (F.view folder.old).told → result ≡ Cached.Computed value → (n : ℕ)
        → HasKept (asked memory.now name.now code.now n args.now) (tree_of value) duration moment
        warnings.old.items warnings.new.items (F.view folder.old) (F.view folder.new) }
    ensures frame { FolderKeeps (F.view folder.old) (F.view folder.new) }
{
    let kept = keep_as(
        alloc, memory, folder, name, key, code, args, &value, duration, moment,
    );
    match warn_of(alloc, warnings, kept, name, key) {
        Ok(()) => Cached::Computed(value),
        Err(_) => Cached::NoMemory,
    }
}

// Calls the function, and keeps its value.
fn missed<L: Library, F: Folder, H: Host>(
    alloc: Global,
    memory: &Memory,
    lib: &mut L,
    folder: &mut F,
    host: &mut H,
    name: &str,
    key: &Key,
    code: &str,
    args: &Args,
    warnings: &mut Vec<Warning>,
) -> Cached
    requires token { (F.view folder.old).token ≡ memory.now.token }
    requires module_name { IsTrue (is_name memory.now.«module») }
    requires function_name { IsTrue (is_name name.now) }
    requires key { key.now.0 ≡ key_of args.now }
    requires defined { L.code (L.loaded lib.old) name.now ≡ Some code.now }
    requires code { length code.now ≤ MOST_TEXT_BYTES }
    requires proper { IsProperTree (args_tree args.now) }
    requires depth { nesting (args_tree args.now) ≤ 64 }
    requires size { length (text_of (args_tree args.now)) ≤ MOST_TEXT_BYTES }
    ensures lawful { (F.view folder.old).told
        → CallsFolder (IsLawful (root_of memory.now.location) L.answer)
        (IsLawful (root_of memory.now.location) L.answer) (IsAnswering result
        (entry_in memory.now name.now (key_of args.now)) (F.view folder.old).token)
        (IsSound (root_of memory.now.location) L.answer)
        (IsSound (root_of memory.now.location) L.answer) (F.view folder.old) (F.view folder.new) }
    ensures missed { IsMissed result (L.answer code.now args.now) (L.calls lib.old)
        (L.calls lib.new) }
    ensures puts { (F.view folder.old).told → (n : ℕ)
        → PutsAnswer result (asked memory.now name.now code.now n args.now) (H.view host.old)
        (F.view folder.old) (F.view folder.new) }
    ensures order { (F.view folder.old).told
        → InOrder (IsMakingEntry (entry_in memory.now name.now (key_of args.now)))
        (entry_in memory.now name.now (key_of args.now)) (F.view folder.old).token
        (moved (F.view folder.old) (F.view folder.new)) }
    ensures warns { (n : ℕ)
        → WarnsFrom (HasFunction (asked memory.now name.now code.now n args.now))
        (asked memory.now name.now code.now n args.now) warnings.old.items warnings.new.items
        (F.view folder.old) (F.view folder.new) }
    ensures done { (F.view folder.old).told → (n : ℕ)
        → KeepsOrWarns result (asked memory.now name.now code.now n args.now)
        (moved (F.view folder.old) (F.view folder.new)) warnings.old.items warnings.new.items }
    ensures alone { (F.view folder.old).told → (n : ℕ)
        → IsLone (F.view folder.old).token (moved (F.view folder.old) (F.view folder.new))
        → IsReadyToKeep (entry_in memory.now name.now (key_of args.now)) (state (F.view folder.old))
        → (Rose (F.view folder.old).faults (F.view folder.new).faults → ⊥)
        → (HasEntryOf (output_path (root_of memory.now.location) memory.now.«module» name.now args.now)
        code.now args.now (state (F.view folder.old)) → ⊥)
        → (duration : ℕ) × (moment : ℕ) × AnswersAlone result
        (asked memory.now name.now code.now n args.now) duration moment (state (F.view folder.old))
        (state (F.view folder.new)) ×
        ((H.view host.old).told → AreTimed result duration moment (H.view host.old)) }
    ensures did { (F.view folder.old).told → (n : ℕ)
        → HasAnswered L.answer (asked memory.now name.now code.now n args.now) result
        (point (F.view folder.old) (H.view host.old) (L.calls lib.old) warnings.old.items)
        (point (F.view folder.new) (H.view host.new) (L.calls lib.new) warnings.new.items) }
    ensures loaded { L.loaded lib.new ≡ L.loaded lib.old }
    ensures frame { FolderKeeps (F.view folder.old) (F.view folder.new) }
    ensures host { HostKeeps (H.view host.old) (H.view host.new) }
    ensures clock { (H.view host.old).told → LeftAfter result (H.view host.old) (H.view host.new) }
{
    let before = host.now();
    let called = lib.call(alloc, name, args);
    let after = host.now();
    match called {
        Called::Done(Outcome::Value(value)) => computed(
            alloc,
            memory,
            folder,
            name,
            key,
            code,
            args,
            value,
            after.saturating_sub(before),
            after,
            warnings,
        ),
        Called::Done(Outcome::Error(error)) => Cached::Error(error),
        Called::NoMemory => Cached::NoMemory,
    }
}

// Looks for the value, and else computes it.
fn answered<L: Library, F: Folder, H: Host>(
    alloc: Global,
    memory: &Memory,
    lib: &mut L,
    folder: &mut F,
    host: &mut H,
    name: &str,
    code: &str,
    args: &Args,
    wanted: &Sought,
    warnings: &mut Vec<Warning>,
) -> Cached
    requires token { (F.view folder.old).token ≡ memory.now.token }
    requires module_name { IsTrue (is_name memory.now.«module») }
    requires function_name { IsTrue (is_name name.now) }
    requires defined { L.code (L.loaded lib.old) name.now ≡ Some code.now }
    requires code { length code.now ≤ MOST_TEXT_BYTES }
    requires proper { IsProperTree (args_tree args.now) }
    requires depth { nesting (args_tree args.now) ≤ 64 }
    requires size { length (text_of (args_tree args.now)) ≤ MOST_TEXT_BYTES }
    requires key { wanted.now.key.0 ≡ key_of args.now }
    requires head { IsHeadOf wanted.now.head code.now args.now }
    ensures lawful { (F.view folder.old).told
        → CallsFolder (IsLawful (root_of memory.now.location) L.answer)
        (IsLawful (root_of memory.now.location) L.answer) (IsAnswering result
        (entry_in memory.now name.now (key_of args.now)) (F.view folder.old).token)
        (IsSound (root_of memory.now.location) L.answer)
        (IsSound (root_of memory.now.location) L.answer) (F.view folder.old) (F.view folder.new) }
    ensures puts { (F.view folder.old).told → (n : ℕ)
        → PutsAnswer result (asked memory.now name.now code.now n args.now) (H.view host.old)
        (F.view folder.old) (F.view folder.new) }
    ensures order { (F.view folder.old).told
        → IsOrdered result (IsMakingEntry (entry_in memory.now name.now (key_of args.now)))
        (entry_in memory.now name.now (key_of args.now)) (F.view folder.old).token
        (moved (F.view folder.old) (F.view folder.new)) }
    ensures warns { (n : ℕ)
        → WarnsFrom (HasFunction (asked memory.now name.now code.now n args.now))
        (asked memory.now name.now code.now n args.now) warnings.old.items warnings.new.items
        (F.view folder.old) (F.view folder.new) }
    ensures done { (F.view folder.old).told → (n : ℕ)
        → AnswersOrWarns result (asked memory.now name.now code.now n args.now)
        (state (F.view folder.old)) (moved (F.view folder.old) (F.view folder.new))
        warnings.old.items warnings.new.items }
    ensures alone { (F.view folder.old).told → (n : ℕ)
        → IsLone (F.view folder.old).token (moved (F.view folder.old) (F.view folder.new))
        → IsReadyToKeep (entry_in memory.now name.now (key_of args.now)) (state (F.view folder.old))
        → (Rose (F.view folder.old).faults (F.view folder.new).faults → ⊥)
        → (duration : ℕ) × (moment : ℕ) × AnswersAlone result
        (asked memory.now name.now code.now n args.now) duration moment (state (F.view folder.old))
        (state (F.view folder.new)) ×
        ((H.view host.old).told → AreTimed result duration moment (H.view host.old)) }
    ensures looks { (n : ℕ)
        → ComesBy result (asked memory.now name.now code.now n args.now) (F.view folder.old)
        (F.view folder.new) }
    ensures tidy { (F.view folder.old).told → (n : ℕ)
        → IsOrderly (root_of memory.now.location) (F.view folder.old) (F.view folder.new)
        → ComesTidy result (asked memory.now name.now code.now n args.now) (F.view folder.old)
        (F.view folder.new) }
    ensures answer { IsAnswer result (L.answer code.now args.now)
        (IsTrusted (root_of memory.now.location) L.answer (F.view folder.old) (F.view folder.new)) }
    ensures calls { CountsCall result (L.calls lib.old) (L.calls lib.new) }
    ensures did { (F.view folder.old).told → (n : ℕ) → IfAnswered result
        (AnswerDid L.answer (asked memory.now name.now code.now n args.now) result
        (point (F.view folder.old) (H.view host.old) (L.calls lib.old) warnings.old.items)
        (point (F.view folder.new) (H.view host.new) (L.calls lib.new) warnings.new.items)) }
    ensures loaded { L.loaded lib.new ≡ L.loaded lib.old }
    ensures frame { FolderKeeps (F.view folder.old) (F.view folder.new) }
    ensures host { HostKeeps (H.view host.old) (H.view host.new) }
    ensures clock { (H.view host.old).told → LeftAfter result (H.view host.old) (H.view host.new) }
{
    let key = &wanted.key;
    match look_for(alloc, memory, folder, name, wanted, warnings) {
        Look::Hit(value) => found(alloc, memory, folder, host, name, key, value, warnings),
        Look::Miss => missed(
            alloc, memory, lib, folder, host, name, key, code, args, warnings,
        ),
        Look::NoMemory => Cached::NoMemory,
    }
}

/// Answers what the function of this name answers on these arguments: as an entry of the cache has
/// it, or else by calling the
/// function and keeping its value. The code's file is checked first, and what goes wrong with the
/// cache is warned of.
pub fn call_cached<L: Library, F: Folder, H: Host>(
    alloc: Global,
    memory: &Memory,
    lib: &mut L,
    folder: &mut F,
    host: &mut H,
    name: &str,
    args: &Args,
    warnings: &mut Vec<Warning>,
) -> Cached
    requires token { (F.view folder.old).token ≡ memory.now.token }
    requires module_name { IsTrue (is_name memory.now.«module») }
    requires function_name { IsTrue (is_name name.now) }
    requires defined { IsSome (L.code (L.loaded lib.old) name.now) }
    requires module_size { length (L.loaded lib.old) ≤ MOST_TEXT_BYTES }
    requires proper { IsProperTree (args_tree args.now) }
    requires depth { nesting (args_tree args.now) ≤ 64 }
    requires size { length (text_of (args_tree args.now)) ≤ MOST_TEXT_BYTES }
    // Lawful throughout, whatever others do, and its own moves are those of its answer.
    ensures lawful { (F.view folder.old).told
        → CallsFolder (IsLawful (root_of memory.now.location) L.answer)
        (IsLawful (root_of memory.now.location) L.answer) (IsCalling result
        (entry_in memory.now name.now (key_of args.now)) (F.view folder.old).token)
        (IsSound (root_of memory.now.location) L.answer)
        (IsSound (root_of memory.now.location) L.answer) (F.view folder.old) (F.view folder.new) }
    // Each file that it puts in place has the text of this code, or that of its entry for one
    // value, duration and moment; of these the answer and the clock tell.
    ensures puts { (c : List ℕ) (n : ℕ) → L.code (L.loaded lib.old) name.now ≡ Some c
        → L.line (L.loaded lib.old) name.now ≡ n → (F.view folder.old).told
        → PutsFiles result (asked memory.now name.now c n args.now) (H.view host.old)
        (F.view folder.old) (F.view folder.new) }
    // A value that was computed is kept in order: the output, the metadata, the last access.
    ensures order { (F.view folder.old).told
        → IsOrdered result (IsBeforeOutput (entry_in memory.now name.now (key_of args.now))
        (F.view folder.old).token) (entry_in memory.now name.now (key_of args.now))
        (F.view folder.old).token (moved (F.view folder.old) (F.view folder.new)) }
    // Entries are cleared only where the code's file held another code.
    ensures clears { (c : List ℕ) → L.code (L.loaded lib.old) name.now ≡ Some c
        → (F.view folder.old).told
        → ClearsOnlyAnothers result (entry_in memory.now name.now (key_of args.now)) c
        (F.view folder.old) (F.view folder.new) }
    // A value or an error is the library's answer; of a value that was found this rests on the
    // folder.
    ensures answer { (c : List ℕ) → L.code (L.loaded lib.old) name.now ≡ Some c
        → IsAnswer result (L.answer c args.now)
        (IsTrusted (root_of memory.now.location) L.answer (F.view folder.old) (F.view folder.new)) }
    ensures calls { CountsCall result (L.calls lib.old) (L.calls lib.new) }
    // A value was found where its entry was opened, and else the function was called.
    ensures looks { (c : List ℕ) (n : ℕ) → L.code (L.loaded lib.old) name.now ≡ Some c
        → L.line (L.loaded lib.old) name.now ≡ n
        → ComesBy result (asked memory.now name.now c n args.now) (F.view folder.old)
        (F.view folder.new) }
    ensures tidy { (c : List ℕ) (n : ℕ) → L.code (L.loaded lib.old) name.now ≡ Some c
        → L.line (L.loaded lib.old) name.now ≡ n → (F.view folder.old).told
        → IsOrderly (root_of memory.now.location) (F.view folder.old) (F.view folder.new)
        → ComesTidy result (asked memory.now name.now c n args.now) (F.view folder.old)
        (F.view folder.new) }
    // Each warning is on this call, and has its cause.
    ensures warns { (c : List ℕ) (n : ℕ) → L.code (L.loaded lib.old) name.now ≡ Some c
        → L.line (L.loaded lib.old) name.now ≡ n
        → Warns (asked memory.now name.now c n args.now) warnings.old.items warnings.new.items
        (F.view folder.old) (F.view folder.new) }
    // Each part was done or warned of: the code's file was right or put in place, a value was found
    // or there was no output, and its entry was renewed or a new one put in place.
    ensures done { (c : List ℕ) (n : ℕ) → L.code (L.loaded lib.old) name.now ≡ Some c
        → L.line (L.loaded lib.old) name.now ≡ n → (F.view folder.old).told
        → DoesOrWarns result (asked memory.now name.now c n args.now) warnings.old.items
        warnings.new.items (F.view folder.old) (F.view folder.new) }
    // Where no other moved and no fault rose, it leaves the folder so: the code checked, and then
    // the answer found or kept.
    ensures alone { (F.view folder.old).told → (c : List ℕ) (n : ℕ)
        → L.code (L.loaded lib.old) name.now ≡ Some c → L.line (L.loaded lib.old) name.now ≡ n
        → IsLone (F.view folder.old).token (moved (F.view folder.old) (F.view folder.new))
        → IsTidy (root_of memory.now.location) (state (F.view folder.old))
        → (Rose (F.view folder.old).faults (F.view folder.new).faults → ⊥)
        → (duration : ℕ) × (moment : ℕ) × LeavesNext result (asked memory.now name.now c n args.now)
        duration moment (state (F.view folder.old)) (state (F.view folder.new)) ×
        ((H.view host.old).told → AreTimed result duration moment (H.view host.old)) }
    ensures quiet { (F.view folder.old).told
        → IsLone (F.view folder.old).token (moved (F.view folder.old) (F.view folder.new))
        → IsSound (root_of memory.now.location) L.answer (state (F.view folder.old))
        → (Rose (F.view folder.old).faults (F.view folder.new).faults → ⊥)
        → WarnsOfOthers warnings.old.items warnings.new.items }
    // Each final name is put in place at most once: the code's file, then the last access or the
    // entry's three files.
    ensures once { (c : List ℕ) (n : ℕ) → L.code (L.loaded lib.old) name.now ≡ Some c
        → L.line (L.loaded lib.old) name.now ≡ n → (F.view folder.old).told
        → IfAnswered result (PutsInTurn (lasts_asked result (asked memory.now name.now c n args.now))
        (F.view folder.old).token (moved (F.view folder.old) (F.view folder.new))) }
    // The same as its three parts, with what stood between them.
    ensures did { (c : List ℕ) (n : ℕ) → L.code (L.loaded lib.old) name.now ≡ Some c
        → L.line (L.loaded lib.old) name.now ≡ n → (F.view folder.old).told
        → TaskDid L.answer (asked memory.now name.now c n args.now) result
        (point (F.view folder.old) (H.view host.old) (L.calls lib.old) warnings.old.items)
        (point (F.view folder.new) (H.view host.new) (L.calls lib.new) warnings.new.items) }
    ensures loaded { L.loaded lib.new ≡ L.loaded lib.old }
    ensures frame { FolderKeeps (F.view folder.old) (F.view folder.new) }
    ensures host { HostKeeps (H.view host.old) (H.view host.new) }
    ensures clock { (H.view host.old).told → LeftAfter result (H.view host.old) (H.view host.new) }
{
    let Ok(code) = code_in(alloc, lib, name) else {
        return Cached::NoMemory;
    };
    let text = code.text.as_str();
    let Ok(want) = wanted(alloc, text, args) else {
        return Cached::NoMemory;
    };
    let check = check_code(alloc, memory, folder, name, text, code.line);
    match warn_of_check(alloc, warnings, check, name, &want.key) {
        Ok(()) => answered(
            alloc, memory, lib, folder, host, name, text, args, &want, warnings,
        ),
        Err(_) => Cached::NoMemory,
    }
}
