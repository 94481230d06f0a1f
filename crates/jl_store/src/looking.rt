// Looking for an answer in the cache.
ghost use Rattle.std.specs.Prelude.{◌≡◌, ◌≢◌, ◌<◌, ◌++◌, ◌∷◌, [], ℕ, List, IsTrue, IfOk, OnOk, OnErr, vec_len, vec_capacity};
ghost use Rattle.jl_text.specs.Texts.{is_name};
ghost use Rattle.jl_folder.specs.Views.{FolderAnswers, state, moved};
ghost use Rattle.jl_folder.specs.Calls.{Waits};
ghost use Rattle.jl_value.specs.Key.{key_of};
ghost use Rattle.jl_entry.specs.Entry.{IsHeadOf, Members};
ghost use Rattle.jl_entry.specs.Names.{root_of};
ghost use Rattle.jl_protocol.specs.Whole.{CodeAnswers};
ghost use Rattle.jl_store.specs.Asked.{asked};
ghost use Rattle.jl_store.specs.Looking.{IsJudged, Finds, IsMiss, SettlesFound, LooksUp, LooksTidy, IsAnswered, warning};
ghost use Rattle.jl_store.specs.Trust.{IsTrusted};
ghost use Rattle.jl_store.specs.Warned.{IsOrderly};

use crate::found::{Found, Look};
use crate::memory::{Memory, WarnKind, Warning};
use crate::reading::read_final;
use jl_entry::{EntryFile, ReadOutput, entry_file, entry_head, read_entry};
use jl_folder::{FileRead, Folder, Path, Text};
use jl_text::limits::MOST_ENTRY_BYTES;
use jl_value::{Args, Key, Value, canonical_table};
use std::alloc::{AllocError, Global};

// What the bytes of an output are to the code and the arguments whose entries begin with this head.
fn judge(alloc: Global, head: &str, bytes: &[u8]) -> Found
    ensures judged { (code : List ℕ) (ps : Members) → IsHeadOf head.now code ps
        → IsJudged result bytes.now code ps }
    ensures known { result ≢ Found.Fault }
{
    if bytes.len() > MOST_ENTRY_BYTES {
        return Found::Damaged;
    }
    match read_entry(alloc, head, bytes) {
        ReadOutput::Value(value) => Found::Value(value),
        ReadOutput::NotMine => Found::NotMine,
        ReadOutput::Damaged => Found::Damaged,
        ReadOutput::NoMemory => Found::NoMemory,
    }
}

// Reads an output through one open number, and compares.
fn find<F: Folder>(alloc: Global, folder: &mut F, output: &Path, head: &str) -> Found
    ensures frame { FolderAnswers (result ≡ Found.Fault) (F.view folder.old) (F.view folder.new) }
    ensures waits { (F.view folder.old).told → Waits (F.view folder.old) (F.view folder.new) }
    ensures finds { (F.view folder.old).told → (code : List ℕ) (ps : Members)
        → IsHeadOf head.now code ps
        → Finds output.now code ps result (state (F.view folder.old))
        (moved (F.view folder.old) (F.view folder.new)) }
{
    match read_final(alloc, folder, output) {
        FileRead::Bytes(bytes) => judge(alloc, head, bytes.as_slice()),
        FileRead::NoFile => Found::Absent,
        FileRead::Failed => Found::Fault,
        FileRead::NoMemory => Found::NoMemory,
    }
}

/// Adds a warning at the end, if there is memory.
pub fn warn(
    alloc: Global,
    warnings: &mut Vec<Warning>,
    kind: WarnKind,
    name: &str,
    key: Key,
) -> Result<(), AllocError>
    ensures ok { OnOk result (warnings.new.items ≡ warnings.old.items ++ record
        { kind = kind; name = name.now; key = key } ∷ []) }
    ensures err { OnErr result (warnings.new.items ≡ warnings.old.items) }
{
    let name = Text::new(String::from_str(alloc, name)?);
    warnings.push(Warning { kind, name, key })?;
    Ok(())
}

// Makes room for one warning more, and the name that it is to bear.
fn make_room(alloc: Global, warnings: &mut Vec<Warning>, name: &str) -> Result<Text, AllocError>
    ensures name { IfOk result (λ t. t ≡ name.now) }
    ensures items { warnings.new.items ≡ warnings.old.items }
    ensures room { OnOk result (vec_len warnings.new < vec_capacity warnings.new) }
{
    let name = Text::new(String::from_str(alloc, name)?);
    warnings.reserve(1)?;
    Ok(name)
}

// A miss that is warned of, where there is room for the warning.
fn miss(warnings: &mut Vec<Warning>, kind: WarnKind, name: Text, key: Key) -> Look
    requires { vec_len warnings.old < vec_capacity warnings.old }
    ensures { IsMiss result kind name key warnings.old.items warnings.new.items }
{
    let Ok(()) = warnings.push(Warning { kind, name, key }) else {
        unreachable!()
    };
    Look::Miss
}

// The answer of a look, and its warning.
fn settle(found: Found, name: Text, key: Key, warnings: &mut Vec<Warning>) -> Look
    requires { vec_len warnings.old < vec_capacity warnings.old }
    ensures { SettlesFound result found name key warnings.old.items warnings.new.items }
{
    match found {
        Found::Value(value) => Look::Hit(value),
        Found::Absent => Look::Miss,
        Found::NotMine => miss(warnings, WarnKind::NotMine, name, key),
        Found::Damaged => miss(warnings, WarnKind::Damaged, name, key),
        Found::Fault => miss(warnings, WarnKind::LoadFault, name, key),
        Found::NoMemory => Look::NoMemory,
    }
}

// What the entry of a code and of arguments is found by.
#[derive(Drop)]
pub(crate) struct Sought {
    pub(crate) key: Key,
    pub(crate) head: Text,
}

// Writes the arguments once, for the key and for what the entry begins with.
pub(crate) fn wanted(alloc: Global, code: &str, args: &Args) -> Result<Sought, AllocError>
    ensures key { IfOk result (λ w. w.key.0 ≡ key_of args.now) }
    ensures head { IfOk result (λ w. IsHeadOf w.head code.now args.now) }
{
    let text = canonical_table(alloc, args.value())?;
    let head = entry_head(alloc, code, text.as_str())?;
    let key = Key::of_text(text.as_str());
    Ok(Sought { key, head })
}

// Looks for the answer by its key and by what its entry begins with.
pub(crate) fn look_for<F: Folder>(
    alloc: Global,
    memory: &Memory,
    folder: &mut F,
    name: &str,
    wanted: &Sought,
    warnings: &mut Vec<Warning>,
) -> Look
    requires module_name { IsTrue (is_name memory.now.«module») }
    requires function_name { IsTrue (is_name name.now) }
    ensures frame { (ps : Members) → wanted.now.key.0 ≡ key_of ps
        → FolderAnswers
        (warnings.new.items ≡ warnings.old.items ++ warning WarnKind.LoadFault name.now ps ∷ [])
        (F.view folder.old) (F.view folder.new) }
    ensures waits { (F.view folder.old).told → Waits (F.view folder.old) (F.view folder.new) }
    ensures looks { (code : List ℕ) (n : ℕ) (ps : Members) → IsHeadOf wanted.now.head code ps
        → wanted.now.key.0 ≡ key_of ps
        → LooksUp result (asked memory.now name.now code n ps) warnings.old.items warnings.new.items
        (F.view folder.old) (F.view folder.new) }
    ensures tidy { (F.view folder.old).told → (code : List ℕ) (n : ℕ) (ps : Members)
        → IsHeadOf wanted.now.head code ps → wanted.now.key.0 ≡ key_of ps
        → IsOrderly (root_of memory.now.location) (F.view folder.old) (F.view folder.new)
        → LooksTidy result (asked memory.now name.now code n ps) warnings.old.items
        warnings.new.items (F.view folder.old) (F.view folder.new) }
    ensures sound { (code : List ℕ) (ps : Members) → IsHeadOf wanted.now.head code ps
        → wanted.now.key.0 ≡ key_of ps → (answer : CodeAnswers)
        → IsTrusted (root_of memory.now.location) answer (F.view folder.old) (F.view folder.new)
        → IsAnswered result answer code ps }
{
    let module = memory.module.as_str();
    let key = Key(wanted.key.0);
    let Ok(output) = entry_file(
        alloc,
        EntryFile::Output,
        &memory.location,
        module,
        name,
        &key,
    ) else {
        return Look::NoMemory;
    };
    let Ok(text) = make_room(alloc, warnings, name) else {
        return Look::NoMemory;
    };
    let found = find(alloc, folder, &output, wanted.head.as_str());
    settle(found, text, key, warnings)
}

/// Looks for the answer of this code on these arguments: opens the entry's output and reads that
/// one file to its end. Another
/// code's entry and damage are warned of, and so is a fault in opening or reading.
pub fn look<F: Folder>(
    alloc: Global,
    memory: &Memory,
    folder: &mut F,
    name: &str,
    code: &str,
    args: &Args,
    warnings: &mut Vec<Warning>,
) -> Look
    requires module_name { IsTrue (is_name memory.now.«module») }
    requires function_name { IsTrue (is_name name.now) }
    // A fault rose exactly where a load fault is warned of: want of memory is never told in its
    // place.
    ensures frame { FolderAnswers (warnings.new.items ≡ warnings.old.items ++ warning
        WarnKind.LoadFault name.now args.now ∷ []) (F.view folder.old) (F.view folder.new) }
    ensures waits { (F.view folder.old).told → Waits (F.view folder.old) (F.view folder.new) }
    ensures looks { (n : ℕ)
        → LooksUp result (asked memory.now name.now code.now n args.now) warnings.old.items
        warnings.new.items (F.view folder.old) (F.view folder.new) }
    ensures tidy { (F.view folder.old).told → (n : ℕ)
        → IsOrderly (root_of memory.now.location) (F.view folder.old) (F.view folder.new)
        → LooksTidy result (asked memory.now name.now code.now n args.now) warnings.old.items
        warnings.new.items (F.view folder.old) (F.view folder.new) }
    ensures sound { (answer : CodeAnswers)
        → IsTrusted (root_of memory.now.location) answer (F.view folder.old) (F.view folder.new)
        → IsAnswered result answer code.now args.now }
{
    match wanted(alloc, code, args) {
        Ok(wanted) => look_for(alloc, memory, folder, name, &wanted, warnings),
        Err(_) => Look::NoMemory,
    }
}
