// Checking that a function's entries are of its code.
ghost use Rattle.std.specs.Prelude.{◌≡◌, ◌≢◌, ◌⊎◌, ◌≤◌, ◌∷◌, [], true, Some, length, IsTrue, IfOk};
ghost use Rattle.jl_text.specs.Paths.{PathView};
ghost use Rattle.jl_text.specs.Texts.{is_name};
ghost use Rattle.jl_text.specs.Counts.{Rose};
ghost use Rattle.jl_text.specs.declared.limits.TheConstants.{MOST_TEXT_BYTES};
ghost use Rattle.jl_folder.specs.State.{place_at, has_parent};
ghost use Rattle.jl_folder.specs.Views.{FolderAnswers, state, moved};
ghost use Rattle.jl_folder.specs.declared.moves.Place.{Place};
ghost use Rattle.jl_folder.specs.Calls.{Waits};
ghost use Rattle.jl_value.specs.Lines.{IsLine};
ghost use Rattle.jl_entry.specs.Codes.{code_text};
ghost use Rattle.jl_entry.specs.Names.{Final, IsFinal, IsTemp, root_of, IsFunctionFolder};
ghost use Rattle.jl_rely.specs.Steps.{IsLone};
ghost use Rattle.jl_rely.specs.Touches.{TouchedByOther};
ghost use Rattle.jl_rely.specs.Claims.{Called, Anywhere};
ghost use Rattle.jl_protocol.specs.Whole.{CodeAnswers, IsWhole};
ghost use Rattle.jl_protocol.specs.Tidy.{IsTidy};
ghost use Rattle.jl_protocol.specs.Proper.{IsProper, LawfulThroughout};
ghost use Rattle.jl_store.specs.Alone.{LeavesCodeAlone};
ghost use Rattle.jl_store.specs.Kinds.{IsFor, PutsThis, UsesNames};
ghost use Rattle.jl_store.specs.Next.{ChecksAlone};
ghost use Rattle.jl_store.specs.Publishing.{IsOfFile, IsPublished};
ghost use Rattle.jl_store.specs.Checking.{IsHeld, Holds, AreFiles, IsCodePublished, Stores, MovesFor, Comes, UsesCode, SkipsFor, Checks, IsChecking, check_of, function_path, code_path, code_temp};
ghost use Rattle.jl_store.specs.Renames.{PutsInTurn};
ghost use Rattle.jl_store.specs.Warned.{IsOrderly};

use crate::checks::{CodeCheck, CodeFiles, Held};
use crate::files::{Published, publish};
use crate::folders::{MadeFolders, make_folders};
use crate::memory::Memory;
use crate::reading::read_final;
use jl_clear::{Clear, clear_entries};
use jl_entry::{code_file, function_folder, same_code, temp_name, write_code};
use jl_folder::{FileRead, Folder, Path};
use jl_text::limits::MOST_ENTRY_BYTES;
use std::alloc::{AllocError, Global};

fn compare(code: &str, bytes: &[u8]) -> Held
    ensures { IsHeld result bytes.now code.now }
{
    if bytes.len() > MOST_ENTRY_BYTES {
        return Held::Other;
    }
    if same_code(code, bytes) {
        return Held::Same;
    }
    Held::Other
}

// What the code's file holds.
fn held<F: Folder>(alloc: Global, folder: &mut F, last: &Path, code: &str) -> Held
    ensures frame { FolderAnswers (result ≡ Held.Fault) (F.view folder.old) (F.view folder.new) }
    ensures waits { (F.view folder.old).told → Waits (F.view folder.old) (F.view folder.new) }
    ensures holds { (F.view folder.old).told
        → Holds last.now code.now result (state (F.view folder.old))
        (moved (F.view folder.old) (F.view folder.new)) }
{
    match read_final(alloc, folder, last) {
        FileRead::Bytes(bytes) => compare(code, bytes.as_slice()),
        FileRead::NoFile => Held::Absent,
        FileRead::Failed => Held::Fault,
        FileRead::NoMemory => Held::NoMemory,
    }
}

fn code_files(alloc: Global, memory: &Memory, name: &str) -> Result<CodeFiles, AllocError>
    requires module_name { IsTrue (is_name memory.now.«module») }
    requires function_name { IsTrue (is_name name.now) }
    ensures { IfOk result
        (AreFiles (root_of memory.now.location) memory.now.«module» name.now memory.now.token) }
{
    let module = memory.module.as_str();
    let folder = function_folder(alloc, &memory.location, module, name)?;
    let last = code_file(alloc, &memory.location, module, name)?;
    let temp = temp_name(alloc, &last, &memory.token)?;
    Ok(CodeFiles { folder, last, temp })
}

fn as_check(published: Published, done: CodeCheck) -> CodeCheck
    ensures { result ≡ check_of published done }
{
    match published {
        Published::Done => done,
        Published::Skipped => CodeCheck::Skipped,
        Published::Fault => CodeCheck::StoreFault,
        Published::NoMemory => CodeCheck::NoMemory,
    }
}

// Publishes the code's file.
fn store<F: Folder>(folder: &mut F, files: &CodeFiles, bytes: &[u8], done: CodeCheck) -> CodeCheck
    requires of_file { IsOfFile (F.view folder.old).token files.now.last files.now.temp bytes.now }
    requires done { done ≢ CodeCheck.StoreFault }
    requires unskipped { done ≢ CodeCheck.Skipped }
    ensures stores { Stores files.now bytes.now (IsFor files.now.last files.now.temp) result
        (F.view folder.old) (F.view folder.new) }
    ensures answer { (p : Published) × (result ≡ check_of p done) }
    ensures skipped { (F.view folder.old).told → result ≡ CodeCheck.Skipped → (root : PathView) (x : Final) →
        IsTemp root x (F.view folder.old).token files.now.temp → IsFinal root x files.now.last → IsWhole x bytes.now →
        IsTidy root (state (F.view folder.old)) → has_parent (state (F.view folder.old)) files.now.last ≡ true →
        TouchedByOther (F.view folder.old).token (UsesNames files.now.last files.now.temp) (moved (F.view folder.old) (F.view folder.new)) }
    ensures alone { (F.view folder.old).told → IsCodePublished result → IsLone (F.view folder.old).token (moved (F.view folder.old) (F.view folder.new)) →
        IsPublished files.now.last files.now.temp bytes.now (state (F.view folder.old)) (state (F.view folder.new)) }
{
    let published = publish(folder, &files.last, &files.temp, bytes);
    as_check(published, done)
}

// Makes the folders and publishes the code.
fn write_new<F: Folder>(alloc: Global, folder: &mut F, files: &CodeFiles, bytes: &[u8]) -> CodeCheck
    requires { IsOfFile (F.view folder.old).token files.now.last files.now.temp bytes.now }
    ensures stores { Stores files.now bytes.now (MovesFor files.now Held.Absent) result
        (F.view folder.old) (F.view folder.new) }
    ensures comes { Comes result Held.Absent }
    ensures skips { (F.view folder.old).told
        → SkipsFor result files.now bytes.now Anywhere (F.view folder.old) (F.view folder.new) }
    ensures alone { (F.view folder.old).told
        → IsLone (F.view folder.old).token (moved (F.view folder.old) (F.view folder.new))
        → LeavesCodeAlone result files.now bytes.now (F.view folder.old) (F.view folder.new) }
{
    match make_folders(alloc, folder, &files.folder) {
        MadeFolders::Made => store(folder, files, bytes, CodeCheck::Written),
        MadeFolders::Skipped => CodeCheck::Skipped,
        MadeFolders::Fault => CodeCheck::StoreFault,
        MadeFolders::NoMemory => CodeCheck::NoMemory,
    }
}

// Takes away the entries of another code and publishes this one.
fn write_over<F: Folder>(
    alloc: Global,
    folder: &mut F,
    files: &CodeFiles,
    bytes: &[u8],
) -> CodeCheck
    requires of_file { IsOfFile (F.view folder.old).token files.now.last files.now.temp bytes.now }
    requires of_function { (root : PathView) × IsFunctionFolder root files.now.folder }
    ensures stores { Stores files.now bytes.now (MovesFor files.now Held.Other) result
        (F.view folder.old) (F.view folder.new) }
    ensures comes { Comes result Held.Other }
    ensures skips { (F.view folder.old).told
        → SkipsFor result files.now bytes.now (λ s. place_at s files.now.folder ≡ Some Place.Folder)
        (F.view folder.old) (F.view folder.new) }
    ensures alone { (F.view folder.old).told
        → IsLone (F.view folder.old).token (moved (F.view folder.old) (F.view folder.new))
        → LeavesCodeAlone result files.now bytes.now (F.view folder.old) (F.view folder.new) }
{
    match clear_entries(alloc, folder, &files.folder) {
        Clear::Cleared => store(folder, files, bytes, CodeCheck::Cleared),
        Clear::Fault => CodeCheck::StoreFault,
        Clear::NoMemory => CodeCheck::NoMemory,
    }
}

// What has to be done by what the file holds.
fn follow<F: Folder>(
    alloc: Global,
    folder: &mut F,
    files: &CodeFiles,
    bytes: &[u8],
    held: Held,
) -> CodeCheck
    requires of_file { IsOfFile (F.view folder.old).token files.now.last files.now.temp bytes.now }
    requires of_function { (root : PathView) × IsFunctionFolder root files.now.folder }
    ensures stores { Stores files.now bytes.now (MovesFor files.now held) result (F.view folder.old)
        (F.view folder.new) }
    ensures comes { Comes result held }
    ensures skips { (F.view folder.old).told
        → SkipsFor result files.now bytes.now
        (λ s. held ≡ Held.Other → place_at s files.now.folder ≡ Some Place.Folder)
        (F.view folder.old) (F.view folder.new) }
    ensures alone { (F.view folder.old).told
        → IsLone (F.view folder.old).token (moved (F.view folder.old) (F.view folder.new))
        → LeavesCodeAlone result files.now bytes.now (F.view folder.old) (F.view folder.new) }
{
    match held {
        Held::Same => CodeCheck::Same,
        Held::Absent => write_new(alloc, folder, files, bytes),
        Held::Other => write_over(alloc, folder, files, bytes),
        Held::Fault => CodeCheck::LoadFault,
        Held::NoMemory => CodeCheck::NoMemory,
    }
}

/// Checks that a function's entries are of this code. Where its file is absent it is published;
/// where it holds another code, the
/// entries are taken away first.
pub fn check_code<F: Folder>(
    alloc: Global,
    memory: &Memory,
    folder: &mut F,
    name: &str,
    code: &str,
    line: u64,
) -> CodeCheck
    requires token { (F.view folder.old).token ≡ memory.now.token }
    requires module_name { IsTrue (is_name memory.now.«module») }
    requires function_name { IsTrue (is_name name.now) }
    requires code { length code.now ≤ MOST_TEXT_BYTES }
    requires one_line { IsLine code.now }
    requires line { 1 ≤ line }
    ensures frame { FolderAnswers ((result ≡ CodeCheck.LoadFault) ⊎ (result ≡ CodeCheck.StoreFault))
        (F.view folder.old) (F.view folder.new) }
    ensures called { (F.view folder.old).told → Called (IsProper (root_of memory.now.location))
        (PutsThis (root_of memory.now.location) (code_path (root_of memory.now.location) memory.now.«module» name.now) (code_text code.now line))
        (IsChecking (function_path (root_of memory.now.location) memory.now.«module» name.now)
        (code_path (root_of memory.now.location) memory.now.«module» name.now)
        (code_temp (root_of memory.now.location) memory.now.«module» name.now memory.now.token))
        (IsTidy (root_of memory.now.location)) Anywhere (F.view folder.old) (F.view folder.new) }
    // Its final name is put in place at most once.
    ensures once { (F.view folder.old).told
        → PutsInTurn (code_path (root_of memory.now.location) memory.now.«module» name.now ∷ [])
        (F.view folder.old).token (moved (F.view folder.old) (F.view folder.new)) }
    ensures lawful { (F.view folder.old).told → (answer : CodeAnswers) →
        LawfulThroughout (root_of memory.now.location) answer memory.now.token (state (F.view folder.old)) (moved (F.view folder.old) (F.view folder.new)) }
    // What the answer tells of the code's file at its opening, and of the own moves.
    ensures checks { (F.view folder.old).told → Checks result
        (function_path (root_of memory.now.location) memory.now.«module» name.now)
        (code_path (root_of memory.now.location) memory.now.«module» name.now)
        (code_temp (root_of memory.now.location) memory.now.«module» name.now memory.now.token)
        code.now (F.view folder.old) (F.view folder.new) }
    ensures skipped { (F.view folder.old).told → result ≡ CodeCheck.Skipped → IsOrderly (root_of memory.now.location) (F.view folder.old) (F.view folder.new) →
        TouchedByOther memory.now.token
        (UsesCode (function_path (root_of memory.now.location) memory.now.«module» name.now)
        (code_path (root_of memory.now.location) memory.now.«module» name.now)
        (code_temp (root_of memory.now.location) memory.now.«module» name.now memory.now.token))
        (moved (F.view folder.old) (F.view folder.new)) }
    ensures alone { (F.view folder.old).told → IsLone memory.now.token (moved (F.view folder.old) (F.view folder.new)) → IsTidy (root_of memory.now.location) (state (F.view folder.old)) →
        (Rose (F.view folder.old).faults (F.view folder.new).faults → ⊥) →
        ChecksAlone result
        (function_path (root_of memory.now.location) memory.now.«module» name.now)
        (code_path (root_of memory.now.location) memory.now.«module» name.now)
        (code_temp (root_of memory.now.location) memory.now.«module» name.now memory.now.token)
        code.now (code_text code.now line) (state (F.view folder.old)) (state (F.view folder.new)) }
{
    let Ok(files) = code_files(alloc, memory, name) else {
        return CodeCheck::NoMemory;
    };
    let Ok(bytes) = write_code(alloc, code, line) else {
        return CodeCheck::NoMemory;
    };
    let held = held(alloc, folder, &files.last, code);
    follow(alloc, folder, &files, bytes.as_slice(), held)
}
