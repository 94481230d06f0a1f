// Keeping an answer.
ghost use Rattle.std.specs.Prelude.{◌≡◌, ◌⊎◌, ℕ, List, true, IfOk, IsTrue, ⊤};
ghost use Rattle.hex.specs.Hex.{encode_lower};
ghost use Rattle.jl_text.specs.Texts.{is_name};
ghost use Rattle.jl_folder.specs.State.{is_folder};
ghost use Rattle.jl_folder.specs.Views.{FolderAnswers, state, moved};
ghost use Rattle.jl_value.specs.Form.{tree_of};
ghost use Rattle.jl_value.specs.Key.{key_of};
ghost use Rattle.jl_entry.specs.Moments.{IsMoment, access_text};
ghost use Rattle.jl_entry.specs.Names.{root_of, IsFinal, IsTemp};
ghost use Rattle.jl_rely.specs.Steps.{IsLone, OwnMoves};
ghost use Rattle.jl_rely.specs.Claims.{GoesOn};
ghost use Rattle.jl_rely.specs.Touches.{TouchedByOther};
ghost use Rattle.jl_protocol.specs.Tidy.{IsTidy};
ghost use Rattle.jl_protocol.specs.Whole.{IsWhole};
ghost use Rattle.jl_clear.specs.Taking.{IsBeside};
ghost use Rattle.jl_store.specs.Kinds.{UsesNames};
ghost use Rattle.jl_store.specs.Publishing.{IsPublished};
ghost use Rattle.jl_store.specs.Renames.{PutsInTurn};
ghost use Rattle.jl_store.specs.Keeping.{entry_in, entry_path, function_path, file_of, last_of, temp_of, texts as texts_of, text_in, AreEntryTexts, keep_of, made_of, IsKeepable, KeepsEntry, KeepsFile, HasPutMoments, HasPutAll, IsMakingEntry, moments_of, lasts_of, MomentsInOrder, InOrder, IsMoments, IsAnyFile, EntryPlace, UsesEntry, IsReadyFor, AreReady, IsReadyToKeep, IsReadyToTouch, HasFiles, HasEntry};
ghost use Rattle.jl_store.specs.declared.keeping.EntryTexts.{EntryTexts};

use crate::answer::Keep;
use crate::files::{Published, publish};
use crate::memory::Memory;
use jl_entry::{
    EntryFile, entry_file, entry_folder, temp_name, write_access, write_metadata, write_output,
};
use jl_folder::{Bytes, Folder, MadeDir, Path};
use jl_value::{Args, Key, Value, digest};
use std::alloc::{AllocError, Global};

// A file's final name, and its temporary one.
#[derive(Drop)]
struct FileNames {
    last: Path,
    temp: Path,
}

// The texts of an entry's files.
#[derive(Drop)]
struct EntryTexts {
    output: Bytes,
    metadata: Bytes,
    access: Bytes,
}

fn as_keep(published: Published) -> Keep
    ensures { result ≡ keep_of published }
{
    match published {
        Published::Done => Keep::Kept,
        Published::Skipped => Keep::Skipped,
        Published::Fault => Keep::Fault,
        Published::NoMemory => Keep::NoMemory,
    }
}

fn made(answer: MadeDir) -> Keep
    ensures { result ≡ made_of answer }
{
    match answer {
        MadeDir::Made => Keep::Kept,
        MadeDir::Exists => Keep::Kept,
        MadeDir::NoParent => Keep::Skipped,
        MadeDir::Failed => Keep::Fault,
        MadeDir::NoMemory => Keep::NoMemory,
    }
}

// The names of a file of an entry.
fn file_names(
    alloc: Global,
    memory: &Memory,
    file: EntryFile,
    name: &str,
    key: &Key,
) -> Result<FileNames, AllocError>
    requires module_name { IsTrue (is_name memory.now.«module») }
    requires function_name { IsTrue (is_name name.now) }
    ensures last { IfOk result (λ n. IsFinal (root_of memory.now.location)
        (file_of (entry_in memory.now name.now key.now.0) file) n.last) }
    ensures temp { IfOk result (λ n. IsTemp (root_of memory.now.location)
        (file_of (entry_in memory.now name.now key.now.0) file) memory.now.token n.temp) }
{
    let module = memory.module.as_str();
    let last = entry_file(alloc, file, &memory.location, module, name, key)?;
    let temp = temp_name(alloc, &last, &memory.token)?;
    Ok(FileNames { last, temp })
}

// Publishes one file of an entry.
fn keep_file<F: Folder>(
    alloc: Global,
    memory: &Memory,
    folder: &mut F,
    file: EntryFile,
    name: &str,
    key: &Key,
    bytes: &[u8],
) -> Keep
    requires token { (F.view folder.old).token ≡ memory.now.token }
    requires module_name { IsTrue (is_name memory.now.«module») }
    requires function_name { IsTrue (is_name name.now) }
    requires whole { IsWhole (file_of (entry_in memory.now name.now key.now.0) file) bytes.now }
    ensures goes { (F.view folder.old).told → GoesOn (F.view folder.old) (F.view folder.new) }
    ensures frame { FolderAnswers (result ≡ Keep.Fault) (F.view folder.old) (F.view folder.new) }
    ensures called { (F.view folder.old).told
        → IsWhole (file_of (entry_in memory.now name.now key.now.0) file) bytes.now
        → KeepsFile (entry_in memory.now name.now key.now.0) file bytes.now
        (IsReadyFor (entry_in memory.now name.now key.now.0) (F.view folder.old).token file) result
        (F.view folder.old) (F.view folder.new) }
    ensures tidy { (F.view folder.old).told
        → IsWhole (file_of (entry_in memory.now name.now key.now.0) file) bytes.now
        → result ≡ Keep.Skipped
        → IsReadyToTouch (entry_in memory.now name.now key.now.0) (state (F.view folder.old))
        → TouchedByOther (F.view folder.old).token (UsesNames
        (last_of (entry_in memory.now name.now key.now.0) file)
        (temp_of (entry_in memory.now name.now key.now.0) (F.view folder.old).token file))
        (moved (F.view folder.old) (F.view folder.new)) }
    ensures alone { (F.view folder.old).told → result ≡ Keep.Kept
        → IsLone (F.view folder.old).token (moved (F.view folder.old) (F.view folder.new))
        → IsPublished (last_of (entry_in memory.now name.now key.now.0) file)
        (temp_of (entry_in memory.now name.now key.now.0) (F.view folder.old).token file) bytes.now
        (state (F.view folder.old)) (state (F.view folder.new)) }
{
    match file_names(alloc, memory, file, name, key) {
        Ok(names) => as_keep(publish(folder, &names.last, &names.temp, bytes)),
        Err(_) => Keep::NoMemory,
    }
}

// Makes the entry's folder, if it isn't there.
fn make_entry<F: Folder>(
    alloc: Global,
    memory: &Memory,
    folder: &mut F,
    name: &str,
    key: &Key,
) -> Keep
    requires token { (F.view folder.old).token ≡ memory.now.token }
    requires module_name { IsTrue (is_name memory.now.«module») }
    requires function_name { IsTrue (is_name name.now) }
    ensures goes { (F.view folder.old).told → GoesOn (F.view folder.old) (F.view folder.new) }
    ensures frame { FolderAnswers (result ≡ Keep.Fault) (F.view folder.old) (F.view folder.new) }
    ensures makes { (F.view folder.old).told
        → OwnMoves (F.view folder.old).token
        (IsMakingEntry (entry_in memory.now name.now key.now.0))
        (moved (F.view folder.old) (F.view folder.new)) }
    ensures called { (F.view folder.old).told → (text : EntryFile → List ℕ)
        → KeepsEntry (entry_in memory.now name.now key.now.0) text
        (λ s. is_folder s (function_path (entry_in memory.now name.now key.now.0)) ≡ true)
        (λ steps. ⊤) result (F.view folder.old) (F.view folder.new) }
    ensures ready { (F.view folder.old).told → result ≡ Keep.Kept
        → IsTidy (root_of memory.now.location) (state (F.view folder.old))
        → AreReady (entry_in memory.now name.now key.now.0) (F.view folder.old).token IsAnyFile
        (state (F.view folder.new)) ⊎ TouchedByOther (F.view folder.old).token
        (UsesEntry (entry_in memory.now name.now key.now.0) (F.view folder.old).token)
        (moved (F.view folder.old) (F.view folder.new)) }
    ensures alone { (F.view folder.old).told → result ≡ Keep.Kept
        → IsLone (F.view folder.old).token (moved (F.view folder.old) (F.view folder.new))
        → IsBeside (λ p. p ≡ entry_path (entry_in memory.now name.now key.now.0))
        (state (F.view folder.old)) (state (F.view folder.new)) }
{
    let _token = memory.token.as_str();
    match entry_folder(alloc, &memory.location, memory.module.as_str(), name, key) {
        Ok(path) => made(folder.make_dir(&path)),
        Err(_) => Keep::NoMemory,
    }
}

// Publishes the metadata and the last access.
fn keep_moments<F: Folder>(
    alloc: Global,
    memory: &Memory,
    folder: &mut F,
    name: &str,
    key: &Key,
    texts: &EntryTexts,
) -> Keep
    requires token { (F.view folder.old).token ≡ memory.now.token }
    requires module_name { IsTrue (is_name memory.now.«module») }
    requires function_name { IsTrue (is_name name.now) }
    requires whole { AreEntryTexts (entry_in memory.now name.now key.now.0) (text_in texts.now) }
    ensures goes { (F.view folder.old).told → GoesOn (F.view folder.old) (F.view folder.new) }
    ensures frame { FolderAnswers (result ≡ Keep.Fault) (F.view folder.old) (F.view folder.new) }
    ensures once { (F.view folder.old).told
        → PutsInTurn (moments_of (entry_in memory.now name.now key.now.0)) (F.view folder.old).token
        (moved (F.view folder.old) (F.view folder.new)) }
    ensures order { (F.view folder.old).told
        → MomentsInOrder (entry_in memory.now name.now key.now.0) (F.view folder.old).token
        (moved (F.view folder.old) (F.view folder.new)) }
    ensures called { (F.view folder.old).told
        → AreEntryTexts (entry_in memory.now name.now key.now.0) (text_in texts.now)
        → KeepsEntry (entry_in memory.now name.now key.now.0) (text_in texts.now)
        (AreReady (entry_in memory.now name.now key.now.0) (F.view folder.old).token IsMoments)
        (HasPutMoments (entry_in memory.now name.now key.now.0) (F.view folder.old).token) result
        (F.view folder.old) (F.view folder.new) }
    ensures alone { (F.view folder.old).told
        → AreEntryTexts (entry_in memory.now name.now key.now.0) (text_in texts.now) → result ≡ Keep.Kept
        → IsLone (F.view folder.old).token (moved (F.view folder.old) (F.view folder.new))
        → HasFiles (entry_in memory.now name.now key.now.0) (F.view folder.old).token
        (text_in texts.now) IsMoments (state (F.view folder.old)) (state (F.view folder.new)) }
{
    let metadata = texts.metadata.as_slice();
    match keep_file(
        alloc,
        memory,
        folder,
        EntryFile::Metadata,
        name,
        key,
        metadata,
    ) {
        Keep::Kept => {
            let access = texts.access.as_slice();
            keep_file(alloc, memory, folder, EntryFile::Access, name, key, access)
        }
        Keep::Skipped => Keep::Skipped,
        Keep::Fault => Keep::Fault,
        Keep::NoMemory => Keep::NoMemory,
    }
}

// Publishes the three files, the output first.
fn keep_files<F: Folder>(
    alloc: Global,
    memory: &Memory,
    folder: &mut F,
    name: &str,
    key: &Key,
    texts: &EntryTexts,
) -> Keep
    requires token { (F.view folder.old).token ≡ memory.now.token }
    requires module_name { IsTrue (is_name memory.now.«module») }
    requires function_name { IsTrue (is_name name.now) }
    requires whole { AreEntryTexts (entry_in memory.now name.now key.now.0) (text_in texts.now) }
    ensures goes { (F.view folder.old).told → GoesOn (F.view folder.old) (F.view folder.new) }
    ensures frame { FolderAnswers (result ≡ Keep.Fault) (F.view folder.old) (F.view folder.new) }
    ensures once { (F.view folder.old).told
        → PutsInTurn (lasts_of (entry_in memory.now name.now key.now.0)) (F.view folder.old).token
        (moved (F.view folder.old) (F.view folder.new)) }
    ensures order { (F.view folder.old).told
        → InOrder (IsMakingEntry (entry_in memory.now name.now key.now.0))
        (entry_in memory.now name.now key.now.0) (F.view folder.old).token
        (moved (F.view folder.old) (F.view folder.new)) }
    ensures called { (F.view folder.old).told
        → AreEntryTexts (entry_in memory.now name.now key.now.0) (text_in texts.now)
        → KeepsEntry (entry_in memory.now name.now key.now.0) (text_in texts.now)
        (AreReady (entry_in memory.now name.now key.now.0) (F.view folder.old).token IsAnyFile)
        (HasPutAll (entry_in memory.now name.now key.now.0) (F.view folder.old).token) result
        (F.view folder.old) (F.view folder.new) }
    ensures alone { (F.view folder.old).told
        → AreEntryTexts (entry_in memory.now name.now key.now.0) (text_in texts.now) → result ≡ Keep.Kept
        → IsLone (F.view folder.old).token (moved (F.view folder.old) (F.view folder.new))
        → HasFiles (entry_in memory.now name.now key.now.0) (F.view folder.old).token
        (text_in texts.now) IsAnyFile (state (F.view folder.old)) (state (F.view folder.new)) }
{
    let output = texts.output.as_slice();
    match keep_file(alloc, memory, folder, EntryFile::Output, name, key, output) {
        Keep::Kept => keep_moments(alloc, memory, folder, name, key, texts),
        Keep::Skipped => Keep::Skipped,
        Keep::Fault => Keep::Fault,
        Keep::NoMemory => Keep::NoMemory,
    }
}

// Makes the folder, and publishes the files in it.
fn keep_texts<F: Folder>(
    alloc: Global,
    memory: &Memory,
    folder: &mut F,
    name: &str,
    key: &Key,
    texts: &EntryTexts,
) -> Keep
    requires token { (F.view folder.old).token ≡ memory.now.token }
    requires module_name { IsTrue (is_name memory.now.«module») }
    requires function_name { IsTrue (is_name name.now) }
    requires whole { AreEntryTexts (entry_in memory.now name.now key.now.0) (text_in texts.now) }
    ensures goes { (F.view folder.old).told → GoesOn (F.view folder.old) (F.view folder.new) }
    ensures frame { FolderAnswers (result ≡ Keep.Fault) (F.view folder.old) (F.view folder.new) }
    ensures once { (F.view folder.old).told
        → PutsInTurn (lasts_of (entry_in memory.now name.now key.now.0)) (F.view folder.old).token
        (moved (F.view folder.old) (F.view folder.new)) }
    ensures order { (F.view folder.old).told
        → InOrder (IsMakingEntry (entry_in memory.now name.now key.now.0))
        (entry_in memory.now name.now key.now.0) (F.view folder.old).token
        (moved (F.view folder.old) (F.view folder.new)) }
    ensures called { (F.view folder.old).told
        → AreEntryTexts (entry_in memory.now name.now key.now.0) (text_in texts.now)
        → KeepsEntry (entry_in memory.now name.now key.now.0) (text_in texts.now)
        (IsReadyToKeep (entry_in memory.now name.now key.now.0))
        (HasPutAll (entry_in memory.now name.now key.now.0) (F.view folder.old).token) result
        (F.view folder.old) (F.view folder.new) }
    ensures alone { (F.view folder.old).told
        → AreEntryTexts (entry_in memory.now name.now key.now.0) (text_in texts.now) → result ≡ Keep.Kept
        → IsLone (F.view folder.old).token (moved (F.view folder.old) (F.view folder.new))
        → HasEntry (entry_in memory.now name.now key.now.0) (F.view folder.old).token
        (text_in texts.now) (state (F.view folder.old)) (state (F.view folder.new)) }
{
    match make_entry(alloc, memory, folder, name, key) {
        Keep::Kept => keep_files(alloc, memory, folder, name, key, texts),
        Keep::Skipped => Keep::Skipped,
        Keep::Fault => Keep::Fault,
        Keep::NoMemory => Keep::NoMemory,
    }
}

// The texts of the three files.
fn entry_texts(
    alloc: Global,
    code: &str,
    args: &Args,
    value: &Value,
    duration: u64,
    moment: u64,
) -> Result<EntryTexts, AllocError>
    requires keepable { IsKeepable code.now args.now (tree_of value.now) }
    requires duration { IsMoment duration }
    requires moment { IsMoment moment }
    ensures texts { IfOk result (λ t. (file : EntryFile) → text_in t file ≡ texts_of code.now
        args.now (tree_of value.now) duration moment file) }
    ensures whole { (e : EntryPlace) → e.key ≡ encode_lower (key_of args.now)
        → IfOk result (λ t. AreEntryTexts e (text_in t)) }
{
    let output = write_output(alloc, code, args, value)?;
    let metadata = write_metadata(alloc, duration, moment)?;
    let access = write_access(alloc, moment)?;
    Ok(EntryTexts {
        output,
        metadata,
        access,
    })
}

// Keeps an answer under the key of its arguments.
pub(crate) fn keep_as<F: Folder>(
    alloc: Global,
    memory: &Memory,
    folder: &mut F,
    name: &str,
    key: &Key,
    code: &str,
    args: &Args,
    value: &Value,
    duration: u64,
    moment: u64,
) -> Keep
    requires token { (F.view folder.old).token ≡ memory.now.token }
    requires module_name { IsTrue (is_name memory.now.«module») }
    requires function_name { IsTrue (is_name name.now) }
    requires key { key.now.0 ≡ key_of args.now }
    requires keepable { IsKeepable code.now args.now (tree_of value.now) }
    requires duration { IsMoment duration }
    requires moment { IsMoment moment }
    ensures goes { (F.view folder.old).told → GoesOn (F.view folder.old) (F.view folder.new) }
    ensures frame { FolderAnswers (result ≡ Keep.Fault) (F.view folder.old) (F.view folder.new) }
    ensures once { (F.view folder.old).told
        → PutsInTurn (lasts_of (entry_in memory.now name.now (key_of args.now)))
        (F.view folder.old).token (moved (F.view folder.old) (F.view folder.new)) }
    ensures order { (F.view folder.old).told
        → InOrder (IsMakingEntry (entry_in memory.now name.now (key_of args.now)))
        (entry_in memory.now name.now (key_of args.now)) (F.view folder.old).token
        (moved (F.view folder.old) (F.view folder.new)) }
    ensures called { (F.view folder.old).told
        → KeepsEntry (entry_in memory.now name.now (key_of args.now))
        (texts_of code.now args.now (tree_of value.now) duration moment)
        (IsReadyToKeep (entry_in memory.now name.now (key_of args.now)))
        (HasPutAll (entry_in memory.now name.now (key_of args.now)) (F.view folder.old).token)
        result (F.view folder.old) (F.view folder.new) }
    ensures alone { (F.view folder.old).told → result ≡ Keep.Kept
        → IsLone (F.view folder.old).token (moved (F.view folder.old) (F.view folder.new))
        → HasEntry (entry_in memory.now name.now (key_of args.now)) (F.view folder.old).token
        (texts_of code.now args.now (tree_of value.now) duration moment) (state (F.view folder.old))
        (state (F.view folder.new)) }
{
    let Ok(texts) = entry_texts(alloc, code, args, value, duration, moment) else {
        return Keep::NoMemory;
    };
    keep_texts(alloc, memory, folder, name, key, &texts)
}

/// Keeps an answer: makes the entry's folder and publishes the output, the metadata and the last
/// access; the first that is skipped or fails ends it.
/// The duration and the moment are in microseconds. It knows no library: whether the value is the
/// code's answer is the caller's part.
pub fn keep<F: Folder>(
    alloc: Global,
    memory: &Memory,
    folder: &mut F,
    name: &str,
    code: &str,
    args: &Args,
    value: &Value,
    duration: u64,
    moment: u64,
) -> Keep
    requires token { (F.view folder.old).token ≡ memory.now.token }
    requires module_name { IsTrue (is_name memory.now.«module») }
    requires function_name { IsTrue (is_name name.now) }
    requires keepable { IsKeepable code.now args.now (tree_of value.now) }
    requires duration { IsMoment duration }
    requires moment { IsMoment moment }
    ensures goes { (F.view folder.old).told → GoesOn (F.view folder.old) (F.view folder.new) }
    ensures frame { FolderAnswers (result ≡ Keep.Fault) (F.view folder.old) (F.view folder.new) }
    ensures once { (F.view folder.old).told
        → PutsInTurn (lasts_of (entry_in memory.now name.now (key_of args.now)))
        (F.view folder.old).token (moved (F.view folder.old) (F.view folder.new)) }
    // The output is put in place before there is anything of the metadata, and the metadata before
    // there is anything of the last access.
    ensures order { (F.view folder.old).told
        → InOrder (IsMakingEntry (entry_in memory.now name.now (key_of args.now)))
        (entry_in memory.now name.now (key_of args.now)) (F.view folder.old).token
        (moved (F.view folder.old) (F.view folder.new)) }
    ensures called { (F.view folder.old).told
        → KeepsEntry (entry_in memory.now name.now (key_of args.now))
        (texts_of code.now args.now (tree_of value.now) duration moment)
        (IsReadyToKeep (entry_in memory.now name.now (key_of args.now)))
        (HasPutAll (entry_in memory.now name.now (key_of args.now)) (F.view folder.old).token)
        result (F.view folder.old) (F.view folder.new) }
    ensures alone { (F.view folder.old).told → result ≡ Keep.Kept
        → IsLone (F.view folder.old).token (moved (F.view folder.old) (F.view folder.new))
        → HasEntry (entry_in memory.now name.now (key_of args.now)) (F.view folder.old).token
        (texts_of code.now args.now (tree_of value.now) duration moment) (state (F.view folder.old))
        (state (F.view folder.new)) }
{
    match digest(alloc, args) {
        Ok(key) => keep_as(
            alloc, memory, folder, name, &key, code, args, value, duration, moment,
        ),
        Err(_) => Keep::NoMemory,
    }
}

/// Publishes the last access of an entry alone. The moment is in microseconds.
pub fn touch<F: Folder>(
    alloc: Global,
    memory: &Memory,
    folder: &mut F,
    name: &str,
    key: &Key,
    moment: u64,
) -> Keep
    requires token { (F.view folder.old).token ≡ memory.now.token }
    requires module_name { IsTrue (is_name memory.now.«module») }
    requires function_name { IsTrue (is_name name.now) }
    requires moment { IsMoment moment }
    ensures goes { (F.view folder.old).told → GoesOn (F.view folder.old) (F.view folder.new) }
    ensures frame { FolderAnswers (result ≡ Keep.Fault) (F.view folder.old) (F.view folder.new) }
    ensures called { (F.view folder.old).told
        → KeepsFile (entry_in memory.now name.now key.now.0) EntryFile.Access (access_text moment)
        (IsReadyToTouch (entry_in memory.now name.now key.now.0)) result (F.view folder.old)
        (F.view folder.new) }
    ensures alone { (F.view folder.old).told → result ≡ Keep.Kept
        → IsLone (F.view folder.old).token (moved (F.view folder.old) (F.view folder.new))
        → IsPublished (last_of (entry_in memory.now name.now key.now.0) EntryFile.Access) (temp_of
        (entry_in memory.now name.now key.now.0) (F.view folder.old).token EntryFile.Access)
        (access_text moment) (state (F.view folder.old)) (state (F.view folder.new)) }
{
    match write_access(alloc, moment) {
        Ok(bytes) => keep_file(
            alloc,
            memory,
            folder,
            EntryFile::Access,
            name,
            key,
            bytes.as_slice(),
        ),
        Err(_) => Keep::NoMemory,
    }
}
