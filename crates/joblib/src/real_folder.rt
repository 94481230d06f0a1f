// The folder of the system's files, each open one under a number.
ghost use Rattle.std.specs.Prelude.{◌≡◌, ◌≢◌, ◌⊎◌, ◌≤◌, ◌<◌, ◌^◌, ℕ, ◌++◌, [], ◌∷◌, true, false, length, IfOk, IfErr, MatchOption, None, OnOk, OnErr, IsTrue, All};
ghost use Rattle.std.specs.IoError.{error_kind};
ghost use Rattle.jl_text.specs.Paths.{is_part, is_fixed};
ghost use Rattle.jl_folder.specs.State.{Opens, put_open, closed};
ghost use Rattle.jl_folder.specs.OpenTable.{opens_of};
ghost use Rattle.jl_folder.specs.Calls.{AppendsSome, CreatedOpens, OpenedOpens, ReadsWithin};
ghost use Rattle.jl_text.specs.Counts.{Rose};
ghost use Rattle.jl_folder.specs.Listing.{ListsParts};
ghost use Rattle.joblib.specs.Kinds.{TellsKind};
ghost use Rattle.std.specs.declared.io.ErrorKind.TheVariants.{NotFound, NotADirectory, IsADirectory, DirectoryNotEmpty, AlreadyExists, OutOfMemory};

use jl_folder::{
    Appended, Created, FileNo, Folder, Listed, MadeDir, Name, NameList, OpenFile, Opened, ReadAt,
    Removed, RemovedDir, Renamed, SizeOf, close_at, open_next,
};
use jl_text::{Path, Text, Token, is_part};
use std::alloc::{AllocError, Global};
use std::collections::BTreeMap;
use std::fs::{File, OpenOptions};
use std::io::{ErrorKind, Write};
use std::os::unix::fs::FileExt;
use std::rt::Files;
use std::{fs, io};

/// The system's files below the current folder, and from `/` the topmost. It tells nothing of what
/// stands there, since anyone may change it.
#[derive(Drop)]
pub struct RealFolder<R: Files<File = File> + AllocGlobal + Copy + Drop> {
    rt: R,
    token: Token,
    table: Vec<Option<OpenFile>>,
    files: BTreeMap<u64, File>,
    faults: u64,
}

impl<R: Files<File = File> + AllocGlobal + Copy + Drop> RealFolder<R> {
    /// Nothing is open.
    pub fn new(rt: R, token: Token) -> RealFolder<R>
        ensures token { result.token ≡ token }
        ensures opens { (number : ℕ) → opens_of result.table.items number ≡ None }
        ensures faults { result.faults ≡ 0 }
    {
        RealFolder {
            rt,
            token,
            table: Vec::new(rt.alloc()),
            files: BTreeMap::new(rt.alloc()),
            faults: 0,
        }
    }
}

// Counts a fault.
fn count_fault(faults: &mut u64)
    ensures later { faults.old ≤ faults.new }
    ensures rose { Rose faults.old faults.new }
{
    *faults = faults.saturating_add(1);
}

// The system's word for what is not there.
fn is_absent(kind: ErrorKind) -> bool
    ensures yes { result ≡ true → (kind ≡ NotFound) ⊎ (kind ≡ NotADirectory) }
    ensures no { result ≡ false → (kind ≢ NotFound) × (kind ≢ NotADirectory) }
{
    matches!(kind, ErrorKind::NotFound | ErrorKind::NotADirectory)
}

// Whether the path names a file, and no folder, link or device.
fn is_file<R: Files>(rt: &R, path: &str) -> io::Result<bool> {
    match fs::symlink_metadata(rt, path) {
        Ok(metadata) => Ok(metadata.is_file()),
        Err(e) if is_absent(e.kind()) => Ok(false),
        Err(e) => Err(e),
    }
}

// Opens a file under a number that never was open.
fn open_new(
    table: &mut Vec<Option<OpenFile>>,
    files: &mut BTreeMap<u64, File>,
    file: File,
    made: bool,
) -> Result<FileNo, AllocError>
    ensures ok { IfOk result (λ number. (opens_of table.old.items number.0 ≡ None) × (opens_of
        table.new.items ≡ put_open (opens_of table.old.items) number.0
        (record { node = length table.old.items; made = made }))) }
    ensures err { OnErr result (table.new.items ≡ table.old.items) }
{
    let node = table.len() as u64;
    if files.insert(node, file).is_err() {
        return Err(AllocError);
    }
    match open_next(table, OpenFile { node, made }) {
        Ok(number) => Ok(number),
        Err(_) => {
            files.remove(&node);
            Err(AllocError)
        }
    }
}

// Why no folder was made.
fn not_made(kind: ErrorKind) -> MadeDir
    ensures exists { kind ≡ AlreadyExists → result ≡ MadeDir.Exists }
    ensures no_parent { (kind ≡ NotFound) ⊎ (kind ≡ NotADirectory) → result ≡ MadeDir.NoParent }
    ensures memory { kind ≡ OutOfMemory → result ≡ MadeDir.NoMemory }
    ensures failed { kind ≢ AlreadyExists → kind ≢ NotFound → kind ≢ NotADirectory
        → kind ≢ OutOfMemory → result ≡ MadeDir.Failed }
{
    match kind {
        ErrorKind::AlreadyExists => MadeDir::Exists,
        ErrorKind::NotFound | ErrorKind::NotADirectory => MadeDir::NoParent,
        ErrorKind::OutOfMemory => MadeDir::NoMemory,
        _ => MadeDir::Failed,
    }
}

fn make_dir<R: Files + AllocGlobal>(rt: &R, path: &Path) -> MadeDir {
    let Ok(text) = path.text(rt.alloc()) else {
        return MadeDir::NoMemory;
    };
    match fs::create_dir(rt, text.as_str()) {
        Ok(()) => MadeDir::Made,
        Err(e) => not_made(e.kind()),
    }
}

// Why no file was made.
fn not_created(kind: ErrorKind) -> Created
    ensures opens { (opens : Opens) → CreatedOpens result opens opens }
    ensures exists { kind ≡ AlreadyExists → result ≡ Created.Exists }
    ensures no_parent { (kind ≡ NotFound) ⊎ (kind ≡ NotADirectory) → result ≡ Created.NoParent }
    ensures memory { kind ≡ OutOfMemory → result ≡ Created.NoMemory }
    ensures failed { kind ≢ AlreadyExists → kind ≢ NotFound → kind ≢ NotADirectory
        → kind ≢ OutOfMemory → result ≡ Created.Failed }
{
    match kind {
        ErrorKind::AlreadyExists => Created::Exists,
        ErrorKind::NotFound | ErrorKind::NotADirectory => Created::NoParent,
        ErrorKind::OutOfMemory => Created::NoMemory,
        _ => Created::Failed,
    }
}

fn create<R: Files<File = File> + AllocGlobal>(
    rt: &R,
    table: &mut Vec<Option<OpenFile>>,
    files: &mut BTreeMap<u64, File>,
    path: &Path,
) -> Created
    ensures { CreatedOpens result (opens_of table.old.items) (opens_of table.new.items) }
{
    let Ok(text) = path.text(rt.alloc()) else {
        return Created::NoMemory;
    };
    match OpenOptions::new()
        .append(true)
        .create_new(true)
        .open(rt, text.as_str())
    {
        Ok(file) => match open_new(table, files, file, true) {
            Ok(number) => Created::Made(number),
            Err(_) => Created::NoMemory,
        },
        Err(e) => not_created(e.kind()),
    }
}

fn append(file: Option<&mut File>, bytes: &[u8]) -> Appended
    ensures some { AppendsSome (length bytes.now) result }
    ensures closed { MatchOption file.entry (result ≡ Appended.Failed) (λ _. Unit {0}) }
{
    let Some(file) = file else {
        return Appended::Failed;
    };
    match file.write(bytes) {
        Ok(count) => {
            if count == 0 {
                if !bytes.is_empty() {
                    return Appended::Failed;
                }
            }
            Appended::Wrote(count)
        }
        Err(_) => Appended::Failed,
    }
}

// What an error of any other kind is for a rename.
fn rename_fault(kind: ErrorKind) -> Renamed
    ensures memory { kind ≡ OutOfMemory → result ≡ Renamed.NoMemory }
    ensures failed { kind ≢ OutOfMemory → result ≡ Renamed.Failed }
{
    match kind {
        ErrorKind::OutOfMemory => Renamed::NoMemory,
        _ => Renamed::Failed,
    }
}

// Why no file was renamed, where its own name still stands or doesn't.
fn not_renamed(kind: ErrorKind, stands: bool) -> Renamed
    ensures blocked { (kind ≡ IsADirectory) ⊎ (kind ≡ DirectoryNotEmpty)
        → result ≡ Renamed.Blocked }
    ensures no_parent { (kind ≡ NotFound) ⊎ (kind ≡ NotADirectory) → stands ≡ true
        → result ≡ Renamed.NoParent }
    ensures no_file { (kind ≡ NotFound) ⊎ (kind ≡ NotADirectory) → stands ≡ false
        → result ≡ Renamed.NoFile }
    ensures memory { kind ≡ OutOfMemory → result ≡ Renamed.NoMemory }
    ensures failed { kind ≢ IsADirectory → kind ≢ DirectoryNotEmpty → kind ≢ NotFound
        → kind ≢ NotADirectory → kind ≢ OutOfMemory → result ≡ Renamed.Failed }
{
    match kind {
        ErrorKind::IsADirectory | ErrorKind::DirectoryNotEmpty => Renamed::Blocked,
        ErrorKind::NotFound | ErrorKind::NotADirectory => {
            if stands {
                Renamed::NoParent
            } else {
                Renamed::NoFile
            }
        }
        _ => rename_fault(kind),
    }
}

// The system would move a folder too, so `from` is tested first, and again where a name is missing.
fn rename_text<R: Files>(rt: &R, from: &str, to: &str) -> io::Result<Renamed> {
    if !is_file(rt, from)? {
        return Ok(Renamed::NoFile);
    }
    match fs::rename(rt, from, to) {
        Ok(()) => Ok(Renamed::Done),
        Err(e) if is_absent(e.kind()) => Ok(not_renamed(e.kind(), is_file(rt, from)?)),
        Err(e) => Ok(not_renamed(e.kind(), true)),
    }
}

fn rename<R: Files + AllocGlobal>(rt: &R, from: &Path, to: &Path) -> Renamed {
    let Ok(from) = from.text(rt.alloc()) else {
        return Renamed::NoMemory;
    };
    let Ok(to) = to.text(rt.alloc()) else {
        return Renamed::NoMemory;
    };
    match rename_text(rt, from.as_str(), to.as_str()) {
        Ok(answer) => answer,
        Err(e) => rename_fault(e.kind()),
    }
}

// Why no file was removed.
fn not_removed(kind: ErrorKind) -> Removed
    ensures no_file { (kind ≡ NotFound) ⊎ ((kind ≡ NotADirectory) ⊎ (kind ≡ IsADirectory))
        → result ≡ Removed.NoFile }
    ensures memory { kind ≡ OutOfMemory → result ≡ Removed.NoMemory }
    ensures failed { kind ≢ NotFound → kind ≢ NotADirectory → kind ≢ IsADirectory
        → kind ≢ OutOfMemory → result ≡ Removed.Failed }
{
    match kind {
        ErrorKind::NotFound | ErrorKind::NotADirectory | ErrorKind::IsADirectory => Removed::NoFile,
        ErrorKind::OutOfMemory => Removed::NoMemory,
        _ => Removed::Failed,
    }
}

fn remove<R: Files + AllocGlobal>(rt: &R, path: &Path) -> Removed {
    let Ok(text) = path.text(rt.alloc()) else {
        return Removed::NoMemory;
    };
    match fs::remove_file(rt, text.as_str()) {
        Ok(()) => Removed::Done,
        Err(e) => not_removed(e.kind()),
    }
}

// Why no folder was removed.
fn not_removed_dir(kind: ErrorKind) -> RemovedDir
    ensures no_dir { (kind ≡ NotFound) ⊎ (kind ≡ NotADirectory) → result ≡ RemovedDir.NoDir }
    ensures not_empty { (kind ≡ DirectoryNotEmpty) ⊎ (kind ≡ AlreadyExists)
        → result ≡ RemovedDir.NotEmpty }
    ensures memory { kind ≡ OutOfMemory → result ≡ RemovedDir.NoMemory }
    ensures failed { kind ≢ NotFound → kind ≢ NotADirectory → kind ≢ DirectoryNotEmpty
        → kind ≢ AlreadyExists → kind ≢ OutOfMemory → result ≡ RemovedDir.Failed }
{
    match kind {
        ErrorKind::NotFound | ErrorKind::NotADirectory => RemovedDir::NoDir,
        ErrorKind::DirectoryNotEmpty | ErrorKind::AlreadyExists => RemovedDir::NotEmpty,
        ErrorKind::OutOfMemory => RemovedDir::NoMemory,
        _ => RemovedDir::Failed,
    }
}

fn remove_dir<R: Files + AllocGlobal>(rt: &R, path: &Path) -> RemovedDir
    ensures fixed { is_fixed path.now ≡ true → result ≡ RemovedDir.NotEmpty }
{
    if path.is_fixed() {
        return RemovedDir::NotEmpty;
    }
    let Ok(text) = path.text(rt.alloc()) else {
        return RemovedDir::NoMemory;
    };
    match fs::remove_dir(rt, text.as_str()) {
        Ok(()) => RemovedDir::Done,
        Err(e) => not_removed_dir(e.kind()),
    }
}

// The file of this name, if it is one. To open a pipe would wait, and to open a folder succeeds, so
// both are tested.
fn file_of<R: Files<File = File>>(rt: &R, path: &str) -> io::Result<Option<File>> {
    if !fs::metadata(rt, path)?.is_file() {
        return Ok(None);
    }
    let file = fs::open(rt, path)?;
    if !file.metadata()?.is_file() {
        return Ok(None);
    }
    Ok(Some(file))
}

// Why no file was opened.
fn not_opened(kind: ErrorKind) -> Opened
    ensures opens { (opens : Opens) → OpenedOpens result opens opens }
    ensures no_file { (kind ≡ NotFound) ⊎ (kind ≡ NotADirectory) → result ≡ Opened.NoFile }
    ensures memory { kind ≡ OutOfMemory → result ≡ Opened.NoMemory }
    ensures failed { kind ≢ NotFound → kind ≢ NotADirectory → kind ≢ OutOfMemory
        → result ≡ Opened.Failed }
{
    match kind {
        ErrorKind::NotFound | ErrorKind::NotADirectory => Opened::NoFile,
        ErrorKind::OutOfMemory => Opened::NoMemory,
        _ => Opened::Failed,
    }
}

fn open_file<R: Files<File = File> + AllocGlobal>(
    rt: &R,
    table: &mut Vec<Option<OpenFile>>,
    files: &mut BTreeMap<u64, File>,
    path: &Path,
) -> Opened
    ensures { OpenedOpens result (opens_of table.old.items) (opens_of table.new.items) }
{
    let Ok(text) = path.text(rt.alloc()) else {
        return Opened::NoMemory;
    };
    match file_of(rt, text.as_str()) {
        Ok(Some(file)) => match open_new(table, files, file, false) {
            Ok(number) => Opened::Opened(number),
            Err(_) => Opened::NoMemory,
        },
        Ok(None) => Opened::NoFile,
        Err(e) => not_opened(e.kind()),
    }
}

// The system takes no offset from 2^63 on, where no file has a byte.
fn read_at(file: Option<&File>, at: u64, buf: &mut [u8]) -> ReadAt
    ensures within { ReadsWithin (length buf.old) result }
    ensures beyond { 2 ^ 63 ≤ at → result ≡ ReadAt.Read 0 }
    ensures closed { at < 2 ^ 63 → MatchOption file.entry (result ≡ ReadAt.Failed) (λ _. Unit {0}) }
{
    if i64::try_from(at).is_err() {
        return ReadAt::Read(0);
    }
    let Some(file) = file else {
        return ReadAt::Failed;
    };
    match file.read_at(buf, at) {
        Ok(count) => ReadAt::Read(count),
        Err(_) => ReadAt::Failed,
    }
}

// Why a file has no size.
fn not_sized(kind: ErrorKind) -> SizeOf
    ensures no_file { (kind ≡ NotFound) ⊎ (kind ≡ NotADirectory) → result ≡ SizeOf.NoFile }
    ensures memory { kind ≡ OutOfMemory → result ≡ SizeOf.NoMemory }
    ensures failed { kind ≢ NotFound → kind ≢ NotADirectory → kind ≢ OutOfMemory
        → result ≡ SizeOf.Failed }
{
    match kind {
        ErrorKind::NotFound | ErrorKind::NotADirectory => SizeOf::NoFile,
        ErrorKind::OutOfMemory => SizeOf::NoMemory,
        _ => SizeOf::Failed,
    }
}

fn size<R: Files + AllocGlobal>(rt: &R, path: &Path) -> SizeOf {
    let Ok(text) = path.text(rt.alloc()) else {
        return SizeOf::NoMemory;
    };
    match fs::symlink_metadata(rt, text.as_str()) {
        Ok(metadata) if metadata.is_file() => SizeOf::Size(metadata.len()),
        Ok(_) => SizeOf::NoFile,
        Err(e) => not_sized(e.kind()),
    }
}

// Whether the entry is a folder: nothing, where it is gone.
fn kind_of(kind: io::Result<fs::FileType>) -> io::Result<Option<bool>>
    ensures { TellsKind kind result }
{
    match kind {
        Ok(kind) => Ok(Some(kind.is_dir())),
        Err(e) if is_absent(e.kind()) => Ok(None),
        Err(e) => Err(e),
    }
}

// A name that can't be a part of a path is an error.
fn part_of(alloc: Global, name: &str) -> io::Result<Text>
    ensures part { IfOk result (λ part. IsTrue (is_part part)) }
    ensures same { IfOk result (λ part. part ≡ name.now) }
    ensures no_part { IfErr result
        (λ e. (is_part name.now ≡ false) ⊎ (error_kind e ≡ OutOfMemory)) }
{
    if !is_part(name) {
        return Err(io::Error::from(ErrorKind::InvalidData));
    }
    Ok(Text::new(String::from_str(alloc, name)?))
}

// Adds a name to the others.
fn push_name(names: &mut Vec<Name>, part: Text, folder: bool) -> Result<(), AllocError>
    requires { IsTrue (is_part part) }
    ensures parts { All (λ n. IsTrue (is_part n.part)) names.old.items
        → IfOk result (λ _. All (λ n. IsTrue (is_part n.part)) names.new.items) }
    ensures pushed { OnOk result
        (names.new.items ≡ names.old.items ++ record { part = part; folder = folder } ∷ []) }
{
    names.push(Name { part, folder })?;
    Ok(())
}

// The names in a folder: nothing, where it is no folder.
fn names_in<R: Files + AllocGlobal + Copy>(rt: R, path: &str) -> io::Result<Option<Vec<Name>>>
    ensures { IfOk result
        (λ names. MatchOption names (Unit {0}) (λ v. All (λ n. IsTrue (is_part n.part)) v.items)) }
{
    let entries = match fs::read_dir(&rt, path) {
        Ok(entries) => entries,
        Err(e) if is_absent(e.kind()) => return Ok(None),
        Err(e) => return Err(e),
    };
    let mut names = Vec::new(rt.alloc());
    for entry in entries {
        let entry = entry?;
        if let Some(folder) = kind_of(entry.file_type())? {
            let part = part_of(rt.alloc(), entry.file_name())?;
            push_name(&mut names, part, folder)?;
        }
    }
    Ok(Some(names))
}

// Why nothing was listed.
fn not_listed(kind: ErrorKind) -> Listed
    ensures parts { ListsParts result }
    ensures memory { kind ≡ OutOfMemory → result ≡ Listed.NoMemory }
    ensures failed { kind ≢ OutOfMemory → result ≡ Listed.Failed }
{
    match kind {
        ErrorKind::OutOfMemory => Listed::NoMemory,
        _ => Listed::Failed,
    }
}

fn list<R: Files + AllocGlobal + Copy>(rt: R, path: &Path) -> Listed
    ensures { ListsParts result }
{
    let Ok(text) = path.text(rt.alloc()) else {
        return Listed::NoMemory;
    };
    match names_in(rt, text.as_str()) {
        Ok(Some(names)) => Listed::Names(NameList::new(names)),
        Ok(None) => Listed::NoDir,
        Err(e) => not_listed(e.kind()),
    }
}

impl<R: Files<File = File> + AllocGlobal + Copy + Drop> Folder for RealFolder<R> {
    ghost use Rattle.std.specs.Prelude.{[]};
    ghost use Rattle.jl_folder.specs.State.{bare_state};

    ghost view = { λ f. record {
      told = ⊥;
      token = f.token;
      history =
          record { start = bare_state; trace = [] };
      opens = opens_of f.table.items;
      faults =
          f.faults;
    } };

    ghost lawful = { λ f told. absurd told };

    fn make_dir(&mut self, path: &Path) -> MadeDir {
        let answer = make_dir(&self.rt, path);
        if answer == MadeDir::Failed {
            count_fault(&mut self.faults);
        }
        answer
    }

    fn create(&mut self, path: &Path) -> Created {
        let answer = create(&self.rt, &mut self.table, &mut self.files, path);
        if answer == Created::Failed {
            count_fault(&mut self.faults);
        }
        answer
    }

    fn append(&mut self, number: FileNo, bytes: &[u8]) -> Appended {
        let answer = append(self.files.get_mut(&number.0), bytes);
        if answer == Appended::Failed {
            count_fault(&mut self.faults);
        }
        answer
    }

    fn rename(&mut self, from: &Path, to: &Path) -> Renamed {
        let answer = rename(&self.rt, from, to);
        if answer == Renamed::Failed {
            count_fault(&mut self.faults);
        }
        answer
    }

    fn remove(&mut self, path: &Path) -> Removed {
        let answer = remove(&self.rt, path);
        if answer == Removed::Failed {
            count_fault(&mut self.faults);
        }
        answer
    }

    fn remove_dir(&mut self, path: &Path) -> RemovedDir {
        let answer = remove_dir(&self.rt, path);
        if answer == RemovedDir::Failed {
            count_fault(&mut self.faults);
        }
        answer
    }

    fn open_file(&mut self, path: &Path) -> Opened {
        let answer = open_file(&self.rt, &mut self.table, &mut self.files, path);
        if answer == Opened::Failed {
            count_fault(&mut self.faults);
        }
        answer
    }

    fn read_at(&mut self, number: FileNo, at: u64, buf: &mut [u8]) -> ReadAt {
        let answer = read_at(self.files.get(&number.0), at, buf);
        if answer == ReadAt::Failed {
            count_fault(&mut self.faults);
        }
        answer
    }

    fn size(&mut self, path: &Path) -> SizeOf {
        let answer = size(&self.rt, path);
        if answer == SizeOf::Failed {
            count_fault(&mut self.faults);
        }
        answer
    }

    fn list(&mut self, path: &Path) -> Listed {
        let answer = list(self.rt, path);
        if let Listed::Failed = &answer {
            count_fault(&mut self.faults);
        }
        answer
    }

    fn close(&mut self, number: FileNo) {
        self.files.remove(&number.0);
        close_at(&mut self.table, number);
    }
}
