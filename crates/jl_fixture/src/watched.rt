// A folder and a source in memory whose calls are counted and noted.
ghost use Rattle.std.specs.Prelude.{◌≡◌};

use jl_folder::{
    Appended, Created, FileNo, Folder, Listed, MadeDir, Opened, Path, ReadAt, Removed, RemovedDir,
    Renamed, SizeOf,
};
use jl_memory::MemFolder;
use jl_streams::{Got, MemSource, Source};
use jl_text::Text;
use std::alloc::{AllocError, Global};
use std::cell::Cell;
use std::fmt::Debug;

// A line of each call, with its number. One that there is no memory for is left out.
#[derive(Drop)]
struct Notes<'a> {
    alloc: Global,
    calls: &'a Cell<u64>,
    text: Option<String>,
}

// A line of a call: its number, its word, what it is of, and its answer.
fn line_of<T: Debug>(
    alloc: Global,
    call: u64,
    word: &str,
    place: Result<Text, AllocError>,
    answer: &T,
) -> Result<String, AllocError> {
    let place = place?;
    let place = place.as_str();
    format!(in alloc; "\n  {call} {word} {place}: {answer:?}")
}

fn spell_both(alloc: Global, from: &Path, to: &Path) -> Result<Text, AllocError> {
    let from = from.text(alloc)?;
    let to = to.text(alloc)?;
    Ok(Text::new(format!(in alloc; "{} to {}", from.as_str(), to.as_str())?))
}

fn spell_number(alloc: Global, number: FileNo) -> Result<Text, AllocError> {
    Ok(Text::new(format!(in alloc; "#{}", number.0)?))
}

impl<'a> Notes<'a> {
    fn add(&mut self, line: &str) {
        if let Some(text) = &mut self.text {
            let _added = text.push_str(line);
        }
    }

    fn note<T: Debug>(&mut self, word: &str, place: Result<Text, AllocError>, answer: &T) {
        let call = self.calls.get();
        self.calls.set(call.saturating_add(1));
        if self.text.is_none() {
            return;
        }
        if let Ok(line) = line_of(self.alloc, call, word, place, answer) {
            self.add(line.as_str());
        }
    }

    fn note_path<T: Debug>(&mut self, word: &str, path: &Path, answer: &T) {
        self.note(word, path.text(self.alloc), answer);
    }

    fn note_number<T: Debug>(&mut self, word: &str, number: FileNo, answer: &T) {
        self.note(word, spell_number(self.alloc, number), answer);
    }
}

/// A folder in memory that counts its calls, and notes them, if that is wanted.
#[derive(Drop)]
pub struct Watched<'a> {
    pub inner: MemFolder,
    notes: Notes<'a>,
}

impl<'a> Watched<'a> {
    pub fn new(alloc: Global, inner: MemFolder, calls: &'a Cell<u64>, noting: bool) -> Watched<'a>
        ensures { result.inner ≡ inner }
    {
        let text = if noting {
            Some(String::new(alloc))
        } else {
            None
        };
        let notes = Notes { alloc, calls, text };
        Watched { inner, notes }
    }

    /// How many calls there were.
    pub fn calls(&self) -> u64 {
        self.notes.calls.get()
    }

    /// The lines of the calls, each on a line of its own, if they were noted.
    pub fn notes(&self) -> &str {
        match &self.notes.text {
            Some(text) => text.as_str(),
            None => "",
        }
    }
}

impl<'a> Folder for Watched<'a> {
    ghost use Rattle.jl_memory.specs.Memory.{told_history};

    ghost view = { λ w. ⟦<MemFolder as Folder>⟧.view w.inner };

    ghost lawful = { λ w told. told_history w.inner told };

    fn make_dir(&mut self, path: &Path) -> MadeDir {
        let answer = self.inner.make_dir(path);
        self.notes.note_path("make_dir", path, &answer);
        answer
    }

    fn create(&mut self, path: &Path) -> Created {
        let answer = self.inner.create(path);
        self.notes.note_path("create", path, &answer);
        answer
    }

    fn append(&mut self, number: FileNo, bytes: &[u8]) -> Appended {
        let answer = self.inner.append(number, bytes);
        self.notes.note_number("append", number, &answer);
        answer
    }

    fn rename(&mut self, from: &Path, to: &Path) -> Renamed {
        let answer = self.inner.rename(from, to);
        let both = spell_both(self.notes.alloc, from, to);
        self.notes.note("rename", both, &answer);
        answer
    }

    fn remove(&mut self, path: &Path) -> Removed {
        let answer = self.inner.remove(path);
        self.notes.note_path("remove", path, &answer);
        answer
    }

    fn remove_dir(&mut self, path: &Path) -> RemovedDir {
        let answer = self.inner.remove_dir(path);
        self.notes.note_path("remove_dir", path, &answer);
        answer
    }

    fn open_file(&mut self, path: &Path) -> Opened {
        let answer = self.inner.open_file(path);
        self.notes.note_path("open_file", path, &answer);
        answer
    }

    fn read_at(&mut self, number: FileNo, at: u64, buf: &mut [u8]) -> ReadAt {
        let answer = self.inner.read_at(number, at, buf);
        self.notes.note_number("read_at", number, &answer);
        answer
    }

    fn size(&mut self, path: &Path) -> SizeOf {
        let answer = self.inner.size(path);
        self.notes.note_path("size", path, &answer);
        answer
    }

    fn list(&mut self, path: &Path) -> Listed {
        let answer = self.inner.list(path);
        self.notes.note_path("list", path, &kind_of(&answer));
        answer
    }

    fn close(&mut self, number: FileNo) {
        self.inner.close(number);
        self.notes.note_number("close", number, &());
    }
}

// How many names a listing has.
#[derive(Clone, Copy, Debug)]
enum Kind {
    Names(usize),
    NoDir,
    Failed,
    NoMemory,
}

fn kind_of(listed: &Listed) -> Kind {
    match listed {
        Listed::Names(names) => Kind::Names(names.as_slice().len()),
        Listed::NoDir => Kind::NoDir,
        Listed::Failed => Kind::Failed,
        Listed::NoMemory => Kind::NoMemory,
    }
}

// A line of each read, with how many calls of a folder there were before it.
#[derive(Drop)]
struct Reads<'a> {
    alloc: Global,
    calls: &'a Cell<u64>,
    text: String,
}

impl<'a> Reads<'a> {
    fn note(&mut self, got: Got) {
        let calls = self.calls.get();
        if let Ok(line) = format!(in self.alloc; "\n  read {got:?} after {calls} calls") {
            let _added = self.text.push_str(line.as_str());
        }
    }
}

/// A source in memory that notes how many calls of a folder there were at each read.
#[derive(Drop)]
pub struct WatchedSource<'a> {
    pub inner: MemSource,
    reads: Reads<'a>,
}

impl<'a> WatchedSource<'a> {
    pub fn new(alloc: Global, inner: MemSource, calls: &'a Cell<u64>) -> WatchedSource<'a> {
        let text = String::new(alloc);
        let reads = Reads { alloc, calls, text };
        WatchedSource { inner, reads }
    }

    /// The reads, each on a line of its own.
    pub fn notes(&self) -> &str {
        self.reads.text.as_str()
    }
}

impl<'a> Source for WatchedSource<'a> {
    ghost view = { λ s. ⟦<MemSource as Source>⟧.view s.inner };

    fn read(&mut self, buf: &mut [u8]) -> Got {
        let got = self.inner.read(buf);
        self.reads.note(got);
        got
    }
}
