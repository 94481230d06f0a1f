// Each call of the real things once, on the system's own files and streams.
use crate::real_folder::RealFolder;
use crate::real_host::{RealHost, count_processors};
use crate::real_streams::{RealSink, RealSource};
use crate::token::{choose_token, given_token, own_words};
use jl_folder::{
    Appended, Created, FileRead, Folder, Listed, MadeDir, Removed, RemovedDir, Renamed, SizeOf,
    read_file,
};
use jl_streams::{Got, Host, Put, Sink, Source};
use jl_text::{Path, PathFault, Token};
use std::alloc::Global;
use std::io;
use std::io::ErrorKind;
use std::test::Fail;

// Makes a file of these bytes, and closes it.
fn write<F: Folder>(folder: &mut F, path: &Path, text: &str) -> Appended {
    match folder.create(path) {
        Created::Made(number) => {
            let answer = folder.append(number, text.as_bytes());
            folder.close(number);
            answer
        }
        _ => Appended::Failed,
    }
}

fn rename<F: Folder>(folder: &mut F, from: &Path, to: &Path) -> Renamed {
    if *from == *to {
        return Renamed::Failed;
    }
    folder.rename(from, to)
}

// Whether these are the file's first bytes, as many as are wanted.
fn reads<F: Folder>(alloc: Global, folder: &mut F, path: &Path, most: usize, text: &str) -> bool {
    match read_file(alloc, folder, path, most) {
        FileRead::Bytes(bytes) => bytes.as_slice() == text.as_bytes(),
        _ => false,
    }
}

// Whether so many names stand in the folder, this one among them.
fn lists<F: Folder>(
    folder: &mut F,
    path: &Path,
    part: &str,
    is_folder: bool,
    count: usize,
) -> bool {
    match folder.list(path) {
        Listed::Names(names) => {
            let names = names.as_slice();
            names.len() == count
                && names.iter().any(|name| name.part.as_str() == part && name.folder == is_folder)
        }
        _ => false,
    }
}

#[derive(Drop)]
struct Paths {
    top: Path,
    folder: Path,
    file: Path,
    other: Path,
}

fn read_paths(alloc: Global) -> Result<Paths, PathFault> {
    Ok(Paths {
        top: Path::read(alloc, "joblib-test")?,
        folder: Path::read(alloc, "joblib-test/d")?,
        file: Path::read(alloc, "joblib-test/f")?,
        other: Path::read(alloc, "joblib-test/g")?,
    })
}

fn makes<F: Folder>(folder: &mut F, p: &Paths) -> [bool; 6] {
    [
        folder.make_dir(&p.folder) == MadeDir::NoParent,
        folder.make_dir(&p.top) == MadeDir::Made,
        folder.make_dir(&p.top) == MadeDir::Exists,
        folder.make_dir(&p.folder) == MadeDir::Made,
        write(folder, &p.file, "text") == Appended::Wrote(4),
        folder.create(&p.folder) == Created::Exists,
    ]
}

fn shows<F: Folder>(alloc: Global, folder: &mut F, p: &Paths) -> [bool; 7] {
    [
        folder.size(&p.file) == SizeOf::Size(4),
        folder.size(&p.folder) == SizeOf::NoFile,
        reads(alloc, folder, &p.file, 100, "text"),
        reads(alloc, folder, &p.file, 2, "te"),
        !reads(alloc, folder, &p.folder, 2, ""),
        lists(folder, &p.top, "d", true, 2),
        lists(folder, &p.top, "f", false, 2),
    ]
}

fn changes<F: Folder>(folder: &mut F, p: &Paths) -> [bool; 8] {
    [
        rename(folder, &p.other, &p.file) == Renamed::NoFile,
        rename(folder, &p.folder, &p.other) == Renamed::NoFile,
        rename(folder, &p.file, &p.folder) == Renamed::Blocked,
        rename(folder, &p.file, &p.other) == Renamed::Done,
        folder.remove(&p.folder) == Removed::NoFile,
        folder.remove_dir(&p.top) == RemovedDir::NotEmpty,
        folder.remove(&p.other) == Removed::Done,
        folder.remove_dir(&p.folder) == RemovedDir::Done,
    ]
}

#[test]
fn the_system_s_folder_answers_each_call(rt: HostRuntime) -> Result<(), Fail> {
    let alloc = rt.alloc();
    let p = read_paths(alloc)?;
    let mut folder = RealFolder::new(rt, Token::read(alloc, "t1")?);
    let made = makes(&mut folder, &p);
    let shown = shows(alloc, &mut folder, &p);
    let changed = changes(&mut folder, &p);
    let ended = folder.remove_dir(&p.top);
    assert_eq!(rt; made, [true; 6]);
    assert_eq!(rt; shown, [true; 7]);
    assert_eq!(rt; changed, [true; 8]);
    assert_eq!(rt; ended, RemovedDir::Done);
    Ok(())
}

#[test]
fn streams_pass_bytes_on(rt: HostRuntime) -> Result<(), Fail> {
    let mut buf = [b'-'; 3];
    let mut source = RealSource::new(b"ab".as_slice());
    assert_eq!(rt; source.read(&mut buf), Got::Bytes(2));
    assert!(rt; buf.as_slice() == b"ab-".as_slice());
    assert_eq!(rt; source.read(&mut buf), Got::End);
    let mut err = RealSink::new(rt.stderr());
    assert_eq!(rt; err.write(b"a line of a test\n"), Put::Took(17));
    assert_eq!(rt; err.write(b""), Put::Took(0));
    Ok(())
}

#[test]
fn the_host_tells_the_time(rt: HostRuntime) -> Result<(), Fail> {
    let one = count_processors(Err(io::Error::from(ErrorKind::NotFound)));
    assert_eq!(rt; one, 1);
    let mut host = RealHost::new(rt, one, Token::read(rt.alloc(), "t1")?);
    let first = host.now();
    // The year 2020 began before.
    assert!(rt; first > 1_577_836_800_000_000);
    assert!(rt; host.now() >= first);
    assert_eq!(rt; host.processors(), 1);
    assert!(rt; host.token().as_str() == "t1");
    Ok(())
}

#[test]
fn a_token_is_given_or_read_or_made(rt: HostRuntime) -> Result<(), Fail> {
    let alloc = rt.alloc();
    for (word, variable, moment, token) in [
        ("--token=abc", Some("v1"), 255, "abc"),
        ("--token=ABC", Some("v1"), 255, "v1"),
        ("--token=", Some("v_1"), 255, "tff"),
        ("call", None, 1_700_000_000_000_000, "t60a24181e4000"),
        (
            "call",
            Some("0123456789abcdefghijklmnopqrstuvwxyz0"),
            0,
            "t0",
        ),
    ] {
        let given = given_token(alloc, word)?;
        let chosen = choose_token(alloc, given, variable, moment)?;
        assert_eq!(rt; chosen.as_str(), token, "at {word}");
    }
    let words = vec![in alloc; String::from_str(alloc, "--token=a")?]?;
    assert_eq!(rt; own_words(words.as_slice(), true).len(), 0);
    assert_eq!(rt; own_words(words.as_slice(), false).len(), 1);
    Ok(())
}
