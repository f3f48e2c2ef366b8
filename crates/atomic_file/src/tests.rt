//! Over a file system that notes what is asked of it, and fails at one step.

use crate::{Draft, FileStep, MAX_NAMES};
use std::alloc::Global;
use std::cell::Cell;
use std::fs::{Files, Metadata, OpenFile, OpenOptions, Permissions};
use std::io::{self, ErrorKind, Read, Seek, SeekFrom, Write};
use std::test::Fail;

// What is asked for, each a digit of the note.
const LOOK_AT_LINK: u64 = 0x1;

const LOOK: u64 = 0x2;

const OPEN_FOLDER: u64 = 0x3;

const MAKE: u64 = 0x4;

const PERMIT: u64 = 0x5;

const WRITE: u64 = 0x6;

const SYNC_FILE: u64 = 0x7;

const RENAME: u64 = 0x8;

const SYNC_FOLDER: u64 = 0x9;

const REMOVE: u64 = 0xA;

const OTHER: u64 = 0xF;

// What was asked for, and which of it fails.
#[derive(Drop)]
struct FileNote {
    asked: Cell<u64>,
    // What fails, in hexadecimal digits; 0 if nothing is to fail.
    failing: u64,
    // How many names are taken.
    taken: Cell<u64>,
}

impl FileNote {
    fn new(failing: u64, taken: u64) -> FileNote {
        FileNote {
            asked: Cell::new(0),
            failing,
            taken: Cell::new(taken),
        }
    }

    fn ask(&self, what: u64) -> io::Result<()> {
        self.asked.set(self.asked.get() << 4 | what);
        if what == self.failing {
            return Err(io::Error::from(ErrorKind::Other));
        }
        Ok(())
    }

    // Whether a name is taken; then one less is.
    fn is_taken(&self) -> bool {
        let taken = self.taken.get();
        self.taken.set(taken.saturating_sub(1));
        taken > 0
    }
}

#[derive(Drop)]
struct NotedFile<'a> {
    note: &'a FileNote,
    is_folder: bool,
}

impl<'a> Read for NotedFile<'a> {
    fn read(&mut self, _buf: &mut [u8]) -> io::Result<usize> {
        self.note.ask(OTHER)?;
        Ok(0)
    }
}

impl<'a> Write for NotedFile<'a> {
    fn write(&mut self, buf: &[u8]) -> io::Result<usize> {
        self.note.ask(WRITE)?;
        Ok(buf.len())
    }

    fn flush(&mut self) -> io::Result<()> {
        Ok(())
    }
}

impl<'a> Seek for NotedFile<'a> {
    fn seek(&mut self, _to: SeekFrom) -> io::Result<u64> {
        self.note.ask(OTHER)?;
        Ok(0)
    }
}

impl<'a> OpenFile for NotedFile<'a> {
    fn metadata(&self) -> io::Result<Metadata> {
        self.note.ask(OTHER)?;
        Ok(Metadata::of_file(0))
    }

    fn set_len(&self, _size: u64) -> io::Result<()> {
        self.note.ask(OTHER)
    }

    fn sync_all(&self) -> io::Result<()> {
        if self.is_folder {
            return self.note.ask(SYNC_FOLDER);
        }
        self.note.ask(SYNC_FILE)
    }

    fn sync_data(&self) -> io::Result<()> {
        self.note.ask(OTHER)
    }

    fn set_permissions(&self, _perm: Permissions) -> io::Result<()> {
        self.note.ask(PERMIT)
    }
}

#[derive(Drop)]
struct NotedFiles<'a> {
    note: &'a FileNote,
}

impl<'a> Files for NotedFiles<'a> {
    type File = NotedFile<'a>;

    type Dir = io::Empty;

    fn open_file(&self, how: &OpenOptions, path: &str) -> io::Result<NotedFile<'a>> {
        let is_folder = path == "place";
        if is_folder {
            self.note.ask(OPEN_FOLDER)?;
        } else {
            self.note.ask(MAKE)?;
            if !how.asks_create_new() || self.note.is_taken() {
                return Err(io::Error::from(ErrorKind::AlreadyExists));
            }
        }
        Ok(NotedFile {
            note: self.note,
            is_folder,
        })
    }

    fn open_dir(&self, _path: &str) -> io::Result<io::Empty> {
        self.note.ask(OTHER)?;
        Ok(io::empty())
    }

    fn metadata(&self, _path: &str) -> io::Result<Metadata> {
        self.note.ask(LOOK)?;
        Ok(Metadata::of_file(0))
    }

    fn symlink_metadata(&self, _path: &str) -> io::Result<Metadata> {
        self.note.ask(LOOK_AT_LINK)?;
        Ok(Metadata::of_file(0))
    }

    fn copy(&self, _from: &str, _to: &str) -> io::Result<u64> {
        self.note.ask(OTHER)?;
        Ok(0)
    }

    fn rename(&self, from: &str, to: &str) -> io::Result<()> {
        if to != "place/file" || !from.starts_with("place/.") {
            return self.note.ask(OTHER);
        }
        self.note.ask(RENAME)
    }

    fn remove_file(&self, path: &str) -> io::Result<()> {
        if !path.starts_with("place/.") {
            return self.note.ask(OTHER);
        }
        self.note.ask(REMOVE)
    }

    fn create_dir(&self, _path: &str) -> io::Result<()> {
        self.note.ask(OTHER)
    }

    fn remove_dir(&self, _path: &str) -> io::Result<()> {
        self.note.ask(OTHER)
    }

    fn remove_dir_all<B: std::alloc::Allocator>(&self, _alloc: B, _path: &str) -> io::Result<()> {
        self.note.ask(OTHER)
    }
}

// Replaces a file. `None` if its bytes could not be written; else the step that failed, if one did.
fn replaced(alloc: Global, note: &FileNote) -> Option<Option<FileStep>> {
    let files = NotedFiles { note };
    let mut draft = match Draft::create(&files, alloc, "place/file", 7) {
        Ok(draft) => draft,
        Err(fault) => return Some(Some(fault.step)),
    };
    if draft.write_all(b"bytes").is_err() {
        return None;
    }
    match draft.commit() {
        Ok(()) => Some(None),
        Err(fault) => Some(Some(fault.step)),
    }
}

// Everything is synced before it is renamed, and the folder after it; what fails leaves no draft.
#[test]
fn each_step_may_fail(rt: HostRuntime) -> Result<(), Fail> {
    let rows = [
        (0, 0x123456789, Some(None)),
        (LOOK_AT_LINK, 0x123456789, Some(None)),
        (LOOK, 0x12, Some(Some(FileStep::Target))),
        (OPEN_FOLDER, 0x123, Some(Some(FileStep::Folder))),
        (MAKE, 0x1234, Some(Some(FileStep::Create))),
        (PERMIT, 0x12345A, Some(Some(FileStep::Create))),
        (WRITE, 0x123456A, None),
        (SYNC_FILE, 0x1234567A, Some(Some(FileStep::Sync))),
        (RENAME, 0x12345678A, Some(Some(FileStep::Rename))),
        (SYNC_FOLDER, 0x123456789, Some(Some(FileStep::SyncFolder))),
        (REMOVE, 0x123456789, Some(None)),
    ];
    for (failing, asked, ended) in rows {
        let note = FileNote::new(failing, 0);
        let is_so = replaced(rt.alloc(), &note) == ended && note.asked.get() == asked;
        assert!(rt; is_so, "where {failing} fails");
    }
    Ok(())
}

// A name that is taken is left alone, and the next one is tried.
#[test]
fn names_may_be_taken(rt: HostRuntime) -> Result<(), Fail> {
    let note = FileNote::new(0, 2);
    let is_so = replaced(rt.alloc(), &note) == Some(None) && note.asked.get() == 0x12344456789;
    assert!(rt; is_so, "where two names are taken");
    let note = FileNote::new(0, MAX_NAMES);
    let is_so = replaced(rt.alloc(), &note) == Some(Some(FileStep::Create));
    assert!(rt; is_so, "where all names are taken");
    Ok(())
}
