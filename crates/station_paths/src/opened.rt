//! Files that remember which path was opened.
ghost use Rattle.std.specs.Prelude.{◌≡◌, IfOk, IfSome};

use std::alloc::{AllocError, Global};
use std::fs::File;
use std::io::{self, ErrorKind, Read};
use std::rt::Files;
use std::snapshot::Snapshot;

/// A file or a pipe that was opened to be read, or will be.
#[derive(Drop)]
pub struct Opened {
    // `None` where it isn't open yet. It gives no bytes then.
    file: Option<File>,
    // A byte that was read before, and is given first.
    ahead: Option<u8>,
    // Whether it couldn't be opened, so that each read fails.
    is_lost: bool,
    /// The path that was opened, for clauses alone.
    pub path: Snapshot<String>,
    /// The path, where it is opened again each time that it ends.
    pub again: Option<String>,
}

/// A path, as it was given, and what opening it gave.
#[derive(Drop)]
pub struct OpenedPath<'p> {
    pub path: &'p String,
    pub opened: Opened,
}

impl Opened {
    /// Opens the file or pipe at this path.
    pub fn open<R: Files<File = File>>(rt: &R, path: &String) -> io::Result<Opened>
        ensures { IfOk result (λ opened. opened.path.value ≡ path.now) }
    {
        let file = File::open(rt, path.as_str())?;
        Ok(Opened {
            file: Some(file),
            ahead: None,
            is_lost: false,
            path: Snapshot::of(path),
            again: None,
        })
    }

    /// The file or pipe at this path, not opened yet.
    pub fn later(path: &String) -> Opened
        ensures { result.path.value ≡ path.now }
    {
        Opened {
            file: None,
            ahead: None,
            is_lost: false,
            path: Snapshot::of(path),
            again: None,
        }
    }

    /// The file or pipe at this path, which couldn't be opened. Each read fails.
    pub fn lost(path: &String) -> Opened
        ensures { result.path.value ≡ path.now }
    {
        let mut opened = Opened::later(path);
        opened.is_lost = true;
        opened
    }

    /// The same with its first byte read, or `None` if it ended before one. An error where that read failed.
    pub fn begun(self) -> io::Result<Option<Opened>>
        ensures { IfOk result (λ begun. IfSome begun (λ opened. opened.path ≡ self.path)) }
    {
        let Opened {
            mut file,
            path,
            again,
            ..
        } = self;
        let Some(open) = &mut file else {
            return Ok(None);
        };
        let mut first = [0u8];
        if open.read(first.as_mut_slice())? == 0 {
            return Ok(None);
        }
        Ok(Some(Opened {
            file,
            ahead: Some(first[0]),
            is_lost: false,
            path,
            again,
        }))
    }

    /// The same, to be opened again each time that it ends. Refused if out of memory.
    pub fn opened_again(self, alloc: Global, path: &String) -> Result<Opened, AllocError>
        ensures { IfOk result (λ opened. opened.path ≡ self.path) }
    {
        Ok(Opened {
            file: self.file,
            ahead: self.ahead,
            is_lost: self.is_lost,
            path: self.path,
            again: Some(String::from_str(alloc, path.as_str())?),
        })
    }

    /// Whether it is open.
    pub fn is_open(&self) -> bool {
        self.file.is_some()
    }
}

impl Read for Opened {
    fn read(&mut self, buf: &mut [u8]) -> io::Result<usize> {
        if let (Some(byte), Some(first)) = (self.ahead, buf.first_mut()) {
            *first = byte;
            self.ahead = None;
            return Ok(1);
        }
        match &mut self.file {
            Some(file) => file.read(buf),
            None if self.is_lost => Err(ErrorKind::NotFound.into()),
            None => Ok(0),
        }
    }
}
