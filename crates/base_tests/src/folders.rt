ghost use Rattle.std.specs.Prelude.{◌≡◌, true, is_err};

use crate::calls::{Call, first_wrong};
use std::alloc::Allocator;
use std::cell::Cell;
use std::fs::{Metadata, OpenFile, OpenOptions};
use std::io;
use std::io::{ErrorKind, Read, Seek, SeekFrom, Write};
use std::rt::Files;
use vf_io::{Failed, FolderShelf, Shelf};

/// Each call over the current folder, in order.
const CALLS: [Call; 6] = [
    Call {
        about: "no file is open at first",
        name: None,
        due: Ok(""),
    },
    Call {
        about: "an absent name",
        name: Some("no such file"),
        due: Err(Failed),
    },
    Call {
        about: "closed by the absent name",
        name: None,
        due: Ok(""),
    },
    Call {
        about: "a folder can be opened",
        name: Some("."),
        due: Ok(""),
    },
    Call {
        about: "a folder can't be read",
        name: None,
        due: Err(Failed),
    },
    Call {
        about: "closed by the failed read",
        name: None,
        due: Ok(""),
    },
];

#[test]
fn fails_where_no_file_is(rt: HostRuntime) {
    let mut shelf = FolderShelf::new(&rt);
    assert_eq!(rt; first_wrong(&mut shelf, &CALLS), "");
}

/// The answer of a call that no shelf makes.
fn unsupported<T: Drop>() -> io::Result<T>
    ensures { is_err result ≡ true }
{
    Err(io::Error::from(ErrorKind::Unsupported))
}

/// A file whose first reads are interrupted, and which gives nothing else, or fails at last.
#[derive(Drop)]
struct SlowFile<'a> {
    interrupts: &'a Cell<u32>,
    fails: bool,
}

impl<'a> Read for SlowFile<'a> {
    fn read(&mut self, _buffer: &mut [u8]) -> io::Result<usize> {
        let left = self.interrupts.get();
        if left > 0 {
            self.interrupts.set(left - 1);
            return Err(io::Error::from(ErrorKind::Interrupted));
        }
        if self.fails {
            return Err(io::Error::from(ErrorKind::InvalidData));
        }
        Ok(0)
    }
}

impl<'a> Write for SlowFile<'a> {
    fn write(&mut self, _bytes: &[u8]) -> io::Result<usize> {
        unsupported()
    }

    fn flush(&mut self) -> io::Result<()> {
        unsupported()
    }
}

impl<'a> Seek for SlowFile<'a> {
    fn seek(&mut self, _to: SeekFrom) -> io::Result<u64> {
        unsupported()
    }
}

impl<'a> OpenFile for SlowFile<'a> {
    fn metadata(&self) -> io::Result<Metadata> {
        unsupported()
    }

    fn set_len(&self, _size: u64) -> io::Result<()> {
        unsupported()
    }

    fn sync_all(&self) -> io::Result<()> {
        unsupported()
    }

    fn sync_data(&self) -> io::Result<()> {
        unsupported()
    }
}

/// A folder that has the same slow file by each name. It counts the interrupts that are left, which the shelf that reads it doesn't show.
#[derive(Drop)]
struct SlowFolder<'a> {
    interrupts: &'a Cell<u32>,
    fails: bool,
}

impl<'a> Files for SlowFolder<'a> {
    type File = SlowFile<'a>;

    type Dir = SlowFile<'a>;

    fn open_file(&self, _how: &OpenOptions, _path: &str) -> io::Result<SlowFile<'a>> {
        Ok(SlowFile {
            interrupts: self.interrupts,
            fails: self.fails,
        })
    }

    fn open_dir(&self, _path: &str) -> io::Result<SlowFile<'a>> {
        unsupported()
    }

    fn metadata(&self, _path: &str) -> io::Result<Metadata> {
        unsupported()
    }

    fn symlink_metadata(&self, _path: &str) -> io::Result<Metadata> {
        unsupported()
    }

    fn copy(&self, _from: &str, _to: &str) -> io::Result<u64> {
        unsupported()
    }

    fn rename(&self, _from: &str, _to: &str) -> io::Result<()> {
        unsupported()
    }

    fn remove_file(&self, _path: &str) -> io::Result<()> {
        unsupported()
    }

    fn create_dir(&self, _path: &str) -> io::Result<()> {
        unsupported()
    }

    fn remove_dir(&self, _path: &str) -> io::Result<()> {
        unsupported()
    }

    fn remove_dir_all<B: Allocator>(&self, _alloc: B, _path: &str) -> io::Result<()> {
        unsupported()
    }
}

/// Whether the file is read again until it answers so, with no interrupt left.
fn is_read_again(fails: bool, due: Result<usize, Failed>) -> bool {
    let interrupts = Cell::new(2);
    let folder = SlowFolder {
        interrupts: &interrupts,
        fails,
    };
    let mut shelf = FolderShelf::new(&folder);
    let opened = shelf.open("slow");
    let read = shelf.next(&mut [0u8; 4]);
    opened.is_ok() && read == due && interrupts.get() == 0
}

#[test]
fn reads_again_where_a_signal_interrupts(rt: HostRuntime) {
    assert!(rt; is_read_again(false, Ok(0)), "at the file's end");
    assert!(rt; is_read_again(true, Err(Failed)), "where the read fails");
}
