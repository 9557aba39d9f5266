//! The file that a job writes, over files that take what is written and cannot be flushed: its flush reaches the file.

use byte_ports::{PortFault, Target};
use inrc2pb_frame::{FileOnFirstWrite, OutputFile};
use std::alloc::Allocator;
use std::fs::{Metadata, OpenFile, OpenOptions};
use std::io;
use std::io::{ErrorKind, Read, Seek, SeekFrom, Write};
use std::rt::Files;
use std::test::Fail;

fn unsupported<T>() -> io::Result<T> {
    Err(io::Error::from(ErrorKind::Unsupported))
}

// A file that has nothing to read, takes whole pieces, and cannot be flushed.
#[derive(Drop)]
struct Unflushed;

impl Read for Unflushed {
    fn read(&mut self, _buf: &mut [u8]) -> io::Result<usize> {
        Ok(0)
    }
}

impl Write for Unflushed {
    fn write(&mut self, buf: &[u8]) -> io::Result<usize> {
        Ok(buf.len())
    }

    fn flush(&mut self) -> io::Result<()> {
        Err(io::Error::from(ErrorKind::StorageFull))
    }
}

impl Seek for Unflushed {
    fn seek(&mut self, _to: SeekFrom) -> io::Result<u64> {
        unsupported()
    }
}

impl OpenFile for Unflushed {
    fn metadata(&self) -> io::Result<Metadata> {
        unsupported()
    }

    fn set_len(&self, _size: u64) -> io::Result<()> {
        unsupported()
    }

    fn sync_all(&self) -> io::Result<()> {
        unsupported()
    }

    fn sync_data(&self) -> io::Result<()> {
        unsupported()
    }
}

// Files that cannot be flushed.
#[derive(Drop)]
struct UnflushedFiles;

impl Files for UnflushedFiles {
    type File = Unflushed;

    type Dir = Unflushed;

    fn open_file(&self, _how: &OpenOptions, _path: &str) -> io::Result<Unflushed> {
        Ok(Unflushed)
    }

    fn open_dir(&self, _path: &str) -> io::Result<Unflushed> {
        unsupported()
    }

    fn metadata(&self, _path: &str) -> io::Result<Metadata> {
        unsupported()
    }

    fn symlink_metadata(&self, _path: &str) -> io::Result<Metadata> {
        unsupported()
    }

    fn copy(&self, _from: &str, _to: &str) -> io::Result<u64> {
        unsupported()
    }

    fn rename(&self, _from: &str, _to: &str) -> io::Result<()> {
        unsupported()
    }

    fn remove_file(&self, _path: &str) -> io::Result<()> {
        unsupported()
    }

    fn create_dir(&self, _path: &str) -> io::Result<()> {
        unsupported()
    }

    fn remove_dir(&self, _path: &str) -> io::Result<()> {
        unsupported()
    }

    fn remove_dir_all<B: Allocator>(&self, _alloc: B, _path: &str) -> io::Result<()> {
        unsupported()
    }
}

// Before it is created the file has nothing to flush. Afterwards the flush of the port is that of the file.
#[test]
fn flush_reaches_the_file(rt: HostRuntime) -> Result<(), Fail> {
    let files = (UnflushedFiles, rt.alloc());
    let mut output = FileOnFirstWrite::new(&files);
    output.place(Some("roster.txt"))?;
    assert!(rt; output.flush() == Ok(()));
    assert!(rt; output.write(b"text") == Ok(4));
    assert!(rt; output.flush() == Err(PortFault));
    assert!(rt; output.write(b"text") == Err(PortFault));
    Ok(())
}
