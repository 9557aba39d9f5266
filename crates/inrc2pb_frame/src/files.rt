//! The ports of the program: files that the runtime opens, standard input, and the file that a job writes.
ghost use Rattle.std.specs.Prelude.{◌≡◌, None, true, false, IfErr, IfOk, option_map, string_bytes};
ghost use Rattle.std.specs.Fs.{new_options, with_create, with_truncate, with_write};
ghost use Rattle.inrc2pb_frame.specs.Files.{IsFlushed, IsKept, IsWritten, left_of};
ghost use Rattle.inrc2pb_frame.specs.Placing.{IsPlaced, file_ghosts};
ghost use Rattle.byte_ports.specs.TargetCalls.{CountsBytes, FlushesSent, WritesPiece};
ghost use Rattle.byte_ports.specs.Paths.{unknown};
ghost use Rattle.byte_ports.specs.StdPorts.{IsUnasked};

use crate::output_file::OutputFile;
use byte_ports::{FromRead, HasPath, Opens, PortFault, Target, ToWrite};
use std::alloc::AllocError;
use std::fs::OpenOptions;
use std::io::Read;
use std::rt::Files;
use std::{fs, io};

/// The files that the runtime opens. Their contents are not known, and each may be refused.
#[derive(Drop)]
pub struct HostFiles<'a, R> {
    rt: &'a R,
}

impl<'a, R: Files> HostFiles<'a, R> {
    /// The files of this runtime.
    pub fn new(rt: &'a R) -> HostFiles<'a, R> {
        HostFiles { rt }
    }
}

impl<R: Files> Opens for HostFiles<'_, R> {
    type File = FromRead<R::File>;

    ghost at = { λ _ _. unknown };

    ghost log = { λ _. None };

    fn open(&mut self, path: &str) -> Result<FromRead<R::File>, PortFault> {
        match fs::open(self.rt, path) {
            Ok(file) => Ok(FromRead::new(file)),
            Err(_) => Err(PortFault),
        }
    }
}

/// Standard input, which is opened at the first read.
pub struct StandardInput<'a, R: Input> {
    rt: &'a R,
    reader: Option<R::Reader>,
}

impl<R: Input> Drop for StandardInput<'_, R> {
    fn drop(self) {
        let StandardInput { rt: _, reader: _ } = self;
    }
}

impl<'a, R: Input> StandardInput<'a, R> {
    /// The standard input of this runtime. It is not opened yet.
    pub fn new(rt: &'a R) -> StandardInput<'a, R> {
        StandardInput { rt, reader: None }
    }
}

impl<R: Input> Read for StandardInput<'_, R> {
    ghost remaining = { λ input. left_of R.Reader.remaining input.reader };

    fn read(&mut self, bytes: &mut [u8]) -> io::Result<usize> {
        let rt = self.rt;
        self.reader.get_or_insert_with(|| rt.reader()).read(bytes)
    }
}

/// A file that is created at the first write of a piece that is not empty. A file that exists at the path
/// loses its text then, and keeps it if nothing is written. Without a path each such write fails.
pub struct FileOnFirstWrite<'a, R: Files> {
    rt: &'a R,
    path: Option<String>,
    file: Option<ToWrite<R::File>>,
    failed: bool,
}

impl<R: Files> Drop for FileOnFirstWrite<'_, R> {
    fn drop(self) {
        let FileOnFirstWrite {
            rt: _,
            path: _,
            file: _,
            failed: _,
        } = self;
    }
}

impl<'a, R: Files> FileOnFirstWrite<'a, R> {
    /// A file that has no path yet, and is not created.
    pub fn new(rt: &'a R) -> FileOnFirstWrite<'a, R>
        ensures unmade { result.file ≡ None }
        ensures sound { result.failed ≡ false }
        ensures unplaced { result.path ≡ None }
    {
        FileOnFirstWrite {
            rt,
            path: None,
            file: None,
            failed: false,
        }
    }

    // Creates the file.
    fn make(&self) -> Result<ToWrite<R::File>, PortFault> {
        let Some(path) = &self.path else {
            return Err(PortFault);
        };
        match made_anew().open(self.rt, path.as_str()) {
            Ok(file) => Ok(ToWrite::new(file)),
            Err(_) => Err(PortFault),
        }
    }
}

// The open mode of the file that a job writes: created if it does not exist, and truncated if it does.
fn made_anew() -> OpenOptions
    ensures { result ≡ with_truncate (with_create (with_write new_options true) true) true }
{
    let mut options = OpenOptions::new();
    options.write(true).create(true).truncate(true);
    options
}

impl<'a, R: Files> FileOnFirstWrite<'a, R> {
    // Writes to the file, and creates it first if necessary.
    fn write_made(&mut self, piece: &[u8]) -> Result<usize, PortFault>
        ensures count { CountsBytes piece.now result }
        ensures passed_on { IsWritten R.File.contents self.old.file self.new.file result piece.now }
        ensures path { self.new.path ≡ self.old.path }
    {
        if self.file.is_none() {
            self.file = Some(self.make()?);
        }
        match &mut self.file {
            Some(file) => file.write(piece),
            None => unreachable!(),
        }
    }
}

impl<'a, R: Files> Target for FileOnFirstWrite<'a, R> {
    ghost sent = { λ _. None };

    ghost flushed = { λ _. None };

    ghost has_failed = { λ file. file.failed };

    /// Writes with the file's own write. If the file cannot be created, the write fails.
    fn write(&mut self, piece: &[u8]) -> Result<usize, PortFault>
        ensures target { WritesPiece ⟦<FileOnFirstWrite<'a, R> as Target>⟧ self.old self.new piece.now result }
        ensures passed_on { self.old.failed ≡ false →
            IsWritten R.File.contents self.old.file self.new.file result piece.now }
        ensures kept { IsKept (λ file. file.path) (IsUnasked self.old.failed piece.now) self.old self.new }
    {
        if self.failed {
            return Err(PortFault);
        }
        if piece.is_empty() {
            return Ok(0);
        }
        let written = self.write_made(piece);
        self.failed = written.is_err();
        written
    }

    /// Flushes with the file's own flush. A file that is not created has nothing to flush.
    fn flush(&mut self) -> Result<(), PortFault>
        ensures target { FlushesSent ⟦<FileOnFirstWrite<'a, R> as Target>⟧ self.old self.new result }
        ensures passed_on { IsFlushed R.File.contents self.old.failed self.old.file self.new.file result }
        ensures kept { IsKept (λ file. file.path) (self.old.failed ≡ true) self.old self.new }
    {
        if self.failed {
            return Err(PortFault);
        }
        let flushed = match &mut self.file {
            Some(file) => file.flush(),
            None => Ok(()),
        };
        self.failed = flushed.is_err();
        flushed
    }
}

impl<R: Files> HasPath for FileOnFirstWrite<'_, R> {
    ghost path = { λ file. option_map string_bytes file.path };
}

impl<'a, R: Files + AllocGlobal> OutputFile for FileOnFirstWrite<'a, R> {
    fn place(&mut self, path: Option<&str>) -> Result<(), AllocError>
        ensures placed { IfOk result (λ _. IsPlaced (file_ghosts ⟦<FileOnFirstWrite<'a, R> as Target>⟧
            ⟦<FileOnFirstWrite<'a, R> as HasPath>⟧.path) self.old (option_map (λ p. p.now) path.entry) self.new) }
        ensures uncreated { IfOk result (λ _. self.new.file ≡ self.old.file) }
        ensures unplaced { IfErr result (λ _. self.new ≡ self.old) }
    {
        self.path = match path {
            Some(path) => Some(String::from_str(self.rt.alloc(), path)?),
            None => None,
        };
        Ok(())
    }
}
