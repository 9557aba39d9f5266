//! The standard library's readers and writers as ports. Their bytes are not known.
ghost use Rattle.std.specs.Prelude.{◌≡◌, ◌||◌, None, true, false, is_err, IsErr, Ok, MatchResult};
ghost use Rattle.std.specs.Io.KnownBytes.{Keeps, ReadConsumes, WriteAppends};
ghost use Rattle.byte_ports.specs.SourceCalls.{ReadsInto};
ghost use Rattle.byte_ports.specs.StdPorts.{IsUnasked};
ghost use Rattle.byte_ports.specs.TargetCalls.{FlushesSent, WritesPiece};

use crate::ports::{PortFault, Source, Target};
use std::io;
use std::io::{Read, Write};

// The answer of a port for this answer of std's call: its value, or its failure, which is permanent.
fn hand_on<T: Copy>(failed: &mut bool, known: io::Result<T>) -> Result<T, PortFault>
    ensures exact { MatchResult known (λ value. result ≡ Ok value) (λ _. IsErr result) }
    ensures failure { failed.new ≡ (failed.old || is_err known) }
{
    match known {
        Ok(value) => Ok(value),
        Err(_) => {
            *failed = true;
            Err(PortFault)
        }
    }
}

/// A reader as a source. After the first error every call is an error, and the reader is not called again. It
/// is not called for an empty buffer either.
#[derive(Drop)]
pub struct FromRead<R> {
    reader: R,
    failed: bool,
    // Whether the reader has reported its end.
    ended: bool,
}

impl<R: Read> FromRead<R> {
    ghost use Rattle.byte_ports.specs.StdPorts.{inner_reader};

    /// The reader as a source. It has neither failed nor reported its end.
    pub fn new(reader: R) -> FromRead<R>
        ensures sound { ⟦<FromRead<R> as Source>⟧.has_failed result ≡ false }
        ensures unended { ⟦<FromRead<R> as Source>⟧.has_ended result ≡ false }
        ensures reader { inner_reader result ≡ reader }
    {
        FromRead {
            reader,
            failed: false,
            ended: false,
        }
    }
}

impl<R: Read> Source for FromRead<R> {
    ghost use Rattle.byte_ports.specs.StdPorts.{is_failed_reader, inner_reader};

    ghost left = { λ _. None };

    ghost has_failed = { λ s. s.failed };

    ghost has_ended = { λ s. s.ended };

    /// Reads with the reader's own read. The reader is not called after a failure, nor for an empty buffer.
    fn read(&mut self, buffer: &mut [u8]) -> Result<usize, PortFault>
        ensures source { ReadsInto ⟦<FromRead<R> as Source>⟧ self.old self.new buffer.old buffer.new result }
        ensures passed_on { ReadConsumes (R.remaining (inner_reader self.old)) (R.remaining (inner_reader self.new)) result buffer.new }
        ensures unasked { IsUnasked (is_failed_reader self.old) buffer.old → self.new ≡ self.old }
    {
        if self.failed {
            return Err(PortFault);
        }
        if buffer.is_empty() {
            return Ok(0);
        }
        let count = hand_on(&mut self.failed, self.reader.read(buffer))?;
        self.ended = self.ended || count == 0;
        Ok(count)
    }
}

/// A writer as a target. After the first error every call is an error, and the writer is not called again. It
/// is not called for an empty piece either. If it accepts no byte of a piece that is not empty, that is an
/// error.
#[derive(Drop)]
pub struct ToWrite<W> {
    writer: W,
    failed: bool,
}

impl<W: Write> ToWrite<W> {
    ghost use Rattle.byte_ports.specs.StdPorts.{inner_writer};

    /// The writer as a target. It has not failed.
    pub fn new(writer: W) -> ToWrite<W>
        ensures sound { ⟦<ToWrite<W> as Target>⟧.has_failed result ≡ false }
        ensures writer { inner_writer result ≡ writer }
    {
        ToWrite {
            writer,
            failed: false,
        }
    }
}

impl<W: Write> Target for ToWrite<W> {
    ghost use Rattle.byte_ports.specs.StdPorts.{is_failed_writer, inner_writer};

    ghost sent = { λ _. None };

    ghost flushed = { λ _. None };

    ghost has_failed = { λ t. t.failed };

    /// Writes with the writer's own write. The writer is not called after a failure, nor for an empty piece.
    fn write(&mut self, piece: &[u8]) -> Result<usize, PortFault>
        ensures target { WritesPiece ⟦<ToWrite<W> as Target>⟧ self.old self.new piece.now result }
        ensures passed_on { WriteAppends (W.contents (inner_writer self.old)) (W.contents (inner_writer self.new)) result piece.now }
        ensures unasked { IsUnasked (is_failed_writer self.old) piece.now → self.new ≡ self.old }
    {
        if self.failed {
            return Err(PortFault);
        }
        if piece.is_empty() {
            return Ok(0);
        }
        let taken = hand_on(&mut self.failed, self.writer.write(piece))?;
        self.failed = taken == 0;
        if self.failed {
            return Err(PortFault);
        }
        Ok(taken)
    }

    /// Flushes with the writer's own flush. The writer is not called after a failure.
    fn flush(&mut self) -> Result<(), PortFault>
        ensures target { FlushesSent ⟦<ToWrite<W> as Target>⟧ self.old self.new result }
        ensures passed_on { Keeps (W.contents (inner_writer self.old)) (W.contents (inner_writer self.new)) }
        ensures unasked { is_failed_writer self.old ≡ true → self.new ≡ self.old }
    {
        if !self.failed {
            return hand_on(&mut self.failed, self.writer.flush());
        }
        Err(PortFault)
    }
}
