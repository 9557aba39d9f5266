//! The standard library's readers and writers as ports. Nothing is tried again after an error. Short reads
//! and writes are passed on, and so is each flush.
ghost use Rattle.std.specs.Prelude.{◌≤◌, IfOk};

use byte_ports::{FromRead, PortFault, Source, Target, ToWrite};
use std::io;
use std::io::{ErrorKind, Read, Write};
use std::test::Fail;

#[test]
fn readers_and_writers_are_ports(rt: HostRuntime) -> Result<(), Fail> {
    let mut buffer = [0; 4];
    let mut source = FromRead::new(b"text".as_slice());
    assert!(rt; (source.read(&mut buffer), buffer) == (Ok(4), *b"text"));
    let mut text = Vec::new(rt.alloc());
    let mut target = ToWrite::new(&mut text);
    assert!(rt; target.write(b"text") == Ok(4) && target.flush() == Ok(()));
    assert!(rt; text.as_slice() == b"text".as_slice());
    Ok(())
}

// The effect of a port at a call.
#[derive(Clone, Copy)]
enum Step {
    /// It moves this number of bytes, or all that are left if there are fewer.
    Moves(usize),
    /// It fails.
    Fails(ErrorKind),
}

// A reader and a writer that performs these steps one after another, and counts its calls and its flushes.
#[derive(Drop)]
struct Scripted<'a> {
    steps: &'a [Step],
    calls: &'a mut u32,
    flushes: &'a mut u32,
}

impl Scripted<'_> {
    // Performs the next step on this number of bytes.
    fn step(&mut self, most: usize) -> io::Result<usize>
        ensures { IfOk result (λ n. n ≤ most) }
    {
        *self.calls = self.calls.saturating_add(1);
        let Some((step, rest)) = self.steps.split_first() else {
            return Err(io::Error::from(ErrorKind::Other));
        };
        self.steps = rest;
        match *step {
            Step::Moves(count) => Ok(count.min(most)),
            Step::Fails(kind) => Err(io::Error::from(kind)),
        }
    }
}

impl Read for Scripted<'_> {
    fn read(&mut self, buf: &mut [u8]) -> io::Result<usize> {
        self.step(buf.len())
    }
}

impl Write for Scripted<'_> {
    fn write(&mut self, buf: &[u8]) -> io::Result<usize> {
        self.step(buf.len())
    }

    fn flush(&mut self) -> io::Result<()> {
        *self.flushes = self.flushes.saturating_add(1);
        self.step(0)?;
        Ok(())
    }
}

// The errors of std's readers and writers.
const KINDS: [ErrorKind; 21] = [
    ErrorKind::Interrupted,
    ErrorKind::WouldBlock,
    ErrorKind::TimedOut,
    ErrorKind::WriteZero,
    ErrorKind::UnexpectedEof,
    ErrorKind::BrokenPipe,
    ErrorKind::ConnectionReset,
    ErrorKind::ConnectionAborted,
    ErrorKind::NotConnected,
    ErrorKind::StorageFull,
    ErrorKind::QuotaExceeded,
    ErrorKind::FileTooLarge,
    ErrorKind::IsADirectory,
    ErrorKind::NotFound,
    ErrorKind::PermissionDenied,
    ErrorKind::InvalidInput,
    ErrorKind::InvalidData,
    ErrorKind::Unsupported,
    ErrorKind::OutOfMemory,
    ErrorKind::Other,
    ErrorKind::Uncategorized,
];

// A short read is passed on. After an error, `Interrupted` too, the reader is not called again.
#[test]
fn reader_is_not_called_after_an_error(rt: HostRuntime) {
    for kind in KINDS {
        let (mut calls, mut flushes) = (0, 0);
        let steps = [
            Step::Moves(3),
            Step::Moves(9),
            Step::Fails(kind),
            Step::Moves(4),
        ];
        let mut source = FromRead::new(Scripted {
            steps: &steps,
            calls: &mut calls,
            flushes: &mut flushes,
        });
        let mut buffer = [0; 4];
        let read = [
            source.read(&mut buffer),
            source.read(&mut buffer),
            source.read(&mut buffer),
            source.read(&mut buffer),
        ];
        assert!(rt; read == [Ok(3), Ok(4), Err(PortFault), Err(PortFault)]);
        assert!(rt; calls == 3);
    }
}

// An empty buffer moves nothing, is no failure, and leaves the port sound: the reader is not called.
#[test]
fn reader_of_an_empty_buffer(rt: HostRuntime) {
    let (mut calls, mut flushes) = (0, 0);
    let mut source = FromRead::new(Scripted {
        steps: &[Step::Moves(1)],
        calls: &mut calls,
        flushes: &mut flushes,
    });
    let empty: &mut [u8] = &mut [];
    assert!(rt; source.read(empty) == Ok(0));
    assert!(rt; source.read(&mut [0; 4]) == Ok(1));
}

// The answers of a writer to pieces of four bytes, and to a flush after them; then the number of its calls
// and flushes.
#[derive(Clone, Copy, PartialEq, Eq, Debug)]
struct Written {
    answers: [Result<usize, PortFault>; 3],
    flush: Result<(), PortFault>,
    calls: u32,
    flushes: u32,
}

fn write_pieces(steps: &[Step]) -> Written {
    let (mut calls, mut flushes) = (0, 0);
    let mut target = ToWrite::new(Scripted {
        steps,
        calls: &mut calls,
        flushes: &mut flushes,
    });
    let answers = [
        target.write(b"text"),
        target.write(b""),
        target.write(b"text"),
    ];
    let flush = target.flush();
    Written {
        answers,
        flush,
        calls,
        flushes,
    }
}

// Short writes are passed on, an empty piece is no failure and not passed on, and a flush is passed on once.
#[test]
fn writer_takes_pieces(rt: HostRuntime) {
    let end = write_pieces(&[Step::Moves(3), Step::Moves(1), Step::Moves(0)]);
    assert!(rt; end.answers == [Ok(3), Ok(0), Ok(1)] && end.flush == Ok(()));
    assert!(rt; end.calls == 3 && end.flushes == 1);
}

// After an error, `Interrupted` too, the writer is neither called nor flushed again. If it accepts no byte of
// a piece, that is an error.
#[test]
fn writer_is_not_called_after_an_error(rt: HostRuntime) {
    let failed = Err(PortFault);
    for kind in KINDS {
        let end = write_pieces(&[Step::Fails(kind), Step::Moves(4), Step::Moves(4)]);
        assert!(rt; end.answers == [failed; 3] && end.flush == Err(PortFault));
        assert!(rt; end.calls == 1 && end.flushes == 0);
    }
    let end = write_pieces(&[Step::Moves(0), Step::Moves(4)]);
    assert!(rt; end.answers == [failed; 3] && end.flush == Err(PortFault));
    assert!(rt; end.calls == 1 && end.flushes == 0);
}

// A flush that fails is not tried again.
#[test]
fn failed_flush_is_for_good(rt: HostRuntime) {
    for kind in KINDS {
        let (mut calls, mut flushes) = (0, 0);
        let steps = [Step::Fails(kind), Step::Moves(0)];
        let mut target = ToWrite::new(Scripted {
            steps: &steps,
            calls: &mut calls,
            flushes: &mut flushes,
        });
        let flushed = [target.flush(), target.flush()];
        assert!(rt; flushed == [Err(PortFault); 2] && target.write(b"text") == Err(PortFault));
        assert!(rt; calls == 1 && flushes == 1);
    }
}

// The answers of a reader with these steps to four calls with a buffer of four bytes, and the number of its
// calls.
fn read_four_times(steps: &[Step]) -> ([Result<usize, PortFault>; 4], u32) {
    let (mut calls, mut flushes) = (0, 0);
    let mut source = FromRead::new(Scripted {
        steps,
        calls: &mut calls,
        flushes: &mut flushes,
    });
    let mut buffer = [0; 4];
    let answers = [
        source.read(&mut buffer),
        source.read(&mut buffer),
        source.read(&mut buffer),
        source.read(&mut buffer),
    ];
    (answers, calls)
}

// After its end a reader is asked again, and its answer is passed on.
#[test]
fn reader_behind_its_end(rt: HostRuntime) {
    let steps = [
        Step::Moves(1),
        Step::Moves(0),
        Step::Moves(0),
        Step::Moves(2),
    ];
    assert!(rt; read_four_times(&steps) == ([Ok(1), Ok(0), Ok(0), Ok(2)], 4));
    let steps = [Step::Moves(0), Step::Fails(ErrorKind::Other)];
    let failed = Err(PortFault);
    assert!(rt; read_four_times(&steps) == ([Ok(0), failed, failed, failed], 2));
}

// The port fails at the call at which the reader does, and not before.
#[test]
fn reader_fails_at_each_call(rt: HostRuntime) {
    for index in 0..4 {
        let mut steps = [Step::Moves(3); 4];
        steps[index] = Step::Fails(ErrorKind::Interrupted);
        let (answers, calls) = read_four_times(&steps);
        for (call, answer) in answers.iter().enumerate() {
            let wanted = if call < index { Ok(3) } else { Err(PortFault) };
            assert!(rt; *answer == wanted, "call {call} of {index}");
        }
        assert!(rt; calls as usize == index + 1);
    }
}

// The port fails at the call at which the writer does: the two pieces are written, and then it is flushed.
#[test]
fn writer_fails_at_each_call(rt: HostRuntime) {
    for index in 0..3 {
        let mut steps = [Step::Moves(4); 3];
        steps[index] = Step::Fails(ErrorKind::WouldBlock);
        let end = write_pieces(&steps);
        let [first, _, second] = end.answers;
        assert!(rt; first.is_ok() == (index > 0) && second.is_ok() == (index > 1));
        assert!(rt; end.flush == Err(PortFault) && end.calls as usize == index + 1);
        assert!(rt; end.flushes == u32::from(index == 2));
    }
}

// Large buffers and pieces are passed on whole, and a flush ends nothing.
#[test]
fn great_pieces_and_flushes(rt: HostRuntime) -> Result<(), Fail> {
    let (mut calls, mut flushes) = (0, 0);
    let mut bytes = vec![in rt.alloc(); 0; 1_000_000]?;
    let steps = [
        Step::Moves(usize::MAX),
        Step::Moves(0),
        Step::Moves(999_999),
    ];
    let mut target = ToWrite::new(Scripted {
        steps: &steps,
        calls: &mut calls,
        flushes: &mut flushes,
    });
    assert!(rt; target.write(&bytes) == Ok(1_000_000) && target.flush() == Ok(()));
    assert!(rt; target.write(&bytes) == Ok(999_999));
    let mut source = FromRead::new(Scripted {
        steps: &[Step::Moves(usize::MAX)],
        calls: &mut calls,
        flushes: &mut flushes,
    });
    assert!(rt; source.read(&mut bytes) == Ok(1_000_000));
    assert!(rt; calls == 4 && flushes == 1);
    Ok(())
}
