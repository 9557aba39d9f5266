//! How often a target is called: once for each full buffer and for each piece that is longer than one, once for the rest,
//! and once to flush it. After a call that failed it is not called again.
ghost use Rattle.std.specs.Prelude.{◌≡◌, ◌||◌, IsErr, None, false, is_err, true};

use byte_ports::{PortFault, Target};
use opb_text::Sink;
use std::process::Abort;

/// The number of calls of a target, including failed calls.
#[derive(Clone, Copy, PartialEq, Eq, Debug)]
pub struct Calls {
    pub writes: u32,
    pub flushes: u32,
}

/// How many calls of a port succeed before it fails, permanently.
#[derive(Clone, Copy)]
pub struct Allowance {
    pub good_calls: u32,
    pub failed: bool,
}

impl Allowance {
    /// No call was made yet.
    pub fn new(good_calls: u32) -> Allowance
        ensures { result.failed ≡ false }
    {
        Allowance {
            good_calls,
            failed: false,
        }
    }

    /// Makes one call.
    pub fn call(&mut self) -> Result<(), PortFault>
        ensures failure { self.new.failed ≡ (self.old.failed || is_err result) }
        ensures for_good { self.old.failed ≡ true → IsErr result }
    {
        if self.failed || self.good_calls == 0 {
            self.failed = true;
            return Err(PortFault);
        }
        self.good_calls -= 1;
        Ok(())
    }
}

/// A target that takes whole pieces, and fails after this many calls. Its calls are counted, also those after the failure.
#[derive(Drop)]
pub struct Counted {
    pub calls: Calls,
    allowance: Allowance,
}

impl Counted {
    /// A target that has not been called.
    pub fn new(good_calls: u32) -> Counted {
        Counted {
            calls: Calls {
                writes: 0,
                flushes: 0,
            },
            allowance: Allowance::new(good_calls),
        }
    }
}

impl Target for Counted {
    ghost sent = { λ _. None };

    ghost flushed = { λ _. None };

    ghost has_failed = { λ t. t.allowance.failed };

    fn write(&mut self, piece: &[u8]) -> Result<usize, PortFault> {
        self.calls.writes = self.calls.writes.saturating_add(1);
        if !self.allowance.failed && piece.is_empty() {
            return Ok(0);
        }
        self.allowance.call()?;
        Ok(piece.len())
    }

    fn flush(&mut self) -> Result<(), PortFault> {
        self.calls.flushes = self.calls.flushes.saturating_add(1);
        self.allowance.call()
    }
}

// 256 of these lines fill a buffer.
const LINE: &[u8] = b"fifteen letters\n";

// Writes lines that fill four buffers to the last byte.
fn put_lines<W: Target>(sink: &mut Sink<W>) -> Result<(), PortFault> {
    for _ in 0..1024 {
        sink.put(LINE)?;
    }
    sink.finish()
}

// Writes a line, pieces that are longer than a buffer, and a line.
fn put_long_pieces<W: Target>(sink: &mut Sink<W>) -> Result<(), PortFault> {
    sink.put(LINE)?;
    sink.put(&[b' '; 5000])?;
    sink.put(&[b' '; 9000])?;
    sink.put(LINE)?;
    sink.finish()
}

// Writes more, and finishes again, whatever the results.
fn go_on<W: Target>(sink: &mut Sink<W>) -> [Result<(), PortFault>; 4] {
    [
        put_lines(sink),
        put_long_pieces(sink),
        sink.number_between(LINE, 7, LINE),
        sink.finish(),
    ]
}

// The result of the lines at a target with this number of good calls, or of the long pieces, and the target's
// calls. If it fails, the sink is called again.
fn calls_with(good_calls: u32, long_pieces: bool) -> (Result<(), PortFault>, Calls) {
    let mut target = Counted::new(good_calls);
    let mut sink = Sink::new(&mut target);
    let outcome = if long_pieces {
        put_long_pieces(&mut sink)
    } else {
        put_lines(&mut sink)
    };
    if outcome.is_err() {
        let _refused = go_on(&mut sink);
    }
    (outcome, target.calls)
}

// Four writes and a flush are wanted. With fewer good calls the target is called one more time than it has
// good calls.
fn check_calls(rt: &impl Abort, long_pieces: bool) {
    for good_calls in 0..5 {
        let (outcome, calls) = calls_with(good_calls, long_pieces);
        assert_eq!(rt; outcome, Err(PortFault));
        assert_eq!(rt;
            calls.writes,
            4.min(good_calls + 1),
            "{good_calls} good calls"
        );
        assert_eq!(rt;
            calls.flushes,
            u32::from(good_calls == 4),
            "{good_calls} good calls"
        );
    }
    let whole = Calls {
        writes: 4,
        flushes: 1,
    };
    assert_eq!(rt; calls_with(5, long_pieces), (Ok(()), whole));
}

#[test]
fn target_is_called_once_for_each_buffer(rt: HostRuntime) {
    check_calls(&rt, false);
    check_calls(&rt, true);
}
