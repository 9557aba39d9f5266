//! The ports that bytes come from and go to.
ghost use Rattle.std.specs.Prelude.{◌≡◌, ℕ, ◌<◌, ◌≤◌, Bool, ◌||◌, Option, Some, codes, length, is_err, true, false, IsErr, IsOk, IfOk, IfErr, OnOk};
ghost use Rattle.byte_ports.specs.Ports.{KnownBytes, known_len};
ghost use Rattle.byte_ports.specs.PortCalls.{LeavesAfterRead, SendsOnWrite, says_end};

use std::error::Error;
use std::fmt;

/// A port failed. It fails at every later call.
#[derive(Clone, Copy, PartialEq, Eq, Debug)]
pub struct PortFault;

impl fmt::Display for PortFault {
    ghost output = { λ _. Some (codes "a port failed") };

    fn fmt<W: fmt::Write>(&self, f: &mut fmt::Formatter<W>) -> fmt::Result {
        f.write_str("a port failed")
    }
}

impl Error for PortFault {}

/// A source of bytes. A source that failed once fails at every later call.
pub trait Source {
    // the bytes that are left, if they are known
    ghost left: { Self → KnownBytes };

    ghost has_failed: { Self → Bool };

    // whether a read has reported the end
    ghost has_ended: { Self → Bool };

    /// Moves the next bytes to the front of the buffer, and returns their number. It moves none in only three
    /// cases: at the end, into an empty buffer, and at an error. An empty buffer is no error: a sound source
    /// stays sound. If it succeeds and moves none into a buffer that is not empty, the source is at its end.
    fn read(&mut self, buffer: &mut [u8]) -> Result<usize, PortFault>
        ensures bound { IfOk result (λ n. n ≤ length buffer.new) }
        ensures bytes { LeavesAfterRead (left self.old) result buffer.new (left self.new) }
        ensures empty { length buffer.old ≡ 0 → has_failed self.old ≡ false → IsOk result }
        ensures failure { has_failed self.new ≡ (has_failed self.old || is_err result) }
        ensures for_good { has_failed self.old ≡ true → IsErr result }
        ensures end { has_ended self.new ≡ (has_ended self.old || says_end result buffer.new) };
}

/// A target of bytes. A target that failed once fails at every later call.
pub trait Target {
    // the bytes that were sent, if they are known
    ghost sent: { Self → KnownBytes };

    // the number of sent bytes that are flushed, if it is known
    ghost flushed: { Self → Option ℕ };

    ghost has_failed: { Self → Bool };

    /// Sends the first bytes of the piece, at least one if the piece is not empty. An error sends none. An
    /// empty piece is no error: a sound target stays sound.
    fn write(&mut self, piece: &[u8]) -> Result<usize, PortFault>
        ensures bound { IfOk result (λ n. n ≤ length piece.now) }
        ensures progress { IfOk result (λ n. 0 < length piece.now → 0 < n) }
        ensures bytes { SendsOnWrite (sent self.old) result piece.now (sent self.new) }
        ensures empty { length piece.now ≡ 0 → has_failed self.old ≡ false → IsOk result }
        ensures flushed { flushed self.new ≡ flushed self.old }
        ensures failure { has_failed self.new ≡ (has_failed self.old || is_err result) }
        ensures for_good { has_failed self.old ≡ true → IsErr result };

    /// Flushes all sent bytes. An error flushes none.
    fn flush(&mut self) -> Result<(), PortFault>
        ensures bytes { sent self.new ≡ sent self.old }
        ensures flushed { OnOk result (flushed self.new ≡ known_len (sent self.new)) }
        ensures unflushed { IfErr result (λ _. flushed self.new ≡ flushed self.old) }
        ensures failure { has_failed self.new ≡ (has_failed self.old || is_err result) }
        ensures for_good { has_failed self.old ≡ true → IsErr result };
}
