//! Text that waits to be sent.
ghost use Rattle.std.specs.Prelude.{◌≡◌, ◌+◌, ◌≤◌, ◌||◌, [], ◌++◌, length, take, is_err, OnOk, OnErr};
ghost use Rattle.std.specs.Io.KnownBytes.{append_known};
ghost use Rattle.byte_ports.specs.Ports.{Begins};
ghost use Rattle.rota_core.specs.Numeral.{numeral};
ghost use Rattle.text_sink.specs.TermText.{unit_text};

use crate::digits::{count_digits, ending};
use crate::term_prefix::TermPrefix;
use arrayvec::ArrayVec;
use byte_ports::{PortFault, Target};
use itoa::write_digits;
use std::marker::Model;

/// The capacity of a buffer in bytes.
pub const CAPACITY: usize = 4096;

/// The number of digits of the maximum `u32`.
pub const MAX_DIGITS: usize = 10;

/// The room that a term needs.
pub const MAX_TERM_LEN: usize = 17;

/// Text that waits to be sent, at most 4096 bytes.
#[derive(Drop)]
pub struct TextBuffer {
    bytes: ArrayVec<u8, CAPACITY>,
    len: usize,
    // the first part of the terms that are written without a division
    prefix: TermPrefix,
}

impl Model for TextBuffer {
    ghost use Rattle.std.specs.Prelude.{ℕ, List, ◌≡◌, ◌≤◌, length, take};

    ghost Value = { List ℕ };

    ghost view = { λ buffer. take buffer.len buffer.bytes.items };

    ghost invariant = { λ buffer. (buffer.len ≤ 4096) × (length buffer.bytes.items ≡ 4096) };
}

impl TextBuffer {
    /// An empty buffer.
    pub fn new() -> TextBuffer
        ensures { result ≡ [] }
    {
        TextBuffer {
            bytes: ArrayVec::from([0; CAPACITY]),
            len: 0,
            prefix: TermPrefix::new(),
        }
    }

    /// The number of bytes that still fit.
    #[inline]
    pub fn room(&self) -> usize
        ensures { result + length self.now ≡ CAPACITY }
    {
        CAPACITY - self.len
    }

    /// Sends the text to the target, and drops it.
    pub fn send_to<W: Target>(&mut self, target: &mut W) -> Result<(), PortFault>
        ensures ok { OnOk result (W.sent target.new ≡ append_known (W.sent target.old) self.old) }
        ensures err { OnErr result (Begins (W.sent target.new) (append_known (W.sent target.old) self.old)) }
        ensures kept { Begins (W.sent target.old) (W.sent target.new) }
        ensures failure { W.has_failed target.new ≡ (W.has_failed target.old || is_err result) }
        ensures empty { self.new ≡ [] }
    {
        let sent = send(target, &self.bytes.as_slice()[..self.len]);
        self.len = 0;
        sent
    }

    /// Appends the piece. There must be room.
    #[inline]
    pub fn append(&mut self, piece: &[u8])
        requires { length self.old + length piece.now ≤ CAPACITY }
        ensures { self.new ≡ self.old ++ piece.now }
    {
        let start = self.len;
        copy_in(self.bytes.as_mut_slice(), start, piece);
        self.len = start + piece.len();
    }

    /// Appends the number in decimal digits. There must be room for ten.
    #[inline]
    pub fn append_number(&mut self, number: u32)
        requires { length self.old + MAX_DIGITS ≤ CAPACITY }
        ensures text { self.new ≡ self.old ++ numeral number }
        ensures short { length self.new ≤ length self.old + MAX_DIGITS }
    {
        let end = self.len + count_digits(number);
        write_digits(u64::from(number), self.bytes.as_mut_slice(), end);
        self.len = end;
    }

    /// Appends a term with the coefficient 1 or -1, and a blank. There must be room for 17 bytes.
    // Each copy has a length that the compiler knows. The bytes that it writes beyond the counted ones are
    // overwritten by the next copy.
    #[inline(always)]
    pub fn append_term(&mut self, positive: bool, variable: u32)
        requires { length self.old + MAX_TERM_LEN ≤ CAPACITY }
        ensures { self.new ≡ self.old ++ unit_text positive variable }
    {
        let first = self.prefix.first;
        if variable < first || variable - first >= 100 {
            return self.append_far_term(positive, variable);
        }
        let sign = if positive { b'+' } else { b'-' };
        let start = self.len;
        let end = start + 1 + self.prefix.len;
        let bytes = self.bytes.as_mut_slice();
        bytes[start] = sign;
        let prefix = self.prefix.bytes;
        copy_in(bytes, start + 1, &prefix);
        copy_in(bytes, end, &ending(variable - first));
        self.len = end + 3;
    }

    // Appends a term digit by digit, and keeps its first part for the next terms.
    #[inline(never)]
    fn append_far_term(&mut self, positive: bool, variable: u32)
        requires { length self.old + MAX_TERM_LEN ≤ CAPACITY }
        ensures { self.new ≡ self.old ++ unit_text positive variable }
    {
        self.append(if positive { b"+1 x" } else { b"-1 x" });
        self.append_number(variable);
        self.append(b" ");
        if variable >= 100 {
            self.prefix.move_to(variable - variable % 100);
        }
    }
}

// Writes the piece over the bytes from the start index on.
#[inline(always)]
fn copy_in(bytes: &mut [u8], start: usize, piece: &[u8])
    requires { start + length piece.now ≤ length bytes.old }
    ensures { take (start + length piece.now) bytes.new ≡ take start bytes.old ++ piece.now }
{
    bytes[start..start + piece.len()].copy_from_slice(piece);
}

/// Sends the whole piece.
#[inline(never)]
pub fn send<W: Target>(target: &mut W, piece: &[u8]) -> Result<(), PortFault>
    ensures ok { OnOk result (W.sent target.new ≡ append_known (W.sent target.old) piece.now) }
    ensures err { OnErr result (Begins (W.sent target.new) (append_known (W.sent target.old) piece.now)) }
    ensures kept { Begins (W.sent target.old) (W.sent target.new) }
    ensures failure { W.has_failed target.new ≡ (W.has_failed target.old || is_err result) }
{
    let mut rest = piece;
    while !rest.is_empty() {
        let count = target.write(rest)?;
        rest = &rest[count..];
    }
    Ok(())
}
