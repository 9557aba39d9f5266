//! A buffer of fixed size in front of a target.
ghost use Rattle.std.specs.Prelude.{◌≡◌, true, false, [], ◌++◌, OnOk, IsErr};
ghost use Rattle.std.specs.Mem.{manually_drop_value};
ghost use Rattle.rota_core.specs.Numeral.{numeral, signed_numeral};
ghost use Rattle.text_sink.specs.KnownFront.{known_front};
ghost use Rattle.text_sink.specs.Pieces.{piece_text, pieces_text};
ghost use Rattle.text_sink.specs.TermText.{unit_text};

use crate::text_buffer::{CAPACITY, MAX_DIGITS, MAX_TERM_LEN, TextBuffer, send};
use byte_ports::{PortFault, Target};
use itoa::Buffer;
use std::mem::ManuallyDrop;
use std::snapshot::Snapshot;

/// A piece of a text.
#[derive(Clone, Copy)]
pub enum Piece<'a> {
    /// The bytes themselves.
    Bytes(&'a [u8]),
    /// The number in decimal digits.
    Natural(u64),
    /// The number in decimal digits, with a minus sign if it is negative.
    Integer(i64),
}

/// A buffer of 4096 bytes in front of a target. The bytes that were sent are at every moment a prefix of the
/// text that was written, and those that were sent before the sink was made stay sent. After the first
/// failure every call fails, and the target is not called again.
#[derive(Drop)]
pub struct Sink<'a, W: Target> {
    target: &'a mut W,
    // the target before the sink was made: it takes no bytes, and only the proofs read it
    before: ManuallyDrop<Snapshot<W>>,
    buffer: TextBuffer,
    failed: bool,
    ghost fails_with_target: { failed ≡ true → W.has_failed target.now ≡ true },
    ghost keeps_sent: { known_front (W.sent (manually_drop_value before).value) (W.sent target.now) ≡ W.sent (manually_drop_value before).value },
}

impl<'a, W: Target> Sink<'a, W> {
    ghost use Rattle.text_sink.specs.Sink.{bytes_put, sent_before, sink_failed, target_name, target_of, FinishesSink, PutsText};

    /// A sink over the target. Its text so far is the bytes that were sent to the target.
    ///
    /// Here `put_solution` writes a text into a sink over the target `out`, and all of it is sent:
    ///
    /// ```
    /// let mut sink = Sink::new(out);
    /// put_solution(&mut sink, instance, roster)?;
    /// sink.finish()
    /// ```
    pub fn new(target: &'a mut W) -> Sink<'a, W>
        ensures same_target { target_name result ≡ target.entry.ghost_name }
        ensures target { target_of result ≡ target.old }
        ensures before { sent_before result ≡ W.sent target.old }
        ensures bytes { bytes_put result ≡ W.sent target.old }
        ensures sound { sink_failed result ≡ false }
    {
        let before = ManuallyDrop::new(Snapshot::of(target));
        Sink {
            target,
            before,
            buffer: TextBuffer::new(),
            failed: false,
        }
    }

    /// Appends the piece. It fails only if the target does.
    #[inline(always)]
    pub fn put(&mut self, piece: &[u8]) -> Result<(), PortFault>
        ensures takes { PutsText self.old result piece.now self.new }
        ensures for_good { sink_failed self.old ≡ true → IsErr result }
    {
        if self.failed || piece.len() > self.buffer.room() {
            self.empty_buffer()?;
            if piece.len() > CAPACITY {
                let sent = send(self.target, piece);
                self.failed = sent.is_err();
                return sent;
            }
        }
        self.buffer.append(piece);
        Ok(())
    }

    /// Appends the number in decimal digits, with a minus sign if it is negative and no sign otherwise. It
    /// fails only if the target does.
    #[inline]
    pub fn number(&mut self, number: i128) -> Result<(), PortFault>
        ensures takes { PutsText self.old result (signed_numeral number) self.new }
        ensures for_good { sink_failed self.old ≡ true → IsErr result }
    {
        let mut digits = Buffer::new();
        self.put(digits.format(number).as_bytes())
    }

    /// Appends the number in decimal digits. It fails only if the target does.
    #[inline]
    pub fn natural(&mut self, number: u64) -> Result<(), PortFault>
        ensures takes { PutsText self.old result (numeral number) self.new }
        ensures for_good { sink_failed self.old ≡ true → IsErr result }
    {
        if number >= 1 << 32 {
            return self.put(Buffer::new().format(number).as_bytes());
        }
        if self.failed || self.buffer.room() < MAX_DIGITS {
            self.empty_buffer()?;
        }
        self.buffer.append_number(number as u32);
        Ok(())
    }

    /// Appends the pieces, one after the other. It fails only if the target does.
    pub fn put_all(&mut self, pieces: &[Piece]) -> Result<(), PortFault>
        ensures takes { PutsText self.old result (pieces_text pieces.now) self.new }
        ensures for_good { sink_failed self.old ≡ true → IsErr result }
    {
        if self.failed {
            return Err(PortFault);
        }
        for index in 0..pieces.len() {
            self.put_piece(pieces[index])?;
        }
        Ok(())
    }

    // Appends the piece.
    fn put_piece(&mut self, piece: Piece) -> Result<(), PortFault>
        ensures { PutsText self.old result (piece_text piece.entry) self.new }
    {
        match piece {
            Piece::Bytes(bytes) => self.put(bytes),
            Piece::Natural(number) => self.natural(number),
            Piece::Integer(number) => self.number(number as i128),
        }
    }

    /// Appends a piece, then the number in decimal digits, then another piece. It fails only if the target
    /// does.
    #[inline(always)]
    pub fn number_between(
        &mut self,
        before: &[u8],
        number: u64,
        after: &[u8],
    ) -> Result<(), PortFault>
        ensures takes { PutsText self.old result (before.now ++ numeral number ++ after.now) self.new }
        ensures for_good { sink_failed self.old ≡ true → IsErr result }
    {
        self.put(before)?;
        self.natural(number)?;
        self.put(after)
    }

    /// Appends a term with the coefficient 1 or -1, and a blank. It fails only if the target does.
    #[inline(always)]
    pub fn unit_term(&mut self, positive: bool, variable: u32) -> Result<(), PortFault>
        ensures takes { PutsText self.old result (unit_text positive variable) self.new }
        ensures for_good { sink_failed self.old ≡ true → IsErr result }
    {
        if self.failed || self.buffer.room() < MAX_TERM_LEN {
            self.empty_buffer()?;
        }
        self.buffer.append_term(positive, variable);
        Ok(())
    }

    /// Sends the rest of the buffer, and flushes all sent bytes. `Ok` means that everything that was written
    /// is sent and flushed. It fails if and only if the target has failed, before or in this call.
    pub fn finish(&mut self) -> Result<(), PortFault>
        ensures finishes { FinishesSink self.old result [] self.new }
    {
        self.empty_buffer()?;
        let flushed = self.target.flush();
        self.failed = flushed.is_err();
        flushed
    }

    // Sends the contents of the buffer. If the sink had failed, it returns the failure.
    #[cold]
    #[inline(never)]
    fn empty_buffer(&mut self) -> Result<(), PortFault>
        ensures takes { PutsText self.old result [] self.new }
        ensures empty { OnOk result (self.new.buffer ≡ []) }
        ensures for_good { sink_failed self.old ≡ true → IsErr result }
    {
        if self.failed {
            return Err(PortFault);
        }
        let sent = self.buffer.send_to(self.target);
        self.failed = sent.is_err();
        sent
    }
}
