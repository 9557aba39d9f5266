//! Bytes in memory, at most seven per call: the example of your own source in `docs/embedding.md`.
ghost use Rattle.std.specs.Prelude.{None, false};

use byte_ports::{PortFault, Source};

/// Bytes that are returned in small pieces.
#[derive(Drop)]
pub struct Tape<'a> {
    rest: &'a [u8],
    ended: bool,
}

impl<'a> Tape<'a> {
    /// The tape of these bytes, at its start.
    pub fn new(bytes: &'a [u8]) -> Tape<'a> {
        Tape {
            rest: bytes,
            ended: false,
        }
    }
}

impl<'a> Source for Tape<'a> {
    ghost left = { λ _. None };

    ghost has_failed = { λ _. false };

    ghost has_ended = { λ s. s.ended };

    fn read(&mut self, buffer: &mut [u8]) -> Result<usize, PortFault> {
        if buffer.is_empty() {
            return Ok(0);
        }
        let count = self.rest.len().min(buffer.len()).min(7);
        let (first, rest) = self.rest.split_at(count);
        buffer[..count].copy_from_slice(first);
        self.rest = rest;
        self.ended = self.ended || count == 0;
        Ok(count)
    }
}

#[cfg(test)]
mod tests {
    use super::*;
    use std::test::Fail;

    #[test]
    fn a_tape_is_read_to_its_end(rt: HostRuntime) -> Result<(), Fail> {
        let mut tape = Tape::new(b"v x1 -x2\n");
        let mut buffer = [0; 8];
        assert!(rt; tape.read(&mut buffer) == Ok(7));
        assert_eq!(rt; buffer, *b"v x1 -x\0");
        assert!(rt; tape.read(&mut buffer) == Ok(2));
        assert!(rt; tape.read(&mut buffer) == Ok(0));
        Ok(())
    }
}
