//! A file read whole.
ghost use Rattle.std.specs.Prelude.{◌+◌, IfOk, IfErr};
ghost use Rattle.rota_pb.specs.RunPorts.{reader_of, IsReadUpTo};
ghost use Rattle.rota_pb.specs.RunParts.{StopsReading};

use crate::fault::Fault;
use byte_ports::Source;
use rota_core::MAX_FILE_LEN;
use std::alloc::Global;

// The number of bytes that one read asks for.
pub(crate) const PIECE: usize = 4096;

// Reads up to the end, or `limit` bytes. After the end, and after an error, it reads no more.
fn read_within<S: Source>(alloc: Global, source: &mut S, limit: usize) -> Result<Vec<u8>, Fault>
    ensures read { IfOk result (λ text. IsReadUpTo limit (reader_of S.Source source.old source.new) text.items) }
    ensures fault { IfErr result (StopsReading limit (reader_of S.Source source.old source.new)) }
{
    let mut text = Vec::new(alloc);
    let mut buffer = [0; PIECE];
    while text.len() < limit {
        let room = (limit - text.len()).min(PIECE);
        let Ok(count) = source.read(&mut buffer[..room]) else {
            return Err(Fault::Read);
        };
        if count == 0 {
            return Ok(text);
        }
        if text.extend_from_slice(&buffer[..count]).is_err() {
            return Err(Fault::Memory);
        }
    }
    Ok(text)
}

/// Reads a file to its end, or to one byte more than it may have.
pub fn read_file<S: Source>(alloc: Global, source: &mut S) -> Result<Vec<u8>, Fault>
    ensures read { IfOk result (λ text. IsReadUpTo (MAX_FILE_LEN + 1) (reader_of S.Source source.old source.new) text.items) }
    ensures fault { IfErr result (StopsReading (MAX_FILE_LEN + 1) (reader_of S.Source source.old source.new)) }
{
    read_within(alloc, source, MAX_FILE_LEN + 1)
}
