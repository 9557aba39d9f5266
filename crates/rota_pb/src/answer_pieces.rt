//! A solver's answer, read in pieces.
ghost use Rattle.std.specs.Prelude.{IfErr, OnOk};
ghost use Rattle.rota_pb.specs.AnswerPieces.{read_answer as answer_reading};
ghost use Rattle.rota_pb.specs.Feeding.{HasTakenAll, StopsTaking};
ghost use Rattle.rota_pb.specs.RunPorts.{reader_of};

use crate::fault::Fault;
use crate::file_bytes::PIECE;
use byte_ports::Source;
use solver_text::laws::fault_of_a_beginning_stays;
use solver_text::{Answer, Solved};
use std::alloc::Global;

// Feeds the answer with the bytes of the source, up to its end.
fn feed_all<A: Source>(source: &mut A, answer: &mut Answer) -> Result<(), Fault>
    ensures taken { OnOk result (HasTakenAll (reader_of A.Source source.old source.new) answer.old answer.new) }
    ensures fault { IfErr result (StopsTaking (reader_of A.Source source.old source.new) answer.old) }
{
    let mut buffer = [0; PIECE];
    for _ in 0..u64::MAX {
        let Ok(count) = source.read(&mut buffer) else {
            return Err(Fault::Read);
        };
        if count == 0 {
            return Ok(());
        }
        answer.feed(&buffer[..count])?;
    }
    Err(Fault::Read)
}

// The answer that the source contains, for this number of variables.
pub(crate) fn read_answer<A: Source>(
    alloc: Global,
    variables: u32,
    source: &mut A,
) -> Result<Solved, Fault>
    ensures { (answer_reading variables (reader_of A.Source source.old source.new)).ends result }
{
    fault_of_a_beginning_stays();
    let mut answer = Answer::new(alloc, variables)?;
    feed_all(source, &mut answer)?;
    Ok(answer.finish()?)
}
