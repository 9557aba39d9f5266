//! The text of an answer.
ghost use Rattle.std.specs.Prelude.{◌≡◌, true, IsErr};
ghost use Rattle.text_sink.specs.Sink.{PutsText, sink_failed};
ghost use Rattle.rota_pb.specs.RunPorts.{writer_of};
ghost use Rattle.rota_pb.specs.Steps.{send};
ghost use Rattle.rota_bound_run.specs.BoundText.{bound_text, claim_line, optimal_line, penalty_line};

use crate::answer::PeriodAnswer;
use crate::claims::Claim;
use byte_ports::{PortFault, Target};
use rota_pb::Fault;
use text_sink::{Piece, Sink};

// Writes the line of the claim.
fn put_claim_line<W: Target>(sink: &mut Sink<W>, claim: Claim) -> Result<(), PortFault>
    ensures takes { PutsText sink.old result (claim_line claim) sink.new }
    ensures for_good { sink_failed sink.old ≡ true → IsErr result }
{
    match claim {
        Claim::AtLeast(bound) => sink.put_all(&[
            Piece::Bytes(b"lower bound"),
            Piece::Bytes(b" "),
            Piece::Natural(bound),
            Piece::Bytes(b"\n"),
        ]),
        Claim::NoRoster => sink.put(b"no roster exists\n"),
        Claim::Unknown => sink.put(b"no proof that no roster exists\n"),
    }
}

// Writes the line of the penalty, if there is one.
fn put_penalty_line<W: Target>(sink: &mut Sink<W>, penalty: Option<u64>) -> Result<(), PortFault>
    ensures { PutsText sink.old result (penalty_line penalty) sink.new }
{
    match penalty {
        Some(penalty) => sink.put_all(&[
            Piece::Bytes(b"penalty"),
            Piece::Bytes(b" "),
            Piece::Natural(penalty),
            Piece::Bytes(b"\n"),
        ]),
        None => Ok(()),
    }
}

// Writes the line of optimal rosters.
fn put_optimal_line<W: Target>(sink: &mut Sink<W>, optimal: bool) -> Result<(), PortFault>
    ensures { PutsText sink.old result (optimal_line optimal) sink.new }
{
    if optimal {
        return sink.put(b"optimal\n");
    }
    Ok(())
}

// Writes the whole text.
fn put_answer<W: Target>(sink: &mut Sink<W>, answer: &PeriodAnswer) -> Result<(), PortFault>
    ensures takes { PutsText sink.old result (bound_text answer.now) sink.new }
    ensures for_good { sink_failed sink.old ≡ true → IsErr result }
{
    put_claim_line(sink, answer.claim)?;
    put_penalty_line(sink, answer.penalty)?;
    put_optimal_line(sink, answer.optimal)
}

/// Writes the text of the answer, a line for each fact. `Ok` means that the whole text is sent and flushed. The
/// only error is `Write`, if the writer failed: it got a prefix of the text.
pub(crate) fn write_answer<W: Target>(answer: &PeriodAnswer, out: &mut W) -> Result<(), Fault>
    ensures { (send (writer_of W.Target out.old out.new) (bound_text answer.now)).ends result }
{
    let mut sink = Sink::new(out);
    put_answer(&mut sink, answer).map_err(|_| Fault::Write)?;
    sink.finish().map_err(|_| Fault::Write)
}
